// Times as a case keeps them.
ghost use Rattle.std.specs.Prelude.{◌≡◌, ◌≤◌, length};
ghost use Rattle.model.specs.Times.{times};
ghost use Rattle.answers.specs.Clocks.{no_clock, in_clock, clock_of};

use crate::Clock;
use logs::times::Times;

// The clock of a window without times, with drift 0.
pub fn none() -> Clock
    ensures { result ≡ no_clock }
{
    Clock {
        count: 0,
        begin: [0; 32],
        end: [0; 32],
        drift: 0,
    }
}

// Seconds, with zeros behind them up to the room of a case.
fn in_clock(seconds: &[u32]) -> [u32; 32]
    requires { length seconds.now ≤ 32 }
    ensures { result ≡ in_clock seconds.now }
{
    let mut out = [0u32; 32];
    out[..seconds.len()].copy_from_slice(seconds);
    out
}

// The clock with these lists and this drift.
pub fn clock_of(clock: Times<'_>) -> Clock
    requires { (length clock.begin.now ≤ 32) × (length clock.end.now ≤ 32) }
    ensures { result ≡ clock_of (times clock.entry.begin.now clock.entry.end.now clock.entry.drift) }
{
    Clock {
        count: clock.begin.len(),
        begin: in_clock(clock.begin),
        end: in_clock(clock.end),
        drift: clock.drift,
    }
}
