// Known edges by the office clock: from each transaction to every one that began after its end, with the drift added. Sums are of 64 bits, so none wraps.
ghost use Rattle.std.specs.Prelude.{◌≡◌, ◌≤◌, length};
ghost use Rattle.model.specs.Times.{times};
ghost use Rattle.polygraph.specs.Clock.{begun_after, with_clock};

use graph::mask::put_if;
use logs::times::Times;

// Those that began after a moment.
fn after(begin: &[u32], moment: u64) -> u32
    requires { length begin.now ≤ 32 }
    ensures { result ≡ begun_after begin.now moment }
{
    let mut mask: u32 = 0;
    for (v, second) in begin.iter().enumerate() {
        mask = put_if(mask, v as u32, moment < u64::from(*second));
    }
    mask
}

// The edges go into the row words. Two empty lists, of a window without times, have none.
pub fn add(clock: Times<'_>, out: &mut [u32; 32])
    requires { (length clock.begin.now ≤ 32) × (length clock.end.now ≤ 32) }
    ensures { out.new ≡ with_clock (times clock.entry.begin.now clock.entry.end.now clock.entry.drift) out.old }
{
    for (u, second) in clock.end.iter().enumerate() {
        let moment = u64::from(*second) + u64::from(clock.drift);
        out[u] |= after(clock.begin, moment);
    }
}
