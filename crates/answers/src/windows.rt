// Load's tests of a window: of the starting table, then of the log, then of its times.
ghost use Rattle.std.specs.Prelude.{◌≡◌, leb, ℕ, IfOk};
ghost use Rattle.std.specs.List.{list_all, zip};
ghost use Rattle.model.specs.Times.{times, times_number, timed_number};
ghost use Rattle.model.specs.Window.{window, window_number};
ghost use Rattle.refusals.specs.Numbers.{number_of};

use logs::Log;
use logs::times::{TimedLog, Times};
use refusals::Refusal;

// Whether no begin is after its end.
fn in_turn(begin: &[u32], end: &[u32]) -> bool
    ensures { result ≡ list_all (λ (p : ℕ × ℕ). leb p.0 p.1) (zip begin.now end.now) }
{
    begin.iter().zip(end).all(|(b, e)| b <= e)
}

// Of n transactions: 37 lists that are neither both empty nor both of n entries, then 38 a drift over 3,600 or a begin after its end.
fn test_times(n: usize, clock: Times<'_>) -> Result<(), Refusal>
    ensures { number_of result ≡ times_number n (times clock.entry.begin.now clock.entry.end.now clock.entry.drift) }
{
    if clock.begin.len() != clock.end.len() {
        return Err(Refusal::WrongCountOfTimes);
    }
    if (clock.begin.len() != 0) & (clock.begin.len() != n) {
        return Err(Refusal::WrongCountOfTimes);
    }
    if clock.drift > 3600 {
        return Err(Refusal::WrongTimes);
    }
    if !in_turn(clock.begin, clock.end) {
        return Err(Refusal::WrongTimes);
    }
    Ok(())
}

// The log of these bytes with these times, by Load's tests of the log and then those of its times.
pub fn load_timed<'a>(bytes: &'a [u8], clock: Times<'a>) -> Result<TimedLog<'a>, Refusal>
    ensures number { number_of result ≡ timed_number bytes.now (times clock.entry.begin.now clock.entry.end.now clock.entry.drift) }
    ensures log { IfOk result (λ l. (l.log.bytes.now ≡ bytes.now) × (l.clock ≡ clock.entry)) }
{
    let log = Log::load(bytes)?;
    test_times(log.transactions(), clock)?;
    Ok(TimedLog { log, clock })
}

// 36 a starting table that isn't exactly 32 values, then the tests of the log and its times.
pub fn load<'a>(
    bytes: &'a [u8],
    starting: &[u16],
    clock: Times<'a>,
) -> Result<TimedLog<'a>, Refusal>
    ensures number { number_of result ≡ window_number (window bytes.now starting.now (times clock.entry.begin.now clock.entry.end.now clock.entry.drift)) }
    ensures log { IfOk result (λ l. (l.log.bytes.now ≡ bytes.now) × (l.clock ≡ clock.entry)) }
{
    if starting.len() != 32 {
        return Err(Refusal::NotATable);
    }
    load_timed(bytes, clock)
}
