// What a case holds: its log and times, the stage that it counts as, and the case that holds a given window.
ghost use Rattle.std.specs.Prelude.{◌≡◌, ◌≤◌, true, false, MatchResult};
ghost use Rattle.std.proofs.Math.ListN as ListN;
ghost use Rattle.model.specs.Times.{times};
ghost use Rattle.model.specs.Window.{window, window_number};
ghost use Rattle.refusals.specs.Numbers.{number_of};
ghost use Rattle.refusals.specs.declared.Refusal.TheVariants.{NothingLoaded};
ghost use Rattle.checker.specs.Cases.{stage_of, in_room, loaded_case};
ghost use Rattle.checker.specs.Holding.{HeldBy};
ghost use Rattle.answers.specs.Stages.{is_fresh};
ghost use Rattle.checker.specs.Calls.{load_refusal};

use crate::{Case, Stage};
use answers::clocks::clock_of;
use answers::stages::counted_as;
use answers::windows::load;
use logs::Log;
use logs::times::{TimedLog, Times};
use refusals::Refusal;

// The stage that a case counts as.
pub(crate) fn stage_of(c: &Case) -> Stage
    ensures { result ≡ stage_of c.now }
{
    counted_as(c.stage, &c.bytes, c.length, c.clock, &c.order)
}

// Whether a case counts as fresh.
fn is_fresh(c: &Case) -> bool
    ensures { result ≡ is_fresh (stage_of c.now) }
{
    stage_of(c) == Stage::Fresh
}

// The log and the times that a case holds which is not fresh.
pub(crate) fn window<'a>(c: &'a Case) -> TimedLog<'a>
    requires { is_fresh (stage_of c.now) ≡ false }
    ensures { HeldBy c.now result }
{
    let entries = c.clock.count;
    TimedLog {
        log: Log::of(&c.bytes[..c.length]),
        clock: Times {
            begin: &c.clock.begin[..entries],
            end: &c.clock.end[..entries],
            drift: c.clock.drift,
        },
    }
}

// The same, or 22 of a fresh case.
pub(crate) fn loaded_window<'a>(c: &'a Case) -> Result<TimedLog<'a>, Refusal>
    ensures { MatchResult result (HeldBy c.now) (λ r. (r ≡ NothingLoaded) × (is_fresh (stage_of c.now) ≡ true)) }
{
    if is_fresh(c) {
        return Err(Refusal::NothingLoaded);
    }
    Ok(window(c))
}

// Load's tests: 21 a case that is not fresh, then those of the window.
pub(crate) fn test_load(
    c: &Case,
    log: &[u8],
    starting: &[u16],
    clock: Times<'_>,
) -> Result<(), Refusal>
    ensures { number_of result ≡ load_refusal c.now (window log.now starting.now (times clock.entry.begin.now clock.entry.end.now clock.entry.drift)) }
{
    if !is_fresh(c) {
        return Err(Refusal::NotFresh);
    }
    load(log, starting, clock)?;
    Ok(())
}

// The bytes, with zeros behind them up to the room of a case.
fn in_room(log: &[u8]) -> [u8; 1156]
    requires { ListN.length log.now ≤ 1156 }
    ensures { result ≡ in_room log.now }
{
    let mut bytes = [0u8; 1156];
    bytes[..log.len()].copy_from_slice(log);
    bytes
}

// The 32 values of a starting table.
fn values_of(starting: &[u16]) -> [u16; 32]
    requires { ListN.length starting.now ≡ 32 }
    ensures { result ≡ starting.now }
{
    let mut values = [0u16; 32];
    values.copy_from_slice(starting);
    values
}

// The case that holds a window which Load takes.
pub(crate) fn loaded(log: &[u8], starting: &[u16], clock: Times<'_>) -> Case
    requires { window_number (window log.now starting.now (times clock.begin.now clock.end.now clock.drift)) ≡ 0 }
    ensures { result ≡ loaded_case (window log.now starting.now (times clock.entry.begin.now clock.entry.end.now clock.entry.drift)) }
{
    Case {
        stage: Stage::Loaded,
        bytes: in_room(log),
        length: log.len(),
        starting: values_of(starting),
        clock: clock_of(clock),
        order: [0; 32],
    }
}
