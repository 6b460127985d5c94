// What a legal order keeps besides its reads and each cabinet's own order: a transaction stands before every one that began after its end, with the drift
// added. Sums are of 64 bits, so none wraps.
ghost use Rattle.std.specs.Prelude.{◌≡◌, ℕ, ◌+◌, ◌<◌, ◌≤◌, length, get_or};
ghost use Rattle.model.specs.Lists.{all, up_to};
ghost use Rattle.model.specs.Times.{times};
ghost use Rattle.replay.specs.Steps.{stands_after, clock_kept};

use logs::times::Times;

// Whether v stands behind u, if it began after the moment.
fn stands_after(begin: u32, moment: u64, places: [u8; 32], u: usize, v: usize) -> bool
    requires { (u < 32) × (v < 32) }
    ensures { result ≡ stands_after moment begin places u v }
{
    moment >= u64::from(begin) || places[u] < places[v]
}

// The same of each v, for u's end with the drift added.
fn keeps_from(clock: Times<'_>, end: u32, places: [u8; 32], u: usize) -> bool
    requires { (length clock.begin.now ≤ 32) × (u < 32) }
    ensures { result ≡ all (λ (v : ℕ). stands_after (end + clock.entry.drift) (get_or clock.entry.begin.now v 0) places u v) (up_to (length clock.entry.begin.now)) }
{
    let moment = u64::from(end) + u64::from(clock.drift);
    clock
        .begin
        .iter()
        .enumerate()
        .all(|(v, b)| stands_after(*b, moment, places, u, v))
}

// The same of each u that has an end.
pub(crate) fn keeps(clock: Times<'_>, places: [u8; 32]) -> bool
    requires { (length clock.begin.now ≤ 32) × (length clock.end.now ≤ 32) }
    ensures { result ≡ all (clock_kept (times clock.entry.begin.now clock.entry.end.now clock.entry.drift) places) (up_to (length clock.entry.end.now)) }
{
    clock
        .end
        .iter()
        .enumerate()
        .all(|(u, e)| keeps_from(clock, *e, places, u))
}
