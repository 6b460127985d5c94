// What a legal order keeps besides its reads and the order of the office clock: each cabinet's own order.
ghost use Rattle.std.specs.Prelude.{◌≡◌, ℕ, ◌<◌};
ghost use Rattle.model.specs.Lists.{all, up_to};
ghost use Rattle.model.specs.History.{sent_before};
ghost use Rattle.model.specs.Log.{transactions_in, history_of};
ghost use Rattle.replay.specs.Steps.{kept_by};

use logs::Log;

// Whether one cabinet sent u before v.
fn sent_before(log: Log<'_>, u: usize, v: usize) -> bool
    requires { (u < transactions_in log.bytes.now) × (v < transactions_in log.bytes.now) }
    ensures { result ≡ sent_before (history_of log.entry.bytes.now) u v }
{
    u < v && log.cabinet(u) == log.cabinet(v)
}

// Whether u stands before v, where it was sent before it.
fn keeps_pair(log: Log<'_>, places: [u8; 32], u: usize, v: usize) -> bool
    requires { (u < transactions_in log.bytes.now) × (v < transactions_in log.bytes.now) }
    ensures { result ≡ kept_by log.entry.bytes.now places u v }
{
    !sent_before(log, u, v) || places[u] < places[v]
}

// The same of u and each v: only those behind u in the contents are looked at.
fn keeps_from(log: Log<'_>, places: [u8; 32], u: usize) -> bool
    requires { u < transactions_in log.bytes.now }
    ensures { result ≡ all (kept_by log.entry.bytes.now places u) (up_to (transactions_in log.entry.bytes.now)) }
{
    let n = log.transactions();
    (u + 1..n).all(|v| keeps_pair(log, places, u, v))
}

// The same of all.
pub(crate) fn keeps(log: Log<'_>, places: [u8; 32]) -> bool
    ensures { result ≡ all (λ (u : ℕ). all (kept_by log.entry.bytes.now places u) (up_to (transactions_in log.entry.bytes.now))) (up_to (transactions_in log.entry.bytes.now)) }
{
    (0..log.transactions()).all(|u| keeps_from(log, places, u))
}
