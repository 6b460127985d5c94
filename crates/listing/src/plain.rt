// The tables of encoding 0.
ghost use Rattle.std.specs.Prelude.{◌≡◌, ◌<◌, ◌≤◌, ◌+◌, length, get_or};
ghost use Rattle.model.specs.Log.{transactions_in, operations_in, start_at, count_at};
ghost use Rattle.listing.specs.Choosing.{Chose};
ghost use Rattle.listing.specs.Plain.{plain_mask, plain_numbers_of, plain_numbers, PlainTable};

use crate::{ENCODING, PLACES, WORDS};
use graph::mask::{has, without};
use logs::Log;

// The v of a body of t, where w are the writers of its key.
#[tactic(auto, unfolding(crate::specs::Plain::plain_mask))]
fn mask(w: u32, t: usize, kind: usize, argument: usize) -> u32
    requires { t < 32 }
    ensures { result ≡ plain_mask w t kind argument }
{
    if kind == 0 && argument < 32 && argument != t && has(w, argument as u32) {
        without(without(w, argument as u32), t as u32)
    } else {
        0
    }
}

// The words and the candidates of the bodies of t, after `from` candidates.
fn rows(
    log: Log<'_>,
    t: usize,
    writers: &[u32; 32],
    from: u16,
    out: &mut [u32; WORDS],
    chosen: &mut [u16; PLACES],
) -> u16
    requires { (t < transactions_in log.bytes.now) × (t < 32) × (from + length (plain_numbers_of log.bytes.now writers.now t (count_at log.bytes.now t)) ≤ 4096) × PlainTable log.bytes.now (start_at log.bytes.now t) out.old }
    ensures { PlainTable log.entry.bytes.now (start_at log.entry.bytes.now t + count_at log.entry.bytes.now t) out.new
        × Chose (plain_numbers_of log.entry.bytes.now writers.now t (count_at log.entry.bytes.now t)) from chosen.old result chosen.new }
{
    let first = log.start(t);
    let count = log.count(t);
    let mut n = from;
    for m in 0..count {
        let o = log.operation(t, m);
        let i = first + m;
        out[i] = (t + 32 * (o.argument % 32)) as u32;
        n = crate::choose(mask(writers[o.key], t, o.kind, o.argument), i, n, chosen);
    }
    n
}

// The tables of encoding 0 of a log, and its candidates; how many.
pub fn table(
    log: Log<'_>,
    writers: &[u32; 32],
    out: &mut [u32; WORDS],
    chosen: &mut [u16; PLACES],
) -> u16
    requires { (length out.old ≡ 1025) × (length (plain_numbers log.bytes.now writers.now (transactions_in log.bytes.now)) ≤ 4096) }
    ensures { PlainTable log.entry.bytes.now (operations_in log.entry.bytes.now) out.new × (get_or out.new 1024 0 ≡ 0)
        × Chose (plain_numbers log.entry.bytes.now writers.now (transactions_in log.entry.bytes.now)) 0 chosen.old result chosen.new }
{
    let mut count: u16 = 0;
    for t in 0..log.transactions() {
        count = rows(log, t, writers, count, out, chosen);
    }
    out[ENCODING] = 0;
    count
}
