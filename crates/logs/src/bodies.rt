// Load's tests of the bodies: 7, 8, 9, 10 or 34, 11, by the rules of `rules`.
// `count_good` goes over the bodies in one loop, with no branch on what a body is, to the first that is bad or a read-back. Where these are not all,
// `first_refused` goes body by body through the transactions that end behind them and finds the refusal.
ghost use Rattle.std.specs.Prelude.{◌≡◌, ◌<◌};
ghost use Rattle.refusals.specs.Numbers.{number_of};
ghost use Rattle.model.specs.Log.{operations_in, first_number, bodies_number};
ghost use Rattle.logs.specs.Tests.{GoodEntries, GoodTo, Begun};

use crate::view::LogView;
use refusals::Refusal;
use rules::{Seen, faults, kept, mark, mark_write};

// ---- body by body

// The bodies of transaction t. Where it has only bodies of the first `good`, none is read again.
fn of_transaction(log: &[u8], n: usize, good: usize, t: usize) -> Result<(), Refusal>
    requires { GoodEntries log.now n × GoodTo log.now n good × (t < n) }
    ensures { number_of result ≡ bodies_number log.now t }
{
    let view = LogView { log, t };
    let e = view.entry();
    let count = usize::from(e.count);
    if usize::from(e.start) + count <= good {
        return Ok(());
    }
    let mut seen = Seen::default();
    for m in 0..count {
        let o = view.body(m);
        seen.test(o, n, t)?;
        seen = seen.after(o);
    }
    Ok(())
}

// The same over all transactions.
fn first_refused(log: &[u8], n: usize, good: usize) -> Result<(), Refusal>
    requires { GoodEntries log.now n × GoodTo log.now n good }
    ensures { number_of result ≡ first_number (bodies_number log.now) n }
{
    for t in 0..n {
        of_transaction(log, n, good, t)?;
    }
    Ok(())
}

// ---- all bodies at once

// For each body, and behind the last one, a word with no bits where a transaction starts, and with all bits elsewhere.
fn begins(log: &[u8], n: usize) -> [u32; 257]
    requires { GoodEntries log.now n }
    ensures { Begun log.now n result }
{
    let mut out = [4294967295u32; 257];
    for t in 0..n {
        let e = LogView { log, t }.entry();
        out[usize::from(e.start)] = 0;
    }
    out
}

// How many bodies from the first on are good and no read-backs. Only that these are good has to be right: the others are tested one by one.
fn count_good(log: &[u8], n: usize, count: usize) -> usize
    requires { GoodEntries log.now n × (count ≡ operations_in log.now) }
    ensures { GoodTo log.now n result }
{
    let view = LogView { log, t: 0 };
    let keep = begins(log, n);
    let mut reads: u32 = 0;
    let mut writes: u32 = 0;
    for i in 0..count {
        let o = view.body(i);
        let key = (o.key % 32) as u32;
        let read = kept(reads, keep[i]);
        let written = kept(writes, keep[i]);
        if faults(o, n, read, written) != 0 {
            return i;
        }
        reads = mark(read, o.kind, 0, key);
        writes = mark_write(written, o.kind, key);
    }
    count
}

// The bodies of a log of n transactions and `count` bodies, in their order.
pub(crate) fn test(log: &[u8], n: usize, count: usize) -> Result<(), Refusal>
    requires { GoodEntries log.now n × (count ≡ operations_in log.now) }
    ensures { number_of result ≡ first_number (bodies_number log.now) n }
{
    let good = count_good(log, n, count);
    if good == count {
        return Ok(());
    }
    first_refused(log, n, good)
}
