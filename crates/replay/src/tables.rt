// The transactions of an order, one after another, over a table with a value for each key: the last writer, or the last value, each from what stood there at the start.
ghost use Rattle.std.specs.Prelude.{◌≡◌, cond, ◌<◌, T};
ghost use Rattle.model.specs.History.{is_order, is_write, every_read_explained, replay};
ghost use Rattle.model.specs.Log.{transactions_in, history_of};
ghost use Rattle.logs.specs.Reading.{as_operation};
ghost use Rattle.replay.specs.Steps.{agrees_by, reads_agree, stored_by};

use graph::mask::{has, put_if};
use logs::{Body, Log};

// Whether a read names the last writer of its key.
fn agrees(last: [u16; 32], o: Body) -> bool
    requires { o.key < 32 }
    ensures { result ≡ agrees_by last (as_operation o) }
{
    o.kind != 0 || usize::from(last[o.key]) == o.argument
}

// The same of all reads of transaction t. A mask has the keys that it has written so far: a read of one of them is a read-back, which the
// write before it explains.
fn reads_agree(log: Log<'_>, last: [u16; 32], t: usize) -> bool
    requires { t < transactions_in log.bytes.now }
    ensures { result ≡ reads_agree (history_of log.entry.bytes.now) last t }
{
    let mut written = 0;
    for m in 0..log.count(t) {
        let o = log.operation(t, m);
        let key = o.key as u32;
        written = put_if(written, key, o.kind == 1);
        if !(has(written, key) || agrees(last, o)) {
            return false;
        }
    }
    true
}

// What a write leaves at its key: the number of its transaction, where the table marks writers, else its argument.
fn left_by(marks: bool, t: usize, argument: usize) -> u16
    requires { (t < 65536) × (argument < 65536) }
    ensures { result ≡ cond marks t argument }
{
    if marks { t as u16 } else { argument as u16 }
}

// What stands at an operation's key after it: x where it is a write, else what stood there.
fn kept(o: Body, x: u16, old: u16) -> u16
    ensures { result ≡ cond (is_write (as_operation o)) x old }
{
    if o.kind == 1 { x } else { old }
}

// The writes of transaction t are stored, in place.
fn store(log: Log<'_>, marks: bool, t: usize, out: &mut [u16; 32])
    requires { t < transactions_in log.bytes.now }
    ensures { out.new ≡ stored_by marks (history_of log.entry.bytes.now) out.old t }
{
    for m in 0..log.count(t) {
        let o = log.operation(t, m);
        out[o.key] = kept(o, left_by(marks, t, o.argument), out[o.key]);
    }
}

// Whether every read is explained in the replay of an order.
pub(crate) fn explains(log: Log<'_>, order: &[u8]) -> bool
    requires { T (is_order (transactions_in log.bytes.now) order.now) }
    ensures { result ≡ every_read_explained (history_of log.entry.bytes.now) order.now }
{
    let mut last = [65535u16; 32];
    for t in order {
        let t = usize::from(*t);
        if !reads_agree(log, last, t) {
            return false;
        }
        store(log, true, t, &mut last);
    }
    true
}

// The table that an order leaves, from a starting one.
pub fn table(log: Log<'_>, starting: [u16; 32], order: &[u8]) -> [u16; 32]
    requires { T (is_order (transactions_in log.bytes.now) order.now) }
    ensures { result ≡ replay (history_of log.entry.bytes.now) starting order.now }
{
    let mut out = starting;
    for t in order {
        store(log, false, usize::from(*t), &mut out);
    }
    out
}
