// A loaded log noted again, transaction by transaction and operation by operation, in its own order. Every call on the way is taken.
ghost use Rattle.std.specs.Prelude.{◌≡◌, ◌+◌, ◌<◌};
ghost use Rattle.model.specs.Log.{transactions_in, count_at};
ghost use Rattle.writer.specs.Again.{begun_notes, again_notes};

use crate::Notes;
use logs::Log;

// Notes operation m of transaction t.
fn note_operation(notes: &mut Notes, log: Log<'_>, t: usize, m: usize)
    requires { (t < transactions_in log.bytes.now) × (m < count_at log.bytes.now t) × (notes.old ≡ begun_notes log.bytes.now (again_notes log.bytes.now t) t m) }
    ensures { notes.new ≡ begun_notes log.entry.bytes.now (again_notes log.entry.bytes.now t) t (m + 1) }
{
    let o = log.operation(t, m);
    let key = o.key as u8;
    let argument = o.argument as u16;
    if o.kind == 0 {
        notes.note_read(key, argument).unwrap();
    } else {
        notes.note_write(key, argument).unwrap();
    }
}

// Opens transaction t, notes its operations and closes it.
pub(crate) fn note_transaction(notes: &mut Notes, log: Log<'_>, t: usize)
    requires { (t < transactions_in log.bytes.now) × (notes.old ≡ again_notes log.bytes.now t) }
    ensures { notes.new ≡ again_notes log.entry.bytes.now (t + 1) }
{
    notes.open(log.cabinet(t) as u8).unwrap();
    for m in 0..log.count(t) {
        note_operation(notes, log, t, m);
    }
    notes.close().unwrap();
}
