// The view of a log: the lent bytes with an entry number. All of a log is read through it: the header, the entry, and the bodies from the entry's start on.
ghost use Rattle.std.specs.Prelude.{◌≡◌, ◌+◌, ◌*◌, ◌≤◌, length};
ghost use Rattle.model.specs.Log.{start_at};
ghost use Rattle.logs.specs.Reading.{header_at, entry_at, EntryIn, BodyIn, IsBody};

use crate::Body;
use crate::fields::{field, pair};

#[derive(Clone, Copy)]
pub(crate) struct LogView<'a> {
    pub(crate) log: &'a [u8],
    pub(crate) t: usize,
}

// The header: the counts of transactions and of operations.
#[derive(Clone, Copy)]
pub(crate) struct Header {
    pub(crate) transactions: u16,
    pub(crate) operations: u16,
}

// An entry: the cabinet, the count of operations, and the number of the first operation.
#[derive(Clone, Copy)]
pub(crate) struct Entry {
    pub(crate) cabinet: u8,
    pub(crate) count: u8,
    pub(crate) start: u16,
}

impl<'a> LogView<'a> {
    // The header of the log.
    pub(crate) fn header(self) -> Header
        requires { 4 ≤ length self.log.now }
        ensures { result ≡ header_at self.entry.log.now }
    {
        Header {
            transactions: field(self.log, 0),
            operations: field(self.log, 2),
        }
    }

    // The entry of this number.
    pub(crate) fn entry(self) -> Entry
        requires { EntryIn self.log.now self.t }
        ensures { result ≡ entry_at self.entry.log.now self.entry.t }
    {
        let at = 4 + 4 * self.t;
        Entry {
            cabinet: self.log[at],
            count: self.log[at + 1],
            start: field(self.log, at + 2),
        }
    }

    // Body m, from the start of the entry on.
    pub(crate) fn body(self, m: usize) -> Body
        requires { BodyIn self.log.now self.t m }
        ensures { IsBody self.entry.log.now (start_at self.entry.log.now self.entry.t + m) result }
    {
        let at = 4 + 4 * pair(self.log, 0) + 4 * (pair(self.log, 6 + 4 * self.t) + m);
        Body {
            kind: usize::from(self.log[at]),
            key: usize::from(self.log[at + 1]),
            argument: pair(self.log, at + 2),
        }
    }
}
