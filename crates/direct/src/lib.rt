// A second listing of a log's polygraph, written straight from the sentences of document 01 and cards 1 and 7. Nothing here is shared with the code under
// test: the log's bytes are read into tables (this file), the known edges and the constraints are listed from them (modules `edges`, `constraints`), pruning
// goes by passes with all paths found afresh before each constraint (module `passes`), and an order is replayed on a table (module `tables`). The contracts
// say nothing; the functions are proved safe and ending.
#![tactic(auto)]

use trial::times::Times;
use trial::{byte, pair};

pub mod constraints;
pub mod edges;
pub mod passes;
pub mod tables;

// What a log that Load takes says, of `size` transactions. Bit t of `writers[k]` is set where t writes key k; place 32 * t + k of `names` is what t's read
// of key k names, if it reads it; the first `count` of `reads` are such places, in body order. A read-back is no such read: the write before it in its
// transaction explains it, and it adds nothing. `backs` says whether there is one.
#[derive(Clone, Copy)]
pub struct History {
    pub size: usize,
    pub cabinet: [u8; 32],
    pub writers: [u32; 32],
    pub names: [Option<u16>; 1024],
    pub reads: [u16; 256],
    pub count: usize,
    pub backs: bool,
}

// ---- the log's bytes

// T.
pub fn transactions(log: &[u8]) -> usize {
    usize::from(pair(log, 0) % 33)
}

// Where transaction t's entry begins.
pub fn entry(t: usize) -> usize {
    4 + 4 * (t % 32)
}

// How many operations transaction t has.
pub fn operations(log: &[u8], t: usize) -> usize {
    usize::from(byte(log, 5 + 4 * (t % 32)))
}

// Where the body of transaction t's operation j begins.
pub fn body(log: &[u8], t: usize, j: usize) -> usize {
    let first = usize::from(pair(log, 6 + 4 * (t % 32)));
    4 + 4 * (transactions(log) % 33) + 4 * (first % 256) + 4 * (j % 256)
}

// ---- sets of transactions

// The set of one transaction.
pub fn bit(t: usize) -> u32 {
    1u32 << ((t % 32) as u32)
}

// Whether a transaction is in the set.
pub fn has(set: u32, t: usize) -> bool {
    set & bit(t) != 0
}

// The set without a transaction.
pub fn without(set: u32, t: usize) -> u32 {
    set & !bit(t)
}

// ---- the history

impl History {
    // Transaction t's read of the key.
    fn add_read(&mut self, t: usize, key: usize, name: u16) {
        let place = 32 * (t % 32) + key % 32;
        self.names[place] = Some(name);
        self.reads[self.count % 256] = place as u16;
        self.count = self.count.saturating_add(1);
    }

    // Transaction t's operation whose body begins at byte i. The operations come in body order: t is among the writers of the key where a write of it stands
    // before this operation in the transaction.
    fn add_operation(&mut self, log: &[u8], t: usize, i: usize) {
        if i > 1152 {
            return;
        }
        let key = usize::from(byte(log, i + 1)) % 32;
        if byte(log, i) == 1 {
            self.writers[key] |= bit(t);
        } else if has(self.writers[key], t) {
            self.backs = true;
        } else {
            self.add_read(t, key, pair(log, i + 2));
        }
    }

    // The history of a log.
    pub fn of(log: &[u8]) -> History {
        let n = transactions(log);
        let mut out = History {
            size: n,
            cabinet: [0; 32],
            writers: [0; 32],
            names: [None; 1024],
            reads: [0; 256],
            count: 0,
            backs: false,
        };
        for t in 0..n {
            out.cabinet[t % 32] = byte(log, entry(t));
            for j in 0..operations(log, t) {
                out.add_operation(log, t, body(log, t, j));
            }
        }
        out
    }

    // The writers of the key.
    pub fn writers_of(&self, key: usize) -> u32 {
        self.writers[key % 32]
    }

    // What transaction t's read of the key names, if it reads it.
    pub fn name(&self, t: usize, key: usize) -> Option<u16> {
        self.names[32 * (t % 32) + key % 32]
    }

    // Whether transaction t has a good read of the key from u: it names u, u writes the key, and u is not t.
    pub fn good(&self, t: usize, key: usize, u: usize) -> bool {
        u < 32 && self.name(t, key) == Some(u as u16) && has(self.writers_of(key), u) && u != t
    }

    // Readers(w): the transactions with a good read of the key from w.
    pub fn readers(&self, key: usize, w: usize) -> u32 {
        let mut set: u32 = 0;
        for t in 0..32 {
            if self.good(t, key, w) {
                set |= bit(t);
            }
        }
        set
    }

    // Ends(w, v): Readers(w) without v or, where that is empty, w alone.
    pub fn ends(&self, key: usize, w: usize, v: usize) -> u32 {
        let set = without(self.readers(key, w), v);
        if set == 0 { bit(w) } else { set }
    }

    // The successor of the write u on the key: the lowest transaction other than u that writes the key and has a good read of it from u.
    pub fn successor(&self, key: usize, u: usize) -> Option<usize> {
        (0..32).find(|t| self.good(*t, key, u) && has(self.writers_of(key), *t))
    }
}

// Whether a log has a read-back.
pub fn reads_back(log: &[u8]) -> bool {
    History::of(log).backs
}

// ---- the polygraph

// The polygraph of a history in a setting: how many constraints there are before pruning, how many are left, and the known edges. The constraints
// themselves are in a list.
#[derive(Clone, Copy)]
pub struct Polygraph {
    pub count: usize,
    pub left: usize,
    pub rows: [u32; 32],
}

// The polygraph of a log with times. The first `count` places of the list are written as Encode should write them.
pub fn encoded(
    log: &[u8],
    times: &Times,
    encoding: u8,
    pruning: u8,
    list: &mut [u32; 16384],
) -> Polygraph {
    let h = History::of(log);
    let mut rows = edges::known(&h, encoding);
    edges::add_clock(&mut rows, times, h.size);
    let count = constraints::listed(list, &h, encoding);
    let left = if pruning == 0 {
        count
    } else {
        passes::pruned(list, &mut rows, count)
    };
    Polygraph { count, left, rows }
}
