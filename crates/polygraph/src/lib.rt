// The tables of a loaded log, its reads as numbers, and its known edges from these.
// What a read names is picked from values at hand: a window's reads are of all kinds, and a branch that is guessed wrong costs more than the work.
#![tactic(auto)]

ghost use Rattle.std.specs.Prelude.{◌≡◌, cond, List, eqb, ℕ, ◌+◌, ◌*◌, ◌<◌, ◌≤◌, length, get_or, replicate};
ghost use Rattle.model.specs.Lists.{bit};
ghost use Rattle.model.specs.Polygraph.{rows};
ghost use Rattle.model.specs.Log.{transactions_in, start_at, history_of};
ghost use Rattle.graph.specs.Masks.{put_if};
ghost use Rattle.polygraph.specs.Tables.{writers_of, packed_as, read_marks_of, slot_by, slot_in, SlotsOf, mark_step, Unmarked, DecodedOne, Decoded, DecodedTo};
ghost use Rattle.polygraph.specs.Edges.{next_by, successors_by, cabinet_rows, own_edge, read_step};

use graph::mask::{has, lowest, member, put_if, with, without};
use logs::Log;

pub mod clock;

// Words of the table of reads: word key * 32 + u, below START, has the good readers of the key from u; word START + key has those
// that read the key at start; word BAD has those with a bad read. The table has MARKS words.
// Numbers, and no enum: each word has a number in the table anyway (slot_in, read_mark), and a pick between numbers takes no branch.
const START: u32 = 1024;

const BAD: u32 = 1056;

pub const MARKS: usize = 1057;

// What a read of the starting value names.
const FROM_START: u32 = 65535;

// Of two numbers the first, if so.
fn pick(so: bool, a: u32, b: u32) -> u32
    ensures { result ≡ cond so a b }
{
    if so { a } else { b }
}

// The same by arithmetic, for a not above b: `one` is 1 for the first and 0 for the second. A compiler may make a branch of a pick after all, and not of this.
fn blend(one: u32, a: u32, b: u32) -> u32
    requires { (one ≤ 1) × (a ≤ b) }
    ensures { result ≡ cond (eqb one 1) a b }
{
    b - one * (b - a)
}

// ---- decoding

// A read by t as one number.
fn packed(t: usize, key: usize, argument: usize) -> u32
    requires { (t < 32) × (key < 32) × (argument < 65536) }
    ensures { result ≡ packed_as t key argument }
{
    ((key * 256 + t) * 65536 + argument) as u32
}

// The set with t alone for a write, kind 1, and the empty set for a read, kind 0: the kind itself is the bit.
fn mark_of(t: usize, kind: usize) -> u32
    requires { (t < 32) × (kind < 2) }
    ensures { result ≡ put_if 0 t (eqb kind 1) }
{
    (kind as u32) << (t as u32)
}

// The operations of transaction t: its writes go into the table, its reads that look at earlier ones behind those before, of which there are `from`.
// The table has no mark of t at first, so after an operation's own mark t stands at its key for a write and for a read-back alone: any other
// operation is a read that counts.
fn decode_transaction(
    log: Log<'_>,
    t: usize,
    writers: &mut [u32; 32],
    reads: &mut [u32; 256],
    from: usize,
) -> usize
    requires { (t < transactions_in log.bytes.now) × (t < 32) × (from ≤ start_at log.bytes.now t) × (length reads.old ≡ 256) × Unmarked t writers.old }
    ensures { DecodedOne log.entry.bytes.now t from writers.old reads.old writers.new reads.new result }
{
    let n = log.count(t);
    let mut count = from;
    for m in 0..n {
        let o = log.operation(t, m);
        let mark = mark_of(t, o.kind);
        let w = writers[o.key] | mark;
        writers[o.key] = w;
        reads[count] = packed(t, o.key, o.argument);
        if !has(w, t as u32) {
            count += 1;
        }
    }
    count
}

// Bit t of word k of the writers: t writes k. The reads that look at earlier transactions, in the order of the log; how many there are.
pub fn decode(log: Log<'_>, writers: &mut [u32; 32], reads: &mut [u32; 256]) -> usize
    requires { (writers.old ≡ replicate 32 0) × (length reads.old ≡ 256) }
    ensures { Decoded log.entry.bytes.now writers.new reads.new result }
{
    let mut count = 0;
    for t in 0..log.transactions() {
        count = decode_transaction(log, t, writers, reads, count);
    }
    count
}

// The writers alone.
pub fn writers(log: Log<'_>) -> [u32; 32]
    ensures { result ≡ writers_of (history_of log.entry.bytes.now) }
{
    let mut out = [0u32; 32];
    let mut reads = [0u32; 256];
    decode(log, &mut out, &mut reads);
    out
}

// ---- the table of reads

// The word for a read of a key with an argument, by t, where w are the key's writers.
fn slot(w: u32, t: u32, key: u32, argument: u32) -> u32
    requires { key < 32 }
    ensures { (result ≡ slot_by w t key argument) × (result < 1057) }
{
    let writes = member(w, argument % 32);
    let good = pick((argument < 32) & (argument != t), writes, 0);
    let named = blend(good, key * 32 + argument % 32, BAD);
    pick(argument == FROM_START, START + key, named)
}

// The word for a read as a number.
fn slot_of(read: u32, writers: &[u32; 32]) -> u32
    ensures { (result ≡ slot_in writers.now read) × (result < 1057) }
{
    let key = read / 16777216 % 32;
    let t = read / 65536 % 32;
    slot(writers[key as usize], t, key, read % 65536)
}

// A read goes into the table; the number of its word.
fn mark_read(read: u32, writers: &[u32; 32], out: &mut [u32; MARKS]) -> u16
    ensures { (result ≡ slot_in writers.now read) × (out.new ≡ mark_step writers.now out.old read) }
{
    let t = read / 65536 % 32;
    let word = slot_of(read, writers);
    let at = word as usize;
    out[at] = with(out[at], t);
    word as u16
}

// The reads by what they name, and of each read the number of its word, which `known` needs again.
pub fn read_marks(
    reads: &[u32],
    writers: &[u32; 32],
    slots: &mut [u16; 256],
    out: &mut [u32; MARKS],
)
    requires { (length reads.now ≤ 256) × (out.old ≡ replicate 1057 0) × (length slots.old ≡ 256) }
    ensures { SlotsOf writers.now reads.now (length reads.now) slots.new × ((b : List ℕ) → DecodedTo b writers.now reads.now → out.new ≡ read_marks_of (history_of b)) }
{
    for (i, read) in reads.iter().enumerate() {
        slots[i] = mark_read(*read, writers, out);
    }
}

// ---- successors

// The successor of a write, from its good readers and the writers of the key, or n.
#[tactic(auto, unfolding(crate::specs::Edges::next_by))]
fn next_of(readers: u32, writers: u32, n: u32) -> u32
    ensures { result ≡ next_by readers writers n }
{
    let both = readers & writers;
    if both == 0 { n } else { both.trailing_zeros() }
}

// The successor of the write of u on key k, or n: word k * 32 + u of the successors of all writes.
pub fn next_at(n: u32, writers: &[u32; 32], marks: &[u32; MARKS], k: usize, u: usize) -> u32
    requires { (k < 32) × (u < 32) }
    ensures { result ≡ get_or (successors_by n writers.now marks.now) (k * 32 + u) 0 }
{
    next_of(marks[k * 32 + u], writers[k], n)
}

// ---- known edges

// The edges from each transaction to the next of the same cabinet.
fn add_cabinets(log: Log<'_>, out: &mut [u32; 32])
    requires { out.old ≡ replicate 32 0 }
    ensures { out.new ≡ cabinet_rows (history_of log.entry.bytes.now) }
{
    let mut last = [32usize; 16];
    for t in 0..log.transactions() {
        let c = log.cabinet(t);
        let before = last[c];
        out[before % 32] |= put_if(0, t as u32, before < 32);
        last[c] = t;
    }
}

// The edges from t by a read of its own, whose word in the table is `at`: w are the key's writers, readers those of the write that it names.
fn own_edges(at: u32, t: u32, w: u32, readers: u32, chained: bool) -> u32
    requires { t < 32 }
    ensures { (v : ℕ) → bit result v ≡ own_edge at t w readers chained v }
{
    let next = without(lowest(readers & w), t);
    let other = pick(at == BAD, with(0, t), without(w, t));
    pick(at < START, pick(chained, next, 0), other)
}

// The edges of a read, whose word in the table has the number `at`.
fn add_read(
    read: u32,
    at: u32,
    chained: bool,
    writers: &[u32; 32],
    marks: &[u32; MARKS],
    out: &mut [u32; 32],
)
    requires { at ≡ slot_in writers.now read }
    ensures { out.new ≡ read_step chained writers.now marks.now out.old read }
{
    let key = (read / 16777216 % 32) as usize;
    let t = read / 65536 % 32;
    let from = (at % 32) as usize;
    out[from] |= put_if(0, t, at < START);
    out[t as usize] |= own_edges(at, t, writers[key], marks[at as usize], chained);
}

// The known edges of a log in the encoding of a number, without those by the office clock, which `clock::add` adds: 32 row words. Of the numbers 2 alone has edges of
// its own.
pub fn known(
    log: Log<'_>,
    encoding: u8,
    reads: &[u32],
    slots: &[u16; 256],
    writers: &[u32; 32],
    marks: &[u32; MARKS],
) -> [u32; 32]
    requires { DecodedTo log.bytes.now writers.now reads.now × SlotsOf writers.now reads.now (length reads.now) slots.now × (marks.now ≡ read_marks_of (history_of log.bytes.now)) }
    ensures { result ≡ rows (history_of log.entry.bytes.now) encoding }
{
    let mut out = [0u32; 32];
    add_cabinets(log, &mut out);
    // By an index: over a zip of the two it is slower by a quarter.
    for (i, read) in reads.iter().enumerate() {
        let at = u32::from(slots[i]);
        add_read(*read, at, encoding == 2, writers, marks, &mut out);
    }
    out
}
