// Random histories noted, written, loaded and compared, against logs written from document 01's sentences (crate `trial`); and histories of which one field is
// drawn anew, where a writing is refused with 33 exactly where Load refuses the log. (What is drawn may be what stood there, and a log without bodies is left.)
use crate::notes::{closed, opened, read, write, written};
use checker::Case;
use refusals::Refusal;
use samples::lines::{end, number, text};
use samples::tables::drawn;
use samples::tallies::add_if;
use samples::{at, load_number, load_number_from};
use trial::log::Bytes;
use trial::{KINDS, Kind, pair};
use writer::Notes;

// How many histories there are of each kind and size.
const COUNT: u64 = 500;

// The numbers with which Load refuses some of them.
const NUMBERS: [u64; 6] = [4, 8, 9, 10, 34, 11];

// ---- noting a log by its bytes, apart from the writer's own way

// The notes with the body at a place noted: kind 0 is a read, any other a write.
fn with_body(n: Notes, log: &[u8], i: usize) -> Notes {
    let i = i % 4096;
    let key = at(log, i + 1);
    let argument = pair(log, i + 2);
    if at(log, i) == 0 {
        read(n, key, argument)
    } else {
        written(n, key, argument)
    }
}

// The notes with the bodies of transaction t noted.
fn with_bodies(n: Notes, log: &[u8], t: usize) -> Notes {
    let t = t % 32;
    let size = usize::from(at(log, 0));
    let first = usize::from(pair(log, 6 + 4 * t));
    let mut out = n;
    for m in 0..usize::from(at(log, 5 + 4 * t)) {
        out = with_body(out, log, 4 + 4 * size + 4 * (first + m));
    }
    out
}

// The notes of a log, by its bytes.
fn noted(log: &[u8]) -> Notes {
    let mut out = Notes::fresh();
    for t in 0..usize::from(at(log, 0)) {
        out = closed(with_bodies(opened(out, at(log, 4 + 4 * (t % 32))), log, t));
    }
    out
}

// ---- comparing

// Whether a log, loaded beside a random table, is taken, and noted again is the notes.
fn loads_as(log: &[u8], n: &Notes) -> bool {
    load_number_from(Case::fresh(), log, &drawn(log.len() as u64)) == 0
        && Notes::again(log) == Ok(*n)
}

// Whether the notes are written as the log and it loads as the notes, into a buffer of just that length and one that is longer; and refused with 25 where it is
// a byte shorter.
fn written_as(n: Notes, log: &[u8]) -> bool {
    let Some(short) = log.len().checked_sub(1) else {
        return false;
    };
    write(n, log.len()).wrote(log)
        && write(n, 1160).wrote(log)
        && write(n, short).refused(Refusal::TooFewPlaces)
        && loads_as(log, &n)
}

// Whether the writing is refused with 33, into a long buffer and into none.
fn refused_content(n: Notes) -> bool {
    write(n, 1160).refused(Refusal::NoLog) && write(n, 0).refused(Refusal::NoLog)
}

// ---- histories with a change

// A random place of the bodies, or none.
fn body(log: &[u8], seed: u64) -> usize {
    let size = usize::from(at(log, 0));
    let count = u64::from(pair(log, 2));
    4 + 4 * size + 4 * (trial::below(seed, count) as usize % 256)
}

// The log with a cabinet, a kind, a key or an argument changed, to a good one or a bad one.
fn changed(whole: &Bytes, seed: u64) -> Bytes {
    let a = trial::next(trial::next(seed % 1000000 * 7919));
    let b = trial::next(a);
    let c = trial::next(b);
    let log = whole.as_slice();
    let size = u64::from(at(log, 0));
    let i = body(log, a) % 4096;
    let mut out = *whole;
    if i + 4 > log.len() {
        return out;
    }
    match trial::below(b, 4) {
        0 => out.set(
            4 + 4 * (trial::below(a, size) as usize % 32),
            trial::below(c, 20) as u8,
        ),
        1 => out.set(i, 1 - at(log, i) % 2),
        2 => out.set(i + 1, trial::below(c, 34) as u8),
        _ => {
            out.set(i + 3, 0);
            out.set(i + 2, (trial::below(c, size + 2) % 256) as u8);
        }
    }
    out
}

// ---- counting

// The histories; those noted, written, loaded and compared alike; those with a change that Load takes and that are written as the log; those that Load refuses
// and that are refused with 33; and of those the ones refused by Load with each of the numbers.
#[derive(Clone, Copy, Default)]
pub struct Tally {
    pub all: u64,
    pub alike: u64,
    pub taken: u64,
    pub refused: u64,
    pub numbers: [u64; 6],
}

impl Tally {
    // A log, and the same with a change.
    fn add(&mut self, whole: &Bytes, seed: u64) {
        let log = whole.as_slice();
        add_if(&mut self.all, true);
        add_if(&mut self.alike, written_as(noted(log), log));
        let changed = changed(whole, seed);
        let other = changed.as_slice();
        let number = load_number(Case::fresh(), other);
        if number == 0 {
            add_if(&mut self.taken, written_as(noted(other), other));
        } else {
            add_if(&mut self.refused, refused_content(noted(other)));
            for (n, count) in NUMBERS.iter().zip(self.numbers.iter_mut()) {
                add_if(count, number == *n);
            }
        }
    }
}

// The histories of a kind: of some sizes, and over some keys.
fn row(kind: Kind) -> Tally {
    let mut t = Tally::default();
    for seed in 0..COUNT {
        let n = 5 * seed + kind as u64;
        t.add(&trial::log::of(&trial::small(kind, seed)), n);
        let size = (seed % 33) as u8;
        let large = trial::history(kind, size, (seed / 33 % 4) as u8 + 1, seed);
        t.add(&trial::log::of(&large), n + 2500);
    }
    t
}

fn print(kind: Kind) {
    let t = row(kind);
    text(kind.name());
    text(b": noted, written, loaded and compared");
    number(t.all);
    text(b", alike");
    number(t.alike);
    text(b"; with a field drawn anew: Load takes, written alike");
    number(t.taken);
    text(b"; Load refuses, refused with 33");
    number(t.refused);
    text(b": with");
    for (i, (n, count)) in NUMBERS.iter().zip(&t.numbers).enumerate() {
        if i > 0 {
            text(b",");
        }
        number(*n);
        number(*count);
    }
    end();
}

pub fn show() {
    for kind in KINDS {
        print(kind);
    }
}
