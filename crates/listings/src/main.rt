// What Encode writes, against a second, direct listing: of small random histories and of full windows, some with read-backs, in the six settings, with
// lists exactly as long as they must be, longer, and too short by one place or one word. Each log is loaded beside a random starting table, of which the
// direct listing knows nothing. Then the same with times.
#![tactic(auto)]

use checker::{Case, Clock, Refusal};
use direct::Polygraph;
use samples::clocks::{loaded_by, none, of_times, times_of, with_count};
use samples::lines::{end, number, text};
use samples::loaded;
use samples::tables::drawn;
use samples::tallies::{add, add_if};
use trial::log::Bytes;
use trial::times::Times;
use trial::{KINDS, Kind};
use windows::{Form, Shape};

mod windows;

// How many small histories there are of each kind, and full windows of each shape.
const SMALL: u64 = 400;

const FULL: u64 = 4;

// What stood in the lent row words.
const WORD: u32 = 2863311530;

// A setting, and the lists that are lent: so many places that each hold `mark` in all four fields, and so many row words.
#[derive(Clone, Copy)]
pub struct Lent {
    pub encoding: u8,
    pub pruning: u8,
    pub places: usize,
    pub words: usize,
    pub mark: u32,
}

// What Encode gives and leaves: its reply, its count, whether the case is as it was, and the 40 words that it was lent some of.
#[derive(Clone, Copy)]
pub struct Seen {
    pub reply: Result<(), Refusal>,
    pub left: usize,
    pub kept: bool,
    pub rows: [u32; 40],
}

// The logs with a read-back; those with times, and those of them where the clock gives an edge; the polygraphs, their constraints and those left; those that
// are not as the direct listing has them; and the refusals.
#[derive(Clone, Copy, Default)]
pub struct Tally {
    pub backs: u64,
    pub timed: u64,
    pub edged: u64,
    pub polygraphs: u64,
    pub constraints: u64,
    pub left: u64,
    pub different: u64,
    pub refused: u64,
    pub otherwise: u64,
}

// ---- the call

// Encode with the first of the row words.
fn encoded(c: Case, l: Lent, out: &mut [u32; 16384]) -> Seen {
    let mut rows = [WORD; 40];
    let e = lists::encode(
        c,
        l.encoding,
        l.pruning,
        l.places.min(4096),
        lists::marked(l.mark),
        &mut rows[..l.words.min(40)],
        out,
    );
    Seen {
        reply: e.reply,
        left: e.left,
        kept: c == e.case,
        rows,
    }
}

// ---- the comparison

// Whether the row words are those that are expected, and the further ones as they were.
fn same_rows(seen: &[u32; 40], rows: &[u32; 32]) -> bool {
    seen[..32] == rows[..] && seen[32..].iter().all(|word| *word == WORD)
}

// Whether the words of so many places are the same.
fn same_places(a: &[u32; 16384], b: &[u32; 16384], places: usize) -> bool {
    let n = 4 * places.min(4096);
    a[..n] == b[..n]
}

// Whether Encode writes what is expected to lists that are long enough.
fn agrees(c: Case, l: Lent, p: &Polygraph, list: &[u32; 16384]) -> bool {
    let mut out = [0u32; 16384];
    let s = encoded(c, l, &mut out);
    s.reply.is_ok()
        && s.left == p.left
        && s.kept
        && same_rows(&s.rows, &p.rows)
        && same_places(&out, list, l.places)
}

// Whether Encode gives this refusal, and leaves all as it was.
fn refuses(c: Case, l: Lent, refusal: Refusal) -> bool {
    let mut out = [0u32; 16384];
    let s = encoded(c, l, &mut out);
    s.reply == Err(refusal)
        && s.left == 0
        && s.kept
        && same_rows(&s.rows, &[WORD; 32])
        && same_places(&out, &[l.mark; 16384], l.places)
}

// Whether the clock gives an edge.
fn gives_edge(x: &Clock) -> bool {
    let mut rows = [0u32; 32];
    direct::edges::add_clock(&mut rows, &times_of(x), x.count);
    rows != [0; 32]
}

// ---- the histories

impl Tally {
    // A call that must be refused so.
    fn add_refusal(&mut self, c: Case, l: Lent, refusal: Refusal) {
        let yes = refuses(c, l, refusal);
        add_if(&mut self.refused, yes);
        add_if(&mut self.otherwise, !yes);
    }

    // A polygraph, with lists that are exactly long enough, and longer ones; and lists that are too short, by a row word and by a place.
    fn add_polygraph(&mut self, c: Case, l: Lent, p: &Polygraph, list: &[u32; 16384]) {
        let exact = Lent {
            places: p.count,
            words: 32,
            ..l
        };
        let longer = Lent {
            places: p.count.saturating_add(2),
            words: 40,
            ..l
        };
        add(&mut self.polygraphs, 1);
        add(&mut self.constraints, p.count as u64);
        add(&mut self.left, p.left as u64);
        add_if(&mut self.different, !agrees(c, exact, p, list));
        add_if(&mut self.different, !agrees(c, longer, p, list));
        self.add_refusal(c, Lent { words: 31, ..exact }, Refusal::TooFewPlaces);
        if let Some(places) = p.count.checked_sub(1) {
            self.add_refusal(c, Lent { places, ..exact }, Refusal::TooFewPlaces);
        }
    }

    // A setting of a log, beside random table n and with times.
    fn add_setting(&mut self, log: &[u8], n: u64, clock: &Clock, l: Lent) {
        let mut list = [l.mark; 16384];
        let p = direct::encoded(log, &times_of(clock), l.encoding, l.pruning, &mut list);
        let c = loaded_by(log, &drawn(n), clock);
        self.add_polygraph(c, l, &p, &list);
    }

    // A log: whether it has a read-back, times, and an edge by them; and its six settings, beside random table n.
    fn add_log(&mut self, log: &[u8], n: u64, clock: &Clock, mark: u32) {
        add_if(&mut self.backs, direct::reads_back(log));
        add_if(&mut self.timed, clock.count > 0);
        add_if(&mut self.edged, gives_edge(clock));
        for s in 0..6u8 {
            let l = Lent {
                encoding: s / 2,
                pruning: s % 2,
                places: 0,
                words: 0,
                mark,
            };
            self.add_setting(log, n, clock, l);
        }
    }
}

// Where the logs come from: small histories of a kind; those of a kind with 32 transactions over 4 keys; full windows of a shape.
#[derive(Clone, Copy)]
enum Source {
    Small(Kind),
    FewKeys(Kind),
    Windows(Shape),
}

// The log of a source by its number.
fn log_by(source: Source, seed: u64) -> Bytes {
    match source {
        Source::Small(kind) => trial::log::of(&trial::small(kind, seed)),
        Source::FewKeys(kind) => trial::log::of(&trial::history(kind, 32, 4, seed)),
        Source::Windows(shape) => Bytes::whole(windows::log_of(shape, seed)),
    }
}

// The times of the log of n transactions by its number, in each manner in turn. Those of each kind are others.
fn times_by(source: Source, n: u8, seed: u64) -> Times {
    let (order, seed) = match source {
        Source::Small(kind) | Source::FewKeys(kind) => (
            trial::times::run_order(n, seed),
            seed % 1000000 * 5 + kind as u64,
        ),
        Source::Windows(_) => (windows::order_of(seed), seed),
    };
    trial::times::of_manner(trial::times::manner_by(seed), n, &order, seed)
}

// What stands in the lent list.
fn mark_by(source: Source, seed: u64) -> u32 {
    match source {
        Source::Small(_) => (7919 * (seed % 65536)) as u32,
        Source::FewKeys(_) => 4294967295,
        Source::Windows(_) => 65535,
    }
}

// The first so many logs of a source, with times or without.
fn totals(source: Source, timed: bool, count: u64) -> Tally {
    let mut t = Tally::default();
    for seed in 0..count {
        let whole = log_by(source, seed);
        let log = whole.as_slice();
        let clock = if timed {
            let n = (direct::transactions(log) % 33) as u8;
            of_times(&times_by(source, n, seed), n)
        } else {
            none()
        };
        t.add_log(log, seed, &clock, mark_by(source, seed));
    }
    t
}

// ---- the output

// The line of the first so many logs of a source.
fn print(name: &[u8], source: Source, timed: bool, count: u64) {
    let t = totals(source, timed, count);
    if timed {
        text(b"with times, ");
    }
    text(name);
    text(b": logs with read-backs");
    number(t.backs);
    if t.timed > 0 {
        text(b", with times");
        number(t.timed);
        text(b", with an edge by the clock");
        number(t.edged);
    }
    text(b"; polygraphs");
    number(t.polygraphs);
    text(b", constraints");
    number(t.constraints);
    text(b", left");
    number(t.left);
    text(b", different");
    number(t.different);
    text(b"; too short a list: refused as it must be");
    number(t.refused);
    text(b", otherwise");
    number(t.otherwise);
    end();
}

fn print_small(timed: bool) {
    for kind in KINDS {
        print(kind.name(), Source::Small(kind), timed, SMALL);
    }
}

fn print_few_keys(name: &[u8], kind: Kind, timed: bool) {
    print(name, Source::FewKeys(kind), timed, FULL);
}

fn print_windows(name: &[u8], form: Form, width: u64, loose: bool, timed: bool) {
    let shape = Shape { form, width, loose };
    print(name, Source::Windows(shape), timed, FULL);
}

fn asking(encoding: u8, pruning: u8, places: usize, words: usize) -> Lent {
    Lent {
        encoding,
        pruning,
        places,
        words,
        mark: 3,
    }
}

fn print_refusals(name: &[u8], t: Tally) {
    text(name);
    text(b": refused as it must be");
    number(t.refused);
    text(b", otherwise");
    number(t.otherwise);
    end();
}

// Two transactions that write one key, which gives a constraint in encodings 1 and 2.
fn two() -> Case {
    loaded(b"\x02\x00\x02\x00\x00\x01\x00\x00\x01\x01\x01\x00\x01\x00\x05\x00\x01\x00\x07\x00")
}

// Settings out of range, also where the lists are too short.
fn settings() -> Tally {
    let c = two();
    let mut t = Tally::default();
    t.add_refusal(c, asking(3, 0, 4096, 32), Refusal::NoSuchSetting);
    t.add_refusal(c, asking(255, 1, 4096, 32), Refusal::NoSuchSetting);
    t.add_refusal(c, asking(0, 2, 4096, 32), Refusal::NoSuchSetting);
    t.add_refusal(c, asking(2, 255, 0, 31), Refusal::NoSuchSetting);
    t
}

// A fresh case, also where the setting is out of range and the lists are too short.
fn blanks() -> Tally {
    let mut t = Tally::default();
    t.add_refusal(
        Case::fresh(),
        asking(0, 0, 4096, 32),
        Refusal::NothingLoaded,
    );
    t.add_refusal(Case::fresh(), asking(2, 1, 0, 31), Refusal::NothingLoaded);
    t.add_refusal(Case::fresh(), asking(3, 2, 0, 0), Refusal::NothingLoaded);
    t
}

// Cases of two transactions that count as fresh by their times, and one that does not.
fn odd_times() -> Tally {
    let c = two();
    let mut t = Tally::default();
    t.add_refusal(
        with_count(c, 1, 0),
        asking(0, 0, 4096, 32),
        Refusal::NothingLoaded,
    );
    t.add_refusal(
        with_count(c, 33, 0),
        asking(2, 1, 0, 31),
        Refusal::NothingLoaded,
    );
    t.add_refusal(
        with_count(c, 0, 3601),
        asking(3, 2, 0, 0),
        Refusal::NothingLoaded,
    );
    t.add_refusal(
        with_count(c, 2, 3600),
        asking(3, 2, 0, 0),
        Refusal::NoSuchSetting,
    );
    t
}

fn small_histories() {
    print_small(false);
    print_few_keys(b"32 transactions, any reads", Kind::Any, false);
    print_few_keys(
        b"32 transactions, one read disturbed",
        Kind::Disturbed,
        false,
    );
    print_few_keys(b"32 transactions, blind writes", Kind::Blind, false);
    print_few_keys(b"32 transactions, chains", Kind::Chains, false);
}

fn full_windows() {
    print_windows(
        b"full windows, 4 keys read and written",
        Form::Pairs,
        1,
        false,
        false,
    );
    print_windows(
        b"full windows, 32 keys read and written",
        Form::Pairs,
        8,
        false,
        false,
    );
    print_windows(
        b"full windows, 16 keys, some reads of anything",
        Form::Pairs,
        4,
        true,
        false,
    );
}

// Windows whose transactions read or write each key, and those whose transactions read back.
fn further_windows() {
    print_windows(
        b"full windows, 8 keys read or written",
        Form::Singles(2),
        1,
        false,
        false,
    );
    print_windows(
        b"full windows, 32 keys read or written",
        Form::Singles(2),
        4,
        false,
        false,
    );
    print_windows(
        b"full windows, 8 keys, one operation of 32 reads",
        Form::Singles(32),
        1,
        false,
        false,
    );
    print_windows(
        b"full windows, 32 keys, one operation of 16 reads",
        Form::Singles(16),
        4,
        false,
        false,
    );
    print_windows(
        b"full windows, 3 keys written and read back",
        Form::Backs,
        1,
        false,
        false,
    );
    print_windows(
        b"full windows, 24 keys written and read back",
        Form::Backs,
        8,
        false,
        false,
    );
    print_windows(
        b"full windows, 12 keys read back, some reads of anything",
        Form::Backs,
        4,
        true,
        false,
    );
}

fn all_with_times() {
    print_small(true);
    print_few_keys(b"32 transactions, any reads", Kind::Any, true);
    print_few_keys(b"32 transactions, blind writes", Kind::Blind, true);
    print_few_keys(b"32 transactions, chains", Kind::Chains, true);
    print_windows(
        b"full windows, 32 keys read and written",
        Form::Pairs,
        8,
        false,
        true,
    );
    print_windows(
        b"full windows, 16 keys, some reads of anything",
        Form::Pairs,
        4,
        true,
        true,
    );
    print_windows(
        b"full windows, 32 keys read or written",
        Form::Singles(2),
        4,
        false,
        true,
    );
    print_windows(
        b"full windows, 32 keys, one operation of 16 reads",
        Form::Singles(16),
        4,
        false,
        true,
    );
    print_windows(
        b"full windows, 24 keys written and read back",
        Form::Backs,
        8,
        false,
        true,
    );
}

fn main() {
    small_histories();
    full_windows();
    further_windows();
    all_with_times();
    print_refusals(b"settings out of range", settings());
    print_refusals(b"a fresh case", blanks());
    print_refusals(
        b"cases that count as fresh by their times, and one that does not",
        odd_times(),
    );
}
