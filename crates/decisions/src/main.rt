// Decide, Order and Table of many small random histories, in the six settings, against a search through all permutations and a direct replay: up to 6
// transactions over 1 to 3 keys, with good, bad and starting reads, read-backs, shared cabinets, blind writes, read-modify-write chains and rings. Each
// starts from a random table, and is decided as it is from zeros. Some four in ten have times.
#![tactic(auto)]

use checker::{Case, Decision, Refusal, Stage, Verdict};
use direct::Polygraph;
use results::Expected;
use samples::clocks::{loaded_by, of_times, times_of, with_count};
use samples::lines::{end, number, text, yes_no};
use samples::loaded;
use samples::tables::drawn;
use samples::tallies::add_if;
use trial::times::Times;
use trial::{KINDS, Kind, Sample};

mod results;

// How many histories there are of each kind.
const COUNT: u64 = 1000;

// The histories with a read-back; those that start from zeros, and from the highest value everywhere; those with an order and without; decisions, each with
// Order and Table of its case; refusals of Order and Table; decisions on a list that another was made on; decisions from zeros and from the history's table.
// Of the histories with times: those whose times agree with the serial order that they were drawn by; those with an order and without; those where the clock alone
// takes the order away, or makes another the first.
#[derive(Clone, Copy, Default)]
pub struct Tally {
    pub backs: u64,
    pub lowest: u64,
    pub highest: u64,
    pub orders: u64,
    pub without: u64,
    pub timed: u64,
    pub agreeing: u64,
    pub timely: u64,
    pub barred: u64,
    pub taken: u64,
    pub moved: u64,
    pub decided: u64,
    pub different: u64,
    pub refused: u64,
    pub otherwise: u64,
    pub again: u64,
    pub changed: u64,
    pub twice: u64,
    pub apart: u64,
}

// ---- what is expected

// The order that is found among all, as Decide gives it: 0 from place T on.
fn shown(order: [u8; 32], size: usize) -> [u8; 32] {
    let mut out = order;
    for t in out.iter_mut().skip(size) {
        *t = 0;
    }
    out
}

fn expected(s: &Sample, log: &[u8], starting: [u16; 32]) -> Expected {
    let size = usize::from(s.size);
    let order = trial::orders::first(s).map(|order| shown(order, size));
    Expected {
        starting,
        clock: of_times(&s.times, s.size),
        size,
        order,
        table: direct::tables::table(log, &starting, &order.unwrap_or([0; 32]), size),
    }
}

// The case with the answer stored in it.
fn stored(c: Case, x: &Expected) -> Case {
    Case {
        stage: match x.verdict() {
            Verdict::Order => Stage::Ordered,
            Verdict::NoOrder => Stage::NoOrder,
        },
        order: x.numbers(),
        ..c
    }
}

// The case that holds a log with its times beside the table that it starts from.
fn held(log: &[u8], x: &Expected) -> Case {
    loaded_by(log, &x.starting, &x.clock)
}

// ---- decisions

// Whether a decision of the case is the one that is expected, with so many constraints left.
fn agrees(d: Decision, c: Case, x: &Expected, left: usize) -> bool {
    d == Decision {
        case: stored(c, x),
        verdict: Ok(x.verdict()),
        order: x.numbers(),
        left,
    }
}

// Whether a decision is this refusal, and gives the case as it was, 32 zeros and no count.
fn refuses(d: Decision, c: Case, refusal: Refusal) -> bool {
    d == Decision {
        case: c,
        verdict: Err(refusal),
        order: [0; 32],
        left: 0,
    }
}

// Whether Decide gives the same again of a decided case, with a list of exactly so many places, and refuses one that is shorter.
fn repeats(decided: Case, x: &Expected, encoding: u8, pruning: u8, p: Polygraph) -> bool {
    let count = p.count.min(4096);
    let again = lists::decide(decided, encoding, pruning, count, lists::marked(6));
    if !agrees(again, decided, x, p.left) {
        return false;
    }
    let Some(less) = count.checked_sub(1) else {
        return true;
    };
    let short = lists::decide(decided, encoding, pruning, less, lists::marked(7));
    refuses(short, decided, Refusal::TooFewPlaces)
}

// Whether Decide gives what is expected of a loaded case, and Order and Table of the case that is decided then.
fn setting_agrees(c: Case, log: &[u8], x: &Expected, encoding: u8, pruning: u8) -> bool {
    let mut list = [0u32; 16384];
    let p = direct::encoded(log, &times_of(&x.clock), encoding, pruning, &mut list);
    let d = lists::decide(c, encoding, pruning, 4096, lists::marked(5));
    agrees(d, c, x, p.left) && repeats(d.case, x, encoding, pruning, p) && results::agree(d.case, x)
}

// Decide on a list that another log's constraints were written to, which has no times, each in a setting: whether it is as if it were alone, and the list
// holds what the two calls write one after the other.
fn again_agrees(first: &[u8], s: u8, second: &[u8], r: u8, x: &Expected) -> bool {
    let mut list = [77u32; 16384];
    direct::encoded(first, &Times::without(0), s / 2 % 3, s % 2, &mut list);
    let p = direct::encoded(second, &times_of(&x.clock), r / 2 % 3, r % 2, &mut list);
    let c = held(second, x);
    let mut out = [0u32; 16384];
    let d = lists::decide_again(
        loaded(first),
        s / 2 % 3,
        s % 2,
        c,
        r / 2 % 3,
        r % 2,
        4096,
        lists::marked(77),
        &mut out,
    );
    agrees(d, c, x, p.left) && out == list
}

// Whether two decisions are the same, and leave cases that differ in nothing but the table.
fn same_decision(a: Decision, b: Decision) -> bool {
    let case = Case {
        starting: b.case.starting,
        ..a.case
    };
    b == Decision { case, ..a }
}

// Whether Decide says the same of two cases in a setting, and leaves the same list. It is called on a fresh case first, which it refuses and writes nothing
// for.
fn alike(a: Case, b: Case, s: u8) -> bool {
    let e = s / 2 % 3;
    let p = s % 2;
    let mark = lists::marked(88);
    let mut first = [0u32; 16384];
    let mut second = [0u32; 16384];
    let c = lists::decide_again(Case::fresh(), 0, 0, a, e, p, 4096, mark, &mut first);
    let d = lists::decide_again(Case::fresh(), 0, 0, b, e, p, 4096, mark, &mut second);
    same_decision(c, d) && first == second
}

// ---- the histories

impl Tally {
    // The six settings of a log.
    fn add_settings(&mut self, log: &[u8], x: &Expected) {
        let c = held(log, x);
        for s in 0..6u8 {
            add_if(&mut self.decided, true);
            add_if(
                &mut self.different,
                !setting_agrees(c, log, x, s / 2, s % 2),
            );
        }
    }

    // Order and Table where the state or a list is not as it must be.
    fn add_refusals(&mut self, log: &[u8], x: &Expected) {
        let c = held(log, x);
        let yes = results::refuse(c, x, Refusal::NotDecided)
            && results::refuse(Case::fresh(), x, Refusal::NotDecided)
            && results::refuse_decided(stored(c, x), x);
        add_if(&mut self.refused, yes);
        add_if(&mut self.otherwise, !yes);
    }

    // A log after another.
    fn add_again(&mut self, first: &[u8], second: &[u8], x: &Expected, seed: u64) {
        let s = (seed % 6) as u8;
        let r = (seed / 6 % 6) as u8;
        add_if(&mut self.again, true);
        add_if(&mut self.changed, !again_agrees(first, s, second, r, x));
    }

    // A log from zeros and from its table, in a setting.
    fn add_table(&mut self, log: &[u8], x: &Expected, seed: u64) {
        let from_zeros = loaded_by(log, &[0; 32], &x.clock);
        let yes = alike(from_zeros, held(log, x), (seed / 36 % 6) as u8);
        add_if(&mut self.lowest, x.starting == [0; 32]);
        add_if(&mut self.highest, x.starting == [65535; 32]);
        add_if(&mut self.twice, true);
        add_if(&mut self.apart, !yes);
    }

    // What the clock does to a history: s with its times, of which x is expected.
    fn add_clock(&mut self, s: &Sample, x: &Expected, seed: u64) {
        if x.clock.count == 0 {
            return;
        }
        let run = trial::times::run_order(s.size, seed);
        let free = trial::orders::first(&s.with_times(Times::without(0)));
        let free = free.map(|order| shown(order, x.size));
        add_if(&mut self.timed, true);
        add_if(&mut self.agreeing, trial::orders::keeps_clock(s, &run));
        add_if(&mut self.timely, x.order.is_some());
        add_if(&mut self.barred, x.order.is_none());
        add_if(&mut self.taken, free.is_some() && x.order.is_none());
        add_if(&mut self.moved, x.order.is_some() && free != x.order);
    }

    // A log of a sample.
    fn add_log(&mut self, log: &[u8], s: &Sample, kind: Kind, seed: u64) {
        let x = expected(s, log, drawn(seed % 1000000 * 5 + kind as u64));
        self.add_settings(log, &x);
        add_if(&mut self.backs, direct::reads_back(log));
        add_if(&mut self.orders, x.order.is_some());
        add_if(&mut self.without, x.order.is_none());
        self.add_refusals(log, &x);
        let other = trial::log::of(&trial::small(kind, seed % 1000000 + 1000000));
        self.add_again(other.as_slice(), log, &x, seed);
        self.add_clock(s, &x, seed);
        self.add_table(log, &x, seed);
    }
}

// A sample of a kind, with times or without. Those of each kind are others.
fn sample(kind: Kind, seed: u64) -> Sample {
    let s = trial::small(kind, seed);
    let order = trial::times::run_order(s.size, seed);
    let n = seed % 1000000 * 5 + kind as u64;
    s.with_times(trial::times::drawn(s.size, &order, n))
}

// The histories of a kind.
fn row(kind: Kind) -> Tally {
    let mut t = Tally::default();
    for seed in 0..COUNT {
        let s = sample(kind, seed);
        t.add_log(trial::log::of(&s).as_slice(), &s, kind, seed);
    }
    t
}

// Of the histories with times.
fn print_clock(t: Tally) {
    text(b"; with times");
    number(t.timed);
    text(b", of these agreeing with its serial order");
    number(t.agreeing);
    text(b", order");
    number(t.timely);
    text(b", no order");
    number(t.barred);
    text(b", taken away by the clock alone");
    number(t.taken);
    text(b", another one first by it");
    number(t.moved);
}

fn print(kind: Kind) {
    let t = row(kind);
    text(kind.name());
    text(b": with read-backs");
    number(t.backs);
    text(b", tables all 0");
    number(t.lowest);
    text(b", all 65535");
    number(t.highest);
    text(b"; order");
    number(t.orders);
    text(b", no order");
    number(t.without);
    print_clock(t);
    text(b"; decided");
    number(t.decided);
    text(b", different");
    number(t.different);
    text(b"; too early, too late, too short: refused as it must be");
    number(t.refused);
    text(b", otherwise");
    number(t.otherwise);
    text(b"; after another on one list");
    number(t.again);
    text(b", different");
    number(t.changed);
    text(b"; from zeros and from its table");
    number(t.twice);
    text(b", different");
    number(t.apart);
    end();
}

// Whether Decide refuses what counts as fresh by its times: c has two transactions.
fn times_refused(c: Case) -> bool {
    let one = with_count(c, 1, 0);
    let most = with_count(c, 33, 0);
    let wide = with_count(c, 2, 3601);
    let good = with_count(c, 2, 3600);
    refuses(
        lists::decide(one, 2, 1, 4096, lists::marked(1)),
        one,
        Refusal::NothingLoaded,
    ) && refuses(
        lists::decide(most, 2, 1, 4096, lists::marked(1)),
        most,
        Refusal::NothingLoaded,
    ) && refuses(
        lists::decide(wide, 3, 2, 0, lists::marked(1)),
        wide,
        Refusal::NothingLoaded,
    ) && refuses(
        lists::decide(good, 3, 2, 0, lists::marked(1)),
        good,
        Refusal::NoSuchSetting,
    )
}

// Whether Decide refuses a setting out of range, and any setting of a fresh case, also with no places for the constraint that c has in encodings 1 and 2.
fn settings_refused(c: Case) -> bool {
    refuses(
        lists::decide(c, 3, 0, 4096, lists::marked(1)),
        c,
        Refusal::NoSuchSetting,
    ) && refuses(
        lists::decide(c, 255, 0, 0, lists::marked(1)),
        c,
        Refusal::NoSuchSetting,
    ) && refuses(
        lists::decide(c, 0, 2, 4096, lists::marked(1)),
        c,
        Refusal::NoSuchSetting,
    ) && refuses(
        lists::decide(c, 2, 2, 0, lists::marked(1)),
        c,
        Refusal::NoSuchSetting,
    ) && refuses(
        lists::decide(Case::fresh(), 2, 1, 4096, lists::marked(1)),
        Case::fresh(),
        Refusal::NothingLoaded,
    ) && refuses(
        lists::decide(Case::fresh(), 3, 2, 0, lists::marked(1)),
        Case::fresh(),
        Refusal::NothingLoaded,
    )
}

fn main() {
    for kind in KINDS {
        print(kind);
    }
    text(b"settings out of range and a fresh case are refused as they must be:");
    // two transactions that write one key
    let c = loaded(
        b"\x02\x00\x02\x00\x00\x01\x00\x00\x01\x01\x01\x00\x01\x00\x05\x00\x01\x00\x07\x00",
    );
    yes_no(settings_refused(c));
    end();
    text(b"cases that count as fresh by their times are refused as they must be:");
    yes_no(times_refused(c));
    end();
}
