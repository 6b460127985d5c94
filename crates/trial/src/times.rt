// Times on the office clock, card 7, drawn at random. They are drawn apart from all else, so that they alone set a sample apart from the one without.
ghost use Rattle.std.specs.Prelude.{◌≤◌};

use crate::orders::shuffled;
use crate::{below, chance, next};

// A begin and an end for each transaction, in two lists as Load takes them.
#[derive(Clone, Copy)]
pub struct Spans {
    pub begin: [u32; 32],
    pub end: [u32; 32],
}

// The times of a history, or none, and the drift.
#[derive(Clone, Copy)]
pub struct Times {
    pub spans: Option<Spans>,
    pub drift: u32,
}

// The highest second.
const TOP: u64 = 4294967295;

// The manners of times: those of a run in an order; the same with two transactions exchanged; few seconds only; both ends of the range.
#[derive(Clone, Copy)]
pub enum Manner {
    Run,
    Disturbed,
    Close,
    Ends,
}

// The manner with a number: from 3 on that of both ends of the range.
impl From<u8> for Manner {
    fn from(number: u8) -> Manner {
        match number {
            0 => Manner::Run,
            1 => Manner::Disturbed,
            2 => Manner::Close,
            _ => Manner::Ends,
        }
    }
}

// One of them by a number.
pub fn manner_by(n: u64) -> Manner {
    match n % 4 {
        0 => Manner::Run,
        1 => Manner::Disturbed,
        2 => Manner::Close,
        _ => Manner::Ends,
    }
}

impl Times {
    // None, with a drift that then means nothing.
    pub fn without(drift: u32) -> Times {
        Times { spans: None, drift }
    }

    // Whether transaction u ended, by more than the drift, before v began. The sum may pass 32 bits.
    pub fn ended_before(&self, u: usize, v: usize) -> bool {
        match &self.spans {
            Some(s) => u64::from(s.end[u % 32]) + u64::from(self.drift)
                < u64::from(s.begin[v % 32]),
            None => false,
        }
    }
}

impl Spans {
    // All zeros.
    pub fn new() -> Spans {
        Spans {
            begin: [0; 32],
            end: [0; 32],
        }
    }

    // Transaction t begins at a second and takes so many, up to the highest second.
    pub fn set(&mut self, t: usize, begin: u64, length: u64) {
        let first = begin.min(TOP);
        self.begin[t % 32] = first as u32;
        self.end[t % 32] = first.saturating_add(length).min(TOP) as u32;
    }
}

// A drift: none, a second, an hour, or anything up to an hour.
fn drift_by(r: u64) -> u32
    ensures { result ≤ 3600 }
{
    match below(r, 4) {
        0 => 0,
        1 => 1,
        2 => 3600,
        _ => below(next(r), 3601) as u32,
    }
}

// ---- a run

// How far apart the transactions of a run are: so that those next to each other can just be told apart by the clock, or only those further apart, or most.
fn gap_by(drift: u32, r: u64) -> u64
    requires { drift ≤ 3600 }
    ensures { result ≤ 7203 }
{
    let d = u64::from(drift);
    match below(r, 3) {
        0 => d + 1,
        1 => d / 2 + 1,
        _ => 2 * d + 3,
    }
}

// How long a transaction took before its moment in the run or behind it: some seconds, or up to the next moment.
fn reach_by(gap: u64, r: u64) -> u64
    requires { gap ≤ 7203 }
    ensures { result ≤ 7203 }
{
    if below(r, 2) == 0 {
        return below(next(r), 3);
    }
    below(next(r), gap)
}

// The times of a run in the order. A transaction begins at its moment or before, and ends then or behind it. So none that stands later in the run ended before
// it began.
fn of_run(order: &[u8; 32], gap: u64, seed: u64) -> Spans
    requires { gap ≤ 7203 }
{
    let mut out = Spans::new();
    let mut moment: u64 = 40000;
    for t in order {
        let t = u64::from(*t);
        let before = reach_by(gap, chance(seed, 610 + t));
        let behind = reach_by(gap, chance(seed, 650 + t));
        out.set(t as usize, moment.saturating_sub(before), before + behind);
        moment = moment.saturating_add(gap);
    }
    out
}

// The order with two of the first `size` places exchanged.
fn disturbed(order: &[u8; 32], size: u8, seed: u64) -> [u8; 32] {
    let mut out = *order;
    let i = below(chance(seed, 690), u64::from(size)) % 32;
    let j = below(chance(seed, 691), u64::from(size)) % 32;
    out.swap(i as usize, j as usize);
    out
}

// ---- single seconds

// Few seconds only, many of them equal: ends and begins stand just the drift apart, or a second more or less, and half of the transactions take no time.
fn close(out: &mut Spans, t: usize, drift: u32, r: u64) {
    let step = u64::from(drift) + 1;
    let begin = 1000 + step * below(r, 3);
    let more = below(next(r), 2);
    out.set(t, begin + more, below(next(next(r)), 2));
}

// A second at one end of the range or the other.
fn second_by(drift: u32, r: u64) -> u64 {
    let d = u64::from(drift);
    match below(r, 7) {
        0 => 0,
        1 => 1,
        2 => d,
        3 => TOP - 1,
        4 => TOP - d,
        5 => (TOP - d).saturating_sub(1),
        _ => TOP,
    }
}

// How long it takes from there: no time, a second, or to the end of the range.
fn length_by(r: u64) -> u64 {
    match below(r, 4) {
        0 | 1 => 0,
        2 => 1,
        _ => TOP,
    }
}

// Few seconds only, each transaction's drawn for itself.
fn all_close(drift: u32, seed: u64) -> Spans {
    let mut out = Spans::new();
    for t in 0..32 {
        close(&mut out, t, drift, chance(seed, 730 + t as u64));
    }
    out
}

// Both ends of the range, where the sum of an end and the drift may pass 32 bits, each transaction's drawn for itself.
fn all_ends(drift: u32, seed: u64) -> Spans {
    let mut out = Spans::new();
    for t in 0..32 {
        let r = chance(seed, 730 + t as u64);
        out.set(t, second_by(drift, r), length_by(next(r)));
    }
    out
}

// ---- all manners

// Times of so many transactions in a manner. The run is in the order.
pub fn of_manner<M: Into<Manner>>(manner: M, size: u8, order: &[u8; 32], seed: u64) -> Times {
    let drift = drift_by(chance(seed, 601));
    let gap = gap_by(drift, chance(seed, 602));
    let spans = match manner.into() {
        Manner::Run => of_run(order, gap, seed),
        Manner::Disturbed => of_run(&disturbed(order, size, seed), gap, seed),
        Manner::Close => all_close(drift, seed),
        Manner::Ends => all_ends(drift, seed),
    };
    Times {
        spans: Some(spans),
        drift,
    }
}

// Times of a manner drawn at random, or none.
pub fn drawn(size: u8, order: &[u8; 32], seed: u64) -> Times {
    let n = below(chance(seed, 600), 8);
    if n < 4 || size == 0 {
        return Times::without(drift_by(chance(seed, 601)));
    }
    of_manner(manner_by(n), size, order, seed)
}

// The order that the reads of a sample of so many transactions are those of a run in, but for the kind `Any`.
pub fn run_order(size: u8, seed: u64) -> [u8; 32] {
    shuffled(size, chance(seed, 300))
}
