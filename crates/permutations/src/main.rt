// Check on every list of four numbers, against a direct replay, over many small histories of four transactions with three operations each, read-backs
// among them: first without times; then with times; then with times where all operations are writes, so that only the cabinets and the clock have a say.
// For each list the log is loaded beside another random starting table, of which the direct replay knows nothing.
#![tactic(auto)]

use samples::acts::Act;
use samples::clocks::{loaded_by, of_times};
use samples::lines::{end, number, text};
use samples::tables::drawn;
use samples::tallies::add_if;
use samples::{at, check_number};
use std::array;
use std::num::wrapping_add_u64;
use trial::times::Times;

mod times;

// What sets the rounds apart: whether the windows have times, and whether all operations are writes.
#[derive(Clone, Copy)]
pub struct Round {
    pub timed: bool,
    pub blind: bool,
}

// ---- histories

// A number that hangs on both others.
fn mixed(x: u64) -> u64 {
    let a = x ^ (x << 13);
    let b = a ^ (a >> 7);
    b ^ (b << 17)
}

pub(crate) fn chance(h: u64, k: u64) -> u64 {
    mixed(mixed(mixed(wrapping_add_u64(h << 8, k) ^ 88172645463325252)))
}

// What an operation does, with which key, and its argument.
#[derive(Clone, Copy)]
pub struct Op {
    pub act: Act,
    pub key: u8,
    pub argument: u8,
}

// A read in one of four: few enough reads that some lists are legal.
fn act_of(c: u64) -> Act {
    if c / 32 % 4 == 0 {
        Act::Read
    } else {
        Act::Write
    }
}

// A read names one of the four transactions, or 4 for the starting value.
fn first_op(h: u64, t: u64) -> Op {
    let c = chance(h, t % 4 * 4 + 100);
    Op {
        act: act_of(c),
        key: (c / 2 % 2) as u8,
        argument: (c / 4 % 5) as u8,
    }
}

// A read by transaction t of a key that it has written.
fn read_back(t: u64, key: u8) -> Op {
    Op {
        act: Act::Back,
        key,
        argument: (t % 4) as u8,
    }
}

// After a write of a key its read-back and the other are left, after a read of it a write of it too.
fn second_op(h: u64, t: u64) -> Op {
    let a = first_op(h, t);
    let c = chance(h, t % 4 * 4 + 101);
    let key = (c / 2 % 2) as u8;
    let argument = (c / 4 % 5) as u8;
    match a.act {
        Act::Write if c / 65536 % 5 == 0 => read_back(t, a.key),
        Act::Write => Op {
            act: act_of(c),
            key: if a.key == 0 { 1 } else { 0 },
            argument,
        },
        Act::Read | Act::Back => Op {
            act: if key == a.key { Act::Write } else { act_of(c) },
            key,
            argument,
        },
    }
}

// Where a key was written and not read back, its read-back in one of three: the later write's first. Otherwise key 2, which nothing before it uses.
fn third_op(h: u64, t: u64) -> Op {
    let a = first_op(h, t);
    let b = second_op(h, t);
    let c = chance(h, t % 4 * 4 + 102);
    if c / 65536 % 3 == 0 {
        if b.act == Act::Write {
            return read_back(t, b.key);
        }
        if a.act == Act::Write && a.key != b.key {
            return read_back(t, a.key);
        }
    }
    Op {
        act: act_of(c),
        key: 2,
        argument: (c / 4 % 5) as u8,
    }
}

// A write of a key for each j.
fn blind_op(t: u64, j: u64) -> Op {
    Op {
        act: Act::Write,
        key: (j % 3) as u8,
        argument: (t % 4) as u8,
    }
}

// Operation j of transaction t.
fn op_of(h: u64, t: u64, j: u64, blind: bool) -> Op {
    if blind {
        return blind_op(t, j);
    }
    match j {
        0 => first_op(h, t),
        1 => second_op(h, t),
        _ => third_op(h, t),
    }
}

// Byte f of a body.
fn op_byte(o: Op, f: u64) -> u8 {
    let started = o.act == Act::Read && o.argument == 4;
    match f {
        0 => o.act.kind(),
        1 => o.key,
        2 => if started { 255 } else { o.argument },
        _ => if started { 255 } else { 0 },
    }
}

// Byte i of the log of history h.
fn log_byte(h: u64, i: u64, blind: bool) -> u8 {
    if i < 4 {
        return match i {
            0 => 4,
            2 => 12,
            _ => 0,
        };
    }
    if i < 20 {
        let t = (i - 4) / 4;
        return match i % 4 {
            0 => (chance(h, t) % 6) as u8,
            1 => 3,
            2 => (t % 4 * 3) as u8,
            _ => 0,
        };
    }
    let m = (i - 20) / 4 % 12;
    op_byte(op_of(h, m / 3, m % 3, blind), i % 4)
}

fn log_of(h: u64, blind: bool) -> [u8; 68] {
    array::from_fn(|i| log_byte(h, i as u64, blind))
}

// ---- the direct replay

// Whether the four numbers are below 4, and no two the same.
fn is_permutation(list: &[u8; 4]) -> bool {
    (0..4u8).all(|t| list.contains(&t))
}

// Whether the cabinets and the clock let transaction a stand before b: not where one cabinet sent both and b comes first, nor where b ended before a began.
fn may_precede(log: &[u8], times: &Times, a: u8, b: u8) -> bool {
    let a = usize::from(a);
    let b = usize::from(b);
    let one = at(log, 4 + 4 * a) == at(log, 4 + 4 * b);
    !(one && a > b) && !times.ended_before(b, a)
}

// Whether each two of the list may stand so.
fn each_two(log: &[u8], times: &Times, list: &[u8; 4]) -> bool {
    for (j, b) in list.iter().enumerate() {
        for a in list.iter().take(j) {
            if !may_precede(log, times, *a, *b) {
                return false;
            }
        }
    }
    true
}

// Byte f of body j of transaction t.
fn field(log: &[u8], t: u8, j: usize, f: usize) -> u8 {
    at(log, 20 + 12 * usize::from(t) + 4 * (j % 3) + f % 4)
}

// Whether body j of transaction t writes the key.
fn body_writes(log: &[u8], t: u8, j: usize, key: u8) -> bool {
    field(log, t, j, 0) == 1 && field(log, t, j, 1) == key
}

// Whether one of the first n bodies of transaction t writes the key.
fn writes(log: &[u8], t: u8, n: usize, key: u8) -> bool {
    (0..n).any(|j| body_writes(log, t, j, key))
}

// The last writer of the key among transactions.
fn last_writer(log: &[u8], before: &[u8], key: u8) -> Option<u8> {
    before
        .iter()
        .rev()
        .copied()
        .find(|t| writes(log, *t, 3, key))
}

// Whether body j of transaction t, behind those before it, is explained, if it is a read: by the transaction's own write where that stands before it, else by
// the last writer among those before, which is 255 where there is none.
fn body_explained(log: &[u8], before: &[u8], t: u8, j: usize) -> bool {
    if field(log, t, j, 0) == 1 {
        return true;
    }
    let key = field(log, t, j, 1);
    let name = field(log, t, j, 2);
    if writes(log, t, j, key) {
        return name == t;
    }
    name == last_writer(log, before, key).unwrap_or(255)
}

// Whether all reads are explained.
fn explained(log: &[u8], list: &[u8; 4]) -> bool {
    for (i, t) in list.iter().enumerate() {
        for j in 0..3 {
            if !body_explained(log, &list[..i % 4], *t, j) {
                return false;
            }
        }
    }
    true
}

// 13 where the list is no permutation, 100 where it is legal, else 101.
fn direct(log: &[u8], times: &Times, list: &[u8; 4]) -> u64 {
    if !is_permutation(list) {
        return 13;
    }
    if each_two(log, times, list) && explained(log, list) {
        100
    } else {
        101
    }
}

// ---- the comparison

// The histories with a read-back; the lists by what Check says of them; those that would be legal but for the times; those that the direct replay says
// something else of.
#[derive(Clone, Copy, Default)]
pub struct Tally {
    pub backs: u64,
    pub refused: u64,
    pub legal: u64,
    pub illegal: u64,
    pub barred: u64,
    pub different: u64,
}

impl Tally {
    // One answer more: of Check, of the direct replay, and of the same without times.
    fn add(&mut self, check: u64, replay: u64, free: u64) {
        add_if(&mut self.refused, check == 13);
        add_if(&mut self.legal, check == 100);
        add_if(&mut self.illegal, check == 101);
        add_if(&mut self.barred, check == 101 && free == 100);
        add_if(&mut self.different, check != replay);
    }

    // The lists of history h: each has four numbers from 0 to 3.
    fn add_lists(&mut self, r: Round, h: u64) {
        let log = log_of(h, r.blind);
        let times = if r.timed {
            times::drawn(h)
        } else {
            Times::without(0)
        };
        let clock = of_times(&times, 4);
        for k in 0..256 {
            let starting = drawn(wrapping_add_u64(h << 8, k));
            let list = [
                (k % 4) as u8,
                (k / 4 % 4) as u8,
                (k / 16 % 4) as u8,
                (k / 64 % 4) as u8,
            ];
            let c = loaded_by(&log, &starting, &clock);
            self.add(
                check_number(c, &list),
                direct(&log, &times, &list),
                direct(&log, &Times::without(0), &list),
            );
        }
        add_if(&mut self.backs, any_back(&log));
    }
}

// Whether body j of transaction t is a read-back.
fn is_back(log: &[u8], t: u8, j: usize) -> bool {
    field(log, t, j, 0) == 0 && writes(log, t, j, field(log, t, j, 1))
}

// Whether a log has one.
fn any_back(log: &[u8]) -> bool {
    (0..4u8).any(|t| is_back(log, t, 1) || is_back(log, t, 2))
}

fn print(name: &[u8], r: Round) {
    let mut t = Tally::default();
    for h in 0..400 {
        t.add_lists(r, h);
    }
    text(name);
    text(b", with read-backs");
    number(t.backs);
    text(b"; all lists of four numbers: refused");
    number(t.refused);
    text(b", legal");
    number(t.legal);
    text(b", not legal");
    number(t.illegal);
    if r.timed {
        text(b", by the clock alone");
        number(t.barred);
    }
    text(b", different from the direct replay");
    number(t.different);
    end();
}

fn main() {
    let plain = Round {
        timed: false,
        blind: false,
    };
    let timed = Round {
        timed: true,
        blind: false,
    };
    let blind = Round {
        timed: true,
        blind: true,
    };
    print(b"400 histories", plain);
    print(b"400 histories with times", timed);
    print(b"400 histories with times and no reads", blind);
}
