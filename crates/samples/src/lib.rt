// What the test programs share: a full log to change bytes of, logs with read-backs at the limits, starting tables, times, calls with their answers as
// numbers, and lines of output.
#![tactic(auto)]

use checker::{Answer, Case, Judgement};
use refusals::number_of;
use std::array;
pub use trial::byte as at;

pub mod acts;
mod backs;
pub mod calls;
pub mod clocks;
pub mod lines;
pub mod tables;
pub mod tallies;

// ---- logs

// Byte f of an entry: cabinet t % 16, 8 operations, start 8 * t.
fn entry_byte(t: usize, f: usize) -> u8 {
    match f {
        0 => (t % 16) as u8,
        1 => 8,
        2 => (t % 32 * 8) as u8,
        _ => 0,
    }
}

// Byte f of body m: the bodies of a transaction read and write keys 0, 1, 2 and 31 in turn. The reads are at start, the writes' values below 32.
fn body_byte(m: usize, f: usize) -> u8 {
    let j = m % 8;
    match f {
        0 => (j % 2) as u8,
        1 => if j < 6 { (j / 2) as u8 } else { 31 },
        2 => if j % 2 == 0 { 255 } else { (m % 32) as u8 },
        _ => if j % 2 == 0 { 255 } else { 0 },
    }
}

// Byte i of the header and the entries of a full log: 32 transactions of 8 operations each.
fn contents_byte(i: usize) -> u8 {
    match i {
        0 => 32,
        3 => 1,
        1 | 2 => 0,
        _ => entry_byte((i - 4) / 4, i % 4),
    }
}

// The full log: 32 transactions and 256 operations.
pub fn full() -> [u8; 1156] {
    array::from_fn(|i| if i < 132 {
        contents_byte(i)
    } else {
        body_byte((i - 132) / 4, i % 4)
    })
}

// A full log with three read-backs in each transaction. 0, 1, 2 and on is a legal order.
pub fn full_backed() -> [u8; 1156] {
    array::from_fn(|i| if i < 132 {
        contents_byte(i)
    } else {
        backs::full_body_byte((i - 132) / 4, i % 4)
    })
}

// One transaction that reads 32 keys, writes them and reads them back: 96 operations, in the first 392 bytes. It does so key by key, or in three rounds.
pub fn long(rounds: bool) -> [u8; 1156] {
    array::from_fn(|i| backs::long_byte(rounds, i))
}

// The numbers 0, 1, 2 and on.
pub fn ascending() -> [u8; 1156] {
    array::from_fn(|i| (i % 256) as u8)
}

// The first n of a list, if it has so many.
pub fn first<T, const N: usize>(list: &[T; N], n: usize) -> &[T] {
    &list[..n.min(N)]
}

// The list with x at place i.
pub fn with_byte<const N: usize>(list: [u8; N], i: usize, x: u8) -> [u8; N] {
    let mut out = list;
    if let Some(byte) = out.get_mut(i) {
        *byte = x;
    }
    out
}

// ---- Load

// Load of a log beside a starting table, without times.
pub fn load_from(c: Case, log: &[u8], starting: &[u16]) -> Answer {
    c.load(log, starting, &[], &[], 0)
}

// The number that Load gives of a log beside a starting table and times.
pub fn load_number_at(
    c: Case,
    log: &[u8],
    starting: &[u16],
    begin: &[u32],
    end: &[u32],
    drift: u32,
) -> u64 {
    u64::from(number_of(c.load(log, starting, begin, end, drift).reply))
}

// The same without times.
pub fn load_number_from(c: Case, log: &[u8], starting: &[u16]) -> u64 {
    u64::from(number_of(load_from(c, log, starting).reply))
}

// The same beside 32 zeros.
pub fn load_number(c: Case, log: &[u8]) -> u64 {
    load_number_from(c, log, &[0; 32])
}

// The number that Load gives of the full log with x at place i and y at place j.
pub fn changed_number(i: usize, x: u8, j: usize, y: u8) -> u64 {
    load_number(Case::fresh(), &with_byte(with_byte(full(), i, x), j, y))
}

// The case that holds a log beside a starting table and times.
pub fn loaded_at(log: &[u8], starting: &[u16], begin: &[u32], end: &[u32], drift: u32) -> Case {
    Case::fresh().load(log, starting, begin, end, drift).case
}

// The same without times.
pub fn loaded_from(log: &[u8], starting: &[u16]) -> Case {
    load_from(Case::fresh(), log, starting).case
}

// The same beside 32 zeros.
pub fn loaded(log: &[u8]) -> Case {
    loaded_from(log, &[0; 32])
}

// ---- Check

// What Check says: 100 legal, 101 not legal, or the number of a refusal.
pub fn check_number(c: Case, order: &[u8]) -> u64 {
    match c.check(order).judgement {
        Ok(Judgement::Legal) => 100,
        Ok(Judgement::Illegal) => 101,
        Err(refusal) => u64::from(refusal.number()),
    }
}

// The case after Check.
pub fn after_check(c: Case, order: &[u8]) -> Case {
    c.check(order).case
}
