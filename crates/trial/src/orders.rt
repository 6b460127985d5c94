// Orders of a sample's transactions: a random one, what a run in an order reads, whether an order is legal, and all orders in turn.
ghost use Rattle.std.specs.Prelude.{◌≡◌, ◌<◌, length, IfSome};

use crate::{START, Sample};
use std::array;

// 0, 1, 2 and on.
pub fn ascending() -> [u8; 32] {
    array::from_fn(|t| (t % 32) as u8)
}

// A random order of the first n numbers.
pub fn shuffled(n: u8, seed: u64) -> [u8; 32] {
    let mut out = ascending();
    let mut r = seed;
    for i in 0..n.min(32) {
        r = crate::next(r);
        out.swap(usize::from(i), crate::below(r, u64::from(i) + 1) as usize);
    }
    out
}

// A run of the sample in the order: the read of a key is made to name the one who wrote it last, then the write is stored. A read-back is passed by: the write
// before it explains it.
pub fn read_in_run(s: &mut Sample, order: &[u8; 32]) {
    let mut last = [START; 4];
    for t in order.iter().take(usize::from(s.size)) {
        let place = 4 * usize::from(t % 32);
        for (u, last) in s.uses[place..place + 4].iter_mut().zip(last.iter_mut()) {
            if u.reads {
                u.name = *last;
            }
            if u.writes {
                *last = u16::from(*t);
            }
        }
    }
}

// Whether a run of the sample in the order explains all its reads.
fn explained(s: &Sample, order: &[u8; 32]) -> bool {
    let mut last = [START; 4];
    for t in order.iter().take(usize::from(s.size)) {
        let place = 4 * usize::from(t % 32);
        for (u, last) in s.uses[place..place + 4].iter().zip(last.iter_mut()) {
            if u.reads && u.name != *last {
                return false;
            }
            if u.writes {
                *last = u16::from(*t);
            }
        }
    }
    true
}

// Whether u may stand before v by the clock: not where v ended before u began.
fn timely(s: &Sample, u: u8, v: u8) -> bool {
    !s.times.ended_before(usize::from(v), usize::from(u))
}

// Whether u before v keeps their cabinet's own order and the clock's.
fn keeps(s: &Sample, u: u8, v: u8) -> bool {
    let one = s.cabinet[usize::from(u % 32)] == s.cabinet[usize::from(v % 32)];
    !(one && u > v) && timely(s, u, v)
}

// Whether each two of a sample's transactions stand in the order as a test has it.
fn each_two<F: Fn(u8, u8) -> bool>(s: &Sample, order: &[u8; 32], test: F) -> bool
    requires { F.IsAlwaysCallable test }
{
    for (j, v) in order.iter().enumerate().take(usize::from(s.size)) {
        for u in order.iter().take(j) {
            if !test(*u, *v) {
                return false;
            }
        }
    }
    true
}

// Whether the order keeps the clock's.
pub fn keeps_clock(s: &Sample, order: &[u8; 32]) -> bool {
    each_two(s, order, |u, v| timely(s, u, v))
}

// Whether the order, one of all the sample's numbers, is legal.
pub fn legal(s: &Sample, order: &[u8; 32]) -> bool {
    explained(s, order) && each_two(s, order, |u, v| keeps(s, u, v))
}

// The last place with a lower number right before it.
fn rise(list: &[u8]) -> Option<usize>
    ensures { IfSome result (λ i. i < length list.now) }
{
    for i in (1..list.len()).rev() {
        if list[i - 1] < list[i] {
            return Some(i);
        }
    }
    None
}

// The next order of a list's numbers, lexicographically, takes the list's place; false where there is none.
pub fn advance(list: &mut [u8]) -> bool {
    let Some(i) = rise(list) else {
        return false;
    };
    let before = i.saturating_sub(1);
    let low = list[before];
    if let Some(j) = list.iter().rposition(|x| *x > low) {
        list.swap(before, j);
    }
    list[i..].reverse();
    true
}

// The first legal order of a sample of at most 8 transactions.
pub fn first(s: &Sample) -> Option<[u8; 32]> {
    let mut order = ascending();
    for _ in 0..50000 {
        if legal(s, &order) {
            return Some(order);
        }
        if !advance(&mut order[..usize::from(s.size.min(8))]) {
            return None;
        }
    }
    None
}
