// The known edges of a history in an encoding, and those of its times, as row words: bit v of word u stands for u→v.
use crate::{History, bit, without};
use trial::START;
use trial::times::Times;

// The edge u→v.
pub fn add_edge(rows: &mut [u32; 32], u: usize, v: usize) {
    rows[u % 32] |= bit(v);
}

// The edges of the cabinets' own orders: from a transaction to the next one of its cabinet.
fn add_cabinets(rows: &mut [u32; 32], h: &History) {
    for t in 0..h.size.min(32) {
        let next = (t + 1..h.size.min(32)).find(|v| h.cabinet[*v % 32] == h.cabinet[t % 32]);
        if let Some(v) = next {
            add_edge(rows, t, v);
        }
    }
}

// The edges of transaction t's read of the key: to the writers where it is of the starting value; else from what it names or, where it is not good, to itself.
fn add_read(rows: &mut [u32; 32], h: &History, t: usize, key: usize) {
    let u = match h.name(t, key) {
        Some(START) => {
            rows[t % 32] |= without(h.writers_of(key), t);
            return;
        }
        Some(u) => usize::from(u),
        None => t,
    };
    add_edge(rows, if h.good(t, key, u) { u } else { t }, t);
}

// Encoding 2's further edge of the same read: to the successor of what it names, where that is another.
fn add_further(rows: &mut [u32; 32], h: &History, t: usize, key: usize) {
    let Some(name) = h.name(t, key) else {
        return;
    };
    let u = usize::from(name);
    if !h.good(t, key, u) {
        return;
    }
    if let Some(v) = h.successor(key, u) {
        if v != t {
            add_edge(rows, t, v);
        }
    }
}

// The known edges that the log gives.
pub fn known(h: &History, encoding: u8) -> [u32; 32] {
    let mut rows = [0u32; 32];
    add_cabinets(&mut rows, h);
    for place in h.reads.iter().take(h.count) {
        let t = usize::from(*place) / 32;
        let key = usize::from(*place) % 32;
        add_read(&mut rows, h, t, key);
        if encoding == 2 {
            add_further(&mut rows, h, t, key);
        }
    }
    rows
}

// The edges that the times of so many transactions give: between any two, not neighbours alone.
pub fn add_clock(rows: &mut [u32; 32], times: &Times, size: usize) {
    for u in 0..size.min(32) {
        for v in 0..size.min(32) {
            if times.ended_before(u, v) {
                add_edge(rows, u, v);
            }
        }
    }
}
