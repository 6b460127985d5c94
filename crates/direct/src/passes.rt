// Pruning by passes over a list of constraints.
use crate::constraints::{Side, at, push};
use crate::{bit, has};

// All paths of one or more edges.
fn paths(rows: &[u32; 32]) -> [u32; 32] {
    let mut out = *rows;
    for k in 0..32 {
        let behind = out[k];
        for row in out.iter_mut() {
            if has(*row, k) {
                *row |= behind;
            }
        }
    }
    out
}

// Whether a side is closed off: some source is its target or is reached from it.
fn closed_off(reached: &[u32; 32], s: Side) -> bool {
    let t = (s.to % 32) as usize;
    s.from & (reached[t] | bit(t)) != 0
}

// A side's edges.
fn add_side(rows: &mut [u32; 32], s: Side) {
    for (u, row) in rows.iter_mut().enumerate() {
        if has(s.from, u) {
            *row |= bit((s.to % 32) as usize);
        }
    }
}

// A pass over the first n constraints: one is dropped with the other side's edges where a side is closed off, else put behind those left so far. How many are
// left.
fn pass(list: &mut [u32; 16384], rows: &mut [u32; 32], n: usize) -> usize {
    let mut left = 0;
    for i in 0..n {
        let [a, b] = at(list, i);
        let reached = paths(rows);
        if closed_off(&reached, a) {
            add_side(rows, b);
        } else if closed_off(&reached, b) {
            add_side(rows, a);
        } else {
            push(list, &mut left, a, b);
        }
    }
    left
}

// Passes over the first n constraints until one drops none.
fn passes(list: &mut [u32; 16384], rows: &mut [u32; 32], n: usize) -> usize {
    let mut left = n;
    for _ in 0..4097 {
        let before = left;
        left = pass(list, rows, before);
        if left == before {
            return left;
        }
    }
    left
}

// Pruning of the first n constraints of the list, at most 4,096: those left stand first, with zeros behind them. How many are left.
pub fn pruned(list: &mut [u32; 16384], rows: &mut [u32; 32], n: usize) -> usize {
    let left = passes(list, rows, n);
    let nothing = Side { from: 0, to: 0 };
    let mut place = left;
    for _ in left..n {
        push(list, &mut place, nothing, nothing);
    }
    left
}
