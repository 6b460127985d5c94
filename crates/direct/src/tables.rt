// The table that an order leaves of a starting one, by a replay on the log's bytes. Reads, before a write or behind it, change nothing.
use crate::{body, operations};
use trial::{byte, pair};

// The operation whose body begins at byte i.
fn replay(table: &mut [u16; 32], log: &[u8], i: usize) {
    if i <= 1152 && byte(log, i) == 1 {
        table[usize::from(byte(log, i + 1) % 32)] = pair(log, i + 2);
    }
}

// The starting table after the first n transactions of the order.
pub fn table(log: &[u8], starting: &[u16; 32], order: &[u8; 32], n: usize) -> [u16; 32] {
    let mut out = *starting;
    for t in order.iter().take(n) {
        let t = usize::from(*t);
        for j in 0..operations(log, t) {
            replay(&mut out, log, body(log, t, j));
        }
    }
    out
}
