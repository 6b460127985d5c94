// The logs with the most constraints that 256 operations give.
use samples::full;

// Byte f of body m, where each transaction reads keys 0 to 3 from the one before it, 0 from 31, and writes them.
fn ring_byte(m: usize, f: usize) -> u8 {
    let t = m / 8 % 32;
    let j = m % 8;
    match f {
        0 => (j % 2) as u8,
        1 => (j / 2) as u8,
        2 => if j % 2 == 0 {
            ((t + 31) % 32) as u8
        } else {
            t as u8
        },
        _ => 0,
    }
}

// Byte f of body m, where each transaction writes keys 0 to 7.
fn blind_byte(m: usize, f: usize) -> u8 {
    match f {
        0 => 1,
        1 => (m % 8) as u8,
        2 => (m / 8 % 32) as u8,
        _ => 0,
    }
}

// The one log or the other. The head and the entries are those of the full log: 8 operations in each transaction.
pub fn busy(ring: bool) -> [u8; 1156] {
    let mut out = full();
    for (i, byte) in out.iter_mut().skip(132).enumerate() {
        *byte = if ring {
            ring_byte(i / 4, i % 4)
        } else {
            blind_byte(i / 4, i % 4)
        };
    }
    out
}
