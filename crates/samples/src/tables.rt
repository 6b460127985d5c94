// Starting tables of the test programs: one with a level of its own at each key, and random ones.
use std::array;

// 32 levels, no two the same: the highest value at key 0, 0 at key 30, and 1,000 more than the key at the others.
pub fn levels() -> [u16; 32] {
    array::from_fn(|key| match key {
        0 => 65535,
        30 => 0,
        _ => (1000 + key % 32) as u16,
    })
}

// A random number of table n for place k, of which there are 64. Neighbours differ.
fn chance(n: u64, k: u64) -> u64 {
    let a = (n % 1000000 * 64 + k % 64) * 2654435761 % 4294967296;
    let b = (a ^ (a >> 15)) % 4294967296 * 2246822519 % 4294967296;
    b ^ (b >> 13)
}

// The level of a key, by a random number: 0 and the highest value are one of four each.
fn level_by(r: u64) -> u16 {
    match r % 4 {
        0 => 0,
        1 => 65535,
        _ => (r / 65536 % 65536) as u16,
    }
}

// Random table n. One of eight is all zeros, and one of eight the highest value everywhere; the others have a level drawn for each key.
pub fn drawn(n: u64) -> [u16; 32] {
    match chance(n, 32) % 8 {
        0 => [0; 32],
        1 => [65535; 32],
        _ => array::from_fn(|k| level_by(chance(n, k as u64))),
    }
}
