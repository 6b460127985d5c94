// What the programs that call the functions for C share: a window, its times and its start as bytes, and the line of a call. The window is document 01's C, two
// transactions that write key 0, with values 7 and 9. By its times 1, from second 5 to 255, ends before 0 begins, from second 256 to 70,000.
use crate::lines::{end, number, numbers, text};

pub const LOG: [u8; 20] = [2, 0, 2, 0, 0, 1, 0, 0, 1, 1, 1, 0, 1, 0, 7, 0, 1, 0, 9, 0];

// 256 and 5; 70,000 and 255.
pub const BEGIN: [u8; 8] = [0, 1, 0, 0, 5, 0, 0, 0];

pub const END: [u8; 8] = [112, 17, 1, 0, 255, 0, 0, 0];

// The start: key 0 at 1, key 1 at 258, all others at 0.
pub fn start() -> [u8; 64] {
    let mut out = [0u8; 64];
    out[..4].copy_from_slice(&[1, 0, 2, 1]);
    out
}

// A line: a name, a code, and bytes.
pub fn show(name: &[u8], code: u32, list: &[u8]) {
    text(name);
    number(code);
    numbers(list);
    end();
}
