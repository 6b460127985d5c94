// Bytes of logs with read-backs.

use crate::acts::{Act, act_by};

// An operation: what it does, its key, and its argument.
#[derive(Clone, Copy)]
struct Op {
    act: Act,
    key: u8,
    argument: u16,
}

// Byte f of its body.
fn op_byte(o: Op, f: usize) -> u8 {
    let [low, high] = o.argument.to_le_bytes();
    match f {
        0 => o.act.kind(),
        1 => o.key,
        2 => low,
        _ => high,
    }
}

// The argument of an operation of transaction t: the read before the write names the transaction before t, or the start.
fn argument_of(act: Act, t: u16, value: u16) -> u16 {
    match act {
        Act::Read => t.checked_sub(1).unwrap_or(trial::START),
        Act::Write => value,
        Act::Back => t,
    }
}

// Byte f of body m of the full log with read-backs: a transaction reads, writes and reads back keys 0 and 1, and writes and reads back key 31.
pub fn full_body_byte(m: usize, f: usize) -> u8 {
    let j = m % 8;
    let t = (m / 8 % 32) as u16;
    let n = if j < 6 { j } else { j - 5 };
    let act = act_by(n as u64);
    let key = if j < 6 { (j / 3) as u8 } else { 31 };
    let argument = argument_of(act, t, (m % 256) as u16);
    op_byte(Op { act, key, argument }, f)
}

// Body m of one transaction: key by key, or a round of reads, one of writes and one of read-backs.
fn long_op(rounds: bool, m: usize) -> Op {
    let n = if rounds { m / 32 } else { m };
    let key = if rounds { m } else { m / 3 };
    let act = act_by(n as u64);
    Op {
        act,
        key: (key % 32) as u8,
        argument: argument_of(act, 0, (m % 256) as u16),
    }
}

// Byte i of the log of that transaction: T 1, N 96, one entry, then the bodies.
pub fn long_byte(rounds: bool, i: usize) -> u8 {
    match i {
        0 => 1,
        2 | 5 => 96,
        1 | 3 | 4 | 6 | 7 => 0,
        _ => op_byte(long_op(rounds, (i - 8) / 4), i % 4),
    }
}
