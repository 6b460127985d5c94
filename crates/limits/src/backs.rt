// Read-backs and what stands a second time: 9, 10, 34 and 11, and the largest logs with read-backs. Two to four operations of one key take the place of the first bodies of
// the full log, as operations of transaction 0 on key 0, and of its last, as operations of transaction 31 on key 31.
use checker::Case;
use samples::lines::line;
use samples::{
    ascending, check_number, first, full, full_backed, load_number, loaded, long, with_byte,
};

// An operation: a write, or a read that names the start, its own transaction, another one, or 32.
#[derive(Clone, Copy)]
enum Op {
    Write,
    Start,
    Own,
    Other,
    Nobody,
}

// The argument of an operation of transaction t.
fn argument_of(o: Op, t: u8) -> u16 {
    match o {
        Op::Write => 7,
        Op::Start => trial::START,
        Op::Own => u16::from(t),
        Op::Other => u16::from(31 - t % 32),
        Op::Nobody => 32,
    }
}

fn kind_of(o: Op) -> u8 {
    match o {
        Op::Write => 1,
        _ => 0,
    }
}

// The operation becomes body m of the log, which is one of transaction t, on key t.
fn put(log: &mut [u8; 1156], m: usize, t: u8, o: Op) {
    let i = 132 + 4 * (m % 256);
    let [low, high] = argument_of(o, t).to_le_bytes();
    log[i..i + 4].copy_from_slice(&[kind_of(o), t, low, high]);
}

// The number of the log with the operations from body m on, as those of transaction t.
fn number_with(m: usize, t: u8, ops: &[Op]) -> u64 {
    let mut log = full();
    for (m, o) in (m..256).zip(ops) {
        put(&mut log, m, t, *o);
    }
    load_number(Case::fresh(), &log)
}

// Operations as the first bodies, of transaction 0, and as the last, of transaction 31.
fn show(name: &[u8], ops: &[Op]) {
    let last = 256usize.saturating_sub(ops.len());
    line(name, &[number_with(0, 0, ops), number_with(last, 31, ops)]);
}

// Behind a write, and where there is none.
fn pairs() {
    show(b"read-back at body 1, 255:", &[Op::Write, Op::Own]);
    show(
        b"read-back of the starting value at body 1, 255:",
        &[Op::Write, Op::Start],
    );
    show(
        b"read-back that names another transaction at body 1, 255:",
        &[Op::Write, Op::Other],
    );
    show(b"read-back of 32 at body 1, 255:", &[Op::Write, Op::Nobody]);
    show(b"second write at body 1, 255:", &[Op::Write, Op::Write]);
    show(
        b"second read of a key not written, the first names its own transaction:",
        &[Op::Own, Op::Start],
    );
    show(
        b"second read of a key not written that names its own transaction:",
        &[Op::Start, Op::Own],
    );
}

// A read, the write and a read-back.
fn triples() {
    show(
        b"a read, the write, a read-back:",
        &[Op::Start, Op::Write, Op::Own],
    );
    show(
        b"the same, where the read names its own transaction:",
        &[Op::Own, Op::Write, Op::Own],
    );
    show(
        b"a read, the write, a read-back of the starting value:",
        &[Op::Start, Op::Write, Op::Start],
    );
    show(
        b"a read, the write, a read-back that names another transaction:",
        &[Op::Start, Op::Write, Op::Other],
    );
    show(
        b"second read before the write:",
        &[Op::Start, Op::Start, Op::Write],
    );
}

// What stands behind a read-back.
fn seconds() {
    show(
        b"second read-back at body 2, 255:",
        &[Op::Write, Op::Own, Op::Own],
    );
    show(
        b"second read-back, of the starting value:",
        &[Op::Write, Op::Own, Op::Start],
    );
    show(
        b"second read-back, of another transaction:",
        &[Op::Write, Op::Own, Op::Other],
    );
    show(
        b"second read-back, of 32:",
        &[Op::Write, Op::Own, Op::Nobody],
    );
    show(
        b"second write behind a read-back:",
        &[Op::Write, Op::Own, Op::Write],
    );
    show(
        b"read-back of the starting value, then a second write:",
        &[Op::Write, Op::Start, Op::Write],
    );
    show(
        b"second write, then a read-back of the starting value:",
        &[Op::Write, Op::Write, Op::Start],
    );
}

// A second read and a second write in one transaction: the first of the two has the number.
fn both() {
    show(
        b"second read before the write, then a second write:",
        &[Op::Start, Op::Start, Op::Write, Op::Write],
    );
    show(
        b"second read-back, then a second write:",
        &[Op::Write, Op::Own, Op::Own, Op::Write],
    );
    show(
        b"second write, then a second read-back:",
        &[Op::Write, Op::Own, Op::Write, Op::Own],
    );
    show(
        b"second write at once, then two read-backs:",
        &[Op::Write, Op::Write, Op::Own, Op::Own],
    );
    show(
        b"a read, the write, a read-back, a second write:",
        &[Op::Start, Op::Write, Op::Own, Op::Write],
    );
}

pub fn numbers() {
    pairs();
    triples();
    seconds();
    both();
}

// 96 operations in one transaction: what Load says, and what Check says of the order 0.
fn show_long(name: &[u8], rounds: bool) {
    let log = long(rounds);
    let head = first(&log, 392);
    line(
        name,
        &[
            load_number(Case::fresh(), head),
            check_number(loaded(head), b"\x00"),
        ],
    );
}

// 256 operations, and 96 in one transaction. 100 stands for a legal order, 101 for one that is not.
pub fn taken() {
    let log = full_backed();
    let held = loaded(&log);
    let up = ascending();
    let swapped = with_byte(with_byte(ascending(), 0, 1), 1, 0);
    line(
        b"T 32, N 256 with 96 read-backs: load, check of 0 to 31:",
        &[
            load_number(Case::fresh(), &log),
            check_number(held, first(&up, 32)),
        ],
    );
    line(
        b"the same: check of 31 numbers; of 1 before 0:",
        &[
            check_number(held, first(&up, 31)),
            check_number(held, first(&swapped, 32)),
        ],
    );
    show_long(
        b"32 keys read, written and read back by one transaction, key by key: load, check:",
        false,
    );
    show_long(b"the same in three rounds:", true);
}
