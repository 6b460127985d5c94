// What the clock lets Check take. 100 stands for a legal order, 101 for one that is not.
use checker::{Case, Clock};
use samples::clocks::loaded_by;
use samples::lines::{end, line, text, yes_no};
use samples::{after_check, ascending, check_number, first, full_backed, loaded_at};
use std::array;

// The highest second.
const TOP: u32 = 4294967295;

// What Check says of 0 1 and of 1 0, of a log of two transactions with these begins and ends.
fn show_log(name: &[u8], log: &[u8], begin: [u32; 2], end: [u32; 2], drift: u32) {
    let c = loaded_at(log, &[0; 32], &begin, &end, drift);
    line(
        name,
        &[check_number(c, b"\x00\x01"), check_number(c, b"\x01\x00")],
    );
}

// The same of two transactions of two cabinets that write key 0: without times both are legal.
fn show(name: &[u8], begin: [u32; 2], end: [u32; 2], drift: u32) {
    let log = b"\x02\x00\x02\x00\x00\x01\x00\x00\x01\x01\x01\x00\x01\x00\x05\x00\x01\x00\x06\x00";
    show_log(name, log, begin, end, drift);
}

// Seconds in the middle of the range.
fn middle() {
    show(
        b"check of 0 1; of 1 0: 0 from 5 to 9, 1 from 10 to 12:",
        [5, 10],
        [9, 12],
        0,
    );
    show(b"1 from 5 to 9, 0 from 10 to 12:", [10, 5], [12, 9], 0);
    show(b"0 from 5 to 10, 1 from 10 to 12:", [5, 10], [10, 12], 0);
    show(b"0 from 5 to 11, 1 from 10 to 12:", [5, 10], [11, 12], 0);
    show(b"both from 5 to 12:", [5, 5], [12, 12], 0);
    show(b"both at second 10:", [10, 10], [10, 10], 0);
    show(b"0 at second 10, 1 at 11:", [10, 11], [10, 11], 0);
    show(b"0 at second 10, 1 at 11, drift 1:", [10, 11], [10, 11], 1);
    show(b"0 at second 10, 1 at 12, drift 1:", [10, 12], [10, 12], 1);
    show(
        b"0 to second 10, 1 from 3609, drift 3600:",
        [10, 3609],
        [10, 5000],
        3600,
    );
    show(b"1 from 3610:", [10, 3610], [10, 5000], 3600);
    show(b"1 from 3611:", [10, 3611], [10, 5000], 3600);
    show(
        b"1 to second 10, 0 from 3611, drift 3600:",
        [3611, 10],
        [5000, 10],
        3600,
    );
}

// Both ends of the range.
fn ends() {
    show(b"0 at second 0, 1 at 1:", [0, 1], [0, 1], 0);
    show(b"1 at second 0, 0 at 1:", [1, 0], [1, 0], 0);
    show(
        b"0 at second 4294967294, 1 at 4294967295:",
        [TOP - 1, TOP],
        [TOP - 1, TOP],
        0,
    );
    show(b"the same with drift 1:", [TOP - 1, TOP], [TOP - 1, TOP], 1);
    show(
        b"0 at second 0, 1 at 4294967295, drift 3600:",
        [0, TOP],
        [0, TOP],
        3600,
    );
    show(
        b"1 at second 0, 0 at 4294967295, drift 3600:",
        [TOP, 0],
        [TOP, 0],
        3600,
    );
}

// Sums of an end and the drift that pass the range, and that just don't.
fn sums() {
    show(
        b"both at second 4294967295, drift 1:",
        [TOP, TOP],
        [TOP, TOP],
        1,
    );
    show(
        b"both at second 4294967295, drift 3600:",
        [TOP, TOP],
        [TOP, TOP],
        3600,
    );
    show(
        b"0 to second 4294967295, 1 at 3600, drift 3600:",
        [0, 3600],
        [TOP, 3600],
        3600,
    );
    show(
        b"0 to second 4294967294, 1 at 3600, drift 3600:",
        [0, 3600],
        [TOP - 1, 3600],
        3600,
    );
    show(
        b"0 to second 4294963695, 1 at 4294967295, drift 3600:",
        [0, TOP],
        [TOP - 3600, TOP],
        3600,
    );
    show(
        b"0 to second 4294963694, 1 at 4294967295, drift 3600:",
        [0, TOP],
        [TOP - 3601, TOP],
        3600,
    );
}

// The clock beside the cabinets' own order and the reads: two writers of one cabinet; 0 writes and 1 reads the starting value; 0 reads what 1 wrote.
fn beside() {
    let one = b"\x02\x00\x02\x00\x00\x01\x00\x00\x00\x01\x01\x00\x01\x00\x05\x00\x01\x00\x06\x00";
    show_log(
        b"one cabinet, 0 at second 10, 1 at 20:",
        one,
        [10, 20],
        [10, 20],
        0,
    );
    show_log(
        b"one cabinet, 1 at second 10, 0 at 20:",
        one,
        [20, 10],
        [20, 10],
        0,
    );
    let start = b"\x02\x00\x02\x00\x00\x01\x00\x00\x01\x01\x01\x00\x01\x00\x05\x00\x00\x00\xff\xff";
    show_log(
        b"1 reads the start of what 0 writes, 0 at second 10, 1 at 20:",
        start,
        [10, 20],
        [10, 20],
        0,
    );
    show_log(b"the same at one second:", start, [20, 20], [20, 20], 0);
    let read = b"\x02\x00\x02\x00\x00\x01\x00\x00\x01\x01\x01\x00\x00\x00\x01\x00\x01\x00\x05\x00";
    show_log(
        b"0 reads what 1 writes, 0 at second 10, 1 at 20:",
        read,
        [10, 20],
        [10, 20],
        0,
    );
    show_log(b"the same, drift 10:", read, [10, 20], [10, 20], 10);
}

// ---- 32 transactions

// Transaction t from second 10 * t to 10 * t + 5.
fn in_turn() -> Clock {
    Clock {
        count: 32,
        begin: array::from_fn(|t| 10 * (t % 32) as u32),
        end: array::from_fn(|t| 10 * (t % 32) as u32 + 5),
        drift: 0,
    }
}

// The same with transaction t moved to a second.
fn moved(t: usize, second: u32) -> Clock {
    let mut out = in_turn();
    out.begin[t % 32] = second;
    out.end[t % 32] = second;
    out
}

// All from second 0 to 1000, but for 0, which begins at 500, and 31, which ends at a second.
fn apart(second: u32) -> Clock {
    let mut out = Clock {
        count: 32,
        begin: [0; 32],
        end: [1000; 32],
        drift: 0,
    };
    out.begin[0] = 500;
    out.end[31] = second;
    out
}

// The full log with read-backs, of which 0 to 31 is a legal order, with these times.
fn held(clock: Clock) -> Case {
    loaded_by(&full_backed(), &[0; 32], &clock)
}

// What Check says of 0 to 31.
fn of_all(clock: Clock) -> u64 {
    check_number(held(clock), first(&ascending(), 32))
}

fn many() {
    line(
        b"T 32, check of 0 to 31: in turn; 31 at second 4294967295:",
        &[of_all(in_turn()), of_all(moved(31, TOP))],
    );
    line(
        b"1 at second 0; 0 at second 15:",
        &[of_all(moved(1, 0)), of_all(moved(0, 15))],
    );
    line(
        b"0 at second 16; 31 at second 300:",
        &[of_all(moved(0, 16)), of_all(moved(31, 300))],
    );
    line(
        b"31 at second 299; 31 at second 0:",
        &[of_all(moved(31, 299)), of_all(moved(31, 0))],
    );
    line(
        b"all from 0 to 1000, but 0 from 500, 31 to 500; 31 to 499:",
        &[of_all(apart(500)), of_all(apart(499))],
    );
    let c = held(in_turn());
    text(b"after check the case is as it was, with times:");
    yes_no(c == after_check(c, &ascending()));
    end();
}

pub fn show_all() {
    middle();
    ends();
    sums();
    beside();
    many();
}
