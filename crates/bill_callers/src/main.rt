// Bills for C, called by place, with its arguments in the order of include/beaconcrumb.h: codes, and what it writes, worked out by hand, as `callers` does for the other
// functions. The window and its times are those of `samples::calls`: two transactions that write key 0, with values 7 and 9; by its times 1 ends before 0 begins.
#![tactic(auto)]

use host::beaconcrumb_bills;
use samples::calls::{BEGIN, END, LOG, show, start};

// A window without a legal order: cabinet 0 writes key 0, and then reads what was there at the start.
const TORN: [u8; 20] = [
    2, 0, 2, 0, 0, 1, 0, 0, 0, 1, 1, 0, 1, 0, 7, 0, 0, 0, 255, 255,
];

// Bills, with times and with this drift: the records of cabinets 0 and 1, then the last byte of the last record and the byte behind it, in a buffer that is a byte longer than needed. Key 0 starts at 1. Where 1 comes first, cabinet 1 raises it by 8 to 9, at 12 mills,
// and cabinet 0 lowers it by 2 to 7, at 4; where 0 does, they raise it by 6 and by 2.
fn bills(begin: &[u8], end: &[u8], drift: u32) {
    let s = start();
    let mut out = [95u8; 193];
    let code = beaconcrumb_bills(&LOG, &s, begin, end, drift, &mut out);
    show(b"bills:", code, &out[..24]);
    show(b"  their end:", code, &out[191..]);
}

// In a buffer that is a byte too short, without times.
fn short_bills(log: &[u8]) {
    let s = start();
    let mut out = [95u8; 191];
    let code = beaconcrumb_bills(log, &s, &[], &[], 0, &mut out);
    show(b"bills in 191 bytes:", code, b"");
}

// Times for one transaction, and none at all.
fn bill_lengths() {
    let begin = [0u8; 12];
    let end = [0u8; 12];
    bills(&begin[..4], &end[..4], 0);
    bills(&begin[..0], &end[..0], 0);
}

// What is tested first: the start, then the log, then the rest.
fn first_tests_of_bills(start: &[u8]) {
    let log = [2u8, 0, 2];
    let begin = [0u8; 9];
    let end = [0u8; 7];
    let mut out = [95u8; 3];
    let code = beaconcrumb_bills(&log, start, &begin, &end, 3601, &mut out);
    show(b"log of 3 bytes, bills:", code, &out);
}

fn main() {
    bills(&BEGIN, &END, 0);
    bills(&BEGIN, &END, 1);
    bills(&END, &BEGIN, 0);
    short_bills(&LOG);
    short_bills(&TORN);
    bill_lengths();
    first_tests_of_bills(&[0; 63]);
    first_tests_of_bills(&[0; 64]);
}
