// The functions for C, those of `host`, called by place, with their arguments in the order of include/beaconcrumb.h: codes, and what they write, worked out by hand. The gate
// runs no program in C, and contracts speak of arguments by name; so this is what notices if two of one type change places there. `host_c` exports them under the same names.
// The window is that of `samples::calls`. With the lists exchanged each begin is after its end; with the low bytes exchanged 1 would not end before 0 begins. Times of other lengths than 8 bytes each, or none, are 37.
#![tactic(auto)]

use host::{
    beaconcrumb_check, beaconcrumb_check_strict, beaconcrumb_decide, beaconcrumb_decide_from,
    beaconcrumb_decide_strict, beaconcrumb_encode, beaconcrumb_encode_strict,
};
use samples::calls::{BEGIN, END, LOG, show, start};

// Check of 0 1 and of 1 0.
fn checks() {
    let forward = [0u8, 1];
    let back = [1u8, 0];
    show(b"check 0 1:", beaconcrumb_check(&LOG, &forward), b"");
    show(b"check 1 0:", beaconcrumb_check(&LOG, &back), b"");
    show(
        b"strict check 0 1:",
        beaconcrumb_check_strict(&LOG, &BEGIN, &END, 0, &forward),
        b"",
    );
    show(
        b"strict check 1 0:",
        beaconcrumb_check_strict(&LOG, &BEGIN, &END, 0, &back),
        b"",
    );
    show(
        b"strict check 0 1, drift 1:",
        beaconcrumb_check_strict(&LOG, &BEGIN, &END, 1, &forward),
        b"",
    );
    show(
        b"strict check, lists exchanged:",
        beaconcrumb_check_strict(&LOG, &END, &BEGIN, 0, &back),
        b"",
    );
}

// Two lines of a decision: its code and the order, then the values of keys 0 and 1 in the table.
fn show_decision(name: &[u8], code: u32, order: &[u8], table: &[u8; 65]) {
    show(name, code, order);
    show(b"  table:", code, &table[..4]);
}

// Decide: the code, the order, and of the table the values of keys 0 and 1, then the last one, in buffers that are a byte longer than needed.
fn decisions() {
    let mut order = [99u8; 3];
    let mut table = [98u8; 65];
    let plain = beaconcrumb_decide(&LOG, 2, 1, &mut order, &mut table);
    show_decision(b"decide:", plain, &order, &table);
    show(b"  its end:", plain, &table[62..]);
}

// The same from a start.
fn from_a_start() {
    let s = start();
    let mut order = [99u8; 3];
    let mut table = [98u8; 65];
    let from = beaconcrumb_decide_from(&LOG, &s, 2, 1, &mut order, &mut table);
    show_decision(b"decide from:", from, &order, &table);
}

// The same with times, and with this drift.
fn by_the_clock(begin: &[u8], end: &[u8], drift: u32) {
    let s = start();
    let mut order = [99u8; 3];
    let mut table = [98u8; 65];
    let strict = beaconcrumb_decide_strict(
        &LOG, &s, begin, end, drift, 2, 1, &mut order, &mut table,
    );
    show_decision(b"strict decide:", strict, &order, &table);
}

// Encode in encoding 1: the code, the count and the first two row words, then the constraint.
fn polygraph() {
    let mut out = [97u8; 141];
    let plain = beaconcrumb_encode(&LOG, 1, 0, &mut out);
    show(b"encode:", plain, &out[..10]);
    show(b"  constraint:", plain, &out[130..]);
}

// The same with times.
fn strict_polygraph(begin: &[u8], end: &[u8], drift: u32, pruning: u8) {
    let mut out = [97u8; 141];
    let strict = beaconcrumb_encode_strict(&LOG, begin, end, drift, 1, pruning, &mut out);
    show(b"strict encode:", strict, &out[..10]);
    show(b"  constraint:", strict, &out[130..]);
}

// The three strict functions with times of these lengths: 37 where they are neither both empty nor both of 8 bytes, and what is shown of the buffers is then as it was.
fn lengths(begin: &[u8], end: &[u8]) {
    let s = start();
    let forward = [0u8, 1];
    let mut order = [99u8; 3];
    let mut table = [98u8; 65];
    let mut out = [97u8; 141];
    show(
        b"lengths, check:",
        beaconcrumb_check_strict(&LOG, begin, end, 0, &forward),
        b"",
    );
    let decided = beaconcrumb_decide_strict(&LOG, &s, begin, end, 0, 2, 1, &mut order, &mut table);
    show_decision(b"  decide:", decided, &order, &table);
    let encoded = beaconcrumb_encode_strict(&LOG, begin, end, 0, 1, 0, &mut out);
    show(b"  encode:", encoded, &out[..10]);
}

// A log of 3 bytes, which is tested before its times, with a start, which is tested before it.
fn first_tests(start: &[u8]) {
    let log = [2u8, 0, 2];
    let begin = [0u8; 9];
    let end = [0u8; 7];
    let mut order = [99u8; 3];
    let mut table = [98u8; 65];
    let code = beaconcrumb_decide_strict(
        &log, start, &begin, &end, 3601, 2, 1, &mut order, &mut table,
    );
    show(b"log of 3 bytes:", code, &order);
}

// Lengths for one transaction and for three, one list empty, a byte too few, a byte too many; none at all.
fn all_lengths() {
    let begin = [0u8; 12];
    let end = [0u8; 12];
    lengths(&begin[..4], &end[..4]);
    lengths(&begin, &end);
    lengths(&begin[..8], &end[..0]);
    lengths(&begin[..0], &end[..8]);
    lengths(&begin[..7], &end[..8]);
    lengths(&begin[..8], &end[..9]);
    lengths(&begin[..0], &end[..0]);
}

// In turn: as they are, with a drift of 1, and with the lists exchanged; then the lengths, and what is tested before the times.
fn main() {
    checks();
    decisions();
    from_a_start();
    by_the_clock(&BEGIN, &END, 0);
    by_the_clock(&BEGIN, &END, 1);
    by_the_clock(&END, &BEGIN, 0);
    polygraph();
    strict_polygraph(&BEGIN, &END, 0, 0);
    strict_polygraph(&BEGIN, &END, 0, 1);
    strict_polygraph(&BEGIN, &END, 1, 0);
    strict_polygraph(&END, &BEGIN, 0, 0);
    all_lengths();
    first_tests(&[0; 63]);
    first_tests(&[0; 64]);
}
