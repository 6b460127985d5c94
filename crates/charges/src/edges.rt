// Bills worked out by hand where they could go wrong: moves of nothing and over the whole range, keys that are no gates, cents rounded down, the value that
// a move starts from, an order that is not the log's, and the largest sums.
use crate::bills::{bill_of, decided, decided_by, print, print_two};
use crate::writes::{Write, by, log_of};
use checker::{Case, Clock};
use samples::lines::{end, number, text};
use samples::tables::levels;
use trial::log::Bytes;

// The case of a few writes, with every key at one value.
fn made(list: &[Write], start: u16) -> Case {
    decided(log_of(list).as_slice(), start)
}

// The line of a few writes: what cabinets 0 and 1 pay.
fn show(name: &[u8], list: &[Write], start: u16) {
    text(name);
    text(b":");
    print_two(made(list, start), 0, 1);
    end();
}

// ---- single moves

// A gate over the whole range, up and down.
fn show_range(gate: u8) {
    text(b"gate");
    number(gate);
    text(b" from 0 to 65535; from 65535 to 0:");
    print(bill_of(made(&[by(5, gate, 65535)], 0), 5));
    text(b";");
    print(bill_of(made(&[by(5, gate, 0)], 65535), 5));
    end();
}

fn ranges() {
    for gate in [0, 3, 4, 7, 8, 11, 12, 15] {
        show_range(gate);
    }
}

fn nothings() {
    show(b"no transaction", &[], 500);
    show(b"gate 0 from 500 to 500", &[by(0, 0, 500)], 500);
    show(b"gate 15 from 0 to 0", &[by(0, 15, 0)], 0);
    show(b"gate 12 from 65535 to 65535", &[by(0, 12, 65535)], 65535);
    show(b"key 16 from 500 to 65535", &[by(0, 16, 65535)], 500);
    show(b"key 31 from 500 to 0", &[by(0, 31, 0)], 500);
    show(
        b"key 16 to 600, then gate 15 to 501, cabinet 1 writes key 31",
        &[by(0, 16, 600), by(0, 15, 501), by(1, 31, 600)],
        500,
    );
    show(b"cabinet 1 alone has a transaction", &[by(1, 8, 501)], 500);
}

// ---- cents

fn few_cents() {
    show(b"4 mills", &[by(0, 0, 499)], 500);
    show(b"9 mills", &[by(0, 0, 499), by(0, 4, 499)], 500);
    show(b"10 mills", &[by(0, 12, 499)], 500);
    show(b"19 mills", &[by(0, 4, 501), by(0, 0, 499)], 500);
    show(b"20 mills", &[by(0, 8, 501)], 500);
    show(
        b"29 mills",
        &[by(0, 8, 501), by(0, 0, 499), by(0, 4, 499)],
        500,
    );
    show(b"30 mills", &[by(0, 8, 501), by(0, 12, 499)], 500);
}

// Three gates raised, for 90 mills, and two more writes.
fn after_ninety(a: u8, b: u8) -> [Write; 5] {
    [
        by(0, 12, 501),
        by(0, 13, 501),
        by(0, 8, 501),
        by(0, a, 499),
        by(0, b, 499),
    ]
}

fn more_cents() {
    show(b"99 mills", &after_ninety(0, 4), 500);
    show(b"99 mills in another order", &after_ninety(7, 3), 500);
    show(b"100 mills", &after_ninety(14, 16), 500);
    show(
        b"9 mills each, for two cabinets",
        &[by(0, 0, 499), by(1, 1, 499), by(0, 4, 499), by(1, 5, 499)],
        500,
    );
}

// ---- where a move starts

// Gate 0 stands at 65535, and gate 1 at 1001.
fn from_levels() {
    text(b"gate 0 from 65535 to 65000, gate 1 from 1001 to 1101, key 30:");
    let c = decided_by(
        b"\x03\x00\x03\x00\x00\x01\x00\x00\x01\x01\x01\x00\x00\x01\x02\x00\x01\x00\xe8\xfd\x01\x01\x4d\x04\x01\x1e\x09\x00",
        &levels(),
        &samples::clocks::none(),
    );
    print_two(c, 0, 1);
    end();
}

fn in_turn() {
    show(
        b"gate 2 from 500 to 900, 700 by cabinet 1, 800",
        &[by(0, 2, 900), by(1, 2, 700), by(0, 2, 800)],
        500,
    );
    show(
        b"gate 2 from 500 to 510 and back",
        &[by(0, 2, 510), by(0, 2, 500)],
        500,
    );
    show(
        b"gate 2 from 500 to 510, back by cabinet 1, to 510 again",
        &[by(0, 2, 510), by(1, 2, 500), by(0, 2, 510)],
        500,
    );
    show(
        b"gates 2 and 9 from 500 to 600 and 550, gate 9 to 600 by cabinet 1",
        &[by(0, 2, 600), by(0, 9, 550), by(1, 9, 600)],
        500,
    );
}

// ---- the order

// The line of a log whose gates stand at 500: what cabinets 0 and 1 pay.
fn show_log(name: &[u8], log: &[u8]) {
    text(name);
    text(b":");
    print_two(decided(log, 500), 0, 1);
    end();
}

// Cabinet 0 writes 700 to gate 5, and cabinet 1 writes 800. Transaction 1 ended 980 seconds before 0 began: more than the drift, or not.
fn by_clock(name: &[u8], drift: u32) {
    let mut clock = Clock {
        count: 2,
        drift,
        ..samples::clocks::none()
    };
    clock.begin[..2].copy_from_slice(&[1000, 10]);
    clock.end[..2].copy_from_slice(&[1010, 20]);
    text(name);
    text(b":");
    let c = decided_by(
        b"\x02\x00\x02\x00\x00\x01\x00\x00\x01\x01\x01\x00\x01\x05\xbc\x02\x01\x05\x20\x03",
        &[500; 32],
        &clock,
    );
    print_two(c, 0, 1);
    end();
}

fn orders() {
    show(
        b"gate 5 to 700, 800 by cabinet 1",
        &[by(0, 5, 700), by(1, 5, 800)],
        500,
    );
    show_log(
        b"gate 5 to 700, 800 by cabinet 1, 0 reads it from 1",
        b"\x02\x00\x03\x00\x00\x02\x00\x00\x01\x01\x02\x00\x00\x05\x01\x00\x01\x05\xbc\x02\x01\x05\x20\x03",
    );
    by_clock(
        b"gate 5 to 700, 800 by cabinet 1, 1 before 0 by the clock",
        979,
    );
    by_clock(b"the same, the clock cannot tell", 980);
    show_log(
        b"gate 5 to 700, 800 by cabinet 1, 0 reads key 16 from 1, and reads back gate 5",
        b"\x02\x00\x05\x00\x00\x03\x00\x00\x01\x02\x03\x00\x00\x10\x01\x00\x01\x05\xbc\x02\x00\x05\x00\x00\x01\x05\x20\x03\x01\x10\x07\x00",
    );
    show_log(
        b"gate 5 to 700 by cabinet 1, cabinet 0 only reads it",
        b"\x02\x00\x02\x00\x00\x01\x00\x00\x01\x01\x01\x00\x00\x05\x01\x00\x01\x05\xbc\x02",
    );
}

// ---- the largest sums

// The log of 32 transactions of 8 writes: those of an even number raise gates 8 to 15 to the highest value, the others lower them to 0. Cabinet 0 has the even
// ones, and cabinet `second` the odd ones.
fn heavy(second: u8) -> Bytes {
    let mut out = Bytes::new();
    out.push_pair(32);
    out.push_pair(256);
    for t in 0..32u16 {
        out.push_entry(if t % 2 == 0 { 0 } else { second }, 8, 8 * t);
    }
    for m in 0..256u16 {
        let value = if m / 8 % 2 == 0 { 65535 } else { 0 };
        out.push_body(1, (8 + m % 8) as u8, value);
    }
    out
}

// The log of one transaction that writes a value to the sixteen gates.
fn all_gates(value: u16) -> Bytes {
    let mut out = Bytes::new();
    out.push_pair(1);
    out.push_pair(16);
    out.push_entry(0, 16, 0);
    for gate in 0..16u8 {
        out.push_body(1, gate, value);
    }
    out
}

fn largest() {
    text(b"all gates from 0 to 65535; from 65535 to 0:");
    print(bill_of(decided(all_gates(65535).as_slice(), 0), 0));
    text(b";");
    print(bill_of(decided(all_gates(0).as_slice(), 65535), 0));
    end();
    text(b"gates 8 to 15 up and down 16 times by cabinet 0:");
    print_two(decided(heavy(0).as_slice(), 0), 0, 1);
    end();
    text(b"the same, down by cabinet 1:");
    print_two(decided(heavy(1).as_slice(), 0), 0, 1);
    end();
}

pub(crate) fn show_all() {
    ranges();
    nothings();
    few_cents();
    more_cents();
    from_levels();
    in_turn();
    orders();
    largest();
}
