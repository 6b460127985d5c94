// Cases put together outside the calls, of each odd kind: what Load of a good log, Check, Order and Table say of each. 100 stands for a legal order.
// The log is document 01's example, whose order is 1 0. The cases start from levels that are not zeros; then from tables of other kinds, which change how
// none of them counts. They have no times; the module `times` has those that do.
#![tactic(auto)]

use checker::{Case, Stage};
use refusals::{Refusal, number_of};
use samples::clocks::none;
use samples::lines::{end, number, numbers, text, yes_no};
use samples::tables::{drawn, levels};
use samples::{check_number, load_number, loaded, with_byte};

mod times;

// The case that holds the example.
fn example() -> Case {
    loaded(
        b"\x02\x00\x03\x00\x00\x02\x00\x00\x01\x01\x02\x00\x00\x00\x01\x00\x01\x01\x07\x00\x01\x00\x05\x00",
    )
}

// The example's case from levels, with another stage and its bytes changed.
fn changed(stage: Stage, bytes: [u8; 1156], length: usize) -> Case {
    Case {
        stage,
        bytes,
        length,
        starting: levels(),
        clock: none(),
        order: [0; 32],
    }
}

// The example's case with another stage, length and order: two numbers and the rest.
pub(crate) fn made(stage: Stage, length: usize, first: u8, second: u8, rest: u8) -> Case {
    let mut order = [rest; 32];
    order[0] = first;
    order[1] = second;
    Case {
        order,
        ..changed(stage, example().bytes, length)
    }
}

// The same with another byte at a place.
fn damaged(stage: Stage, i: usize, x: u8) -> Case {
    changed(stage, with_byte(example().bytes, i, x), 24)
}

// The case of one transaction that writes key 0 twice.
fn twice(stage: Stage) -> Case {
    let mut bytes = example().bytes;
    bytes[0] = 1;
    bytes[2] = 2;
    bytes[8..10].copy_from_slice(&[1, 0]);
    bytes[12..14].copy_from_slice(&[1, 0]);
    changed(stage, bytes, 16)
}

// The number of Order with two places, and whether the case and the places are as they were.
fn order_line(c: Case) {
    let mut out = [9u8; 2];
    let a = c.order(&mut out);
    number(number_of(a.reply));
    numbers(&out);
    yes_no(c == a.case);
}

// The number of Table with 32 places, and the values of keys 0 and 1.
fn table_line(c: Case) {
    let mut out = [9u16; 32];
    let a = c.table(&mut out);
    number(number_of(a.reply));
    numbers(&out[..2]);
    yes_no(c == a.case);
}

// A line of a case: load; check of 1 0; order, its two places, case as it was; table, its first two values, case as it was.
pub(crate) fn show(name: &[u8], c: Case) {
    text(name);
    number(load_number(c, b"\x00\x00\x00\x00"));
    number(check_number(c, b"\x01\x00"));
    order_line(c);
    table_line(c);
    end();
}

fn fresh_ones() {
    show(b"says fresh, holds a log:", made(Stage::Fresh, 24, 1, 0, 0));
    show(b"says loaded, a kind of 2:", damaged(Stage::Loaded, 12, 2));
    show(
        b"says loaded, N one too high:",
        damaged(Stage::Loaded, 2, 4),
    );
    show(b"says loaded, N one too low:", damaged(Stage::Loaded, 2, 2));
    show(b"says loaded, length 0:", made(Stage::Loaded, 0, 1, 0, 0));
    show(b"says loaded, length 23:", made(Stage::Loaded, 23, 1, 0, 0));
    show(b"says loaded, length 25:", made(Stage::Loaded, 25, 1, 0, 0));
    show(b"says loaded, a second write:", twice(Stage::Loaded));
    show(b"says ordered, a second write:", twice(Stage::Ordered));
    show(
        b"says loaded, length 1157:",
        made(Stage::Loaded, 1157, 1, 0, 0),
    );
    show(
        b"says ordered, the highest length:",
        made(Stage::Ordered, 18446744073709551615, 1, 0, 0),
    );
    show(
        b"says ordered, a kind of 2:",
        damaged(Stage::Ordered, 12, 2),
    );
    show(
        b"says no order, a kind of 2:",
        damaged(Stage::NoOrder, 12, 2),
    );
}

fn loaded_ones() {
    show(b"says loaded:", made(Stage::Loaded, 24, 1, 0, 0));
    show(b"says ordered 0 0:", made(Stage::Ordered, 24, 0, 0, 0));
    show(b"says ordered 1 1:", made(Stage::Ordered, 24, 1, 1, 0));
    show(b"says ordered 2 0:", made(Stage::Ordered, 24, 2, 0, 1));
    show(
        b"says ordered 255 255:",
        made(Stage::Ordered, 24, 255, 255, 255),
    );
}

fn decided_ones() {
    show(b"says ordered 1 0:", made(Stage::Ordered, 24, 1, 0, 0));
    show(
        b"says ordered 1 0, 255 behind:",
        made(Stage::Ordered, 24, 1, 0, 255),
    );
    show(
        b"says ordered 0 1, not legal:",
        made(Stage::Ordered, 24, 0, 1, 0),
    );
    show(b"says no order:", made(Stage::NoOrder, 24, 1, 0, 0));
}

// Lists too short and longer than needed: 25, and the further place as it was.
fn lists() {
    let c = made(Stage::Ordered, 24, 1, 0, 0);
    text(b"order, 1 place; 3 places:");
    let mut short = [9u8; 1];
    number(number_of(c.order(&mut short).reply));
    numbers(&short);
    let mut long = [9u8; 3];
    number(number_of(c.order(&mut long).reply));
    numbers(&long);
    end();
}

fn tables() {
    let c = made(Stage::Ordered, 24, 1, 0, 0);
    text(b"table, 31 places; 33 places:");
    let mut short = [9u16; 31];
    number(number_of(c.table(&mut short).reply));
    number(short[30]);
    let mut long = [9u16; 33];
    number(number_of(c.table(&mut long).reply));
    numbers(&[long[0], long[31], long[32]]);
    end();
}

// ---- starting tables

fn with_table(c: Case, starting: [u16; 32]) -> Case {
    Case { starting, ..c }
}

// What a case counts as: 0 fresh, 1 loaded, 2 ordered, 3 no order.
fn counts_as(c: Case) -> u64 {
    if load_number(c, b"\x00\x00\x00\x00") == 0 {
        return 0;
    }
    let mut out = [9u8; 2];
    match c.order(&mut out).reply {
        Ok(()) => 2,
        Err(Refusal::DecidedWithoutOrder) => 3,
        Err(_) => 1,
    }
}

// What each kind counts as beside a table: four that count as fresh; two that count as loaded, two as ordered, and one with no order.
fn show_counts(name: &[u8], starting: [u16; 32]) {
    text(b"what each kind counts as, from ");
    text(name);
    let kinds = [
        made(Stage::Fresh, 24, 1, 0, 0),
        damaged(Stage::Loaded, 12, 2),
        made(Stage::NoOrder, 1157, 1, 0, 0),
        twice(Stage::Ordered),
        made(Stage::Loaded, 24, 1, 0, 0),
        made(Stage::Ordered, 24, 0, 0, 0),
        made(Stage::Ordered, 24, 1, 0, 255),
        made(Stage::Ordered, 24, 0, 1, 0),
        made(Stage::NoOrder, 24, 1, 0, 0),
    ];
    for c in kinds {
        number(counts_as(with_table(c, starting)));
    }
    end();
}

fn counts() {
    show_counts(b"zeros:", [0; 32]);
    show_counts(b"65535 everywhere:", [65535; 32]);
    show_counts(b"levels:", levels());
    show_counts(b"a random table:", drawn(5));
}

// A case that says that a log has an order.
fn ordered(log: &[u8], first: u8, second: u8) -> Case {
    let mut out = loaded(log);
    out.stage = Stage::Ordered;
    out.order[0] = first;
    out.order[1] = second;
    out
}

// Whether keys 2 to 30, which no log here writes, have their levels.
fn kept(table: &[u16; 32], starting: &[u16; 32]) -> bool {
    table[2..31] == starting[2..31]
}

// The line of Table from a starting table: its number, the values of keys 0, 1 and 31, whether the others have their levels, and the case as it was.
fn show_table(name: &[u8], from: &[u8], c: Case, starting: [u16; 32]) {
    let held = with_table(c, starting);
    let mut out = [9u16; 32];
    let a = held.table(&mut out);
    text(name);
    text(from);
    number(number_of(a.reply));
    numbers(&[out[0], out[1], out[31]]);
    yes_no(kept(&out, &starting));
    yes_no(held == a.case);
    end();
}

fn show_tables(name: &[u8], c: Case) {
    show_table(name, b", from zeros:", c, [0; 32]);
    show_table(name, b", from 65535 everywhere:", c, [65535; 32]);
    show_table(name, b", from levels:", c, levels());
}

// The example; two writers of key 0, in both orders; a transaction that writes the lowest value over the highest level and the other way round.
fn started() {
    show_tables(b"says ordered 1 0", made(Stage::Ordered, 24, 1, 0, 0));
    let two = b"\x02\x00\x02\x00\x00\x01\x00\x00\x01\x01\x01\x00\x01\x00\x05\x00\x01\x00\x06\x00";
    show_tables(b"key 0 written 5, then 6", ordered(two, 0, 1));
    show_tables(b"key 0 written 6, then 5", ordered(two, 1, 0));
    let ends = b"\x01\x00\x02\x00\x00\x02\x00\x00\x01\x00\x00\x00\x01\x1f\xff\xff";
    show_tables(b"key 0 written 0, key 31 65535", ordered(ends, 0, 0));
}

fn main() {
    fresh_ones();
    loaded_ones();
    decided_ones();
    lists();
    tables();
    counts();
    started();
    text(b"clear gives the fresh case of each kind:");
    yes_no(damaged(Stage::Ordered, 12, 2).clear() == Case::fresh());
    yes_no(made(Stage::NoOrder, 1157, 1, 2, 3).clear() == Case::fresh());
    end();
    times::show_all();
}
