// The starting table: 36 at each length that isn't 32, before every number of the log and behind 21; that a refusal leaves the table in the case; and what
// Load stores.
use checker::{Case, Stage};
use refusals::number_of;
use samples::clocks::none;
use samples::lines::{end, number, text, yes_no};
use samples::tables::levels;
use samples::{first, full, load_from, load_number_from, loaded_from, with_byte};

// ---- the number

// The number of Load beside n nines, of which there are at most 33.
fn beside(c: Case, log: &[u8], n: usize) -> u64 {
    load_number_from(c, log, first(&[9u16; 33], n))
}

// The line of a log on a case.
fn show_on(c: Case, name: &[u8], log: &[u8]) {
    text(name);
    text(b", beside 0, 31, 33 and 32 values:");
    for n in [0, 31, 33, 32] {
        number(beside(c, log, n));
    }
    end();
}

fn show(name: &[u8], log: &[u8]) {
    show_on(Case::fresh(), name, log);
}

// The line of the full log with x at place i.
fn show_changed(name: &[u8], i: usize, x: u8) {
    show(name, &with_byte(full(), i, x));
}

// Logs that Load takes, and one for each number of the header and the length.
fn headers() {
    let log = full();
    show(b"the full log", &log);
    show(b"T 0, N 0", b"\x00\x00\x00\x00");
    show(b"no byte", b"");
    show(b"3 bytes", b"\x00\x00\x00");
    show(b"T 33", b"\x21\x00\x00\x00");
    show(b"N 257", b"\x00\x00\x01\x01");
    show(b"a byte too few", b"\x01\x00\x00\x00\x00\x00\x00");
    show(b"a byte too many", b"\x00\x00\x00\x00\x00");
}

// One for each number of the entries and the bodies.
fn contents() {
    show_changed(b"cabinet 16 at entry 31", 128, 16);
    show_changed(b"start one too high at entry 31", 130, 249);
    show_changed(b"last count 7", 129, 7);
    show_changed(b"kind 2 at body 0", 132, 2);
    show_changed(b"key 32 at body 255", 1153, 32);
    show_changed(b"read of 255 at body 0", 135, 0);
    show_changed(b"second read at body 255", 1152, 0);
    show(
        b"second write",
        b"\x01\x00\x02\x00\x00\x02\x00\x00\x01\x00\x05\x00\x01\x00\x05\x00",
    );
    show(
        b"read-back of the starting value",
        b"\x01\x00\x02\x00\x00\x02\x00\x00\x01\x00\x05\x00\x00\x00\xff\xff",
    );
}

// ---- the case after it

// A case put together outside that counts as fresh, and has a log, a table of sevens and an order in it.
fn used() -> Case {
    Case {
        stage: Stage::Fresh,
        bytes: full(),
        length: 1156,
        starting: [7; 32],
        clock: none(),
        order: [3; 32],
    }
}

// The full log beside levels that are not zeros.
fn held() -> Case {
    loaded_from(&full(), &levels())
}

// The case with another level of a key.
fn with_level(c: Case, key: usize, x: u16) -> Case {
    let mut out = c;
    out.starting[key % 32] = x;
    out
}

// The line of a load that must be refused: its number, and whether the case is as it was, the table in it too.
fn refused(name: &[u8], c: Case, log: &[u8], values: &[u16]) {
    let a = load_from(c, log, values);
    text(name);
    number(number_of(a.reply));
    text(b", the case as it was");
    yes_no(c == a.case);
    end();
}

// 3 bytes beside 32 levels.
fn refuse_bytes(name: &[u8], c: Case) {
    refused(name, c, b"\x00\x00\x00", &levels());
}

fn refusals() {
    let log = full();
    show_on(held(), b"a loaded case, the full log", &log);
    show_on(held(), b"a loaded case, 3 bytes", b"\x00\x00\x00");
    refused(
        b"0 values on a fresh case with sevens in it:",
        used(),
        &log,
        &[9; 0],
    );
    refused(b"31 values on it:", used(), &log, &[9; 31]);
    refused(b"33 values on it:", used(), &log, &[9; 33]);
    refused(b"33 values on a fresh case:", Case::fresh(), &log, &[9; 33]);
    refused(b"33 values on a loaded one:", held(), &log, &[9; 33]);
    refuse_bytes(b"3 bytes beside 32 levels on a fresh case:", Case::fresh());
    refuse_bytes(b"the same on one with sevens in it:", used());
}

// A case with another table is another case, and clear leaves none.
fn compared() {
    text(b"a case is the same with another level of key 0; of key 31:");
    yes_no(held() == with_level(held(), 0, 1));
    yes_no(held() == with_level(held(), 31, 1));
    end();
    text(b"after clear it is fresh, loaded beside levels; fresh with sevens in it:");
    yes_no(held().clear() == Case::fresh());
    yes_no(used().clear() == Case::fresh());
    end();
}

// ---- what is stored

// Whether a load of the full log beside the values is taken and stores exactly them, and nothing of what the case had before.
fn stores(c: Case, values: [u16; 32]) -> bool {
    let log = full();
    let a = load_from(c, &log, &values);
    a.reply.is_ok() && a.case.starting == values && a.case == loaded_from(&log, &values)
}

fn show_stored(name: &[u8], c: Case) {
    text(name);
    for values in [[0; 32], [65535; 32], levels()] {
        yes_no(stores(c, values));
    }
    end();
}

pub fn show_all() {
    headers();
    contents();
    refusals();
    compared();
    show_stored(
        b"a fresh case stores what it took, all 0; all 65535; 32 different levels:",
        Case::fresh(),
    );
    show_stored(b"the same of one with sevens in it:", used());
}
