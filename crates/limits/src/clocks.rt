// The times: 37 and 38, each at its first and last place and behind every number before them; what a refusal leaves, and what Load stores.
// In the log of two transactions each writes key 0; the lists here hold one second throughout, but for what a line says.
use checker::{Answer, Case, Clock, Stage};
use refusals::number_of;
use samples::clocks::{load_by, loaded_by, none, with_count};
use samples::lines::{end, line, number, text, yes_no};
use samples::{first, full, load_number_at, with_byte};
use std::array;

// The log of two transactions.
const TWO: &[u8] =
    b"\x02\x00\x02\x00\x00\x01\x00\x00\x01\x01\x01\x00\x01\x00\x05\x00\x01\x00\x06\x00";

// The highest second.
const TOP: u32 = 4294967295;

// ---- lists of one second throughout

// What Load is asked beside the log: so many values of the starting table; so many begins, each at that second; so many ends, each at second 7; the drift.
// There are at most 33 of each.
#[derive(Clone, Copy)]
struct Asked {
    values: usize,
    begins: usize,
    begin: u32,
    ends: usize,
    drift: u32,
}

// Load of that.
fn load_asked(c: Case, log: &[u8], a: Asked) -> Answer {
    let table = [9u16; 33];
    let begin = [a.begin; 33];
    let end = [7u32; 33];
    c.load(
        log,
        first(&table, a.values),
        first(&begin, a.begins),
        first(&end, a.ends),
        a.drift,
    )
}

fn number_asked(c: Case, log: &[u8], a: Asked) -> u64 {
    u64::from(number_of(load_asked(c, log, a).reply))
}

// So many begins and ends, and a drift.
fn lists(begins: usize, ends: usize, drift: u32) -> Asked {
    Asked {
        values: 32,
        begins,
        begin: 7,
        ends,
        drift,
    }
}

// The same where each begin is a second after its end.
fn late(begins: usize, ends: usize, drift: u32) -> Asked {
    Asked {
        begin: 8,
        ..lists(begins, ends, drift)
    }
}

// The same beside 31 values.
fn short(begins: usize, ends: usize, drift: u32) -> Asked {
    Asked {
        values: 31,
        ..late(begins, ends, drift)
    }
}

// The number of a log with lists of so many entries.
fn entries(log: &[u8], begins: usize, ends: usize) -> u64 {
    number_asked(Case::fresh(), log, lists(begins, ends, 0))
}

// The line of a log of n transactions: both lists of one length.
fn show_even(name: &[u8], log: &[u8], n: usize) {
    text(name);
    text(b", both lists of 0, T, T + 1 and 33 entries:");
    for m in [0, n, n % 33 + 1, 33] {
        number(entries(log, m, m));
    }
    end();
}

// The same with lists of two lengths, of which one is empty or has T entries; n is not 0.
fn show_uneven(name: &[u8], log: &[u8], n: usize) {
    let less = n.saturating_sub(1);
    let more = n % 33 + 1;
    text(name);
    text(
        b", begins and ends: 0 and T; T and 0; T - 1 and T; T and T - 1; T + 1 and T; T and T + 1; both T - 1:",
    );
    for m in [0, less, more] {
        number(entries(log, m, n));
        number(entries(log, n, m));
    }
    number(entries(log, less, less));
    end();
}

// The line of the drifts of a log with lists of n entries.
fn show_drifts(name: &[u8], log: &[u8], n: usize) {
    text(name);
    text(b", drift 0, 1, 3600, 3601, 4294967295:");
    for drift in [0, 1, 3600, 3601, TOP] {
        number(number_asked(Case::fresh(), log, lists(n, n, drift)));
    }
    end();
}

// 37: lists of one length.
fn even() {
    show_even(b"T 0", b"\x00\x00\x00\x00", 0);
    show_even(b"T 1", b"\x01\x00\x00\x00\x00\x00\x00\x00", 1);
    show_even(b"T 2", TWO, 2);
    show_even(b"T 32", &full(), 32);
}

// Lists of two lengths.
fn uneven() {
    line(
        b"T 0, begins and ends: 0 and 1; 1 and 0:",
        &[
            entries(b"\x00\x00\x00\x00", 0, 1),
            entries(b"\x00\x00\x00\x00", 1, 0),
        ],
    );
    show_uneven(b"T 1", b"\x01\x00\x00\x00\x00\x00\x00\x00", 1);
    show_uneven(b"T 2", TWO, 2);
    show_uneven(b"T 32", &full(), 32);
}

// 38: the drift.
fn drifts() {
    show_drifts(b"T 0", b"\x00\x00\x00\x00", 0);
    show_drifts(b"T 2 without times", TWO, 0);
    show_drifts(b"T 2 with times", TWO, 2);
    show_drifts(b"T 32 with times", &full(), 32);
}

// ---- a begin after its end

// The number of the log of two transactions with these begins and ends.
fn spans(begin: [u32; 2], end: [u32; 2]) -> u64 {
    load_number_at(Case::fresh(), TWO, &[0; 32], &begin, &end, 0)
}

// The number of the full log where transaction t alone begins a second after its end, the drift being an hour.
fn late_at(t: usize) -> u64 {
    let mut begin = [7u32; 32];
    begin[t % 32] = 8;
    load_number_at(Case::fresh(), &full(), &[0; 32], &begin, &[7; 32], 3600)
}

fn turns() {
    line(
        b"begin equal to its end, at second 0, 4294967295:",
        &[spans([0, 0], [0, 0]), spans([TOP, TOP], [TOP, TOP])],
    );
    line(
        b"begin a second before its end, there:",
        &[spans([0, 0], [1, 1]), spans([TOP - 1, TOP - 1], [TOP, TOP])],
    );
    line(
        b"begin a second after its end, there:",
        &[spans([1, 1], [0, 0]), spans([TOP, TOP], [TOP - 1, TOP - 1])],
    );
    line(
        b"from second 0 to 4294967295; from 4294967295 to 0:",
        &[spans([0, 0], [TOP, TOP]), spans([TOP, TOP], [0, 0])],
    );
    line(
        b"begin after its end at transaction 0, 1 of 2:",
        &[spans([8, 7], [7, 7]), spans([7, 8], [7, 7])],
    );
    line(
        b"begin after its end, by less than the drift, at transaction 0, 31 of 32:",
        &[late_at(0), late_at(31)],
    );
}

// ---- several faults

// The line of a log that Load refuses: its number comes before 37 and 38, and 36 before it.
fn show_first(name: &[u8], log: &[u8]) {
    text(name);
    text(
        b", with lists of 1 and 2; a drift of 3601; begins after ends; all of it; all beside 31 values:",
    );
    let faults = [
        lists(1, 2, 0),
        lists(0, 0, 3601),
        late(32, 32, 0),
        late(1, 2, 3601),
        short(1, 2, 3601),
    ];
    for a in faults {
        number(number_asked(Case::fresh(), log, a));
    }
    end();
}

// The line of the full log with x at place i.
fn show_changed(name: &[u8], i: usize, x: u8) {
    show_first(name, &with_byte(full(), i, x));
}

// A log for each of its numbers.
fn refused_logs() {
    show_first(b"3 bytes", b"\x00\x00\x00");
    show_first(b"T 33", b"\x21\x00\x00\x00");
    show_first(b"a byte too few", b"\x01\x00\x00\x00\x00\x00\x00");
    show_first(b"a byte too many", b"\x00\x00\x00\x00\x00");
    show_changed(b"cabinet 16 at entry 31", 128, 16);
    show_changed(b"start one too high at entry 31", 130, 249);
    show_changed(b"last count 7", 129, 7);
    show_changed(b"kind 2 at body 255", 1152, 2);
    show_changed(b"key 32 at body 255", 1153, 32);
    show_changed(b"read of 255 at body 254", 1151, 0);
    show_changed(b"second read at body 255", 1152, 0);
    show_first(
        b"second write",
        b"\x01\x00\x02\x00\x00\x02\x00\x00\x01\x00\x05\x00\x01\x00\x05\x00",
    );
    show_first(
        b"read-back of the starting value",
        b"\x01\x00\x02\x00\x00\x02\x00\x00\x01\x00\x05\x00\x00\x00\xff\xff",
    );
}

// The number of the full log on a case.
fn of_full(c: Case, a: Asked) -> u64 {
    number_asked(c, &full(), a)
}

// 37 before 38, and 36 before both.
fn several() {
    show_first(b"the full log", &full());
    line(
        b"the full log, both lists of 33, begins after ends; with a drift of 3601 too:",
        &[
            of_full(Case::fresh(), late(33, 33, 0)),
            of_full(Case::fresh(), late(33, 33, 3601)),
        ],
    );
    line(
        b"the full log, a drift of 3601 and begins after ends:",
        &[of_full(Case::fresh(), late(32, 32, 3601))],
    );
    line(
        b"a loaded case, all of it beside 31 values:",
        &[of_full(held(), short(1, 2, 3601))],
    );
}

// ---- the case after it

// The times of 32 transactions, all different: from 100 to 200, from 101 to 201, and on, with a drift.
fn staggered(drift: u32) -> Clock {
    Clock {
        count: 32,
        begin: array::from_fn(|t| 100 + (t % 32) as u32),
        end: array::from_fn(|t| 200 + (t % 32) as u32),
        drift,
    }
}

// The full log with these times.
fn held() -> Case {
    loaded_by(&full(), &[0; 32], &staggered(5))
}

// A case put together outside that counts as fresh, and has times in it that Load would refuse.
fn used() -> Case {
    let mut clock = staggered(4000);
    clock.count = 40;
    clock.begin[31] = TOP;
    Case {
        stage: Stage::Fresh,
        bytes: full(),
        length: 1156,
        starting: [7; 32],
        clock,
        order: [3; 32],
    }
}

// The line of a load that must be refused: its number, and whether the case is as it was, the times in it too.
fn refused(name: &[u8], c: Case, a: Asked) {
    let answer = load_asked(c, &full(), a);
    text(name);
    number(number_of(answer.reply));
    text(b", the case as it was");
    yes_no(c == answer.case);
    end();
}

fn refusals() {
    refused(
        b"lists of 31 entries on a fresh case:",
        Case::fresh(),
        lists(31, 31, 1),
    );
    refused(
        b"the same on one with times in it:",
        used(),
        lists(31, 31, 1),
    );
    refused(b"the same on a loaded one:", held(), lists(31, 31, 1));
    refused(
        b"a drift of 3601 on a fresh case:",
        Case::fresh(),
        lists(32, 32, 3601),
    );
    refused(
        b"the same on one with times in it:",
        used(),
        lists(0, 0, 3601),
    );
    refused(
        b"begins after ends on a fresh case:",
        Case::fresh(),
        late(32, 32, 1),
    );
    refused(
        b"the same on one with times in it:",
        used(),
        late(32, 32, 1),
    );
    refused(b"good times on a loaded one:", held(), lists(32, 32, 1));
}

// The case with one of its times changed: the begin and the end of transaction t.
fn with_begin(c: Case, t: usize) -> Case {
    let mut out = c;
    out.clock.begin[t % 32] = 1;
    out
}

fn with_end(c: Case, t: usize) -> Case {
    let mut out = c;
    out.clock.end[t % 32] = 1;
    out
}

// A case with other times is another case, and clear leaves none.
fn compared() {
    let c = held();
    text(b"a case is the same with another begin of 0, 31; end of 0, 31; count; drift; as it is:");
    let others = [
        with_begin(c, 0),
        with_begin(c, 31),
        with_end(c, 0),
        with_end(c, 31),
        with_count(c, 31, 5),
        with_count(c, 32, 6),
        with_count(c, 32, 5),
    ];
    for other in others {
        yes_no(c == other);
    }
    end();
    text(b"after clear it is fresh, loaded with times; fresh with times in it:");
    yes_no(c.clear() == Case::fresh());
    yes_no(used().clear() == Case::fresh());
    end();
}

// ---- what is stored

// Whether a load of the full log with the first times of a clock, which has zeros behind them, is taken and stores exactly that, and nothing of what the case
// had before.
fn stores(c: Case, clock: Clock) -> bool {
    let log = full();
    let a = load_by(c, &log, &[0; 32], &clock);
    a.reply.is_ok() && a.case.clock == clock && a.case == loaded_by(&log, &[0; 32], &clock)
}

// No times, with a drift.
fn drift_alone(drift: u32) -> Clock {
    Clock { drift, ..none() }
}

// All at one second.
fn at_once(second: u32, drift: u32) -> Clock {
    Clock {
        count: 32,
        begin: [second; 32],
        end: [second; 32],
        drift,
    }
}

fn show_stored(name: &[u8], c: Case) {
    text(name);
    let clocks = [
        none(),
        drift_alone(3600),
        at_once(0, 0),
        at_once(TOP, 3600),
        staggered(77),
    ];
    for clock in clocks {
        yes_no(stores(c, clock));
    }
    end();
}

pub fn show_all() {
    even();
    uneven();
    drifts();
    turns();
    refused_logs();
    several();
    refusals();
    compared();
    show_stored(
        b"a fresh case stores what it took, no times; a drift alone; all at 0; all at 4294967295; 64 different seconds:",
        Case::fresh(),
    );
    show_stored(b"the same of one with times in it:", used());
}
