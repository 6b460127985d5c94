// Cases put together outside the calls with times of each kind. Those of the first two entries, where there are two, are from second 5 to 9 and from 10 to
// 12, so that by the clock 0 ended before 1 began, where the drift is 0; a case counts as what it says only where Load would take its times.
use crate::{made, show};
use checker::{Case, Clock, Stage};
use samples::lines::{end, text, yes_no};

// So many entries, and a drift. Behind the first two stand other seconds, and from place 4 on each begin is after its end.
fn clock_of(count: usize, drift: u32) -> Clock {
    let mut out = Clock {
        count,
        begin: [4294967295; 32],
        end: [0; 32],
        drift,
    };
    out.begin[..4].copy_from_slice(&[5, 10, 3, 0]);
    out.end[..4].copy_from_slice(&[9, 12, 3, 4294967295]);
    out
}

// The case with times.
fn with_clock(c: Case, clock: Clock) -> Case {
    Case { clock, ..c }
}

// A case that says a stage, with so many entries and a drift. Its order is 1 0.
fn timed(stage: Stage, count: usize, drift: u32) -> Case {
    with_clock(made(stage, 24, 1, 0, 0), clock_of(count, drift))
}

// The same of two entries, where transaction t is from one second to another.
fn spanned(stage: Stage, t: usize, begin: u32, last: u32) -> Case {
    let mut clock = clock_of(2, 0);
    clock.begin[t % 32] = begin;
    clock.end[t % 32] = last;
    with_clock(made(stage, 24, 1, 0, 0), clock)
}

// Counts that are neither 0 nor T.
fn counts() {
    show(b"says loaded, 1 entry:", timed(Stage::Loaded, 1, 0));
    show(b"says loaded, 3 entries:", timed(Stage::Loaded, 3, 0));
    show(b"says loaded, 32 entries:", timed(Stage::Loaded, 32, 0));
    show(b"says loaded, 33 entries:", timed(Stage::Loaded, 33, 0));
    show(
        b"says loaded, the highest count:",
        timed(Stage::Loaded, 18446744073709551615, 0),
    );
    show(b"says ordered, 1 entry:", timed(Stage::Ordered, 1, 0));
    show(b"says ordered, 33 entries:", timed(Stage::Ordered, 33, 0));
    show(b"says no order, 3 entries:", timed(Stage::NoOrder, 3, 0));
    show(b"says no order, 33 entries:", timed(Stage::NoOrder, 33, 0));
}

// Begins after their ends, among the entries.
fn turns() {
    show(
        b"says loaded, begin after end at 0:",
        spanned(Stage::Loaded, 0, 10, 9),
    );
    show(
        b"says loaded, begin after end at 1:",
        spanned(Stage::Loaded, 1, 4294967295, 0),
    );
    show(
        b"says ordered, begin after end at 1:",
        spanned(Stage::Ordered, 1, 13, 12),
    );
    show(
        b"says no order, begin after end at 0:",
        spanned(Stage::NoOrder, 0, 10, 9),
    );
}

// Drifts.
fn drifts() {
    show(b"says loaded, drift 3601:", timed(Stage::Loaded, 2, 3601));
    show(
        b"says loaded, no entry, drift 3601:",
        timed(Stage::Loaded, 0, 3601),
    );
    show(
        b"says loaded, drift 4294967295:",
        timed(Stage::Loaded, 2, 4294967295),
    );
    show(b"says ordered, drift 3601:", timed(Stage::Ordered, 2, 3601));
    show(
        b"says no order, no entry, drift 3601:",
        timed(Stage::NoOrder, 0, 3601),
    );
    show(b"says fresh, 2 entries:", timed(Stage::Fresh, 2, 0));
}

// What Load would take: also with begins after their ends behind the entries. Check of 1 0 goes by the clock, Order and Table by the order that stands there.
fn taken() {
    show(
        b"says loaded, 2 entries, begins after ends behind them:",
        timed(Stage::Loaded, 2, 0),
    );
    show(
        b"says loaded, no entry, begins after ends behind it:",
        timed(Stage::Loaded, 0, 0),
    );
    show(
        b"says loaded, 2 entries, drift 1:",
        timed(Stage::Loaded, 2, 1),
    );
    show(
        b"says loaded, 2 entries, drift 3600:",
        timed(Stage::Loaded, 2, 3600),
    );
    show(
        b"says loaded, no entry, drift 3600:",
        timed(Stage::Loaded, 0, 3600),
    );
    show(
        b"says loaded, begin equal to end:",
        spanned(Stage::Loaded, 0, 9, 9),
    );
    show(
        b"says ordered 1 0, not by the clock:",
        timed(Stage::Ordered, 2, 0),
    );
    show(b"says ordered 1 0, drift 1:", timed(Stage::Ordered, 2, 1));
    show(b"says no order, 2 entries:", timed(Stage::NoOrder, 2, 0));
}

// Whether clear gives the fresh case, which has no times.
fn cleared(c: Case) {
    yes_no(c.clear() == Case::fresh());
}

pub(crate) fn show_all() {
    counts();
    turns();
    drifts();
    taken();
    text(
        b"clear gives the fresh case, of 2 entries; 33; a begin after its end; drift 3601; fresh with entries:",
    );
    cleared(timed(Stage::Loaded, 2, 1));
    cleared(timed(Stage::Ordered, 33, 0));
    cleared(spanned(Stage::NoOrder, 1, 13, 12));
    cleared(timed(Stage::Loaded, 0, 3601));
    cleared(timed(Stage::Fresh, 2, 3600));
    end();
}
