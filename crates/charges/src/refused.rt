// The numbers with which Bills refuses, in each state and with lists of each length; that it writes nothing then, and never behind the sixteenth place; and
// that the case after the call is the case before it.
use crate::bills::{decided, mark, print_two, same};
use crate::writes::{by, log_of};
use checker::{Bill, Case, Stage};
use lists::Billed;
use refusals::number_of;
use samples::lines::{end, number, text, yes_no};
use samples::loaded;

// ---- the calls

// Bills with so many places.
fn billed(c: Case, places: usize) -> Billed {
    lists::bills(c, places % 21, mark())
}

// Whether the places from one on hold what they held.
pub(crate) fn marked_from(list: &[Bill; 20], first: usize) -> bool {
    list.iter().skip(first).all(|b| same(*b, mark()))
}

// Whether the call wrote sixteen places and none behind them or, beside a refusal, none.
fn writes_well(c: Case, places: usize) -> bool {
    let b = billed(c, places);
    if b.answer.reply.is_err() {
        return marked_from(&b.list, 0);
    }
    b.list[..16].iter().all(|b| !same(*b, mark())) && marked_from(&b.list, 16)
}

// Whether the case comes back as it was.
fn keeps(c: Case, places: usize) -> bool {
    billed(c, places).answer.case == c
}

// Whether the call gives the same number and list again, of the case that it gave back.
fn repeats(c: Case, places: usize) -> bool {
    let b = billed(c, places);
    let again = billed(b.answer.case, places);
    b.answer.reply == again.answer.reply
        && b.list.iter().zip(&again.list).all(|(x, y)| same(*x, *y))
}

// Whether all that holds with so many places.
fn is_good(c: Case, places: usize) -> bool {
    writes_well(c, places) && keeps(c, places) && repeats(c, places)
}

// ---- the lines

fn show(name: &[u8], c: Case) {
    text(name);
    text(b", 0, 1, 15, 16, 17 and 20 places:");
    for places in [0, 1, 15, 16, 17, 20] {
        number(number_of(billed(c, places).answer.reply));
    }
    text(b", written and kept as it must be");
    yes_no(is_good(c, 0) && is_good(c, 1) && is_good(c, 15));
    yes_no(is_good(c, 16) && is_good(c, 17) && is_good(c, 20));
    end();
}

// Cabinet 0 writes 700 to gate 5, then cabinet 1 writes 800.
fn ordered() -> Case {
    decided(log_of(&[by(0, 5, 700), by(1, 5, 800)]).as_slice(), 500)
}

// That case with another stage, length and order: two numbers and zeros.
fn made(stage: Stage, length: usize, first: u8, second: u8) -> Case {
    let mut order = [0u8; 32];
    order[..2].copy_from_slice(&[first, second]);
    Case {
        stage,
        length,
        order,
        ..ordered()
    }
}

// Two transactions that each read what the other wrote.
fn without_order() -> Case {
    decided(
        b"\x02\x00\x04\x00\x00\x02\x00\x00\x01\x02\x02\x00\x00\x00\x01\x00\x01\x01\x05\x00\x00\x01\x00\x00\x01\x00\x07\x00",
        500,
    )
}

pub(crate) fn show_all() {
    show(b"a fresh case", Case::fresh());
    show(b"a loaded case", loaded(b"\x00\x00\x00\x00"));
    show(b"the same, decided", decided(b"\x00\x00\x00\x00", 7));
    show(b"two writes, loaded", made(Stage::Loaded, 20, 0, 1));
    show(b"the same, decided", ordered());
    show(b"the same, cleared", ordered().clear());
    show(b"no order", without_order());
    show(b"it says 'no order'", made(Stage::NoOrder, 20, 0, 1));
    show(b"it says fresh", made(Stage::Fresh, 20, 0, 1));
    show(
        b"it says 'order', and has 0 0",
        made(Stage::Ordered, 20, 0, 0),
    );
    show(
        b"it says 'order', and has 1 2",
        made(Stage::Ordered, 20, 1, 2),
    );
    show(
        b"it says 'order', a byte too few",
        made(Stage::Ordered, 19, 0, 1),
    );
    show(
        b"it says 'order', and has 1 0",
        made(Stage::Ordered, 20, 1, 0),
    );
    text(b"the bills of the last one:");
    print_two(made(Stage::Ordered, 20, 1, 0), 0, 1);
    end();
}
