// The bills of a case as the call gives them, one by one, and in lines of output: mills, cents, travel.
use checker::{Bill, Case, Clock};
use samples::clocks::{loaded_by, none};
use samples::lines::{number, text};

// What stood in the lent places: no call gives this.
pub(crate) fn mark() -> Bill {
    Bill {
        mills: 4000000001,
        cents: 77,
        travel: -77,
    }
}

// The case of a window after Decide.
pub(crate) fn decided_by(log: &[u8], starting: &[u16], clock: &Clock) -> Case {
    lender::decide(loaded_by(log, starting, clock), 2, 1).case
}

// The same without times, with every key at one value.
pub(crate) fn decided(log: &[u8], start: u16) -> Case {
    decided_by(log, &[start; 32], &none())
}

// A cabinet's bill.
pub(crate) fn bill_of(c: Case, cabinet: usize) -> Bill {
    lists::bills(c, 16, mark()).list[cabinet % 16]
}

// Whether two bills are the same: `wear`, whose type it is, derives no comparison.
pub(crate) fn same(a: Bill, b: Bill) -> bool {
    a.mills == b.mills && a.cents == b.cents && a.travel == b.travel
}

// Whether a bill is all zeros.
fn is_nothing(b: Bill) -> bool {
    b.mills == 0 && b.cents == 0 && b.travel == 0
}

// Whether all cabinets but two pay nothing.
fn others_free(c: Case, one: usize, two: usize) -> bool {
    let list = lists::bills(c, 16, mark()).list;
    list[..16]
        .iter()
        .enumerate()
        .all(|(i, b)| i == one || i == two || is_nothing(*b))
}

// ---- lines

// A space and a signed number.
fn signed(x: i32) {
    text(if x < 0 { b" -" } else { b" " });
    io::print_decimal(1, u64::from(x.unsigned_abs()));
}

// A bill.
pub(crate) fn print(b: Bill) {
    number(b.mills);
    number(b.cents);
    signed(b.travel);
}

// The bills of two cabinets, and whether the others pay nothing.
pub(crate) fn print_two(c: Case, one: usize, two: usize) {
    print(bill_of(c, one));
    text(b",");
    print(bill_of(c, two));
    if !others_free(c, one, two) {
        text(b", and others pay");
    }
}
