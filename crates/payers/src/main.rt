// The second bill for cabinets over 15, which no log that Load takes has: `charged` takes any number, `of_cabinet` its rest by 16. Worked out by hand.
#![tactic(auto)]

use ledger::{Account, charged, of_all, of_cabinet};

// Two transactions: cabinet 20 raises gate 0 by 5 centimetres, cabinet 4 gate 1 by 3, at 12 mills each.
const LOG: [u8; 20] = [2, 0, 2, 0, 20, 1, 0, 0, 4, 1, 1, 0, 1, 0, 5, 0, 1, 1, 3, 0];

// The line of an account. No travel here is below 0.
fn show(payer: &[u8], a: Account) {
    io::write_all(1, payer);
    io::write_all(1, b" mills ");
    io::print_decimal(1, a.mills);
    io::write_all(1, b", cents ");
    io::print_decimal(1, a.cents);
    io::write_all(1, b", travel ");
    io::print_decimal(1, a.travel.unsigned_abs());
    io::write_all(1, b"\n");
}

fn main() {
    let starting = [0u16; 32];
    let mut order = [0u8; 32];
    order[1] = 1;
    for cabinet in [20, 4, 36] {
        show(b"charged:", charged(&LOG, &starting, &order, Some(cabinet)));
        show(
            b"by its rest:",
            of_cabinet(&LOG, &starting, &order, cabinet),
        );
    }
    show(b"charged, all:", charged(&LOG, &starting, &order, None));
    show(b"all:", of_all(&LOG, &starting, &order));
}
