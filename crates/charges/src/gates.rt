// Each of the sixteen gates in each direction: it stands at 500, one cabinet raises it by 100, then the next cabinet lowers it by 60.
use crate::bills::{decided, print_two};
use samples::lines::{end, number, text};

// The log: the second transaction reads what the first wrote, so that they stand in this order.
fn log_of(gate: u8, first: u8, second: u8) -> [u8; 24] {
    [
        2, 0, 3, 0, first, 1, 0, 0, second, 2, 1, 0, 1, gate, 88, 2, 0, gate, 0, 0, 1, gate, 28, 2,
    ]
}

fn show(gate: u8) {
    let next = (gate % 16 + 1) % 16;
    let log = log_of(gate, gate, next);
    text(b"gate");
    number(gate);
    text(b" from 500 to 600 by cabinet");
    number(gate);
    text(b", to 540 by cabinet");
    number(next);
    text(b":");
    print_two(decided(&log, 500), usize::from(gate), usize::from(next));
    end();
}

pub(crate) fn show_all() {
    for gate in 0..16u8 {
        show(gate);
    }
}
