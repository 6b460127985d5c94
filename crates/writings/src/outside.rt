// Notes put together outside the calls: what each call says of them.
use crate::notes::{Call, call_line, write_line};
use crate::numbers::full_notes;
use samples::lines::{end, text};
use writer::Notes;

// The full notes with other claims.
fn made(open: bool, transactions: usize, count: u16) -> Notes {
    let mut n = full_notes();
    n.opened = open;
    n.transactions = transactions;
    n.counts[0] = count;
    n
}

// What each call says.
fn calls(n: Notes) {
    call_line(b"  open", n, Call::Open(3));
    call_line(b"  read", n, Call::Read(3, 65535));
    call_line(b"  write", n, Call::Write(3, 7));
    call_line(b"  close", n, Call::Close);
    write_line(b"  writing", n, 1160);
    write_line(b"  writing", n, 3);
}

fn about(name: &[u8], n: Notes) {
    text(name);
    end();
    calls(n);
}

pub fn show() {
    about(b"open, and no transaction:", made(true, 0, 8));
    about(b"33 transactions:", made(false, 33, 8));
    about(b"33 transactions, one open:", made(true, 33, 8));
    about(
        b"more transactions than any:",
        made(false, 18446744073709551615, 8),
    );
    about(
        b"more transactions than any, one open:",
        made(true, 18446744073709551615, 8),
    );
    about(b"257 operations:", made(false, 32, 9));
    about(b"257 operations, one open:", made(true, 32, 9));
    about(b"a count of 65535:", made(false, 32, 65535));
    about(b"a count of 65535, one open:", made(true, 1, 65535));
    about(b"a count of 256 alone:", made(false, 1, 256));
    about(b"one operation short, all moved up:", made(false, 32, 7));
}
