// The numbers of Load, Check and the state, each provoked at its first and last possible place, and what stands at the limits taken.
// In the full log the entries begin at byte 4, the last at 128; the bodies begin at byte 132, the last at 1152.
#![tactic(auto)]

use checker::Case;
use samples::lines::{end, line, text, yes_no};
use samples::{
    after_check, ascending, changed_number, check_number, first, full, load_from, load_number,
    loaded, with_byte,
};

mod backs;
mod clocks;
mod spans;
mod tables;

// The longest log's header with a byte more than it says: 1,157 bytes.
fn longest_and_one() -> u64 {
    let mut log = [0u8; 1157];
    log[0] = 32;
    log[3] = 1;
    load_number(Case::fresh(), &log)
}

// 1, 2, 3 and 35: the header and the length.
fn header() {
    let log = full();
    line(
        b"T 32, N 256, cabinet 15, key 31: load",
        &[load_number(Case::fresh(), &log)],
    );
    line(
        b"0 and 3 bytes:",
        &[
            load_number(Case::fresh(), b""),
            load_number(Case::fresh(), b"\x00\x00\x00"),
        ],
    );
    line(
        b"T 33, T 65535:",
        &[
            load_number(Case::fresh(), b"\x21\x00\x00\x00"),
            load_number(Case::fresh(), b"\xff\xff\x00\x00"),
        ],
    );
    line(
        b"N 257, N 65535:",
        &[
            load_number(Case::fresh(), b"\x00\x00\x01\x01"),
            load_number(Case::fresh(), b"\x00\x00\xff\xff"),
        ],
    );
    line(
        b"a byte too few, one too many:",
        &[
            load_number(Case::fresh(), first(&log, 1155)),
            load_number(Case::fresh(), b"\x00\x00\x00\x00\x00"),
        ],
    );
    line(
        b"a body too few, one too many:",
        &[
            load_number(Case::fresh(), first(&log, 1152)),
            changed_number(2, 255, 3, 0),
        ],
    );
    line(
        b"the header alone, an entry too many:",
        &[
            load_number(Case::fresh(), first(&log, 4)),
            changed_number(0, 31, 0, 31),
        ],
    );
    line(
        b"T 32 and N 256 in 5 bytes, in 1157:",
        &[
            load_number(Case::fresh(), first(&log, 5)),
            longest_and_one(),
        ],
    );
    line(
        b"T 0, N 0: load",
        &[load_number(Case::fresh(), b"\x00\x00\x00\x00")],
    );
}

// 4, 5 and 6: the entries, at the first and the last.
fn contents() {
    line(
        b"cabinet 15 at entry 0, 31:",
        &[
            changed_number(4, 15, 4, 15),
            changed_number(128, 15, 128, 15),
        ],
    );
    line(
        b"cabinet 16 at entry 0, 31:",
        &[
            changed_number(4, 16, 4, 16),
            changed_number(128, 16, 128, 16),
        ],
    );
    line(
        b"cabinet 255 at entry 0, 31:",
        &[
            changed_number(4, 255, 4, 255),
            changed_number(128, 255, 128, 255),
        ],
    );
    line(
        b"start one too high at entry 0, 31:",
        &[
            changed_number(6, 1, 6, 1),
            changed_number(130, 249, 130, 249),
        ],
    );
    line(
        b"start 256 too high at entry 0, 31:",
        &[changed_number(7, 1, 7, 1), changed_number(131, 1, 131, 1)],
    );
    line(
        b"last count 7, 9:",
        &[
            changed_number(129, 7, 129, 7),
            changed_number(129, 9, 129, 9),
        ],
    );
}

// 7, 8 and 9: a body alone, at the first and the last.
fn bodies() {
    line(
        b"kind 2 at body 0, 255:",
        &[
            changed_number(132, 2, 132, 2),
            changed_number(1152, 2, 1152, 2),
        ],
    );
    line(
        b"kind 255 at body 0, 255:",
        &[
            changed_number(132, 255, 132, 255),
            changed_number(1152, 255, 1152, 255),
        ],
    );
    line(
        b"key 32 at body 0, 255:",
        &[
            changed_number(133, 32, 133, 32),
            changed_number(1153, 32, 1153, 32),
        ],
    );
    line(
        b"key 255 at body 0, 255:",
        &[
            changed_number(133, 255, 133, 255),
            changed_number(1153, 255, 1153, 255),
        ],
    );
    line(
        b"read of 31 at body 0, 254:",
        &[
            changed_number(134, 31, 135, 0),
            changed_number(1150, 31, 1151, 0),
        ],
    );
    line(
        b"read of 32 at body 0, 254:",
        &[
            changed_number(134, 32, 135, 0),
            changed_number(1150, 32, 1151, 0),
        ],
    );
    line(
        b"read of 65534 at body 0, 254:",
        &[
            changed_number(134, 254, 135, 255),
            changed_number(1150, 254, 1151, 255),
        ],
    );
    line(
        b"read of 32 at body 255, a write:",
        &[
            changed_number(1154, 32, 1155, 0),
            changed_number(1154, 255, 1155, 255),
        ],
    );
}

// 10 and 34: a body and those before it in its transaction. The module `backs` has what stands behind a write.
fn pairs() {
    line(
        b"second read at body 1, 255:",
        &[
            changed_number(136, 0, 136, 0),
            changed_number(1152, 0, 1152, 0),
        ],
    );
    line(
        b"second write at body 2, 254:",
        &[
            changed_number(140, 1, 141, 0),
            changed_number(1148, 1, 1149, 2),
        ],
    );
    line(
        b"the same keys in the next transaction:",
        &[
            changed_number(164, 0, 165, 0),
            changed_number(168, 1, 169, 0),
        ],
    );
    line(
        b"a read before the write that names its own transaction, at body 0, 254:",
        &[
            changed_number(134, 0, 135, 0),
            changed_number(1150, 31, 1151, 0),
        ],
    );
}

// Logs with several faults: the number that comes first.
fn several() {
    line(
        b"start of entry 0, cabinet of entry 31; both of entry 0:",
        &[changed_number(6, 1, 128, 16), changed_number(4, 16, 6, 1)],
    );
    line(
        b"last count, kind of body 0; cabinet of entry 31, kind of body 0:",
        &[
            changed_number(129, 7, 132, 2),
            changed_number(128, 16, 132, 2),
        ],
    );
    line(
        b"kind and key of body 0; key of body 0, kind of body 1:",
        &[
            changed_number(132, 2, 133, 32),
            changed_number(133, 32, 136, 2),
        ],
    );
    line(
        b"argument of body 0, second read at body 1; the other way round:",
        &[
            changed_number(134, 32, 136, 0),
            changed_number(136, 0, 142, 32),
        ],
    );
    line(
        b"T 33 and too short; T 33 and too long:",
        &[changed_number(0, 33, 0, 33), changed_number(0, 33, 3, 0)],
    );
    line(
        b"N 257 and a byte too few; N 257 and cabinet 16:",
        &[
            load_number(Case::fresh(), first(&with_byte(full(), 2, 1), 1155)),
            changed_number(2, 1, 4, 16),
        ],
    );
    line(
        b"cabinet 16 and a byte too few; cabinet 16 and an entry too many:",
        &[
            load_number(Case::fresh(), first(&with_byte(full(), 4, 16), 1155)),
            changed_number(0, 31, 4, 16),
        ],
    );
}

// 21 and 22: the state comes before the input, and a refusal changes nothing.
fn state() {
    let log = full();
    let held = loaded(&full());
    line(
        b"load on a loaded case, the same log; 3 bytes:",
        &[load_number(held, &log), load_number(held, b"\x00\x00\x00")],
    );
    line(
        b"check on a fresh case, no numbers; one:",
        &[
            check_number(Case::fresh(), b""),
            check_number(Case::fresh(), b"\x00"),
        ],
    );
    text(b"after a refusal the case is as it was, loaded; fresh:");
    for c in [held, Case::fresh()] {
        yes_no(c == load_from(c, b"\x00\x00\x00", &[0; 32]).case);
    }
    end();
    text(b"after clear it is fresh, loaded; fresh:");
    yes_no(held.clear() == Case::fresh());
    yes_no(Case::fresh().clear() == Case::fresh());
    end();
}

// 13: proposed orders of the full log. 101 stands for an order that is not legal.
fn proposed() {
    let held = loaded(&full());
    let up = ascending();
    let low = with_byte(ascending(), 0, 31);
    let high = with_byte(ascending(), 31, 32);
    let twice = with_byte(ascending(), 31, 0);
    line(
        b"31 and 33 numbers:",
        &[
            check_number(held, first(&up, 31)),
            check_number(held, first(&up, 33)),
        ],
    );
    line(
        b"twice at place 0, 31:",
        &[
            check_number(held, first(&low, 32)),
            check_number(held, first(&twice, 32)),
        ],
    );
    line(
        b"32 at place 31; 0 to 31:",
        &[
            check_number(held, first(&high, 32)),
            check_number(held, first(&up, 32)),
        ],
    );
    line(
        b"T 0: no number; one:",
        &[
            check_number(loaded(b"\x00\x00\x00\x00"), b""),
            check_number(loaded(b"\x00\x00\x00\x00"), b"\x00"),
        ],
    );
    text(b"after check the case is as it was:");
    yes_no(held == after_check(held, &high));
    end();
}

fn main() {
    header();
    contents();
    bodies();
    pairs();
    backs::numbers();
    backs::taken();
    several();
    state();
    tables::show_all();
    proposed();
    clocks::show_all();
    spans::show_all();
}
