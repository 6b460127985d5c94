// Document 01's histories A to J, histories with read-backs, the program's example and the logs with the most constraints, through the calls: what Load
// says, what Decide says and in how many of the six settings, and how many constraints Encode gives in encodings 0, 1 and 2, before pruning and after it;
// then what Table gives of each from levels that are not zeros, but for the logs with the most constraints. Then what Judge prints for each kind of answer.
#![tactic(auto)]

use checker::{Case, Decision, Verdict};
use refusals::number_of;
use samples::lines::{end, number, numbers, text, yes_no};
use samples::tables::levels;
use samples::{load_number, loaded, loaded_from};

mod largest;

// ---- the calls

// What Decide says in setting s, counted by encoding, then pruning.
fn decided(log: &[u8], s: u8) -> Decision {
    lender::decide(loaded(log), s / 2, s % 2)
}

// How many constraints Encode gives.
fn left(log: &[u8], encoding: u8, pruning: u8) -> u64 {
    let mut rows = [0u32; 32];
    let mut out = [0u32; 16384];
    let e = lender::encode(loaded(log), encoding, pruning, &mut rows, &mut out);
    e.left as u64
}

// Whether two decisions say the same.
fn same(a: Decision, b: Decision) -> bool {
    a.verdict == b.verdict && a.order == b.order
}

// In how many of the six settings Decide says what it says in the first.
fn settings(log: &[u8]) -> u64 {
    let first = decided(log, 0);
    (0..6u8).filter(|s| same(decided(log, *s), first)).count() as u64
}

// ---- the lines

// What Decide says, of a log of n transactions.
fn print_decision(d: Decision, n: usize) {
    match d.verdict {
        Ok(Verdict::Order) => {
            text(b" order");
            numbers(&d.order[..n.min(32)]);
        }
        Ok(Verdict::NoOrder) => text(b" no order"),
        Err(refusal) => {
            text(b" refused");
            number(refusal.number());
        }
    }
}

// The line of a history of n transactions: what the calls say of it, and its counts.
fn show_counts(name: &[u8], log: &[u8], n: usize) {
    text(name);
    text(b": load");
    number(load_number(Case::fresh(), log));
    text(b";");
    print_decision(decided(log, 0), n);
    text(b" in");
    number(settings(log));
    text(b" settings; constraints");
    for encoding in 0..3u8 {
        number(left(log, encoding, 0));
    }
    text(b", pruned");
    for encoding in 0..3u8 {
        number(left(log, encoding, 1));
    }
    end();
}

// That line, and the one of what it gives from levels.
fn show(name: &[u8], log: &[u8], n: usize) {
    show_counts(name, log, n);
    show_levels(name, log);
}

// The members of a set.
fn print_set(set: u32) {
    for t in 0..32u32 {
        if set >> t & 1 == 1 {
            number(t);
        }
    }
}

// The edges, by the transaction that they come from.
fn print_rows(rows: &[u32; 32]) {
    for (u, row) in rows.iter().enumerate() {
        if *row != 0 {
            text(b"; edges from");
            number(u as u64);
            text(b" to");
            print_set(*row);
        }
    }
    end();
}

// A side of a constraint.
fn print_side(name: &[u8], from: u32, to: u32) {
    text(name);
    text(b" from");
    print_set(from);
    text(b" to");
    number(to);
}

// The first constraint of a log in an encoding, and its known edges.
fn show_polygraph(name: &[u8], log: &[u8], encoding: u8) {
    let mut rows = [0u32; 32];
    let mut out = [0u32; 16384];
    let e = lender::encode(loaded(log), encoding, 0, &mut rows, &mut out);
    text(name);
    text(b": constraints");
    number(e.left as u64);
    if e.left > 0 {
        print_side(b"; A", out[0], out[1]);
        print_side(b", B", out[2], out[3]);
    }
    print_rows(&rows);
}

// ---- starting from levels

// What Decide says from the levels.
fn decided_from_levels(log: &[u8]) -> Decision {
    lender::decide(loaded_from(log, &levels()), 2, 1)
}

// Whether all keys but 0 and 1, which alone are written, have their levels.
fn kept(table: &[u16; 32], starting: &[u16; 32]) -> bool {
    table[2..] == starting[2..]
}

// The line of what Table gives then: the values of keys 0 and 1, whose levels are 65535 and 1001, and whether the others have theirs.
fn show_levels(name: &[u8], log: &[u8]) {
    let d = decided_from_levels(log);
    let mut out = [9u16; 32];
    let a = d.case.table(&mut out);
    text(name);
    text(b" from levels: decided as from zeros");
    yes_no(same(d, decided(log, 5)));
    text(b"; table");
    number(number_of(a.reply));
    if a.reply.is_ok() {
        text(b", keys 0 and 1:");
        numbers(&out[..2]);
        text(b", the others as they were");
        yes_no(kept(&out, &levels()));
    }
    end();
}

// ---- the histories

fn a_to_d() {
    show(b"A", b"\x00\x00\x00\x00", 0);
    show(
        b"B",
        b"\x02\x00\x04\x00\x00\x02\x00\x00\x01\x02\x02\x00\x00\x00\xff\xff\x01\x01\x05\x00\x00\x01\xff\xff\x01\x00\x06\x00",
        2,
    );
    show(
        b"C",
        b"\x02\x00\x02\x00\x00\x01\x00\x00\x01\x01\x01\x00\x01\x00\x05\x00\x01\x00\x06\x00",
        2,
    );
    let d =
        b"\x05\x00\x05\x00\x00\x01\x00\x00\x01\x01\x01\x00\x02\x01\x02\x00\x03\x01\x03\x00\x04\x01\x04\x00\x01\x00\x05\x00\x01\x00\x06\x00\x00\x00\x00\x00\x00\x00\x00\x00\x00\x00\x01\x00";
    show(b"D", d, 5);
    show_polygraph(b"D joined", d, 1);
}

fn e_to_g() {
    let e =
        b"\x04\x00\x06\x00\x00\x01\x00\x00\x01\x02\x01\x00\x02\x01\x03\x00\x03\x02\x04\x00\x01\x00\x05\x00\x00\x00\x00\x00\x01\x00\x06\x00\x01\x00\x07\x00\x00\x00\x02\x00\x01\x00\x08\x00";
    show(b"E", e, 4);
    show_polygraph(b"E chained", e, 2);
    let f = b"\x01\x00\x02\x00\x00\x02\x00\x00\x00\x00\x00\x00\x01\x00\x05\x00";
    show(b"F", f, 1);
    show_polygraph(b"F plain", f, 0);
    show(
        b"G",
        b"\x02\x00\x04\x00\x00\x02\x00\x00\x01\x02\x02\x00\x00\x00\xff\xff\x01\x00\x05\x00\x00\x00\xff\xff\x01\x00\x06\x00",
        2,
    );
}

fn h_to_j() {
    show(
        b"H",
        b"\x02\x00\x02\x00\x00\x01\x00\x00\x01\x01\x01\x00\x00\x00\x01\x00\x01\x00\x05\x00",
        2,
    );
    show(
        b"H, one cabinet",
        b"\x02\x00\x02\x00\x00\x01\x00\x00\x00\x01\x01\x00\x00\x00\x01\x00\x01\x00\x05\x00",
        2,
    );
    show(
        b"I",
        b"\x03\x00\x05\x00\x00\x01\x00\x00\x01\x02\x01\x00\x02\x02\x03\x00\x01\x00\x05\x00\x00\x00\x00\x00\x01\x00\x06\x00\x00\x00\x00\x00\x01\x00\x07\x00",
        3,
    );
    show(
        b"J",
        b"\x02\x00\x02\x00\x00\x01\x00\x00\x01\x01\x01\x00\x01\x00\x05\x00\x00\x00\xff\xff",
        2,
    );
    show(
        b"the example",
        b"\x02\x00\x03\x00\x00\x02\x00\x00\x01\x01\x02\x00\x00\x00\x01\x00\x01\x01\x07\x00\x01\x00\x05\x00",
        2,
    );
}

// 0 writes k and reads it back; it reads k at start before; it reads k from itself before, as in F; both writers of C and all four of E read back.
fn read_backs() {
    show(
        b"a read-back",
        b"\x01\x00\x02\x00\x00\x02\x00\x00\x01\x00\x05\x00\x00\x00\x00\x00",
        1,
    );
    show(
        b"a read at start and a read-back",
        b"\x01\x00\x03\x00\x00\x03\x00\x00\x00\x00\xff\xff\x01\x00\x05\x00\x00\x00\x00\x00",
        1,
    );
    let f = b"\x01\x00\x03\x00\x00\x03\x00\x00\x00\x00\x00\x00\x01\x00\x05\x00\x00\x00\x00\x00";
    show(b"F with a read-back", f, 1);
    show_polygraph(b"F with a read-back, plain", f, 0);
    let c =
        b"\x02\x00\x04\x00\x00\x02\x00\x00\x01\x02\x02\x00\x01\x00\x05\x00\x00\x00\x00\x00\x01\x00\x06\x00\x00\x00\x01\x00";
    show(b"C with read-backs", c, 2);
    show_polygraph(b"C with read-backs, joined", c, 1);
    let e =
        b"\x04\x00\x0a\x00\x00\x02\x00\x00\x01\x03\x02\x00\x02\x02\x05\x00\x03\x03\x07\x00\x01\x00\x05\x00\x00\x00\x00\x00\x00\x00\x00\x00\x01\x00\x06\x00\x00\x00\x01\x00\x01\x00\x07\x00\x00\x00\x02\x00\x00\x00\x02\x00\x01\x00\x08\x00\x00\x00\x03\x00";
    show(b"E with read-backs", e, 4);
    show_polygraph(b"E with read-backs, chained", e, 2);
}

// The most constraints that 256 operations give: 3,840 in encoding 0, and 3,968 in encodings 1 and 2.
fn most() {
    show_counts(
        b"a ring of reads and writes of 4 keys",
        &largest::busy(true),
        32,
    );
    show_counts(b"blind writes of 8 keys", &largest::busy(false), 32);
}

// ---- what Judge prints

fn judged(name: &[u8], log: &[u8]) {
    text(name);
    end();
    let mut out = [0u8; 1024];
    let n = judging::judge(log, &mut out);
    io::write_all(1, &out[..n]);
}

fn judge_each() {
    judged(b"Judge on 3 bytes:", b"\x00\x00\x00");
    judged(
        b"Judge on a read-back:",
        b"\x01\x00\x02\x00\x00\x02\x00\x00\x01\x00\x05\x00\x00\x00\x00\x00",
    );
    judged(
        b"Judge on a read-back of the starting value:",
        b"\x01\x00\x02\x00\x00\x02\x00\x00\x01\x00\x05\x00\x00\x00\xff\xff",
    );
    judged(
        b"Judge on a second read-back:",
        b"\x01\x00\x03\x00\x00\x03\x00\x00\x01\x00\x05\x00\x00\x00\x00\x00\x00\x00\x00\x00",
    );
    judged(
        b"Judge on a second write:",
        b"\x01\x00\x02\x00\x00\x02\x00\x00\x01\x00\x05\x00\x01\x00\x05\x00",
    );
    judged(
        b"Judge on a byte too few:",
        b"\x01\x00\x01\x00\x00\x01\x00\x00\x01\x00\x05",
    );
    judged(
        b"Judge on a byte too many:",
        b"\x01\x00\x01\x00\x00\x01\x00\x00\x01\x00\x05\x00\x00",
    );
    judged(b"Judge on A:", b"\x00\x00\x00\x00");
    judged(
        b"Judge on F:",
        b"\x01\x00\x02\x00\x00\x02\x00\x00\x00\x00\x00\x00\x01\x00\x05\x00",
    );
    judged(
        b"Judge on C:",
        b"\x02\x00\x02\x00\x00\x01\x00\x00\x01\x01\x01\x00\x01\x00\x05\x00\x01\x00\x06\x00",
    );
    judged(
        b"Judge on the example:",
        b"\x02\x00\x03\x00\x00\x02\x00\x00\x01\x01\x02\x00\x00\x00\x01\x00\x01\x01\x07\x00\x01\x00\x05\x00",
    );
}

fn main() {
    a_to_d();
    e_to_g();
    h_to_j();
    read_backs();
    most();
    judge_each();
}
