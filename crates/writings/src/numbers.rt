// Each number at its first and last place, and what stands at the limits. The full notes hold the full log: 32 transactions of 8 operations each, which read and
// write keys 0, 1, 2 and 31 in turn.
use crate::notes::{Call, bytes_line, call_line, closed, opened, read, write_line, written};
use samples::full;
use writer::Notes;

// The notes of the full log.
pub fn full_notes() -> Notes {
    Notes::again(&full()).unwrap_or(Notes::fresh())
}

// The notes with n transactions more of cabinet 15, each opened and closed.
pub fn more_transactions(n: Notes, count: usize) -> Notes {
    let mut out = n;
    for _ in 0..count {
        out = closed(opened(out, 15));
    }
    out
}

// The notes with n writes more.
pub fn more_writes(n: Notes, count: usize) -> Notes {
    let mut out = n;
    for _ in 0..count {
        out = written(out, 0, 7);
    }
    out
}

// 32 transactions, the last open.
fn last_open() -> Notes {
    opened(more_transactions(Notes::fresh(), 31), 15)
}

// The notes with a read and a write of every key more.
fn every_key(n: Notes) -> Notes {
    let mut out = n;
    for k in 0..32u8 {
        out = written(read(out, k, 65535), k, 65534);
    }
    out
}

// ---- 31, 32, and 33 of the notes

fn none_open() {
    let n = Notes::fresh();
    call_line(b"a read, nothing noted", n, Call::Read(0, 65535));
    call_line(b"a write, nothing noted", n, Call::Write(0, 7));
    call_line(b"a close, nothing noted", n, Call::Close);
    let m = full_notes();
    call_line(
        b"a read behind all 256, none open",
        m,
        Call::Read(31, 65535),
    );
    call_line(b"a write behind all 256, none open", m, Call::Write(31, 7));
    call_line(b"a close behind all 32, none open", m, Call::Close);
}

fn one_open() {
    let n = opened(Notes::fresh(), 0);
    call_line(b"an open, the first open", n, Call::Open(0));
    write_line(b"a writing, the first open", n, 1160);
    write_line(b"a writing, the first open", n, 0);
    let m = last_open();
    call_line(b"an open, the 32nd open", m, Call::Open(15));
    write_line(b"a writing, the 32nd open", m, 1160);
    write_line(b"a writing, the 32nd open", m, 0);
    let all = more_writes(last_open(), 256);
    call_line(
        b"an open, the 32nd open with 256 notes",
        all,
        Call::Open(15),
    );
    write_line(b"a writing, the 32nd open with 256 notes", all, 1160);
    write_line(b"a writing, the 32nd open with 256 notes", all, 0);
    let far = opened(Notes::fresh(), 200);
    write_line(b"a writing, cabinet 200 open", far, 0);
}

fn beyond() {
    let n = more_transactions(Notes::fresh(), 31);
    call_line(b"the 32nd transaction", n, Call::Open(15));
    let m = more_transactions(Notes::fresh(), 32);
    call_line(b"the 33rd", m, Call::Open(15));
    write_line(b"32 without operations", m, 1160);
    let a = more_writes(opened(Notes::fresh(), 0), 255);
    call_line(b"the 256th note, all in the first", a, Call::Write(0, 7));
    let b = more_writes(opened(Notes::fresh(), 0), 256);
    call_line(b"the 257th, a write", b, Call::Write(0, 7));
    call_line(b"the 257th, a read", b, Call::Read(0, 65535));
    let c = more_writes(last_open(), 255);
    call_line(b"the 256th note, all in the 32nd", c, Call::Read(31, 65535));
    let d = more_writes(last_open(), 256);
    call_line(b"the 257th, a write", d, Call::Write(31, 7));
    call_line(b"the 257th, a read", d, Call::Read(31, 65535));
    call_line(b"a close behind 256", d, Call::Close);
}

// ---- 33 at writing

fn with_cabinet(t: usize, cabinet: u8) -> Notes {
    let mut n = full_notes();
    n.cabinets[t % 32] = cabinet;
    n
}

fn with_kind(i: usize, kind: u8) -> Notes {
    let mut n = full_notes();
    n.kinds[i % 256] = kind;
    n
}

fn with_key(i: usize, key: u8) -> Notes {
    let mut n = full_notes();
    n.keys[i % 256] = key;
    n
}

fn with_argument(i: usize, argument: u16) -> Notes {
    let mut n = full_notes();
    n.arguments[i % 256] = argument;
    n
}

// The full notes with the last two turned round: a write and a read behind it.
fn with_last_turned(argument: u16) -> Notes {
    let mut n = full_notes();
    n.kinds[254] = 1;
    n.kinds[255] = 0;
    n.arguments[255] = argument;
    n
}

// The full notes are written; with one field changed, at the first place and the last, they are or they are not.
fn contents() {
    write_line(b"the full notes", full_notes(), 1160);
    write_line(b"cabinet 15 in the first", with_cabinet(0, 15), 1160);
    write_line(b"cabinet 16 in the first", with_cabinet(0, 16), 1160);
    write_line(b"cabinet 15 in the last", with_cabinet(31, 15), 1160);
    write_line(b"cabinet 16 in the last", with_cabinet(31, 16), 1160);
    write_line(b"key 30 in the last note", with_key(255, 30), 1160);
    write_line(b"key 32 in the first note", with_key(0, 32), 1160);
    write_line(b"key 32 in the last note", with_key(255, 32), 1160);
    write_line(b"the first read names 31", with_argument(0, 31), 1160);
    write_line(b"the first read names 32", with_argument(0, 32), 1160);
    write_line(b"the last read names 31", with_argument(254, 31), 1160);
    write_line(b"the last read names 32", with_argument(254, 32), 1160);
    write_line(b"the last write of 65535", with_argument(255, 65535), 1160);
    write_line(b"a kind of 2 in the first note", with_kind(0, 2), 1160);
    write_line(b"a kind of 2 in the last note", with_kind(255, 2), 1160);
    write_line(b"a second write in the first", with_kind(0, 1), 1160);
    write_line(b"a second read in the last", with_kind(255, 0), 1160);
    write_line(b"a read-back in the last", with_last_turned(31), 1160);
    write_line(b"a read-back of another", with_last_turned(30), 1160);
}

// What the calls note and the log has no place for; and 33 before 25.
fn refused_at_writing() {
    let one = closed(more_writes(opened(Notes::fresh(), 0), 256));
    write_line(b"256 notes in the first", one, 1160);
    write_line(b"256 notes in the first", one, 0);
    let last = closed(more_writes(last_open(), 256));
    write_line(b"256 notes in the 32nd", last, 1160);
    write_line(b"256 notes in the 32nd", last, 0);
    let cabinet = closed(opened(Notes::fresh(), 200));
    write_line(b"cabinet 200", cabinet, 1160);
    write_line(b"cabinet 200", cabinet, 7);
    let key = closed(read(opened(Notes::fresh(), 0), 99, 65535));
    write_line(b"key 99", key, 1160);
    write_line(b"key 99", key, 0);
    let later = closed(read(opened(Notes::fresh(), 0), 0, 1));
    write_line(b"a read of transaction 1, which is to come", later, 1160);
    let came = closed(written(opened(later, 1), 0, 5));
    write_line(b"the same, and it came", came, 1160);
    let back = closed(read(written(opened(Notes::fresh(), 0), 0, 5), 0, 0));
    write_line(b"a read-back of its own", back, 1160);
    let other = closed(read(written(opened(Notes::fresh(), 0), 0, 5), 0, 65535));
    write_line(b"a read-back of the start", other, 1160);
}

// A start of 256, whose high byte is 1: four transactions of 64 operations, and one without.
fn late_start() {
    let a = closed(every_key(opened(Notes::fresh(), 0)));
    let b = closed(every_key(opened(a, 1)));
    let c = closed(every_key(opened(b, 2)));
    let d = closed(every_key(opened(c, 3)));
    let e = closed(opened(d, 4));
    write_line(b"five, the last from 256 on", e, 1160);
    bytes_line(b"its contents:", e);
}

// ---- 25

fn short() {
    let none = Notes::fresh();
    write_line(b"fresh notes", none, 0);
    write_line(b"fresh notes", none, 3);
    write_line(b"fresh notes", none, 4);
    write_line(b"fresh notes", none, 5);
    let full = full_notes();
    write_line(b"the full notes", full, 0);
    write_line(b"the full notes", full, 1155);
    write_line(b"the full notes", full, 1156);
    write_line(b"the full notes", full, 1157);
}

pub fn show() {
    none_open();
    one_open();
    beyond();
    contents();
    refused_at_writing();
    late_start();
    short();
}
