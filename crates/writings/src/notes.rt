// Notes and what the calls do with them, in lines of output.
use refusals::{Refusal, number_of};
use samples::lines::{end, number, numbers, text, yes_no};
use std::array;
use writer::Notes;

// ---- calls that note something

#[derive(Clone, Copy)]
pub enum Call {
    Open(u8),
    Read(u8, u16),
    Write(u8, u16),
    Close,
}

impl Call {
    pub fn make(self, n: &mut Notes) -> Result<(), Refusal> {
        match self {
            Call::Open(cabinet) => n.open(cabinet),
            Call::Read(key, argument) => n.note_read(key, argument),
            Call::Write(key, value) => n.note_write(key, value),
            Call::Close => n.close(),
        }
    }
}

// The notes after a call, refused or not.
pub fn after(mut n: Notes, call: Call) -> Notes {
    let _ = call.make(&mut n);
    n
}

pub fn opened(n: Notes, cabinet: u8) -> Notes {
    after(n, Call::Open(cabinet))
}

pub fn read(n: Notes, key: u8, argument: u16) -> Notes {
    after(n, Call::Read(key, argument))
}

pub fn written(n: Notes, key: u8, value: u16) -> Notes {
    after(n, Call::Write(key, value))
}

pub fn closed(n: Notes) -> Notes {
    after(n, Call::Close)
}

// ---- writing

// What a writing answers and leaves of a buffer of nines: the length or a refusal, whether the notes are as found, and the bytes.
#[derive(Clone, Copy)]
pub struct Left {
    pub answer: Result<usize, Refusal>,
    pub kept: bool,
    pub bytes: [u8; 1160],
}

// The writing into the first `room` bytes, at most 1,160.
pub fn write(n: Notes, room: usize) -> Left {
    let mut bytes = [9u8; 1160];
    let found = n;
    let answer = n.write(&mut bytes[..room.min(1160)]);
    Left {
        answer,
        kept: n == found,
        bytes,
    }
}

impl Left {
    // Whether the writing was taken, left the notes, and wrote the log and nothing else.
    pub fn wrote(&self, log: &[u8]) -> bool {
        self.answer == Ok(log.len())
            && self.kept
            && match self.bytes.strip_prefix(log) {
                Some(rest) => rest.iter().all(|x| *x == 9),
                None => false,
            }
    }

    // Whether it was refused for this reason, and left the notes and the buffer.
    pub fn refused(&self, refusal: Refusal) -> bool {
        self.answer == Err(refusal) && self.kept && self.bytes == [9; 1160]
    }

    // The length of the log that was written, or 0.
    pub fn length(&self) -> usize {
        self.answer.unwrap_or(0)
    }
}

// ---- the log of notes, from document 01's sentences on its layout

// How many operations the first t transactions have.
fn noted_before(n: &Notes, t: usize) -> usize {
    let mut sum: usize = 0;
    for count in n.counts.iter().take(t) {
        sum = sum.saturating_add(usize::from(*count));
    }
    sum
}

// Byte f of a row: two bytes and a two-byte field, the low byte first.
fn row_byte(a: u8, b: u8, pair: usize, f: usize) -> u8 {
    let [low, high] = ((pair % 65536) as u16).to_le_bytes();
    match f {
        0 => a,
        1 => b,
        2 => low,
        _ => high,
    }
}

// Byte f of the entry of transaction t.
fn entry_byte(n: &Notes, t: usize, f: usize) -> u8 {
    let t = t % 32;
    row_byte(
        n.cabinets[t],
        (n.counts[t] % 256) as u8,
        noted_before(n, t),
        f,
    )
}

// Byte f of body m.
fn body_byte(n: &Notes, m: usize, f: usize) -> u8 {
    let m = m % 256;
    row_byte(n.kinds[m], n.keys[m], usize::from(n.arguments[m]), f)
}

// Byte i of the log of notes with at most 32 transactions.
fn log_byte(n: &Notes, i: usize) -> u8 {
    let t = n.transactions % 33;
    if i < 4 {
        return row_byte(t as u8, 0, noted_before(n, t), i);
    }
    if i < 4 + 4 * t {
        return entry_byte(n, (i - 4) / 4, i % 4);
    }
    body_byte(n, (i - 4 - 4 * t) / 4, i % 4)
}

// The buffer that begins with so many bytes of the log of the notes, and is nines behind them.
fn buffer_of(n: &Notes, length: usize) -> [u8; 1160] {
    array::from_fn(|i| if i < length { log_byte(n, i) } else { 9 })
}

// ---- lines

// A call: its number; where it is refused, whether the notes are as found; else how many transactions and notes there are after it, and whether one is open.
pub fn call_line(name: &[u8], before: Notes, call: Call) {
    let mut after = before;
    let answer = call.make(&mut after);
    text(name);
    number(number_of(answer));
    if answer.is_err() {
        text(b", notes as found");
        yes_no(after == before);
        end();
        return;
    }
    text(b", transactions");
    number(after.transactions as u64);
    text(b", notes");
    number(noted_before(&after, after.transactions) as u64);
    text(b", open");
    yes_no(after.opened);
    end();
}

// A writing into so many bytes: its number and length; whether the notes are as found; and whether the buffer has that much of their log, and is as found behind
// it.
pub fn write_line(name: &[u8], n: Notes, room: usize) {
    let l = write(n, room);
    text(name);
    text(b": into");
    number(room as u64);
    text(b" bytes");
    number(number_of(l.answer));
    text(b", length");
    number(l.length() as u64);
    text(b", notes as found");
    yes_no(l.kept);
    text(b", buffer as it must be");
    yes_no(l.bytes == buffer_of(&n, l.length()));
    end();
}

// The first 24 bytes that are written.
pub fn bytes_line(name: &[u8], n: Notes) {
    let l = write(n, 1160);
    text(name);
    numbers(&l.bytes[..24]);
    end();
}
