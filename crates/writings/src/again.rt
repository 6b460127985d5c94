// Logs noted again and written: the largest of the test programs, and those of the repository's folder samples.
use crate::notes::write;
use refusals::{Refusal, number_of};
use samples::lines::{end, number, text, yes_no};
use samples::{first, full, full_backed, long};
use std::array;
use trial::{byte, pair};
use writer::Notes;

// A log of so many bytes noted again; fresh notes where there are not so many.
fn noted_again(log: &[u8], length: usize) -> Result<Notes, Refusal> {
    match log.get(..length) {
        Some(bytes) => Notes::again(bytes),
        None => Ok(Notes::fresh()),
    }
}

// The line of a log, the first `length` bytes: its length; the number with which it is noted again; where that is not 0, no notes but fresh ones; else the number
// and the length of the writing, and whether the bytes are the same.
fn show_first(name: &[u8], log: &[u8], length: usize) {
    let again = noted_again(log, length);
    let notes = again.unwrap_or(Notes::fresh());
    text(name);
    number(length as u64);
    text(b" bytes, noted again");
    number(number_of(again));
    if again.is_err() {
        text(b", fresh notes");
        yes_no(notes == Notes::fresh());
        end();
        return;
    }
    let l = write(notes, 1160);
    text(b", written");
    number(number_of(l.answer));
    text(b", length");
    number(l.length() as u64);
    text(b", the same bytes");
    yes_no(l.wrote(log.get(..length).unwrap_or(log)));
    end();
}

fn show_log(name: &[u8], log: &[u8]) {
    show_first(name, log, log.len());
}

// Shows the sample at a place: its name in 8 bytes, its length in two, and the log, in 1,160 bytes with zeros behind the input. Gives the place of the next.
fn show_sample(input: &[u8], from: usize) -> usize {
    let from = from % 4096;
    if from + 10 >= input.len() {
        return from;
    }
    let name: [u8; 8] = array::from_fn(|i| byte(input, from + i % 8));
    let length = usize::from(pair(input, from + 8));
    let log: [u8; 1160] = array::from_fn(|i| byte(input, from + 10 + i % 1160));
    show_first(&name, &log, length);
    from + 10 + length
}

// All samples, one behind the other; and whether no byte is left over.
fn show_samples(input: &[u8]) {
    let mut from = 0;
    for _ in 0..64 {
        from = show_sample(input, from);
    }
    text(b"no byte of the samples is left over");
    yes_no(from == input.len());
    end();
}

pub fn show() {
    let whole = full();
    show_log(b"the full log:", &whole);
    show_log(b"the full log, a byte short:", first(&whole, 1155));
    show_log(b"none of its bytes:", b"");
    show_log(b"the full log with read-backs:", &full_backed());
    let by_key = long(false);
    show_log(b"one of 96 operations, by key:", first(&by_key, 392));
    show_log(b"the same and a byte behind it:", first(&by_key, 393));
    let in_rounds = long(true);
    show_log(b"one of 96 operations, in rounds:", first(&in_rounds, 392));
    let mut input = io::buffer();
    let n = io::read_full(0, &mut input);
    show_samples(&input[..n]);
}
