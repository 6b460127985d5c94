// Document 01's example, noted by the calls and written.
use refusals::{Refusal, number_of};
use samples::lines::{end, number, text, yes_no};
use writer::Notes;

// Cabinet 0 reads key 0 from transaction 1 and writes 7 to key 1; cabinet 1 writes 5 to key 0.
fn noted() -> Result<Notes, Refusal> {
    let mut n = Notes::fresh();
    n.open(0)?;
    n.note_read(0, 1)?;
    n.note_write(1, 7)?;
    n.close()?;
    n.open(1)?;
    n.note_write(0, 5)?;
    n.close()?;
    Ok(n)
}

// The length of its log.
fn written(out: &mut [u8]) -> Result<usize, Refusal> {
    noted()?.write(out)
}

pub fn show() {
    let mut out = [0u8; 24];
    let answer = written(&mut out);
    text(b"document 01's example:");
    number(number_of(answer));
    text(b", length");
    number(answer.unwrap_or(0) as u64);
    text(b", the same bytes");
    yes_no(check::same(
        &out,
        b"\x02\x00\x03\x00\x00\x02\x00\x00\x01\x01\x02\x00\x00\x00\x01\x00\x01\x01\x07\x00\x01\x00\x05\x00",
    ));
    end();
}
