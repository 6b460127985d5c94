// The bytes of a log, row by row: the contents first, then the bodies, which go into the part of the buffer after the contents.
ghost use Rattle.std.specs.Prelude.{◌≡◌, ◌+◌, ◌*◌, ◌≤◌, length};
ghost use Rattle.writer.specs.Rows as Rows;
ghost use Rattle.writer.specs.Held.{held_log, noted_in};
ghost use Rattle.writer.specs.Room.{Fits};

use crate::Notes;

// A row of four bytes: two bytes and a two-byte field.
fn put_row(out: &mut [u8], at: usize, a: u8, b: u8, pair: u16)
    requires { at + 4 ≤ length out.old }
    ensures { out.new ≡ Rows.over out.old at (Rows.row_bytes a b pair) }
{
    let [low, high] = pair.to_le_bytes();
    out[at..at + 4].copy_from_slice(&[a, b, low, high]);
}

// The entries, behind T and N.
fn put_entries(notes: &Notes, out: &mut [u8])
    requires { Fits notes.now (length out.old) }
    ensures { out.new ≡ Rows.over out.old 4 (Rows.entry_rows notes.now.cabinets notes.now.counts notes.now.transactions) }
{
    let mut start: u16 = 0;
    for t in 0..notes.transactions {
        let count = notes.counts[t];
        put_row(out, 4 + 4 * t, notes.cabinets[t], count as u8, start);
        start += count;
    }
}

// The contents: T, N and the entries.
fn put_contents(notes: &Notes, out: &mut [u8])
    requires { Fits notes.now (length out.old) }
    ensures { out.new ≡ Rows.over out.old 0 (Rows.contents_rows notes.now.cabinets notes.now.counts notes.now.transactions (noted_in notes.now)) }
{
    let [low, high] = (notes.transactions as u16).to_le_bytes();
    put_row(out, 0, low, high, notes.noted() as u16);
    put_entries(notes, out);
}

// The first n bodies, into the part of the buffer that is lent for them.
fn put_bodies(notes: &Notes, n: usize, out: &mut [u8])
    requires { (n ≤ 256) × (4 * n ≤ length out.old) }
    ensures { out.new ≡ Rows.over out.old 0 (Rows.body_rows notes.now.kinds notes.now.keys notes.now.arguments n) }
{
    for i in 0..n {
        put_row(
            out,
            4 * i,
            notes.kinds[i],
            notes.keys[i],
            notes.arguments[i],
        );
    }
}

// The contents first; then the bodies, into the part of the buffer after the contents. Gives the length of both.
pub(crate) fn put_log(notes: &Notes, out: &mut [u8]) -> usize
    requires { Fits notes.now (length out.old) }
    ensures count { result ≡ length (held_log notes.now) }
    ensures list { out.new ≡ Rows.over out.old 0 (held_log notes.now) }
{
    let m = notes.noted();
    put_contents(notes, out);
    let contents = 4 + 4 * notes.transactions;
    put_bodies(notes, m, &mut out[contents..]);
    contents + 4 * m
}
