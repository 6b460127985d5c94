// Numbers as bytes, low byte first: a table's values, written and read, times, read, a polygraph, and bills.
#![tactic(auto)]

ghost use Rattle.std.specs.Prelude.{◌≡◌, ◌≤◌, ◌*◌, ◌+◌, ◌/◌, length, take};
ghost use Rattle.codes.specs.Images.{pair_bytes, word_bytes, word_at, constraint_bytes, filled, value_in, values_in, seconds_in, row_in, words_in, twos, bill_bytes, bill_in};

use model::Constraint;
use wear::Bill;

// Two bytes of a number.
fn put_pair(v: u16, at: usize, out: &mut [u8])
    requires { at + 2 ≤ length out.old }
    ensures { out.new ≡ pair_bytes at v out.old }
{
    out[at..at + 2].copy_from_slice(&v.to_le_bytes());
}

// Four bytes of a number.
fn put_word(v: u32, at: usize, out: &mut [u8])
    requires { at + 4 ≤ length out.old }
    ensures { out.new ≡ word_bytes at v out.old }
{
    out[at..at + 4].copy_from_slice(&v.to_le_bytes());
}

// The 32 values of a table.
pub fn put_values(values: &[u16; 32], out: &mut [u8])
    requires { 64 ≤ length out.old }
    ensures { out.new ≡ filled (value_in values.now) 32 out.old }
{
    for (i, v) in values.iter().enumerate() {
        put_pair(*v, 2 * i, out);
    }
}

// The 32 values that 64 bytes hold.
pub fn values(bytes: &[u8]) -> [u16; 32]
    requires { length bytes.now ≡ 64 }
    ensures { result ≡ values_in bytes.now }
{
    let mut out = [0u16; 32];
    for i in 0..32 {
        out[i] = logs::fields::pair(bytes, 2 * i) as u16;
    }
    out
}

// The number that four bytes hold.
fn word(bytes: &[u8], at: usize) -> u32
    requires { at + 4 ≤ length bytes.now }
    ensures { result ≡ word_at bytes.now at }
{
    u32::from_le_bytes([bytes[at], bytes[at + 1], bytes[at + 2], bytes[at + 3]])
}

// The seconds that at most 128 bytes hold, four bytes each; what stands behind them in the array plays no part.
pub fn seconds(bytes: &[u8]) -> [u32; 32]
    requires { length bytes.now ≤ 128 }
    ensures { take (length bytes.now / 4) result ≡ seconds_in bytes.now }
{
    let mut out = [0u32; 32];
    for i in 0..bytes.len() / 4 {
        out[i] = word(bytes, 4 * i);
    }
    out
}

// The 32 row words, behind two bytes.
fn put_rows(rows: &[u32; 32], out: &mut [u8])
    requires { 130 ≤ length out.old }
    ensures { out.new ≡ filled (row_in rows.now) 32 out.old }
{
    for (i, r) in rows.iter().enumerate() {
        put_word(*r, 2 + 4 * i, out);
    }
}

// The ten bytes of a constraint.
fn put_constraint(c: Constraint, at: usize, out: &mut [u8])
    requires { at + 10 ≤ length out.old }
    ensures { out.new ≡ constraint_bytes at c out.old }
{
    put_word(c.fromA, at, out);
    out[at + 4] = (c.toA % 256) as u8;
    put_word(c.fromB, at + 5, out);
    out[at + 9] = (c.toB % 256) as u8;
}

// The first n constraints of a list that was packed, four words each.
fn put_constraints(words: &[u32], n: usize, out: &mut [u8])
    requires { (4 * n ≤ length words.now) × (130 + 10 * n ≤ length out.old) }
    ensures { out.new ≡ filled (words_in words.now) n out.old }
{
    for i in 0..n {
        put_constraint(search::constraint_at(words, i), 130 + 10 * i, out);
    }
}

// The polygraph: the count left, the row words, and the constraints left.
pub fn put_polygraph(left: usize, rows: &[u32; 32], words: &[u32], out: &mut [u8])
    requires { (left ≤ 4096) × (4 * left ≤ length words.now) × (130 + 10 * left ≤ length out.old) }
    ensures { out.new ≡ filled (words_in words.now) left (filled (row_in rows.now) 32 (pair_bytes 0 left out.old)) }
{
    put_pair(left as u16, 0, out);
    put_rows(rows, out);
    put_constraints(words, left, out);
}

// The twelve bytes of a bill: mills, cents, and travel as two's complement.
fn put_bill(b: Bill, at: usize, out: &mut [u8])
    requires { at + 12 ≤ length out.old }
    ensures { out.new ≡ bill_bytes at b out.old }
{
    put_word(b.mills, at, out);
    put_word(b.cents, at + 4, out);
    put_word(b.travel.cast_unsigned(), at + 8, out);
}

// The bills of the sixteen cabinets.
pub fn put_bills(bills: [Bill; 16], out: &mut [u8])
    requires { 192 ≤ length out.old }
    ensures { out.new ≡ filled (bill_in bills) 16 out.old }
{
    for (i, b) in bills.iter().enumerate() {
        put_bill(*b, 12 * i, out);
    }
}
