// The text that Judge prints, put together in a buffer. Each function adds something behind the first `at` bytes, leaves all
// other bytes as they were, and gives the new length of the text.
#![tactic(auto)]

ghost use Rattle.std.specs.Prelude.{◌≡◌, [], ◌∷◌, not, eqb, ◌+◌, ◌*◌, ◌<◌, ◌≤◌, length, take};
ghost use Rattle.model.specs.Lists.{each};
ghost use Rattle.report.specs.Text.{digits, number_text, step_text, order_text, key_text, line_if, table_text, marked, found_text, refused_text, no_order_text, Wrote};

// One byte.
fn push(out: &mut [u8], at: usize, byte: u8) -> usize
    requires { at < length out.old }
    ensures { Wrote out.old at (byte ∷ []) out.new result }
{
    out[at] = byte;
    at + 1
}

// A word.
fn put_word(out: &mut [u8], at: usize, word: &[u8]) -> usize
    requires { at + length word.now ≤ length out.old }
    ensures { Wrote out.old at word.now out.new result }
{
    let end = at + word.len();
    out[at..end].copy_from_slice(word);
    end
}

// A number's digits, at most `most` of them.
fn put_digits(out: &mut [u8], at: usize, most: u32, n: u16) -> usize
    requires { at + length (digits most n) ≤ length out.old }
    ensures { Wrote out.old at (digits most n) out.new result }
{
    if most == 0 {
        return at;
    }
    if n < 10 {
        return push(out, at, b'0' + (n % 10) as u8);
    }
    let end = put_digits(out, at, most - 1, n / 10);
    push(out, end, b'0' + (n % 10) as u8)
}

// A word and a number behind it.
fn put_number(out: &mut [u8], at: usize, word: &[u8], n: u16) -> usize
    requires { at + length word.now + 5 ≤ length out.old }
    ensures { Wrote out.old at (number_text word.now n) out.new result }
{
    let end = put_word(out, at, word);
    put_digits(out, end, 5, n)
}

// The numbers of an order.
fn put_steps(out: &mut [u8], at: usize, order: [u8; 32], n: usize) -> usize
    requires { (n ≤ 32) × (at + 6 * n ≤ length out.old) }
    ensures { Wrote out.old at (each step_text (take n order)) out.new result }
{
    let mut end = at;
    for t in &order[..n] {
        end = put_number(out, end, b" ", u16::from(*t));
    }
    end
}

// The line of an order.
fn put_order(out: &mut [u8], at: usize, order: [u8; 32], n: usize) -> usize
    requires { (n ≤ 32) × (at + 198 ≤ length out.old) }
    ensures { Wrote out.old at (order_text (take n order)) out.new result }
{
    let a = put_word(out, at, b"order");
    let b = put_steps(out, a, order, n);
    push(out, b, b'\n')
}

// The line of a key.
fn put_key(out: &mut [u8], at: usize, key: u16, value: u16) -> usize
    requires { at + 22 ≤ length out.old }
    ensures { Wrote out.old at (key_text key value) out.new result }
{
    let a = put_number(out, at, b"key ", key);
    let b = put_number(out, a, b" value ", value);
    push(out, b, b'\n')
}

// The line of a key, where some transaction writes it: `writers` is the set of those that do.
fn put_if_written(out: &mut [u8], at: usize, writers: u32, key: u16, value: u16) -> usize
    requires { at + 22 ≤ length out.old }
    ensures { Wrote out.old at (line_if (not (eqb writers 0)) key value) out.new result }
{
    if writers != 0 {
        return put_key(out, at, key, value);
    }
    at
}

// The lines of the keys that are written, from a table of writers and one of values.
fn put_table(out: &mut [u8], at: usize, writers: [u32; 32], table: [u16; 32]) -> usize
    requires { at + 704 ≤ length out.old }
    ensures { Wrote out.old at (table_text (marked writers) table 32) out.new result }
{
    let mut end = at;
    for k in 0..32 {
        end = put_if_written(out, end, writers[k], k as u16, table[k]);
    }
    end
}

// The text after an order was found: the order, and the table that it leaves. `writers` has a word for each key, not 0 where some transaction writes it.
pub fn found_text(
    order: [u8; 32],
    n: usize,
    writers: [u32; 32],
    table: [u16; 32],
    out: &mut [u8],
) -> usize
    requires { (n ≤ 32) × (1024 ≤ length out.old) }
    ensures { Wrote out.old 0 (found_text (take n order) (marked writers) table) out.new result }
{
    let end = put_order(out, 0, order, n);
    put_table(out, end, writers, table)
}

// The text of a refusal, with the number that Load or Decide gives.
pub fn refused_text(number: u8, out: &mut [u8]) -> usize
    requires { 1024 ≤ length out.old }
    ensures { Wrote out.old 0 (refused_text number) out.new result }
{
    let end = put_number(out, 0, b"refused ", u16::from(number));
    push(out, end, b'\n')
}

// The text where there is no order.
pub fn none_text(out: &mut [u8]) -> usize
    requires { 1024 ≤ length out.old }
    ensures { Wrote out.old 0 no_order_text out.new result }
{
    put_word(out, 0, b"no order\n")
}
