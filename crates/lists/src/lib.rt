// Encode, Decide and Bills on lists as the test programs want them: of so many places, each of which holds a mark, with all of them shown; and Decide twice on
// one list. As in `lender`, callers lend no list. And what they compare: lists of words.
#![tactic(auto)]

ghost use Rattle.std.specs.Prelude.{◌≡◌, ◌++◌, ◌≤◌, ◌*◌, ◌-◌, length, replicate};
ghost use Rattle.checker.specs.Encodings.{encode_answer, encode_list, encode_rows};
ghost use Rattle.checker.specs.Decisions.{deciding, list_after_decide};
ghost use Rattle.checker.specs.Results.{replying, bills_refused, bills_left};
ghost use Rattle.lender.specs.Packing.{packed};

use checker::{Answer, Bill, Case, Decision, Encoding};
use model::Constraint;

// Encode on a list of so many places, at most 4,096, that each hold `mark`; then the list goes out, four words a place.
pub fn encode<'a, 'b>(
    c: Case,
    encoding: u8,
    pruning: u8,
    places: usize,
    mark: Constraint,
    rows: &'a mut [u32],
    out: &'b mut [u32],
) -> Encoding
    requires { (places ≤ 4096) × (4 * places ≤ length out.old) }
    ensures { (result ≡ encode_answer c encoding pruning places (length rows.old))
        × (rows.new ≡ encode_rows c encoding pruning places rows.old)
        × (out.new ≡ packed places (encode_list c encoding pruning (replicate places mark) (length rows.old)) out.old) }
{
    let mut list = [mark; 4096];
    let e = c.encode(encoding, pruning, &mut list[..places], rows);
    lender::pack(&mut list[..places], places, out);
    e
}

// Decide on a list of so many places, at most 4,096, that each hold `mark`.
pub fn decide(c: Case, encoding: u8, pruning: u8, places: usize, mark: Constraint) -> Decision
    requires { places ≤ 4096 }
    ensures { result ≡ deciding c encoding pruning places }
{
    let mut list = [mark; 4096];
    c.decide(encoding, pruning, &mut list[..places])
}

// Decide on one list twice, of so many places, at most 4,096: first for another case, in a setting of its own; then the list goes out, four words a
// place.
pub fn decide_again(
    first: Case,
    e: u8,
    p: u8,
    second: Case,
    encoding: u8,
    pruning: u8,
    places: usize,
    mark: Constraint,
    out: &mut [u32],
) -> Decision
    requires { (places ≤ 4096) × (4 * places ≤ length out.old) }
    ensures { (result ≡ deciding second encoding pruning places)
        × (out.new ≡ packed places (list_after_decide second encoding pruning (list_after_decide first e p (replicate places mark))) out.old) }
{
    let mut list = [mark; 4096];
    let before = first.decide(e, p, &mut list[..places]);
    let d = second.decide(encoding, pruning, &mut list[..places]);
    lender::pack(&mut list[..places], places, out);
    d
}

// What Bills gave, and the list that it left.
#[derive(Clone, Copy)]
pub struct Billed {
    pub answer: Answer,
    pub list: [Bill; 20],
}

// Bills on a list of so many places, at most 20, of 20 that each hold `mark`.
pub fn bills(c: Case, places: usize, mark: Bill) -> Billed
    requires { places ≤ 20 }
    ensures { (result.answer ≡ replying c (bills_refused c places)) × (result.list ≡ bills_left c (replicate places mark) ++ replicate (20 - places) mark) }
{
    let mut list = [mark; 20];
    let answer = c.bills(&mut list[..places]);
    Billed { answer, list }
}

// A place that holds a number in all four fields.
pub fn marked(x: u32) -> Constraint {
    Constraint {
        fromA: x,
        toA: x,
        fromB: x,
        toB: x,
    }
}

// Whether the first n words are the same.
pub fn same_words(a: &[u32; 16384], b: &[u32; 16384], n: usize) -> bool {
    let n = n.min(16384);
    a[..n] == b[..n]
}
