// The listing of all three encodings, from tables, into a list that the caller lends.
// Candidates are numbers in document 01's order. The tables say what a candidate's constraint is, and a list of numbers which of them are constraints;
// both are lent.
#![tactic(auto)]

ghost use Rattle.std.specs.Prelude.{◌≡◌, ◌<◌, ◌≤◌, ◌+◌, ◌++◌, length, get_or, drop};
ghost use Rattle.graph.specs.Members.{members};
ghost use Rattle.listing.specs.Candidates.{pair_item, chain_item, plain_item, ends_by, item_by, items_by};
ghost use Rattle.listing.specs.Choosing.{Chose, in_row};

use graph::mask::{clear_low, without};
use model::Constraint;

pub mod plain;
pub mod runs;

// How many words the tables have: one for each row of candidates, and the encoding.
pub const WORDS: usize = 1025;

const ROWS: usize = 1024;

const ENCODING: usize = 1024;

// How many places there are for candidates' numbers: no log that Load takes has more constraints.
pub const PLACES: usize = 4096;

// The readers without x or, where there are none, w alone.
#[tactic(auto, using(graph::proofs::Rows::one_shl), unfolding(crate::specs::Candidates::ends_by))]
fn ends(readers: u32, w: u32, x: u32) -> u32
    requires { (w < 32) × (x < 32) }
    ensures { result ≡ ends_by readers w x }
{
    let others = without(readers, x);
    if others == 0 { 1 << w } else { others }
}

// Encoding 1: the constraint of candidate c, where the words have readers.
#[tactic(auto, unfolding(crate::specs::Candidates::pair_item))]
fn pair_item(tables: &[u32; WORDS], c: usize) -> Constraint
    ensures { result ≡ pair_item tables.now c }
{
    let row = c / 32 % ROWS;
    let i = row % 32;
    let j = c % 32;
    let from_a = ends(tables[row], i as u32, j as u32);
    let from_b = ends(tables[row / 32 * 32 + j], j as u32, i as u32);
    Constraint {
        fromA: from_a,
        toA: j as u32,
        fromB: from_b,
        toB: i as u32,
    }
}

// Encoding 2: the constraint of candidate c, where the words have sources.
#[tactic(auto, unfolding(crate::specs::Candidates::chain_item))]
fn chain_item(tables: &[u32; WORDS], c: usize) -> Constraint
    ensures { result ≡ chain_item tables.now c }
{
    let row = c / 32 % ROWS;
    let j = c % 32;
    Constraint {
        fromA: tables[row],
        toA: j as u32,
        fromB: tables[row / 32 * 32 + j],
        toB: (row % 32) as u32,
    }
}

// Encoding 0: the constraint of candidate c, where a word has two transactions.
#[tactic(auto, using(graph::proofs::Rows::one_shl), unfolding(crate::specs::Candidates::plain_item))]
fn plain_item(tables: &[u32; WORDS], c: usize) -> Constraint
    ensures { result ≡ plain_item tables.now c }
{
    let v = (c % 32) as u32;
    let word = tables[c / 32 % ROWS];
    Constraint {
        fromA: 1 << (word % 32),
        toA: v,
        fromB: 1 << v,
        toB: word / 32 % 32,
    }
}

// The constraint of candidate c, in any encoding.
#[tactic(auto, unfolding(crate::specs::Candidates::item_by))]
fn item(tables: &[u32; WORDS], c: usize) -> Constraint
    ensures { result ≡ item_by tables.now c }
{
    match tables[ENCODING] {
        2 => chain_item(tables, c),
        0 => plain_item(tables, c),
        _ => pair_item(tables, c),
    }
}

// The constraint of the i-th number.
pub fn nth<'a>(tables: &'a [u32; WORDS], chosen: &'a [u16; PLACES], i: usize) -> Constraint
    requires { i < 4096 }
    ensures { result ≡ item_by tables.now (get_or chosen.now i 0) }
{
    item(tables, usize::from(chosen[i]))
}

// The candidates of a row, lowest first, after `from` others: how many there are then.
fn choose(columns: u32, row: usize, from: u16, chosen: &mut [u16; PLACES]) -> u16
    requires { (row < 1024) × (from + length (in_row row (members columns)) ≤ 4096) }
    ensures { Chose (in_row row (members columns)) from chosen.old result chosen.new }
{
    let mut n = from;
    let mut m = columns;
    while m != 0 {
        chosen[usize::from(n)] = (row * 32 + m.trailing_zeros() as usize) as u16;
        n += 1;
        m = clear_low(m);
    }
    n
}

// The constraints of the first n numbers are written to the list.
pub fn list<'a, 'b>(
    tables: &'a [u32; WORDS],
    chosen: &'a [u16; PLACES],
    n: u16,
    out: &'b mut [Constraint],
)
    requires { (n ≤ 4096) × (n ≤ length out.old) }
    ensures { out.new ≡ items_by tables.now chosen.now n ++ drop n out.old }
{
    for (i, place) in out[..usize::from(n)].iter_mut().enumerate() {
        *place = nth(tables, chosen, i);
    }
}
