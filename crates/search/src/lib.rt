// Is there an order that respects the row words and one side of each constraint? The walk over a polygraph:
// prune in passes until one drops none; a constraint with both sides closed off means no; no constraint left means yes; else side A of the first one left, then side B.
// Row words are kept closed, with no cycle. They travel by value from choice to choice; pruning changes them in place, since of 128 bytes that are
// returned at each call the copies are a good part of the work. The constraints are one lent slice of words, four a constraint, that is only read.
// Those that are open are bits of 128 words.
#![tactic(auto)]

ghost use Rattle.std.specs.Prelude.{◌≡◌, true, false, not, ◌&&◌, ℕ, ◌+◌, ◌*◌, ◌-◌, ◌<◌, ◌≤◌, T, ltb, length};
ghost use Rattle.model.specs.Lists.{bit};
ghost use Rattle.model.specs.Polygraph.{reach, closed_off};
ghost use Rattle.model.specs.RowWords.{«held»};
ghost use Rattle.search.specs.Constraints.{con_at, with_words, is_open, Given, Fit, Dropped};
ghost use Rattle.search.specs.Steps.{PartialOrder, «shut», Taken, Last, PrunedState, Ready, Walked, NextOpen, HitIn, NextHit, NextChoice};

use graph::{Side, members};
use model::Constraint;

pub mod order;

// A word without its bits below s.
fn bits_from(word: u32, s: u32) -> u32
    requires { s < 32 }
    ensures { (b : ℕ) → bit result b ≡ (bit word b && not (ltb b s)) }
{
    (word >> s) << s
}

// Constraint i of the words.
pub fn constraint_at(words: &[u32], i: usize) -> Constraint
    requires { 4 * i + 4 ≤ length words.now }
    ensures { result ≡ con_at words.now i }
{
    let at = 4 * i;
    Constraint {
        fromA: words[at],
        toA: words[at + 1],
        fromB: words[at + 2],
        toB: words[at + 3],
    }
}

// The words with c as constraint i.
pub fn put_constraint(words: &mut [u32], i: usize, c: Constraint)
    requires { 4 * i + 4 ≤ length words.old }
    ensures { words.new ≡ with_words words.old i c }
{
    let at = 4 * i;
    words[at] = c.fromA;
    words[at + 1] = c.toA;
    words[at + 2] = c.fromB;
    words[at + 3] = c.toB;
}

// Whether a constraint has a side closed off.
fn shut(rows: &[u32; 32], k: Constraint) -> bool
    requires { (k.toA < 32) × (k.toB < 32) × (reach rows.now ≡ rows.now) }
    ensures { result ≡ «shut» rows.now k }
{
    graph::closed_off(rows, k.fromA, k.toA) | graph::closed_off(rows, k.fromB, k.toB)
}

// The first of 32 constraints from `base` on that is in the set and has a side closed off.
fn hit_in(rows: &[u32; 32], words: &[u32], base: usize, set: u32, n: u16) -> Option<u32>
    requires { ((b : ℕ) → T (bit set b) → base + b < n) × (reach rows.now ≡ rows.now) × Given words.now n }
    ensures { HitIn words.now rows.now base set result }
{
    for b in members(set) {
        let k = constraint_at(words, base + b as usize);
        if shut(rows, k) {
            return Some(b);
        }
    }
    None
}

// The first open constraint from `from` on that has a side closed off; `stop` or more, and at most n, where none before `stop` has.
fn next_hit(
    rows: &[u32; 32],
    left: &[u32; 128],
    words: &[u32],
    from: usize,
    stop: u16,
    n: u16,
) -> usize
    requires { (from ≤ stop) × (stop ≤ n) × (reach rows.now ≡ rows.now) × Fit left.now n × Given words.now n }
    ensures { NextHit words.now rows.now left.now from stop n result }
{
    let mut i = from;
    // by index: the first step may begin within a word, each other one at a word
    while i < stop as usize {
        let w = i / 32;
        let set = bits_from(left[w], (i % 32) as u32);
        if let Some(b) = hit_in(rows, words, w * 32, set, n) {
            return w * 32 + b as usize;
        }
        i = w * 32 + 32;
    }
    stop as usize
}

// A side goes into closed row words, which are closed again.
fn take(rows: &mut [u32; 32], from: u32, to: u32)
    requires { PartialOrder rows.old × (to < 32) × T (not (closed_off rows.old from to)) }
    ensures { Taken rows.old rows.new from to }
{
    graph::take(rows, from, to);
}

// The same by value, for words that go from choice to choice.
fn extend(rows: [u32; 32], from: u32, to: u32) -> [u32; 32]
    requires { PartialOrder rows × (to < 32) × T (not (closed_off rows from to)) }
    ensures { Taken rows result from to }
{
    graph::extend(rows, from, to)
}

// The side that is left of a constraint where one is closed off: B where A is, else A.
fn last_side(rows: &[u32; 32], k: Constraint) -> Side
    requires { (k.toA < 32) × (k.toB < 32) × (reach rows.now ≡ rows.now) × T («shut» rows.now k) }
    ensures { Last rows.now k result.from result.to }
{
    if graph::closed_off(rows, k.fromA, k.toA) {
        return Side {
            from: k.fromB,
            to: k.toB,
        };
    }
    Side {
        from: k.fromA,
        to: k.toA,
    }
}

// The open constraints without constraint i.
pub(crate) fn drop_at(left: &mut [u32; 128], i: usize)
    requires { (i < 4096) × T (is_open left.old i) }
    ensures { Dropped left.old i left.new }
{
    let w = i / 32;
    left[w] = graph::mask::without(left[w], (i % 32) as u32);
}

// Passes until one drops none; or `stuck`, where some constraint has both sides closed off. A constraint that was looked at after the last drop need not
// be looked at again, so those from i to `stop` are left, and then those below `again`.
pub(crate) fn prune(rows: &mut [u32; 32], left: &mut [u32; 128], words: &[u32], n: u16) -> bool
    requires { Ready words.now n rows.old left.old }
    ensures { PrunedState words.now n rows.old left.old result rows.new left.new }
{
    let mut i: usize = 0;
    let mut stop = n;
    let mut again: u16 = 0;
    loop {
        let at = next_hit(rows, left, words, i, stop, n);
        if at < stop as usize {
            let k = constraint_at(words, at);
            let side = last_side(rows, k);
            if graph::closed_off(rows, side.from, side.to) {
                return true;
            }
            take(rows, side.from, side.to);
            drop_at(left, at);
            i = at + 1;
            stop = n;
            again = at as u16;
        } else {
            if again == 0 {
                return false;
            }
            i = 0;
            stop = again;
            again = 0;
        }
    }
}

// Whether the closed row words have one side of a constraint whole.
fn held(rows: &[u32; 32], k: Constraint) -> bool
    requires { (k.toA < 32) × (k.toB < 32) }
    ensures { result ≡ «held» rows.now k }
{
    graph::side_held(rows, k.fromA, k.toA) || graph::side_held(rows, k.fromB, k.toB)
}

// The first open constraint from `from` on, or n.
pub(crate) fn next_open(left: &[u32; 128], from: usize, n: u16) -> usize
    requires { (n ≤ 4096) × (from ≤ n) × Fit left.now n }
    ensures { NextOpen left.now from n result }
{
    let mut i = from;
    // by index, as in `next_hit`
    while i < n as usize {
        let w = i / 32;
        let m = bits_from(left[w], (i % 32) as u32);
        if m != 0 {
            return w * 32 + u32::trailing_zeros(m) as usize;
        }
        i = w * 32 + 32;
    }
    n as usize
}

// The first open constraint of which no side is there whole, or n.
fn next_choice(rows: &[u32; 32], left: &[u32; 128], words: &[u32], n: u16) -> usize
    requires { Fit left.now n × Given words.now n }
    ensures { NextChoice words.now rows.now left.now n result }
{
    let mut i: usize = 0;
    loop {
        let j = next_open(left, i, n);
        if j >= n as usize {
            return n as usize;
        }
        let k = constraint_at(words, j);
        if !held(rows, k) {
            return j;
        }
        i = j + 1;
    }
}

// The walk: whether some order respects the row words and one side of each constraint, where those that are not open are settled.
// `Some` has the closed row words of a selection without a cycle.
// Each choice puts two numbers in order that stood in none, so at most 496 calls stand one in another below the first (`depth` in proofs/Pairs.antt).
// As compiled a level takes 1,232 bytes of stack.
pub(crate) fn walk(rows: [u32; 32], left: &[u32; 128], words: &[u32], n: u16) -> Option<[u32; 32]>
    requires { Ready words.now n rows left.now }
    ensures { Walked words.now n rows left.now result }
{
    let mut l = *left;
    let mut c = rows;
    let stuck = prune(&mut c, &mut l, words, n);
    if stuck {
        return None;
    }
    let i = next_choice(&c, &l, words, n);
    if i >= n as usize {
        return Some(c);
    }
    drop_at(&mut l, i);
    let k = constraint_at(words, i);
    let with_a = extend(c, k.fromA, k.toA);
    let a = walk(with_a, &l, words, n);
    if a.is_some() {
        return a;
    }
    let with_b = extend(c, k.fromB, k.toB);
    walk(with_b, &l, words, n)
}
