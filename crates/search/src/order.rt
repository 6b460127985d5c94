// The lexicographically first order that respects the row words and one side of each constraint: place by place, the lowest number that can come next.
// `fill` keeps from place to place the closed row words, in which what is placed comes before all else, the open constraints, and the closed words of a
// selection; where nothing is open, `lowest_first` needs none of them.
ghost use Rattle.std.specs.Prelude.{◌≡◌, true, false, not, cond, ◌&&◌, [], ℕ, ◌+◌, ◌*◌, ◌-◌, ◌<◌, ◌≤◌, T, ltb, replicate};
ghost use Rattle.std.specs.Int.Bits.{bit_or};
ghost use Rattle.model.specs.Lists.{bit};
ghost use Rattle.search.specs.Constraints.{is_open, Given, Fit, Dropped};
ghost use Rattle.search.specs.Steps.{PartialOrder};
ghost use Rattle.search.specs.Orders.{Under, led_row, Placed, Progress, Below, Picked, First, Asked, Answered, Begins, opposed, Lighter};

use model::Constraint;

// The number that comes next, the row words with it before all unplaced, and those of a selection.
#[derive(Clone, Copy)]
pub struct Choice {
    pub rows: [u32; 32],
    pub sel: [u32; 32],
    pub v: u32,
}

// A set with the row of u, where u is in `set`.
fn gather(out: u32, set: u32, u: u32, row: u32) -> u32
    requires { u < 32 }
    ensures { result ≡ cond (bit set u) (bit_or out row) out }
{
    if graph::has(set, u) { out | row } else { out }
}

// The numbers with a predecessor in the set.
fn below(rows: [u32; 32], set: u32) -> u32
    ensures { Under rows set 32 result }
{
    let mut out: u32 = 0;
    for (u, row) in rows.iter().enumerate() {
        out = gather(out, set, u as u32, *row);
    }
    out
}

// A set without those of another.
fn minus(set: u32, other: u32) -> u32
    ensures { (x : ℕ) → bit result x ≡ (bit set x && not (bit other x)) }
{
    set ^ (set & other)
}

// Row u with the set `add`, where u is v or leads to v.
fn lead_row(add: u32, v: u32, u: u32, row: u32) -> u32
    requires { (v < 32) × (u < 32) }
    ensures { result ≡ led_row add v u row }
{
    if graph::has(graph::with(row, u), v) {
        row | add
    } else {
        row
    }
}

// Closed row words with v before all others of the set, closed again. `under` has the numbers with a predecessor in the set, and not v.
fn put_first(rows: [u32; 32], set: u32, under: u32, v: u32) -> [u32; 32]
    requires { (v < 32) × PartialOrder rows × T (bit set v) × Under rows set 32 under × T (not (bit under v)) }
    ensures { Placed rows set v result }
{
    let rest = graph::mask::without(set, v);
    let add = rest | under;
    let mut out = rows;
    for (u, row) in out.iter_mut().enumerate() {
        *row = lead_row(add, v, u as u32, *row);
    }
    out
}

// The lowest number that can come next. One that nothing unplaced precedes, in the selection either, can; a lower one that only the selection forbids needs a walk.
fn pick(
    rows: [u32; 32],
    left: &[u32; 128],
    sel: [u32; 32],
    set: u32,
    words: &[u32],
    n: u16,
    t: usize,
) -> Choice
    requires { Progress t words.now n rows left.now sel × Below set t × ((set ≡ 0) → ⊥) }
    ensures { Picked t words.now n rows set result.v result.rows result.sel }
{
    let under = below(rows, set);
    let over = below(sel, set);
    let mut m = minus(set, under);
    let free = u32::trailing_zeros(minus(m, over));
    loop {
        let v = u32::trailing_zeros(m);
        if v >= free {
            let d = put_first(rows, set, under, free);
            let s = put_first(sel, set, over, free);
            return Choice {
                rows: d,
                sel: s,
                v: free,
            };
        }
        let d = put_first(rows, set, under, v);
        if let Some(s) = crate::walk(d, left, words, n) {
            return Choice { rows: d, sel: s, v };
        }
        m = graph::mask::clear_low(m);
    }
}

// All places, from the state before the first.
fn fill(
    rows: [u32; 32],
    left: [u32; 128],
    sel: [u32; 32],
    all: u32,
    words: &[u32],
    n: u16,
    t: usize,
) -> [u8; 32]
    requires { Begins t words.now n rows left sel all }
    ensures { First t words.now n rows result }
{
    let mut c = rows;
    let mut l = left;
    let mut s = sel;
    let mut set = all;
    let mut out = [0; 32];
    for k in 0..t {
        let p = pick(c, &l, s, set, words, n, t);
        c = p.rows;
        // not stuck: the selection at hand has all that is picked
        crate::prune(&mut c, &mut l, words, n);
        s = p.sel;
        set = graph::mask::without(set, p.v);
        out[k] = p.v as u8;
    }
    out
}

// All places where there is no constraint: the lowest number each time that nothing unplaced precedes. Nothing has to be tried, so the row words stay as they are.
fn lowest_first(rows: [u32; 32], all: u32, t: usize) -> [u8; 32]
    requires { Begins t [] 0 rows [] rows all }
    ensures { First t [] 0 rows result }
{
    let mut set = all;
    let mut out = [0; 32];
    for i in 0..t {
        let v = u32::trailing_zeros(minus(set, below(rows, set)));
        set = graph::mask::without(set, v);
        out[i] = v as u8;
    }
    out
}

// The numbers below t, as a set.
fn numbers(t: u32) -> u32
    requires { t ≤ 32 }
    ensures { (x : ℕ) → bit result x ≡ ltb x t }
{
    if t == 32 {
        return 4294967295;
    }
    (1 << t) - 1
}

// Which of the 32 constraints from 32 w on are among the first n, as a set.
fn open_word(n: u16, w: usize) -> u32
    requires { (n ≤ 4096) × (w < 128) }
    ensures { (b : ℕ) → b < 32 → bit result b ≡ ltb (w * 32 + b) n }
{
    if w * 32 >= n as usize {
        return 0;
    }
    let k = n - (w * 32) as u16;
    if k >= 32 {
        return numbers(32);
    }
    numbers(k as u32)
}

// The first n constraints are open, in a set that was empty. It is lent, since a set of 512 bytes that is returned is copied.
fn all_open(n: u16, out: &mut [u32; 128])
    requires { (n ≤ 4096) × (out.old ≡ replicate 128 0) }
    ensures { (i : ℕ) → is_open out.new i ≡ ltb i n }
{
    for w in 0..(n as usize + 31) / 32 {
        out[w] = open_word(n, w);
    }
}

// Whether a constraint is an edge against the same edge turned round.
fn opposite(k: Constraint) -> bool
    requires { (k.toA < 32) × (k.toB < 32) }
    ensures { result ≡ opposed k }
{
    k.fromA == 1 << k.toB && k.fromB == 1 << k.toA && k.toA != k.toB
}

// Those go from the open constraints: every order has one of their two sides, and pruning adds nothing by them. The search goes on without them.
fn lighter(left: &mut [u32; 128], words: &[u32], n: u16)
    requires { Fit left.old n × Given words.now n }
    ensures { Lighter words.now left.old left.new }
{
    let mut i: usize = 0;
    loop {
        let j = crate::next_open(left, i, n);
        if j >= n as usize {
            return;
        }
        let k = crate::constraint_at(words, j);
        if opposite(k) {
            crate::drop_at(left, j);
        }
        i = j + 1;
    }
}

// The first order that respects closed row words without a cycle and one side of each of the first n constraints, with zeros behind it; or that there is none.
pub fn first_closed(rows: [u32; 32], words: &[u32], n: u16, t: usize) -> Option<[u8; 32]>
    requires { Asked t words.now n rows × PartialOrder rows }
    ensures { Answered t words.now n rows result }
{
    let mut left = [0; 128];
    all_open(n, &mut left);
    let mut d = rows;
    let stuck = crate::prune(&mut d, &mut left, words, n);
    if stuck {
        return None;
    }
    lighter(&mut left, words, n);
    let set = numbers(t as u32);
    if crate::next_open(&left, 0, n) >= n as usize {
        return Some(lowest_first(d, set, t));
    }
    let sel = crate::walk(d, &left, words, n)?;
    Some(fill(d, left, sel, set, words, n, t))
}
