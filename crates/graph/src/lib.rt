// Directed graphs on 32 nodes, as 32 row words: bit v of word u stands for the edge from u to v. They are taken and returned by value, but for `take`, which changes them in place.
// `Closed words' are those of `reach`: bit v of word u stands for a path of one or more edges from u to v.
#![tactic(auto)]

ghost use Rattle.std.specs.Prelude.{◌≡◌, ℕ, ◌<◌, ◌≤◌, List};
ghost use Rattle.model.specs.Polygraph.{with_side, through, reach, closed_off};
ghost use Rattle.model.specs.RowWords.{Tidy, «cyclic», side_in};
ghost use Rattle.graph.specs.Bodies.{pointed, absorbed, extended_row};
ghost use Rattle.graph.specs.Leaving.{LeavesBelow};

pub mod mask;

pub use mask::{has, members, with};

// A side of a constraint: an edge from each node of the set `from` to `to`.
#[derive(Clone, Copy)]
pub struct Side {
    pub from: u32,
    pub to: u32,
}

// Row u, with an edge to `to` where u is in the set `from`.
fn point(from: u32, to: u32, u: u32, row: u32) -> u32
    requires { (u < 32) × (to < 32) }
    ensures { result ≡ pointed from to u row }
{
    if has(from, u) { with(row, to) } else { row }
}

// The graph with an edge to `to` from each node of the set `from`.
pub fn add_side(rows: [u32; 32], from: u32, to: u32) -> [u32; 32]
    requires { to < 32 }
    ensures { result ≡ with_side rows from to }
{
    let mut out = rows;
    for (u, row) in out.iter_mut().enumerate() {
        *row = point(from, to, u as u32, *row);
    }
    out
}

// A row with all of the row `via` in it, where it has node k.
fn absorb(via: u32, k: u32, row: u32) -> u32
    requires { k < 32 }
    ensures { result ≡ absorbed via k row }
{
    if has(row, k) { row | via } else { row }
}

// One round of the closure: an edge from u to v wherever the path u, k, v is there.
fn stage(k: usize, rows: [u32; 32]) -> [u32; 32]
    requires { k < 32 }
    ensures { result ≡ through rows k }
{
    let via = rows[k];
    let mut out = rows;
    for row in out.iter_mut() {
        *row = absorb(via, k as u32, *row);
    }
    out
}

// Below which number all nodes are that an edge leaves.
fn top(rows: [u32; 32]) -> usize
    ensures { (result ≤ 32) × LeavesBelow rows result }
{
    for u in (0..32).rev() {
        if rows[u] != 0 {
            return u + 1;
        }
    }
    0
}

// The closed words of the graph. Rounds through nodes that no edge leaves change nothing.
pub fn closure(rows: [u32; 32]) -> [u32; 32]
    ensures { result ≡ reach rows }
{
    let n = top(rows);
    let mut out = rows;
    for k in 0..n {
        // in two steps: a call's result that goes straight into an array that is there gets no generated proof
        let next = stage(k, out);
        out = next;
    }
    out
}

// Whether some node of the set `from` is `to` itself, or is reached from it.
pub fn closed_off(closed: &[u32; 32], from: u32, to: u32) -> bool
    requires { to < 32 }
    ensures { (g : List ℕ) → closed.now ≡ reach g → result ≡ closed_off g from to }
{
    let row = closed[to as usize];
    from & with(row, to) != 0
}

// Row u of closed words, with the set `add`, where u is in the set `from` or leads to it.
fn extend_row(from: u32, add: u32, u: u32, row: u32) -> u32
    requires { u < 32 }
    ensures { result ≡ extended_row from add u row }
{
    if from & with(row, u) != 0 {
        row | add
    } else {
        row
    }
}

// The closed words of a graph with an edge to `to` from each node of the set `from`, in place of those before.
pub fn take(rows: &mut [u32; 32], from: u32, to: u32)
    requires { to < 32 }
    ensures { (g : List ℕ) → rows.old ≡ reach g → Tidy g → rows.new ≡ reach (with_side g from to) }
{
    let row = rows[to as usize];
    let add = with(row, to);
    for (u, row) in rows.iter_mut().enumerate() {
        *row = extend_row(from, add, u as u32, *row);
    }
}

// The same by value, as document 01 names row words: taken and returned.
pub fn extend(closed: [u32; 32], from: u32, to: u32) -> [u32; 32]
    requires { to < 32 }
    ensures { (g : List ℕ) → closed ≡ reach g → Tidy g → result ≡ reach (with_side g from to) }
{
    let mut out = closed;
    take(&mut out, from, to);
    out
}

// Whether the rows have every edge of a side.
pub fn side_held(rows: &[u32; 32], from: u32, to: u32) -> bool
    requires { to < 32 }
    ensures { result ≡ side_in rows.now from to }
{
    for s in members(from) {
        if !has(rows[s as usize], to) {
            return false;
        }
    }
    true
}

// Whether a graph has a cycle, from its closed words.
pub fn cyclic(closed: [u32; 32]) -> bool
    ensures { (g : List ℕ) → closed ≡ reach g → result ≡ «cyclic» g }
{
    for (u, row) in closed.iter().enumerate() {
        if has(*row, u as u32) {
            return true;
        }
    }
    false
}
