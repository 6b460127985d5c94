// Pruning over the list of constraints that the caller lends: scanned and compacted in place, in passes until one drops none.
// The known edges travel by value, and beside them their closed rows, kept closed as edges are added.
#![tactic(auto)]

ghost use Rattle.std.specs.Prelude.{◌≡◌, List, ◌++◌, ℕ, ◌-◌, ◌<◌, ◌≤◌, IfSome, length, take, drop, replicate};
ghost use Rattle.model.specs.Polygraph.{reach};
ghost use Rattle.model.specs.Lent.{no_constraint};
ghost use Rattle.pruning.specs.Passes.{LowTargets, Aims, resolution_of, first_place, next_place, Skimmed, Pruning};

use graph::Side;
use model::Constraint;

pub mod numbers;

// Where a pass stands: at the constraint `at` of those below `end`, with `kept` at the front. No pass is `on` once one has dropped none; what it kept
// is read then too, so this is no Option.
// This and `Hit` are public for what `finding` says of their counts.
#[derive(Clone, Copy)]
pub struct Place {
    pub at: u16,
    pub kept: u16,
    pub end: u16,
    pub on: bool,
}

// The next constraint that is dropped, with the side that is added, or the end of the pass, with none.
#[derive(Clone, Copy)]
pub struct Hit {
    pub at: u16,
    pub kept: u16,
    pub side: Option<Side>,
}

// The known edges as pruning leaves them, and the count of constraints left.
#[derive(Clone, Copy)]
pub struct Pruned {
    pub rows: [u32; 32],
    pub left: u16,
}

// What a pass does with a constraint, by the closed rows so far: where a side is closed off it drops it, and adds the other one.
fn judge(closed: &[u32; 32], c: Constraint) -> Option<Side>
    requires { LowTargets c }
    ensures low { IfSome result (λ s. s.to < 32) }
    ensures is { (g : List ℕ) → closed.now ≡ reach g → result ≡ resolution_of g c }
{
    let a = graph::closed_off(closed, c.fromA, c.toA);
    let b = graph::closed_off(closed, c.fromB, c.toB);
    // one test for both: which side is closed off is hard to guess
    if !(a | b) {
        return None;
    }
    if a {
        return Some(Side {
            from: c.fromB,
            to: c.toB,
        });
    }
    Some(Side {
        from: c.fromA,
        to: c.toA,
    })
}

// Constraints that stay are moved to the front, up to the next that is dropped.
fn skim<'a, 'b>(
    closed: &'a [u32; 32],
    list: &'b mut [Constraint],
    at: u16,
    kept: u16,
    end: u16,
) -> Hit
    requires { (kept ≤ at) × (at ≤ end) × (end ≤ length list.old) × Aims list.old end }
    ensures { (g : List ℕ) → closed.now ≡ reach g → Skimmed g list.old at kept end result list.new }
{
    let mut j = kept;
    for i in at..end {
        let c = list[i as usize];
        if let Some(side) = judge(closed, c) {
            return Hit {
                at: i,
                kept: j,
                side: Some(side),
            };
        }
        list[j as usize] = c;
        j += 1;
    }
    Hit {
        at: end,
        kept: j,
        side: None,
    }
}

// Where the pass goes on after a hit; at its end the next one starts, over those left, unless it dropped none.
fn after(p: Place, h: Hit) -> Place
    requires { h.at ≤ p.end }
    ensures { result ≡ next_place p h }
{
    if h.at < p.end {
        return Place {
            at: h.at + 1,
            kept: h.kept,
            end: p.end,
            on: true,
        };
    }
    if h.kept < p.end {
        return Place {
            at: 0,
            kept: 0,
            end: h.kept,
            on: true,
        };
    }
    Place {
        at: h.at,
        kept: h.kept,
        end: p.end,
        on: false,
    }
}

// Where pruning of n constraints starts; with any number but 1 it is not done: all are kept, and no pass is on.
fn begin(n: u16, pruning: u8) -> Place
    ensures { result ≡ first_place n pruning }
{
    if pruning == 1 {
        Place {
            at: 0,
            kept: 0,
            end: n,
            on: true,
        }
    } else {
        Place {
            at: n,
            kept: n,
            end: n,
            on: false,
        }
    }
}

// With pruning 1, passes over the first n constraints, until one drops none: those left stand first, in their order.
pub fn prune(rows: [u32; 32], list: &mut [Constraint], n: u16, pruning: u8) -> Pruned
    requires { (n ≤ length list.old) × Aims list.old n }
    ensures { Pruning rows list.old n pruning result list.new }
{
    let mut known = rows;
    let mut closed = graph::closure(rows);
    let mut p = begin(n, pruning);
    while p.on {
        let h = skim(&closed, list, p.at, p.kept, p.end);
        p = after(p, h);
        if let Some(side) = h.side {
            // in two steps: a call's result that goes straight into an array that is there gets no generated proof
            let next = graph::add_side(known, side.from, side.to);
            known = next;
            let grown = graph::extend(closed, side.from, side.to);
            closed = grown;
        }
    }
    Pruned {
        rows: known,
        left: p.kept,
    }
}

// Four zeros in each place from `from` on, below `end`.
pub fn clear(list: &mut [Constraint], from: u16, end: u16)
    requires { (from ≤ end) × (end ≤ length list.old) }
    ensures { list.new ≡ take from list.old ++ (replicate (end - from) no_constraint ++ drop end list.old) }
{
    let zeros = Constraint {
        fromA: 0,
        toA: 0,
        fromB: 0,
        toB: 0,
    };
    list[from as usize..end as usize].fill(zeros);
}
