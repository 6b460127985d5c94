// Pruning on candidates' numbers, before any list is written: passes in list order until one drops none, and those that stay move to the front.
// The row words are closed, and are kept so; they may have a cycle.
ghost use Rattle.std.specs.Prelude.{◌≡◌, List, ℕ, ◌≤◌};
ghost use Rattle.model.specs.Polygraph.{reach};
ghost use Rattle.model.specs.RowWords.{Tidy};
ghost use Rattle.listing.specs.Candidates.{items_by};
ghost use Rattle.pruning.specs.Passes.{LowTargets, pruned};
ghost use Rattle.pruning.specs.Numbers.{Resolves, PrunedTo};

use listing::{PLACES, WORDS};
use model::Constraint;

// Whether a pass drops a constraint. Then its other side is added, if it is not there yet.
fn resolve(rows: &mut [u32; 32], c: Constraint) -> bool
    requires { LowTargets c }
    ensures { (g : List ℕ) → rows.old ≡ reach g → Tidy g → Resolves g c result rows.new }
{
    if let Some(side) = crate::judge(rows, c) {
        if !graph::side_held(rows, side.from, side.to) {
            graph::take(rows, side.from, side.to);
        }
        return true;
    }
    false
}

// One pass over the first n numbers; how many stay.
fn pass(rows: &mut [u32; 32], tables: &[u32; WORDS], chosen: &mut [u16; PLACES], n: u16) -> u16
    requires { n ≤ 4096 }
    ensures { (result ≤ n) × ((g : List ℕ) → rows.old ≡ reach g → Tidy g
        → PrunedTo (Rattle.model.specs.Polygraph.pass g (items_by tables.now chosen.old n)) tables.now chosen.new result rows.new) }
{
    let mut kept: u16 = 0;
    for i in 0..n as usize {
        let c = chosen[i];
        let drops = resolve(rows, listing::nth(tables, chosen, i));
        chosen[kept as usize] = c;
        kept += if drops { 0 } else { 1 };
    }
    kept
}

// Passes over the first n numbers until one drops none; how many stay.
pub fn prune(rows: &mut [u32; 32], tables: &[u32; WORDS], chosen: &mut [u16; PLACES], n: u16) -> u16
    requires { n ≤ 4096 }
    ensures { (result ≤ n) × ((g : List ℕ) → rows.old ≡ reach g → Tidy g
        → PrunedTo (pruned (record { known = g; choices = items_by tables.now chosen.old n })) tables.now chosen.new result rows.new) }
{
    let mut left = n;
    loop {
        let kept = pass(rows, tables, chosen, left);
        if kept == left {
            return left;
        }
        left = kept;
    }
}
