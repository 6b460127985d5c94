// The first legal order of a log with times, from its bytes, the constraints that pruning 0 or 1 leaves, as candidates' numbers, and the closed words of its known
// edges. Nothing here looks at the times: the words and what pruning left have them.
// The search prunes by itself, and the first legal order is the same in all six settings.
#![tactic(auto)]

ghost use Rattle.std.specs.Prelude.{◌≡◌, ◌≤◌, ◌*◌, length};
ghost use Rattle.listing.specs.Candidates.{items_by};
ghost use Rattle.search.specs.Steps.{PartialOrder};
ghost use Rattle.decision.specs.Words.{WordsOf};
ghost use Rattle.decision.specs.Answer.{Settled, First};

use listing::{PLACES, WORDS};
use logs::Log;

// How many constraints are few, and some; and the words that few, some and all take, four each.
const FEW: u16 = 64;

const SOME: u16 = 512;

const FEW_WORDS: usize = 256;

const SOME_WORDS: usize = 2048;

const ALL_WORDS: usize = 16384;

// The constraints of the first n numbers as words, four each.
fn words<'a, 'b>(tables: &'a [u32; WORDS], chosen: &'a [u16; PLACES], n: u16, out: &'b mut [u32])
    requires { (n ≤ 4096) × (4 * n ≤ length out.old) }
    ensures { WordsOf (items_by tables.now chosen.now n) n (length out.old) out.new }
{
    for i in 0..n as usize {
        search::put_constraint(out, i, listing::nth(tables, chosen, i));
    }
}

// The first legal order by constraints that have room in N words: a room for 4,096 is more to clear than the search takes where few are left.
fn first_in<'a, 'b, const N: usize>(
    log: Log<'a>,
    tables: &'b [u32; WORDS],
    chosen: &'b [u16; PLACES],
    n: u16,
    closed: [u32; 32],
) -> Option<[u8; 32]>
    requires { (4 * n ≤ N) × (N ≤ 16384) × Settled log.bytes.now tables.now chosen.now n closed × PartialOrder closed }
    ensures { First log.entry.bytes.now tables.now chosen.now n closed result }
{
    let t = log.transactions();
    let mut out = [0u32; N];
    words(tables, chosen, n, &mut out);
    search::order::first_closed(closed, &out, n, t)
}

// The first legal order of a log whose constraints the first n numbers are, beside the closed words of its known edges in the same setting; 32 numbers, 0 behind
// the order; or that there is none. Where the known edges have a cycle there is none, and nothing is put into words.
pub fn first_settled<'a, 'b>(
    log: Log<'a>,
    tables: &'b [u32; WORDS],
    chosen: &'b [u16; PLACES],
    n: u16,
    closed: [u32; 32],
) -> Option<[u8; 32]>
    requires { Settled log.bytes.now tables.now chosen.now n closed }
    ensures { First log.entry.bytes.now tables.now chosen.now n closed result }
{
    if graph::cyclic(closed) {
        return None;
    }
    if n <= FEW {
        return first_in::<FEW_WORDS>(log, tables, chosen, n, closed);
    }
    if n <= SOME {
        return first_in::<SOME_WORDS>(log, tables, chosen, n, closed);
    }
    first_in::<ALL_WORDS>(log, tables, chosen, n, closed)
}
