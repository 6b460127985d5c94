// Encode and Decide for callers that have no list of constraints, and a planned polygraph as words for those that have no case either: each function here but `pack`
// makes a list of its own and lends it, so that its callers, who pass numbers and slices of numbers, lend no list.
#![tactic(auto)]

ghost use Rattle.std.specs.Prelude.{◌≡◌, ℕ, ◌≤◌, ◌*◌, length, replicate};
ghost use Rattle.model.specs.History.{History};
ghost use Rattle.model.specs.Lent.{no_constraint};
ghost use Rattle.encoding.specs.Writing.{Planned};
ghost use Rattle.checker.specs.Encodings.{encode_answer, encode_list, encode_rows};
ghost use Rattle.checker.specs.Decisions.{deciding};
ghost use Rattle.lender.specs.Packing.{packed};
ghost use Rattle.lender.specs.Sending.{PlanFor, Sent};

use checker::{Case, Decision, Encoding};
use listing::{PLACES, WORDS};
use model::Constraint;
use pruning::Pruned;

// Four zeros, which each place of the list holds before the call.
const NOTHING: Constraint = Constraint {
    fromA: 0,
    toA: 0,
    fromB: 0,
    toB: 0,
};

// The first n constraints of a list, four words each.
pub fn pack<'a, 'b>(list: &'a mut [Constraint], n: usize, out: &'b mut [u32])
    requires { (n ≤ length list.old) × (4 * n ≤ length out.old) }
    ensures { (list.new ≡ list.old) × (out.new ≡ packed n list.old out.old) }
{
    for (i, c) in list[..n].iter().enumerate() {
        search::put_constraint(out, i, *c);
    }
}

// Encode on a list of 4,096 places, which are always enough; then the constraints left go out as four words each.
pub fn encode<'a, 'b>(
    c: Case,
    encoding: u8,
    pruning: u8,
    rows: &'a mut [u32],
    out: &'b mut [u32],
) -> Encoding
    requires { 16384 ≤ length out.old }
    ensures { (result ≡ encode_answer c encoding pruning 4096 (length rows.old))
        × (rows.new ≡ encode_rows c encoding pruning 4096 rows.old)
        × (out.new ≡ packed result.left (encode_list c encoding pruning (replicate 4096 no_constraint) (length rows.old)) out.old) }
{
    let mut list = [NOTHING; 4096];
    let e = c.encode(encoding, pruning, &mut list, rows);
    pack(&mut list, e.left, out);
    e
}

// A polygraph that was planned, written to a list of 4,096 places: the known edges as pruning leaves them and the count left; then the constraints left
// go out as four words each.
pub fn written<'a, 'b>(
    tables: &'a [u32; WORDS],
    chosen: &'a [u16; PLACES],
    rows: [u32; 32],
    n: u16,
    pruning: u8,
    out: &'b mut [u32],
) -> Pruned
    requires { PlanFor tables.now chosen.now rows n × (16384 ≤ length out.old) }
    ensures { (h : History) (e : ℕ) → Planned h e tables.now chosen.now rows n → Sent h e pruning result out.old out.new }
{
    let mut list = [NOTHING; 4096];
    let r = encoding::write(tables, chosen, rows, n, pruning, &mut list);
    pack(&mut list, usize::from(r.left), out);
    r
}

// Decide on a list of 4,096 places.
pub fn decide(c: Case, encoding: u8, pruning: u8) -> Decision
    ensures { result ≡ deciding c encoding pruning 4096 }
{
    let mut list = [NOTHING; 4096];
    c.decide(encoding, pruning, &mut list)
}
