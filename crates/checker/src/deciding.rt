// The parts of Decide: what is found out before anything is written, the case with the answer stored, and the answer.
ghost use Rattle.std.specs.Prelude.{◌≡◌, true};
ghost use Rattle.refusals.specs.Numbers.{code};
ghost use Rattle.listing.specs.Choosing.{Space};
ghost use Rattle.finding.specs.Finding.{Finds};
ghost use Rattle.checker.specs.Cases.{history_in};
ghost use Rattle.checker.specs.Decisions.{decide_refusal, refused_decision};
ghost use Rattle.checker.specs.Preparing.{storing, answering};

use crate::held::loaded_window;
use crate::{Case, Decision, Stage, Verdict};
use finding::{Outcome, decided};
use listing::{PLACES, WORDS};
use refusals::Refusal;

// What is found out for a list of so many places: 22, then what the log and its times give. The constraints left stand in the tables and the numbers.
pub(crate) fn prepare(
    c: &Case,
    encoding: u8,
    pruning: u8,
    places: usize,
    tables: &mut [u32; WORDS],
    chosen: &mut [u16; PLACES],
) -> Result<Outcome, Refusal>
    requires { Space tables.old chosen.old }
    ensures { Finds (decide_refusal c.now encoding pruning places) (history_in c.now) encoding pruning places true tables.new chosen.new result }
{
    let w = loaded_window(c)?;
    decided(w, encoding, pruning, places, true, tables, chosen)
}

// The case with the answer stored: the first legal order as 32 numbers, or none.
pub(crate) fn stored(c: Case, answer: Option<[u8; 32]>) -> Case
    ensures { result ≡ storing c answer }
{
    match answer {
        Some(order) => Case {
            stage: Stage::Ordered,
            order,
            ..c
        },
        None => Case {
            stage: Stage::NoOrder,
            order: [0; 32],
            ..c
        },
    }
}

// The answer beside that case, with so many constraints left.
pub(crate) fn answered(c: Case, answer: Option<[u8; 32]>, left: u16) -> Decision
    ensures { result ≡ answering c answer left }
{
    match answer {
        Some(order) => Decision {
            case: c,
            verdict: Ok(Verdict::Order),
            order,
            left: usize::from(left),
        },
        None => Decision {
            case: c,
            verdict: Ok(Verdict::NoOrder),
            order: [0; 32],
            left: usize::from(left),
        },
    }
}

// The refusal beside the case as it was.
pub(crate) fn refused(c: Case, refusal: Refusal) -> Decision
    ensures { result ≡ refused_decision c (code refusal) }
{
    Decision {
        case: c,
        verdict: Err(refusal),
        order: [0; 32],
        left: 0,
    }
}
