// Check's judgement on a proposed order: 22, 13, or whether it is legal.
ghost use Rattle.std.specs.Prelude.{◌≡◌};
ghost use Rattle.answers.specs.Numbers.{judgement_of};
ghost use Rattle.checker.specs.Calls.{check_refusal, check_yes};

use crate::held::loaded_window;
use crate::{Case, Judgement};
use refusals::Refusal;

// The judgement over a case.
pub(crate) fn judged(c: &Case, proposed: &[u8]) -> Result<Judgement, Refusal>
    ensures { result ≡ judgement_of (check_refusal c.now proposed.now) (check_yes c.now proposed.now) }
{
    let w = loaded_window(c)?;
    answers::judging::judged(w, proposed)
}
