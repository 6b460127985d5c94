// The judgement on a proposed order over a log that Load takes with its times: 13, or whether it is legal.
ghost use Rattle.std.specs.Prelude.{◌≡◌};
ghost use Rattle.model.specs.History.{legal};
ghost use Rattle.model.specs.Log.{transactions_in};
ghost use Rattle.model.specs.Times.{times, timed_history};
ghost use Rattle.answers.specs.Numbers.{judgement_of};
ghost use Rattle.answers.specs.Stages.{order_refusal};

use crate::Judgement;
use logs::times::TimedLog;
use refusals::Refusal;
use replay::is_legal;
use replay::orders::is_order;

// The judgement over a log that Load takes with its times.
pub fn judged(window: TimedLog<'_>, proposed: &[u8]) -> Result<Judgement, Refusal>
    ensures { result ≡ judgement_of (order_refusal (transactions_in window.entry.log.bytes.now) proposed.now) (legal (timed_history window.entry.log.bytes.now (times window.entry.clock.begin.now window.entry.clock.end.now window.entry.clock.drift)) proposed.now) }
{
    let n = window.log.transactions();
    if !is_order(n as u32, proposed) {
        return Err(Refusal::NotAnOrder);
    }
    if is_legal(window, proposed) {
        Ok(Judgement::Legal)
    } else {
        Ok(Judgement::Illegal)
    }
}
