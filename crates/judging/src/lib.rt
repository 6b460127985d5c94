// What Judge does with a log: Load beside 32 zeros and no times, Decide with encoding 2 and pruning 1, Order and Table; and the text of what they give, in a buffer that is long
// enough. The keys that are written come from the log.
#![tactic(auto)]

ghost use Rattle.std.specs.Prelude.{◌≡◌, ◌≤◌, length};
ghost use Rattle.model.specs.Log.{history_of};
ghost use Rattle.model.specs.Search.{first_legal};
ghost use Rattle.model.specs.Window.{from_zeros};
ghost use Rattle.checker.specs.Cases.{loaded_case};
ghost use Rattle.checker.specs.Decisions.{deciding};
ghost use Rattle.report.specs.Text.{Wrote, Printed};
ghost use Rattle.report.specs.Judge.{decided_text, judge_text};
ghost use Rattle.judging.specs.Outcome.{OrderedBy};

use checker::{Case, Decision, Verdict};
use logs::Log;

// The text for a case that is decided with an order: what Order and Table write, and the keys that are written.
fn ordered(log: Log<'_>, c: Case, out: &mut [u8]) -> usize
    requires { OrderedBy log.bytes.now c × (1024 ≤ length out.old) }
    ensures { Wrote out.old 0 (decided_text (history_of log.entry.bytes.now) (first_legal (history_of log.entry.bytes.now))) out.new result }
{
    let mut order = [0u8; 32];
    let o = c.order(&mut order);
    let mut table = [0u16; 32];
    let t = c.table(&mut table);
    let n = log.transactions();
    let writers = polygraph::writers(log);
    report::found_text(order, n, writers, table, out)
}

// The text for a decision of a log that Load took. Decide never refuses here: the 4,096 places that are lent hold the constraints of every log that Load takes.
fn decided(log: Log<'_>, d: Decision, out: &mut [u8]) -> usize
    requires { (d ≡ deciding (loaded_case (from_zeros log.bytes.now)) 2 1 4096) × (1024 ≤ length out.old) }
    ensures { Wrote out.old 0 (judge_text log.entry.bytes.now) out.new result }
{
    match d.verdict {
        Ok(Verdict::Order) => ordered(log, d.case, out),
        Ok(Verdict::NoOrder) => report::none_text(out),
        Err(_) => unreachable!(),
    }
}

// The text that Judge prints for a log.
pub fn judge(log: &[u8], out: &mut [u8; 1024]) -> usize
    ensures { Printed (judge_text log.now) out.old out.new result }
{
    let fresh = Case::fresh();
    let a = fresh.load(log, &[0; 32], &[], &[], 0);
    match a.reply {
        Err(refusal) => report::refused_text(refusal.number(), out),
        Ok(()) => {
            let d = lender::decide(a.case, 2, 1);
            decided(Log::of(log), d, out)
        }
    }
}
