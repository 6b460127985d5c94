// Load's tests of the contents, entry by entry: 4 and 5, and the sum of the counts for 6.
ghost use Rattle.std.specs.Prelude.{◌≡◌, ◌+◌, ◌*◌, ◌≤◌, length, IfOk};
ghost use Rattle.refusals.specs.Numbers.{number_of};
ghost use Rattle.model.specs.Log.{counts_before, entry_number, first_number};
ghost use Rattle.logs.specs.Tests.{entry_by};

use crate::view::{Entry, LogView};
use refusals::Refusal;

// An entry, where the counts before it sum to `sum`: 4, 5.
#[tactic(auto, unfolding(crate::specs::Tests::entry_by))]
fn test_entry(e: Entry, sum: usize) -> Result<(), Refusal>
    ensures { number_of result ≡ entry_by e sum }
{
    if e.cabinet > 15 {
        return Err(Refusal::NoSuchCabinet);
    }
    if usize::from(e.start) != sum {
        return Err(Refusal::WrongStart);
    }
    Ok(())
}

// The first n entries: the sum of their counts.
pub(crate) fn test(log: &[u8], n: usize) -> Result<usize, Refusal>
    requires { (n ≤ 32) × (4 + 4 * n ≤ length log.now) }
    ensures number { number_of result ≡ first_number (entry_number log.now) n }
    ensures sum { IfOk result (λ s. s ≡ counts_before log.now n) }
{
    let mut sum = 0;
    for t in 0..n {
        let e = LogView { log, t }.entry();
        test_entry(e, sum)?;
        sum += usize::from(e.count);
    }
    Ok(sum)
}
