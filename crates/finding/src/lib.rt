// What Decide finds over the bytes of a log that Load takes with its times, without a list of constraints: one way for the call on the case and for the functions for C.
#![tactic(auto)]

ghost use Rattle.std.specs.Prelude.{◌≡◌, true, ◌⊎◌, List, ℕ, ◌≤◌};
ghost use Rattle.model.specs.Times.{times, timed_history};
ghost use Rattle.model.specs.Polygraph.{reach};
ghost use Rattle.model.specs.RowWords.{Tidy};
ghost use Rattle.setting.specs.Encodings.{pruning_number};
ghost use Rattle.listing.specs.Candidates.{items_by};
ghost use Rattle.listing.specs.Choosing.{Space};
ghost use Rattle.pruning.specs.Numbers.{PrunedTo};
ghost use Rattle.pruning.specs.Passes.{settled};
ghost use Rattle.finding.specs.Settings.{polygraph_refusal};
ghost use Rattle.finding.specs.Finding.{Finds};

use answers::settings::{test_places, test_setting};
use listing::{PLACES, WORDS};
use logs::times::TimedLog;
use refusals::Refusal;

// The first legal order as 32 numbers, if there is one; the count of constraints before pruning and, where a list is to be written, of those left.
#[derive(Clone, Copy)]
pub struct Outcome {
    pub order: Option<[u8; 32]>,
    pub count: u16,
    pub left: u16,
}

// The candidates that pruning leaves of the first n, or all of them; how many. The row words are closed, and stay so.
fn settle(
    rows: &mut [u32; 32],
    tables: &[u32; WORDS],
    chosen: &mut [u16; PLACES],
    n: u16,
    pruned: bool,
) -> u16
    requires { n ≤ 4096 }
    ensures { (result ≤ n) × ((g : List ℕ) → rows.old ≡ reach g → Tidy g
        → PrunedTo (settled (pruning_number pruned) (record { known = g; choices = items_by tables.now chosen.old n })) tables.now chosen.new result rows.new) }
{
    if pruned {
        return pruning::numbers::prune(rows, tables, chosen, n);
    }
    n
}

// Whether the search starts from a pruned list. Where the known edges have a cycle there is no order, whatever pruning leaves: it is then done only for a list.
fn pruning_needed(pruned: bool, listed: bool, closed: [u32; 32]) -> bool
    ensures { (listed ≡ true → pruning_number result ≡ pruning_number pruned) × ((pruning_number result ≡ pruning_number pruned) ⊎ (pruning_number result ≡ 0)) }
{
    pruned && (listed || !graph::cyclic(closed))
}

// What Decide finds for a list of so many places, in the setting with document 01's numbers, which it tests (12). The tables and the candidates' numbers are lent: where a list is to be written, the constraints left stand in them.
pub fn decided(
    window: TimedLog<'_>,
    encoding: u8,
    pruning: u8,
    places: usize,
    listed: bool,
    tables: &mut [u32; WORDS],
    chosen: &mut [u16; PLACES],
) -> Result<Outcome, Refusal>
    requires { Space tables.old chosen.old }
    ensures { Finds (polygraph_refusal (timed_history window.entry.log.bytes.now (times window.entry.clock.begin.now window.entry.clock.end.now window.entry.clock.drift)) encoding pruning places 32) (timed_history window.entry.log.bytes.now (times window.entry.clock.begin.now window.entry.clock.end.now window.entry.clock.drift)) encoding pruning places listed tables.new chosen.new result }
{
    let setting = test_setting(encoding, pruning)?;
    let known = encoding::prepare(window, setting.encoding, tables, chosen);
    let count = known.count;
    test_places(count, places, 32)?;
    let mut closed = graph::closure(known.rows);
    let used = pruning_needed(setting.pruned, listed, closed);
    let left = settle(&mut closed, tables, chosen, count, used);
    let order = decision::first_settled(window.log, tables, chosen, left, closed);
    Ok(Outcome { order, count, left })
}
