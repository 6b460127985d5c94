// For Order, Table and Bills: the test of the stage; and the table of an order.
ghost use Rattle.std.specs.Prelude.{◌≡◌, ◌≤◌, T, length};
ghost use Rattle.model.specs.History.{is_order};
ghost use Rattle.model.specs.Log.{transactions_in, history_of};
ghost use Rattle.model.specs.Lent.{written_table};
ghost use Rattle.refusals.specs.Numbers.{number_of};
ghost use Rattle.answers.specs.Stages.{refused_by};

use crate::Stage;
use logs::Log;
use refusals::Refusal;

// What refuses by the stage, and by the places that are needed and there.
#[tactic(auto, unfolding(crate::specs::Stages::refused_by))]
pub fn test_stage(stage: Stage, needed: usize, places: usize) -> Result<(), Refusal>
    ensures { number_of result ≡ refused_by stage needed places }
{
    match stage {
        Stage::Fresh | Stage::Loaded => Err(Refusal::NotDecided),
        Stage::NoOrder => Err(Refusal::DecidedWithoutOrder),
        Stage::Ordered if places < needed => Err(Refusal::TooFewPlaces),
        Stage::Ordered => Ok(()),
    }
}

// The table which an order leaves, from a starting one, in the first 32 places.
pub fn write_table(log: Log<'_>, starting: [u16; 32], order: &[u8], out: &mut [u16])
    requires { T (is_order (transactions_in log.bytes.now) order.now) × (32 ≤ length out.old) }
    ensures { out.new ≡ written_table (history_of log.entry.bytes.now) starting order.now out.old }
{
    let values = replay::tables::table(log, starting, order);
    out[..32].copy_from_slice(&values);
}
