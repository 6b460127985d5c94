// What Order, Table and Bills write, and what refuses them: 23, 24, 25.
ghost use Rattle.std.specs.Prelude.{◌≡◌, length};
ghost use Rattle.refusals.specs.Numbers.{number_of};
ghost use Rattle.checker.specs.Results.{order_refused, order_left, table_refused, table_left, bills_refused, bills_left};

use crate::Case;
use crate::held::{stage_of, window};
use answers::Stage;
use answers::results::test_stage;
use refusals::Refusal;
use wear::Bill;

// What refuses Order, for a list of so many places.
fn test_order(c: &Case, places: usize) -> Result<(), Refusal>
    ensures { number_of result ≡ order_refused c.now places }
{
    let stage = stage_of(c);
    if stage == Stage::Fresh {
        return Err(Refusal::NotDecided);
    }
    let n = window(c).log.transactions();
    test_stage(stage, n, places)
}

// The order of a case that is decided with one.
pub(crate) fn write_order(c: &Case, out: &mut [u8]) -> Result<(), Refusal>
    ensures number { number_of result ≡ order_refused c.now (length out.old) }
    ensures list { out.new ≡ order_left c.now out.old }
{
    test_order(c, out.len())?;
    let n = window(c).log.transactions();
    out[..n].copy_from_slice(&c.order[..n]);
    Ok(())
}

// The table of a case that is decided with an order.
pub(crate) fn write_table(c: &Case, out: &mut [u16]) -> Result<(), Refusal>
    ensures number { number_of result ≡ table_refused c.now (length out.old) }
    ensures list { out.new ≡ table_left c.now out.old }
{
    test_stage(stage_of(c), 32, out.len())?;
    let log = window(c).log;
    let n = log.transactions();
    answers::results::write_table(log, c.starting, &c.order[..n], out);
    Ok(())
}

// The sixteen bills of a case that is decided with an order.
pub(crate) fn write_bills(c: &Case, list: &mut [Bill]) -> Result<(), Refusal>
    ensures number { number_of result ≡ bills_refused c.now (length list.old) }
    ensures list { list.new ≡ bills_left c.now list.old }
{
    test_stage(stage_of(c), 16, list.len())?;
    let log = window(c).log;
    let n = log.transactions();
    let bills = billing::bills(log, &c.order[..n], c.starting);
    billing::put(bills, 16, list);
    Ok(())
}
