// A given order held against a log that Load takes with its times: whether it is legal, and the table that it leaves.
// `orders` tests a list as an order and finds its places, `cabinets` asks for each cabinet's own order, `clock` for that of the office clock, `tables` runs the
// transactions.
#![tactic(auto)]

ghost use Rattle.std.specs.Prelude.{◌≡◌, T};
ghost use Rattle.model.specs.History.{is_order, legal};
ghost use Rattle.model.specs.Log.{transactions_in};
ghost use Rattle.model.specs.Times.{times, timed_history};

use logs::times::TimedLog;

mod cabinets;
mod clock;
pub mod orders;
pub mod tables;

// Whether an order of the log's transactions is legal.
pub fn is_legal(log: TimedLog<'_>, order: &[u8]) -> bool
    requires { T (is_order (transactions_in log.log.bytes.now) order.now) }
    ensures { result ≡ legal (timed_history log.entry.log.bytes.now (times log.entry.clock.begin.now log.entry.clock.end.now log.entry.clock.drift)) order.now }
{
    let places = orders::places(order);
    cabinets::keeps(log.log, places)
        && clock::keeps(log.clock, places)
        && tables::explains(log.log, order)
}
