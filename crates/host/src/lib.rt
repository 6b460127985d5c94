// The checker for callers in C, on numbers and bytes. Each function goes over the log's bytes as the call on the case does, without a case. The strict functions
// and Bills take a begin and an end for each transaction, as bytes, and a drift; the others are for windows without times.
// A slice passes as a pointer and a length. Inside, an answer is a Result: `code` makes the number that C gets, and for Encode, which has no 255, `number_of`.
// include/beaconcrumb.h says what each gives; the contracts say it as equations with the definitions of `codes`, which are made of the calls' own.
#![tactic(auto)]

ghost use Rattle.std.specs.Prelude.{◌≡◌, ℕ, ◌≤◌, T, IfOk, length, take};
ghost use Rattle.refusals.specs.Numbers.{number_of};
ghost use Rattle.model.specs.History.{History, is_order};
ghost use Rattle.model.specs.Log.{transactions_in};
ghost use Rattle.model.specs.Times.{times, no_times};
ghost use Rattle.model.specs.Window.{window, zeros};
ghost use Rattle.encoding.specs.Writing.{Planned};
ghost use Rattle.lender.specs.Sending.{PlanFor};
ghost use Rattle.codes.specs.Images.{seconds_in};
ghost use Rattle.codes.specs.Codes.{room_code, order_of, table_of, ordered_case, sent_code, sent_after};
ghost use Rattle.codes.specs.Codes.{check_window, window_code, window_order, window_table, encode_window, encode_window_after};
ghost use Rattle.codes.specs.Codes.{check_code, decide_code, order_after, table_after, decide_from_code, decide_from_order, decide_from_table, encode_code, encode_after};
ghost use Rattle.codes.specs.Codes.{bills_code, bills_after};
ghost use Rattle.codes.specs.Codes.{lengths_number, check_strict_code, decide_strict_code, decide_strict_order, decide_strict_table, encode_strict_code, encode_strict_after};
ghost use Rattle.host.specs.Answers.{answer_code};

use answers::Judgement;
use answers::judging::judged;
use answers::settings::test_setting;
use answers::windows::load_timed;
use encoding::Known;
use finding::decided;
use listing::{PLACES, WORDS};
use logs::Log;
use logs::times::{TimedLog, Times};
use refusals::{Refusal, number_of};

// The words of 4,096 constraints, four each.
const LIST_WORDS: usize = 16384;

// The code that C gets: 0 for yes, 255 for no, else the refusal's number.
fn code(answer: Result<bool, Refusal>) -> u32
    ensures { result ≡ answer_code answer }
{
    match answer {
        Ok(true) => 0,
        Ok(false) => 255,
        Err(refusal) => u32::from(refusal.number()),
    }
}

// ---- times

// No times.
fn untimed<'a>() -> Times<'a>
    ensures { times result.begin.now result.end.now result.drift ≡ no_times }
{
    Times {
        begin: &[],
        end: &[],
        drift: 0,
    }
}

// Two empty lists are taken, and the log is not looked at; of others the log's refusal comes first, then 37 where they don't both have four bytes for each transaction.
fn test_lengths(log: &[u8], begin: &[u8], end: &[u8]) -> Result<(), Refusal>
    ensures { number_of result ≡ lengths_number log.now begin.now end.now }
{
    if (begin.len() == 0) & (end.len() == 0) {
        return Ok(());
    }
    let bytes = 4 * Log::load(log)?.transactions();
    if (begin.len() == bytes) & (end.len() == bytes) {
        return Ok(());
    }
    Err(Refusal::WrongCountOfTimes)
}

// The seconds that two lists of bytes hold: so many in each.
#[derive(Clone, Copy)]
struct Seconds {
    count: usize,
    begin: [u32; 32],
    end: [u32; 32],
    ghost few: { count ≤ 32 },
}

impl Seconds {
    // Reads them, once their lengths are tested.
    fn read(log: &[u8], begin: &[u8], end: &[u8]) -> Result<Seconds, Refusal>
        ensures number { number_of result ≡ lengths_number log.now begin.now end.now }
        ensures seconds { IfOk result (λ s. (take s.count s.begin ≡ seconds_in begin.now) × (take s.count s.end ≡ seconds_in end.now)) }
    {
        test_lengths(log, begin, end)?;
        Ok(Seconds {
            count: begin.len() / 4,
            begin: images::seconds(begin),
            end: images::seconds(end),
        })
    }

    // They as times, with a drift.
    fn times<'a>(&'a self, drift: u32) -> Times<'a>
        ensures { times result.begin.now result.end.now result.drift ≡ times (take self.now.count self.now.begin) (take self.now.count self.now.end) drift }
    {
        Times {
            begin: &self.begin[..self.count],
            end: &self.end[..self.count],
            drift,
        }
    }
}

// ---- Check

// Whether a proposed order of a log with its times is legal.
fn check(log: &[u8], clock: Times<'_>, order: &[u8]) -> Result<bool, Refusal>
    ensures { answer_code result ≡ check_window (window log.now zeros (times clock.entry.begin.now clock.entry.end.now clock.entry.drift)) order.now }
{
    let window = load_timed(log, clock)?;
    match judged(window, order)? {
        Judgement::Legal => Ok(true),
        Judgement::Illegal => Ok(false),
    }
}

// The same with times as bytes.
fn check_strict(
    log: &[u8],
    begin: &[u8],
    end: &[u8],
    drift: u32,
    order: &[u8],
) -> Result<bool, Refusal>
    ensures { answer_code result ≡ check_strict_code log.now begin.now end.now drift order.now }
{
    let seconds = Seconds::read(log, begin, end)?;
    check(log, seconds.times(drift), order)
}

// Whether a proposed order of a log alone, without times, is legal: 0 legal, 255 not legal, else the refusal's number.
pub fn beaconcrumb_check(log: &[u8], order: &[u8]) -> u32
    ensures { result ≡ check_code log.now order.now }
{
    code(check(log, untimed(), order))
}

// The same of a log and the bytes of its times: 37 behind the log's numbers, where begin and end are neither both empty nor both of four bytes for each transaction, and
// then 38, as Load.
pub fn beaconcrumb_check_strict(
    log: &[u8],
    begin: &[u8],
    end: &[u8],
    drift: u32,
    order: &[u8],
) -> u32
    ensures { result ≡ check_strict_code log.now begin.now end.now drift order.now }
{
    code(check_strict(log, begin, end, drift, order))
}

// ---- Decide

// The order and the table of a window whose order is found, or 25 and nothing.
fn write(
    held: TimedLog<'_>,
    starting: [u16; 32],
    numbers: [u8; 32],
    order: &mut [u8],
    table: &mut [u8],
) -> Result<(), Refusal>
    requires { T (is_order (transactions_in held.log.bytes.now) (take (transactions_in held.log.bytes.now) numbers)) }
    ensures result { number_of result ≡ room_code (ordered_case (window held.entry.log.bytes.now starting (times held.entry.clock.begin.now held.entry.clock.end.now held.entry.clock.drift)) numbers) (length order.old) (length table.old) }
    ensures order { order.new ≡ order_of (ordered_case (window held.entry.log.bytes.now starting (times held.entry.clock.begin.now held.entry.clock.end.now held.entry.clock.drift)) numbers) order.old (length table.old) }
    ensures table { table.new ≡ table_of (ordered_case (window held.entry.log.bytes.now starting (times held.entry.clock.begin.now held.entry.clock.end.now held.entry.clock.drift)) numbers) (length order.old) table.old }
{
    let n = held.log.transactions();
    if table.len() < 64 {
        return Err(Refusal::TooFewPlaces);
    }
    if order.len() < n {
        return Err(Refusal::TooFewPlaces);
    }
    order[..n].copy_from_slice(&numbers[..n]);
    let values = replay::tables::table(held.log, starting, &numbers[..n]);
    images::put_values(&values, table);
    Ok(())
}

// Whether a log that starts from these values, with its times, has an order: then the order and the table go out as bytes.
fn decide(
    log: &[u8],
    starting: [u16; 32],
    clock: Times<'_>,
    encoding: u8,
    pruning: u8,
    order: &mut [u8],
    table: &mut [u8],
) -> Result<bool, Refusal>
    ensures result { answer_code result ≡ window_code (window log.now starting (times clock.entry.begin.now clock.entry.end.now clock.entry.drift)) encoding pruning (length order.old) (length table.old) }
    ensures order { order.new ≡ window_order (window log.now starting (times clock.entry.begin.now clock.entry.end.now clock.entry.drift)) encoding pruning order.old (length table.old) }
    ensures table { table.new ≡ window_table (window log.now starting (times clock.entry.begin.now clock.entry.end.now clock.entry.drift)) encoding pruning (length order.old) table.old }
{
    let held = load_timed(log, clock)?;
    let mut tables = [0u32; WORDS];
    let mut chosen = [0u16; PLACES];
    let found = decided(
        held,
        encoding,
        pruning,
        4096,
        false,
        &mut tables,
        &mut chosen,
    )?;
    match found.order {
        None => Ok(false),
        Some(numbers) => {
            write(held, starting, numbers, order, table)?;
            Ok(true)
        }
    }
}

// The same with a start and times as bytes.
fn decide_strict(
    log: &[u8],
    start: &[u8],
    begin: &[u8],
    end: &[u8],
    drift: u32,
    encoding: u8,
    pruning: u8,
    order: &mut [u8],
    table: &mut [u8],
) -> Result<bool, Refusal>
    ensures result { answer_code result ≡ decide_strict_code log.now start.now begin.now end.now drift encoding pruning (length order.old) (length table.old) }
    ensures order { order.new ≡ decide_strict_order log.now start.now begin.now end.now drift encoding pruning order.old (length table.old) }
    ensures table { table.new ≡ decide_strict_table log.now start.now begin.now end.now drift encoding pruning (length order.old) table.old }
{
    if start.len() != 64 {
        return Err(Refusal::NotATable);
    }
    let seconds = Seconds::read(log, begin, end)?;
    let starting = images::values(start);
    decide(
        log,
        starting,
        seconds.times(drift),
        encoding,
        pruning,
        order,
        table,
    )
}

// The order and the table of a log alone, which starts from 32 zeros and has no times, in two lists of bytes: 0; 255 for 'no order'; else the refusal's number.
pub fn beaconcrumb_decide(
    log: &[u8],
    encoding: u8,
    pruning: u8,
    order: &mut [u8],
    table: &mut [u8],
) -> u32
    ensures result { result ≡ decide_code log.now encoding pruning (length order.old) (length table.old) }
    ensures order { order.new ≡ order_after log.now encoding pruning order.old (length table.old) }
    ensures table { table.new ≡ table_after log.now encoding pruning (length order.old) table.old }
{
    code(decide(log, [0; 32], untimed(), encoding, pruning, order, table))
}

// The same of a log, the 64 bytes of the table that it starts from, and the bytes of its times: first of all 36 for a start of any other length, and 37 as for
// Check.
pub fn beaconcrumb_decide_strict(
    log: &[u8],
    start: &[u8],
    begin: &[u8],
    end: &[u8],
    drift: u32,
    encoding: u8,
    pruning: u8,
    order: &mut [u8],
    table: &mut [u8],
) -> u32
    ensures result { result ≡ decide_strict_code log.now start.now begin.now end.now drift encoding pruning (length order.old) (length table.old) }
    ensures order { order.new ≡ decide_strict_order log.now start.now begin.now end.now drift encoding pruning order.old (length table.old) }
    ensures table { table.new ≡ decide_strict_table log.now start.now begin.now end.now drift encoding pruning (length order.old) table.old }
{
    code(decide_strict(
        log, start, begin, end, drift, encoding, pruning, order, table,
    ))
}

// The same without times: two empty lists, and drift 0. So the start is tested and read in one place.
pub fn beaconcrumb_decide_from(
    log: &[u8],
    start: &[u8],
    encoding: u8,
    pruning: u8,
    order: &mut [u8],
    table: &mut [u8],
) -> u32
    ensures result { result ≡ decide_from_code log.now start.now encoding pruning (length order.old) (length table.old) }
    ensures order { order.new ≡ decide_from_order log.now start.now encoding pruning order.old (length table.old) }
    ensures table { table.new ≡ decide_from_table log.now start.now encoding pruning (length order.old) table.old }
{
    beaconcrumb_decide_strict(log, start, &[], &[], 0, encoding, pruning, order, table)
}

// ---- Bills

// The sixteen bills of a log that has an order, in a list of bytes; whether it has one. `decide_strict` finds the order, in a setting of this function's own and in
// buffers that have room for any; so what it refuses is refused here, in its turn, and 25 speaks of the list of bills alone. The table that it writes beside the order
// plays no part.
fn bills(
    log: &[u8],
    start: &[u8],
    begin: &[u8],
    end: &[u8],
    drift: u32,
    out: &mut [u8],
) -> Result<bool, Refusal>
    ensures result { answer_code result ≡ bills_code log.now start.now begin.now end.now drift (length out.old) }
    ensures list { out.new ≡ bills_after log.now start.now begin.now end.now drift out.old }
{
    let mut order = [0u8; 32];
    let mut table = [0u8; 64];
    let ordered = decide_strict(log, start, begin, end, drift, 2, 1, &mut order, &mut table)?;
    if !ordered {
        return Ok(false);
    }
    if out.len() < 192 {
        return Err(Refusal::TooFewPlaces);
    }
    let taken = Log::of(log);
    let n = taken.transactions();
    let values = images::values(start);
    let bills = billing::bills(taken, &order[..n], values);
    images::put_bills(bills, out);
    Ok(true)
}

// What each cabinet pays for the gates that it moves, and how far they travel: sixteen bills of twelve bytes each, in a list of bytes.
pub fn beaconcrumb_bills(
    log: &[u8],
    start: &[u8],
    begin: &[u8],
    end: &[u8],
    drift: u32,
    out: &mut [u8],
) -> u32
    ensures result { result ≡ bills_code log.now start.now begin.now end.now drift (length out.old) }
    ensures list { out.new ≡ bills_after log.now start.now begin.now end.now drift out.old }
{
    code(bills(log, start, begin, end, drift, out))
}

// ---- Encode

// The polygraph that was planned, in a list of bytes, or 25 and nothing.
fn send<'a, 'b>(
    tables: &'a [u32; WORDS],
    chosen: &'a [u16; PLACES],
    plan: Known,
    pruning: u8,
    out: &'b mut [u8],
) -> Result<(), Refusal>
    requires { PlanFor tables.now chosen.now plan.rows plan.count }
    ensures result { (h : History) (e : ℕ) → Planned h e tables.now chosen.now plan.rows plan.count → number_of result ≡ sent_code h e pruning (length out.old) }
    ensures list { (h : History) (e : ℕ) → Planned h e tables.now chosen.now plan.rows plan.count → out.new ≡ sent_after h e pruning out.old }
{
    let mut words = [0u32; LIST_WORDS];
    let r = lender::written(tables, chosen, plan.rows, plan.count, pruning, &mut words);
    let left = usize::from(r.left);
    if out.len() < 130 + 10 * left {
        return Err(Refusal::TooFewPlaces);
    }
    images::put_polygraph(left, &r.rows, &words, out);
    Ok(())
}

// The polygraph of a log with its times in a setting, in a list of bytes.
fn encode(
    log: &[u8],
    clock: Times<'_>,
    encoding: u8,
    pruning: u8,
    out: &mut [u8],
) -> Result<(), Refusal>
    ensures result { number_of result ≡ encode_window (window log.now zeros (times clock.entry.begin.now clock.entry.end.now clock.entry.drift)) encoding pruning (length out.old) }
    ensures list { out.new ≡ encode_window_after (window log.now zeros (times clock.entry.begin.now clock.entry.end.now clock.entry.drift)) encoding pruning out.old }
{
    let held = load_timed(log, clock)?;
    let setting = test_setting(encoding, pruning)?;
    let mut tables = [0u32; WORDS];
    let mut chosen = [0u16; PLACES];
    let plan = encoding::prepare(held, setting.encoding, &mut tables, &mut chosen);
    send(&tables, &chosen, plan, pruning, out)
}

// The same with times as bytes.
fn encode_strict(
    log: &[u8],
    begin: &[u8],
    end: &[u8],
    drift: u32,
    encoding: u8,
    pruning: u8,
    out: &mut [u8],
) -> Result<(), Refusal>
    ensures result { number_of result ≡ encode_strict_code log.now begin.now end.now drift encoding pruning (length out.old) }
    ensures list { out.new ≡ encode_strict_after log.now begin.now end.now drift encoding pruning out.old }
{
    let seconds = Seconds::read(log, begin, end)?;
    encode(log, seconds.times(drift), encoding, pruning, out)
}

// The polygraph of a log alone, without times, in a setting, in a list of bytes: 0, else the refusal's number.
pub fn beaconcrumb_encode(log: &[u8], encoding: u8, pruning: u8, out: &mut [u8]) -> u32
    ensures result { result ≡ encode_code log.now encoding pruning (length out.old) }
    ensures list { out.new ≡ encode_after log.now encoding pruning out.old }
{
    u32::from(number_of(encode(log, untimed(), encoding, pruning, out)))
}

// The same of a log and the bytes of its times, with 37 and 38 as for Check.
pub fn beaconcrumb_encode_strict(
    log: &[u8],
    begin: &[u8],
    end: &[u8],
    drift: u32,
    encoding: u8,
    pruning: u8,
    out: &mut [u8],
) -> u32
    ensures result { result ≡ encode_strict_code log.now begin.now end.now drift encoding pruning (length out.old) }
    ensures list { out.new ≡ encode_strict_after log.now begin.now end.now drift encoding pruning out.old }
{
    u32::from(number_of(encode_strict(log, begin, end, drift, encoding, pruning, out)))
}
