// The case and the calls. A case goes into each call by value and comes back from it in the answer.
// A setting comes as document 01's two numbers, which a caller may get wrong (12); behind that test it is a `Setting`.
// Anyone may put a case together, so each call first finds the stage that it counts as (`held::stage_of`); no call requires anything.
#![tactic(auto)]

ghost use Rattle.std.specs.Prelude.{◌≡◌, length};
ghost use Rattle.model.specs.Times.{times};
ghost use Rattle.model.specs.Window.{window};
ghost use Rattle.checker.specs.Cases.{fresh_case};
ghost use Rattle.checker.specs.Calls.{loading, load_refusal, checking, check_refusal, check_yes};
ghost use Rattle.checker.specs.Results.{order_refused, order_left, table_refused, table_left, replying, Bills};
ghost use Rattle.checker.specs.Encodings.{Encodes};
ghost use Rattle.checker.specs.Decisions.{Decides};
ghost use Rattle.answers.specs.Numbers.{judgement_number, judgement_yes};
ghost use Rattle.refusals.specs.Numbers.{number_of};

pub use answers::{Clock, Judgement, Stage, Verdict};
use listing::{PLACES, WORDS};
use logs::times::Times;
use model::Constraint;
pub use refusals::{Refusal, number_of};
pub use wear::Bill;

mod deciding;
mod held;
mod judging;
mod polygraphs;
mod results;

// The stage that it says, the log in its room, the table that the window starts from, its times, and the order.
#[derive(Clone, Copy, PartialEq, Eq)]
pub struct Case {
    pub stage: Stage,
    pub bytes: [u8; 1156],
    pub length: usize,
    pub starting: [u16; 32],
    pub clock: Clock,
    pub order: [u8; 32],
}

// The case after the call, and the reply.
#[derive(Clone, Copy, PartialEq, Eq)]
pub struct Answer {
    pub case: Case,
    pub reply: Result<(), Refusal>,
}

#[derive(Clone, Copy, PartialEq, Eq)]
pub struct Checking {
    pub case: Case,
    pub judgement: Result<Judgement, Refusal>,
}

// The case as it was, the reply, and the count of constraints left.
#[derive(Clone, Copy, PartialEq, Eq)]
pub struct Encoding {
    pub case: Case,
    pub reply: Result<(), Refusal>,
    pub left: usize,
}

// The case with the answer stored, the verdict, the order as 32 numbers, and the count that Encode gives.
#[derive(Clone, Copy, PartialEq, Eq)]
pub struct Decision {
    pub case: Case,
    pub verdict: Result<Verdict, Refusal>,
    pub order: [u8; 32],
    pub left: usize,
}

impl Case {
    // A fresh case: nothing loaded, no times, and zeros everywhere.
    pub fn fresh() -> Case
        ensures { result ≡ fresh_case }
    {
        let clock = answers::clocks::none();
        Case {
            stage: Stage::Fresh,
            bytes: [0; 1156],
            length: 0,
            starting: [0; 32],
            clock,
            order: [0; 32],
        }
    }

    // Reads a log, the table that it starts from, and its times, into a fresh case.
    pub fn load(
        mut self,
        log: &[u8],
        starting: &[u16],
        begin: &[u32],
        end: &[u32],
        drift: u32,
    ) -> Answer
        ensures result { result ≡ loading self (window log.now starting.now (times begin.now end.now drift)) }
        ensures number { number_of result.reply ≡ load_refusal self (window log.now starting.now (times begin.now end.now drift)) }
    {
        let clock = Times { begin, end, drift };
        match held::test_load(&self, log, starting, clock) {
            Err(refusal) => Answer {
                case: self,
                reply: Err(refusal),
            },
            Ok(()) => {
                let loaded = held::loaded(log, starting, clock);
                self = loaded;
                Answer {
                    case: self,
                    reply: Ok(()),
                }
            }
        }
    }

    // Writes the polygraph of a setting to the two lists, and gives the count of constraints left.
    pub fn encode<'a, 'b>(
        self,
        encoding: u8,
        pruning: u8,
        list: &'a mut [Constraint],
        rows: &'b mut [u32],
    ) -> Encoding
        ensures { Encodes self encoding pruning list.old rows.old result list.new rows.new }
    {
        let mut tables = [0u32; WORDS];
        let mut chosen = [0u16; PLACES];
        match polygraphs::planned(
            &self,
            encoding,
            pruning,
            list.len(),
            rows.len(),
            &mut tables,
            &mut chosen,
        ) {
            Err(refusal) => Encoding {
                case: self,
                reply: Err(refusal),
                left: 0,
            },
            Ok(known) => {
                let r = encoding::write(&tables, &chosen, known.rows, known.count, pruning, list);
                rows[..32].copy_from_slice(&r.rows);
                Encoding {
                    case: self,
                    reply: Ok(()),
                    left: usize::from(r.left),
                }
            }
        }
    }

    // Writes the constraints of a setting to the list, as Encode does; stores and gives the first legal order, or 'no order'.
    pub fn decide(mut self, encoding: u8, pruning: u8, list: &mut [Constraint]) -> Decision
        ensures { Decides self encoding pruning list.old result list.new }
    {
        let mut tables = [0u32; WORDS];
        let mut chosen = [0u16; PLACES];
        match deciding::prepare(
            &self,
            encoding,
            pruning,
            list.len(),
            &mut tables,
            &mut chosen,
        ) {
            Err(refusal) => deciding::refused(self, refusal),
            Ok(found) => {
                encoding::write_left(&tables, &chosen, found.left, found.count, list);
                self = deciding::stored(self, found.order);
                deciding::answered(self, found.order, found.left)
            }
        }
    }

    // Writes the order's T numbers as bytes.
    pub fn order(self, out: &mut [u8]) -> Answer
        ensures result { result ≡ replying self (order_refused self (length out.old)) }
        ensures number { number_of result.reply ≡ order_refused self (length out.old) }
        ensures list { out.new ≡ order_left self out.old }
    {
        let reply = results::write_order(&self, out);
        Answer { case: self, reply }
    }

    // Writes the table that the order leaves, from the starting one: 32 values, by key.
    pub fn table(self, out: &mut [u16]) -> Answer
        ensures result { result ≡ replying self (table_refused self (length out.old)) }
        ensures number { number_of result.reply ≡ table_refused self (length out.old) }
        ensures list { out.new ≡ table_left self out.old }
    {
        let reply = results::write_table(&self, out);
        Answer { case: self, reply }
    }

    // Writes the bills of the sixteen cabinets for the moves of the gates in the order's replay, from the starting table: what each pays for wear.
    pub fn bills(self, list: &mut [Bill]) -> Answer
        ensures { Bills self list.old result list.new }
    {
        let reply = results::write_bills(&self, list);
        Answer { case: self, reply }
    }

    // Says whether a proposed order is legal, and changes nothing.
    pub fn check(self, proposed: &[u8]) -> Checking
        ensures result { result ≡ checking self proposed.now }
        ensures number { judgement_number result.judgement ≡ check_refusal self proposed.now }
        ensures yes { judgement_yes result.judgement ≡ check_yes self proposed.now }
    {
        let judgement = judging::judged(&self, proposed);
        Checking {
            case: self,
            judgement,
        }
    }

    // A fresh case, whatever the case was.
    pub fn clear(mut self) -> Case
        ensures { result ≡ fresh_case }
    {
        let fresh = Case::fresh();
        self = fresh;
        self
    }
}
