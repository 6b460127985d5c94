// The answers of the calls, over plain parts: a log's bytes, its times, a stage, an order, lists of numbers. `checker` takes a case apart and calls these.
// `windows` has Load's tests, `clocks` the times as a case keeps them, `stages` finds the stage that a case counts as, `settings` tests a setting and the places of lists, `judging` judges a proposed order,
// `results` is for Order, Table and Bills.
#![tactic(auto)]

pub mod clocks;
pub mod judging;
pub mod results;
pub mod settings;
pub mod stages;
pub mod windows;

// What a case says of itself: nothing loaded; a log; a log with an order that was decided; a log that was decided to have none.
#[derive(Clone, Copy, Debug, PartialEq, Eq)]
pub enum Stage {
    Fresh,
    Loaded,
    Ordered,
    NoOrder,
}

// The times of a window as a case keeps them: how many entries each list has, the begins and the ends, and the drift. Load leaves zeros behind the entries; what stands
// there plays no part. A window without times has no entries.
#[derive(Clone, Copy, PartialEq, Eq)]
pub struct Clock {
    pub count: usize,
    pub begin: [u32; 32],
    pub end: [u32; 32],
    pub drift: u32,
}

// Whether a proposed order is legal.
#[derive(Clone, Copy, Debug, PartialEq, Eq)]
pub enum Judgement {
    Legal,
    Illegal,
}

// What Decide says: there is an order; there is none.
#[derive(Clone, Copy, Debug, PartialEq, Eq)]
pub enum Verdict {
    Order,
    NoOrder,
}
