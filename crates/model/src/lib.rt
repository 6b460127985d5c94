// The record of a constraint. Everything else in this crate is definitions (specs/) and theorems (proofs/).
#![tactic(auto)]

// A constraint: side A is an edge from each source in the mask fromA to the target toA, and side B the same of fromB and toB.
#[derive(Clone, Copy)]
pub struct Constraint {
    pub fromA: u32,
    pub toA: u32,
    pub fromB: u32,
    pub toB: u32,
}
