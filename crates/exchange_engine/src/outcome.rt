//! What an exchange gives.

use coalescer::Stamped;
use failure_trace::{Firing, JournalStep, Trace};
use term_core::{Items, Unknown};

/// How much was done on the way.
#[derive(Clone, Copy, Debug, PartialEq, Eq)]
pub struct Counts {
    /// Facts of the source, in pieces.
    pub pieces: usize,
    /// Firings.
    pub firings: usize,
    /// Values that were made equal.
    pub steps: usize,
    /// Cuts for these.
    pub cuts: usize,
}

/// A target.
#[derive(Debug, Drop)]
pub struct Solved {
    /// A table for each target relation, in their order.
    pub tables: Items<Items<Stamped>>,
    /// The answers of each query, in their order.
    pub answers: Items<Items<Stamped>>,
    /// The unknowns of the tables, ascending. Unknown number n is at place n - 1.
    pub nulls: Items<Unknown>,
    /// How much was done.
    pub counts: Counts,
    /// The firings, in order of rule, frontier and span, with the matches that support them.
    pub firings: Items<Firing>,
    /// How values were made equal, step by step.
    pub journal: Items<JournalStep>,
}

/// How an exchange ends.
#[derive(Debug, Drop)]
pub enum Outcome {
    /// Every instant has a solution, and this is the least.
    Solved(Solved),
    /// Two different constants were to be equal: the trace of an instant that has no solution.
    Failed(Trace),
}
