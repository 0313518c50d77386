//! What the settling of a target did, step by step.

use term_core::{Items, Term};
use time_line::Span;

/// A cut of rows that share unknowns, before a step.
#[derive(Clone, Copy, Debug, PartialEq, Eq)]
pub struct CutNote {
    /// Where the rows were cut.
    pub at: i64,
    /// How many rows were cut.
    pub rows: usize,
}

/// An equality that was applied, over the common time of a match.
#[derive(Debug, PartialEq, Eq, Drop)]
pub struct JournalStep {
    /// The place of the egd.
    pub egd: u32,
    /// A term for each variable of the egd.
    pub binding: Items<Term>,
    /// The common time of the rows that match.
    pub span: Span,
    /// The cuts that were made for it, in turn.
    pub cuts: Items<CutNote>,
}
