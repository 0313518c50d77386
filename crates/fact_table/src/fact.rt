//! Facts and the heads of rows.

use term_core::{ConstId, Items};
use time_line::Span;

/// A row of a relation, and a span over which it holds. Facts are ordered by relation, then by row, then by span.
#[derive(Debug, PartialEq, Eq, PartialOrd, Ord, Drop)]
pub struct Fact {
    /// The place of the relation.
    pub relation: u32,
    /// A constant for each column.
    pub row: Items<ConstId>,
    /// When the row holds.
    pub span: Span,
}

/// What a row is without its cells.
#[derive(Clone, Copy, Debug, PartialEq, Eq)]
pub struct RowHead {
    /// The place of the relation.
    pub relation: u32,
    /// How many cells the row has.
    pub arity: usize,
    /// When the row holds.
    pub span: Span,
}
