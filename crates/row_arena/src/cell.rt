//! Cells, and the heads of rows.

use term_core::Seen;
use time_line::Span;

/// A cell: where it stands, what it holds, and the cells before and after it in the list that it is
/// in, if it is in one.
#[derive(Clone, Copy, Debug, PartialEq, Eq)]
pub struct Cell {
    /// The number of its row.
    pub row: usize,
    /// Its column.
    pub column: usize,
    /// What it holds.
    pub value: Seen,
    /// The number of the cell before it.
    pub before: Option<usize>,
    /// The number of the cell after it.
    pub after: Option<usize>,
}

/// What a row is without its cells.
#[derive(Clone, Copy, Debug, PartialEq, Eq)]
pub struct ArenaRow {
    /// The place of the relation.
    pub relation: u32,
    /// How many cells the row has.
    pub arity: usize,
    /// When the row holds.
    pub span: Span,
}
