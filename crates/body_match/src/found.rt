//! What is found.

use term_core::{Items, Seen};
use time_line::Span;

/// A match of a body. Matches stand in order of their rows, from left to right.
#[derive(Debug, PartialEq, Eq, PartialOrd, Ord, Drop)]
pub struct Match {
    /// The number of a row for each atom.
    pub rows: Items<usize>,
    /// The value of each variable, at the variable's number.
    pub binding: Items<Seen>,
    /// All instants that the rows have in common.
    pub span: Span,
}
