//! A row as an arena holds it.

use crate::cell::ArenaRow;

/// The most columns that a row has.
pub const MOST_COLUMNS: usize = 16;

/// A row, with the numbers of its cells in the front of `ids`.
#[derive(Clone, Copy, Debug)]
pub struct HeldRow {
    /// What the row is without its cells.
    pub head: ArenaRow,
    /// The number of the cell in each column below the arity.
    pub ids: [usize; MOST_COLUMNS],
}
