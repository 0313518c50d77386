//! What every store of facts shows.

ghost use Rattle.std.specs.Prelude.{◌≡◌, ◌≤◌, ℕ, List, Option, Some, length};
ghost use Rattle.fact_table.specs.Rows.{SeenRow, HasCell, head_at, cell_at};

use crate::RowHead;
use std::sync::ledger::Ledger;
use term_core::{Seen, Steps};

/// Rows that are told by numbers. A number may have no row.
pub trait FactSource {
    ghost rows: { Self → List (Option SeenRow) };

    /// Above the number of each row.
    fn bound(&self) -> usize
        ensures { result ≡ length (rows self.now) };

    /// The head of the row with the number, if there is one.
    fn head(&self, row: usize) -> Option<RowHead>
        ensures { result ≡ head_at (rows self.now) row };

    /// A cell of the row with the number. A store that counts what it reads adds to the steps.
    fn cell<L: Ledger>(&self, row: usize, column: usize, steps: &mut Steps<L>) -> Seen
        requires { HasCell (rows self.now) row column }
        ensures value { cell_at (rows self.now) row column ≡ Some result }
        ensures steps { steps.old ≤ steps.new };
}
