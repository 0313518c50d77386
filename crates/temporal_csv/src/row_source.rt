//! What holds the rows that are to be stored.

ghost use Rattle.std.specs.Prelude.{◌≡◌, ◌<◌, List, Some, IsSomeAnd, length, slice_get};
ghost use Rattle.temporal_csv.specs.Cells.{term_of};
ghost use Rattle.temporal_csv.specs.Stored.{StoredRow};

use crate::cell::Cell;
use time_line::Span;

/// Rows that are to be stored, told by their places.
pub trait RowSource {
    ghost rows: { Self → List StoredRow };

    /// How many rows there are.
    fn count(&self) -> usize
        ensures { result ≡ length (rows self.now) };

    /// How many cells the row at a place has.
    fn width(&self, row: usize) -> usize
        requires { row < length (rows self.now) }
        ensures { IsSomeAnd (slice_get (rows self.now) row) (λ r. result ≡ length r.cells) };

    /// A cell of the row at a place. Where the source looks something up, it may begin near what it noted with the last cell.
    fn cell(&self, row: usize, column: usize, near: &mut usize) -> Cell<'_>
        requires { IsSomeAnd (slice_get (rows self.now) row) (λ r. column < length r.cells) }
        ensures { IsSomeAnd (slice_get (rows self.now) row)
            (λ r. slice_get r.cells column ≡ Some (term_of result)) };

    /// When the row at a place holds, where the table has spans.
    fn span(&self, row: usize) -> Option<Span>
        requires { row < length (rows self.now) }
        ensures { IsSomeAnd (slice_get (rows self.now) row) (λ r. r.span ≡ result) };
}
