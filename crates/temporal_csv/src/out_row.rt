//! The rows of a stored table as a list.

use crate::cell::Cell;
use crate::row_source::RowSource;
use std::marker::Model;
use term_core::Items;
use time_line::Span;

/// A row that is stored: its cells, and the span over which it holds, where the table has spans.
#[derive(Debug, Drop)]
pub struct OutRow<'a> {
    pub cells: Items<Cell<'a>>,
    pub span: Option<Span>,
}

impl<'a> Model for OutRow<'a> {
    ghost use Rattle.std.specs.Prelude.{map};
    ghost use Rattle.temporal_csv.specs.Cells.{term_of};
    ghost use Rattle.temporal_csv.specs.Stored.{StoredRow};

    ghost Value = { StoredRow };

    ghost view = { λ r. record { cells = map term_of r.cells; span = r.span } };
}

impl<'a> RowSource for Items<OutRow<'a>> {
    ghost rows = { λ rows. rows };

    fn count(&self) -> usize {
        self.len()
    }

    fn width(&self, row: usize) -> usize {
        let row = &self.as_slice()[row];
        row.cells.len()
    }

    fn cell(&self, row: usize, column: usize, _near: &mut usize) -> Cell<'_> {
        let row = &self.as_slice()[row];
        row.cells.as_slice()[column]
    }

    fn span(&self, row: usize) -> Option<Span> {
        let row = &self.as_slice()[row];
        row.span
    }
}
