//! The cells that hold the sides of an equality.

ghost use Rattle.std.specs.Prelude.{◌≡◌, ℕ, Contains, Some, length, slice_get};
ghost use Rattle.null_store.specs.Splits.{AreOnce};

/// A cell that holds a side of an equality.
#[derive(Clone, Copy)]
pub struct Side {
    /// The number of its row.
    pub row: usize,
    /// Its column.
    pub column: usize,
}

impl Side {
    /// The cell in the copy of its row, where the row is one of these, and its copy the one at the same place.
    pub fn copied(self, rows: &[usize], copies: &[usize]) -> Side
        requires size { length copies.now ≡ length rows.now }
        requires once { AreOnce rows.now }
        ensures column { result.column ≡ self.column }
        ensures copy { (k : ℕ) → slice_get rows.now k ≡ Some self.row → slice_get copies.now k ≡ Some result.row }
        ensures other { ¬ (Contains rows.now self.row) → result.row ≡ self.row }
    {
        for at in 0..rows.len() {
            if rows[at] == self.row {
                return Side {
                    row: copies[at],
                    column: self.column,
                };
            }
        }
        self
    }
}
