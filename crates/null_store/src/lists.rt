//! The lists of the cells that hold pieces, as they lie in an arena.

ghost use Rattle.std.specs.Prelude.{◌≡◌, ℕ, List, ◌+◌, ◌*◌, IfOk, length};
ghost use Rattle.row_arena.specs.Arena.{cell_in};
ghost use Rattle.null_store.specs.Layout.{IsWalk, HasRowsBelow, IsRewritten, KeepsRows, with_value};

use crate::piece::CellList;
use row_arena::{Cell, RowArena};
use std::alloc::Global;
use std::sync::ledger::Ledger;
use term_core::{Items, Memory, Seen, Steps};

/// The rows of the cells of a list, in its order. It takes a step a cell.
pub fn rows_of<L: Ledger>(
    alloc: Global,
    arena: &RowArena,
    list: CellList,
    steps: &mut Steps<L>,
) -> Result<Items<usize>, Memory>
    requires { (ids : List ℕ) × IsWalk (cell_in arena.now) list ids }
    ensures rows { IfOk result (λ rows. (ids : List ℕ) → IsWalk (cell_in arena.now) list ids
        → HasRowsBelow (cell_in arena.now) ids list.count rows) }
    ensures steps { IfOk result (λ rows. steps.new ≡ steps.old + length rows) }
{
    let mut rows = Vec::with_capacity(alloc, list.count)?;
    let mut next = list.first;
    for _ in 0..list.count {
        let cell = arena.cell(next.unwrap(), steps);
        rows.push_reserved(cell.row);
        next = cell.after;
    }
    Ok(Items::from_vec(rows))
}

/// Writes a value to the cells of a list, which stands behind the last cell of another, if there
/// is one. It takes two steps a cell.
pub fn rewrite<L: Ledger>(
    arena: &mut RowArena,
    list: CellList,
    by: Seen,
    last: Option<usize>,
    steps: &mut Steps<L>,
)
    requires { (ids : List ℕ) × IsWalk (cell_in arena.old) list ids }
    ensures written { (ids : List ℕ) → IsWalk (cell_in arena.old) list ids
        → IsRewritten (cell_in arena.old) (cell_in arena.new) ids list.count by last }
    ensures keeps { KeepsRows arena.old arena.new }
    ensures steps { steps.new ≡ steps.old + 2 * list.count }
{
    let mut next = list.first;
    for _ in 0..list.count {
        let id = next.unwrap();
        let cell = arena.cell(id, steps);
        let written = rewritten(cell, by, last);
        arena.put_cell(id, written.value, written.before, written.after, steps);
        next = cell.after;
    }
}

// A cell with another value, behind the last cell of a list where none stands before it.
fn rewritten(cell: Cell, by: Seen, last: Option<usize>) -> Cell
    ensures { result ≡ with_value by last cell }
{
    let (before, after) = match by {
        Seen::Const(_) => (None, None),
        Seen::Piece(_) => (cell.before.or(last), cell.after),
    };
    Cell {
        row: cell.row,
        column: cell.column,
        value: by,
        before,
        after,
    }
}
