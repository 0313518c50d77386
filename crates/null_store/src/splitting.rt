//! Rows that are cut at an instant: each keeps the part of its span before it, and a copy of it has
//! the other part.

ghost use Rattle.std.specs.Prelude.{◌≡◌, ℕ, ◌+◌, ◌*◌, ◌<◌, ◌≤◌, List, [], Some, IsSomeAnd, length, slice_get};
ghost use Rattle.time_line.specs.Span.{IsWithinLimit};
ghost use Rattle.fact_table.specs.Rows.{row_at};
ghost use Rattle.null_store.specs.Lists.{rows_seen};
ghost use Rattle.null_store.specs.Splits.{part_before, part_after, cells_of};
ghost use Rattle.null_store.specs.Layout.{HasTwin, CanCutRow, PartsRow, CutsRow, CanCutAll, CutsAll, twin_in, twin_row};

use crate::rows::LinkedRows;
use row_arena::MOST_COLUMNS;
use std::sync::ledger::Ledger;
use term_core::{ConstId, Seen, Slots, Steps};
use time_line::Span;

/// Cuts rows at an instant, in the spare room, and puts the numbers of their copies into a list
/// with no item, in the order of the rows. It takes at most three steps a cell.
pub fn split_all<L: Ledger>(
    numbers: &[usize],
    m: i64,
    made: &mut Slots<usize>,
    rows: &mut LinkedRows,
    steps: &mut Steps<L>,
)
    requires can { CanCutAll m rows.old numbers.now }
    requires empty { made.old.items ≡ [] }
    requires room { length numbers.now ≤ made.old.room }
    ensures cuts { CutsAll m numbers.now made.new.items rows.old rows.new }
    ensures steps { steps.new
        ≤ steps.old + 3 * cells_of (rows_seen rows.old.arena) numbers.now }
{
    for number in numbers {
        let copy = split_row(*number, m, rows, steps);
        made.push_within(copy);
    }
}

// Cuts a row at an instant, in the spare room, and gives its copy. Its pieces that are not cut yet
// are cut. It takes at most three steps a cell.
fn split_row<L: Ledger>(number: usize, m: i64, rows: &mut LinkedRows, steps: &mut Steps<L>) -> usize
    requires limit { IsWithinLimit (Some m) }
    requires row { IsSomeAnd (row_at (rows_seen rows.old.arena) number)
        (λ row. CanCutRow m rows.old row) }
    ensures rows { IsSomeAnd (row_at (rows_seen rows.old.arena) number) (λ row.
        PartsRow (rows_seen rows.old.arena) (rows_seen rows.new.arena) number result
        (part_before m row.span)
        (twin_row (twin_in rows.new.pieces) (part_after m row.span) row)) }
    ensures pieces { IsSomeAnd (row_at (rows_seen rows.old.arena) number)
        (λ row. CutsRow m row rows.old.pieces rows.new.pieces) }
    ensures row_room { rows.new.arena.spare_rows + 1 ≡ rows.old.arena.spare_rows }
    ensures room { IsSomeAnd (row_at (rows_seen rows.old.arena) number) (λ row.
        (rows.new.arena.spare_cells + length row.cells ≡ rows.old.arena.spare_cells)
        × (rows.old.room ≤ rows.new.room + length row.cells)) }
    ensures steps { IsSomeAnd (row_at (rows_seen rows.old.arena) number)
        (λ row. steps.new ≤ steps.old + 3 * length row.cells) }
{
    rows.arena().is_kept();
    let head = rows.head(number).unwrap();
    let (before, after) = head.span.cut(m).unwrap();
    rows.set_span(number, before);
    let blank = [Seen::Const(ConstId(0)); MOST_COLUMNS];
    let copy = rows.add_row(head.relation, after, &blank[..head.arity]);
    for column in 0..head.arity {
        match rows.cell(number, column, steps) {
            Seen::Const(constant) => rows.put(copy, column, constant, steps),
            Seen::Piece(piece) => {
                let twin = twin_of(piece, m, before, after, rows);
                rows.hold(copy, column, twin, steps);
            }
        }
    }
    copy
}

// The twin of a piece, which is cut where it is not cut yet.
fn twin_of(piece: usize, m: i64, before: Span, after: Span, rows: &mut LinkedRows) -> usize
    requires piece { piece < length rows.old.pieces }
    requires room { 0 < rows.old.room }
    ensures twin { HasTwin rows.old.pieces rows.new.pieces piece m before after result }
    ensures arena { rows.new.arena ≡ rows.old.arena }
    ensures room { rows.old.room ≤ rows.new.room + 1 }
{
    let named = rows.piece(piece);
    if named.span.has(m) {
        rows.split_piece(piece, before, after)
    } else {
        named.twin
    }
}
