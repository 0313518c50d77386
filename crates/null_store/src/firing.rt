//! What a firing of a tgd adds: new pieces for its `exists` variables, and the rows of its head.

ghost use Rattle.std.specs.Prelude.{◌≡◌, ℕ, ◌+◌, ◌-◌, ◌*◌, ◌<◌, ◌≤◌, List, ◌++◌, All, flat_map, length, map, slice_index_or};
ghost use Rattle.rule_core.specs.Firing.{frontier_of};
ghost use Rattle.term_core.specs.declared.term.Seen.TheVariants.{Piece};
ghost use Rattle.rule_core.specs.Validity.{IsWithin};
ghost use Rattle.null_store.specs.Changes.{head_cells, exists_count};
ghost use Rattle.row_arena.specs.declared.held.TheConstants.{MOST_COLUMNS};
ghost use Rattle.null_store.specs.Lists.{rows_seen};
ghost use Rattle.null_store.specs.Layout.{HasFrontierValues, AddsPieces, AddsOne, AddsRows, IsReady, IsFired, IsThere, cell_of, row_for};
ghost use Rattle.null_store.specs.declared.piece.NamedPiece.{NamedPiece};

use crate::piece::NamedPiece;
use crate::rows::LinkedRows;
use row_arena::MOST_COLUMNS;
use rule_core::{Arg, Atom, Tgd, occurs};
use std::sync::ledger::Ledger;
use term_core::{ConstId, Seen, Steps};
use time_line::Span;

// The most variables that a tgd has.
const MOST_VARIABLES: usize = 32;

/// Adds the rows that a tgd makes for these values of its frontier over the span, and their new
/// pieces, in the spare room. It takes at most two steps a cell.
pub fn fire<L: Ledger>(
    tgd: &Tgd,
    frontier: &[ConstId],
    name: usize,
    span: Span,
    rows: &mut LinkedRows,
    steps: &mut Steps<L>,
)
    requires { IsReady tgd.now frontier.now rows.old }
    ensures fired { IsFired tgd.now frontier.now name span rows.old rows.new }
    ensures room { rows.new.arena.spare_rows + length tgd.now.head ≡ rows.old.arena.spare_rows }
    ensures cell_room { rows.new.arena.spare_cells + head_cells tgd.now
        ≡ rows.old.arena.spare_cells }
    ensures piece_room { rows.old.room ≤ rows.new.room + exists_count tgd.now }
    ensures steps { steps.new ≤ steps.old + 2 * head_cells tgd.now }
{
    let mut values = frontier_values(tgd, frontier);
    add_pieces(tgd, name, span, &mut values, rows);
    add_rows(tgd.head.as_slice(), &values, span, rows, steps);
}

// The values of the frontier at their variables.
fn frontier_values(tgd: &Tgd, frontier: &[ConstId]) -> [Seen; MOST_VARIABLES]
    requires few { tgd.now.body_vars ≤ MOST_VARIABLES }
    requires size { length frontier.now ≡ length (frontier_of tgd.now) }
    ensures { HasFrontierValues tgd.now frontier.now result }
{
    let mut values = [Seen::Piece(0); MOST_VARIABLES];
    let mut taken = 0;
    for variable in 0..tgd.body_vars {
        if occurs(tgd.head.as_slice(), variable) {
            values[variable as usize] = Seen::Const(frontier[taken]);
            taken += 1;
        }
    }
    values
}

// Adds a piece for each `exists` variable that the head has, in the spare room, and puts it at
// its variable.
fn add_pieces(
    tgd: &Tgd,
    name: usize,
    span: Span,
    values: &mut [Seen; MOST_VARIABLES],
    rows: &mut LinkedRows,
)
    requires few { length tgd.now.vars ≤ MOST_VARIABLES }
    requires within { tgd.now.body_vars ≤ length tgd.now.vars }
    requires room { length tgd.now.vars - tgd.now.body_vars ≤ rows.old.room }
    ensures pieces { (more : List NamedPiece) × (rows.new.pieces ≡ rows.old.pieces ++ more)
        × AddsPieces tgd.now name span rows.old.pieces more values.new (length tgd.now.vars) }
    ensures others { (v : ℕ) → v < tgd.now.body_vars
        → slice_index_or values.new v (Piece 0) ≡ slice_index_or values.old v (Piece 0) }
    ensures arena { rows.new.arena ≡ rows.old.arena }
    ensures room { rows.new.room + length rows.new.pieces
        ≡ rows.old.room + length rows.old.pieces }
{
    for variable in tgd.body_vars..tgd.vars.len() as u32 {
        if occurs(tgd.head.as_slice(), variable) {
            values[variable as usize] = Seen::Piece(rows.len());
            rows.add_piece(NamedPiece {
                name,
                var: variable - tgd.body_vars,
                span,
                live: true,
                twin: 0,
            });
        }
    }
}

// Adds the rows for the atoms of a head, in the spare room.
fn add_rows<L: Ledger>(
    head: &[Atom],
    values: &[Seen; MOST_VARIABLES],
    span: Span,
    rows: &mut LinkedRows,
    steps: &mut Steps<L>,
)
    requires room { length head.now ≤ rows.old.arena.spare_rows }
    requires cell_room { length (flat_map (λ atom. atom.args) head.now)
        ≤ rows.old.arena.spare_cells }
    requires narrow { All (λ atom. length atom.args ≤ MOST_COLUMNS) head.now }
    requires within { All (λ atom. All (IsWithin MOST_VARIABLES) atom.args) head.now }
    requires there { All (λ atom. All (IsThere values.now (length rows.old.pieces)) atom.args)
        head.now }
    ensures rows { AddsRows (rows_seen rows.old.arena) (rows_seen rows.new.arena)
        (map (row_for values.now span) head.now) }
    ensures pieces { rows.new.pieces ≡ rows.old.pieces }
    ensures room { rows.new.arena.spare_rows + length head.now ≡ rows.old.arena.spare_rows }
    ensures cell_room { rows.new.arena.spare_cells + length (flat_map (λ atom. atom.args) head.now)
        ≡ rows.old.arena.spare_cells }
    ensures piece_room { rows.new.room ≡ rows.old.room }
    ensures steps { steps.new ≤ steps.old + 2 * length (flat_map (λ atom. atom.args) head.now) }
{
    for atom in head {
        add_image(atom, values, span, rows, steps);
    }
}

// Adds the row for an atom, in the spare room.
fn add_image<L: Ledger>(
    atom: &Atom,
    values: &[Seen; MOST_VARIABLES],
    span: Span,
    rows: &mut LinkedRows,
    steps: &mut Steps<L>,
)
    requires room { 0 < rows.old.arena.spare_rows }
    requires cell_room { length atom.now.args ≤ rows.old.arena.spare_cells }
    requires narrow { length atom.now.args ≤ MOST_COLUMNS }
    requires within { All (IsWithin MOST_VARIABLES) atom.now.args }
    requires there { All (IsThere values.now (length rows.old.pieces)) atom.now.args }
    ensures rows { (number : ℕ) × AddsOne (rows_seen rows.old.arena) (rows_seen rows.new.arena)
        number (row_for values.now span atom.now) }
    ensures pieces { rows.new.pieces ≡ rows.old.pieces }
    ensures room { rows.new.arena.spare_rows + 1 ≡ rows.old.arena.spare_rows }
    ensures cell_room { rows.new.arena.spare_cells + length atom.now.args
        ≡ rows.old.arena.spare_cells }
    ensures piece_room { rows.new.room ≡ rows.old.room }
    ensures steps { steps.new ≤ steps.old + 2 * length atom.now.args }
{
    let blank = [Seen::Const(ConstId(0)); MOST_COLUMNS];
    let args = atom.args.as_slice();
    let row = rows.add_row(atom.relation, span, &blank[..args.len()]);
    for column in 0..args.len() {
        match cell_for(args[column], values) {
            Seen::Const(constant) => rows.put(row, column, constant, steps),
            Seen::Piece(piece) => rows.hold(row, column, piece, steps),
        }
    }
}

// The cell for an argument.
fn cell_for(arg: Arg, values: &[Seen; MOST_VARIABLES]) -> Seen
    requires { IsWithin MOST_VARIABLES arg }
    ensures { result ≡ cell_of values.now arg }
{
    match arg {
        Arg::Var(variable) => values[variable as usize],
        Arg::Const(constant) => Seen::Const(constant),
    }
}
