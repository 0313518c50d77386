//! Rows and cells under numbers that stay.

ghost use Rattle.std.specs.Prelude.{◌≡◌, ℕ, ◌+◌, ◌-◌, ◌^◌, ◌<◌, ◌≤◌, Some, IsSomeAnd, OnOk, length, slice_get};
ghost use Rattle.std.specs.Option.{option_map};
ghost use Rattle.slab.specs.Slab.{slab_len};
ghost use Rattle.row_arena.specs.Arena.{IsArena, HasRow, HasCell, HasColumn, StandsAt, row_in, cell_in, head_of};
ghost use Rattle.row_arena.specs.Changes.{IsEmpty, HoldsSame, AddsRow, SetsSpan, TakesRow, with_content, with_after};
ghost use Rattle.row_arena.specs.Layout.{AddsCells, TakesCells, AreInPlace, IsHeld};

use crate::cell::{ArenaRow, Cell};
use crate::held::{HeldRow, MOST_COLUMNS};
use slab::Slab;
use std::alloc::Global;
use std::marker::Model;
use std::sync::ledger::Ledger;
use term_core::{Memory, Seen, Steps};
use time_line::Span;

/// Rows, each with one cell for each of its columns. A row and a cell keep their numbers while they
/// are there.
#[derive(Drop)]
pub struct RowArena {
    rows: Slab<HeldRow>,
    cells: Slab<Cell>,
    bound: usize,
}

impl Model for RowArena {
    ghost use Rattle.row_arena.specs.Arena.{Arena};
    ghost use Rattle.row_arena.specs.Layout.{arena_of, IsSound};

    ghost Value = { Arena };

    ghost view = { λ s. arena_of s.rows s.bound s.cells };

    ghost invariant = { λ s. IsSound s.rows.slots s.bound s.cells.slots };
}

impl RowArena {
    /// An arena with no row. What is added takes its memory from `alloc`.
    pub fn new(alloc: Global) -> RowArena
        ensures { IsEmpty result }
    {
        RowArena {
            rows: Slab::new(alloc),
            cells: Slab::new(alloc),
            bound: 0,
        }
    }

    /// The fact that the type keeps.
    pub fn is_kept(&self)
        ensures { IsArena (row_in self.now) (cell_in self.now) }
    {
        let _ = &self.rows;
    }

    /// Takes memory for so many more rows and cells.
    pub fn reserve(&mut self, rows: usize, cells: usize) -> Result<(), Memory>
        ensures same { HoldsSame self.old self.new }
        ensures rows { OnOk result (rows ≤ self.new.spare_rows) }
        ensures cells { OnOk result (cells ≤ self.new.spare_cells) }
    {
        self.rows.reserve(rows)?;
        self.cells.reserve(cells)?;
        Ok(())
    }

    /// Above the number of each row.
    pub fn bound(&self) -> usize
        ensures { result ≡ length self.now.rows }
    {
        self.bound
    }

    /// Above the number of each cell.
    pub fn cell_bound(&self) -> usize
        ensures { length self.now.cells ≤ result }
    {
        self.cells.capacity()
    }

    /// Adds a row with these values, in the spare room, and gives its number.
    pub fn add_row(&mut self, relation: u32, span: Span, values: &[Seen]) -> usize
        requires row { 0 < self.old.spare_rows }
        requires cells { length values.now ≤ self.old.spare_cells }
        requires few { length values.now ≤ MOST_COLUMNS }
        ensures adds { AddsRow self.old self.new result relation span values.now }
        ensures bound { length self.old.rows ≤ length self.new.rows }
        ensures small { result < 2 ^ 64 - 1 }
    {
        let row = self.rows.vacant_key();
        let ids = add_cells(&mut self.cells, row, values);
        let head = ArenaRow {
            relation,
            arity: values.len(),
            span,
        };
        self.rows.insert_reserved(HeldRow { head, ids });
        let _room = self.rows.capacity();
        self.bound = self.bound.max(row + 1);
        row
    }

    /// What the row with the number is without its cells, if there is one.
    pub fn head(&self, row: usize) -> Option<ArenaRow>
        ensures { result ≡ option_map head_of (row_in self.now row) }
    {
        let held = self.rows.get(row)?;
        Some(held.head)
    }

    /// The number of the cell in a column of a row.
    pub fn cell_at(&self, row: usize, column: usize) -> usize
        requires { HasColumn self.now row column }
        ensures number { IsSomeAnd (row_in self.now row) (λ r.
            slice_get r.cells column ≡ Some result) }
        ensures there { IsSomeAnd (cell_in self.now result) (λ c. StandsAt c row column) }
    {
        self.rows[row].ids[column]
    }

    /// The cell with the number. It takes a step.
    pub fn cell<L: Ledger>(&self, id: usize, steps: &mut Steps<L>) -> Cell
        requires { HasCell self.now id }
        ensures cell { cell_in self.now id ≡ Some result }
        ensures step { steps.new ≡ steps.old + 1 }
    {
        steps.tick();
        self.cells[id]
    }

    /// Writes what a cell holds, and its links. It takes a step.
    pub fn put_cell<L: Ledger>(
        &mut self,
        id: usize,
        value: Seen,
        before: Option<usize>,
        after: Option<usize>,
        steps: &mut Steps<L>,
    )
        requires { HasCell self.old id }
        ensures puts { self.new ≡ with_content self.old id value before after }
        ensures step { steps.new ≡ steps.old + 1 }
    {
        steps.tick();
        let cell = &mut self.cells[id];
        cell.value = value;
        cell.before = before;
        cell.after = after;
    }

    /// Writes which cell stands after a cell. It takes a step.
    pub fn link_after<L: Ledger>(&mut self, id: usize, after: Option<usize>, steps: &mut Steps<L>)
        requires { HasCell self.old id }
        ensures links { self.new ≡ with_after self.old id after }
        ensures step { steps.new ≡ steps.old + 1 }
    {
        steps.tick();
        let cell = &mut self.cells[id];
        cell.after = after;
    }

    /// Writes the span of a row.
    pub fn set_span(&mut self, row: usize, span: Span)
        requires { HasRow self.old row }
        ensures { SetsSpan self.old self.new row span }
    {
        let held = &mut self.rows[row];
        held.head.span = span;
    }

    /// Takes a row and its cells away.
    pub fn take_row(&mut self, row: usize)
        requires { HasRow self.old row }
        ensures { TakesRow self.old self.new row }
    {
        let _room = self.cells.capacity();
        let held = self.rows.remove(row);
        take_cells(&mut self.cells, &held);
    }
}

// Adds the cells of a row, in the spare room, and gives their numbers.
fn add_cells(cells: &mut Slab<Cell>, row: usize, values: &[Seen]) -> [usize; MOST_COLUMNS]
    requires room { length values.now ≤ cells.old.capacity - slab_len cells.old }
    requires few { length values.now ≤ MOST_COLUMNS }
    ensures adds { AddsCells cells.old.slots cells.new.slots row values.now result
        (length values.now) }
    ensures size { length result ≡ MOST_COLUMNS }
    ensures len { slab_len cells.new ≡ slab_len cells.old + length values.now }
    ensures capacity { cells.new.capacity ≡ cells.old.capacity }
{
    let mut ids = [0; MOST_COLUMNS];
    for column in 0..values.len() {
        ids[column] = cells.insert_reserved(Cell {
            row,
            column,
            value: values[column],
            before: None,
            after: None,
        });
    }
    ids
}

// Takes the cells of a row away.
fn take_cells(cells: &mut Slab<Cell>, held: &HeldRow)
    requires held { IsHeld held.now }
    requires places { AreInPlace cells.old.slots held.now 0 }
    ensures takes { TakesCells cells.old.slots cells.new.slots held.now.ids held.now.head.arity }
    ensures len { slab_len cells.new + held.now.head.arity ≡ slab_len cells.old }
    ensures capacity { cells.new.capacity ≡ cells.old.capacity }
{
    for column in 0..held.head.arity {
        cells.remove(held.ids[column]);
    }
}
