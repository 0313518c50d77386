//! Coalesced tables as a store, in which queries are answered.

ghost use Rattle.std.specs.Prelude.{◌≡◌, ◌≤◌, ◌<◌, ◌++◌, AllPairs, IfOk, OnOk, Some, length, map};
ghost use Rattle.std.specs.declared.cmp.Ordering.TheVariants.{Less};
ghost use Rattle.term_core.specs.Order.{unknown_cmp};
ghost use Rattle.fact_table.specs.Rows.{HasCell, cell_at};
ghost use Rattle.certain_answers.specs.Shown.{as_store, cell_for, held_row, held_rows, place_in, row_for, rows_for, rows_from};

use coalescer::Stamped;
use fact_table::{FactSource, RowHead};
use std::alloc::Global;
use std::sync::ledger::Ledger;
use term_core::laws::unknowns_have_one_order;
use term_core::{Items, Memory, Seen, Steps, Term, Unknown};
use time_line::Span;

/// A row of a table. An unknown is the piece with its place among those of all tables.
#[derive(Drop)]
pub struct TableRow {
    relation: u32,
    cells: Items<Seen>,
    span: Span,
}

/// The rows of tables, one table after the other.
#[derive(Drop)]
pub struct TableRows {
    rows: Items<TableRow>,
}

impl TableRows {
    /// The rows of a table for each relation, where these are the unknowns, ascending.
    pub fn make(
        alloc: Global,
        tables: &[Items<Stamped>],
        nulls: &[Unknown],
    ) -> Result<TableRows, Memory>
        requires few { length tables.now ≤ 64 }
        requires ascending { AllPairs (λ u w. unknown_cmp u w ≡ Less) nulls.now }
        ensures { IfOk result (λ held. held_rows held.rows ≡ rows_from nulls.now 0 tables.now) }
    {
        let mut rows = Items::new(alloc);
        for (relation, table) in tables.iter().enumerate() {
            add_table(alloc, relation as u32, table.as_slice(), nulls, &mut rows)?;
        }
        Ok(TableRows { rows })
    }
}

// Adds the rows of a table.
fn add_table(
    alloc: Global,
    relation: u32,
    table: &[Stamped],
    nulls: &[Unknown],
    rows: &mut Items<TableRow>,
) -> Result<(), Memory>
    requires { AllPairs (λ u w. unknown_cmp u w ≡ Less) nulls.now }
    ensures { OnOk result (held_rows rows.new
        ≡ held_rows rows.old ++ rows_for nulls.now relation table.now) }
{
    rows.room(table.len())?;
    for entry in table {
        rows.push(row_of(alloc, relation, entry, nulls)?)?;
    }
    Ok(())
}

// An entry of a table as a row of a relation.
fn row_of(
    alloc: Global,
    relation: u32,
    entry: &Stamped,
    nulls: &[Unknown],
) -> Result<TableRow, Memory>
    requires { AllPairs (λ u w. unknown_cmp u w ≡ Less) nulls.now }
    ensures { IfOk result (λ row. held_row row ≡ row_for nulls.now relation entry.now) }
{
    Ok(TableRow {
        relation,
        cells: cells_of(alloc, entry.row.as_slice(), nulls)?,
        span: entry.span,
    })
}

// Terms as cells.
fn cells_of(alloc: Global, terms: &[Term], nulls: &[Unknown]) -> Result<Items<Seen>, Memory>
    requires { AllPairs (λ u w. unknown_cmp u w ≡ Less) nulls.now }
    ensures { IfOk result (λ cells. cells ≡ map (cell_for nulls.now) terms.now) }
{
    let mut cells = Items::new(alloc);
    cells.room(terms.len())?;
    for term in terms {
        cells.push(cell_of(term, nulls))?;
    }
    Ok(cells)
}

// A term as a cell.
fn cell_of(term: &Term, nulls: &[Unknown]) -> Seen
    requires { AllPairs (λ u w. unknown_cmp u w ≡ Less) nulls.now }
    ensures { result ≡ cell_for nulls.now term.now }
{
    match term {
        Term::Const(id) => Seen::Const(*id),
        Term::Null(unknown) => Seen::Piece(place_of(nulls, unknown)),
    }
}

// The place of an unknown among ascending ones.
fn place_of(nulls: &[Unknown], unknown: &Unknown) -> usize
    requires { AllPairs (λ u w. unknown_cmp u w ≡ Less) nulls.now }
    ensures { result ≡ place_in nulls.now unknown.now }
{
    unknowns_have_one_order();
    nulls.partition_point(|other| other.cmp(unknown).is_lt())
}

impl FactSource for TableRows {
    ghost rows = { as_store };

    fn bound(&self) -> usize {
        self.rows.len()
    }

    fn head(&self, row: usize) -> Option<RowHead> {
        let seen = self.rows.get(row)?;
        Some(RowHead {
            relation: seen.relation,
            arity: seen.cells.len(),
            span: seen.span,
        })
    }

    fn cell<L: Ledger>(&self, row: usize, column: usize, _steps: &mut Steps<L>) -> Seen
        requires { HasCell (as_store self.now) row column }
        ensures value { cell_at (as_store self.now) row column ≡ Some result }
        ensures steps { _steps.new ≡ _steps.old }
    {
        self.rows.as_slice()[row].cells.as_slice()[column]
    }
}
