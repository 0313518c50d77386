//! A target as files: each constant as its text, and each unknown by its number among those of the target.

ghost use Rattle.std.specs.Prelude.{◌≡◌, ◌+◌, ◌<◌, ◌≤◌, All, AllPairs, IfOk, IsTrue, Some, length, map, slice_get};
ghost use Rattle.std.specs.declared.cmp.Ordering.TheVariants.{Less};
ghost use Rattle.term_core.specs.Order.{unknown_cmp};
ghost use Rattle.temporal_csv.specs.Cells.{term_of};
ghost use Rattle.temporal_csv.specs.Stored.{stamped_row};
ghost use Rattle.exchange_engine.specs.Solved.{AreTargetTables, AreWithinPool, IsTermWithin};
ghost use Rattle.exchange_cli.specs.Answers.{answer_relation};
ghost use Rattle.exchange_cli.specs.Rendering.{AreRendered, rank_in, stored_table, stored_term};
ghost use Rattle.exchange_cli.specs.Target.{AreTableFiles};

use crate::file::FileOut;
use crate::storing::{answer_file, table_file, verdict};
use coalescer::Stamped;
use exchange_engine::{Loaded, Solved};
use std::alloc::Global;
use std::marker::Model;
use temporal_csv::{Cell, RowSource};
use term_core::laws::unknowns_have_one_order;
use term_core::{Items, Memory, Pool, Term, Unknown};
use time_line::Span;

/// The files of a target, in the order in which they are stored: a table for each relation, the answers of each query, and then
/// the verdict.
pub fn render(
    alloc: Global,
    loaded: &Loaded,
    solved: &Solved,
    target: &str,
) -> Result<Items<FileOut>, Memory>
    requires tables { AreTargetTables loaded.now.rules.targets solved.now.tables }
    requires within { AreWithinPool loaded.now solved.now.tables }
    requires answers { AreTargetTables (map answer_relation loaded.now.rules.queries) solved.now.answers }
    requires answers_within { AreWithinPool loaded.now solved.now.answers }
    requires ascending { AllPairs (λ u w. unknown_cmp u w ≡ Less) solved.now.nulls }
    ensures { IfOk result (AreRendered loaded.now.pool loaded.now.rules solved.now target.now) }
{
    let mut files = table_files(alloc, loaded, solved, target)?.into_vec();
    let mut answers = answer_files(alloc, loaded, solved, target)?.into_vec();
    files.append(&mut answers)?;
    files.push(verdict(alloc, target)?)?;
    Ok(Items::from_vec(files))
}

// The files of the answers, in the order of the queries.
fn answer_files(
    alloc: Global,
    loaded: &Loaded,
    solved: &Solved,
    target: &str,
) -> Result<Items<FileOut>, Memory>
    requires answers { AreTargetTables (map answer_relation loaded.now.rules.queries) solved.now.answers }
    requires within { AreWithinPool loaded.now solved.now.answers }
    requires ascending { AllPairs (λ u w. unknown_cmp u w ≡ Less) solved.now.nulls }
    ensures { IfOk result (λ files. AreTableFiles target.now
        (map answer_relation loaded.now.rules.queries) files
        (map (stored_table loaded.now.pool solved.now.nulls) solved.now.answers)) }
{
    loaded.rules.is_kept();
    let nulls = solved.nulls.as_slice();
    let queries = loaded.rules.queries().as_slice();
    let answers = solved.answers.as_slice();
    let mut files = Items::new(alloc);
    for (place, list) in answers.iter().enumerate() {
        let rows = TableRows::new(&loaded.pool, nulls, list.as_slice());
        files.push(answer_file(alloc, target, &queries[place], &rows)?)?;
    }
    Ok(files)
}

// The files of the tables, in the order of the relations.
fn table_files(
    alloc: Global,
    loaded: &Loaded,
    solved: &Solved,
    target: &str,
) -> Result<Items<FileOut>, Memory>
    requires tables { AreTargetTables loaded.now.rules.targets solved.now.tables }
    requires within { AreWithinPool loaded.now solved.now.tables }
    requires ascending { AllPairs (λ u w. unknown_cmp u w ≡ Less) solved.now.nulls }
    ensures { IfOk result (λ files. AreTableFiles target.now loaded.now.rules.targets files
        (map (stored_table loaded.now.pool solved.now.nulls) solved.now.tables)) }
{
    loaded.rules.is_kept();
    let nulls = solved.nulls.as_slice();
    let relations = loaded.rules.targets().as_slice();
    let tables = solved.tables.as_slice();
    let mut files = Items::new(alloc);
    for (place, table) in tables.iter().enumerate() {
        let rows = TableRows::new(&loaded.pool, nulls, table.as_slice());
        files.push(table_file(alloc, target, &relations[place], &rows)?)?;
    }
    Ok(files)
}

// The rows of a table as they are stored, of which a cell is made when it is asked for. The constants of the table are of
// the pool, and the unknowns ascend.
#[derive(Drop)]
struct TableRows<'a> {
    pool: &'a Pool,
    nulls: &'a [Unknown],
    table: &'a [Stamped],
}

impl<'a> Model for TableRows<'a> {
    ghost use Rattle.std.specs.Prelude.{List, map};
    ghost use Rattle.temporal_csv.specs.Stored.{StoredRow, stamped_row};
    ghost use Rattle.exchange_cli.specs.Rendering.{IsRenderable, stored_table};

    ghost Value = { List StoredRow };

    ghost view = { λ t. map stamped_row (stored_table t.pool.now t.nulls.now t.table.now) };

    ghost invariant = { λ t. IsRenderable t.pool.now t.nulls.now t.table.now };
}

impl<'a> TableRows<'a> {
    // The rows of a table, with the texts of a pool and the numbers of the unknowns among these.
    fn new(pool: &'a Pool, nulls: &'a [Unknown], table: &'a [Stamped]) -> Self
        requires within { All (λ e. All (IsTermWithin (length pool.now)) e.row) table.now }
        requires ascending { AllPairs (λ u w. unknown_cmp u w ≡ Less) nulls.now }
        ensures { result ≡ map stamped_row (stored_table pool.now nulls.now table.now) }
    {
        TableRows { pool, nulls, table }
    }
}

impl<'a> RowSource for TableRows<'a> {
    ghost rows = { λ rows. rows };

    fn count(&self) -> usize {
        self.table.len()
    }

    fn width(&self, row: usize) -> usize {
        let entry = entry_at(self.table, row);
        entry.row.len()
    }

    fn cell(&self, row: usize, column: usize, near: &mut usize) -> Cell<'_> {
        let entry = entry_at(self.table, row);
        stored_cell(self.pool, self.nulls, near, term_at(entry, column))
    }

    fn span(&self, row: usize) -> Option<Span> {
        let entry = entry_at(self.table, row);
        Some(entry.span)
    }
}

// The entry of a table at a place.
fn entry_at(table: &[Stamped], row: usize) -> &Stamped
    requires { row < length table.now }
    ensures { slice_get table.now row ≡ Some result.now }
{
    &table[row]
}

// The term of an entry in a column.
fn term_at(entry: &Stamped, column: usize) -> &Term
    requires { column < length entry.now.row }
    ensures { slice_get entry.now.row column ≡ Some result.now }
{
    &entry.row.as_slice()[column]
}

/// The cells of a row as they are stored. Unknowns are looked for near a place first, which is that of the last one then.
pub fn stored_cells<'a>(
    alloc: Global,
    pool: &'a Pool,
    nulls: &[Unknown],
    near: &mut usize,
    row: &[Term],
) -> Result<Items<Cell<'a>>, Memory>
    requires within { All (IsTermWithin (length pool.now)) row.now }
    requires ascending { AllPairs (λ u w. unknown_cmp u w ≡ Less) nulls.now }
    ensures { IfOk result (λ cells.
        map term_of cells ≡ map (stored_term pool.now nulls.now) row.now) }
{
    let mut cells = Items::new(alloc);
    cells.room(row.len())?;
    for term in row {
        cells.push(stored_cell(pool, nulls, near, term))?;
    }
    Ok(cells)
}

// A constant by its text, and an unknown by its number: its place among ascending ones, counted from 1.
fn stored_cell<'a>(pool: &'a Pool, nulls: &[Unknown], near: &mut usize, term: &Term) -> Cell<'a>
    requires within { IsTermWithin (length pool.now) term.now }
    requires ascending { AllPairs (λ u w. unknown_cmp u w ≡ Less) nulls.now }
    ensures { term_of result ≡ stored_term pool.now nulls.now term.now }
{
    match term {
        Term::Const(id) => Cell::Const(pool.text(*id)),
        Term::Null(unknown) => {
            let place = place_near(nulls, *near, unknown);
            *near = place;
            Cell::Null(place as u64 + 1)
        }
    }
}

// The place of an unknown among ascending ones. It is looked for at a place and at the next one first: the rows of a table
// come in order, and so do their unknowns.
fn place_near(nulls: &[Unknown], near: usize, unknown: &Unknown) -> usize
    requires { AllPairs (λ u w. unknown_cmp u w ≡ Less) nulls.now }
    ensures within { result ≤ length nulls.now }
    ensures place { result + 1 ≡ rank_in nulls.now unknown.now }
{
    if is_at(nulls, near, unknown) {
        return near;
    }
    let next = near.saturating_add(1);
    if is_at(nulls, next, unknown) {
        return next;
    }
    place_of(nulls, unknown)
}

// Whether an unknown stands at a place.
fn is_at(nulls: &[Unknown], place: usize, unknown: &Unknown) -> bool
    requires { AllPairs (λ u w. unknown_cmp u w ≡ Less) nulls.now }
    ensures within { IsTrue result → place < length nulls.now }
    ensures place { IsTrue result → place + 1 ≡ rank_in nulls.now unknown.now }
{
    unknowns_have_one_order();
    place < nulls.len() && are_same(&nulls[place], unknown)
}

// Whether two unknowns are one.
fn are_same(unknown: &Unknown, other: &Unknown) -> bool
    ensures { IsTrue result → unknown.now ≡ other.now }
{
    unknowns_have_one_order();
    unknown.cmp(other).is_eq()
}

// The place of an unknown among ascending ones, found by halves.
fn place_of(nulls: &[Unknown], unknown: &Unknown) -> usize
    requires { AllPairs (λ u w. unknown_cmp u w ≡ Less) nulls.now }
    ensures within { result ≤ length nulls.now }
    ensures place { result + 1 ≡ rank_in nulls.now unknown.now }
{
    unknowns_have_one_order();
    nulls.partition_point(|other| other.cmp(unknown).is_lt())
}
