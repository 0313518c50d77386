//! For each atom behind the first, the rows of its form under what stands in the columns that earlier atoms or constants tell.

ghost use Rattle.std.specs.Prelude.{[], ◌≡◌, ◌↔◌, ◌<◌, ◌≤◌, ◌+◌, ℕ, Some, All, Contains, length, IsTrue, IfOk, OnOk, IfSome, IfNone, slice_get};
ghost use Rattle.fact_table.specs.Rows.{HasCell, SeenRow, cell_at};
ghost use Rattle.time_line.specs.Span.{IsSpan};
ghost use Rattle.body_match.specs.declared.lookup.Entry.{Entry};
ghost use Rattle.body_match.specs.Renewals.{KeepsBut, KeepsOthers, ListsEach};
ghost use Rattle.body_match.specs.Keys.{AreBound, AreLevels, HasForm, IsBound, IsEntryOf, IsLevel, ListsOne, ListsRows, cell_number, key_of, mixed, start_number, stop_number};

use crate::lookup::{Entry, Probe};
use crate::places::Place;
use crate::register::Register;
use fact_table::{FactSource, RowHead};
use rule_core::{Arg, Atom};
use std::alloc::Global;
use std::sync::ledger::Ledger;
use term_core::{Memory, Seen, Steps};
use time_line::Span;

/// Spreads keys over all numbers.
const FACTOR: u64 = 11400714819323198485;

/// Where the numbers of pieces begin, far behind those of constants.
const PIECES: u64 = 9223372036854775808;

/// The columns in which it is told what stands, and the rows of the atom's form, listed under what they have there.
#[derive(Drop)]
pub struct Level {
    pub columns: Vec<usize>,
    pub listed: Register,
}

/// A level for each atom behind the first.
pub fn levels_of<F: FactSource, L: Ledger>(
    alloc: Global,
    body: &[Atom],
    places: &[Place],
    source: &F,
    steps: &mut Steps<L>,
) -> Result<Vec<Level>, Memory>
    ensures size { IfOk result (λ levels. length body.now ≤ length levels.items + 1) }
    ensures levels { IfOk result (λ levels.
        AreLevels body.now places.now (F.rows source.now) (length body.now) levels.items) }
{
    let mut levels = Vec::new(alloc);
    for before in 1..body.len() {
        levels.push(level_of(alloc, &body[before], before, places, source, steps)?)?;
    }
    Ok(levels)
}

/// A level for each atom behind the first, in which no row is listed.
pub fn bare_levels(alloc: Global, body: &[Atom], places: &[Place]) -> Result<Vec<Level>, Memory>
    ensures size { IfOk result (λ levels. length body.now ≤ length levels.items + 1) }
    ensures levels { IfOk result (λ levels.
        AreLevels body.now places.now [] (length body.now) levels.items) }
{
    let mut levels = Vec::new(alloc);
    for before in 1..body.len() {
        levels.push(bare_level(alloc, &body[before], before, places)?)?;
    }
    Ok(levels)
}

// The level of an atom, where so many stand before it, in which no row is listed.
fn bare_level(alloc: Global, atom: &Atom, before: usize, places: &[Place]) -> Result<Level, Memory>
    ensures { IfOk result (IsLevel places.now [] before atom.now) }
{
    let columns = columns_of(alloc, atom, before, places)?;
    let listed = Register::make(alloc, Vec::new(alloc))?;
    Ok(Level { columns, listed })
}

// The level of an atom, where so many stand before it.
fn level_of<F: FactSource, L: Ledger>(
    alloc: Global,
    atom: &Atom,
    before: usize,
    places: &[Place],
    source: &F,
    steps: &mut Steps<L>,
) -> Result<Level, Memory>
    ensures { IfOk result (IsLevel places.now (F.rows source.now) before atom.now) }
{
    let columns = columns_of(alloc, atom, before, places)?;
    let entries = entries_of(alloc, atom, columns.as_slice(), source, steps)?;
    let listed = Register::make(alloc, entries)?;
    Ok(Level { columns, listed })
}

// The columns of an atom in which rows of earlier atoms, or constants, tell what stands.
fn columns_of(
    alloc: Global,
    atom: &Atom,
    before: usize,
    places: &[Place],
) -> Result<Vec<usize>, Memory>
    ensures { IfOk result (λ columns. AreBound places.now before atom.now columns.items) }
{
    let mut columns = Vec::new(alloc);
    for (column, arg) in atom.args.as_slice().iter().enumerate() {
        if !is_bound(*arg, before, places) {
            continue;
        }
        columns.push(column)?;
    }
    Ok(columns)
}

// Whether it is told what an argument stands for.
fn is_bound(arg: Arg, before: usize, places: &[Place]) -> bool
    ensures { IsTrue result → IsBound places.now before arg }
{
    match arg {
        Arg::Const(_) => true,
        Arg::Var(variable) => match places.get(variable as usize) {
            Some(place) => place.atom < before,
            None => false,
        },
    }
}

// The rows of an atom's form, each under the key of its cells in the columns.
fn entries_of<F: FactSource, L: Ledger>(
    alloc: Global,
    atom: &Atom,
    columns: &[usize],
    source: &F,
    steps: &mut Steps<L>,
) -> Result<Vec<Entry>, Memory>
    requires { (column : ℕ) → Contains columns.now column → column < length atom.now.args }
    ensures { IfOk result (λ entries. ListsRows (F.rows source.now) atom.now columns.now
        (length (F.rows source.now)) entries.items) }
{
    let mut entries = Vec::new(alloc);
    for row in 0..source.bound() {
        add_row(atom, columns, source, row, &mut entries, steps)?;
    }
    Ok(entries)
}

// Adds the row with a number, if it has the atom's form.
fn add_row<F: FactSource, L: Ledger>(
    atom: &Atom,
    columns: &[usize],
    source: &F,
    row: usize,
    entries: &mut Vec<Entry>,
    steps: &mut Steps<L>,
) -> Result<(), Memory>
    requires { (column : ℕ) → Contains columns.now column → column < length atom.now.args }
    ensures kept { OnOk result ((entry : Entry)
        → Contains entries.old.items entry → Contains entries.new.items entry) }
    ensures listed { OnOk result ((seen : SeenRow) → HasForm (F.rows source.now) atom.now row seen
        → (entry : Entry) × Contains entries.new.items entry
        × IsEntryOf (F.rows source.now) columns.now row seen entry) }
{
    let Some(entry) = entry_for(atom, columns, source, row, steps) else {
        return Ok(());
    };
    entries.push(entry)?;
    Ok(())
}

// The entry of a row, if it has the atom's form.
fn entry_for<F: FactSource, L: Ledger>(
    atom: &Atom,
    columns: &[usize],
    source: &F,
    row: usize,
    steps: &mut Steps<L>,
) -> Option<Entry>
    requires { (column : ℕ) → Contains columns.now column → column < length atom.now.args }
    ensures some { IfSome result (λ entry. (seen : SeenRow)
        → HasForm (F.rows source.now) atom.now row seen
        → IsEntryOf (F.rows source.now) columns.now row seen entry) }
    ensures none { IfNone result ((seen : SeenRow) → ¬ (HasForm (F.rows source.now) atom.now row seen)) }
    ensures row { IfSome result (λ entry. entry.row ≡ row) }
{
    let head = source.head(row)?;
    if !has_form(&head, atom) {
        return None;
    }
    let key = row_key(source, columns, row, steps);
    Some(entry_of(key, &head.span, row))
}

/// Lists a row, if it has the atom's form.
pub fn list_in<F: FactSource, L: Ledger>(
    alloc: Global,
    atom: &Atom,
    level: &mut Level,
    source: &F,
    row: usize,
    steps: &mut Steps<L>,
) -> Result<(), Memory>
    requires { (column : ℕ) → Contains level.old.columns.items column → column < length atom.now.args }
    ensures columns { level.new.columns.items ≡ level.old.columns.items }
    ensures kept { OnOk result ((entry : Entry)
        → Contains level.old.listed entry → Contains level.new.listed entry) }
    ensures listed { OnOk result
        (ListsOne (F.rows source.now) atom.now level.new.columns.items row level.new.listed) }
{
    match entry_for(atom, level.columns.as_slice(), source, row, steps) {
        Some(entry) => level.listed.add(alloc, entry),
        None => Ok(()),
    }
}

/// Drops rows, and lists others, each if it has the atom's form.
pub fn renew_in<F: FactSource, L: Ledger>(
    alloc: Global,
    atom: &Atom,
    level: &mut Level,
    source: &F,
    gone: &[usize],
    fresh: &[usize],
    steps: &mut Steps<L>,
) -> Result<(), Memory>
    requires { (column : ℕ) → Contains level.old.columns.items column → column < length atom.now.args }
    ensures columns { level.new.columns.items ≡ level.old.columns.items }
    ensures kept { OnOk result (KeepsBut gone.now level.old.listed level.new.listed) }
    ensures listed { OnOk result
        (ListsEach (F.rows source.now) atom.now level.new.columns.items fresh.now level.new.listed) }
{
    let columns = level.columns.as_slice();
    drop_rows(alloc, atom, columns, &mut level.listed, source, gone, steps)?;
    let entries = entries_among(alloc, atom, columns, source, fresh, steps)?;
    level.listed.add_all(alloc, entries)
}

// Drops rows, each if it has the atom's form.
fn drop_rows<F: FactSource, L: Ledger>(
    alloc: Global,
    atom: &Atom,
    columns: &[usize],
    listed: &mut Register,
    source: &F,
    rows: &[usize],
    steps: &mut Steps<L>,
) -> Result<(), Memory>
    requires { (column : ℕ) → Contains columns.now column → column < length atom.now.args }
    ensures { OnOk result (KeepsBut rows.now listed.old listed.new) }
{
    for row in rows {
        drop_row(alloc, atom, columns, listed, source, *row, steps)?;
    }
    Ok(())
}

// Drops a row, if it has the atom's form.
fn drop_row<F: FactSource, L: Ledger>(
    alloc: Global,
    atom: &Atom,
    columns: &[usize],
    listed: &mut Register,
    source: &F,
    row: usize,
    steps: &mut Steps<L>,
) -> Result<(), Memory>
    requires { (column : ℕ) → Contains columns.now column → column < length atom.now.args }
    ensures { OnOk result (KeepsOthers row listed.old listed.new) }
{
    match entry_for(atom, columns, source, row, steps) {
        Some(entry) => listed.drop_entry(alloc, &entry),
        None => Ok(()),
    }
}

// Those of the rows that have the atom's form, each under the key of its cells in the columns.
fn entries_among<F: FactSource, L: Ledger>(
    alloc: Global,
    atom: &Atom,
    columns: &[usize],
    source: &F,
    rows: &[usize],
    steps: &mut Steps<L>,
) -> Result<Vec<Entry>, Memory>
    requires { (column : ℕ) → Contains columns.now column → column < length atom.now.args }
    ensures { IfOk result (λ entries. ListsEach (F.rows source.now) atom.now columns.now rows.now entries.items) }
{
    let mut entries = Vec::new(alloc);
    for row in rows {
        add_row(atom, columns, source, *row, &mut entries, steps)?;
    }
    Ok(entries)
}

// The entry of a row under a key, with its span.
fn entry_of(key: u64, span: &Span, row: usize) -> Entry
    ensures key { result.key ≡ key }
    ensures row { result.row ≡ row }
    ensures from { result.from ≡ start_number span.now.lo }
    ensures to { result.to ≡ stop_number span.now.hi }
    ensures span { IsSpan span.now }
{
    Entry {
        key,
        from: span.lo().unwrap_or(i64::MIN),
        to: span.hi().unwrap_or(i64::MAX),
        row,
    }
}

/// Whether a row with this head has the atom's relation and as many cells as the atom has arguments.
pub fn has_form(head: &RowHead, atom: &Atom) -> bool
    ensures { IsTrue result ↔ ((head.now.relation ≡ atom.now.relation)
        × (head.now.arity ≡ length atom.now.args)) }
{
    head.relation == atom.relation && head.arity == atom.args.len()
}

// The key of a row's cells in columns.
fn row_key<F: FactSource, L: Ledger>(
    source: &F,
    columns: &[usize],
    row: usize,
    steps: &mut Steps<L>,
) -> u64
    requires { All (HasCell (F.rows source.now) row) columns.now }
    ensures { result ≡ key_of (cell_at (F.rows source.now) row) columns.now }
{
    let mut key = 0;
    for column in columns {
        key = mix(key, source.cell(row, *column, steps));
    }
    key
}

/// A key, and one more cell mixed into it.
pub fn mix(key: u64, cell: Seen) -> u64
    ensures { result ≡ mixed key cell }
{
    key.wrapping_add(number_of(cell)).wrapping_mul(FACTOR)
}

// A number for a cell.
fn number_of(cell: Seen) -> u64
    ensures { result ≡ cell_number cell }
{
    match cell {
        Seen::Const(constant) => u64::from(constant.0),
        Seen::Piece(piece) => (piece as u64).wrapping_add(PIECES),
    }
}

/// What is sought under a key over a span.
pub fn probe_of(key: u64, span: &Span) -> Probe
    ensures key { result.key ≡ key }
    ensures from { result.from ≡ start_number span.now.lo }
    ensures to { result.to ≡ stop_number span.now.hi }
    ensures span { IsSpan span.now }
{
    Probe {
        key,
        from: span.lo().unwrap_or(i64::MIN),
        to: span.hi().unwrap_or(i64::MAX),
    }
}
