//! The tables of a target: the rows of its store, by their relations, and coalesced.

ghost use Rattle.std.specs.Prelude.{◌≡◌, ◌<◌, [], IsSomeAnd, Some, IfOk, OnOk, length, All};
ghost use Rattle.std.specs.Option.{IfSome};
ghost use Rattle.rule_core.specs.Values.{term_value};
ghost use Rattle.fact_table.specs.Rows.{HasCell, row_at, head_at, cell_at};
ghost use Rattle.null_store.specs.Store.{facts_in, term_in};
ghost use Rattle.exchange_engine.specs.Solved.{AreCoalesced, HoldSnapshotsOf};
ghost use Rattle.exchange_engine.specs.Grouped.{AreBelow, IsRowOf, HaveFacts, AddsRow};

use coalescer::{Stamped, coalesce};
use fact_table::{FactSource, RowHead};
use null_store::NullStore;
use std::alloc::Global;
use std::sync::ledger::Ledger;
use term_core::{Items, Memory, Seen, Steps, Term};

/// A coalesced table for each of so many relations. At every instant they hold what the store does.
pub fn tables_of<L: Ledger>(
    alloc: Global,
    store: &NullStore,
    relations: usize,
    steps: &mut Steps<L>,
) -> Result<Items<Items<Stamped>>, Memory>
    requires { AreBelow relations store.now }
    ensures size { IfOk result (λ tables. length tables ≡ relations) }
    ensures coalesced { IfOk result AreCoalesced }
    ensures same { IfOk result (HoldSnapshotsOf (facts_in store.now)) }
{
    let lists = lists_of(alloc, store, relations, steps)?;
    let mut tables = Items::new(alloc);
    tables.room(relations)?;
    for list in lists {
        tables.push(coalesce(alloc, list)?)?;
    }
    Ok(tables)
}

// The rows of a store in a list for each relation.
fn lists_of<L: Ledger>(
    alloc: Global,
    store: &NullStore,
    relations: usize,
    steps: &mut Steps<L>,
) -> Result<Vec<Items<Stamped>>, Memory>
    requires { AreBelow relations store.now }
    ensures size { IfOk result (λ lists. length lists.items ≡ relations) }
    ensures facts { IfOk result (λ lists. HaveFacts (facts_in store.now) lists.items) }
{
    let mut lists = empty_lists(alloc, store, relations)?;
    for row in 0..store.bound() {
        add_row(alloc, store, row, &mut lists, steps)?;
    }
    Ok(lists)
}

// A list with no row for each relation, with room for the rows of the store.
fn empty_lists(
    alloc: Global,
    store: &NullStore,
    relations: usize,
) -> Result<Vec<Items<Stamped>>, Memory>
    requires { AreBelow relations store.now }
    ensures size { IfOk result (λ lists. length lists.items ≡ relations) }
    ensures empty { IfOk result (λ lists. All (λ list. list ≡ []) lists.items) }
{
    let counts = row_counts(alloc, store, relations)?;
    let mut lists = Items::new(alloc);
    lists.room(relations)?;
    for count in &counts {
        lists.push(empty_list(alloc, *count)?)?;
    }
    Ok(lists.into_vec())
}

// No row, with room for so many.
fn empty_list(alloc: Global, room: usize) -> Result<Items<Stamped>, Memory>
    ensures { IfOk result (λ list. list ≡ []) }
{
    let mut list = Items::new(alloc);
    list.room(room)?;
    Ok(list)
}

// How many rows each relation has. Where there is one relation, it has them all.
fn row_counts(alloc: Global, store: &NullStore, relations: usize) -> Result<Vec<usize>, Memory>
    requires { AreBelow relations store.now }
    ensures { IfOk result (λ counts. length counts.items ≡ relations) }
{
    if relations == 1 {
        return Ok(vec![in alloc; store.bound(); 1]?);
    }
    let mut counts = vec![in alloc; 0; relations]?;
    for row in 0..store.bound() {
        count_row(store, row, &mut counts);
    }
    Ok(counts)
}

// Counts the row with the number, if there is one, for its relation.
fn count_row(store: &NullStore, row: usize, counts: &mut Vec<usize>)
    requires { IfSome (row_at store.now.rows row) (λ seen. seen.relation < length counts.old.items) }
    ensures { length counts.new.items ≡ length counts.old.items }
{
    if let Some(head) = store.head(row) {
        let count = &mut counts[head.relation as usize];
        *count = count.saturating_add(1);
    }
}

// Adds the row with the number, if there is one, to the list of its relation.
fn add_row<L: Ledger>(
    alloc: Global,
    store: &NullStore,
    row: usize,
    lists: &mut Vec<Items<Stamped>>,
    steps: &mut Steps<L>,
) -> Result<(), Memory>
    requires { IfSome (row_at store.now.rows row) (λ seen. seen.relation < length lists.old.items) }
    ensures size { OnOk result (length lists.new.items ≡ length lists.old.items) }
    ensures adds { OnOk result (AddsRow store.now row lists.old.items lists.new.items) }
{
    let Some(head) = store.head(row) else {
        return Ok(());
    };
    let entry = row_of(alloc, store, row, &head, steps)?;
    lists[head.relation as usize].push(entry)
}

// A row of a store as terms.
fn row_of<L: Ledger>(
    alloc: Global,
    store: &NullStore,
    row: usize,
    head: &RowHead,
    steps: &mut Steps<L>,
) -> Result<Stamped, Memory>
    requires { head_at store.now.rows row ≡ Some head.now }
    ensures { IfOk result (λ entry. IsSomeAnd (row_at store.now.rows row)
        (λ seen. IsRowOf store.now seen entry)) }
{
    let mut terms = Vec::with_capacity(alloc, head.arity)?;
    for column in 0..head.arity {
        terms.push(term_at(store, row, column, steps)?)?;
    }
    Ok(Stamped {
        row: Items::from_vec(terms),
        span: head.span,
    })
}

// The term that a cell holds.
fn term_at<L: Ledger>(
    store: &NullStore,
    row: usize,
    column: usize,
    steps: &mut Steps<L>,
) -> Result<Term, Memory>
    requires { HasCell store.now.rows row column }
    ensures { IfOk result (λ term. IsSomeAnd (cell_at store.now.rows row column)
        (λ cell. term_value term ≡ term_in store.now cell)) }
{
    store.is_kept();
    match store.cell(row, column, steps) {
        Seen::Const(id) => Ok(Term::Const(id)),
        Seen::Piece(piece) => Ok(Term::Null(store.unknown_of(piece)?)),
    }
}
