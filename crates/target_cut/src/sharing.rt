//! The component of a row: the rows that are reached from it by sharing pieces. Of five rows with
//! the pieces 1 2, 2 3, 3, 4 and none, the first three are the component of each of the three.

ghost use Rattle.std.specs.Prelude.{IsSome, IfOk, OnOk};
ghost use Rattle.fact_table.specs.Rows.{row_at};
ghost use Rattle.null_store.specs.Store.{IsLive};
ghost use Rattle.target_cut.specs.Component.{IsComponentOf};
ghost use Rattle.target_cut.specs.Search.{Visits, Walks};

use fact_table::FactSource;
use indexmap::IndexSet;
use null_store::NullStore;
use std::alloc::Global;
use std::sync::ledger::Ledger;
use term_core::{Items, Memory, Seen, Steps};

/// The rows that are reached from a row by sharing pieces, in order. It walks each of their pieces
/// once, and takes memory for these rows and pieces alone.
pub fn component<L: Ledger>(
    alloc: Global,
    store: &NullStore,
    row: usize,
    steps: &mut Steps<L>,
) -> Result<Items<usize>, Memory>
    requires { IsSome (row_at store.now.rows row) }
    ensures { IfOk result (IsComponentOf store.now row) }
{
    let mut rows = IndexSet::new(alloc);
    let mut pieces = IndexSet::new(alloc);
    rows.insert(row)?;
    let mut done = 0;
    while done < rows.len() {
        let next = rows[done];
        visit(store, next, &mut rows, &mut pieces, steps)?;
        done += 1;
    }
    let mut numbers = rows.as_slice().to_vec(alloc)?;
    numbers.sort_unstable();
    Ok(Items::from_vec(numbers))
}

// Adds the rows that share a piece with this one, but for the pieces that were walked before.
fn visit<L: Ledger>(
    store: &NullStore,
    row: usize,
    rows: &mut IndexSet<usize>,
    pieces: &mut IndexSet<usize>,
    steps: &mut Steps<L>,
) -> Result<(), Memory>
    requires { IsSome (row_at store.now.rows row) }
    ensures { OnOk result (Visits store.now row rows.old.keys rows.new.keys
        pieces.old.keys pieces.new.keys) }
{
    store.is_kept();
    let head = store.head(row).unwrap();
    for column in 0..head.arity {
        if let Seen::Piece(piece) = store.cell(row, column, steps) {
            if pieces.insert(piece)? {
                walk(store, piece, rows, steps)?;
            }
        }
    }
    Ok(())
}

// Adds the rows that hold a live piece.
fn walk<L: Ledger>(
    store: &NullStore,
    piece: usize,
    rows: &mut IndexSet<usize>,
    steps: &mut Steps<L>,
) -> Result<(), Memory>
    requires { IsLive store.now piece }
    ensures { OnOk result (Walks store.now piece rows.old.keys rows.new.keys) }
{
    let holders = store.occurrence_rows(piece, steps)?;
    rows.extend(holders.into_vec())?;
    Ok(())
}
