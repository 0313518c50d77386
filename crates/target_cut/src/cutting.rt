//! Cuts of components.

ghost use Rattle.std.specs.Prelude.{◌≡◌, ℤ, Some, IsPermutation, IsSome, IsSomeAnd, All, IfOk, OnOk, OnErr, length};
ghost use Rattle.time_line.specs.Span.{Ends, IsInside, IsWithinLimit};
ghost use Rattle.term_core.specs.declared.const_id.ConstId.{ConstId};
ghost use Rattle.rule_core.specs.Terms.{TermOf};
ghost use Rattle.rule_core.specs.Snapshot.{snapshot_at};
ghost use Rattle.fact_table.specs.Rows.{row_at};
ghost use Rattle.null_store.specs.Store.{facts_in};
ghost use Rattle.null_store.specs.Changes.{HoldsSame};
ghost use Rattle.null_store.specs.Splits.{cells_of};
ghost use Rattle.failure_trace.specs.JournalRun.{Cuts};
ghost use Rattle.target_cut.specs.Cuts.{CutsComponent, IsSideOf};

use crate::sharing::component;
use fact_table::FactSource;
use null_store::NullStore;
use std::alloc::Global;
use std::sync::ledger::Ledger;
use term_core::{Items, Memory, Slots, Steps};

/// Rows that were cut at an instant, and their copies, in the same order.
#[derive(Debug, Drop)]
pub struct Cut {
    /// The rows, which keep the part before the instant.
    pub rows: Items<usize>,
    /// The copies, which have the part from the instant on.
    pub made: Items<usize>,
}

/// Cuts a row at an instant, with all rows that are reached from it by sharing pieces. For each
/// unknown of the row, and each span within the row's that has the instant as an end, a journal may
/// note this cut. On an error rows, pieces and names are as before.
pub fn cut_piece<L: Ledger>(
    alloc: Global,
    store: &mut NullStore,
    row: usize,
    m: i64,
    steps: &mut Steps<L>,
) -> Result<Cut, Memory>
    requires row { IsSomeAnd (row_at store.old.rows row) (λ r. IsInside r.span m) }
    requires limit { IsWithinLimit (Some m) }
    ensures cuts { IfOk result (λ cut. CutsComponent row m cut store.old store.new) }
    ensures snapshots { OnOk result ((t : ℤ) → IsPermutation (snapshot_at (facts_in store.old) t)
        (snapshot_at (facts_in store.new) t)) }
    ensures journal { IfOk result (λ cut. (term : TermOf ConstId) (c : Ends)
        → IsSideOf store.old row term c m
        → Cuts (facts_in store.old) term c (record { at = m; rows = length cut.rows })
        (facts_in store.new)) }
    ensures err { OnErr result (HoldsSame store.old store.new) }
{
    store.is_kept();
    let rows = component(alloc, store, row, steps)?;
    let cells = cells_in(store, rows.as_slice())?;
    let mut made = Slots::from_items(Items::new(alloc));
    made.room(rows.len())?;
    store.reserve(rows.len(), cells, cells)?;
    store.split_rows(&rows, m, &mut made, steps);
    Ok(Cut {
        rows,
        made: made.into_items(),
    })
}

// How many cells rows have.
fn cells_in(store: &NullStore, rows: &[usize]) -> Result<usize, Memory>
    requires { All (λ row. IsSome (row_at store.now.rows row)) rows.now }
    ensures { IfOk result (λ cells. cells ≡ cells_of store.now.rows rows.now) }
{
    let mut cells: usize = 0;
    for row in rows {
        let head = store.head(*row).unwrap();
        cells = cells.checked_add(head.arity).ok_or(Memory)?;
    }
    Ok(cells)
}
