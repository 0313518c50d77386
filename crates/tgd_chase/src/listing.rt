//! The firings of a mapping's tgds on a table, and the matches that support them.

ghost use Rattle.std.specs.Prelude.{IfOk};
ghost use Rattle.fact_table.specs.Snapshots.{stamped_facts};
ghost use Rattle.failure_trace.specs.Firings.{AreFirings};
ghost use Rattle.tgd_chase.specs.Fired.{HaveMatchEnds};

use crate::candidates::find_candidates;
use crate::merging::merge;
use fact_table::FactTable;
use failure_trace::Firing;
use rule_core::Rules;
use std::alloc::Global;
use std::sync::ledger::Ledger;
use term_core::{Items, Memory, Steps};

/// For each tgd and each list of frontier values, the time in which some match of the body has these values, coalesced: each span
/// is one firing.
pub fn list_firings<L: Ledger>(
    alloc: Global,
    rules: &Rules,
    table: &FactTable,
    steps: &mut Steps<L>,
) -> Result<Items<Firing>, Memory>
    ensures firings { IfOk result (AreFirings rules.now (stamped_facts table.now)) }
    ensures ends { IfOk result (HaveMatchEnds rules.now table.now) }
{
    let mut candidates = find_candidates(alloc, rules, table, steps)?;
    candidates.sort_unstable();
    merge(alloc, candidates)
}
