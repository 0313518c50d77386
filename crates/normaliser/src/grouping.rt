//! The groups of a table's facts.

ghost use Rattle.std.specs.Prelude.{◌↔◌, ◌<◌, ◌≤◌, ℕ, Contains, length, IfOk, OnOk};
ghost use Rattle.rule_core.specs.Validity.{occurrences};
ghost use Rattle.normaliser.specs.Normalised.{AreLeastPlaces};
ghost use Rattle.normaliser.specs.Labels.{UnitesMatches};

use crate::union::Union;
use body_match::visit_matches;
use fact_table::FactTable;
use rule_core::{Rules, Tgd};
use std::alloc::Global;
use std::sync::ledger::Ledger;
use term_core::{Items, Memory, Steps};

/// For each fact of a table the least place of a fact of its group. Two facts are of one group where matches of rules' bodies
/// lead from one to the other, each by facts that hold together at some instant.
pub fn groups<L: Ledger>(
    alloc: Global,
    table: &FactTable,
    rules: &Rules,
    steps: &mut Steps<L>,
) -> Result<Items<usize>, Memory>
    ensures { IfOk result (AreLeastPlaces rules.now table.now) }
{
    rules.is_kept();
    let mut union = Union::new(alloc, table.facts().len())?;
    for tgd in rules.tgds().as_slice() {
        unite_matches(alloc, tgd, table, &mut union, steps)?;
    }
    Ok(union.into_labels())
}

// Unites the facts of each match of a tgd's body. A body of one atom joins nothing.
fn unite_matches<L: Ledger>(
    alloc: Global,
    tgd: &Tgd,
    table: &FactTable,
    union: &mut Union,
    steps: &mut Steps<L>,
) -> Result<(), Memory>
    requires atoms { 1 ≤ length tgd.now.body }
    requires vars { (v : ℕ) → Contains (occurrences tgd.now.body) v ↔ (v < tgd.now.body_vars) }
    ensures { OnOk result (UnitesMatches tgd.now table.now union.old union.new) }
{
    if tgd.body.len() < 2 {
        return Ok(());
    }
    let whole = visit_matches(alloc, &tgd.body, tgd.body_vars, table, union, steps)?;
    prove!(whole);
    Ok(())
}
