//! The table that is cut.

ghost use Rattle.std.specs.Prelude.{IfOk};
ghost use Rattle.normaliser.specs.Normalised.{HaveSameSnapshots, IsEqualOrDisjoint, IsNormalised};

use crate::cuts::cuts_of;
use crate::grouping::groups;
use crate::pieces::pieces_of;
use fact_table::FactTable;
use rule_core::Rules;
use std::alloc::Global;
use std::sync::ledger::Ledger;
use term_core::{Memory, Steps};

/// The facts of a table in pieces: each is cut at every end of a fact of its group that is strictly inside its span. What holds
/// at an instant stays, and rows that match a tgd's body have equal spans or no instant in common.
pub fn normalise<L: Ledger>(
    alloc: Global,
    table: &FactTable,
    rules: &Rules,
    steps: &mut Steps<L>,
) -> Result<FactTable, Memory>
    ensures normalised { IfOk result (IsNormalised rules.now table.now) }
    ensures same { IfOk result (HaveSameSnapshots table.now) }
    ensures apart { IfOk result (IsEqualOrDisjoint rules.now) }
{
    let places = groups(alloc, table, rules, steps)?;
    let facts = table.facts().as_slice();
    let cuts = cuts_of(alloc, facts, places.as_slice())?;
    let pieces = pieces_of(alloc, facts, places.as_slice(), cuts.as_slice())?;
    FactTable::make(alloc, pieces)
}
