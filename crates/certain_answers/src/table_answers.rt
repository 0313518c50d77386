//! The answers of queries on coalesced tables, such as those of a target.

ghost use Rattle.std.specs.Prelude.{◌≡◌, ◌≤◌, All, AllPairs, IfOk, length};
ghost use Rattle.std.specs.List.{AllZip};
ghost use Rattle.std.specs.declared.cmp.Ordering.TheVariants.{Less};
ghost use Rattle.term_core.specs.Order.{unknown_cmp};
ghost use Rattle.certain_answers.specs.Answering.{AreKnown, CanAnswer, IsAnsweredOn};

use crate::answers;
use crate::table_rows::TableRows;
use coalescer::Stamped;
use rule_core::Query;
use std::alloc::Global;
use std::sync::ledger::Ledger;
use term_core::laws::unknowns_have_one_order;
use term_core::{Items, Memory, Steps, Unknown};

/// The answers of each query on tables, one for each relation. Each unknown of the tables is among the given ones, which ascend.
/// Without a query no table is looked at.
pub fn answers_of<L: Ledger>(
    alloc: Global,
    queries: &[Query],
    tables: &[Items<Stamped>],
    nulls: &[Unknown],
    steps: &mut Steps<L>,
) -> Result<Items<Items<Stamped>>, Memory>
    requires queries { All CanAnswer queries.now }
    requires few { length tables.now ≤ 64 }
    requires ascending { AllPairs (λ u w. unknown_cmp u w ≡ Less) nulls.now }
    requires known { AreKnown nulls.now tables.now }
    ensures { IfOk result (AllZip (IsAnsweredOn tables.now) queries.now) }
{
    let mut lists = Items::new(alloc);
    if queries.is_empty() {
        return Ok(lists);
    }
    unknowns_have_one_order();
    let source = TableRows::make(alloc, tables, nulls)?;
    for query in queries {
        lists.push(answers(alloc, query, &source, steps)?)?;
    }
    Ok(lists)
}
