//! The answers of a query: those of its disjuncts together.

ghost use Rattle.std.specs.Prelude.{All, IfOk};
ghost use Rattle.std.specs.Cmp.Lexicographic.{slice_cmp};
ghost use Rattle.term_core.specs.Order.{term_cmp};
ghost use Rattle.rule_core.specs.Coalesced.{IsCoalesced};
ghost use Rattle.certain_answers.specs.Answering.{IsAnswerable, CoversAnswers};
ghost use Rattle.certain_answers.specs.Collected.{AddsBranch};

use crate::collecting::Collector;
use body_match::visit_matches;
use coalescer::{Stamped, coalesce};
use fact_table::FactSource;
use rule_core::{Branch, Query};
use std::alloc::Global;
use std::sync::ledger::Ledger;
use term_core::{Items, Memory, Steps};

/// The lists of constants that a query has for answers on the rows of a store, coalesced: a list is covered exactly at the
/// instants at which it is an answer. No row has an unknown.
pub fn answers<F: FactSource, L: Ledger>(
    alloc: Global,
    query: &Query,
    source: &F,
    steps: &mut Steps<L>,
) -> Result<Items<Stamped>, Memory>
    requires { All IsAnswerable query.now.branches }
    ensures coalesced { IfOk result (IsCoalesced (slice_cmp term_cmp)) }
    ensures answers { IfOk result (CoversAnswers query.now (F.rows source.now)) }
{
    let mut rows = Vec::new(alloc);
    for branch in query.branches.as_slice() {
        rows = with_branch(alloc, branch, source, rows, steps)?;
    }
    coalesce(alloc, Items::from_vec(rows))
}

// Rows, and behind them those of a disjunct.
fn with_branch<F: FactSource, L: Ledger>(
    alloc: Global,
    branch: &Branch,
    source: &F,
    rows: Vec<Stamped>,
    steps: &mut Steps<L>,
) -> Result<Vec<Stamped>, Memory>
    requires { IsAnswerable branch.now }
    ensures { IfOk result (λ new. AddsBranch (F.rows source.now) branch.now rows.items new.items) }
{
    let vars = branch.vars.len() as u32;
    let mut collector = Collector::new(alloc, branch.columns.as_slice(), rows);
    visit_matches(alloc, &branch.body, vars, source, &mut collector, steps)?;
    Ok(collector.into_rows())
}
