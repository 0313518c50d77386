//! The match that has given rows, one for each atom, if there is one.

ghost use Rattle.std.specs.Prelude.{◌≡◌, ◌<◌, ℕ, Contains, length, IfOk, IfSome, IfNone};
ghost use Rattle.body_match.specs.declared.found.Match.{Match};
ghost use Rattle.body_match.specs.Plans.{CanSearch, HasRows, IsOrdered, IsUnequalIn};
ghost use Rattle.body_match.specs.Unequal.{Differ};

use crate::Match;
use crate::plan::Plan;
use crate::search::{Search, match_of};
use crate::unequal::gives_same;
use crate::using::match_back;
use fact_table::FactSource;
use std::alloc::Global;
use std::sync::ledger::Ledger;
use term_core::{Memory, Steps};

/// The match of a plan that has these rows in the order of the body, if there is one and it gives the two variables different values.
pub fn unequal_match<F: FactSource, L: Ledger>(
    alloc: Global,
    plan: &Plan,
    source: &F,
    rows: &[usize],
    left: u32,
    right: u32,
    steps: &mut Steps<L>,
) -> Result<Option<Match>, Memory>
    requires search { CanSearch plan.now (F.rows source.now) }
    requires size { length rows.now ≡ length plan.now.order.items }
    ensures some { IfOk result (λ found. IfSome found
        (IsUnequalIn plan.now (F.rows source.now) rows.now left right)) }
    ensures none { IfOk result (λ found. IfNone found
        ((m : Match) → HasRows plan.now (F.rows source.now) rows.now m → ¬ (Differ left right m))) }
{
    let Some(found) = match_in(alloc, plan, source, rows, steps)? else {
        return Ok(None);
    };
    if gives_same(&found, left, right) {
        return Ok(None);
    }
    let back = match_back(alloc, plan.order.as_slice(), found)?;
    Ok(Some(back))
}

// The match of a plan that has these rows in the order of the body, if there is one. It has them in the order of the plan.
fn match_in<F: FactSource, L: Ledger>(
    alloc: Global,
    plan: &Plan,
    source: &F,
    rows: &[usize],
    steps: &mut Steps<L>,
) -> Result<Option<Match>, Memory>
    requires search { CanSearch plan.now (F.rows source.now) }
    requires size { length rows.now ≡ length plan.now.order.items }
    ensures some { IfOk result (λ found. IfSome found (HasRows plan.now (F.rows source.now) rows.now)) }
    ensures none { IfOk result (λ found. IfNone found
        ((m : Match) → ¬ (HasRows plan.now (F.rows source.now) rows.now m))) }
{
    let chosen = rows_in(alloc, plan.order.as_slice(), rows)?;
    let (body, places) = (plan.body.as_slice(), plan.places.as_slice());
    let search = Search::new(body, places, source, plan.levels.as_slice());
    match_of(alloc, &search, chosen, steps)
}

// Rows in an order.
fn rows_in(alloc: Global, order: &[usize], rows: &[usize]) -> Result<Vec<usize>, Memory>
    requires { (place : ℕ) → Contains order.now place → place < length rows.now }
    ensures { IfOk result (λ chosen. IsOrdered rows.now order.now chosen.items) }
{
    let mut chosen = Vec::with_capacity(alloc, order.len())?;
    for place in order {
        chosen.push(rows[*place])?;
    }
    Ok(chosen)
}
