//! The matches that use a row: for each atom those in which the row stands there, found by the plan that begins with the atom.
//! Their rows are put back into the order of the body, and a match in which the row stands twice is kept once.

ghost use Rattle.std.specs.Prelude.{◌≡◌, ◌↔◌, ◌≤◌, ◌∷◌, [], ℕ, AllPairs, Contains, IsPermutation, Some, length, slice_get, IfOk, OnOk};
ghost use Rattle.std.specs.List.{range_with_len};
ghost use Rattle.body_match.specs.declared.found.Match.{Match};
ghost use Rattle.body_match.specs.declared.plan.Plan.{Plan};
ghost use Rattle.body_match.specs.Plans.{IsBack, CanSearch, task_in};
ghost use Rattle.body_match.specs.Search.{IsListedFrom, ListsAll};
ghost use Rattle.body_match.specs.Using.{AddsBack, AreAllInOrder, AreInOrder};

use crate::Match;
use crate::listing::Listing;
use crate::plan::{Plan, put_back};
use crate::search::{Search, visit_from};
use fact_table::FactSource;
use std::alloc::Global;
use std::sync::ledger::Ledger;
use term_core::{Items, Memory, Steps};

/// The matches of plans that have the row at the plan's first atom, in order, each once.
pub fn matches_in<F: FactSource, L: Ledger>(
    alloc: Global,
    plans: &[Plan],
    source: &F,
    row: usize,
    steps: &mut Steps<L>,
) -> Result<Items<Match>, Memory>
    requires search { (k : ℕ) (plan : Plan) → slice_get plans.now k ≡ Some plan → CanSearch plan (F.rows source.now) }
    requires lists { (k : ℕ) (plan : Plan) → slice_get plans.now k ≡ Some plan
        → ListsAll (task_in plan (F.rows source.now)) }
    ensures { IfOk result (AreAllInOrder plans.now (F.rows source.now) row) }
{
    let mut list = Vec::new(alloc);
    for plan in plans {
        add_from(alloc, plan, source, row, &mut list, steps)?;
    }
    Ok(in_order(list))
}

// Matches in order, each once.
fn in_order(matches: Vec<Match>) -> Items<Match>
    ensures same { (m : Match) → Contains result m ↔ Contains matches.items m }
    ensures order { AllPairs AreInOrder result }
{
    let mut list = matches;
    list.sort_unstable();
    list.dedup();
    Items::from_vec(list)
}

// Adds the matches of a plan that have the row at its first atom.
fn add_from<F: FactSource, L: Ledger>(
    alloc: Global,
    plan: &Plan,
    source: &F,
    row: usize,
    list: &mut Vec<Match>,
    steps: &mut Steps<L>,
) -> Result<(), Memory>
    requires search { CanSearch plan.now (F.rows source.now) }
    requires lists { ListsAll (task_in plan.now (F.rows source.now)) }
    ensures { OnOk result (AddsBack plan.now.order.items
        (IsListedFrom (task_in plan.now (F.rows source.now)) (row ∷ [])) list.old.items list.new.items) }
{
    let (body, places) = (plan.body.as_slice(), plan.places.as_slice());
    let search = Search::new(body, places, source, plan.levels.as_slice());
    let found = all_from(alloc, &search, row, steps)?;
    add_back(alloc, plan.order.as_slice(), found, list)
}

// All matches that have the row at the first atom.
fn all_from<F: FactSource, L: Ledger>(
    alloc: Global,
    search: &Search<'_, F>,
    row: usize,
    steps: &mut Steps<L>,
) -> Result<Vec<Match>, Memory>
    requires some { 1 ≤ length search.now.body }
    requires lists { ListsAll search.now }
    ensures { IfOk result (λ list. (m : Match)
        → Contains list.items m ↔ IsListedFrom search.now (row ∷ []) m) }
{
    let mut list = Listing {
        alloc,
        list: Vec::new(alloc),
    };
    visit_from(alloc, search, row, &mut list, steps)?;
    Ok(list.list)
}

/// Adds matches to a list, each with its rows put back from an order.
pub fn add_back(
    alloc: Global,
    order: &[usize],
    found: Vec<Match>,
    list: &mut Vec<Match>,
) -> Result<(), Memory>
    requires order { IsPermutation (range_with_len 0 (length order.now)) order.now }
    requires sizes { (m : Match) → Contains found.items m → length m.rows ≡ length order.now }
    ensures { OnOk result (AddsBack order.now (Contains found.items) list.old.items list.new.items) }
{
    let mut left = found;
    while let Some(ordered) = left.pop() {
        let back = match_back(alloc, order, ordered)?;
        list.push(back)?;
    }
    Ok(())
}

/// A match with its rows put back from an order.
pub fn match_back(alloc: Global, order: &[usize], found: Match) -> Result<Match, Memory>
    requires order { IsPermutation (range_with_len 0 (length order.now)) order.now }
    requires size { length found.rows ≡ length order.now }
    ensures { IfOk result (IsBack order.now found) }
{
    let rows = put_back(alloc, order, found.rows.as_slice())?;
    Ok(Match {
        rows,
        binding: found.binding,
        span: found.span,
    })
}
