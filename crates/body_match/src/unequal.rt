//! Matches that use a row and give two variables different values: for each atom those in which the row stands there, found by the
//! plan that begins with the atom. Their rows are put back into the order of the body.

ghost use Rattle.std.specs.Prelude.{◌≡◌, ◌≢◌, ◌↔◌, ◌≤◌, ◌⊎◌, ◌∷◌, [], ℕ, Some, Contains, IsTrue, length, slice_get, IfOk, OnOk};
ghost use Rattle.body_match.specs.declared.found.Match.{Match};
ghost use Rattle.body_match.specs.declared.plan.Plan.{Plan};
ghost use Rattle.body_match.specs.Plans.{CanSearch, HasNone, HaveNone, IsPutBack};
ghost use Rattle.body_match.specs.Search.{IsFindable, IsListedFrom};
ghost use Rattle.body_match.specs.Unequal.{Differ};

use crate::listing::copy_of;
use crate::plan::Plan;
use crate::search::{Search, visit_from};
use crate::using::add_back;
use crate::{Match, Visitor};
use fact_table::FactSource;
use std::alloc::Global;
use std::sync::ledger::Ledger;
use term_core::{Items, Memory, Steps};

/// Which matches are wanted, and how many: ones that use the row and give the two variables different values.
#[derive(Clone, Copy)]
pub struct Wanted {
    pub row: usize,
    pub left: u32,
    pub right: u32,
    pub limit: usize,
}

/// Those that plans have with the row at their first atoms, up to as many as are wanted; none only where no plan has one that can be
/// found.
pub fn unequal_of<F: FactSource, L: Ledger>(
    alloc: Global,
    plans: &[Plan],
    source: &F,
    wanted: Wanted,
    steps: &mut Steps<L>,
) -> Result<Items<Match>, Memory>
    requires search { (k : ℕ) (plan : Plan) → slice_get plans.now k ≡ Some plan → CanSearch plan (F.rows source.now) }
    requires some { 1 ≤ wanted.limit }
    ensures each { IfOk result (λ list. (m : Match) → Contains list m → (plan : Plan) × Contains plans.now plan
        × IsPutBack plan (F.rows source.now) wanted.row wanted.left wanted.right m) }
    ensures none { IfOk result (λ list. list ≡ []
        → HaveNone plans.now (F.rows source.now) wanted.row wanted.left wanted.right (length plans.now)) }
{
    let mut list = Vec::new(alloc);
    for plan in plans {
        add_unequal(alloc, plan, source, wanted, &mut list, steps)?;
    }
    Ok(Items::from_vec(list))
}

// Adds those of a plan to a list, unless it has as many as are wanted.
fn add_unequal<F: FactSource, L: Ledger>(
    alloc: Global,
    plan: &Plan,
    source: &F,
    wanted: Wanted,
    list: &mut Vec<Match>,
    steps: &mut Steps<L>,
) -> Result<(), Memory>
    requires search { CanSearch plan.now (F.rows source.now) }
    requires some { 1 ≤ wanted.limit }
    ensures each { OnOk result ((m : Match) → Contains list.new.items m → Contains list.old.items m
        ⊎ IsPutBack plan.now (F.rows source.now) wanted.row wanted.left wanted.right m) }
    ensures none { OnOk result (list.new.items ≡ [] → (list.old.items ≡ [])
        × HasNone plan.now (F.rows source.now) wanted.row wanted.left wanted.right) }
{
    let count = list.len();
    if wanted.limit <= count {
        return Ok(());
    }
    let (body, places) = (plan.body.as_slice(), plan.places.as_slice());
    let search = Search::new(body, places, source, plan.levels.as_slice());
    let found = unequal_from(alloc, &search, wanted, wanted.limit - count, steps)?;
    add_back(alloc, plan.order.as_slice(), found, list)
}

// Those that have the row at the first atom, up to a limit.
fn unequal_from<F: FactSource, L: Ledger>(
    alloc: Global,
    search: &Search<'_, F>,
    wanted: Wanted,
    limit: usize,
    steps: &mut Steps<L>,
) -> Result<Vec<Match>, Memory>
    requires { 1 ≤ length search.now.body }
    ensures each { IfOk result (λ list. (m : Match) → Contains list.items m
        → IsListedFrom search.now (wanted.row ∷ []) m × Differ wanted.left wanted.right m) }
    ensures none { IfOk result (λ list. list.items ≡ [] → (m : Match) → IsListedFrom search.now (wanted.row ∷ []) m
        → IsFindable search.now m → ¬ (Differ wanted.left wanted.right m)) }
{
    let mut unequal = Unequal {
        alloc,
        left: wanted.left,
        right: wanted.right,
        limit,
        list: Vec::new(alloc),
    };
    visit_from(alloc, search, wanted.row, &mut unequal, steps)?;
    Ok(unequal.list)
}

/// Whether a match gives two variables the same value.
pub fn gives_same(found: &Match, left: u32, right: u32) -> bool
    ensures { IsTrue result ↔ (slice_get found.now.binding left ≡ slice_get found.now.binding right) }
{
    let binding = found.binding.as_slice();
    binding.get(left as usize) == binding.get(right as usize)
}

/// What keeps matches that give two variables different values, and wants more until it has as many as the limit says.
#[derive(Drop)]
pub struct Unequal {
    pub alloc: Global,
    pub left: u32,
    pub right: u32,
    pub limit: usize,
    pub list: Vec<Match>,
}

impl Visitor for Unequal {
    ghost use Rattle.body_match.specs.Unequal.{Meets};

    ghost takes = { λ old found new. Meets old found new };

    ghost stops = { λ u. 1 ≤ length u.list.items };

    fn visit(&mut self, found: &Match) -> Result<bool, Memory> {
        if gives_same(found, self.left, self.right) {
            return Ok(true);
        }
        self.list.push(copy_of(self.alloc, found)?)?;
        Ok(self.list.len() < self.limit)
    }
}
