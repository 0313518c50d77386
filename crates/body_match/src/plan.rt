//! For each atom of a body, how the others are looked up where a row stands there: the row's atom is the first, and each next one
//! has as many columns as can be that earlier atoms or constants tell.

ghost use Rattle.std.specs.Prelude.{◌≡◌, ◌↔◌, ◌<◌, ◌≤◌, ◌+◌, ℕ, Contains, IsPermutation, List, length, slice_get, Some, IfOk, OnOk};
ghost use Rattle.std.specs.List.{range_with_len};
ghost use Rattle.rule_core.specs.Validity.{occurrences};
ghost use Rattle.body_match.specs.Keys.{IsListedUnder};
ghost use Rattle.body_match.specs.Plans.{IsOrder, IsOrdered, IsPlan, AreWithin, AreSameLevels, AreSamePlans, CanList, IsSamePlan, KeepsListed, KeepListed, IsListedFor};
ghost use Rattle.body_match.specs.Renewals.{AreBarePlans, AreListedInEach, AreListedUnder, LevelsKeepBut, PlansKeepBut};
ghost use Rattle.body_match.specs.declared.plan.Plan.{Plan};

use crate::levels::{Level, bare_levels, levels_of, list_in, renew_in};
use crate::places::{Place, first_places};
use fact_table::FactSource;
use rule_core::{Arg, Atom};
use std::alloc::Global;
use std::sync::ledger::Ledger;
use term_core::{Items, Memory, Steps};

/// The atoms of a body in the order in which rows are chosen for them, with what a search needs.
#[derive(Drop)]
pub struct Plan {
    /// The places of the atoms in the body.
    pub order: Vec<usize>,
    /// The atoms in this order.
    pub body: Items<Atom>,
    /// Where each variable occurs first in this order.
    pub places: Vec<Place>,
    /// For each atom behind the first the rows of its form.
    pub levels: Vec<Level>,
}

impl Plan {
    /// A plan that begins with an atom, over the rows of a source.
    pub fn make<F: FactSource, L: Ledger>(
        alloc: Global,
        body: &Items<Atom>,
        vars: u32,
        first: usize,
        source: &F,
        steps: &mut Steps<L>,
    ) -> Result<Plan, Memory>
        requires first { first < length body.now }
        requires vars { (v : ℕ) → Contains (occurrences body.now) v ↔ (v < vars) }
        ensures plan { IfOk result (IsPlan body.now vars first) }
        ensures lists { IfOk result (λ plan. (number : ℕ)
            → IsListedUnder plan.body plan.levels.items (F.rows source.now) number) }
    {
        let order = order_from(alloc, body.as_slice(), first)?;
        let body = atoms_in(alloc, body.as_slice(), order.as_slice())?;
        let places = first_places(alloc, body.as_slice(), vars)?;
        let levels = levels_of(alloc, body.as_slice(), places.as_slice(), source, steps)?;
        Ok(Plan {
            order,
            body,
            places,
            levels,
        })
    }

    /// A plan that begins with an atom, in which no row is listed.
    pub fn bare(alloc: Global, body: &Items<Atom>, vars: u32, first: usize) -> Result<Plan, Memory>
        requires first { first < length body.now }
        requires vars { (v : ℕ) → Contains (occurrences body.now) v ↔ (v < vars) }
        ensures { IfOk result (IsPlan body.now vars first) }
    {
        let order = order_from(alloc, body.as_slice(), first)?;
        let body = atoms_in(alloc, body.as_slice(), order.as_slice())?;
        let places = first_places(alloc, body.as_slice(), vars)?;
        let levels = bare_levels(alloc, body.as_slice(), places.as_slice())?;
        Ok(Plan {
            order,
            body,
            places,
            levels,
        })
    }

    /// Drops rows, and lists others, each for each atom behind the first whose form it has.
    pub fn renew<F: FactSource, L: Ledger>(
        &mut self,
        alloc: Global,
        source: &F,
        gone: &[usize],
        fresh: &[usize],
        steps: &mut Steps<L>,
    ) -> Result<(), Memory>
        requires { CanList self.old }
        ensures same { IsSamePlan self.old self.new }
        ensures kept { OnOk result (LevelsKeepBut gone.now self.old.levels.items self.new.levels.items) }
        ensures listed { OnOk result
            (AreListedUnder self.new.body self.new.levels.items (F.rows source.now) fresh.now) }
    {
        let body = self.body.as_slice();
        renew_levels(alloc, body, &mut self.levels, source, gone, fresh, steps)
    }

    /// Lists a row for each atom behind the first whose form it has.
    pub fn list_row<F: FactSource, L: Ledger>(
        &mut self,
        alloc: Global,
        source: &F,
        row: usize,
        steps: &mut Steps<L>,
    ) -> Result<(), Memory>
        requires { CanList self.old }
        ensures same { IsSamePlan self.old self.new }
        ensures kept { OnOk result (KeepsListed self.old.levels.items self.new.levels.items) }
        ensures listed { OnOk result
            (IsListedUnder self.new.body self.new.levels.items (F.rows source.now) row) }
    {
        list_levels(
            alloc,
            self.body.as_slice(),
            &mut self.levels,
            source,
            row,
            steps,
        )
    }
}

// Lists a row for each atom behind the first whose form it has.
fn list_levels<F: FactSource, L: Ledger>(
    alloc: Global,
    body: &[Atom],
    levels: &mut Vec<Level>,
    source: &F,
    row: usize,
    steps: &mut Steps<L>,
) -> Result<(), Memory>
    requires size { length body.now ≤ length levels.old.items + 1 }
    requires within { AreWithin body.now levels.old.items }
    ensures same { AreSameLevels levels.old.items levels.new.items }
    ensures kept { OnOk result (KeepsListed levels.old.items levels.new.items) }
    ensures listed { OnOk result
        (IsListedUnder body.now levels.new.items (F.rows source.now) row) }
{
    for before in 1..body.len() {
        let level = &mut levels[before - 1];
        list_in(alloc, &body[before], level, source, row, steps)?;
    }
    Ok(())
}

/// Lists a row for each plan.
pub fn list_plans<F: FactSource, L: Ledger>(
    alloc: Global,
    plans: &mut Vec<Plan>,
    source: &F,
    row: usize,
    steps: &mut Steps<L>,
) -> Result<(), Memory>
    requires { (k : ℕ) (plan : Plan) → slice_get plans.old.items k ≡ Some plan → CanList plan }
    ensures same { AreSamePlans plans.old.items plans.new.items }
    ensures kept { OnOk result (KeepListed plans.old.items plans.new.items) }
    ensures listed { OnOk result
        (IsListedFor plans.new.items (F.rows source.now) row (length plans.new.items)) }
{
    for at in 0..plans.len() {
        let plan = &mut plans[at];
        plan.list_row(alloc, source, row, steps)?;
    }
    Ok(())
}

// Drops rows, and lists others, each for each atom behind the first whose form it has.
fn renew_levels<F: FactSource, L: Ledger>(
    alloc: Global,
    body: &[Atom],
    levels: &mut Vec<Level>,
    source: &F,
    gone: &[usize],
    fresh: &[usize],
    steps: &mut Steps<L>,
) -> Result<(), Memory>
    requires size { length body.now ≤ length levels.old.items + 1 }
    requires within { AreWithin body.now levels.old.items }
    ensures same { AreSameLevels levels.old.items levels.new.items }
    ensures kept { OnOk result (LevelsKeepBut gone.now levels.old.items levels.new.items) }
    ensures listed { OnOk result
        (AreListedUnder body.now levels.new.items (F.rows source.now) fresh.now) }
{
    for before in 1..body.len() {
        let level = &mut levels[before - 1];
        renew_in(alloc, &body[before], level, source, gone, fresh, steps)?;
    }
    Ok(())
}

/// Drops rows, and lists others, for each plan.
pub fn renew_plans<F: FactSource, L: Ledger>(
    alloc: Global,
    plans: &mut Vec<Plan>,
    source: &F,
    gone: &[usize],
    fresh: &[usize],
    steps: &mut Steps<L>,
) -> Result<(), Memory>
    requires { (k : ℕ) (plan : Plan) → slice_get plans.old.items k ≡ Some plan → CanList plan }
    ensures same { AreSamePlans plans.old.items plans.new.items }
    ensures kept { OnOk result (PlansKeepBut gone.now plans.old.items plans.new.items) }
    ensures listed { OnOk result (AreListedInEach plans.new.items (F.rows source.now) fresh.now) }
{
    for at in 0..plans.len() {
        let plan = &mut plans[at];
        plan.renew(alloc, source, gone, fresh, steps)?;
    }
    Ok(())
}

/// A plan for each atom, in which no row is listed.
pub fn bare_plans(alloc: Global, body: &Items<Atom>, vars: u32) -> Result<Vec<Plan>, Memory>
    requires { (v : ℕ) → Contains (occurrences body.now) v ↔ (v < vars) }
    ensures { IfOk result (λ plans. AreBarePlans body.now vars plans.items (length body.now)) }
{
    let mut plans = Vec::with_capacity(alloc, body.len())?;
    for first in 0..body.len() {
        plans.push(Plan::bare(alloc, body, vars, first)?)?;
    }
    Ok(plans)
}

// An order of all places that begins with this one.
fn order_from(alloc: Global, body: &[Atom], first: usize) -> Result<Vec<usize>, Memory>
    requires { first < length body.now }
    ensures { IfOk result (λ order. IsOrder (length body.now) first order.items) }
{
    let mut order = places_below(alloc, body.len())?;
    order.swap(0, first);
    for at in 1..order.len() {
        let next = best_next(body, order.as_slice(), at);
        order.swap(at, next);
    }
    Ok(order)
}

// All places below a number, in order.
fn places_below(alloc: Global, count: usize) -> Result<Vec<usize>, Memory>
    ensures { IfOk result (λ places. places.items ≡ range_with_len 0 count) }
{
    let mut places = Vec::with_capacity(alloc, count)?;
    for place in 0..count {
        places.push(place)?;
    }
    Ok(places)
}

// Of the places from one on in an order, that of an atom with the most arguments that the atoms before tell.
fn best_next(body: &[Atom], order: &[usize], at: usize) -> usize
    requires { at < length order.now }
    ensures from { at ≤ result }
    ensures within { result < length order.now }
{
    let mut best = at;
    let mut most = 0;
    for other in at..order.len() {
        let told = count_told(body, &order[..at], order[other]);
        if told > most {
            most = told;
            best = other;
        }
    }
    best
}

// How many arguments of an atom are constants, or variables of chosen atoms.
fn count_told(body: &[Atom], chosen: &[usize], atom: usize) -> usize {
    let Some(atom) = body.get(atom) else {
        return 0;
    };
    let mut told: usize = 0;
    for arg in atom.args.as_slice() {
        if is_told(body, chosen, *arg) {
            told = told.saturating_add(1);
        }
    }
    told
}

// Whether an argument is a constant, or a variable of a chosen atom.
fn is_told(body: &[Atom], chosen: &[usize], arg: Arg) -> bool {
    if let Arg::Const(_) = arg {
        return true;
    }
    for place in chosen {
        if let Some(atom) = body.get(*place) {
            if atom.args.as_slice().contains(&arg) {
                return true;
            }
        }
    }
    false
}

// The atoms at places.
fn atoms_in(alloc: Global, body: &[Atom], order: &[usize]) -> Result<Items<Atom>, Memory>
    requires { (place : ℕ) → Contains order.now place → place < length body.now }
    ensures { IfOk result (λ atoms. IsOrdered body.now order.now atoms) }
{
    let mut atoms = Items::new(alloc);
    atoms.room(order.len())?;
    for place in order {
        atoms.push(copy_at(alloc, body, *place)?)?;
    }
    Ok(atoms)
}

// A copy of the atom at a place.
fn copy_at(alloc: Global, body: &[Atom], place: usize) -> Result<Atom, Memory>
    requires { place < length body.now }
    ensures { IfOk result (λ copy. slice_get body.now place ≡ Some copy) }
{
    let atom = &body[place];
    Ok(Atom {
        relation: atom.relation,
        args: atom.args.copy(alloc)?,
    })
}

/// Rows that stand in an order, each put at its place.
pub fn put_back(alloc: Global, order: &[usize], rows: &[usize]) -> Result<Items<usize>, Memory>
    requires order { IsPermutation (range_with_len 0 (length order.now)) order.now }
    requires size { length rows.now ≡ length order.now }
    ensures size { IfOk result (λ back. length back ≡ length order.now) }
    ensures back { IfOk result (λ back. IsOrdered back order.now rows.now) }
{
    let mut back = vec![in alloc; 0; order.len()]?;
    for (at, place) in order.iter().enumerate() {
        back[*place] = rows[at];
    }
    Ok(Items::from_vec(back))
}
