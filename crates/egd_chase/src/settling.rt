//! Settling: matches with unequal sides are sought, and their sides made equal, until there is none.

ghost use Rattle.std.specs.Prelude.{◌<◌, List, IfOk, length};
ghost use Rattle.rule_core.specs.Terms.{StampedOf, FactOf};
ghost use Rattle.term_core.specs.declared.const_id.ConstId.{ConstId as ConstIdValue};
ghost use Rattle.null_store.specs.Store.{facts_in};
ghost use Rattle.egd_chase.specs.Settled.{IfDone, IfClash, LeadsTo, LeadsToClash, AreSettledForm, HaveNoModel};
ghost use Rattle.egd_chase.specs.Steps.{IsUnderway, IsBatch, Comes, Turns};

use crate::equality::equate;
use crate::equating::{are_constants, step_of};
use crate::search::{Batch, Search, Unequal, rows_have_spans};
use body_match::laws::rows_that_lose_times_stay_listed;
use failure_trace::JournalStep;
use null_store::NullStore;
use rule_core::Rules;
use std::alloc::Global;
use std::sync::ledger::Ledger;
use term_core::{Items, Memory, Steps};

/// What settling comes to.
#[derive(Drop)]
pub enum Settled {
    /// Each egd holds at every instant: the store, and the steps that led to it.
    Done(NullStore, Items<JournalStep>),
    /// Two different constants were to be equal: the steps before, and the match that asked for it.
    Clash(Items<JournalStep>, JournalStep),
}

/// What one turn comes to.
#[derive(Drop)]
pub enum Turn {
    /// No match has unequal sides.
    Settled,
    /// The sides of some matches were made equal.
    Equated,
    /// The sides of a match are two different constants.
    Clashed(JournalStep),
}

/// What becomes of a match that was found.
#[derive(Drop)]
pub enum Outcome {
    /// Its sides were made equal.
    Equated,
    /// It is no longer there with unequal sides.
    Passed,
    /// Its sides are two different constants.
    Clashed(JournalStep),
}

/// Makes the sides of the egds of a mapping equal in the rows of a store, step by step. Where a step needs it, rows are cut, each with all
/// that share unknowns with it. It ends with rows in which every egd holds at every instant, the least such; or with two different
/// constants that were to be equal, and then at the instants of that clash no rows will do.
pub fn settle<L: Ledger>(
    alloc: Global,
    rules: &Rules,
    store: NullStore,
    steps: &mut Steps<L>,
) -> Result<Settled, Memory>
    ensures done { IfOk result (λ settled. IfDone settled
        (λ last journal. LeadsTo rules.now (facts_in store) (facts_in last) journal)) }
    ensures form { IfOk result (λ settled. IfDone settled
        (λ last _. AreSettledForm rules.now (facts_in store) (facts_in last))) }
    ensures clash { IfOk result (λ settled. IfClash settled
        (LeadsToClash rules.now (facts_in store))) }
    ensures none { IfOk result (λ settled. IfClash settled
        (λ _ last. HaveNoModel rules.now (facts_in store) last)) }
{
    rules.is_kept();
    let egds = rules.egds().as_slice();
    rows_have_spans(&store);
    let mut search = Search::make(alloc, egds, &store, steps)?;
    let mut store = store;
    let mut journal = Items::new(alloc);
    loop {
        match take_batch(alloc, rules, &mut store, &mut search, &mut journal, steps)? {
            Turn::Equated => {}
            Turn::Settled => {
                store.is_kept();
                return Ok(Settled::Done(store, journal));
            }
            Turn::Clashed(last) => return Ok(Settled::Clash(journal, last)),
        }
    }
}

// Seeks some matches with unequal sides, and makes those equal, one after the other, that are unequal still.
fn take_batch<L: Ledger>(
    alloc: Global,
    rules: &Rules,
    store: &mut NullStore,
    search: &mut Search,
    journal: &mut Items<JournalStep>,
    steps: &mut Steps<L>,
) -> Result<Turn, Memory>
    requires { (rows : List (StampedOf (FactOf ConstIdValue)))
        × IsUnderway rules.now rows store.old search.old journal.old }
    ensures { (rows : List (StampedOf (FactOf ConstIdValue)))
        → IsUnderway rules.now rows store.old search.old journal.old
        → IfOk result (Turns rules.now rows store.old store.new search.new journal.new) }
{
    let Some(batch) = search.next(store, steps)? else {
        return Ok(Turn::Settled);
    };
    take_all(alloc, rules, store, search, journal, &batch, steps)
}

// Makes the sides equal of those of a batch that are unequal still. The first of them is.
fn take_all<L: Ledger>(
    alloc: Global,
    rules: &Rules,
    store: &mut NullStore,
    search: &mut Search,
    journal: &mut Items<JournalStep>,
    batch: &Batch,
    steps: &mut Steps<L>,
) -> Result<Turn, Memory>
    requires way { (rows : List (StampedOf (FactOf ConstIdValue)))
        × IsUnderway rules.now rows store.old search.old journal.old }
    requires batch { IsBatch rules.now store.old batch.now }
    ensures { (rows : List (StampedOf (FactOf ConstIdValue)))
        → IsUnderway rules.now rows store.old search.old journal.old
        → IfOk result (Turns rules.now rows store.old store.new search.new journal.new) }
{
    let mut good = true;
    for found in batch.found.as_slice() {
        let rows = found.rows.as_slice();
        match take_one(alloc, rules, store, search, journal, batch.egd, rows, steps)? {
            Outcome::Equated => {}
            Outcome::Passed => good = false,
            Outcome::Clashed(last) => return Ok(Turn::Clashed(last)),
        }
    }
    search.grade(good);
    Ok(Turn::Equated)
}

// Makes the sides of an egd equal in the match with these rows, if they are unequal still.
fn take_one<L: Ledger>(
    alloc: Global,
    rules: &Rules,
    store: &mut NullStore,
    search: &mut Search,
    journal: &mut Items<JournalStep>,
    at: usize,
    rows: &[usize],
    steps: &mut Steps<L>,
) -> Result<Outcome, Memory>
    requires way { (first : List (StampedOf (FactOf ConstIdValue)))
        × IsUnderway rules.now first store.old search.old journal.old }
    requires egd { at < length rules.now.egds }
    ensures { (first : List (StampedOf (FactOf ConstIdValue)))
        → IsUnderway rules.now first store.old search.old journal.old
        → IfOk result (Comes rules.now first store.old store.new search.new journal.new at rows.now) }
{
    rules.is_kept();
    store.is_kept();
    rows_that_lose_times_stay_listed();
    let Some(found) = search.again(at, store, rows, steps)? else {
        return Ok(Outcome::Passed);
    };
    let egd = &rules.egds().as_slice()[at];
    let unequal = Unequal { egd: at, found };
    let mut step = step_of(alloc, store, egd, &unequal)?;
    if are_constants(egd, &unequal.found) {
        return Ok(Outcome::Clashed(step));
    }
    let changed = equate(alloc, store, egd, &unequal.found, &mut step.cuts, steps)?;
    search.add(store, changed.as_slice(), steps)?;
    journal.push(step)?;
    Ok(Outcome::Equated)
}
