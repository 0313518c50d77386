//! A step of settling on a store.

ghost use Rattle.std.specs.Prelude.{◌≡◌, [], List, IfOk, OnOk};
ghost use Rattle.rule_core.specs.declared.rules.Relation.{Relation};
ghost use Rattle.rule_core.specs.Validity.{IsEgd};
ghost use Rattle.term_core.specs.Order.{id_cmp};
ghost use Rattle.failure_trace.specs.JournalRun.{Equates};
ghost use Rattle.null_store.specs.Store.{facts_in};
ghost use Rattle.egd_chase.specs.Search.{IsUnequalMatch, ChangeOnly, HaveSpans};
ghost use Rattle.egd_chase.specs.Shared.{KeepsShared};
ghost use Rattle.egd_chase.specs.Sides.{IsConstantIn, match_terms};

use crate::cutting::Cutting;
use crate::equating::side_of;
use crate::replacing::replace;
use body_match::Match;
use failure_trace::CutNote;
use null_store::NullStore;
use rule_core::Egd;
use std::alloc::Global;
use std::sync::ledger::Ledger;
use term_core::{Items, Memory, Steps};

/// Makes the two sides of an egd equal over the span of a match, which are different and not both constants. The cuts that this
/// needs are put into `cuts`. The numbers of the rows that came or changed are given.
pub fn equate<L: Ledger>(
    alloc: Global,
    store: &mut NullStore,
    egd: &Egd,
    found: &Match,
    cuts: &mut Items<CutNote>,
    steps: &mut Steps<L>,
) -> Result<Items<usize>, Memory>
    requires egd { (relations : List Relation) × IsEgd relations egd.now }
    requires matches { IsUnequalMatch store.old.rows egd.now found.now }
    requires spans { HaveSpans store.old.rows }
    requires sides { ¬ (IsConstantIn found.now egd.now.left × IsConstantIn found.now egd.now.right) }
    ensures equates { OnOk result (Equates (λ c. c) id_cmp (facts_in store.old) egd.now (match_terms store.old found.now)
        found.now.span cuts.new (facts_in store.new)) }
    ensures spans { OnOk result (HaveSpans store.new.rows) }
    ensures changes { IfOk result (λ rows. ChangeOnly rows store.old.rows store.new.rows) }
    ensures shared { IfOk result (λ rows. KeepsShared rows store.old.rows store.new.rows) }
{
    store.is_kept();
    let left = side_of(egd, found, egd.left);
    let right = side_of(egd, found, egd.right);
    let mut cutting = Cutting::new(alloc, left, right);
    cutting.fit(alloc, store, found.span, steps)?;
    cutting.swap();
    cutting.fit(alloc, store, found.span, steps)?;
    let Cutting {
        own: right,
        other: left,
        notes,
        made,
    } = cutting;
    *cuts = notes;
    replace(store, left, right, made.as_slice(), steps)
}
