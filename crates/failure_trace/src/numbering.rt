//! The unknowns of the firings at an instant, and their numbers there.

ghost use Rattle.std.specs.Prelude.{◌≡◌, ◌-◌, ◌++◌, ◌<◌, ◌≤◌, ◌^◌, IfOk, OnOk, IsPermutation, IsSorted, length, All, slice_get, Some};
ghost use Rattle.term_core.specs.Order.{unknown_cmp};
ghost use Rattle.rule_core.specs.Validity.{IsTgd};
ghost use Rattle.failure_trace.specs.Projected.{exists_unknowns, unknowns_at, number_among};

use crate::Firing;
use rule_core::{Rules, Tgd};
use std::alloc::Global;
use term_core::laws::unknowns_have_one_order;
use term_core::{Memory, Unknown};

/// The unknowns of the firings at an instant, in their order.
pub(crate) fn sorted_unknowns(
    alloc: Global,
    rules: &Rules,
    firings: &[Firing],
    t: i64,
) -> Result<Vec<Unknown>, Memory>
    requires { All (λ f. f.rule < length rules.now.tgds) firings.now }
    ensures same { IfOk result (λ unknowns.
        IsPermutation (unknowns_at rules.now firings.now t) unknowns.items) }
    ensures sorted { IfOk result (λ unknowns. IsSorted unknown_cmp unknowns.items) }
{
    unknowns_have_one_order();
    let mut unknowns = listed_unknowns(alloc, rules, firings, t)?;
    unknowns.sort_unstable();
    Ok(unknowns)
}

// The unknowns of the firings at an instant, in the order of the firings.
fn listed_unknowns(
    alloc: Global,
    rules: &Rules,
    firings: &[Firing],
    t: i64,
) -> Result<Vec<Unknown>, Memory>
    requires { All (λ f. f.rule < length rules.now.tgds) firings.now }
    ensures { IfOk result (λ unknowns. unknowns.items ≡ unknowns_at rules.now firings.now t) }
{
    let mut unknowns = Vec::new(alloc);
    for firing in firings {
        if firing.span.has(t) {
            add_unknowns(alloc, tgd_at(rules, firing.rule), firing, &mut unknowns)?;
        }
    }
    Ok(unknowns)
}

/// The tgd at a place.
pub(crate) fn tgd_at(rules: &Rules, place: u32) -> &Tgd
    requires { place < length rules.now.tgds }
    ensures there { slice_get rules.now.tgds place ≡ Some result.now }
    ensures valid { IsTgd rules.now.sources rules.now.targets result.now }
{
    rules.is_kept();
    &rules.tgds().as_slice()[place as usize]
}

// Adds the unknowns of a firing.
fn add_unknowns(
    alloc: Global,
    tgd: &Tgd,
    firing: &Firing,
    unknowns: &mut Vec<Unknown>,
) -> Result<(), Memory>
    requires within { tgd.now.body_vars ≤ length tgd.now.vars }
    requires few { length tgd.now.vars ≤ 32 }
    ensures { OnOk result (unknowns.new.items ≡ unknowns.old.items ++ exists_unknowns tgd.now firing.now) }
{
    for var in 0..exists_count(tgd) {
        unknowns.push(Unknown {
            rule: firing.rule,
            frontier: firing.frontier.copy(alloc)?,
            var,
        })?;
    }
    Ok(())
}

/// How many `exists` variables a tgd has.
pub(crate) fn exists_count(tgd: &Tgd) -> u32
    requires within { tgd.now.body_vars ≤ length tgd.now.vars }
    requires few { length tgd.now.vars ≤ 32 }
    ensures { result ≡ length tgd.now.vars - tgd.now.body_vars }
{
    tgd.vars.len() as u32 - tgd.body_vars
}

/// The number of an unknown among sorted ones.
pub(crate) fn number_of(unknowns: &[Unknown], unknown: &Unknown) -> u64
    requires { IsSorted unknown_cmp unknowns.now }
    ensures { result ≡ number_among unknowns.now unknown.now }
{
    unknowns_have_one_order();
    unknowns.partition_point(|other| other.cmp(unknown).is_lt()) as u64 + 1
}
