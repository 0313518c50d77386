//! The ends at which the facts of groups are cut, in one list for all groups. A group of one fact has none: nothing but its own
//! ends could cut it, and these aren't inside it.

ghost use Rattle.std.specs.Prelude.{◌≡◌, ◌↔◌, ◌<◌, ℕ, ℤ, true, false, length, slice_index, slice_index_or, slice_set, Some, Contains, IfOk, OnOk};
ghost use Rattle.time_line.specs.Span.{HasInstant, IsInside, IsWithinLimit};
ghost use Rattle.normaliser.specs.Cuts.{AreCuts, AreCutsInOrder, AreWithinLimit, AreInOrder, AreShared, IsCutAt, AddsCut, AddsCuts, ats, is_up_to, is_before, is_up_to_start, is_before_stop};

use fact_table::Fact;
use std::alloc::Global;
use term_core::Memory;
use time_line::Span;

/// An end of a fact of a group. Cuts are ordered by group, then by the line of time.
#[derive(Clone, Copy, Debug, PartialEq, Eq, PartialOrd, Ord)]
pub struct Cut {
    /// The least place in the group.
    pub group: usize,
    /// The end.
    pub at: i64,
}

/// The ends of the facts of each group of two facts or more, in order, each once. For each fact the least place in its group is
/// given.
pub fn cuts_of(alloc: Global, facts: &[Fact], places: &[usize]) -> Result<Vec<Cut>, Memory>
    requires size { length places.now ≡ length facts.now }
    requires within { (n : ℕ) → n < length places.now → slice_index places.now n < length places.now }
    ensures { IfOk result (λ cuts. AreCuts facts.now places.now cuts.items) }
{
    let shared = shared_groups(alloc, places)?;
    let mut cuts = Vec::with_capacity(alloc, further_places(places).saturating_mul(4))?;
    for (place, fact) in facts.iter().enumerate() {
        add_cuts(&mut cuts, shared.as_slice(), places[place], &fact.span)?;
    }
    cuts.sort_unstable();
    cuts.dedup();
    Ok(cuts)
}

// How many places are not the least of their group.
fn further_places(places: &[usize]) -> usize {
    places
        .iter()
        .enumerate()
        .filter(|(place, group)| **group != *place)
        .count()
}

// Of which places another one is in the group.
fn shared_groups(alloc: Global, places: &[usize]) -> Result<Vec<bool>, Memory>
    requires { (n : ℕ) → n < length places.now → slice_index places.now n < length places.now }
    ensures { IfOk result (λ shared. AreShared places.now shared.items) }
{
    let mut shared = vec![in alloc; false; places.len()]?;
    mark_shared(&mut shared, places);
    Ok(shared)
}

// Marks each place that another one is in the group of.
fn mark_shared(shared: &mut [bool], places: &[usize])
    requires size { length shared.old ≡ length places.now }
    requires unmarked { (group : ℕ) → slice_index_or shared.old group false ≡ false }
    requires within { (n : ℕ) → n < length places.now → slice_index places.now n < length places.now }
    ensures { AreShared places.now shared.new }
{
    for place in 0..places.len() {
        mark(shared, place, places[place]);
    }
}

// Marks the group of a place that isn't the least in it.
fn mark(shared: &mut [bool], place: usize, group: usize)
    requires { group < length shared.old }
    ensures same { group ≡ place → shared.new ≡ shared.old }
    ensures marked { (group ≡ place → ⊥) → shared.new ≡ slice_set shared.old group true }
{
    if group != place {
        shared[group] = true;
    }
}

// Adds the ends of a fact of a group, if the group is shared.
fn add_cuts(cuts: &mut Vec<Cut>, shared: &[bool], group: usize, span: &Span) -> Result<(), Memory>
    requires within { group < length shared.now }
    requires limit { AreWithinLimit cuts.old.items }
    ensures both { OnOk result (slice_index_or shared.now group false ≡ true
        → AddsCuts group span.now cuts.old.items cuts.new.items) }
    ensures still { OnOk result (slice_index_or shared.now group false ≡ false
        → cuts.new.items ≡ cuts.old.items) }
    ensures limit { OnOk result (AreWithinLimit cuts.new.items) }
{
    if !shared[group] {
        return Ok(());
    }
    add_cut(cuts, group, span.lo())?;
    add_cut(cuts, group, span.hi())
}

// Adds an end of a fact of a group, if it is present.
fn add_cut(cuts: &mut Vec<Cut>, group: usize, end: Option<i64>) -> Result<(), Memory>
    requires within { IsWithinLimit end }
    requires limit { AreWithinLimit cuts.old.items }
    ensures adds { OnOk result (AddsCut group end cuts.old.items cuts.new.items) }
    ensures limit { OnOk result (AreWithinLimit cuts.new.items) }
{
    if let Some(at) = end {
        cuts.push(Cut { group, at })?;
    }
    Ok(())
}

/// Those of the cuts of a group that are strictly inside a span, which stand one after the other.
pub fn cuts_inside<'a>(cuts: &'a [Cut], group: usize, span: &Span) -> &'a [Cut]
    requires { AreCutsInOrder cuts.now }
    ensures order { AreInOrder (ats result.now) }
    ensures each { (m : ℤ) → Contains (ats result.now) m
        ↔ (IsCutAt cuts.now group m × IsInside span.now m) }
    ensures instant { HasInstant span.now }
{
    let lo = span.lo();
    let hi = span.hi();
    let first = cuts.partition_point(|cut| is_up_to(cut, group, lo));
    let from = &cuts[first..];
    let count = from.partition_point(|cut| is_before(cut, group, hi));
    &from[..count]
}

// Whether a cut is of a lesser group, or of the group and not after the start.
fn is_up_to(cut: &Cut, group: usize, lo: Option<i64>) -> bool
    ensures { result ≡ is_up_to group lo cut.now }
{
    cut.group < group || (cut.group == group && is_up_to_start(lo, cut.at))
}

// Whether a cut is of a lesser group, or of the group and before the stop.
fn is_before(cut: &Cut, group: usize, hi: Option<i64>) -> bool
    ensures { result ≡ is_before group hi cut.now }
{
    cut.group < group || (cut.group == group && is_before_stop(hi, cut.at))
}

fn is_up_to_start(lo: Option<i64>, end: i64) -> bool
    ensures { result ≡ is_up_to_start lo end }
{
    match lo {
        Some(lo) => end <= lo,
        None => false,
    }
}

fn is_before_stop(hi: Option<i64>, end: i64) -> bool
    ensures { result ≡ is_before_stop hi end }
{
    match hi {
        Some(hi) => end < hi,
        None => true,
    }
}
