//! Candidates in order, as firings: a sweep in which candidates of one rule and one list of
//! frontier values become one firing where their spans meet or touch. Of two candidates over 1 to 5
//! and over 3 to 8 the firing is over 1 to 8, with the first for its support from 1 to 5 and the
//! second from 5 to 8.

ghost use Rattle.std.specs.Prelude.{◌≡◌, ◌⊎◌, ◌↔◌, ℤ, All, IsSorted, IsTrue, IfOk, OnOk, IfSome, IfNone};
ghost use Rattle.std.specs.Bool.{OnTrue, OnFalse};
ghost use Rattle.time_line.specs.Span.{Has, HasInstant, AreApart, Meet, Touch, IsBefore};
ghost use Rattle.tgd_chase.specs.Merging.{candidate_cmp, AreMerged, Takes, Begins, GoesOn, IsAlike, IsBehind};

use crate::candidates::Candidate;
use failure_trace::{Firing, Support};
use std::alloc::Global;
use term_core::{Items, Memory};
use time_line::Span;

/// The firings that candidates make up.
pub fn merge(alloc: Global, candidates: Vec<Candidate>) -> Result<Items<Firing>, Memory>
    requires sorted { IsSorted candidate_cmp candidates.items }
    requires instants { All (λ candidate. HasInstant candidate.support.span) candidates.items }
    ensures { IfOk result (AreMerged candidates.items) }
{
    let mut firings = Vec::with_capacity(alloc, candidates.len())?;
    for candidate in candidates {
        take(alloc, &mut firings, candidate)?;
    }
    Ok(Items::from_vec(firings))
}

// Lets the last firing go on with the next candidate, or begins a firing.
fn take(alloc: Global, firings: &mut Vec<Firing>, next: Candidate) -> Result<(), Memory>
    ensures { OnOk result (Takes next firings.old.items firings.new.items) }
{
    let Some(last) = firings.len().checked_sub(1) else {
        return begin(alloc, firings, next);
    };
    if goes_on(&firings[last], &next) {
        go_on(&mut firings[last], next.support)
    } else {
        begin(alloc, firings, next)
    }
}

// Begins a firing with a candidate.
fn begin(alloc: Global, firings: &mut Vec<Firing>, next: Candidate) -> Result<(), Memory>
    ensures { OnOk result (Begins next firings.old.items firings.new.items) }
{
    let Candidate {
        rule,
        frontier,
        support,
    } = next;
    let span = support.span;
    let mut supports = Vec::with_capacity(alloc, 1)?;
    supports.push(support)?;
    firings.push(Firing {
        rule,
        frontier,
        span,
        supports: Items::from_vec(supports),
    })?;
    Ok(())
}

// Whether the next candidate only goes on with a firing: they have one rule and one list of
// frontier values, and their spans meet or touch.
fn goes_on(last: &Firing, next: &Candidate) -> bool
    ensures alike { OnTrue result (IsAlike last.now next.now) }
    ensures yes { OnTrue result
        (Meet last.now.span next.now.support.span ⊎ Touch last.now.span next.now.support.span) }
    ensures no { OnFalse result (IsAlike last.now next.now
        → AreApart last.now.span next.now.support.span
        × ¬ (Touch last.now.span next.now.support.span)) }
{
    are_alike(last, next) && last.span.adjoins(&next.support.span)
}

// Whether a firing and a candidate have one rule and one list of frontier values.
fn are_alike(firing: &Firing, candidate: &Candidate) -> bool
    ensures { IsTrue result ↔ IsAlike firing.now candidate.now }
{
    firing.rule == candidate.rule && firing.frontier == candidate.frontier
}

// Gives a firing the span of a further match too, which supports it where nothing did so far.
fn go_on(firing: &mut Firing, next: Support) -> Result<(), Memory>
    requires { Meet firing.old.span next.span ⊎ Touch firing.old.span next.span }
    ensures { OnOk result (GoesOn next firing.old firing.new) }
{
    let span = firing.span.join(&next.span);
    if let Some(part) = behind(&firing.span, &next.span) {
        firing.supports.push(Support {
            span: part,
            binding: next.binding,
        })?;
    }
    firing.span = span;
    Ok(())
}

// The part of a span from the stop of another on, if there is any.
fn behind(done: &Span, span: &Span) -> Option<Span>
    ensures some { IfSome result (IsBehind done.now span.now) }
    ensures none { IfNone result ((t : ℤ) → Has span.now t → IsBefore done.now.hi t) }
{
    let stop = done.hi()?;
    Span::make(span.lo().max(Some(stop)), span.hi())
}
