//! Spans: where one starts and stops, and what two of them have in common.
ghost use Rattle.std.specs.Prelude.{◌≡◌, ◌⊎◌, ◌↔◌, ℤ, pos, ◌-ℤ◌, Some, None, IsTrue, IsSome, IfSome, IfNone};
ghost use Rattle.std.specs.Bool.{OnFalse};
ghost use Rattle.std.specs.Ordering.{as_partial_cmp, ord_max, ord_min};
ghost use Rattle.time_line.specs.Span.{Ends, Has, IsWithinLimit, IsSpan, AreOrdered, AreApart, Meet, IsMeet, Touch, StopsAt, IsJoin, IsInside, AreParts, start_cmp, stop_cmp, instant_between};

use std::cmp::Ordering;
use std::marker::Model;

/// How far from 0 an end may lie.
const LIMIT: i64 = 1_000_000_000_000_000;

/// A span of instants that has at least one. An absent end bounds nothing.
#[derive(Clone, Copy, Debug, PartialEq, Eq)]
pub struct Span {
    lo: Option<i64>,
    hi: Option<i64>,
}

impl Model for Span {
    ghost Value = { Ends };

    ghost view = { λ s. record { lo = s.lo; hi = s.hi } };

    ghost invariant = { λ s. IsSpan (record { lo = s.lo; hi = s.hi }) };

    ghost inverse = { λ e. record { lo = e.lo; hi = e.hi } };
}

// By the start and then by the stop, where an absent start stands first and an absent stop last.
impl Ord for Span {
    ghost use Rattle.std.specs.Prelude.{refl};
    ghost use Rattle.std.proofs.Common.{rules};
    ghost use Rattle.time_line.specs.Span.{span_cmp};
    ghost use Rattle.time_line.specs.SpanOrder.{span_cmp-total};

    ghost cmp = { span_cmp };

    ghost total = { span_cmp-total };

    ghost matches_partial_cmp = { λ x y. refl };

    ghost matches_eq = { Prim.search rules };

    fn cmp(&self, other: &Span) -> Ordering {
        self.lo
            .cmp(&other.lo)
            .then(compare_stops(self.hi, other.hi))
    }
}

impl PartialOrd for Span {
    ghost use Rattle.std.specs.Prelude.{refl};
    ghost use Rattle.std.proofs.Common.{rules};
    ghost use Rattle.std.specs.Ordering.{as_partial_cmp};
    ghost use Rattle.std.specs.Cmp.{partial_order_from_agreeing_total};
    ghost use Rattle.time_line.specs.Span.{span_cmp};
    ghost use Rattle.time_line.specs.SpanOrder.{span_cmp-total};

    ghost partial_cmp = { as_partial_cmp span_cmp };

    ghost laws = { partial_order_from_agreeing_total span_cmp span_cmp-total (λ x y. refl) (λ x y. Prim.search rules) };

    fn partial_cmp(&self, other: &Span) -> Option<Ordering> {
        Some(self.cmp(other))
    }
}

impl Span {
    /// The span with these ends, where it has an instant and its ends are within the limit.
    pub fn make(lo: Option<i64>, hi: Option<i64>) -> Option<Self>
        ensures made { IfSome result (λ s. s ≡ record { lo = lo; hi = hi }) }
        ensures none_only { IsSome result ↔ IsSpan (record { lo = lo; hi = hi }) }
    {
        if is_within_limit(lo) && is_within_limit(hi) && are_ordered(lo, hi) {
            Some(Span { lo, hi })
        } else {
            None
        }
    }

    /// Where the span starts.
    pub fn lo(&self) -> Option<i64>
        ensures end { result ≡ self.now.lo }
        ensures span { IsSpan self.now }
    {
        self.lo
    }

    /// Where the span stops.
    pub fn hi(&self) -> Option<i64>
        ensures end { result ≡ self.now.hi }
        ensures span { IsSpan self.now }
    {
        self.hi
    }

    /// What each span is: it has an instant, and its ends are within the limit.
    pub fn is_kept(&self)
        ensures { IsSpan self.now }
    {
        let _ = &self.lo;
    }

    /// Whether the span has the instant.
    pub fn has(&self, t: i64) -> bool
        ensures { IsTrue result ↔ Has self.now t }
    {
        let from = match self.lo {
            Some(lo) => lo <= t,
            None => true,
        };
        let before = match self.hi {
            Some(hi) => t < hi,
            None => true,
        };
        from && before
    }

    /// The instants that both spans have, if there are any.
    pub fn meet(&self, other: &Span) -> Option<Self>
        ensures common { IfSome result (IsMeet self.now other.now) }
        ensures apart { IfNone result (AreApart self.now other.now) }
        ensures meets { IfSome result (λ _. Meet self.now other.now) }
    {
        let lo = self.lo.max(other.lo);
        let hi = earlier_stop(self.hi, other.hi);
        if are_ordered(lo, hi) {
            Some(Span { lo, hi })
        } else {
            None
        }
    }

    /// Whether one of the spans stops where the other starts.
    pub fn touches(&self, other: &Span) -> bool
        ensures { IsTrue result ↔ Touch self.now other.now }
    {
        stops_at(self.hi, other.lo) || stops_at(other.hi, self.lo)
    }

    /// Whether the spans have an instant in common, or one stops where the other starts.
    pub fn adjoins(&self, other: &Span) -> bool
        ensures adjoins { IsTrue result ↔ (Meet self.now other.now ⊎ Touch self.now other.now) }
        ensures apart { OnFalse result (AreApart self.now other.now × ¬ Touch self.now other.now) }
    {
        match self.meet(other) {
            Some(_) => true,
            None => self.touches(other),
        }
    }

    /// The span of the instants of both, which have to meet or to touch.
    pub fn join(&self, other: &Span) -> Self
        requires { Meet self.now other.now ⊎ Touch self.now other.now }
        ensures both { IsJoin self.now other.now result }
        ensures start { result.lo ≡ ord_min start_cmp self.now.lo other.now.lo }
        ensures stop { result.hi ≡ ord_max stop_cmp self.now.hi other.now.hi }
    {
        Span {
            lo: self.lo.min(other.lo),
            hi: later_stop(self.hi, other.hi),
        }
    }

    /// The parts before the instant and from it on, where the instant and the one before it are in the span.
    pub fn cut(&self, m: i64) -> Option<(Self, Self)>
        ensures parts { IfSome result (λ parts. AreParts self.now parts.0 parts.1 m) }
        ensures none_only { IsSome result ↔ (IsInside self.now m × IsWithinLimit (Some m)) }
    {
        if !is_within_limit(Some(m)) || !self.has(m) || !self.has(m - 1) {
            return None;
        }
        let before = Span {
            lo: self.lo,
            hi: Some(m),
        };
        let after = Span {
            lo: Some(m),
            hi: self.hi,
        };
        Some((before, after))
    }

    /// An instant of the span: its start, else the last one before its stop, else 0.
    pub fn inside(&self) -> i64
        ensures had { Has self.now result }
        ensures exact { result ≡ instant_between self.now.lo self.now.hi }
    {
        match (self.lo, self.hi) {
            (Some(lo), _) => lo,
            (None, Some(hi)) => hi - 1,
            (None, None) => 0,
        }
    }
}

// Whether a present end is within the limit.
fn is_within_limit(end: Option<i64>) -> bool
    ensures { IsTrue result ↔ IsWithinLimit end }
{
    match end {
        Some(end) => -LIMIT <= end && end <= LIMIT,
        None => true,
    }
}

// Whether the start stands before the stop, where both are present.
fn are_ordered(lo: Option<i64>, hi: Option<i64>) -> bool
    ensures { IsTrue result ↔ AreOrdered lo hi }
{
    match (lo, hi) {
        (Some(lo), Some(hi)) => lo < hi,
        _ => true,
    }
}

// Whether both are present and equal.
fn stops_at(hi: Option<i64>, lo: Option<i64>) -> bool
    ensures { IsTrue result ↔ StopsAt hi lo }
{
    match (hi, lo) {
        (Some(hi), Some(lo)) => hi == lo,
        _ => false,
    }
}

// The order of stops, where an absent one stands last.
fn compare_stops(a: Option<i64>, b: Option<i64>) -> Ordering
    ensures { result ≡ stop_cmp a b }
{
    match (a, b) {
        (Some(a), Some(b)) => a.cmp(&b),
        (Some(_), None) => Ordering::Less,
        (None, Some(_)) => Ordering::Greater,
        (None, None) => Ordering::Equal,
    }
}

fn earlier_stop(a: Option<i64>, b: Option<i64>) -> Option<i64>
    ensures { result ≡ ord_min stop_cmp a b }
{
    if compare_stops(b, a).is_lt() { b } else { a }
}

fn later_stop(a: Option<i64>, b: Option<i64>) -> Option<i64>
    ensures { result ≡ ord_max stop_cmp a b }
{
    if compare_stops(b, a).is_lt() { a } else { b }
}
