//! Coalescing: a sort, and a sweep in which spans of equal rows that meet or touch become one.

ghost use Rattle.std.specs.Prelude.{◌≡◌, ◌+◌, ◌<◌, ◌⊎◌, ◌↔◌, ℤ, List, IsPermutation, IsSorted, IfOk, OnOk, length, take};
ghost use Rattle.std.specs.Bool.{OnTrue, OnFalse};
ghost use Rattle.std.specs.Cmp.Lexicographic.{slice_cmp};
ghost use Rattle.term_core.specs.declared.term.Term.{Term};
ghost use Rattle.term_core.specs.Order.{term_cmp};
ghost use Rattle.time_line.specs.Span.{AreApart, Meet, Touch, IsJoin};
ghost use Rattle.rule_core.specs.Coalesced.{Covers, IsCoalesced, stamped_cmp};

use crate::Stamped;
use std::alloc::Global;
use term_core::{Items, Memory};
use time_line::Span;

/// The list in order, each row once for each stretch of time over which it holds. It covers what the given list covers.
pub fn coalesce(_alloc: Global, rows: Items<Stamped>) -> Result<Items<Stamped>, Memory>
    ensures coalesced { IfOk result (IsCoalesced (slice_cmp term_cmp)) }
    ensures covers { IfOk result (λ list. (row : List Term) (t : ℤ)
        → Covers list row t ↔ Covers rows row t) }
{
    let mut rows = rows.into_vec();
    if rows.is_empty() {
        return Ok(Items::from_vec(rows));
    }
    // Rows come rule by rule, and in order for each rule: the stable sort merges such stretches.
    rows.sort()?;
    let last = sweep(&mut rows);
    rows.truncate(last + 1);
    Ok(Items::from_vec(rows))
}

// Brings the coalesced rows to the front, and answers the place of the last one.
fn sweep(rows: &mut Vec<Stamped>) -> usize
    requires some { 0 < length rows.old.items }
    requires sorted { IsSorted (stamped_cmp (slice_cmp term_cmp)) rows.old.items }
    ensures within { result < length rows.new.items }
    ensures coalesced { IsCoalesced (slice_cmp term_cmp)
        (take (result + 1) rows.new.items) }
    ensures covers { (row : List Term) (t : ℤ)
        → Covers (take (result + 1) rows.new.items) row t ↔ Covers rows.old.items row t }
{
    let first = &rows[0];
    first.span.is_kept();
    let mut last = 0;
    for at in 1..rows.len() {
        let next = &rows[at];
        let span = next.span;
        span.is_kept();
        if goes_on(&rows[last], next) {
            widen(&mut rows[last], span);
        } else {
            last += 1;
            rows.swap(last, at);
        }
    }
    last
}

// Whether the next row only goes on with the last: they are one row, and their spans meet or touch.
fn goes_on(last: &Stamped, next: &Stamped) -> bool
    ensures row { OnTrue result (last.now.row ≡ next.now.row) }
    ensures yes { OnTrue result
        (Meet last.now.span next.now.span ⊎ Touch last.now.span next.now.span) }
    ensures no { OnFalse result (last.now.row ≡ next.now.row
        → AreApart last.now.span next.now.span × ¬ (Touch last.now.span next.now.span)) }
{
    last.row == next.row && last.span.adjoins(&next.span)
}

// Gives the row the span of both.
fn widen(entry: &mut Stamped, span: Span)
    requires { Meet entry.old.span span ⊎ Touch entry.old.span span }
    ensures row { entry.new.row ≡ entry.old.row }
    ensures span { IsJoin entry.old.span span entry.new.span }
    ensures start { (entry.new.span.lo ≡ entry.old.span.lo) ⊎ (entry.new.span.lo ≡ span.lo) }
{
    entry.span = entry.span.join(&span);
}
