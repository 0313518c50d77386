//! Which rows are shown: of rows that are alike, only as many as are over all of their time. So the rows that are shown under one
//! key follow one another in time, and at each instant two of them meet at most, if all that is known of them is still so.

ghost use Rattle.std.specs.Prelude.{◌≡◌, ◌⊎◌, ◌↔◌, ◌<◌, ◌≤◌, ℕ, ℤ, Some, Contains, IsTrue, IfOk, IfSome, OnOk, length};
ghost use Rattle.time_line.specs.Span.{Has};
ghost use Rattle.fact_table.specs.Rows.{SeenRow, head_at, row_at};
ghost use Rattle.body_match.specs.Choice.{AreChosen, AreEnough, AreHidden, HasInstantIn, IsHidden, IsOn, IsOtherAt, IsStoodFor, MayMark, StandsForLess};

use crate::looked::{are_alike, fits_some, looked_key};
use crate::seats::{Seat, seat_after, seat_before, seat_of};
use fact_table::{FactSource, RowHead};
use rule_core::Atom;
use std::alloc::Global;
use std::collections::{BTreeSet, HashMap};
use std::sync::ledger::Ledger;
use term_core::{Memory, Steps};
use time_line::Span;

/// Whether each row is shown; under the key of its cells which row was shown last; and where those stand in time that share a key.
#[derive(Drop)]
pub struct Choice {
    pub shown: Vec<bool>,
    pub latest: HashMap<u64, Latest>,
    pub seats: BTreeSet<Seat>,
}

/// The row that was shown last under a key.
#[derive(Clone, Copy, Debug)]
pub struct Latest {
    pub row: usize,
    /// Whether it has a seat: the first row under a key gets one when another comes.
    pub seated: bool,
}

/// No row is shown.
pub fn nothing_shown(alloc: Global) -> Choice
    ensures { (number : ℕ) → ¬ (IsOn result.shown.items number) }
{
    Choice {
        shown: Vec::new(alloc),
        latest: HashMap::new(alloc),
        seats: BTreeSet::new(alloc),
    }
}

/// Shows rows no more, and gives those of them that were shown.
pub fn hide(alloc: Global, shown: &mut Vec<bool>, rows: &[usize]) -> Result<Vec<usize>, Memory>
    ensures { IfOk result (λ gone. AreHidden rows.now shown.old.items shown.new.items gone.items) }
{
    let mut gone = Vec::new(alloc);
    for row in rows {
        hide_one(shown, *row, &mut gone)?;
    }
    Ok(gone)
}

// Shows a row no more, and puts it on the list if it was shown.
fn hide_one(shown: &mut Vec<bool>, row: usize, gone: &mut Vec<usize>) -> Result<(), Memory>
    ensures { OnOk result (IsHidden row shown.old.items shown.new.items gone.old.items gone.new.items) }
{
    if !is_shown(shown.as_slice(), row) {
        return Ok(());
    }
    gone.push(row)?;
    shown[row] = false;
    Ok(())
}

/// Makes room for so many rows, none of which is shown.
pub fn grow(shown: &mut Vec<bool>, rows: usize) -> Result<(), Memory>
    ensures room { OnOk result (rows ≤ length shown.new.items) }
    ensures same { OnOk result ((number : ℕ) → IsOn shown.new.items number ↔ IsOn shown.old.items number) }
{
    for _ in shown.len()..rows {
        shown.push(false)?;
    }
    Ok(())
}

/// Shows as many of the rows as are needed, and others no more for which they are enough. Gives those that it hid at some point.
pub fn choose<F: FactSource, L: Ledger>(
    alloc: Global,
    body: &[Atom],
    looked: &[bool],
    choice: &mut Choice,
    source: &F,
    rows: &[usize],
    steps: &mut Steps<L>,
) -> Result<Vec<usize>, Memory>
    requires { length (F.rows source.now) ≤ length choice.old.shown.items }
    ensures { OnOk result (AreChosen body.now looked.now (F.rows source.now) rows.now choice.old.shown.items
        choice.new.shown.items (length rows.now)) }
{
    let mut hidden = Vec::new(alloc);
    for row in rows {
        choose_one(body, looked, choice, source, *row, &mut hidden, steps)?;
    }
    Ok(hidden)
}

/// Those of the rows that are shown, in their order.
pub fn shown_among(alloc: Global, shown: &[bool], rows: &[usize]) -> Result<Vec<usize>, Memory>
    ensures { IfOk result (λ list. (number : ℕ) → Contains list.items number ↔ (Contains rows.now number × IsOn shown.now number)) }
{
    let mut list = Vec::new(alloc);
    for row in rows {
        if !is_shown(shown, *row) {
            continue;
        }
        list.push(*row)?;
    }
    Ok(list)
}

/// Adds those of the rows that are not shown.
pub fn add_hidden(shown: &[bool], rows: &[usize], gone: &mut Vec<usize>) -> Result<(), Memory>
    ensures { OnOk result ((number : ℕ) → Contains gone.new.items number
        → Contains gone.old.items number ⊎ ¬ (IsOn shown.now number)) }
{
    for row in rows {
        if is_shown(shown, *row) {
            continue;
        }
        gone.push(*row)?;
    }
    Ok(())
}

// Shows a row, if it is needed, and no more those before and after it for which it is enough.
fn choose_one<F: FactSource, L: Ledger>(
    body: &[Atom],
    looked: &[bool],
    choice: &mut Choice,
    source: &F,
    row: usize,
    hidden: &mut Vec<usize>,
    steps: &mut Steps<L>,
) -> Result<(), Memory>
    requires { length (F.rows source.now) ≤ length choice.old.shown.items }
    ensures marks { OnOk result (MayMark body.now looked.now (F.rows source.now) row choice.old.shown.items choice.new.shown.items) }
    ensures stand { OnOk result (IsStoodFor body.now looked.now (F.rows source.now) choice.new.shown.items row) }
{
    let Some(head) = source.head(row) else {
        return Ok(());
    };
    if !fits_some(body, &head) {
        return Ok(());
    }
    let key = looked_key(body, looked, source, &head, row, steps);
    let seat = seat_of(key, &head.span, row);
    let Some(latest) = choice.latest.get(&key).copied() else {
        return show(choice, seat, false);
    };
    let shown = choice.shown.as_slice();
    if are_enough(body, looked, shown, source, row, &[latest.row], steps) {
        return Ok(());
    }
    if !latest.seated {
        take_seat(&mut choice.seats, shown, source, key, latest.row)?;
    }
    let before = seat_before(&choice.seats, &seat);
    let after = seat_after(&choice.seats, &seat);
    if !is_near(source, before, &head.span) && !is_near(source, after, &head.span) {
        choice.seats.insert(seat)?;
        return show(choice, seat, true);
    }
    let around = rows_of(before, after, row);
    if are_enough(body, looked, shown, source, row, &around, steps) {
        return Ok(());
    }
    choice.seats.insert(seat)?;
    show(choice, seat, true)?;
    hide_inside(body, looked, choice, source, seat, hidden, steps)?;
    hide_before(body, looked, choice, source, seat, hidden, steps)?;
    hide_after(body, looked, choice, source, seat, hidden, steps)?;
    Ok(())
}

// Hides the row before a row, if that one is enough for it with the row before both.
fn hide_before<F: FactSource, L: Ledger>(
    body: &[Atom],
    looked: &[bool],
    choice: &mut Choice,
    source: &F,
    seat: Seat,
    hidden: &mut Vec<usize>,
    steps: &mut Steps<L>,
) -> Result<bool, Memory>
    ensures { OnOk result (StandsForLess body.now looked.now (F.rows source.now) choice.old.shown.items choice.new.shown.items) }
{
    let Some(before) = seat_before(&choice.seats, &seat) else {
        return Ok(false);
    };
    let others = rows_of(seat_before(&choice.seats, &before), Some(seat), seat.row);
    hide_if(body, looked, choice, source, before, &others, hidden, steps)
}

// Hides the row after a row, if that one is enough for it with the row after both.
fn hide_after<F: FactSource, L: Ledger>(
    body: &[Atom],
    looked: &[bool],
    choice: &mut Choice,
    source: &F,
    seat: Seat,
    hidden: &mut Vec<usize>,
    steps: &mut Steps<L>,
) -> Result<bool, Memory>
    ensures { OnOk result (StandsForLess body.now looked.now (F.rows source.now) choice.old.shown.items choice.new.shown.items) }
{
    let Some(after) = seat_after(&choice.seats, &seat) else {
        return Ok(false);
    };
    let others = rows_of(Some(seat), seat_after(&choice.seats, &after), seat.row);
    hide_if(body, looked, choice, source, after, &others, hidden, steps)
}

// Hides the next rows, as long as a row is enough for them alone.
fn hide_inside<F: FactSource, L: Ledger>(
    body: &[Atom],
    looked: &[bool],
    choice: &mut Choice,
    source: &F,
    seat: Seat,
    hidden: &mut Vec<usize>,
    steps: &mut Steps<L>,
) -> Result<(), Memory>
    ensures { OnOk result (StandsForLess body.now looked.now (F.rows source.now) choice.old.shown.items choice.new.shown.items) }
{
    for _ in 0..choice.seats.len() {
        let Some(after) = seat_after(&choice.seats, &seat) else {
            return Ok(());
        };
        if !hide_if(
            body,
            looked,
            choice,
            source,
            after,
            &[seat.row],
            hidden,
            steps,
        )? {
            return Ok(());
        }
    }
    Ok(())
}

// Hides the row of a seat, if others are enough for it; whether it did.
fn hide_if<F: FactSource, L: Ledger>(
    body: &[Atom],
    looked: &[bool],
    choice: &mut Choice,
    source: &F,
    seat: Seat,
    others: &[usize],
    hidden: &mut Vec<usize>,
    steps: &mut Steps<L>,
) -> Result<bool, Memory>
    ensures { OnOk result (StandsForLess body.now looked.now (F.rows source.now) choice.old.shown.items choice.new.shown.items) }
{
    let shown = choice.shown.as_slice();
    if !are_enough(body, looked, shown, source, seat.row, others, steps) {
        return Ok(false);
    }
    hide_one(&mut choice.shown, seat.row, hidden)?;
    choice.seats.remove(&seat);
    Ok(true)
}

// Whether the row of a seat, if there is one, has an instant of a span.
fn is_near<F: FactSource>(source: &F, seat: Option<Seat>, span: &Span) -> bool {
    let Some(seat) = seat else {
        return false;
    };
    match source.head(seat.row) {
        Some(head) => head.span.meet(span).is_some(),
        None => false,
    }
}

// The rows of two seats, or another one where there is no seat.
fn rows_of(first: Option<Seat>, second: Option<Seat>, other: usize) -> [usize; 2] {
    [
        first.map_or(other, |seat| seat.row),
        second.map_or(other, |seat| seat.row),
    ]
}

// Gives a row that is shown its seat under a key.
fn take_seat<F: FactSource>(
    seats: &mut BTreeSet<Seat>,
    shown: &[bool],
    source: &F,
    key: u64,
    row: usize,
) -> Result<(), Memory> {
    if !is_shown(shown, row) {
        return Ok(());
    }
    if let Some(head) = source.head(row) {
        seats.insert(seat_of(key, &head.span, row))?;
    }
    Ok(())
}

// Shows a row, which is the last one under its key then; whether it has a seat.
fn show(choice: &mut Choice, seat: Seat, seated: bool) -> Result<(), Memory>
    requires { seat.row < length choice.old.shown.items }
    ensures size { length choice.new.shown.items ≡ length choice.old.shown.items }
    ensures on { OnOk result (IsOn choice.new.shown.items seat.row) }
    ensures kept { (number : ℕ) → IsOn choice.old.shown.items number → IsOn choice.new.shown.items number }
    ensures less { (number : ℕ) → IsOn choice.new.shown.items number → IsOn choice.old.shown.items number ⊎ (number ≡ seat.row) }
{
    let latest = Latest {
        row: seat.row,
        seated,
    };
    choice.latest.insert(seat.key, latest)?;
    choice.shown[seat.row] = true;
    Ok(())
}

// Whether at each instant of a row another one of these is shown that is like it. They come in order of their starts.
fn are_enough<F: FactSource, L: Ledger>(
    body: &[Atom],
    looked: &[bool],
    shown: &[bool],
    source: &F,
    row: usize,
    others: &[usize],
    steps: &mut Steps<L>,
) -> bool
    ensures { IsTrue result → AreEnough body.now looked.now (F.rows source.now) shown.now row }
{
    let Some(head) = source.head(row) else {
        return false;
    };
    let mut together = None;
    for other in others {
        let found = like_shown(body, looked, shown, source, &head, row, *other, steps);
        let Some(span) = found else {
            continue;
        };
        let span = joined(together, span);
        if covers(&span, &head.span) {
            return true;
        }
        together = Some(span);
    }
    false
}

// The span of another row, if it is shown and like this one.
fn like_shown<F: FactSource, L: Ledger>(
    body: &[Atom],
    looked: &[bool],
    shown: &[bool],
    source: &F,
    head: &RowHead,
    row: usize,
    other: usize,
    steps: &mut Steps<L>,
) -> Option<Span>
    requires { head_at (F.rows source.now) row ≡ Some head.now }
    ensures { IfSome result (λ span. (seen : SeenRow) (t : ℤ) → row_at (F.rows source.now) row ≡ Some seen → Has span t
        → IsOtherAt body.now looked.now (F.rows source.now) shown.now row seen t) }
{
    if other == row || !is_shown(shown, other) {
        return None;
    }
    let found = source.head(other)?;
    if found.relation != head.relation || found.arity != head.arity {
        return None;
    }
    are_alike(body, looked, source, head, row, other, steps).then_some(found.span)
}

// A span, or what it makes up with the one before where they meet or touch.
fn joined(before: Option<Span>, span: Span) -> Span
    ensures { (t : ℤ) → Has result t → HasInstantIn before t ⊎ Has span t }
{
    let Some(before) = before else {
        return span;
    };
    if before.adjoins(&span) {
        before.join(&span)
    } else {
        span
    }
}

// Whether a span has all instants of another.
fn covers(span: &Span, other: &Span) -> bool
    ensures { IsTrue result → (t : ℤ) → Has other.now t → Has span.now t }
{
    span.meet(other) == Some(*other)
}

// Whether a row is shown.
fn is_shown(shown: &[bool], row: usize) -> bool
    ensures { IsTrue result ↔ IsOn shown.now row }
{
    shown.get(row) == Some(&true)
}
