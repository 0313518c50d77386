//! The search: a row for each atom in turn, where it agrees with the rows before it and has an instant in common
//! with them.

ghost use Rattle.std.specs.Prelude.{◌≡◌, ◌↔◌, ◌<◌, ◌≤◌, ◌-◌, ◌∷◌, ◌++◌, [], ℕ, ℤ, Some, All, Contains, IsSome, IsSomeAnd, length, map, slice_get, false, IsTrue, IfSome, IfNone, IfOk, OnOk};
ghost use Rattle.time_line.specs.Span.{Has};
ghost use Rattle.fact_table.specs.Rows.{HasCell, cell_at, head_at, row_at};
ghost use Rattle.body_match.specs.declared.found.Match.{Match};
ghost use Rattle.body_match.specs.Matches.{IsMatch};
ghost use Rattle.body_match.specs.Keys.{key_of};
ghost use Rattle.body_match.specs.Search.{IsTask, Agrees, AddsNext, Gives, HasNext, IsFindable, IsPartial, IsListedFrom, task_of, cell_in, placed_value, value_in};

use crate::levels::{Level, has_form, mix, probe_of};
use crate::places::Place;
use crate::{Match, Visitor};
use fact_table::{FactSource, RowHead};
use rule_core::{Arg, Atom};
use std::alloc::Global;
use std::marker::Model;
use std::mem::replace;
use std::sync::ledger::Ledger;
use term_core::{Items, Memory, Seen, Steps};
use time_line::Span;

/// What is searched for: a body, for each variable a place in the first atom that has it, a store, and for each atom but the
/// first the rows of its form.
#[derive(Drop)]
pub struct Search<'a, F: FactSource> {
    body: &'a [Atom],
    places: &'a [Place],
    source: &'a F,
    levels: &'a [Level],
}

impl<'a, F: FactSource> Model for Search<'a, F> {
    ghost use Rattle.body_match.specs.Search.{Task, IsTask, task_of};

    ghost Value = { Task };

    ghost view = { λ s. task_of s.body.now s.places.now (F.rows s.source.now) s.levels.now };

    ghost invariant = { λ s. IsTask (task_of s.body.now s.places.now (F.rows s.source.now) s.levels.now) };
}

impl<'a, F: FactSource> Search<'a, F> {
    /// A search in a store.
    pub fn new(
        body: &'a [Atom],
        places: &'a [Place],
        source: &'a F,
        levels: &'a [Level],
    ) -> Search<'a, F>
        requires { IsTask (task_of body.now places.now (F.rows source.now) levels.now) }
        ensures { result ≡ task_of body.now places.now (F.rows source.now) levels.now }
    {
        Search {
            body,
            places,
            source,
            levels,
        }
    }

    /// The atoms of the body.
    fn body(&self) -> &'a [Atom]
        ensures value { result.now ≡ self.now.body }
        ensures task { IsTask self.now }
    {
        self.body
    }

    /// The places of the variables.
    fn places(&self) -> &'a [Place]
        ensures value { result.now ≡ self.now.places }
        ensures task { IsTask self.now }
    {
        self.places
    }

    /// Above the number of each row.
    fn bound(&self) -> usize
        ensures value { result ≡ length self.now.rows }
        ensures task { IsTask self.now }
    {
        self.source.bound()
    }

    /// The head of a row, if there is one.
    fn head(&self, row: usize) -> Option<RowHead>
        ensures { result ≡ head_at self.now.rows row }
    {
        self.source.head(row)
    }

    /// A cell of a row.
    fn cell<L: Ledger>(&self, row: usize, column: usize, steps: &mut Steps<L>) -> Seen
        requires { HasCell self.now.rows row column }
        ensures { cell_at self.now.rows row column ≡ Some result }
    {
        self.source.cell(row, column, steps)
    }

    /// The levels of the atoms behind the first.
    fn levels(&self) -> &'a [Level]
        ensures value { result.now ≡ self.now.levels }
        ensures task { IsTask self.now }
    {
        self.levels
    }
}

/// The rows that are chosen for the first atoms, the rows that may be chosen next, those that were found last, and the values of
/// a match.
#[derive(Drop)]
pub struct Walk {
    chosen: Vec<usize>,
    next: Vec<usize>,
    found: Vec<usize>,
    values: Vec<Seen>,
}

/// Gives a visitor matches that are searched for in turn, in order, until it wants no more: at least those whose rows behind the
/// first are listed. Answers whether it wanted more to the end.
pub fn visit_all<F: FactSource, V: Visitor, L: Ledger>(
    alloc: Global,
    search: &Search<'_, F>,
    visitor: &mut V,
    steps: &mut Steps<L>,
) -> Result<bool, Memory>
    ensures gives { IfOk result (Gives V.takes (IsMatch search.now.body (length search.now.places) search.now.rows)
        (IsFindable search.now) visitor.old visitor.new) }
    ensures stops { IfOk result (λ more. more ≡ false → V.stops visitor.new) }
{
    let mut walk = Walk {
        chosen: Vec::with_capacity(alloc, search.body().len())?,
        next: Vec::new(alloc),
        found: Vec::new(alloc),
        values: Vec::with_capacity(alloc, search.places().len())?,
    };
    extend(alloc, search, &mut walk, always(), visitor, steps)
}

/// Gives a visitor the matches that have the row at the first atom, in the same way.
pub fn visit_from<F: FactSource, V: Visitor, L: Ledger>(
    alloc: Global,
    search: &Search<'_, F>,
    row: usize,
    visitor: &mut V,
    steps: &mut Steps<L>,
) -> Result<bool, Memory>
    requires { 1 ≤ length search.now.body }
    ensures gives { IfOk result (Gives V.takes (IsListedFrom search.now (row ∷ []))
        (IsFindable search.now) visitor.old visitor.new) }
    ensures stops { IfOk result (λ more. more ≡ false → V.stops visitor.new) }
{
    let mut walk = walk_for(alloc, search)?;
    extend_by(alloc, search, &mut walk, &always(), row, visitor, steps)
}

/// The match with these rows, one for each atom, if there is one.
pub fn match_of<F: FactSource, L: Ledger>(
    alloc: Global,
    search: &Search<'_, F>,
    rows: Vec<usize>,
    steps: &mut Steps<L>,
) -> Result<Option<Match>, Memory>
    requires { length rows.items ≡ length search.now.body }
    ensures some { IfOk result (λ found. IfSome found (IsListedFrom search.now rows.items)) }
    ensures none { IfOk result (λ found. IfNone found
        ((m : Match) → ¬ (IsListedFrom search.now rows.items m))) }
{
    let Some(span) = span_of(search, rows.as_slice(), steps) else {
        return Ok(None);
    };
    let places = search.places();
    let mut values = Vec::with_capacity(alloc, places.len())?;
    take_values(search, rows.as_slice(), places, &mut values, steps)?;
    Ok(Some(Match {
        rows: Items::from_vec(rows),
        binding: Items::from_vec(values),
        span,
    }))
}

// What the rows have in common, where each is its atom's image and there is such an instant.
fn span_of<F: FactSource, L: Ledger>(
    search: &Search<'_, F>,
    rows: &[usize],
    steps: &mut Steps<L>,
) -> Option<Span>
    requires { length rows.now ≡ length search.now.body }
    ensures some { IfSome result (IsPartial search.now rows.now) }
    ensures none { IfNone result ((m : Match) → ¬ (IsListedFrom search.now rows.now m)) }
{
    let mut span = always();
    for at in 0..rows.len() {
        span = common_span(search, &rows[..at], &span, rows[at], steps)?;
    }
    Some(span)
}

// No row chosen yet, with room for what a match has.
fn walk_for<F: FactSource>(alloc: Global, search: &Search<'_, F>) -> Result<Walk, Memory>
    ensures { IfOk result (λ walk. walk.chosen.items ≡ []) }
{
    Ok(Walk {
        chosen: Vec::with_capacity(alloc, search.body().len())?,
        next: Vec::new(alloc),
        found: Vec::new(alloc),
        values: Vec::with_capacity(alloc, search.places().len())?,
    })
}

// The span of all instants.
fn always() -> Span
    ensures { (t : ℤ) → Has result t }
{
    Span::make(None, None).unwrap()
}

// Gives all matches whose rows begin with the chosen ones.
#[cycle(walk)]
fn extend<F: FactSource, V: Visitor, L: Ledger>(
    alloc: Global,
    search: &Search<'_, F>,
    walk: &mut Walk,
    span: Span,
    visitor: &mut V,
    steps: &mut Steps<L>,
) -> Result<bool, Memory>
    requires { IsPartial search.now walk.old.chosen.items span }
    ensures chosen { OnOk result (walk.new.chosen.items ≡ walk.old.chosen.items) }
    ensures next { OnOk result (walk.new.next.items ≡ walk.old.next.items) }
    ensures gives { IfOk result (Gives V.takes (IsListedFrom search.now walk.old.chosen.items)
        (IsFindable search.now) visitor.old visitor.new) }
    ensures stops { IfOk result (λ more. more ≡ false → V.stops visitor.new) }
{
    if walk.chosen.len() == search.body().len() {
        return give(alloc, search, walk, span, visitor, steps);
    }
    let first = walk.next.len();
    find_next(search, walk, &span, steps)?;
    for at in first..walk.next.len() {
        let row = walk.next[at];
        if !extend_by(alloc, search, walk, &span, row, visitor, steps)? {
            walk.next.truncate(first);
            return Ok(false);
        }
    }
    walk.next.truncate(first);
    Ok(true)
}

// Gives all matches whose rows begin with the chosen ones and this one.
#[cycle(walk)]
fn extend_by<F: FactSource, V: Visitor, L: Ledger>(
    alloc: Global,
    search: &Search<'_, F>,
    walk: &mut Walk,
    span: &Span,
    row: usize,
    visitor: &mut V,
    steps: &mut Steps<L>,
) -> Result<bool, Memory>
    requires partial { IsPartial search.now walk.old.chosen.items span.now }
    requires more { length walk.old.chosen.items < length search.now.body }
    ensures chosen { OnOk result (walk.new.chosen.items ≡ walk.old.chosen.items) }
    ensures next { OnOk result (walk.new.next.items ≡ walk.old.next.items) }
    ensures gives { IfOk result (Gives V.takes
        (IsListedFrom search.now (walk.old.chosen.items ++ row ∷ [])) (IsFindable search.now)
        visitor.old visitor.new) }
    ensures stops { IfOk result (λ more. more ≡ false → V.stops visitor.new) }
{
    let Some(common) = common_span(search, walk.chosen.as_slice(), span, row, steps) else {
        return Ok(true);
    };
    walk.chosen.push(row)?;
    let more = extend(alloc, search, walk, common, visitor, steps)?;
    walk.chosen.pop();
    Ok(more)
}

// Adds the rows that may be chosen next, in order, each once.
fn find_next<F: FactSource, L: Ledger>(
    search: &Search<'_, F>,
    walk: &mut Walk,
    span: &Span,
    steps: &mut Steps<L>,
) -> Result<(), Memory>
    requires partial { IsPartial search.now walk.old.chosen.items span.now }
    requires more { length walk.old.chosen.items < length search.now.body }
    ensures chosen { OnOk result (walk.new.chosen.items ≡ walk.old.chosen.items) }
    ensures next { OnOk result (AddsNext search.now walk.old.chosen.items
        walk.old.next.items walk.new.next.items) }
{
    walk.found.clear();
    find(search, walk.chosen.as_slice(), span, &mut walk.found, steps)?;
    walk.found.sort_unstable();
    walk.found.dedup();
    let found = walk.found.as_slice();
    walk.next.extend_from_slice(found)?;
    Ok(())
}

// Finds at least the rows that may be chosen next.
fn find<F: FactSource, L: Ledger>(
    search: &Search<'_, F>,
    chosen: &[usize],
    span: &Span,
    found: &mut Vec<usize>,
    steps: &mut Steps<L>,
) -> Result<(), Memory>
    requires partial { IsPartial search.now chosen.now span.now }
    requires more { length chosen.now < length search.now.body }
    ensures { OnOk result (HasNext search.now chosen.now found.new.items) }
{
    if chosen.is_empty() {
        find_all(search, found)
    } else {
        look_up(search, chosen, span, found, steps)
    }
}

// Finds all rows.
fn find_all<F: FactSource>(search: &Search<'_, F>, found: &mut Vec<usize>) -> Result<(), Memory>
    ensures all { OnOk result ((row : ℕ) → row < length search.now.rows → Contains found.new.items row) }
    ensures task { IsTask search.now }
{
    for row in 0..search.bound() {
        found.push(row)?;
    }
    Ok(())
}

// Finds at least the rows that may be chosen behind the first.
fn look_up<F: FactSource, L: Ledger>(
    search: &Search<'_, F>,
    chosen: &[usize],
    span: &Span,
    found: &mut Vec<usize>,
    steps: &mut Steps<L>,
) -> Result<(), Memory>
    requires partial { IsPartial search.now chosen.now span.now }
    requires first { 1 ≤ length chosen.now }
    requires more { length chosen.now < length search.now.body }
    ensures { OnOk result (HasNext search.now chosen.now found.new.items) }
{
    let level = &search.levels()[chosen.len() - 1];
    let atom = &search.body()[chosen.len()];
    let key = chosen_key(search, chosen, atom, level.columns.as_slice(), steps);
    level.listed.gather(&probe_of(key, span), found)
}

// The key of what the arguments in columns of the next atom stand for.
fn chosen_key<F: FactSource, L: Ledger>(
    search: &Search<'_, F>,
    chosen: &[usize],
    atom: &Atom,
    columns: &[usize],
    steps: &mut Steps<L>,
) -> u64
    requires { All (λ column. IsSome (value_in search.now chosen.now atom.now column)) columns.now }
    ensures { result ≡ key_of (value_in search.now chosen.now atom.now) columns.now }
{
    let args = atom.args.as_slice();
    let mut key = 0;
    for column in columns {
        key = mix(key, chosen_value(search, chosen, args[*column], steps));
    }
    key
}

// What an argument stands for by the chosen rows.
fn chosen_value<F: FactSource, L: Ledger>(
    search: &Search<'_, F>,
    chosen: &[usize],
    arg: Arg,
    steps: &mut Steps<L>,
) -> Seen
    requires { IsSome (placed_value search.now chosen.now arg) }
    ensures { placed_value search.now chosen.now arg ≡ Some result }
{
    match arg {
        Arg::Const(constant) => Seen::Const(constant),
        Arg::Var(variable) => {
            let place = search.places()[variable as usize];
            search.cell(chosen[place.atom], place.column, steps)
        }
    }
}

// What the chosen rows and this one have in common, where it is the next atom's image and there is such an instant.
fn common_span<F: FactSource, L: Ledger>(
    search: &Search<'_, F>,
    chosen: &[usize],
    span: &Span,
    row: usize,
    steps: &mut Steps<L>,
) -> Option<Span>
    requires partial { IsPartial search.now chosen.now span.now }
    requires more { length chosen.now < length search.now.body }
    ensures some { IfSome result (IsPartial search.now (chosen.now ++ row ∷ [])) }
    ensures none { IfNone result ((found : Match)
        → ¬ (IsListedFrom search.now (chosen.now ++ row ∷ []) found)) }
{
    let atom = &search.body()[chosen.len()];
    let head = search.head(row)?;
    if !has_form(&head, atom) {
        return None;
    }
    let common = span.meet(&head.span)?;
    if agrees(search, chosen, atom, row, steps) {
        Some(common)
    } else {
        None
    }
}

// Whether each cell of the row is what the atom's argument stands for.
fn agrees<F: FactSource, L: Ledger>(
    search: &Search<'_, F>,
    chosen: &[usize],
    atom: &Atom,
    row: usize,
    steps: &mut Steps<L>,
) -> bool
    requires cells { All (λ arg. IsSome (placed_value search.now (chosen.now ++ row ∷ []) arg))
        atom.now.args }
    requires arity { IsSomeAnd (row_at search.now.rows row)
        (λ r. length r.cells ≡ length atom.now.args) }
    ensures { IsTrue result ↔ Agrees search.now (chosen.now ++ row ∷ []) atom.now row }
{
    for (column, arg) in atom.args.as_slice().iter().enumerate() {
        if search.cell(row, column, steps) != value_of(search, chosen, row, *arg, steps) {
            return false;
        }
    }
    true
}

// What an argument stands for, where this row is chosen behind the others.
fn value_of<F: FactSource, L: Ledger>(
    search: &Search<'_, F>,
    chosen: &[usize],
    row: usize,
    arg: Arg,
    steps: &mut Steps<L>,
) -> Seen
    requires { IsSome (placed_value search.now (chosen.now ++ row ∷ []) arg) }
    ensures { placed_value search.now (chosen.now ++ row ∷ []) arg ≡ Some result }
{
    match arg {
        Arg::Const(constant) => Seen::Const(constant),
        Arg::Var(variable) => {
            let place = search.places()[variable as usize];
            let row = row_for(chosen, row, place.atom);
            search.cell(row, place.column, steps)
        }
    }
}

// The row for an atom, where this one is chosen behind the others.
fn row_for(chosen: &[usize], row: usize, atom: usize) -> usize
    requires { atom ≤ length chosen.now }
    ensures { slice_get (chosen.now ++ row ∷ []) atom ≡ Some result }
{
    match chosen.get(atom) {
        Some(earlier) => *earlier,
        None => row,
    }
}

// Gives the match of the rows, one for each atom.
fn give<F: FactSource, V: Visitor, L: Ledger>(
    alloc: Global,
    search: &Search<'_, F>,
    walk: &mut Walk,
    span: Span,
    visitor: &mut V,
    steps: &mut Steps<L>,
) -> Result<bool, Memory>
    requires partial { IsPartial search.now walk.old.chosen.items span }
    requires whole { length walk.old.chosen.items ≡ length search.now.body }
    ensures chosen { OnOk result (walk.new.chosen.items ≡ walk.old.chosen.items) }
    ensures next { OnOk result (walk.new.next.items ≡ walk.old.next.items) }
    ensures gives { IfOk result (Gives V.takes (IsListedFrom search.now walk.old.chosen.items)
        (IsFindable search.now) visitor.old visitor.new) }
    ensures stops { IfOk result (λ more. more ≡ false → V.stops visitor.new) }
{
    let places = search.places();
    take_values(
        search,
        walk.chosen.as_slice(),
        places,
        &mut walk.values,
        steps,
    )?;
    let rows = Items::from_vec(replace(&mut walk.chosen, Vec::new(alloc)));
    let binding = Items::from_vec(replace(&mut walk.values, Vec::new(alloc)));
    let found = Match {
        rows,
        binding,
        span,
    };
    let more = visitor.visit(&found)?;
    let Match {
        rows,
        binding,
        span: _,
    } = found;
    walk.chosen = rows.into_vec();
    walk.values = binding.into_vec();
    Ok(more)
}

// Takes the values at places.
fn take_values<F: FactSource, L: Ledger>(
    search: &Search<'_, F>,
    chosen: &[usize],
    places: &[Place],
    values: &mut Vec<Seen>,
    steps: &mut Steps<L>,
) -> Result<(), Memory>
    requires { All (λ place. IsSome (cell_in search.now chosen.now place)) places.now }
    ensures { OnOk result (map Some values.new.items
        ≡ map (cell_in search.now chosen.now) places.now) }
{
    values.clear();
    for place in places {
        values.push(search.cell(chosen[place.atom], place.column, steps))?;
    }
    Ok(())
}
