//! The search for matches with unequal sides: which rows are still to be looked at, and how matches that use them are looked up.

ghost use Rattle.std.specs.Prelude.{◌≡◌, ◌≢◌, ◌≤◌, ◌<◌, [], ℕ, Some, All, Contains, IfOk, OnOk, IfSome, IfNone, IsSomeAnd, List, length, slice_get};
ghost use Rattle.std.specs.List.{AllZip};
ghost use Rattle.rule_core.specs.declared.rules.Relation.{Relation};
ghost use Rattle.rule_core.specs.declared.rules.Egd.{Egd as EgdValue};
ghost use Rattle.rule_core.specs.Validity.{IsEgd};
ghost use Rattle.fact_table.specs.Rows.{row_at, SeenRow};
ghost use Rattle.body_match.specs.declared.found.Match.{Match as MatchValue};
ghost use Rattle.egd_chase.specs.Search.{HaveSpans, AreParts, IsPartFor, IsIndexFor, IsShownMatch, HasNoUnequal, NoneIsUnequal, IsUnequalMatch, CanTake, HasTaken};

use body_match::laws::rows_that_lose_times_stay_listed;
use body_match::{EqualityIndex, Match};
use fact_table::FactSource;
use null_store::NullStore;
use rule_core::{Atom, Egd};
use std::alloc::Global;
use std::sync::ledger::Ledger;
use term_core::{Items, Memory, Seen, Steps};

/// A match of an egd's body that gives its sides different values.
#[derive(Drop)]
pub struct Unequal {
    /// The place of the egd.
    pub egd: usize,
    /// The match.
    pub found: Match,
}

/// Some matches of an egd's body that give its sides different values.
#[derive(Drop)]
pub struct Batch {
    /// The place of the egd.
    pub egd: usize,
    /// The matches.
    pub found: Items<Match>,
}

/// An index for the body and the sides of an egd, and the rows that are to be looked at for it, in turn from `next` on.
#[derive(Drop)]
pub struct Part {
    index: EqualityIndex,
    waiting: Vec<usize>,
    next: usize,
}

impl Part {
    /// A part for an egd, over no rows.
    pub fn make(alloc: Global, egd: &Egd) -> Result<Part, Memory>
        requires { (relations : List Relation) × IsEgd relations egd.now }
        ensures { IfOk result (IsPartFor [] egd.now) }
    {
        let body = copy_atoms(alloc, egd.body.as_slice())?;
        let vars = egd.vars.len() as u32;
        Ok(Part {
            index: EqualityIndex::make(alloc, body, vars, egd.left, egd.right)?,
            waiting: Vec::new(alloc),
            next: 0,
        })
    }

    /// Some matches with unequal sides, at most `limit`, or none exactly where the egd has none. Rows that no such match uses wait no
    /// longer.
    pub fn next<L: Ledger>(
        &mut self,
        store: &NullStore,
        limit: usize,
        steps: &mut Steps<L>,
    ) -> Result<Option<Items<Match>>, Memory>
        requires limit { 1 ≤ limit }
        requires part { (egd : EgdValue) × IsPartFor store.now.rows egd self.old }
        ensures part { OnOk result ((egd : EgdValue) → IsPartFor store.now.rows egd self.old
            → IsPartFor store.now.rows egd self.new) }
        ensures each { IfOk result (λ found. IfSome found (λ list. (egd : EgdValue) → IsPartFor store.now.rows egd self.old
            → All (IsUnequalMatch store.now.rows egd) list)) }
        ensures some { IfOk result (λ found. IfSome found (λ list. list ≢ [])) }
        ensures none { IfOk result (λ found. IfNone found ((egd : EgdValue) → IsPartFor store.now.rows egd self.old
            → HasNoUnequal store.now.rows egd)) }
    {
        while self.next < self.waiting.len() {
            let row = self.waiting[self.next];
            if let Some(found) = unequal_at(&self.index, store, row, limit, steps)? {
                return Ok(Some(found));
            }
            self.next += 1;
        }
        Ok(None)
    }

    /// Takes in rows that came or changed, and lets those of them wait that are shown.
    pub fn take<L: Ledger>(
        &mut self,
        store: &NullStore,
        rows: &[usize],
        steps: &mut Steps<L>,
    ) -> Result<(), Memory>
        requires { CanTake store.now.rows rows.now self.old }
        ensures { OnOk result (HasTaken store.now.rows rows.now self.old self.new) }
    {
        let came = self.index.take_in(store, rows, steps)?;
        self.waiting.extend_from_slice(came.as_slice())?;
        Ok(())
    }
}

/// A part for each egd, and how many matches are sought at once.
#[derive(Drop)]
pub struct Search {
    parts: Vec<Part>,
    limit: usize,
}

impl Search {
    /// A search over the rows of a store.
    pub fn make<L: Ledger>(
        alloc: Global,
        egds: &[Egd],
        store: &NullStore,
        steps: &mut Steps<L>,
    ) -> Result<Search, Memory>
        requires { (relations : List Relation) × All (IsEgd relations) egds.now }
        ensures parts { IfOk result (λ s. AreParts store.now.rows egds.now s.parts.items) }
        ensures limit { IfOk result (λ s. 1 ≤ s.limit) }
    {
        rows_that_lose_times_stay_listed();
        let parts = parts_of(alloc, egds)?;
        if egds.is_empty() {
            return Ok(Search { parts, limit: 1 });
        }
        let rows = all_rows(alloc, store, steps)?;
        let mut search = Search { parts, limit: 1 };
        search.add(store, rows.as_slice(), steps)?;
        Ok(search)
    }

    /// Some matches of an egd with unequal sides, or none exactly where no egd has one.
    pub fn next<L: Ledger>(
        &mut self,
        store: &NullStore,
        steps: &mut Steps<L>,
    ) -> Result<Option<Batch>, Memory>
        requires limit { 1 ≤ self.old.limit }
        requires parts { (egds : List EgdValue) × AreParts store.now.rows egds self.old.parts.items }
        ensures limit { self.new.limit ≡ self.old.limit }
        ensures parts { OnOk result ((egds : List EgdValue) → AreParts store.now.rows egds self.old.parts.items
            → AreParts store.now.rows egds self.new.parts.items) }
        ensures each { IfOk result (λ found. IfSome found (λ batch. (egds : List EgdValue)
            → AreParts store.now.rows egds self.old.parts.items
            → IsSomeAnd (slice_get egds batch.egd) (λ egd. All (IsUnequalMatch store.now.rows egd) batch.found))) }
        ensures some { IfOk result (λ found. IfSome found (λ batch. batch.found ≢ [])) }
        ensures none { IfOk result (λ found. IfNone found ((egds : List EgdValue) → AreParts store.now.rows egds self.old.parts.items
            → NoneIsUnequal store.now.rows egds)) }
    {
        for at in 0..self.parts.len() {
            if let Some(found) = self.parts[at].next(store, self.limit, steps)? {
                return Ok(Some(Batch { egd: at, found }));
            }
        }
        Ok(None)
    }

    /// The match of an egd with these rows, one for each atom, if it is one and its sides are unequal.
    pub fn again<L: Ledger>(
        &self,
        egd: usize,
        store: &NullStore,
        rows: &[usize],
        steps: &mut Steps<L>,
    ) -> Result<Option<Match>, Memory>
        requires { egd < length self.now.parts.items }
        ensures some { IfOk result (λ found. IfSome found (λ m. (egds : List EgdValue)
            → AreParts store.now.rows egds self.now.parts.items
            → IsSomeAnd (slice_get egds egd) (λ e. IsUnequalMatch store.now.rows e m))) }
        ensures none { IfOk result (λ found. IfNone found ((egds : List EgdValue) (e : EgdValue) (m : MatchValue)
            → AreParts store.now.rows egds self.now.parts.items
            → slice_get egds egd ≡ Some e → IsUnequalMatch store.now.rows e m → ¬ (m.rows ≡ rows.now))) }
    {
        self.parts[egd].index.unequal_with(store, rows, steps)
    }

    /// Takes in rows that came or changed.
    pub fn add<L: Ledger>(
        &mut self,
        store: &NullStore,
        rows: &[usize],
        steps: &mut Steps<L>,
    ) -> Result<(), Memory>
        requires { All (CanTake store.now.rows rows.now) self.old.parts.items }
        ensures taken { OnOk result
            (AllZip (HasTaken store.now.rows rows.now) self.old.parts.items self.new.parts.items) }
        ensures limit { OnOk result (self.new.limit ≡ self.old.limit) }
    {
        for at in 0..self.parts.len() {
            self.parts[at].take(store, rows, steps)?;
        }
        Ok(())
    }

    /// Seeks twice as many matches at once from now on where all of a batch were unequal still, and one at a time where not.
    pub fn grade(&mut self, good: bool)
        ensures parts { self.new.parts ≡ self.old.parts }
        ensures limit { 1 ≤ self.old.limit → 1 ≤ self.new.limit }
    {
        self.limit = if good {
            self.limit.saturating_mul(2)
        } else {
            1
        };
    }
}

// A part for each egd, over no rows.
fn parts_of(alloc: Global, egds: &[Egd]) -> Result<Vec<Part>, Memory>
    requires { (relations : List Relation) × All (IsEgd relations) egds.now }
    ensures { IfOk result (λ parts. AreParts [] egds.now parts.items) }
{
    let mut parts = Vec::with_capacity(alloc, egds.len())?;
    for egd in egds {
        parts.push(Part::make(alloc, egd)?)?;
    }
    Ok(parts)
}

// Some matches with unequal sides that use the row, at most `limit`. A row that is not shown is passed over. Where there is none,
// no such match of shown rows uses the row.
fn unequal_at<L: Ledger>(
    index: &EqualityIndex,
    store: &NullStore,
    row: usize,
    limit: usize,
    steps: &mut Steps<L>,
) -> Result<Option<Items<Match>>, Memory>
    requires limit { 1 ≤ limit }
    requires index { (egd : EgdValue) × IsIndexFor store.now.rows egd index.now }
    ensures each { IfOk result (λ found. IfSome found (λ list. (egd : EgdValue) → IsIndexFor store.now.rows egd index.now
        → All (IsUnequalMatch store.now.rows egd) list)) }
    ensures some { IfOk result (λ found. IfSome found (λ list. list ≢ [])) }
    ensures none { IfOk result (λ found. IfNone found ((egd : EgdValue) (m : MatchValue) → IsIndexFor store.now.rows egd index.now
        → IsShownMatch store.now.rows egd index.now m → ¬ (Contains m.rows row))) }
{
    if !index.shows(row) {
        return Ok(None);
    }
    let found = index.unequal_matches(store, row, limit, steps)?;
    if found.is_empty() {
        return Ok(None);
    }
    Ok(Some(found))
}

// The same atoms in memory of their own.
fn copy_atoms(alloc: Global, atoms: &[Atom]) -> Result<Items<Atom>, Memory>
    ensures { IfOk result (λ copies. copies ≡ atoms.now) }
{
    let mut copies = Items::new(alloc);
    for atom in atoms {
        copies.push(Atom {
            relation: atom.relation,
            args: atom.args.copy(alloc)?,
        })?;
    }
    Ok(copies)
}

// The numbers of all rows: first those of constants alone, then those with unknowns. So an unknown becomes a constant, where it does,
// before it is made equal to others.
fn all_rows<L: Ledger>(
    alloc: Global,
    store: &NullStore,
    steps: &mut Steps<L>,
) -> Result<Vec<usize>, Memory>
    ensures { IfOk result (λ rows. (number : ℕ) (row : SeenRow) → row_at store.now.rows number ≡ Some row
        → Contains rows.items number) }
{
    let mut rows = Vec::new(alloc);
    let mut later = Vec::new(alloc);
    for row in 0..store.bound() {
        if let Some(head) = store.head(row) {
            if has_piece(store, row, head.arity, steps) {
                later.push(row)?;
            } else {
                rows.push(row)?;
            }
        }
    }
    rows.extend_from_slice(later.as_slice())?;
    Ok(rows)
}

/// The span of each row has an instant, and its ends are within the limit: what the type of spans keeps.
pub fn rows_have_spans(store: &NullStore)
    ensures { HaveSpans store.now.rows }
{
    for row in 0..store.bound() {
        if let Some(head) = store.head(row) {
            head.span.is_kept();
        }
    }
}

// Whether one of the first cells of a row holds a piece. No clause rests on it.
fn has_piece<L: Ledger>(store: &NullStore, row: usize, arity: usize, steps: &mut Steps<L>) -> bool
    requires { IsSomeAnd (row_at store.now.rows row) (λ r. length r.cells ≡ arity) }
{
    for column in 0..arity {
        if let Seen::Piece(_) = store.cell(row, column, steps) {
            return true;
        }
    }
    false
}
