//! The cuts of a step: where a side is an unknown, its row is cut to the step's span, with all rows that share unknowns with it.

ghost use Rattle.std.specs.Prelude.{◌≡◌, ◌↔◌, ◌++◌, ◌∷◌, [], Some, IsTrue, IsSome, IsSomeAnd, OnOk, length};
ghost use Rattle.time_line.specs.Span.{IsInside, IsWithinLimit};
ghost use Rattle.fact_table.specs.Rows.{row_at};
ghost use Rattle.term_core.specs.declared.const_id.ConstId.{ConstId};
ghost use Rattle.rule_core.specs.Terms.{TermOf};
ghost use Rattle.null_store.specs.Store.{Store};
ghost use Rattle.egd_chase.specs.Sides.{IsFitted, IsUnknownTerm};
ghost use Rattle.egd_chase.specs.Cutting.{IsCutTo, StartsWith, KeepsFit};

use crate::sides::Side;
use fact_table::FactSource;
use failure_trace::CutNote;
use null_store::NullStore;
use std::alloc::Global;
use std::sync::ledger::Ledger;
use target_cut::{Cut, cut_piece};
use term_core::{Items, Memory, Seen, Steps};
use time_line::Span;

/// The cells that hold the sides of an equality, the cuts so far, and the rows that came by them.
#[derive(Drop)]
pub struct Cutting {
    /// The side whose row is cut next.
    pub own: Side,
    /// The other side.
    pub other: Side,
    /// The cuts so far.
    pub notes: Items<CutNote>,
    /// The rows that came.
    pub made: Vec<usize>,
}

impl Cutting {
    /// No cut so far.
    pub fn new(alloc: Global, own: Side, other: Side) -> Cutting
        ensures own { result.own ≡ own }
        ensures other { result.other ≡ other }
        ensures notes { result.notes ≡ [] }
        ensures made { result.made.items ≡ [] }
    {
        Cutting {
            own,
            other,
            notes: Items::new(alloc),
            made: Vec::new(alloc),
        }
    }

    /// Lets the sides change places.
    pub fn swap(&mut self)
        ensures own { self.new.own ≡ self.old.other }
        ensures other { self.new.other ≡ self.old.own }
        ensures notes { self.new.notes ≡ self.old.notes }
        ensures made { self.new.made.items ≡ self.old.made.items }
    {
        let own = self.own;
        self.own = self.other;
        self.other = own;
    }

    /// Cuts the row of a side that is an unknown, so that it is over the span, which it has all of.
    pub fn fit<L: Ledger>(
        &mut self,
        alloc: Global,
        store: &mut NullStore,
        span: Span,
        steps: &mut Steps<L>,
    ) -> Result<(), Memory>
        requires cuts { (own other : TermOf ConstId) × (first : Store)
            × IsCutTo own other span first store.old self.old }
        ensures cuts { (own other : TermOf ConstId) (first : Store) → IsCutTo own other span first store.old self.old
            → OnOk result (IsCutTo own other span first store.new self.new × IsFitted store.new own span self.new.own
            × KeepsFit other span store.old self.old.other store.new self.new.other) }
    {
        match store.cell(self.own.row, self.own.column, steps) {
            Seen::Const(_) => Ok(()),
            Seen::Piece(_) => self.fit_row(alloc, store, span, steps),
        }
    }

    // Cuts the row of a side that is an unknown, at both ends of the span.
    fn fit_row<L: Ledger>(
        &mut self,
        alloc: Global,
        store: &mut NullStore,
        span: Span,
        steps: &mut Steps<L>,
    ) -> Result<(), Memory>
        requires cuts { (own other : TermOf ConstId) × (first : Store)
            × IsCutTo own other span first store.old self.old × IsUnknownTerm own }
        ensures cuts { (own other : TermOf ConstId) (first : Store) → IsCutTo own other span first store.old self.old
            → IsUnknownTerm own → OnOk result (IsCutTo own other span first store.new self.new
            × IsFitted store.new own span self.new.own
            × KeepsFit other span store.old self.old.other store.new self.new.other) }
    {
        self.to_start(alloc, store, span, steps)?;
        self.to_stop(alloc, store, span, steps)
    }

    // Lets the row start where the span does.
    fn to_start<L: Ledger>(
        &mut self,
        alloc: Global,
        store: &mut NullStore,
        span: Span,
        steps: &mut Steps<L>,
    ) -> Result<(), Memory>
        requires cuts { (own other : TermOf ConstId) × (first : Store)
            × IsCutTo own other span first store.old self.old × IsUnknownTerm own }
        ensures cuts { (own other : TermOf ConstId) (first : Store) → IsCutTo own other span first store.old self.old
            → IsUnknownTerm own → OnOk result (IsCutTo own other span first store.new self.new
            × StartsWith store.new span self.new.own
            × KeepsFit other span store.old self.old.other store.new self.new.other) }
    {
        match span.lo() {
            Some(lo) => self.cut_start(alloc, store, lo, span, steps),
            None => Ok(()),
        }
    }

    // Lets the row stop where the span does.
    fn to_stop<L: Ledger>(
        &mut self,
        alloc: Global,
        store: &mut NullStore,
        span: Span,
        steps: &mut Steps<L>,
    ) -> Result<(), Memory>
        requires cuts { (own other : TermOf ConstId) × (first : Store)
            × IsCutTo own other span first store.old self.old × IsUnknownTerm own }
        ensures cuts { (own other : TermOf ConstId) (first : Store) → IsCutTo own other span first store.old self.old
            → IsUnknownTerm own → StartsWith store.old span self.old.own
            → OnOk result (IsCutTo own other span first store.new self.new
            × IsFitted store.new own span self.new.own
            × KeepsFit other span store.old self.old.other store.new self.new.other) }
    {
        match span.hi() {
            Some(hi) => self.cut_stop(alloc, store, hi, span, steps),
            None => Ok(()),
        }
    }

    // Cuts the row where the span starts, if it starts before, and goes on with the copy.
    fn cut_start<L: Ledger>(
        &mut self,
        alloc: Global,
        store: &mut NullStore,
        m: i64,
        span: Span,
        steps: &mut Steps<L>,
    ) -> Result<(), Memory>
        requires end { span.lo ≡ Some m }
        requires cuts { (own other : TermOf ConstId) × (first : Store)
            × IsCutTo own other span first store.old self.old × IsUnknownTerm own }
        ensures cuts { (own other : TermOf ConstId) (first : Store) → IsCutTo own other span first store.old self.old
            → IsUnknownTerm own → OnOk result (IsCutTo own other span first store.new self.new
            × StartsWith store.new span self.new.own
            × KeepsFit other span store.old self.old.other store.new self.new.other) }
    {
        store.is_kept();
        span.is_kept();
        if !is_inside(store, self.own.row, m) {
            return Ok(());
        }
        let cut = cut_piece(alloc, store, self.own.row, m, steps)?;
        let (rows, copies) = (cut.rows.as_slice(), cut.made.as_slice());
        self.own = self.own.copied(rows, copies);
        self.other = self.other.copied(rows, copies);
        self.note(m, cut)
    }

    // Cuts the row where the span stops, if it stops after that.
    fn cut_stop<L: Ledger>(
        &mut self,
        alloc: Global,
        store: &mut NullStore,
        m: i64,
        span: Span,
        steps: &mut Steps<L>,
    ) -> Result<(), Memory>
        requires end { span.hi ≡ Some m }
        requires cuts { (own other : TermOf ConstId) × (first : Store)
            × IsCutTo own other span first store.old self.old × IsUnknownTerm own }
        ensures cuts { (own other : TermOf ConstId) (first : Store) → IsCutTo own other span first store.old self.old
            → IsUnknownTerm own → StartsWith store.old span self.old.own
            → OnOk result (IsCutTo own other span first store.new self.new
            × IsFitted store.new own span self.new.own
            × KeepsFit other span store.old self.old.other store.new self.new.other) }
    {
        store.is_kept();
        span.is_kept();
        if !is_inside(store, self.own.row, m) {
            return Ok(());
        }
        let cut = cut_piece(alloc, store, self.own.row, m, steps)?;
        self.note(m, cut)
    }

    // Notes a cut.
    fn note(&mut self, m: i64, cut: Cut) -> Result<(), Memory>
        ensures own { OnOk result (self.new.own ≡ self.old.own) }
        ensures other { OnOk result (self.new.other ≡ self.old.other) }
        ensures notes { OnOk result (self.new.notes ≡ self.old.notes
            ++ (record { at = m; rows = length cut.rows }) ∷ []) }
        ensures made { OnOk result (self.new.made.items ≡ self.old.made.items ++ cut.made) }
    {
        self.notes.push(CutNote {
            at: m,
            rows: cut.rows.len(),
        })?;
        self.made.extend_from_slice(cut.made.as_slice())?;
        Ok(())
    }
}

// Whether the instant is strictly inside the span of the row.
fn is_inside(store: &NullStore, row: usize, m: i64) -> bool
    requires row { IsSome (row_at store.now.rows row) }
    requires limit { IsWithinLimit (Some m) }
    ensures { IsTrue result ↔ IsSomeAnd (row_at store.now.rows row) (λ r. IsInside r.span m) }
{
    let head = store.head(row).unwrap();
    head.span.cut(m).is_some()
}
