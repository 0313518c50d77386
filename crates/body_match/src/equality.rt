//! An index for the matches of a body that give two variables different values. It lasts while the rows of its source change, and
//! shows as few of them as it needs: of rows that have the same cells wherever the body looks, so many as are over all of their time.

ghost use Rattle.std.specs.Prelude.{◌≡◌, ◌≢◌, ◌⊎◌, ◌↔◌, ◌<◌, ◌≤◌, [], ℕ, All, Contains, IsTrue, IfOk, OnOk, IfSome, IfNone};
ghost use Rattle.rule_core.specs.Validity.{occurrences};
ghost use Rattle.body_match.specs.declared.found.Match.{Match};
ghost use Rattle.body_match.specs.Equality.{IsSameEquality, IsShown, IsShownFor, Shows};
ghost use Rattle.body_match.specs.Index.{IsUnequal, IsUnequalWith, ListsRow};
ghost use Rattle.body_match.specs.Plans.{IsIndex};

use crate::Match;
use crate::choice::{Choice, add_hidden, choose, grow, hide, nothing_shown, shown_among};
use crate::exact::unequal_match;
use crate::looked::looked_of;
use crate::plan::{Plan, bare_plans, renew_plans};
use crate::unequal::{Wanted, unequal_of};
use fact_table::FactSource;
use rule_core::Atom;
use std::alloc::Global;
use std::marker::Model;
use std::sync::ledger::Ledger;
use term_core::{Items, Memory, Steps};

/// How the matches are looked up that use a row and give two variables different values, with each variable of the body marked that
/// is looked at, and which rows are shown.
#[derive(Drop)]
pub struct EqualityIndex {
    alloc: Global,
    body: Items<Atom>,
    vars: u32,
    left: u32,
    right: u32,
    plans: Vec<Plan>,
    looked: Vec<bool>,
    choice: Choice,
}

impl Model for EqualityIndex {
    ghost use Rattle.body_match.specs.Equality.{Equality};
    ghost use Rattle.body_match.specs.Plans.{IsIndex};
    ghost use Rattle.body_match.specs.Choice.{AreLooked};

    ghost Value = { Equality };

    ghost view = { λ e. record {
      index = record { body = e.body; vars = e.vars; plans = e.plans.items };
      left = e.left;
      right = e.right;
      shown = e.choice.shown.items;
    } };

    ghost invariant = { λ e. IsIndex (record { body = e.body; vars = e.vars; plans = e.plans.items })
        × AreLooked e.body e.left e.right e.looked.items };
}

impl EqualityIndex {
    /// An index for a body, whose variables are numbered below `vars`, and two of them. It shows no row.
    pub fn make(
        alloc: Global,
        body: Items<Atom>,
        vars: u32,
        left: u32,
        right: u32,
    ) -> Result<EqualityIndex, Memory>
        requires vars { (v : ℕ) → Contains (occurrences body) v ↔ (v < vars) }
        ensures body { IfOk result (λ e. e.index.body ≡ body) }
        ensures vars { IfOk result (λ e. e.index.vars ≡ vars) }
        ensures left { IfOk result (λ e. e.left ≡ left) }
        ensures right { IfOk result (λ e. e.right ≡ right) }
        ensures shown { IfOk result (λ e. (number : ℕ) → ¬ (IsShown e number)) }
    {
        let plans = bare_plans(alloc, &body, vars)?;
        let looked = looked_of(alloc, body.as_slice(), vars, left, right)?;
        Ok(EqualityIndex {
            alloc,
            body,
            vars,
            left,
            right,
            plans,
            looked,
            choice: nothing_shown(alloc),
        })
    }

    /// Takes in rows that came or changed. For each of them that fits the body, rows that have the same cells wherever the body looks are
    /// shown at all of its times afterwards: others, or itself. So it is for each that was shown before, though fewer of these may be
    /// shown then. Those of the given rows that are shown are given back, in their order.
    pub fn take_in<F: FactSource, L: Ledger>(
        &mut self,
        source: &F,
        rows: &[usize],
        steps: &mut Steps<L>,
    ) -> Result<Items<usize>, Memory>
        requires listed { (number : ℕ) → ¬ (Contains rows.now number) → IsShown self.old number
            → ListsRow self.old.index (F.rows source.now) number }
        ensures same { OnOk result (IsSameEquality self.old self.new) }
        ensures listed { OnOk result ((number : ℕ) → IsShown self.new number
            → ListsRow self.new.index (F.rows source.now) number) }
        ensures others { OnOk result ((number : ℕ) → IsShown self.new number
            → IsShown self.old number ⊎ Contains rows.now number) }
        ensures stand { OnOk result ((number : ℕ) → Contains rows.now number ⊎ IsShown self.old number
            → IsShownFor self.new (F.rows source.now) number) }
        ensures shown { IfOk result (λ list. (number : ℕ) → Contains list number
            ↔ (Contains rows.now number × IsShown self.new number)) }
    {
        let mut gone = hide(self.alloc, &mut self.choice.shown, rows)?;
        grow(&mut self.choice.shown, source.bound())?;
        let (body, looked) = (self.body.as_slice(), self.looked.as_slice());
        let hidden = choose(
            self.alloc,
            body,
            looked,
            &mut self.choice,
            source,
            rows,
            steps,
        )?;
        let shown = self.choice.shown.as_slice();
        add_hidden(shown, &hidden, &mut gone)?;
        let fresh = shown_among(self.alloc, shown, rows)?;
        let (gone, listed) = (gone.as_slice(), fresh.as_slice());
        renew_plans(self.alloc, &mut self.plans, source, gone, listed, steps)?;
        Ok(Items::from_vec(fresh))
    }

    /// Whether the row with the number is shown. A match that gives the two variables different values is there only if one is whose rows
    /// are all shown.
    pub fn shows(&self, row: usize) -> bool
        ensures { IsTrue result ↔ IsShown self.now row }
    {
        self.choice.shown.get(row) == Some(&true)
    }

    /// So many matches that use the row and give the two variables different values, or fewer; none exactly where there is none.
    pub fn unequal_matches<F: FactSource, L: Ledger>(
        &self,
        source: &F,
        row: usize,
        limit: usize,
        steps: &mut Steps<L>,
    ) -> Result<Items<Match>, Memory>
        requires shows { Shows self.now (F.rows source.now) }
        requires some { 1 ≤ limit }
        ensures each { IfOk result
            (All (IsUnequal self.now.index (F.rows source.now) row self.now.left self.now.right)) }
        ensures none { IfOk result (λ list. list ≡ []
            → (m : Match) → ¬ (IsUnequal self.now.index (F.rows source.now) row self.now.left self.now.right m)) }
    {
        let wanted = self.wanted(row, limit);
        unequal_of(self.alloc, self.plans(), source, wanted, steps)
    }

    /// The match with these rows, one for each atom, if there is one and it gives the two variables different values.
    pub fn unequal_with<F: FactSource, L: Ledger>(
        &self,
        source: &F,
        rows: &[usize],
        steps: &mut Steps<L>,
    ) -> Result<Option<Match>, Memory>
        ensures some { IfOk result (λ found. IfSome found
            (IsUnequalWith self.now.index (F.rows source.now) self.now.left self.now.right rows.now)) }
        ensures none { IfOk result (λ found. IfNone found ((m : Match)
            → ¬ (IsUnequalWith self.now.index (F.rows source.now) self.now.left self.now.right rows.now m))) }
    {
        let plans = self.plans();
        let count = plans.len();
        if rows.len() != count {
            return Ok(None);
        }
        if count == 0 {
            return Ok(None);
        }
        unequal_match(
            self.alloc, &plans[0], source, rows, self.left, self.right, steps,
        )
    }

    // The plans.
    fn plans(&self) -> &[Plan]
        ensures value { result.now ≡ self.now.index.plans }
        ensures index { IsIndex self.now.index }
    {
        self.plans.as_slice()
    }

    // So many matches with different values that use the row.
    fn wanted(&self, row: usize, limit: usize) -> Wanted
        ensures row { result.row ≡ row }
        ensures left { result.left ≡ self.now.left }
        ensures right { result.right ≡ self.now.right }
        ensures limit { result.limit ≡ limit }
    {
        Wanted {
            row,
            left: self.left,
            right: self.right,
            limit,
        }
    }
}
