//! An index over the rows of a source that lasts while the source changes. For each atom of a body it has the rows that the
//! other atoms look up where a row stands at this one. A row that came or changed is listed anew; what was listed before may stay,
//! since each row is looked at again where it is found.

ghost use Rattle.std.specs.Prelude.{◌≡◌, ◌↔◌, ◌<◌, ◌≤◌, ℕ, AllPairs, Contains, length, IfOk, OnOk};
ghost use Rattle.rule_core.specs.Validity.{occurrences};
ghost use Rattle.body_match.specs.declared.found.Match.{Match};
ghost use Rattle.body_match.specs.Index.{Grows, Lists, ListsRow};
ghost use Rattle.body_match.specs.Matches.{IsMatch, StandsBefore};
ghost use Rattle.body_match.specs.Plans.{ArePlans, IsIndex};

use crate::Match;
use crate::plan::{Plan, list_plans};
use crate::using::matches_in;
use fact_table::FactSource;
use rule_core::Atom;
use std::alloc::Global;
use std::marker::Model;
use std::sync::ledger::Ledger;
use term_core::{Items, Memory, Steps};

/// How the matches of a body are looked up that use a row. It has a plan for each atom.
#[derive(Drop)]
pub struct BodyIndex {
    alloc: Global,
    body: Items<Atom>,
    vars: u32,
    plans: Vec<Plan>,
}

impl Model for BodyIndex {
    ghost use Rattle.body_match.specs.Index.{Index};
    ghost use Rattle.body_match.specs.Plans.{IsIndex};

    ghost Value = { Index };

    ghost view = { λ i. record { body = i.body; vars = i.vars; plans = i.plans.items } };

    ghost invariant = { λ i. IsIndex (record { body = i.body; vars = i.vars; plans = i.plans.items }) };
}

impl BodyIndex {
    /// An index for a body, whose variables are numbered below `vars`, that lists the rows of a source.
    pub fn make<F: FactSource, L: Ledger>(
        alloc: Global,
        body: Items<Atom>,
        vars: u32,
        source: &F,
        steps: &mut Steps<L>,
    ) -> Result<BodyIndex, Memory>
        requires vars { (v : ℕ) → Contains (occurrences body) v ↔ (v < vars) }
        ensures body { IfOk result (λ index. index.body ≡ body) }
        ensures vars { IfOk result (λ index. index.vars ≡ vars) }
        ensures lists { IfOk result (λ index. Lists index (F.rows source.now)) }
    {
        let plans = plans_of(alloc, &body, vars, source, steps)?;
        Ok(BodyIndex {
            alloc,
            body,
            vars,
            plans,
        })
    }

    /// Lists a row that came or changed.
    pub fn list_row<F: FactSource, L: Ledger>(
        &mut self,
        source: &F,
        row: usize,
        steps: &mut Steps<L>,
    ) -> Result<(), Memory>
        ensures grows { OnOk result (Grows self.old self.new) }
        ensures listed { OnOk result (ListsRow self.new (F.rows source.now) row) }
    {
        list_plans(self.alloc, &mut self.plans, source, row, steps)
    }

    /// The matches that use the row, in order of their rows.
    pub fn matches_using<F: FactSource, L: Ledger>(
        &self,
        source: &F,
        row: usize,
        steps: &mut Steps<L>,
    ) -> Result<Items<Match>, Memory>
        requires lists { Lists self.now (F.rows source.now) }
        ensures each { IfOk result (λ list. (found : Match) → Contains list found
            ↔ (IsMatch self.now.body self.now.vars (F.rows source.now) found × Contains found.rows row)) }
        ensures order { IfOk result (AllPairs StandsBefore) }
    {
        matches_in(self.alloc, self.plans(), source, row, steps)
    }

    // The plans.
    fn plans(&self) -> &[Plan]
        ensures value { result.now ≡ self.now.plans }
        ensures index { IsIndex self.now }
    {
        self.plans.as_slice()
    }
}

/// A plan for each atom.
pub fn plans_of<F: FactSource, L: Ledger>(
    alloc: Global,
    body: &Items<Atom>,
    vars: u32,
    source: &F,
    steps: &mut Steps<L>,
) -> Result<Vec<Plan>, Memory>
    requires { (v : ℕ) → Contains (occurrences body.now) v ↔ (v < vars) }
    ensures { IfOk result (λ plans. ArePlans body.now vars (F.rows source.now) plans.items (length body.now)) }
{
    let mut plans = Vec::with_capacity(alloc, body.len())?;
    for first in 0..body.len() {
        plans.push(Plan::make(alloc, body, vars, first, source, steps)?)?;
    }
    Ok(plans)
}
