//! The lists of matches.

ghost use Rattle.std.specs.Prelude.{◌≡◌, ◌↔◌, ◌<◌, ◌≤◌, ◌++◌, ◌∷◌, [], ℕ, AllPairs, Contains, length, IfOk};
ghost use Rattle.rule_core.specs.Validity.{occurrences};
ghost use Rattle.body_match.specs.declared.found.Match.{Match};
ghost use Rattle.body_match.specs.Matches.{IsMatch, StandsBefore};
ghost use Rattle.body_match.specs.Snapshots.{AreMatchesAtInstants};

use crate::index::plans_of;
use crate::using::matches_in;
use crate::visit::visit_matches;
use crate::{Match, Visitor};
use fact_table::FactSource;
use rule_core::Atom;
use std::alloc::Global;
use std::sync::ledger::Ledger;
use term_core::{Items, Memory, Steps};

/// All matches of a body, whose variables are numbered below `vars`, each once, in order of their rows.
pub fn matches<F: FactSource, L: Ledger>(
    alloc: Global,
    body: &Items<Atom>,
    vars: u32,
    source: &F,
    steps: &mut Steps<L>,
) -> Result<Items<Match>, Memory>
    requires atoms { 1 ≤ length body.now }
    requires vars { (v : ℕ) → Contains (occurrences body.now) v ↔ (v < vars) }
    ensures each { IfOk result (λ list. (found : Match)
        → Contains list found ↔ IsMatch body.now vars (F.rows source.now) found) }
    ensures order { IfOk result (AllPairs StandsBefore) }
    ensures snapshots { IfOk result (AreMatchesAtInstants body.now (F.rows source.now)) }
{
    let mut list = Listing {
        alloc,
        list: Vec::new(alloc),
    };
    visit_matches(alloc, body, vars, source, &mut list, steps)?;
    Ok(Items::from_vec(list.list))
}

/// Those matches that use the row with a number, in the same order.
pub fn matches_with<F: FactSource, L: Ledger>(
    alloc: Global,
    body: &Items<Atom>,
    vars: u32,
    source: &F,
    row: usize,
    steps: &mut Steps<L>,
) -> Result<Items<Match>, Memory>
    requires atoms { 1 ≤ length body.now }
    requires vars { (v : ℕ) → Contains (occurrences body.now) v ↔ (v < vars) }
    ensures each { IfOk result (λ list. (found : Match) → Contains list found
        ↔ (IsMatch body.now vars (F.rows source.now) found × Contains found.rows row)) }
    ensures order { IfOk result (AllPairs StandsBefore) }
{
    let plans = plans_of(alloc, body, vars, source, steps)?;
    matches_in(alloc, plans.as_slice(), source, row, steps)
}

/// A list of the matches so far.
#[derive(Drop)]
pub struct Listing {
    pub alloc: Global,
    pub list: Vec<Match>,
}

impl Visitor for Listing {
    ghost use Rattle.body_match.specs.Listings.{Adds};

    ghost takes = { λ old found new. Adds old found new };

    ghost stops = { λ _. ⊥ };

    fn visit(&mut self, found: &Match) -> Result<bool, Memory> {
        self.list.push(copy_of(self.alloc, found)?)?;
        Ok(true)
    }
}

/// A copy of a match.
pub fn copy_of(alloc: Global, found: &Match) -> Result<Match, Memory>
    ensures { IfOk result (λ copy. copy ≡ found.now) }
{
    Ok(Match {
        rows: Items::from_vec(found.rows.as_slice().to_vec(alloc)?),
        binding: Items::from_vec(found.binding.as_slice().to_vec(alloc)?),
        span: found.span,
    })
}
