//! Matches one at a time.

ghost use Rattle.std.specs.Prelude.{◌≡◌, ◌↔◌, ◌<◌, ◌≤◌, ◌++◌, [], ℕ, List, Contains, length, true, false, ⊤, IfOk, OnOk};
ghost use Rattle.rule_core.specs.Validity.{occurrences};
ghost use Rattle.body_match.specs.declared.found.Match.{Match};
ghost use Rattle.body_match.specs.Matches.{AreMatches};
ghost use Rattle.body_match.specs.Visits.{TakesInTurn};

use crate::Match;
use crate::levels::levels_of;
use crate::places::first_places;
use crate::search::{Search, visit_all};
use fact_table::FactSource;
use rule_core::Atom;
use std::alloc::Global;
use std::sync::ledger::Ledger;
use term_core::{Items, Memory, Steps};

/// What is done with each match as it is found.
pub trait Visitor {
    /// What a visit makes of the visitor.
    ghost takes: { Self → Match → Self → Type 0 };

    /// What is so of the visitor once it wants no more. One that always wants more gives `⊥`.
    ghost stops: { Self → Type 0 } = { λ _. ⊤ };

    /// Takes a match, and answers whether more are wanted.
    fn visit(&mut self, found: &Match) -> Result<bool, Memory>
        ensures takes { OnOk result (takes self.old found.now self.new) }
        ensures stops { IfOk result (λ more. more ≡ false → stops self.new) };
}

/// Gives each match of a body, whose variables are numbered below `vars`, in turn, in order of their rows, until the
/// visitor wants no more. Answers whether it wanted more to the end: then it was given all of them, and else a first part.
pub fn visit_matches<F: FactSource, V: Visitor, L: Ledger>(
    alloc: Global,
    body: &Items<Atom>,
    vars: u32,
    source: &F,
    visitor: &mut V,
    steps: &mut Steps<L>,
) -> Result<bool, Memory>
    requires atoms { 1 ≤ length body.now }
    requires vars { (v : ℕ) → Contains (occurrences body.now) v ↔ (v < vars) }
    ensures visits { IfOk result (λ whole. (list : List Match) × (rest : List Match)
        × AreMatches body.now vars (F.rows source.now) (list ++ rest) × (whole ≡ true → rest ≡ [])
        × TakesInTurn V.takes visitor.old list visitor.new) }
    ensures stops { IfOk result (λ whole. whole ≡ false → V.stops visitor.new) }
{
    let atoms = body.as_slice();
    let found = first_places(alloc, atoms, vars)?;
    let places = found.as_slice();
    let levels = levels_of(alloc, atoms, places, source, steps)?;
    let search = Search::new(atoms, places, source, levels.as_slice());
    visit_all(alloc, &search, visitor, steps)
}
