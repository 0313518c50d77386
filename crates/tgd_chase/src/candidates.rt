//! The matches of tgds' bodies in a table, with what each gives to the frontier. With the tgd
//! `A(x, y) -> exists z: B(x, z)` the row `A(a, b)` over 1 to 5 is a candidate with the frontier
//! value a, over 1 to 5, and with x = a and y = b.

ghost use Rattle.std.specs.Prelude.{◌≡◌, ◌↔◌, ◌<◌, ◌≤◌, ℕ, Some, All, Contains, length, map, slice_get, IfOk, OnOk};
ghost use Rattle.rule_core.specs.Validity.{occurrences};
ghost use Rattle.tgd_chase.specs.Candidates.{AreCandidates, AddsCandidates, IsMadeFrom, IsOfConstants, IsConstant};

use body_match::{Match, Visitor, visit_matches};
use fact_table::FactTable;
use failure_trace::Support;
use rule_core::{Rules, Tgd, frontier};
use std::alloc::Global;
use std::mem::replace;
use std::sync::ledger::Ledger;
use term_core::{ConstId, Items, Memory, Seen, Steps};

/// A match of a rule's body, with the values of the rule's frontier. Candidates are ordered by
/// rule, then by frontier, then by span.
#[derive(Debug, PartialEq, Eq, PartialOrd, Ord, Drop)]
pub struct Candidate {
    /// The place of the rule.
    pub rule: u32,
    /// The values of its frontier.
    pub frontier: Items<ConstId>,
    /// The match.
    pub support: Support,
}

/// All matches of the bodies of a mapping's tgds.
pub fn find_candidates<L: Ledger>(
    alloc: Global,
    rules: &Rules,
    table: &FactTable,
    steps: &mut Steps<L>,
) -> Result<Vec<Candidate>, Memory>
    ensures { IfOk result (λ list. AreCandidates rules.now table.now list.items) }
{
    rules.is_kept();
    let mut list = Vec::new(alloc);
    for (rule, tgd) in rules.tgds().as_slice().iter().enumerate() {
        add_candidates(alloc, rule as u32, tgd, table, &mut list, steps)?;
    }
    Ok(list)
}

// Adds all matches of the body of the tgd at a place.
fn add_candidates<L: Ledger>(
    alloc: Global,
    rule: u32,
    tgd: &Tgd,
    table: &FactTable,
    list: &mut Vec<Candidate>,
    steps: &mut Steps<L>,
) -> Result<(), Memory>
    requires atoms { 1 ≤ length tgd.now.body }
    requires vars { (v : ℕ) → Contains (occurrences tgd.now.body) v ↔ (v < tgd.now.body_vars) }
    ensures { OnOk result (AddsCandidates table.now rule tgd.now list.old.items list.new.items) }
{
    let variables = frontier(alloc, tgd)?;
    list.reserve(table.facts().len())?;
    let mut finder = Finder {
        alloc,
        rule,
        variables,
        list: replace(list, Vec::new(alloc)),
    };
    let whole = visit_matches(alloc, &tgd.body, tgd.body_vars, table, &mut finder, steps)?;
    prove!(whole);
    *list = finder.list;
    Ok(())
}

// What takes each match of the body of the tgd at a place, whose frontier has these variables.
#[derive(Drop)]
struct Finder {
    alloc: Global,
    rule: u32,
    variables: Items<u32>,
    list: Vec<Candidate>,
}

impl Visitor for Finder {
    ghost use Rattle.tgd_chase.specs.Candidates.{TakesMatch};

    ghost takes = { λ old found new. TakesMatch old found new };

    ghost stops = { λ _. ⊥ };

    fn visit(&mut self, found: &Match) -> Result<bool, Memory> {
        let candidate = candidate_of(self.alloc, self.rule, self.variables.as_slice(), found)?;
        self.list.push(candidate)?;
        Ok(true)
    }
}

// A match as a candidate, where the frontier has these variables.
fn candidate_of(
    alloc: Global,
    rule: u32,
    variables: &[u32],
    found: &Match,
) -> Result<Candidate, Memory>
    ensures { IfOk result (λ candidate. IsOfConstants variables.now found.now
        → IsMadeFrom rule variables.now found.now candidate) }
{
    let binding = constants_of(alloc, found.binding.as_slice())?;
    let frontier = values_of(alloc, variables, binding.as_slice())?;
    let support = Support {
        span: found.span,
        binding,
    };
    Ok(Candidate {
        rule,
        frontier,
        support,
    })
}

// The constants that cells show.
fn constants_of(alloc: Global, cells: &[Seen]) -> Result<Items<ConstId>, Memory>
    ensures { IfOk result (λ constants. All IsConstant cells.now
        → map Seen.Const constants ≡ cells.now) }
{
    let mut constants = Items::new(alloc);
    constants.room(cells.len())?;
    for cell in cells {
        let Seen::Const(constant) = cell else {
            continue;
        };
        constants.push(*constant)?;
    }
    Ok(constants)
}

// The values of some variables, of those of all variables.
fn values_of(
    alloc: Global,
    variables: &[u32],
    binding: &[ConstId],
) -> Result<Items<ConstId>, Memory>
    ensures { IfOk result (λ values. All (λ v. v < length binding.now) variables.now
        → map (λ v. slice_get binding.now v) variables.now ≡ map (λ c. Some c) values) }
{
    let mut values = Items::new(alloc);
    values.room(variables.len())?;
    for variable in variables {
        let Some(value) = binding.get(*variable as usize) else {
            continue;
        };
        values.push(*value)?;
    }
    Ok(values)
}
