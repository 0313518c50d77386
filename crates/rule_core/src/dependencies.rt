//! Tests on tgds and egds, and the frontier of a tgd.

ghost use Rattle.std.specs.Prelude.{◌≢◌, ◌↔◌, All, IsTrue, IfOk};
ghost use Rattle.rule_core.specs.Adding.{IsNewTgd, IsNewEgd};
ghost use Rattle.rule_core.specs.Frontier.{IsFrontier};
ghost use Rattle.rule_core.specs.Validity.{IsTgd, IsEgd};

use crate::atoms::{are_atoms, are_numbered, are_variables, are_within, occurs};
use crate::limits::{MOST_EGDS, MOST_TGDS};
use crate::names::is_name;
use crate::{Egd, Relation, Rules, Tgd};
use std::alloc::Global;
use term_core::{Items, Memory, Text};

/// The variables of the body that occur in the head, ascending.
pub fn frontier(alloc: Global, tgd: &Tgd) -> Result<Items<u32>, Memory>
    ensures { IfOk result (IsFrontier tgd.now) }
{
    let mut variables = Items::new(alloc);
    for variable in 0..tgd.body_vars {
        if occurs(tgd.head.as_slice(), variable) {
            variables.push(variable)?;
        }
    }
    Ok(variables)
}

/// Whether a tgd may be added to these rules.
pub fn is_new_tgd(rules: &Rules, tgd: &Tgd) -> bool
    ensures { IsTrue result ↔ IsNewTgd rules.now tgd.now }
{
    rules.tgds().len() < MOST_TGDS
        && is_tgd(rules.sources().as_slice(), rules.targets().as_slice(), tgd)
        && rules.is_new_rule_name(&tgd.name)
}

/// Whether an egd may be added to these rules.
pub fn is_new_egd(rules: &Rules, egd: &Egd) -> bool
    ensures { IsTrue result ↔ IsNewEgd rules.now egd.now }
{
    rules.egds().len() < MOST_EGDS
        && is_egd(rules.targets().as_slice(), egd)
        && rules.is_new_rule_name(&egd.name)
}

// Whether a tgd meets all tests but those on room and on the newness of its name.
fn is_tgd(sources: &[Relation], targets: &[Relation], tgd: &Tgd) -> bool
    ensures { IsTrue result ↔ IsTgd sources.now targets.now tgd.now }
{
    is_name(&tgd.name)
        && are_variables(tgd.vars.as_slice())
        && are_atoms(sources, tgd.body.as_slice())
        && are_atoms(targets, tgd.head.as_slice())
        && are_numbered(tgd.body.as_slice(), tgd.body_vars)
        && tgd.body_vars as usize <= tgd.vars.len()
        && are_within(tgd.head.as_slice(), tgd.vars.len())
}

// Whether an egd meets all tests but those on room and on the newness of its name.
fn is_egd(targets: &[Relation], egd: &Egd) -> bool
    ensures { IsTrue result ↔ IsEgd targets.now egd.now }
{
    let vars = egd.vars.as_slice();
    is_name(&egd.name)
        && are_variables(vars)
        && are_atoms(targets, egd.body.as_slice())
        && are_numbered(egd.body.as_slice(), vars.len() as u32)
        && (egd.left as usize) < vars.len()
        && (egd.right as usize) < vars.len()
}

/// Whether no tgd has the name.
pub fn is_new_tgd_name(tgds: &[Tgd], name: &Text) -> bool
    ensures { IsTrue result ↔ All (λ t. t.name ≢ name.now) tgds.now }
{
    tgds.iter().all(|tgd| tgd.name != *name)
}

/// Whether no egd has the name.
pub fn is_new_egd_name(egds: &[Egd], name: &Text) -> bool
    ensures { IsTrue result ↔ All (λ e. e.name ≢ name.now) egds.now }
{
    egds.iter().all(|egd| egd.name != *name)
}
