//! Copies of rules, with the numbers that their constants have in another pool.

ghost use Rattle.std.specs.Prelude.{◌≡◌, ℕ, List, Some, Contains, map, slice_get, IfOk};
ghost use Rattle.rule_core.specs.Rebase.{KeepsTexts, number_in, renumbered_arg, renumbered_atom, renumbered_tgd, renumbered_egd, renumbered_branch, renumbered_query};

use crate::{Arg, Atom, Branch, Egd, Query, Relation, Tgd};
use std::alloc::Global;
use term_core::{ConstId, Items, Memory, Pool, Text};

/// For each text of the one pool its number in the other, in the order of the one.
pub fn numbers(alloc: Global, from: &Pool, to: &Pool) -> Result<Items<ConstId>, Memory>
    requires { (t : List ℕ) → Contains from.now t → Contains to.now t }
    ensures { IfOk result (λ ids. KeepsTexts from.now to.now (number_in ids)) }
{
    let mut ids = Items::new(alloc);
    let count = from.len() as u32;
    for at in 0..count {
        ids.push(number_of(to, from.text(ConstId(at))))?;
    }
    Ok(ids)
}

// The number of a text that the pool has.
fn number_of(pool: &Pool, text: &str) -> ConstId
    requires { Contains pool.now text.now }
    ensures { slice_get pool.now result.0 ≡ Some text.now }
{
    pool.id_of(text).unwrap()
}

/// Tgds with other numbers for their constants.
pub fn rebased_tgds(alloc: Global, ids: &[ConstId], tgds: &[Tgd]) -> Result<Items<Tgd>, Memory>
    ensures { IfOk result (λ copies. copies ≡ map (renumbered_tgd (number_in ids.now)) tgds.now) }
{
    let mut copies = Items::new(alloc);
    for tgd in tgds {
        copies.push(rebased_tgd(alloc, ids, tgd)?)?;
    }
    Ok(copies)
}

/// Egds with other numbers for their constants.
pub fn rebased_egds(alloc: Global, ids: &[ConstId], egds: &[Egd]) -> Result<Items<Egd>, Memory>
    ensures { IfOk result (λ copies. copies ≡ map (renumbered_egd (number_in ids.now)) egds.now) }
{
    let mut copies = Items::new(alloc);
    for egd in egds {
        copies.push(rebased_egd(alloc, ids, egd)?)?;
    }
    Ok(copies)
}

/// Queries with other numbers for their constants.
pub fn rebased_queries(
    alloc: Global,
    ids: &[ConstId],
    queries: &[Query],
) -> Result<Items<Query>, Memory>
    ensures { IfOk result (λ copies. copies ≡ map (renumbered_query (number_in ids.now)) queries.now) }
{
    let mut copies = Items::new(alloc);
    for query in queries {
        copies.push(rebased_query(alloc, ids, query)?)?;
    }
    Ok(copies)
}

fn rebased_tgd(alloc: Global, ids: &[ConstId], tgd: &Tgd) -> Result<Tgd, Memory>
    ensures { IfOk result (λ copy. copy ≡ renumbered_tgd (number_in ids.now) tgd.now) }
{
    Ok(Tgd {
        name: same_text(alloc, &tgd.name)?,
        vars: same_texts(alloc, tgd.vars.as_slice())?,
        body_vars: tgd.body_vars,
        body: rebased_atoms(alloc, ids, tgd.body.as_slice())?,
        head: rebased_atoms(alloc, ids, tgd.head.as_slice())?,
    })
}

fn rebased_egd(alloc: Global, ids: &[ConstId], egd: &Egd) -> Result<Egd, Memory>
    ensures { IfOk result (λ copy. copy ≡ renumbered_egd (number_in ids.now) egd.now) }
{
    Ok(Egd {
        name: same_text(alloc, &egd.name)?,
        vars: same_texts(alloc, egd.vars.as_slice())?,
        body: rebased_atoms(alloc, ids, egd.body.as_slice())?,
        left: egd.left,
        right: egd.right,
    })
}

fn rebased_query(alloc: Global, ids: &[ConstId], query: &Query) -> Result<Query, Memory>
    ensures { IfOk result (λ copy. copy ≡ renumbered_query (number_in ids.now) query.now) }
{
    Ok(Query {
        name: same_text(alloc, &query.name)?,
        head: same_texts(alloc, query.head.as_slice())?,
        branches: rebased_branches(alloc, ids, query.branches.as_slice())?,
    })
}

// Disjuncts with other numbers for their constants.
fn rebased_branches(
    alloc: Global,
    ids: &[ConstId],
    branches: &[Branch],
) -> Result<Items<Branch>, Memory>
    ensures { IfOk result (λ copies. copies ≡ map (renumbered_branch (number_in ids.now)) branches.now) }
{
    let mut copies = Items::new(alloc);
    for branch in branches {
        copies.push(rebased_branch(alloc, ids, branch)?)?;
    }
    Ok(copies)
}

fn rebased_branch(alloc: Global, ids: &[ConstId], branch: &Branch) -> Result<Branch, Memory>
    ensures { IfOk result (λ copy. copy ≡ renumbered_branch (number_in ids.now) branch.now) }
{
    Ok(Branch {
        vars: same_texts(alloc, branch.vars.as_slice())?,
        body: rebased_atoms(alloc, ids, branch.body.as_slice())?,
        columns: same_places(alloc, branch.columns.as_slice())?,
    })
}

// Atoms with other numbers for their constants.
fn rebased_atoms(alloc: Global, ids: &[ConstId], atoms: &[Atom]) -> Result<Items<Atom>, Memory>
    ensures { IfOk result (λ copies. copies ≡ map (renumbered_atom (number_in ids.now)) atoms.now) }
{
    let mut copies = Items::new(alloc);
    for atom in atoms {
        copies.push(rebased_atom(alloc, ids, atom)?)?;
    }
    Ok(copies)
}

fn rebased_atom(alloc: Global, ids: &[ConstId], atom: &Atom) -> Result<Atom, Memory>
    ensures { IfOk result (λ copy. copy ≡ renumbered_atom (number_in ids.now) atom.now) }
{
    Ok(Atom {
        relation: atom.relation,
        args: rebased_args(alloc, ids, atom.args.as_slice())?,
    })
}

// Arguments with other numbers for their constants.
fn rebased_args(alloc: Global, ids: &[ConstId], args: &[Arg]) -> Result<Items<Arg>, Memory>
    ensures { IfOk result (λ copies. copies ≡ map (renumbered_arg (number_in ids.now)) args.now) }
{
    let mut copies = Items::new(alloc);
    for arg in args {
        copies.push(rebased_arg(ids, *arg))?;
    }
    Ok(copies)
}

fn rebased_arg(ids: &[ConstId], arg: Arg) -> Arg
    ensures { result ≡ renumbered_arg (number_in ids.now) arg }
{
    match arg {
        Arg::Var(v) => Arg::Var(v),
        Arg::Const(c) => Arg::Const(number(ids, c)),
    }
}

// The number at the constant's place, or its own past the end.
fn number(ids: &[ConstId], constant: ConstId) -> ConstId
    ensures { result ≡ number_in ids.now constant }
{
    match ids.get(constant.0 as usize) {
        Some(id) => *id,
        None => constant,
    }
}

/// A copy of relations.
pub fn same_relations(alloc: Global, relations: &[Relation]) -> Result<Items<Relation>, Memory>
    ensures { IfOk result (λ copies. copies ≡ relations.now) }
{
    let mut copies = Items::new(alloc);
    for relation in relations {
        copies.push(same_relation(alloc, relation)?)?;
    }
    Ok(copies)
}

fn same_relation(alloc: Global, relation: &Relation) -> Result<Relation, Memory>
    ensures { IfOk result (λ copy. copy ≡ relation.now) }
{
    Ok(Relation {
        name: same_text(alloc, &relation.name)?,
        columns: same_texts(alloc, relation.columns.as_slice())?,
    })
}

fn same_texts(alloc: Global, texts: &[Text]) -> Result<Items<Text>, Memory>
    ensures { IfOk result (λ copies. copies ≡ texts.now) }
{
    let mut copies = Items::new(alloc);
    for text in texts {
        copies.push(same_text(alloc, text)?)?;
    }
    Ok(copies)
}

fn same_text(alloc: Global, text: &Text) -> Result<Text, Memory>
    ensures { IfOk result (λ copy. copy ≡ text.now) }
{
    Text::from_str(alloc, text.as_str())
}

fn same_places(alloc: Global, places: &[u32]) -> Result<Items<u32>, Memory>
    ensures { IfOk result (λ copies. copies ≡ places.now) }
{
    Ok(Items::from_vec(places.to_vec(alloc)?))
}
