//! Rules as text: each part as its definition puts it together.

ghost use Rattle.std.specs.Prelude.{◌≡◌, ◌<◌, ◌≤◌, length, map, drop, All, IfOk, ⊤};
ghost use Rattle.decl_text.specs.Canonical.{joined};
ghost use Rattle.rule_core.specs.Validity.{IsTgd, IsEgd, IsQuery};
ghost use Rattle.rule_text.specs.Adding.{IsRuleOf};
ghost use Rattle.rule_text.specs.Canonical.{argument_text, atom_text, atoms_text, branches_text, listed, exists_text, tgd_text, egd_text, query_text, rule_text};
ghost use Rattle.rule_text.specs.Constants.{AreTextual, HasTexts};
ghost use Rattle.rule_text.specs.Writable.{IsNamed, IsWritable, AreWritable};

use crate::Rule;
use decl_text::{join, print_quoted};
use rule_core::{Arg, Atom, Branch, Egd, Query, Relation, Rules, Tgd};
use std::alloc::Global;
use term_core::{Items, Memory, Pool, Text};

/// The canonical line of a rule, with its line feed.
pub fn print_rule(alloc: Global, rule: &Rule, rules: &Rules, pool: &Pool) -> Result<Text, Memory>
    requires valid { IsRuleOf rules.now rule.now }
    requires texts { HasTexts pool.now (λ text. ⊤) rule.now }
    ensures { IfOk result (λ text. text ≡ rule_text rules.now pool.now rule.now) }
{
    match rule {
        Rule::Tgd(tgd) => print_tgd(alloc, tgd, rules, pool),
        Rule::Egd(egd) => print_egd(alloc, egd, rules, pool),
        Rule::Query(query) => print_query(alloc, query, rules, pool),
    }
}

/// A tgd's canonical line, with its line feed.
pub fn print_tgd(alloc: Global, tgd: &Tgd, rules: &Rules, pool: &Pool) -> Result<Text, Memory>
    requires valid { IsTgd rules.now.sources rules.now.targets tgd.now }
    requires body { AreTextual pool.now (λ text. ⊤) tgd.now.body }
    requires head { AreTextual pool.now (λ text. ⊤) tgd.now.head }
    ensures { IfOk result (λ text. text ≡ tgd_text pool.now rules.now tgd.now) }
{
    let vars = tgd.vars.as_slice();
    let body = print_atoms(
        alloc,
        rules.sources().as_slice(),
        vars,
        pool,
        tgd.body.as_slice(),
    )?;
    let exists = print_exists(alloc, &vars[tgd.body_vars as usize..])?;
    let head = print_atoms(
        alloc,
        rules.targets().as_slice(),
        vars,
        pool,
        tgd.head.as_slice(),
    )?;
    let mut text = Text::from_str(alloc, "tgd ")?;
    text.push_str(tgd.name.as_str())?;
    text.push_str(": ")?;
    text.push_str(body.as_str())?;
    text.push_str(" -> ")?;
    text.push_str(exists.as_str())?;
    text.push_str(head.as_str())?;
    text.push_str("\n")?;
    Ok(text)
}

/// An egd's canonical line, with its line feed.
pub fn print_egd(alloc: Global, egd: &Egd, rules: &Rules, pool: &Pool) -> Result<Text, Memory>
    requires valid { IsEgd rules.now.targets egd.now }
    requires body { AreTextual pool.now (λ text. ⊤) egd.now.body }
    ensures { IfOk result (λ text. text ≡ egd_text pool.now rules.now egd.now) }
{
    let vars = egd.vars.as_slice();
    let body = print_atoms(
        alloc,
        rules.targets().as_slice(),
        vars,
        pool,
        egd.body.as_slice(),
    )?;
    let mut text = Text::from_str(alloc, "egd ")?;
    text.push_str(egd.name.as_str())?;
    text.push_str(": ")?;
    text.push_str(body.as_str())?;
    text.push_str(" -> ")?;
    text.push_str(vars[egd.left as usize].as_str())?;
    text.push_str(" = ")?;
    text.push_str(vars[egd.right as usize].as_str())?;
    text.push_str("\n")?;
    Ok(text)
}

/// A query's canonical line, with its line feed.
pub fn print_query(alloc: Global, query: &Query, rules: &Rules, pool: &Pool) -> Result<Text, Memory>
    requires valid { IsQuery rules.now.targets query.now }
    requires bodies { All (λ branch. AreTextual pool.now (λ text. ⊤) branch.body) query.now.branches }
    ensures { IfOk result (λ text. text ≡ query_text pool.now rules.now query.now) }
{
    let head = join(alloc, query.head.as_slice(), ", ")?;
    let branches = print_branches(
        alloc,
        rules.targets().as_slice(),
        pool,
        query.branches.as_slice(),
    )?;
    let mut text = Text::from_str(alloc, "query ")?;
    text.push_str(query.name.as_str())?;
    text.push_str("(")?;
    text.push_str(head.as_str())?;
    text.push_str("): ")?;
    text.push_str(branches.as_str())?;
    text.push_str("\n")?;
    Ok(text)
}

// Disjuncts, with a bar between each two.
fn print_branches(
    alloc: Global,
    relations: &[Relation],
    pool: &Pool,
    branches: &[Branch],
) -> Result<Text, Memory>
    requires { All (λ b. AreWritable relations.now b.vars pool.now b.body) branches.now }
    ensures { IfOk result (λ text. text ≡ branches_text pool.now relations.now branches.now) }
{
    let mut texts = Items::new(alloc);
    for branch in branches {
        let vars = branch.vars.as_slice();
        texts.push(print_atoms(alloc, relations, vars, pool, branch.body.as_slice())?)?;
    }
    join(alloc, texts.as_slice(), " | ")
}

// The `exists` variables with what stands around them, if there are any.
fn print_exists(alloc: Global, names: &[Text]) -> Result<Text, Memory>
    ensures { IfOk result (λ text. text ≡ exists_text names.now) }
{
    if names.is_empty() {
        return Text::from_str(alloc, "");
    }
    let names = join(alloc, names, ", ")?;
    let mut text = Text::from_str(alloc, "exists ")?;
    text.push_str(names.as_str())?;
    text.push_str(": ")?;
    Ok(text)
}

// Atoms over these relations and variables.
fn print_atoms(
    alloc: Global,
    relations: &[Relation],
    vars: &[Text],
    pool: &Pool,
    atoms: &[Atom],
) -> Result<Text, Memory>
    requires { AreWritable relations.now vars.now pool.now atoms.now }
    ensures { IfOk result (λ text. text ≡ atoms_text pool.now relations.now vars.now atoms.now) }
{
    let mut texts = Items::new(alloc);
    for atom in atoms {
        texts.push(print_atom(alloc, relations, vars, pool, atom)?)?;
    }
    join(alloc, texts.as_slice(), ", ")
}

fn print_atom(
    alloc: Global,
    relations: &[Relation],
    vars: &[Text],
    pool: &Pool,
    atom: &Atom,
) -> Result<Text, Memory>
    requires { IsWritable relations.now vars.now pool.now atom.now }
    ensures { IfOk result (λ text. text ≡ atom_text pool.now relations.now vars.now atom.now) }
{
    let arguments = print_arguments(alloc, vars, pool, atom.args.as_slice())?;
    let mut text = Text::from_str(alloc, relations[atom.relation as usize].name.as_str())?;
    text.push_str("(")?;
    text.push_str(arguments.as_str())?;
    text.push_str(")")?;
    Ok(text)
}

// Arguments, with a comma and a space between each two.
fn print_arguments(
    alloc: Global,
    vars: &[Text],
    pool: &Pool,
    arguments: &[Arg],
) -> Result<Text, Memory>
    requires { All (IsNamed vars.now pool.now) arguments.now }
    ensures { IfOk result (λ text. text ≡ listed (map (argument_text pool.now vars.now) arguments.now)) }
{
    let mut texts = Items::new(alloc);
    for argument in arguments {
        texts.push(print_argument(alloc, vars, pool, *argument)?)?;
    }
    join(alloc, texts.as_slice(), ", ")
}

// A variable by its name, and a constant in quotes.
fn print_argument(alloc: Global, vars: &[Text], pool: &Pool, argument: Arg) -> Result<Text, Memory>
    requires { IsNamed vars.now pool.now argument }
    ensures { IfOk result (λ text. text ≡ argument_text pool.now vars.now argument) }
{
    match argument {
        Arg::Var(v) => Text::from_str(alloc, vars[v as usize].as_str()),
        Arg::Const(c) => print_quoted(alloc, pool.text(c)),
    }
}
