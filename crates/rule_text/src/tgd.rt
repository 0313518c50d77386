//! The line of a tgd.

ghost use Rattle.std.specs.Prelude.{◌≡◌, ◌≢◌, ℕ, ◌<◌, ◌≤◌, List, [], ◌∷◌, ◌++◌, length, IfOk};
ghost use Rattle.decl_text.specs.TokenList.{KnowsTexts};
ghost use Rattle.decl_text.specs.Tests.{Leads, Fails, IfFault};
ghost use Rattle.decl_text.specs.Tokens.{IsNextToken};
ghost use Rattle.decl_text.specs.declared.token.Kind.TheVariants as kinds;
ghost use Rattle.decl_text.specs.declared.token.Token.{Token as TokenValue};
ghost use Rattle.rule_core.specs.Limits.{most_variables};
ghost use Rattle.rule_core.specs.Mapping.{RuleSet};
ghost use Rattle.rule_core.specs.declared.rules.Atom.{Atom as AtomValue};
ghost use Rattle.rule_text.specs.Frames.{said_of};
ghost use Rattle.rule_text.specs.RuleLine.{head_of_tgd, wants_tgd_name, wants_atom, after_atom, after_arrow, wants_exists_variable, wants_exists_comma, stated, rule_tests};
ghost use Rattle.rule_text.specs.declared.rule.Rule.TheVariants as lines;

use crate::atoms::{Atoms, read_atoms, read_body};
use crate::follows::{After, read_after, read_line_end};
use crate::names::read_tgd_name;
use crate::part::Part;
use crate::variables::Variables;
use decl_text::{Code, Kind, Name, ReadError, fault_at, is_word, read_name, read_token};
use rule_core::limits::MOST_VARIABLES;
use rule_core::{Rules, Tgd};
use std::alloc::Global;
use term_core::Pool;

// The variables of a body and those of an `exists` list, and the offset after the list.
#[derive(Drop)]
struct Exists {
    vars: Variables,
    end: usize,
}

/// The line of a tgd from its name on, and the offset after the line.
pub(crate) fn read_tgd(
    alloc: Global,
    bytes: &[u8],
    from: usize,
    rules: &Rules,
    pool: &Pool,
) -> Result<(Tgd, usize), ReadError>
    requires place { from ≤ length bytes.now }
    requires known { KnowsTexts bytes.now from pool.now }
    ensures tgd { IfOk result (λ line. Leads (rule_tests rules.now pool.now)
        bytes.now from wants_tgd_name line.1 (stated (lines.Tgd line.0))) }
    ensures within { IfOk result (λ line. line.1 ≤ length bytes.now) }
    ensures fault { IfFault result
        (Fails (rule_tests rules.now pool.now) bytes.now from wants_tgd_name) }
{
    let name = read_tgd_name(alloc, bytes, from, rules)?;
    let body = read_body(alloc, bytes, name.token.end, rules, pool, Part::TgdBody)?;
    let body_vars = body.vars.len() as u32;
    let head = read_head(alloc, bytes, body.end, rules, pool, body.vars)?;
    let end = read_line_end(bytes, head.end, Code::X6)?;
    let tgd = Tgd {
        name: name.text,
        vars: head.vars.into_items(),
        body_vars,
        body: body.list,
        head: head.list,
    };
    Ok((tgd, end))
}

// What follows the arrow: an `exists` list, if one stands there, and the head. The variables are those of the body.
fn read_head(
    alloc: Global,
    bytes: &[u8],
    from: usize,
    rules: &Rules,
    pool: &Pool,
    vars: Variables,
) -> Result<Atoms, ReadError>
    requires place { from ≤ length bytes.now }
    requires known { KnowsTexts bytes.now from pool.now }
    ensures head { (name : List ℕ) (body : List AtomValue) → IfOk result
        (λ read. Leads (rule_tests rules.now pool.now) bytes.now from (after_arrow name (said_of vars body))
        read.end (after_atom (head_of_tgd name body (length vars)) (said_of read.vars read.list))) }
    ensures last { IfOk result (λ read. (token : TokenValue) → IsNextToken bytes.now read.end token
        → token.kind ≢ kinds.Comma) }
    ensures within { IfOk result (λ read. read.end ≤ length bytes.now) }
    ensures fault { (name : List ℕ) (body : List AtomValue) → IfFault result
        (Fails (rule_tests rules.now pool.now) bytes.now from (after_arrow name (said_of vars body))) }
{
    let token = read_token(bytes, from)?;
    if !is_word(bytes, &token, b"exists") {
        return read_atoms(alloc, bytes, from, rules, pool, Part::TgdHead, vars);
    }
    let exists = read_exists(alloc, bytes, token.end, vars)?;
    read_atoms(
        alloc,
        bytes,
        exists.end,
        rules,
        pool,
        Part::TgdHead,
        exists.vars,
    )
}

// The variables of an `exists` list, with those of the body before them.
fn read_exists(
    alloc: Global,
    bytes: &[u8],
    from: usize,
    vars: Variables,
) -> Result<Exists, ReadError>
    requires { from ≤ length bytes.now }
    ensures list { (rules : RuleSet) (pool : List (List ℕ)) (name : List ℕ) (body : List AtomValue) (count : ℕ)
        → IfOk result (λ read. Leads (rule_tests rules pool)
        bytes.now from (wants_exists_variable name body count vars)
        read.end (wants_atom (head_of_tgd name body count) (said_of read.vars []))) }
    ensures within { IfOk result (λ read. read.end ≤ length bytes.now) }
    ensures fault { (rules : RuleSet) (pool : List (List ℕ)) (name : List ℕ) (body : List AtomValue) (count : ℕ)
        → IfFault result (Fails (rule_tests rules pool)
        bytes.now from (wants_exists_variable name body count vars)) }
{
    let mut vars = vars;
    let mut from = from;
    loop {
        let name = read_exists_variable(alloc, bytes, from, &vars)?;
        vars.push(name.text)?;
        let after = read_after(bytes, name.token.end, Kind::Colon, Code::X6)?;
        match after {
            After::Next(next) => from = next,
            After::Closed(end) => return Ok(Exists { vars, end }),
        }
    }
}

// The next `exists` variable, which is none of those before it, and of which there may be one more.
fn read_exists_variable(
    alloc: Global,
    bytes: &[u8],
    from: usize,
    vars: &Variables,
) -> Result<Name, ReadError>
    requires { from ≤ length bytes.now }
    ensures variable { (rules : RuleSet) (pool : List (List ℕ)) (name : List ℕ) (body : List AtomValue) (count : ℕ)
        → IfOk result (λ read. Leads (rule_tests rules pool)
        bytes.now from (wants_exists_variable name body count vars.now)
        read.token.end (wants_exists_comma name body count (vars.now ++ read.text ∷ []))) }
    ensures few { IfOk result (λ read. length vars.now < most_variables) }
    ensures within { IfOk result (λ read. read.token.end ≤ length bytes.now) }
    ensures fault { (rules : RuleSet) (pool : List (List ℕ)) (name : List ℕ) (body : List AtomValue) (count : ℕ)
        → IfFault result (Fails (rule_tests rules pool)
        bytes.now from (wants_exists_variable name body count vars.now)) }
{
    let name = read_name(alloc, bytes, from, Code::X6, Code::X9)?;
    if vars.contains(&name.text) {
        return Err(fault_at(Code::U5, &name.token));
    }
    if vars.len() >= MOST_VARIABLES {
        return Err(fault_at(Code::U6, &name.token));
    }
    Ok(name)
}
