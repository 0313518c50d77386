//! The line of a query.

ghost use Rattle.std.specs.Prelude.{◌≡◌, ℕ, ◌<◌, ◌≤◌, List, [], ◌∷◌, ◌++◌, length, IfOk, IfSome, IfNone};
ghost use Rattle.decl_text.specs.TokenList.{KnowsTexts};
ghost use Rattle.decl_text.specs.Tests.{Leads, Fails, IfFault};
ghost use Rattle.rule_core.specs.Limits.{most_head_variables};
ghost use Rattle.rule_core.specs.Mapping.{RuleSet};
ghost use Rattle.rule_core.specs.declared.rules.Branch.{Branch as BranchValue};
ghost use Rattle.rule_text.specs.Behind.{EndsDisjunct, StandsBehind, GoesOn, behind_disjuncts, IsColumnList};
ghost use Rattle.rule_text.specs.Follows.{offset_of};
ghost use Rattle.rule_text.specs.RuleLine.{disjunct_of, nothing_said, wants_query_name, wants_head, wants_head_variable, wants_head_comma, wants_colon, wants_atom, stated, rule_tests};
ghost use Rattle.rule_text.specs.declared.rule.Rule.TheVariants as lines;

use crate::atoms::read_atoms;
use crate::follows::{After, read_after};
use crate::names::read_query_name;
use crate::part::Part;
use crate::variables::Variables;
use decl_text::{Code, Kind, Name, ReadError, Token, fault_at, read_name, read_sign, read_token};
use rule_core::limits::{MOST_DISJUNCTS, MOST_HEAD_VARIABLES};
use rule_core::{Branch, Query, Rules};
use std::alloc::Global;
use term_core::{Items, Memory, Pool, Text};

/// The most bars of a query.
const MOST_BARS: usize = MOST_DISJUNCTS - 1;

// The head variables of a query, and the offset after the closing parenthesis.
#[derive(Drop)]
struct Head {
    names: Items<Text>,
    end: usize,
}

// The disjuncts of a query, and the offset after the line.
#[derive(Drop)]
struct Disjuncts {
    branches: Items<Branch>,
    end: usize,
}

// A disjunct, and what follows it: the next one, or the next line.
#[derive(Drop)]
struct Disjunct {
    branch: Branch,
    after: After,
}

/// The line of a query from its name on, and the offset after the line.
pub(crate) fn read_query(
    alloc: Global,
    bytes: &[u8],
    from: usize,
    rules: &Rules,
    pool: &Pool,
) -> Result<(Query, usize), ReadError>
    requires place { from ≤ length bytes.now }
    requires known { KnowsTexts bytes.now from pool.now }
    ensures query { IfOk result (λ line. Leads (rule_tests rules.now pool.now)
        bytes.now from wants_query_name line.1 (stated (lines.Query line.0))) }
    ensures within { IfOk result (λ line. line.1 ≤ length bytes.now) }
    ensures fault { IfFault result
        (Fails (rule_tests rules.now pool.now) bytes.now from wants_query_name) }
{
    let name = read_query_name(alloc, bytes, from, rules)?;
    let after = read_sign(bytes, name.token.end, Kind::LeftParen, Code::X8)?;
    let head = read_query_head(alloc, bytes, after)?;
    let colon = read_sign(bytes, head.end, Kind::Colon, Code::X8)?;
    let read = read_disjuncts(alloc, bytes, colon, rules, pool, &head.names)?;
    let query = Query {
        name: name.text,
        head: head.names,
        branches: read.branches,
    };
    Ok((query, read.end))
}

// The head variables behind the opening parenthesis, of which there may be none.
fn read_query_head(alloc: Global, bytes: &[u8], from: usize) -> Result<Head, ReadError>
    requires { from ≤ length bytes.now }
    ensures head { (rules : RuleSet) (pool : List (List ℕ)) (name : List ℕ) → IfOk result
        (λ read. Leads (rule_tests rules pool) bytes.now from (wants_head name)
        read.end (wants_colon (disjunct_of name read.names []))) }
    ensures within { IfOk result (λ read. read.end ≤ length bytes.now) }
    ensures fault { (rules : RuleSet) (pool : List (List ℕ)) (name : List ℕ) → IfFault result
        (Fails (rule_tests rules pool) bytes.now from (wants_head name)) }
{
    let token = read_token(bytes, from)?;
    if token.kind == Kind::RightParen {
        let names = Items::new(alloc);
        return Ok(Head {
            names,
            end: token.end,
        });
    }
    read_head_variables(alloc, bytes, from)
}

// One head variable or more.
fn read_head_variables(alloc: Global, bytes: &[u8], from: usize) -> Result<Head, ReadError>
    requires { from ≤ length bytes.now }
    ensures head { (rules : RuleSet) (pool : List (List ℕ)) (name : List ℕ) → IfOk result
        (λ read. Leads (rule_tests rules pool) bytes.now from (wants_head_variable name [])
        read.end (wants_colon (disjunct_of name read.names []))) }
    ensures within { IfOk result (λ read. read.end ≤ length bytes.now) }
    ensures fault { (rules : RuleSet) (pool : List (List ℕ)) (name : List ℕ) → IfFault result
        (Fails (rule_tests rules pool) bytes.now from (wants_head_variable name [])) }
{
    let mut names = Items::new(alloc);
    let mut from = from;
    loop {
        let name = read_head_variable(alloc, bytes, from, &names)?;
        names.push(name.text)?;
        let after = read_after(bytes, name.token.end, Kind::RightParen, Code::X8)?;
        match after {
            After::Next(next) => from = next,
            After::Closed(end) => return Ok(Head { names, end }),
        }
    }
}

// The next head variable, which is none of those before it, and of which there may be one more.
fn read_head_variable(
    alloc: Global,
    bytes: &[u8],
    from: usize,
    head: &Items<Text>,
) -> Result<Name, ReadError>
    requires { from ≤ length bytes.now }
    ensures variable { (rules : RuleSet) (pool : List (List ℕ)) (name : List ℕ) → IfOk result
        (λ read. Leads (rule_tests rules pool) bytes.now from (wants_head_variable name head.now)
        read.token.end (wants_head_comma name (head.now ++ read.text ∷ []))) }
    ensures few { IfOk result (λ read. length head.now < most_head_variables) }
    ensures within { IfOk result (λ read. read.token.end ≤ length bytes.now) }
    ensures fault { (rules : RuleSet) (pool : List (List ℕ)) (name : List ℕ) → IfFault result
        (Fails (rule_tests rules pool) bytes.now from (wants_head_variable name head.now)) }
{
    let name = read_name(alloc, bytes, from, Code::X8, Code::X9)?;
    if head.as_slice().contains(&name.text) {
        return Err(fault_at(Code::U5, &name.token));
    }
    if head.len() >= MOST_HEAD_VARIABLES {
        return Err(fault_at(Code::U6, &name.token));
    }
    Ok(name)
}

// The disjuncts of a query with this head, and the end of its line.
fn read_disjuncts(
    alloc: Global,
    bytes: &[u8],
    from: usize,
    rules: &Rules,
    pool: &Pool,
    head: &Items<Text>,
) -> Result<Disjuncts, ReadError>
    requires place { from ≤ length bytes.now }
    requires known { KnowsTexts bytes.now from pool.now }
    ensures disjuncts { (name : List ℕ) → IfOk result (λ read. Leads (rule_tests rules.now pool.now)
        bytes.now from (wants_atom (disjunct_of name head.now []) nothing_said) read.end
        (stated (lines.Query (record { name = name; head = head.now; branches = read.branches })))) }
    ensures within { IfOk result (λ read. read.end ≤ length bytes.now) }
    ensures fault { (name : List ℕ) → IfFault result (Fails (rule_tests rules.now pool.now)
        bytes.now from (wants_atom (disjunct_of name head.now []) nothing_said)) }
{
    let mut branches = Items::new(alloc);
    let mut from = from;
    loop {
        let read = read_disjunct(alloc, bytes, from, rules, pool, head, branches.len())?;
        branches.push(read.branch)?;
        match read.after {
            After::Next(next) => from = next,
            After::Closed(end) => return Ok(Disjuncts { branches, end }),
        }
    }
}

// A disjunct that stands behind so many others, and the bar or the end of the line behind it.
fn read_disjunct(
    alloc: Global,
    bytes: &[u8],
    from: usize,
    rules: &Rules,
    pool: &Pool,
    head: &Items<Text>,
    before: usize,
) -> Result<Disjunct, ReadError>
    requires place { from ≤ length bytes.now }
    requires known { KnowsTexts bytes.now from pool.now }
    ensures disjunct { (name : List ℕ) (branches : List BranchValue) → length branches ≡ before
        → IfOk result (λ read. Leads (rule_tests rules.now pool.now) bytes.now
        from (wants_atom (disjunct_of name head.now branches) nothing_said) (offset_of read.after)
        (behind_disjuncts name head.now (branches ++ read.branch ∷ []) read.after)) }
    ensures more { IfOk result (λ read. GoesOn read.after → before < MOST_BARS) }
    ensures within { IfOk result (λ read. offset_of read.after ≤ length bytes.now) }
    ensures fault { (name : List ℕ) (branches : List BranchValue) → length branches ≡ before
        → IfFault result (Fails (rule_tests rules.now pool.now) bytes.now
        from (wants_atom (disjunct_of name head.now branches) nothing_said)) }
{
    let read = read_atoms(
        alloc,
        bytes,
        from,
        rules,
        pool,
        Part::Disjunct,
        Variables::new(alloc),
    )?;
    let token = read_token(bytes, read.end)?;
    let Some(after) = after_disjunct(&token) else {
        return Err(fault_at(Code::X8, &token));
    };
    let Some(columns) = columns_of(alloc, &read.vars, head.as_slice())? else {
        return Err(fault_at(Code::U4, &token));
    };
    if token.kind == Kind::Bar && before >= MOST_BARS {
        return Err(fault_at(Code::U6, &token));
    }
    let branch = Branch {
        vars: read.vars.into_items(),
        body: read.list,
        columns,
    };
    Ok(Disjunct { branch, after })
}

// What the token behind a disjunct leads to: a bar, or the end of the line.
fn after_disjunct(token: &Token) -> Option<After>
    ensures stands { IfSome result (StandsBehind token.now) }
    ensures none { IfNone result (¬ EndsDisjunct token.now) }
{
    match token.kind {
        Kind::Bar => Some(After::Next(token.end)),
        Kind::LineEnd | Kind::Finish => Some(After::Closed(token.end)),
        _ => None,
    }
}

// The number of each head variable among the variables of a disjunct, if each is there.
fn columns_of(alloc: Global, vars: &Variables, head: &[Text]) -> Result<Option<Items<u32>>, Memory>
    ensures { IfOk result (IsColumnList vars.now head.now) }
{
    let mut columns = Items::new(alloc);
    for name in head {
        match vars.find(name) {
            Some(number) => columns.push(number)?,
            None => return Ok(None),
        }
    }
    Ok(Some(columns))
}
