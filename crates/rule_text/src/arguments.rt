//! The arguments of an atom.

ghost use Rattle.std.specs.Prelude.{◌≡◌, ◌≢◌, ℕ, ◌≤◌, List, [], ◌∷◌, ◌++◌, length, IfOk};
ghost use Rattle.decl_text.specs.TokenList.{KnowsTexts};
ghost use Rattle.decl_text.specs.Tests.{IfFault};
ghost use Rattle.decl_text.specs.Tokens.{IsNextToken};
ghost use Rattle.decl_text.specs.declared.token.Kind.TheVariants as kinds;
ghost use Rattle.decl_text.specs.declared.token.Token.{Token as TokenValue};
ghost use Rattle.rule_core.specs.Mapping.{RuleSet};
ghost use Rattle.rule_core.specs.declared.rules.Atom.{Atom as AtomValue};
ghost use Rattle.rule_text.specs.Frames.{said_of, LeadsIn, FailsIn, IsConstant, IsLong};
ghost use Rattle.rule_text.specs.RuleLine.{OpenAtom, with_argument, with_atom, wants_argument, wants_comma, after_atom};

use crate::part::Part;
use crate::variables::Variables;
use decl_text::{Code, Kind, ReadError, Token, fault_at, quoted, read_name, read_token};
use rule_core::Arg;
use rule_core::limits::{LONGEST_CONSTANT, MOST_VARIABLES};
use std::alloc::Global;
use term_core::{ConstId, Items, Pool};

/// The arguments of an atom, with the variables so far, and the offset after the atom.
#[derive(Drop)]
pub(crate) struct Arguments {
    /// The variables so far.
    pub(crate) vars: Variables,
    /// The arguments.
    pub(crate) args: Items<Arg>,
    /// The offset after the closing parenthesis.
    pub(crate) end: usize,
}

// An argument, with the variables so far, and the offset after it.
#[derive(Drop)]
struct Argument {
    vars: Variables,
    arg: Arg,
    end: usize,
}

/// The arguments behind an opening parenthesis, as many as the relation has columns.
pub(crate) fn read_arguments(
    alloc: Global,
    bytes: &[u8],
    from: usize,
    pool: &Pool,
    part: Part,
    width: usize,
    vars: Variables,
) -> Result<Arguments, ReadError>
    requires place { from ≤ length bytes.now }
    requires known { KnowsTexts bytes.now from pool.now }
    ensures arguments { (rules : RuleSet) (atoms : List AtomValue) (number : ℕ) → IfOk result (λ read.
        LeadsIn rules pool.now bytes.now part
        from (λ f. wants_argument f (said_of vars atoms)
        (record { relation = number; width = width; args = [] }))
        read.end (λ f. after_atom f (with_atom (said_of read.vars atoms)
        (record { relation = number; width = width; args = read.args })))) }
    ensures within { IfOk result (λ read. read.end ≤ length bytes.now) }
    ensures fault { (rules : RuleSet) (atoms : List AtomValue) (number : ℕ) → IfFault result
        (FailsIn rules pool.now bytes.now part from (λ f. wants_argument f (said_of vars atoms)
        (record { relation = number; width = width; args = [] }))) }
{
    let mut args = Items::new(alloc);
    let mut vars = vars;
    let mut from = from;
    loop {
        let read = read_argument(alloc, bytes, from, pool, part, vars)?;
        args.push(read.arg)?;
        let token = read_token(bytes, read.end)?;
        match token.kind {
            Kind::Comma if args.len() >= width => return Err(fault_at(Code::U2, &token)),
            Kind::Comma => {}
            Kind::RightParen if args.len() != width => return Err(fault_at(Code::U2, &token)),
            Kind::RightParen => {
                return Ok(Arguments {
                    vars: read.vars,
                    args,
                    end: token.end,
                });
            }
            _ => return Err(fault_at(part.wrong(), &token)),
        }
        vars = read.vars;
        from = token.end;
    }
}

// The next argument.
fn read_argument(
    alloc: Global,
    bytes: &[u8],
    from: usize,
    pool: &Pool,
    part: Part,
    vars: Variables,
) -> Result<Argument, ReadError>
    requires place { from ≤ length bytes.now }
    requires known { KnowsTexts bytes.now from pool.now }
    ensures argument { (rules : RuleSet) (atoms : List AtomValue) (atom : OpenAtom) → IfOk result
        (λ read. LeadsIn rules pool.now bytes.now part from (λ f. wants_argument f (said_of vars atoms) atom)
        read.end (λ f. wants_comma f (said_of read.vars atoms) (with_argument atom read.arg))) }
    ensures within { IfOk result (λ read. read.end ≤ length bytes.now) }
    ensures fault { (rules : RuleSet) (atoms : List AtomValue) (atom : OpenAtom) → IfFault result
        (FailsIn rules pool.now bytes.now part from (λ f. wants_argument f (said_of vars atoms) atom)) }
{
    let token = read_token(bytes, from)?;
    if token.kind != Kind::Quoted {
        return read_variable(alloc, bytes, from, part, vars);
    }
    let constant = read_constant(alloc, bytes, &token, pool)?;
    Ok(Argument {
        vars,
        arg: Arg::Const(constant),
        end: token.end,
    })
}

// The number of the constant that a token in quotes says.
fn read_constant(
    alloc: Global,
    bytes: &[u8],
    token: &Token,
    pool: &Pool,
) -> Result<ConstId, ReadError>
    requires read { (from : ℕ) × IsNextToken bytes.now from token.now × KnowsTexts bytes.now from pool.now }
    requires kind { token.now.kind ≡ kinds.Quoted }
    ensures constant { IfOk result (λ id. IsConstant pool.now bytes.now token.now id.0) }
    ensures fault { IfFault result (IsLong bytes.now token.now) }
{
    let text = quoted(alloc, bytes, token)?;
    if text.as_bytes().len() > LONGEST_CONSTANT {
        return Err(fault_at(Code::U6, token));
    }
    // No text stands in the pool twice, so its number is the first of its text.
    let _size = pool.len();
    match pool.id_of(text.as_str()) {
        Some(id) => Ok(id),
        None => unreachable!(),
    }
}

// The next argument, where no constant stands: a variable, which may be new but in a head.
fn read_variable(
    alloc: Global,
    bytes: &[u8],
    from: usize,
    part: Part,
    mut vars: Variables,
) -> Result<Argument, ReadError>
    requires place { from ≤ length bytes.now }
    requires other { (token : TokenValue) → IsNextToken bytes.now from token → token.kind ≢ kinds.Quoted }
    ensures variable { (rules : RuleSet) (pool : List (List ℕ)) (atoms : List AtomValue) (atom : OpenAtom)
        → IfOk result (λ read. LeadsIn rules pool bytes.now part
        from (λ f. wants_argument f (said_of vars atoms) atom)
        read.end (λ f. wants_comma f (said_of read.vars atoms) (with_argument atom read.arg))) }
    ensures within { IfOk result (λ read. read.end ≤ length bytes.now) }
    ensures fault { (rules : RuleSet) (pool : List (List ℕ)) (atoms : List AtomValue) (atom : OpenAtom)
        → IfFault result (FailsIn rules pool bytes.now part
        from (λ f. wants_argument f (said_of vars atoms) atom)) }
{
    let name = read_name(alloc, bytes, from, part.wrong(), Code::X9)?;
    let end = name.token.end;
    if let Some(number) = vars.find(&name.text) {
        let arg = Arg::Var(number);
        return Ok(Argument { vars, arg, end });
    }
    if part == Part::TgdHead {
        return Err(fault_at(Code::U4, &name.token));
    }
    if vars.len() >= MOST_VARIABLES {
        return Err(fault_at(Code::U6, &name.token));
    }
    let arg = Arg::Var(vars.push(name.text)?);
    Ok(Argument { vars, arg, end })
}
