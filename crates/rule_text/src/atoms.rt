//! Lists of atoms.

ghost use Rattle.rule_core.specs.Limits.{most_atoms};
ghost use Rattle.std.specs.Prelude.{◌≡◌, ◌≢◌, ℕ, ◌+◌, ◌<◌, ◌≤◌, List, [], ◌∷◌, ◌++◌, length, IfOk};
ghost use Rattle.decl_text.specs.TokenList.{KnowsTexts};
ghost use Rattle.decl_text.specs.Tests.{IfFault};
ghost use Rattle.decl_text.specs.Tokens.{IsNextToken};
ghost use Rattle.decl_text.specs.declared.token.Kind.TheVariants as kinds;
ghost use Rattle.decl_text.specs.declared.token.Token.{Token as TokenValue};
ghost use Rattle.rule_text.specs.Behind.{IsBody, behind_arrow};
ghost use Rattle.rule_text.specs.Frames.{said_of, LeadsIn, FailsIn};
ghost use Rattle.rule_text.specs.RuleLine.{Said, wants_colon, wants_atom, wants_parenthesis, after_atom};

use crate::arguments::read_arguments;
use crate::part::Part;
use crate::relations::find_relation;
use crate::variables::Variables;
use decl_text::{Code, Kind, ReadError, fault_at, read_name, read_sign, read_token};
use rule_core::limits::MOST_ATOMS;
use rule_core::{Atom, Rules};
use std::alloc::Global;
use term_core::{Items, Pool};

/// Atoms, with the variables so far, and the offset after them.
#[derive(Drop)]
pub(crate) struct Atoms {
    /// The variables so far.
    pub(crate) vars: Variables,
    /// The atoms.
    pub(crate) list: Items<Atom>,
    /// The offset after them.
    pub(crate) end: usize,
}

// An atom's relation by its number, how many columns it has, and the offset after its name.
#[derive(Clone, Copy)]
struct Opened {
    relation: u32,
    width: usize,
    end: usize,
}

/// A list of atoms, behind which no comma stands.
pub(crate) fn read_atoms(
    alloc: Global,
    bytes: &[u8],
    from: usize,
    rules: &Rules,
    pool: &Pool,
    part: Part,
    vars: Variables,
) -> Result<Atoms, ReadError>
    requires place { from ≤ length bytes.now }
    requires known { KnowsTexts bytes.now from pool.now }
    ensures atoms { IfOk result (λ read. LeadsIn rules.now pool.now bytes.now part
        from (λ f. wants_atom f (said_of vars []))
        read.end (λ f. after_atom f (said_of read.vars read.list))) }
    ensures last { IfOk result (λ read. (token : TokenValue) → IsNextToken bytes.now read.end token
        → token.kind ≢ kinds.Comma) }
    ensures within { IfOk result (λ read. read.end ≤ length bytes.now) }
    ensures fault { IfFault result
        (FailsIn rules.now pool.now bytes.now part from (λ f. wants_atom f (said_of vars []))) }
{
    let mut read = Atoms {
        vars,
        list: Items::new(alloc),
        end: from,
    };
    loop {
        read = read_atom(alloc, bytes, rules, pool, part, read)?;
        let token = read_token(bytes, read.end)?;
        if token.kind != Kind::Comma {
            return Ok(read);
        }
        read.end = token.end;
    }
}

/// A colon, the atoms of a body, and the arrow behind them; `end` is the offset after the arrow.
pub(crate) fn read_body(
    alloc: Global,
    bytes: &[u8],
    from: usize,
    rules: &Rules,
    pool: &Pool,
    part: Part,
) -> Result<Atoms, ReadError>
    requires place { from ≤ length bytes.now }
    requires known { KnowsTexts bytes.now from pool.now }
    requires body { IsBody part }
    ensures body { IfOk result (λ read. LeadsIn rules.now pool.now bytes.now part from wants_colon
        read.end (λ f. behind_arrow f (said_of read.vars read.list))) }
    ensures within { IfOk result (λ read. read.end ≤ length bytes.now) }
    ensures fault { IfFault result (FailsIn rules.now pool.now bytes.now part from wants_colon) }
{
    let vars = Variables::new(alloc);
    let after = read_sign(bytes, from, Kind::Colon, part.wrong())?;
    let read = read_atoms(alloc, bytes, after, rules, pool, part, vars)?;
    let end = read_sign(bytes, read.end, Kind::Arrow, part.wrong())?;
    Ok(Atoms {
        vars: read.vars,
        list: read.list,
        end,
    })
}

// The atoms so far with one more.
fn read_atom(
    alloc: Global,
    bytes: &[u8],
    rules: &Rules,
    pool: &Pool,
    part: Part,
    said: Atoms,
) -> Result<Atoms, ReadError>
    requires place { said.end ≤ length bytes.now }
    requires known { KnowsTexts bytes.now said.end pool.now }
    ensures atom { IfOk result (λ read. LeadsIn rules.now pool.now bytes.now part
        said.end (λ f. wants_atom f (said_of said.vars said.list))
        read.end (λ f. after_atom f (said_of read.vars read.list))) }
    ensures more { IfOk result (λ read. length read.list ≡ length said.list + 1) }
    ensures few { IfOk result (λ read. length read.list ≤ most_atoms) }
    ensures within { IfOk result (λ read. read.end ≤ length bytes.now) }
    ensures fault { IfFault result (FailsIn rules.now pool.now bytes.now part
        said.end (λ f. wants_atom f (said_of said.vars said.list))) }
{
    let Atoms {
        vars,
        mut list,
        end,
    } = said;
    let opened = read_relation(alloc, bytes, end, rules, part, list.len())?;
    let after = read_sign(bytes, opened.end, Kind::LeftParen, part.wrong())?;
    let read = read_arguments(alloc, bytes, after, pool, part, opened.width, vars)?;
    list.push(Atom {
        relation: opened.relation,
        args: read.args,
    })?;
    Ok(Atoms {
        vars: read.vars,
        list,
        end: read.end,
    })
}

// The relation of an atom that stands behind so many others.
fn read_relation(
    alloc: Global,
    bytes: &[u8],
    from: usize,
    rules: &Rules,
    part: Part,
    before: usize,
) -> Result<Opened, ReadError>
    requires { from ≤ length bytes.now }
    ensures relation { (pool : List (List ℕ)) (said : Said) → length said.atoms ≡ before → IfOk result
        (λ read. LeadsIn rules.now pool bytes.now part from (λ f. wants_atom f said)
        read.end (λ f. wants_parenthesis f said
        (record { relation = read.relation; width = read.width; args = [] }))) }
    ensures few { IfOk result (λ read. before < most_atoms) }
    ensures within { IfOk result (λ read. read.end ≤ length bytes.now) }
    ensures fault { (pool : List (List ℕ)) (said : Said) → length said.atoms ≡ before → IfFault result
        (FailsIn rules.now pool bytes.now part from (λ f. wants_atom f said)) }
{
    let name = read_name(alloc, bytes, from, part.wrong(), Code::X9)?;
    let found = match find_relation(rules, part.side(), &name.text) {
        Ok(found) => found,
        Err(code) => return Err(fault_at(code, &name.token)),
    };
    if before >= MOST_ATOMS {
        return Err(fault_at(Code::U6, &name.token));
    }
    Ok(Opened {
        relation: found.number,
        width: found.width,
        end: name.token.end,
    })
}
