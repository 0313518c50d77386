//! Declarations of relations as text, both ways.

ghost use Rattle.std.specs.Prelude.{◌≡◌, ◌↔◌, ℕ, ◌<◌, ◌≤◌, List, [], ◌∷◌, ◌++◌, length, Contains, IsTrue, IfOk};
ghost use Rattle.rule_core.specs.declared.rules.Place.{Place as PlaceValue};
ghost use Rattle.rule_core.specs.declared.rules.Relation.{Relation as RelationValue};
ghost use Rattle.rule_core.specs.Adding.{with_relation};
ghost use Rattle.rule_core.specs.Limits.{most_columns};
ghost use Rattle.rule_core.specs.Mapping.{RuleSet};
ghost use Rattle.rule_core.specs.Validity.{IsValid};
ghost use Rattle.decl_text.specs.Declaration.{begins, wants_name, wants_parenthesis, wants_column, wants_comma, wants_line_end, declared, declaration_tests, HasRoom, IsDeclaration, FailsDeclaration};
ghost use Rattle.decl_text.specs.Tests.{Leads, Fails, IfFault};

use crate::laws::what_is_declared_fits;
use crate::parts::{Name, fault_at, is_word, read_name, read_sign, read_token};
use crate::{Code, Kind, ReadError};
use rule_core::limits::{MOST_COLUMNS, MOST_RELATIONS};
use rule_core::{Place, Relation, Rules};
use std::alloc::Global;
use term_core::{Items, Text};

/// A line that begins with `source` or `target`: the side, the relation, and the offset after the line. The relation
/// may be added to the rules. A fault is the first of the line, at its byte.
pub fn read_declaration(
    alloc: Global,
    bytes: &[u8],
    from: usize,
    rules: &Rules,
) -> Result<(Place, Relation, usize), ReadError>
    requires { from ≤ length bytes.now }
    ensures declares { IfOk result
        (λ line. IsDeclaration bytes.now rules.now from line.0 line.1 line.2) }
    ensures fits { IfOk result (λ line. IsValid (with_relation rules.now line.0 line.1)) }
    ensures within { IfOk result (λ line. line.2 ≤ length bytes.now) }
    ensures fault { IfFault result (FailsDeclaration bytes.now rules.now from) }
{
    rules.is_kept();
    what_is_declared_fits();
    let (place, after) = read_side(bytes, from)?;
    let name = read_relation_name(alloc, bytes, after, rules)?;
    let after = read_sign(bytes, name.token.end, Kind::LeftParen, Code::X5)?;
    let (columns, after) = read_columns(alloc, bytes, after)?;
    let end = read_line_end(bytes, after)?;
    let relation = Relation {
        name: name.text,
        columns,
    };
    Ok((place, relation, end))
}

// The side that the line's first word names, and the offset after the word.
fn read_side(bytes: &[u8], from: usize) -> Result<(Place, usize), ReadError>
    requires { from ≤ length bytes.now }
    ensures side { (rules : RuleSet) → IfOk result
        (λ side. Leads (declaration_tests rules) bytes.now from begins side.1 (wants_name side.0)) }
    ensures within { IfOk result (λ side. side.1 ≤ length bytes.now) }
    ensures fault { (rules : RuleSet) → IfFault result
        (Fails (declaration_tests rules) bytes.now from begins) }
{
    let token = read_token(bytes, from)?;
    if is_word(bytes, &token, b"source") {
        return Ok((Place::Source, token.end));
    }
    if is_word(bytes, &token, b"target") {
        return Ok((Place::Target, token.end));
    }
    Err(fault_at(Code::X5, &token))
}

// The name of a relation that may be added.
fn read_relation_name(
    alloc: Global,
    bytes: &[u8],
    from: usize,
    rules: &Rules,
) -> Result<Name, ReadError>
    requires { from ≤ length bytes.now }
    ensures name { (place : PlaceValue) → IfOk result (λ name. Leads (declaration_tests rules.now)
        bytes.now from (wants_name place) name.token.end (wants_parenthesis place name.text)) }
    ensures within { IfOk result (λ name. name.token.end ≤ length bytes.now) }
    ensures fault { (place : PlaceValue) → IfFault result
        (Fails (declaration_tests rules.now) bytes.now from (wants_name place)) }
{
    let name = read_name(alloc, bytes, from, Code::X5, Code::X5)?;
    if !rules.is_new_relation_name(&name.text) {
        return Err(fault_at(Code::U5, &name.token));
    }
    if !has_room(rules) {
        return Err(fault_at(Code::U6, &name.token));
    }
    Ok(name)
}

// Whether there may be one more relation.
fn has_room(rules: &Rules) -> bool
    ensures { IsTrue result ↔ HasRoom rules.now }
{
    rules.is_kept();
    rules.sources().len() + rules.targets().len() < MOST_RELATIONS
}

// The columns after an opening parenthesis, and the offset after the closing one.
fn read_columns(alloc: Global, bytes: &[u8], from: usize) -> Result<(Items<Text>, usize), ReadError>
    requires { from ≤ length bytes.now }
    ensures columns { (rules : RuleSet) (place : PlaceValue) (name : List ℕ) → IfOk result
        (λ read. Leads (declaration_tests rules) bytes.now
        from (wants_column place (record { name = name; columns = [] }))
        read.1 (wants_line_end place (record { name = name; columns = read.0 }))) }
    ensures within { IfOk result (λ read. read.1 ≤ length bytes.now) }
    ensures fault { (rules : RuleSet) (place : PlaceValue) (name : List ℕ) → IfFault result
        (Fails (declaration_tests rules) bytes.now
        from (wants_column place (record { name = name; columns = [] }))) }
{
    let mut columns = Items::new(alloc);
    let mut from = from;
    loop {
        let column = read_column(alloc, bytes, from, &columns)?;
        columns.push(column.text)?;
        let token = read_token(bytes, column.token.end)?;
        match token.kind {
            Kind::Comma => from = token.end,
            Kind::RightParen => return Ok((columns, token.end)),
            _ => return Err(fault_at(Code::X5, &token)),
        }
    }
}

// The next column, which none of those before it is, and of which there may be one more.
fn read_column(
    alloc: Global,
    bytes: &[u8],
    from: usize,
    columns: &Items<Text>,
) -> Result<Name, ReadError>
    requires { from ≤ length bytes.now }
    ensures column { (rules : RuleSet) (place : PlaceValue) (name : List ℕ) → IfOk result
        (λ column. Leads (declaration_tests rules) bytes.now
        from (wants_column place (record { name = name; columns = columns.now })) column.token.end
        (wants_comma place (record { name = name; columns = columns.now ++ column.text ∷ [] }))) }
    ensures most { IfOk result (λ column. length columns.now < most_columns) }
    ensures within { IfOk result (λ column. column.token.end ≤ length bytes.now) }
    ensures fault { (rules : RuleSet) (place : PlaceValue) (name : List ℕ) → IfFault result
        (Fails (declaration_tests rules) bytes.now
        from (wants_column place (record { name = name; columns = columns.now }))) }
{
    let column = read_name(alloc, bytes, from, Code::X5, Code::X5)?;
    if is_among(columns.as_slice(), &column.text) {
        return Err(fault_at(Code::U5, &column.token));
    }
    if columns.len() >= MOST_COLUMNS {
        return Err(fault_at(Code::U6, &column.token));
    }
    Ok(column)
}

// Whether the text is one of these.
fn is_among(texts: &[Text], text: &Text) -> bool
    ensures { IsTrue result ↔ Contains texts.now text.now }
{
    texts.contains(text)
}

// The offset after the end of the line.
fn read_line_end(bytes: &[u8], from: usize) -> Result<usize, ReadError>
    requires { from ≤ length bytes.now }
    ensures end { (rules : RuleSet) (place : PlaceValue) (relation : RelationValue) → IfOk result
        (λ end. Leads (declaration_tests rules) bytes.now
        from (wants_line_end place relation) end (declared place relation)) }
    ensures within { IfOk result (λ end. end ≤ length bytes.now) }
    ensures fault { (rules : RuleSet) (place : PlaceValue) (relation : RelationValue) → IfFault result
        (Fails (declaration_tests rules) bytes.now from (wants_line_end place relation)) }
{
    let token = read_token(bytes, from)?;
    match token.kind {
        Kind::LineEnd | Kind::Finish => Ok(token.end),
        _ => Err(fault_at(Code::X5, &token)),
    }
}
