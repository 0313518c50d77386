//! A whole mapping from its text: first the texts of its constants, then its lines, one after another.

ghost use Rattle.std.specs.Prelude.{◌≡◌, ◌≢◌, ◌↔◌, ◌⊎◌, ℕ, ◌+◌, ◌<◌, ◌≤◌, List, length, Contains, IsTrue, IfOk, OnOk, OnErr};
ghost use Rattle.rule_core.specs.Validity.{IsValid};
ghost use Rattle.decl_text.specs.declared.token.Kind.TheVariants as kinds;
ghost use Rattle.decl_text.specs.Parts.{StandsNext};
ghost use Rattle.decl_text.specs.Tests.{Lexeme, Fails, IfFault};
ghost use Rattle.decl_text.specs.Tokens.{IsNextToken};
ghost use Rattle.rule_text.specs.Adding.{with_rule};
ghost use Rattle.mapping_core.specs.Mapping.{HasItsConstants};
ghost use Rattle.mapping_core.specs.Reading.{at_line, no_rules, mapping_tests, BeginsRule, IsPoolOf, IsMapping, IsFirstFault};
ghost use Rattle.mapping_core.specs.Steps.{SaysQuoted, ReadsTo, RuleBegins, OtherBegins};

use crate::Mapping;
use decl_text::{
    Kind, ReadError, Token, is_word, next_token, quoted, read_declaration, read_token,
};
use rule_core::Rules;
use rule_text::{Rule, read_rule};
use std::alloc::Global;
use term_core::{Memory, Pool, PoolBuilder};

/// The mapping of a text, or the first fault of the text, at its byte. A mapping has no more constants than its text has bytes.
pub fn read_mapping(alloc: Global, bytes: &[u8]) -> Result<Mapping, ReadError>
    requires { length bytes.now < 4294967295 }
    ensures mapping { IfOk result (IsMapping bytes.now) }
    ensures few { IfOk result (λ mapping. length mapping.pool ≤ length bytes.now) }
    ensures fault { IfFault result (IsFirstFault bytes.now) }
{
    let pool = read_pool(alloc, bytes)?;
    let rules = read_lines(alloc, bytes, &pool)?;
    Ok(Mapping { rules, pool })
}

// The texts that stand in quotes before the first fault of a token.
fn read_pool(alloc: Global, bytes: &[u8]) -> Result<Pool, Memory>
    requires { length bytes.now < 4294967295 }
    ensures pool { IfOk result (IsPoolOf bytes.now) }
    ensures few { IfOk result (λ pool. length pool ≤ length bytes.now) }
{
    let mut texts = PoolBuilder::new(alloc);
    let mut from = 0;
    loop {
        let Ok(token) = next_token(bytes, from) else {
            return texts.finish();
        };
        if token.kind == Kind::Finish {
            return texts.finish();
        }
        add_quoted(alloc, bytes, &token, &mut texts)?;
        from = token.end;
    }
}

// Adds the text of a token in quotes, and for another token nothing.
fn add_quoted(
    alloc: Global,
    bytes: &[u8],
    token: &Token,
    texts: &mut PoolBuilder,
) -> Result<(), Memory>
    requires read { (from : ℕ) × IsNextToken bytes.now from token.now }
    requires place { length texts.old < 4294967295 }
    ensures has { OnOk result ((text : List ℕ)
        → Contains texts.new text ↔ (Contains texts.old text ⊎ SaysQuoted bytes.now token.now text)) }
    ensures few { OnOk result (length texts.new ≤ length texts.old + 1) }
    ensures err { OnErr result (texts.new ≡ texts.old) }
{
    if token.kind != Kind::Quoted {
        return Ok(());
    }
    let text = quoted(alloc, bytes, token)?;
    texts.add(text.as_str())
}

// The rules of all lines, whose constants are in the pool.
fn read_lines(alloc: Global, bytes: &[u8], pool: &Pool) -> Result<Rules, ReadError>
    requires { IsPoolOf bytes.now pool.now }
    ensures mapping { IfOk result (λ rules. IsMapping bytes.now (record { rules = rules; pool = pool.now })) }
    ensures constants { IfOk result (λ rules. HasItsConstants rules pool.now) }
    ensures fault { IfFault result (Fails (mapping_tests pool.now) bytes.now 0 (at_line no_rules)) }
{
    let mut rules = Rules::new(alloc);
    let mut from = 0;
    loop {
        let token = read_token(bytes, from)?;
        from = match token.kind {
            Kind::Finish => return Ok(rules),
            Kind::LineEnd => token.end,
            _ => read_line(alloc, bytes, from, &token, &mut rules, pool)?,
        };
    }
}

// The offset after a line that is not empty, which begins with the token. What it says is added to the rules.
fn read_line(
    alloc: Global,
    bytes: &[u8],
    from: usize,
    token: &Token,
    rules: &mut Rules,
    pool: &Pool,
) -> Result<usize, ReadError>
    requires place { from ≤ length bytes.now }
    requires pool { IsPoolOf bytes.now pool.now }
    requires before { ReadsTo bytes.now pool.now from rules.old }
    requires first { IsNextToken bytes.now from token.now }
    requires order { token.now.start ≤ token.now.end }
    requires inside { token.now.end ≤ length bytes.now }
    requires line { token.now.kind ≢ kinds.LineEnd }
    requires more { token.now.kind ≢ kinds.Finish }
    ensures reads { IfOk result (λ to. ReadsTo bytes.now pool.now to rules.new) }
    ensures forward { IfOk result (λ to. from < to) }
    ensures within { IfOk result (λ to. to ≤ length bytes.now) }
    ensures fault { IfFault result (Fails (mapping_tests pool.now) bytes.now 0 (at_line no_rules)) }
    ensures err { OnErr result (rules.new ≡ rules.old) }
{
    if begins_rule(bytes, token) {
        read_rule_line(alloc, bytes, from, rules, pool)
    } else {
        read_declaration_line(alloc, bytes, from, rules, pool)
    }
}

// Whether the token of these bytes is the first word of a rule.
fn begins_rule(bytes: &[u8], token: &Token) -> bool
    requires order { token.now.start ≤ token.now.end }
    requires within { token.now.end ≤ length bytes.now }
    ensures { (from : ℕ) (lexeme : Lexeme) → StandsNext bytes.now from token.now lexeme
        → IsTrue result ↔ BeginsRule lexeme }
{
    is_word(bytes, token, b"tgd")
        || is_word(bytes, token, b"egd")
        || is_word(bytes, token, b"query")
}

// The offset after a line that states a rule. The rule is added.
fn read_rule_line(
    alloc: Global,
    bytes: &[u8],
    from: usize,
    rules: &mut Rules,
    pool: &Pool,
) -> Result<usize, ReadError>
    requires place { from ≤ length bytes.now }
    requires pool { IsPoolOf bytes.now pool.now }
    requires before { ReadsTo bytes.now pool.now from rules.old }
    requires begins { RuleBegins bytes.now from }
    ensures reads { IfOk result (λ to. ReadsTo bytes.now pool.now to rules.new) }
    ensures forward { IfOk result (λ to. from < to) }
    ensures within { IfOk result (λ to. to ≤ length bytes.now) }
    ensures fault { IfFault result (Fails (mapping_tests pool.now) bytes.now 0 (at_line no_rules)) }
    ensures err { OnErr result (rules.new ≡ rules.old) }
{
    let line = read_rule(alloc, bytes, from, rules, pool)?;
    add_rule(rules, line.0)?;
    Ok(line.1)
}

// Adds a rule as the last of its kind. On an error nothing is added.
fn add_rule(rules: &mut Rules, rule: Rule) -> Result<(), Memory>
    requires { IsValid (with_rule rules.old rule) }
    ensures ok { OnOk result (rules.new ≡ with_rule rules.old rule) }
    ensures err { OnErr result (rules.new ≡ rules.old) }
{
    match rule {
        Rule::Tgd(tgd) => rules.add_tgd(tgd),
        Rule::Egd(egd) => rules.add_egd(egd),
        Rule::Query(query) => rules.add_query(query),
    }
}

// The offset after a line that declares a relation. The relation is added.
fn read_declaration_line(
    alloc: Global,
    bytes: &[u8],
    from: usize,
    rules: &mut Rules,
    pool: &Pool,
) -> Result<usize, ReadError>
    requires place { from ≤ length bytes.now }
    requires before { ReadsTo bytes.now pool.now from rules.old }
    requires begins { OtherBegins bytes.now from }
    ensures reads { IfOk result (λ to. ReadsTo bytes.now pool.now to rules.new) }
    ensures forward { IfOk result (λ to. from < to) }
    ensures within { IfOk result (λ to. to ≤ length bytes.now) }
    ensures fault { IfFault result (Fails (mapping_tests pool.now) bytes.now 0 (at_line no_rules)) }
    ensures err { OnErr result (rules.new ≡ rules.old) }
{
    let (place, relation, to) = read_declaration(alloc, bytes, from, rules)?;
    rules.add_relation(place, relation)?;
    Ok(to)
}
