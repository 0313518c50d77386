//! A line that states a rule.

ghost use Rattle.std.specs.Prelude.{◌≤◌, length, IfOk};
ghost use Rattle.decl_text.specs.TokenList.{KnowsTexts};
ghost use Rattle.decl_text.specs.Tests.{IfFault};
ghost use Rattle.rule_core.specs.Validity.{IsValid};
ghost use Rattle.rule_text.specs.Adding.{with_rule};
ghost use Rattle.rule_text.specs.RuleLine.{IsRule, FailsRule};

use crate::Rule;
use crate::egd::read_egd;
use crate::laws::what_is_read_fits;
use crate::query::read_query;
use crate::tgd::read_tgd;
use decl_text::{Code, ReadError, fault_at, is_word, read_token};
use rule_core::Rules;
use std::alloc::Global;
use term_core::Pool;

/// A line that begins with `tgd`, `egd` or `query`: the rule, and the offset after the line. The rule may be added to
/// the rules. A fault is the first of the line, at its byte.
pub fn read_rule(
    alloc: Global,
    bytes: &[u8],
    from: usize,
    rules: &Rules,
    pool: &Pool,
) -> Result<(Rule, usize), ReadError>
    requires place { from ≤ length bytes.now }
    requires known { KnowsTexts bytes.now from pool.now }
    ensures states { IfOk result
        (λ line. IsRule bytes.now rules.now pool.now from line.0 line.1) }
    ensures fits { IfOk result (λ line. IsValid (with_rule rules.now line.0)) }
    ensures within { IfOk result (λ line. line.1 ≤ length bytes.now) }
    ensures fault { IfFault result (FailsRule bytes.now rules.now pool.now from) }
{
    rules.is_kept();
    what_is_read_fits();
    read_line(alloc, bytes, from, rules, pool)
}

// The line, without a word on whether its rule fits.
fn read_line(
    alloc: Global,
    bytes: &[u8],
    from: usize,
    rules: &Rules,
    pool: &Pool,
) -> Result<(Rule, usize), ReadError>
    requires place { from ≤ length bytes.now }
    requires known { KnowsTexts bytes.now from pool.now }
    ensures states { IfOk result
        (λ line. IsRule bytes.now rules.now pool.now from line.0 line.1) }
    ensures within { IfOk result (λ line. line.1 ≤ length bytes.now) }
    ensures fault { IfFault result (FailsRule bytes.now rules.now pool.now from) }
{
    let token = read_token(bytes, from)?;
    if is_word(bytes, &token, b"tgd") {
        let (tgd, end) = read_tgd(alloc, bytes, token.end, rules, pool)?;
        return Ok((Rule::Tgd(tgd), end));
    }
    if is_word(bytes, &token, b"egd") {
        let (egd, end) = read_egd(alloc, bytes, token.end, rules, pool)?;
        return Ok((Rule::Egd(egd), end));
    }
    if is_word(bytes, &token, b"query") {
        let (query, end) = read_query(alloc, bytes, token.end, rules, pool)?;
        return Ok((Rule::Query(query), end));
    }
    Err(fault_at(Code::X5, &token))
}
