//! The names of rules and queries.

ghost use Rattle.std.specs.Prelude.{ℕ, ◌≤◌, List, length, IfOk};
ghost use Rattle.decl_text.specs.Tests.{Leads, Fails, IfFault};
ghost use Rattle.rule_text.specs.RuleLine.{body_of_tgd, body_of_egd, wants_tgd_name, wants_egd_name, wants_query_name, wants_colon, wants_head_parenthesis, rule_tests};

use decl_text::{Code, Name, ReadError, fault_at, read_name};
use rule_core::Rules;
use rule_core::limits::{MOST_EGDS, MOST_QUERIES, MOST_TGDS};
use std::alloc::Global;

/// The name of a tgd that may be added.
pub(crate) fn read_tgd_name(
    alloc: Global,
    bytes: &[u8],
    from: usize,
    rules: &Rules,
) -> Result<Name, ReadError>
    requires { from ≤ length bytes.now }
    ensures name { (pool : List (List ℕ)) → IfOk result (λ name. Leads (rule_tests rules.now pool)
        bytes.now from wants_tgd_name name.token.end (wants_colon (body_of_tgd name.text))) }
    ensures within { IfOk result (λ name. name.token.end ≤ length bytes.now) }
    ensures fault { (pool : List (List ℕ)) → IfFault result
        (Fails (rule_tests rules.now pool) bytes.now from wants_tgd_name) }
{
    let name = read_name(alloc, bytes, from, Code::X6, Code::X9)?;
    if !rules.is_new_rule_name(&name.text) {
        return Err(fault_at(Code::U5, &name.token));
    }
    if rules.tgds().len() >= MOST_TGDS {
        return Err(fault_at(Code::U6, &name.token));
    }
    Ok(name)
}

/// The name of an egd that may be added.
pub(crate) fn read_egd_name(
    alloc: Global,
    bytes: &[u8],
    from: usize,
    rules: &Rules,
) -> Result<Name, ReadError>
    requires { from ≤ length bytes.now }
    ensures name { (pool : List (List ℕ)) → IfOk result (λ name. Leads (rule_tests rules.now pool)
        bytes.now from wants_egd_name name.token.end (wants_colon (body_of_egd name.text))) }
    ensures within { IfOk result (λ name. name.token.end ≤ length bytes.now) }
    ensures fault { (pool : List (List ℕ)) → IfFault result
        (Fails (rule_tests rules.now pool) bytes.now from wants_egd_name) }
{
    let name = read_name(alloc, bytes, from, Code::X7, Code::X9)?;
    if !rules.is_new_rule_name(&name.text) {
        return Err(fault_at(Code::U5, &name.token));
    }
    if rules.egds().len() >= MOST_EGDS {
        return Err(fault_at(Code::U6, &name.token));
    }
    Ok(name)
}

/// The name of a query that may be added.
pub(crate) fn read_query_name(
    alloc: Global,
    bytes: &[u8],
    from: usize,
    rules: &Rules,
) -> Result<Name, ReadError>
    requires { from ≤ length bytes.now }
    ensures name { (pool : List (List ℕ)) → IfOk result (λ name. Leads (rule_tests rules.now pool)
        bytes.now from wants_query_name name.token.end (wants_head_parenthesis name.text)) }
    ensures within { IfOk result (λ name. name.token.end ≤ length bytes.now) }
    ensures fault { (pool : List (List ℕ)) → IfFault result
        (Fails (rule_tests rules.now pool) bytes.now from wants_query_name) }
{
    let name = read_name(alloc, bytes, from, Code::X8, Code::X9)?;
    if !rules.is_new_query_name(&name.text) {
        return Err(fault_at(Code::U5, &name.token));
    }
    if rules.queries().len() >= MOST_QUERIES {
        return Err(fault_at(Code::U6, &name.token));
    }
    Ok(name)
}
