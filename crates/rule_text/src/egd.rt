//! The line of an egd.

ghost use Rattle.std.specs.Prelude.{◌≡◌, ◌≤◌, length, IfOk};
ghost use Rattle.decl_text.specs.Parts.{FailsAt};
ghost use Rattle.decl_text.specs.TokenList.{KnowsTexts};
ghost use Rattle.decl_text.specs.Tests.{Leads, Fails, IfFault};
ghost use Rattle.rule_text.specs.RuleLine.{wants_egd_name, stated, rule_tests};
ghost use Rattle.rule_text.specs.Sides.{IsSide, IsNoSide};
ghost use Rattle.rule_text.specs.declared.rule.Rule.TheVariants as lines;

use crate::atoms::read_body;
use crate::follows::read_line_end;
use crate::names::read_egd_name;
use crate::part::Part;
use crate::variables::Variables;
use decl_text::{Code, Kind, ReadError, fault_at, read_name, read_sign};
use rule_core::{Egd, Rules};
use std::alloc::Global;
use term_core::Pool;

// A side of an egd: the number of its variable, and the offset after its name.
#[derive(Clone, Copy)]
struct Side {
    variable: u32,
    end: usize,
}

/// The line of an egd from its name on, and the offset after the line.
pub(crate) fn read_egd(
    alloc: Global,
    bytes: &[u8],
    from: usize,
    rules: &Rules,
    pool: &Pool,
) -> Result<(Egd, usize), ReadError>
    requires place { from ≤ length bytes.now }
    requires known { KnowsTexts bytes.now from pool.now }
    ensures egd { IfOk result (λ line. Leads (rule_tests rules.now pool.now)
        bytes.now from wants_egd_name line.1 (stated (lines.Egd line.0))) }
    ensures within { IfOk result (λ line. line.1 ≤ length bytes.now) }
    ensures fault { IfFault result
        (Fails (rule_tests rules.now pool.now) bytes.now from wants_egd_name) }
{
    let name = read_egd_name(alloc, bytes, from, rules)?;
    let body = read_body(alloc, bytes, name.token.end, rules, pool, Part::EgdBody)?;
    let left = read_side(alloc, bytes, body.end, &body.vars)?;
    let equals = read_sign(bytes, left.end, Kind::Equals, Code::X7)?;
    let right = read_side(alloc, bytes, equals, &body.vars)?;
    let end = read_line_end(bytes, right.end, Code::X7)?;
    let egd = Egd {
        name: name.text,
        vars: body.vars.into_items(),
        body: body.list,
        left: left.variable,
        right: right.variable,
    };
    Ok((egd, end))
}

// The next name, which has to be that of a variable.
fn read_side(alloc: Global, bytes: &[u8], from: usize, vars: &Variables) -> Result<Side, ReadError>
    requires { from ≤ length bytes.now }
    ensures side { IfOk result (λ side. IsSide bytes.now from vars.now side.variable side.end) }
    ensures within { IfOk result (λ side. side.end ≤ length bytes.now) }
    ensures fault { IfFault result (FailsAt bytes.now from (IsNoSide vars.now)) }
{
    let name = read_name(alloc, bytes, from, Code::X7, Code::X9)?;
    let Some(variable) = vars.find(&name.text) else {
        return Err(fault_at(Code::U4, &name.token));
    };
    Ok(Side {
        variable,
        end: name.token.end,
    })
}
