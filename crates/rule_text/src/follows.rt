//! What follows an item of a list, and the end of a line.

ghost use Rattle.std.specs.Prelude.{◌≡◌, ◌≢◌, ◌≤◌, length, IfOk};
ghost use Rattle.decl_text.specs.Parts.{FailsAt};
ghost use Rattle.decl_text.specs.Tests.{IfFault};
ghost use Rattle.decl_text.specs.declared.token.Kind.TheVariants as kinds;
ghost use Rattle.rule_text.specs.Follows.{offset_of, IsAfter, IsNoAfter, StandsEnd, IsNoEnd};

use decl_text::{Code, Kind, ReadError, fault_at, read_token};

/// What follows an item of a list: a comma, or the sign that closes the list, with the offset after it.
#[derive(Clone, Copy)]
pub(crate) enum After {
    /// The next item stands from here on.
    Next(usize),
    /// The list ends here.
    Closed(usize),
}

/// What follows an item of a list; `wrong` is the fault of any other token.
pub(crate) fn read_after(
    bytes: &[u8],
    from: usize,
    close: Kind,
    wrong: Code,
) -> Result<After, ReadError>
    requires place { from ≤ length bytes.now }
    requires name { close ≢ kinds.Name }
    requires quoted { close ≢ kinds.Quoted }
    ensures after { IfOk result (IsAfter bytes.now from close) }
    ensures within { IfOk result (λ after. offset_of after ≤ length bytes.now) }
    ensures fault { IfFault result (FailsAt bytes.now from (IsNoAfter close wrong)) }
{
    let token = read_token(bytes, from)?;
    if token.kind == Kind::Comma {
        return Ok(After::Next(token.end));
    }
    if token.kind != close {
        return Err(fault_at(wrong, &token));
    }
    Ok(After::Closed(token.end))
}

/// The offset after the end of the line; `wrong` is the fault of a token that doesn't end it.
pub(crate) fn read_line_end(bytes: &[u8], from: usize, wrong: Code) -> Result<usize, ReadError>
    requires { from ≤ length bytes.now }
    ensures end { IfOk result (StandsEnd bytes.now from) }
    ensures within { IfOk result (λ end. end ≤ length bytes.now) }
    ensures fault { IfFault result (FailsAt bytes.now from (IsNoEnd wrong)) }
{
    let token = read_token(bytes, from)?;
    if token.kind != Kind::LineEnd && token.kind != Kind::Finish {
        return Err(fault_at(wrong, &token));
    }
    Ok(token.end)
}
