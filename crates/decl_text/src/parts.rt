//! What lines are read by: the next token with its text, a sign, a name.

ghost use Rattle.std.specs.Prelude.{◌≡◌, ◌≢◌, ◌↔◌, ℕ, ◌-◌, ◌≤◌, [], List, codes, length, take, drop, IsTrue, IfOk, IfErr};
ghost use Rattle.rule_core.specs.Limits.{longest_name};
ghost use Rattle.decl_text.specs.declared.token.Kind.TheVariants as kinds;
ghost use Rattle.decl_text.specs.declared.fault.ReadError.TheVariants as errors;
ghost use Rattle.decl_text.specs.Declaration.{IsKeyword};
ghost use Rattle.decl_text.specs.Parts.{StandsNext, FailsAt, IsOther, IsNoName};
ghost use Rattle.decl_text.specs.Tests.{Lexeme, IfFault};
ghost use Rattle.decl_text.specs.Tokens.{IsWord, IsNextToken, IsNextFault};

use crate::{Code, Kind, MappingFault, ReadError, Token, next_token};
use rule_core::limits::LONGEST_NAME;
use std::alloc::Global;
use std::str;
use term_core::{Memory, Text};

/// A name that stands in a line.
#[derive(Debug, Drop)]
pub struct Name {
    /// The name itself.
    pub text: Text,
    /// Where it stands.
    pub token: Token,
}

/// The fault of a token that fails a test, at its first byte.
pub fn fault_at(code: Code, token: &Token) -> ReadError
    ensures { result ≡ errors.Fault (record { code = code; place = token.now.start }) }
{
    ReadError::Fault(MappingFault {
        code,
        place: token.start,
    })
}

/// The token that stands next from an offset on, or its fault.
pub fn read_token(bytes: &[u8], from: usize) -> Result<Token, ReadError>
    requires { from ≤ length bytes.now }
    ensures token { IfOk result (λ token. IsNextToken bytes.now from token) }
    ensures says { IfOk result (λ token. (lexeme : Lexeme) × StandsNext bytes.now from token lexeme) }
    ensures order { IfOk result (λ token. token.start ≤ token.end) }
    ensures within { IfOk result (λ token. token.end ≤ length bytes.now) }
    ensures fault { IfFault result (IsNextFault bytes.now from) }
{
    Ok(next_token(bytes, from)?)
}

/// The offset after the next token, which has to be this sign; `wrong` is the fault of one of another kind.
pub fn read_sign(bytes: &[u8], from: usize, sign: Kind, wrong: Code) -> Result<usize, ReadError>
    requires place { from ≤ length bytes.now }
    requires name { sign ≢ kinds.Name }
    requires quoted { sign ≢ kinds.Quoted }
    ensures sign { IfOk result (λ end. (token : Token) × (token.end ≡ end)
        × StandsNext bytes.now from token (record { kind = sign; text = [] })) }
    ensures within { IfOk result (λ end. end ≤ length bytes.now) }
    ensures fault { IfFault result (FailsAt bytes.now from (IsOther sign wrong)) }
{
    let token = read_token(bytes, from)?;
    if token.kind != sign {
        return Err(fault_at(wrong, &token));
    }
    Ok(token.end)
}

/// The next token as a name. A token of another kind has the fault `wrong`, the word `exists` the fault `word`, and
/// a name that is longer than the longest has its own.
pub fn read_name(
    alloc: Global,
    bytes: &[u8],
    from: usize,
    wrong: Code,
    word: Code,
) -> Result<Name, ReadError>
    requires { from ≤ length bytes.now }
    ensures stands { IfOk result (λ name. StandsNext bytes.now from name.token
        (record { kind = kinds.Name; text = name.text })) }
    ensures other { IfOk result (λ name. name.text ≢ codes "exists") }
    ensures short { IfOk result (λ name. length name.text ≤ longest_name) }
    ensures within { IfOk result (λ name. name.token.end ≤ length bytes.now) }
    ensures fault { IfFault result (FailsAt bytes.now from (IsNoName wrong word)) }
{
    let token = read_token(bytes, from)?;
    if token.kind != Kind::Name {
        return Err(fault_at(wrong, &token));
    }
    let name = &bytes[token.start..token.end];
    if name == b"exists".as_slice() {
        return Err(fault_at(word, &token));
    }
    if name.len() > LONGEST_NAME {
        return Err(fault_at(Code::U6, &token));
    }
    let text = word_text(alloc, name)?;
    Ok(Name { text, token })
}

/// Whether the token of these bytes is the word.
pub fn is_word(bytes: &[u8], token: &Token, word: &[u8]) -> bool
    requires order { token.now.start ≤ token.now.end }
    requires within { token.now.end ≤ length bytes.now }
    ensures { (from : ℕ) (lexeme : Lexeme) → StandsNext bytes.now from token.now lexeme
        → IsTrue result ↔ IsKeyword lexeme word.now }
{
    token.kind == Kind::Name && &bytes[token.start..token.end] == word
}

// A word as a text.
fn word_text(alloc: Global, word: &[u8]) -> Result<Text, Memory>
    requires { IsWord word.now }
    ensures { IfOk result (λ text. text ≡ word.now) }
{
    match str::from_utf8(word) {
        Ok(text) => Text::from_str(alloc, text),
        Err(_) => unreachable!(),
    }
}
