//! Texts in quotes: one character at a time, each as it stands or by its escape.

ghost use Rattle.std.specs.Prelude.{◌≡◌, ◌≢◌, ℕ, ◌-◌, ◌<◌, false, slice_index, List, [], ◌∷◌, ◌++◌, length, take, drop, IfOk, OnOk, OnErr, IfSome, IfNone};
ghost use Rattle.std.specs.Char.{encode_utf8, IsScalar};
ghost use Rattle.std.specs.Str.{StartsWithNoChar};
ghost use Rattle.decl_text.specs.declared.token.Kind.TheVariants as kinds;
ghost use Rattle.decl_text.specs.Quotes.{in_quotes, IsQuoted};
ghost use Rattle.decl_text.specs.Tokens.{IsNextToken, StopsQuotes};
ghost use Rattle.decl_text.specs.Pieces.{IsPiece, is_escaped};

use crate::{Code, Token};
use std::alloc::Global;
use term_core::{Memory, Text};

/// What stands in quotes from an offset on.
#[derive(Clone, Copy)]
pub(crate) enum Piece {
    Character(char),
    Close,
    Stop(Code),
}

/// The text of a token in quotes, which was read from these bytes.
pub fn quoted(alloc: Global, bytes: &[u8], token: &Token) -> Result<Text, Memory>
    requires read { (from : ℕ) × IsNextToken bytes.now from token.now }
    requires kind { token.now.kind ≡ kinds.Quoted }
    ensures { IfOk result (λ text.
        IsQuoted (take (token.now.end - token.now.start) (drop token.now.start bytes.now)) text) }
{
    text_of(alloc, &bytes[token.start..token.end])
}

// The text of a whole text in quotes.
fn text_of(alloc: Global, quoted: &[u8]) -> Result<Text, Memory>
    requires { (text : List ℕ) × IsQuoted quoted.now text }
    ensures { IfOk result (λ text. IsQuoted quoted.now text) }
{
    let mut text = Text::from_str(alloc, "")?;
    let mut len = 1;
    loop {
        match piece_at(&quoted[len..]) {
            Piece::Character(c) => {
                push_char(&mut text, c)?;
                len += quoted_len(c);
            }
            Piece::Close => return Ok(text),
            Piece::Stop(_) => return Ok(text),
        }
    }
}

/// A text in quotes, by the escapes of its four characters that do not stand in quotes.
pub fn print_quoted(alloc: Global, text: &str) -> Result<Text, Memory>
    ensures { IfOk result (λ quoted. IsQuoted quoted text.now) }
{
    let mut quoted = Text::from_str(alloc, "\"")?;
    for c in text.chars() {
        push_quoted(&mut quoted, c)?;
    }
    quoted.push_str("\"")?;
    Ok(quoted)
}

// Adds a character as it stands in quotes.
fn push_quoted(text: &mut Text, c: char) -> Result<(), Memory>
    ensures { OnOk result (text.new ≡ text.old ++ in_quotes c) }
{
    match c {
        '"' => text.push_str("\\\""),
        '\\' => text.push_str("\\\\"),
        '\n' => text.push_str("\\n"),
        '\r' => text.push_str("\\r"),
        _ => push_char(text, c),
    }
}

// Adds a character.
fn push_char(text: &mut Text, c: char) -> Result<(), Memory>
    ensures { OnOk result (text.new ≡ text.old ++ encode_utf8 c) }
{
    let mut bytes = [0u8; 4];
    text.push_str(c.encode_utf8(&mut bytes))
}

// How many bytes a character has in quotes.
pub(crate) fn quoted_len(c: char) -> usize
    ensures { result ≡ length (in_quotes c) }
{
    match c {
        '"' | '\\' | '\n' | '\r' => 2,
        _ => c.len_utf8(),
    }
}

// What the bytes in quotes begin with.
pub(crate) fn piece_at(bytes: &[u8]) -> Piece
    ensures { IsPiece result bytes.now }
{
    match bytes {
        [b'"', ..] => Piece::Close,
        [b'\\', rest @ ..] => escape_at(rest),
        [] | [b'\n', ..] | [b'\r', ..] => Piece::Stop(Code::X3),
        _ => plain_at(bytes),
    }
}

// The character that is escaped by what follows a backslash.
fn escape_at(rest: &[u8]) -> Piece
    ensures { IsPiece result (92 ∷ rest.now) }
{
    let [letter, ..] = rest else {
        return Piece::Stop(Code::X4);
    };
    match *letter {
        b'"' => Piece::Character('"'),
        b'\\' => Piece::Character('\\'),
        b'n' => Piece::Character('\n'),
        b'r' => Piece::Character('\r'),
        _ => Piece::Stop(Code::X4),
    }
}

// The character that stands as it is.
fn plain_at(bytes: &[u8]) -> Piece
    requires some { 0 < length bytes.now }
    requires plain { is_escaped (slice_index bytes.now 0) ≡ false }
    ensures { IsPiece result bytes.now }
{
    match first_char(bytes) {
        Some(c) => Piece::Character(c),
        None => Piece::Stop(Code::X2),
    }
}

// The character with which the bytes begin.
fn first_char(bytes: &[u8]) -> Option<char>
    ensures some { IfSome result (λ c. (rest : List ℕ) × (bytes.now ≡ encode_utf8 c ++ rest)) }
    ensures none { IfNone result (StartsWithNoChar bytes.now) }
{
    valid_front(short_front(bytes)).chars().next()
}

// As many bytes at the front as a character may have.
fn short_front(bytes: &[u8]) -> &[u8]
    ensures { result.now ≡ take 4 bytes.now }
{
    if bytes.len() < 4 { bytes } else { &bytes[..4] }
}

// The longest front of the bytes that is UTF-8.
fn valid_front(bytes: &[u8]) -> &str
    ensures front { (rest : List ℕ) × (bytes.now ≡ result.now ++ rest) }
    ensures none { length result.now ≡ 0 → StartsWithNoChar bytes.now }
{
    match str::from_utf8(bytes) {
        Ok(text) => text,
        Err(e) => match str::from_utf8(&bytes[..e.valid_up_to()]) {
            Ok(text) => text,
            Err(_) => unreachable!(),
        },
    }
}
