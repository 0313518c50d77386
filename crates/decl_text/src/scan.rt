//! The next token of a text, after blanks and comments. No call takes memory.

ghost use Rattle.std.specs.Prelude.{◌≡◌, ◌≢◌, ℕ, ◌+◌, ◌<◌, ◌≤◌, List, [], ◌∷◌, ◌++◌, length, take, drop, slice_index, All, IsTrue, IfOk, IfErr, IfSome, IfNone};
ghost use Rattle.decl_text.specs.declared.token.Kind.{Kind as KindValue};
ghost use Rattle.decl_text.specs.declared.token.Kind.TheVariants as kinds;
ghost use Rattle.decl_text.specs.declared.token.Token.{Token as TokenValue};
ghost use Rattle.decl_text.specs.Tokens.{is_blank, is_letter, is_name_byte, IsWord, EndsWord, IsSpelled, EndsLine, IsComment, IsGap, EndsGap, IsNextToken, BeginsNothing, IsBadQuoted, IsBadToken, IsNextFault, IsTokenAt, IsFaultAt, IsGapBetween};
ghost use Rattle.decl_text.specs.Quotes.{IsQuoted};
ghost use Rattle.decl_text.specs.Pieces.{EndsBlanks};

use crate::quotes::{Piece, piece_at, quoted_len};
use crate::{Code, Kind, MappingFault, Token};
use rule_core::{is_letter, is_name_byte};

// A token at the front of bytes, and how many of them it has.
#[derive(Clone, Copy)]
struct Front {
    kind: Kind,
    len: usize,
}

// A fault of the token at the front of bytes, and how many bytes after their beginning it is placed.
#[derive(Clone, Copy)]
struct Bad {
    code: Code,
    after: usize,
}

/// The token that stands next from an offset on, after blanks and comments, or its fault.
pub fn next_token(bytes: &[u8], from: usize) -> Result<Token, MappingFault>
    requires { from ≤ length bytes.now }
    ensures token { IfOk result (λ token. IsNextToken bytes.now from token) }
    ensures fault { IfErr result (λ fault. IsNextFault bytes.now from fault) }
{
    let start = from + gap_len(&bytes[from..]);
    token_from(bytes, start)
}

/// The token that begins exactly at an offset, with neither a blank nor a comment before it. Where none
/// begins there, the fault is the token's own, or that of a byte that begins no token.
pub fn token_at(bytes: &[u8], at: usize) -> Result<Token, MappingFault>
    requires { at ≤ length bytes.now }
    ensures token { IfOk result (λ token. IsTokenAt bytes.now at token) }
    ensures within { IfOk result (λ token. token.end ≤ length bytes.now) }
    ensures fault { IfErr result (λ fault. IsFaultAt bytes.now at fault) }
    ensures none { IfErr result (λ _. (token : TokenValue) → IsNextToken bytes.now at token → at < token.start) }
{
    if begins_gap(&bytes[at..]) {
        return Err(MappingFault {
            code: Code::X1,
            place: at,
        });
    }
    token_from(bytes, at)
}

// The token that begins at an offset behind blanks and a comment, or its fault.
fn token_from(bytes: &[u8], start: usize) -> Result<Token, MappingFault>
    requires within { start ≤ length bytes.now }
    requires over { EndsGap (drop start bytes.now) }
    ensures at { IfOk result (λ token. IsTokenAt bytes.now start token) }
    ensures within { IfOk result (λ token. token.end ≤ length bytes.now) }
    ensures token { (from : ℕ) → IsGapBetween bytes.now from start
        → IfOk result (λ token. IsNextToken bytes.now from token) }
    ensures fault { (from : ℕ) → IsGapBetween bytes.now from start
        → IfErr result (λ fault. IsNextFault bytes.now from fault) }
{
    match front_of(&bytes[start..]) {
        Ok(front) => Ok(Token {
            kind: front.kind,
            start,
            end: start + front.len,
        }),
        Err(bad) => Err(MappingFault {
            code: bad.code,
            place: start + bad.after,
        }),
    }
}

// Whether a blank or a comment begins here.
fn begins_gap(bytes: &[u8]) -> bool
    ensures gap { IsTrue result → ¬ EndsGap bytes.now }
    ensures none { ¬ (IsTrue result) → EndsGap bytes.now }
{
    match bytes {
        [first, ..] => is_blank(*first) || *first == b'#',
        [] => false,
    }
}

// How many bytes at the front are blanks and a comment.
fn gap_len(bytes: &[u8]) -> usize
    ensures within { result ≤ length bytes.now }
    ensures gap { IsGap (take result bytes.now) (drop result bytes.now) }
    ensures over { EndsGap (drop result bytes.now) }
{
    let blanks = blanks_len(bytes);
    blanks + comment_len(&bytes[blanks..])
}

// How many bytes at the front are blank.
fn blanks_len(bytes: &[u8]) -> usize
    ensures within { result ≤ length bytes.now }
    ensures blank { All (λ b. IsTrue (is_blank b)) (take result bytes.now) }
    ensures over { EndsBlanks (drop result bytes.now) }
{
    let mut len = 0;
    while len < bytes.len() && is_blank(bytes[len]) {
        len += 1;
    }
    len
}

// How many bytes the comment has that begins here, or 0.
fn comment_len(bytes: &[u8]) -> usize
    requires { EndsBlanks bytes.now }
    ensures within { result ≤ length bytes.now }
    ensures comment { IsComment (take result bytes.now) (drop result bytes.now) }
    ensures over { EndsGap (drop result bytes.now) }
{
    match bytes {
        [b'#', ..] => line_len(bytes),
        _ => 0,
    }
}

// How many bytes stand before the end of the line.
fn line_len(bytes: &[u8]) -> usize
    ensures within { result ≤ length bytes.now }
    ensures line { All (λ b. b ≢ 10) (take result bytes.now) }
    ensures whole { EndsLine (drop result bytes.now) }
{
    let mut len = 0;
    while len < bytes.len() && bytes[len] != b'\n' {
        len += 1;
    }
    len
}

fn is_blank(byte: u8) -> bool
    ensures { result ≡ is_blank byte }
{
    byte == b' ' || byte == b'\t' || byte == b'\r'
}

// The token at the front of the bytes, or its fault.
fn front_of(bytes: &[u8]) -> Result<Front, Bad>
    requires { EndsGap bytes.now }
    ensures token { IfOk result (λ front. IsSpelled front.kind (take front.len bytes.now) (drop front.len bytes.now)) }
    ensures within { IfOk result (λ front. front.len ≤ length bytes.now) }
    ensures fault { IfErr result (λ bad. IsBadToken bytes.now bad.code bad.after) }
    ensures place { IfErr result (λ bad. bad.after ≤ length bytes.now) }
{
    if let Some(front) = sign_at(bytes) {
        return Ok(front);
    }
    let first = bytes[0];
    if first == b'"' {
        return quoted_front(bytes);
    }
    if is_letter(first) {
        return Ok(Front {
            kind: Kind::Name,
            len: name_len(bytes),
        });
    }
    Err(Bad {
        code: Code::X1,
        after: 0,
    })
}

// The sign with which the bytes begin, or the end of the input.
fn sign_at(bytes: &[u8]) -> Option<Front>
    ensures found { IfSome result (λ front. IsSpelled front.kind (take front.len bytes.now) (drop front.len bytes.now)) }
    ensures within { IfSome result (λ front. front.len ≤ length bytes.now) }
    ensures some { IfNone result (0 < length bytes.now) }
    ensures none { IfNone result ((kind : KindValue) (spelled rest : List ℕ) → kind ≢ kinds.Name → kind ≢ kinds.Quoted
        → IsSpelled kind spelled rest → bytes.now ≢ spelled ++ rest) }
{
    let (kind, len) = match bytes {
        [] => (Kind::Finish, 0),
        [b'(', ..] => (Kind::LeftParen, 1),
        [b')', ..] => (Kind::RightParen, 1),
        [b',', ..] => (Kind::Comma, 1),
        [b':', ..] => (Kind::Colon, 1),
        [b'-', b'>', ..] => (Kind::Arrow, 2),
        [b'=', ..] => (Kind::Equals, 1),
        [b'|', ..] => (Kind::Bar, 1),
        [b'\n', ..] => (Kind::LineEnd, 1),
        _ => return None,
    };
    Some(Front { kind, len })
}

// How many bytes at the front may stand in a name.
fn name_len(bytes: &[u8]) -> usize
    ensures within { result ≤ length bytes.now }
    ensures name { All (λ b. IsTrue (is_name_byte b)) (take result bytes.now) }
    ensures whole { EndsWord (drop result bytes.now) }
{
    let mut len = 0;
    while len < bytes.len() && is_name_byte(bytes[len]) {
        len += 1;
    }
    len
}

// The text in quotes at the front of the bytes, or its fault.
fn quoted_front(bytes: &[u8]) -> Result<Front, Bad>
    requires some { 0 < length bytes.now }
    requires quote { slice_index bytes.now 0 ≡ 34 }
    ensures kind { IfOk result (λ front. front.kind ≡ kinds.Quoted) }
    ensures text { IfOk result (λ front. (text : List ℕ) × IsQuoted (take front.len bytes.now) text) }
    ensures within { IfOk result (λ front. front.len ≤ length bytes.now) }
    ensures fault { IfErr result (λ bad. IsBadQuoted bytes.now bad.code bad.after) }
    ensures place { IfErr result (λ bad. bad.after ≤ length bytes.now) }
{
    let mut len = 1;
    loop {
        match piece_at(&bytes[len..]) {
            Piece::Character(c) => len += quoted_len(c),
            Piece::Close => {
                return Ok(Front {
                    kind: Kind::Quoted,
                    len: len + 1,
                });
            }
            Piece::Stop(Code::X3) => {
                return Err(Bad {
                    code: Code::X3,
                    after: 0,
                });
            }
            Piece::Stop(code) => return Err(Bad { code, after: len }),
        }
    }
}
