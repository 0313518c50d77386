//! What a line of a trace begins with: a name, a value, a binding. A front is told by how many bytes it has.

ghost use Rattle.std.specs.Prelude.{◌≡◌, ◌≢◌, ◌↔◌, ℕ, ◌+◌, ◌<◌, ◌≤◌, List, [], ◌∷◌, ◌++◌, length, take, drop, All, IsTrue, codes, IfOk, IfSome, IfNone};
ghost use Rattle.rule_core.specs.Names.{IsName};
ghost use Rattle.decl_text.specs.Quotes.{IsQuoted};
ghost use Rattle.decl_text.specs.Tokens.{EndsWord, IsSpelled};
ghost use Rattle.failure_trace.specs.declared.trace.Value.{Value as ValueValue};
ghost use Rattle.failure_trace.specs.declared.trace.Value.TheVariants as values;
ghost use Rattle.failure_trace.specs.declared.trace.Bound.{Bound as BoundValue};
ghost use Rattle.failure_trace.specs.TraceText.{EndsPart, IsValue, BeginsBound};

use crate::{Bound, Value};
use decl_text::{Kind, Token, quoted, token_at};
use std::alloc::Global;
use std::str;
use term_core::{Memory, Text};
use time_line::read_mark;

/// The longest name, in bytes.
const LONGEST_NAME: usize = 64;

// A value at the front of bytes, and how many of them it has.
#[derive(Drop)]
struct ValueFront {
    value: Value,
    len: usize,
}

/// A binding at the front of bytes, and how many of them it has.
#[derive(Drop)]
pub(crate) struct BoundFront {
    pub bound: Bound,
    pub len: usize,
}

/// How many bytes the name has with which the bytes begin, if they begin with one.
pub(crate) fn name_len(bytes: &[u8]) -> Option<usize>
    ensures name { IfSome result (λ len. IsName (take len bytes.now)) }
    ensures within { IfSome result (λ len. len ≤ length bytes.now) }
    ensures whole { IfSome result (λ len. EndsWord (drop len bytes.now)) }
    ensures none { IfNone result ((name rest : List ℕ) → IsName name → EndsWord rest
        → bytes.now ≢ name ++ rest) }
{
    let Some(len) = front_len(bytes, Kind::Name) else {
        return None;
    };
    if !may_be_name(&bytes[..len]) {
        return None;
    }
    Some(len)
}

// How many bytes the token of this kind has with which the bytes begin, if they begin with one.
fn front_len(bytes: &[u8], kind: Kind) -> Option<usize>
    ensures front { IfSome result (λ len. IsSpelled kind (take len bytes.now) (drop len bytes.now)) }
    ensures within { IfSome result (λ len. len ≤ length bytes.now) }
    ensures none { IfNone result ((spelled rest : List ℕ) → IsSpelled kind spelled rest
        → bytes.now ≢ spelled ++ rest) }
{
    let Ok(token) = token_at(bytes, 0) else {
        return None;
    };
    if token.kind != kind {
        return None;
    }
    Some(token.end)
}

// Whether a word is short, and no word of the format.
fn may_be_name(word: &[u8]) -> bool
    ensures { IsTrue result ↔ ((length word.now ≤ 64) × (word.now ≢ codes "exists")) }
{
    word.len() <= LONGEST_NAME && word != b"exists".as_slice()
}

/// A name as a text.
pub(crate) fn name_text(alloc: Global, name: &[u8]) -> Result<Text, Memory>
    requires { IsName name.now }
    ensures { IfOk result (λ text. text ≡ name.now) }
{
    match str::from_utf8(name) {
        Ok(text) => Text::from_str(alloc, text),
        Err(_) => unreachable!(),
    }
}

/// Whether a space follows, or nothing.
pub(crate) fn ends_part(bytes: &[u8]) -> bool
    ensures { IsTrue result ↔ EndsPart bytes.now }
{
    match bytes {
        [] => true,
        [first, ..] => *first == b' ',
    }
}

/// The binding with which the bytes begin, if they begin with one that ends there.
pub(crate) fn bound_of(alloc: Global, bytes: &[u8]) -> Result<Option<BoundFront>, Memory>
    ensures some { IfOk result (λ found. IfSome found (λ front.
        BeginsBound bytes.now front.bound (drop front.len bytes.now))) }
    ensures within { IfOk result (λ found. IfSome found (λ front. front.len ≤ length bytes.now)) }
    ensures none { IfOk result (λ found. IfNone found ((bound : BoundValue) (rest : List ℕ)
        → ¬ (BeginsBound bytes.now bound rest))) }
{
    let Some(len) = name_len(bytes) else {
        return Ok(None);
    };
    let Some(after) = after_equals(&bytes[len..]) else {
        return Ok(None);
    };
    let Some(front) = value_of(alloc, after)? else {
        return Ok(None);
    };
    let name = name_text(alloc, &bytes[..len])?;
    let bound = Bound {
        name,
        value: front.value,
    };
    Ok(Some(BoundFront {
        bound,
        len: len + 1 + front.len,
    }))
}

// What follows the sign `=`, if the bytes begin with it.
fn after_equals(bytes: &[u8]) -> Option<&[u8]>
    ensures found { IfSome result (λ after. bytes.now ≡ 61 ∷ after.now) }
    ensures none { IfNone result ((after : List ℕ) → bytes.now ≢ 61 ∷ after) }
{
    match bytes {
        [b'=', after @ ..] => Some(after),
        _ => None,
    }
}

// The value with which the bytes begin, if they begin with one that ends there.
fn value_of(alloc: Global, bytes: &[u8]) -> Result<Option<ValueFront>, Memory>
    ensures value { IfOk result (λ found. IfSome found (λ front.
        IsValue (take front.len bytes.now) front.value)) }
    ensures within { IfOk result (λ found. IfSome found (λ front. front.len ≤ length bytes.now)) }
    ensures whole { IfOk result (λ found. IfSome found (λ front.
        EndsPart (drop front.len bytes.now))) }
    ensures none { IfOk result (λ found. IfNone found ((text rest : List ℕ) (value : ValueValue)
        → IsValue text value → EndsPart rest → bytes.now ≢ text ++ rest)) }
{
    if let Some(front) = quoted_value(alloc, bytes)? {
        return Ok(Some(front));
    }
    Ok(mark_value(bytes))
}

// The value in quotes with which the bytes begin, if they begin with one that ends there.
fn quoted_value(alloc: Global, bytes: &[u8]) -> Result<Option<ValueFront>, Memory>
    ensures value { IfOk result (λ found. IfSome found (λ front.
        IsValue (take front.len bytes.now) front.value)) }
    ensures within { IfOk result (λ found. IfSome found (λ front. front.len ≤ length bytes.now)) }
    ensures whole { IfOk result (λ found. IfSome found (λ front.
        EndsPart (drop front.len bytes.now))) }
    ensures none { IfOk result (λ found. IfNone found ((text rest constant : List ℕ)
        → IsQuoted text constant → EndsPart rest → bytes.now ≢ text ++ rest)) }
{
    let Some(len) = front_len(bytes, Kind::Quoted) else {
        return Ok(None);
    };
    if !ends_part(&bytes[len..]) {
        return Ok(None);
    }
    let token = Token {
        kind: Kind::Quoted,
        start: 0,
        end: len,
    };
    let text = quoted(alloc, bytes, &token)?;
    Ok(Some(ValueFront {
        value: Value::Const(text),
        len,
    }))
}

// The unknown with whose mark the bytes begin, if they begin with one that ends there.
fn mark_value(bytes: &[u8]) -> Option<ValueFront>
    ensures value { IfSome result (λ front. IsValue (take front.len bytes.now) front.value) }
    ensures within { IfSome result (λ front. front.len ≤ length bytes.now) }
    ensures whole { IfSome result (λ front. EndsPart (drop front.len bytes.now)) }
    ensures none { IfNone result ((text rest : List ℕ) (number : ℕ)
        → IsValue text (values.Null number) → EndsPart rest → bytes.now ≢ text ++ rest) }
{
    let len = part_len(bytes);
    let Some(number) = read_mark(&bytes[..len]) else {
        return None;
    };
    Some(ValueFront {
        value: Value::Null(number),
        len,
    })
}

// How many bytes stand before the first space, or before the end.
fn part_len(bytes: &[u8]) -> usize
    ensures within { result ≤ length bytes.now }
    ensures part { All (λ b. b ≢ 32) (take result bytes.now) }
    ensures whole { EndsPart (drop result bytes.now) }
{
    let mut len = 0;
    while len < bytes.len() && bytes[len] != b' ' {
        len += 1;
    }
    len
}
