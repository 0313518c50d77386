//! Tests on names.

ghost use Rattle.std.specs.Prelude.{◌≢◌, ◌↔◌, All, IsSomeAnd, IsTrue, slice_get};
ghost use Rattle.rule_core.specs.Names.{IsLetter, IsNameByte, IsName};
ghost use Rattle.rule_core.specs.Validity.{AreDistinct};

use crate::limits::LONGEST_NAME;
use term_core::Text;

/// Whether a text may be a name.
pub fn is_name(text: &Text) -> bool
    ensures { IsTrue result ↔ IsName text.now }
{
    let bytes = text.as_bytes();
    starts_with_letter(bytes)
        && are_name_bytes(bytes)
        && bytes.len() <= LONGEST_NAME
        && bytes != b"exists".as_slice()
}

/// Whether all texts may be names.
pub fn are_names(texts: &[Text]) -> bool
    ensures { IsTrue result ↔ All IsName texts.now }
{
    texts.iter().all(|text| is_name(text))
}

/// Whether no two texts are equal.
pub fn are_distinct(texts: &[Text]) -> bool
    ensures { IsTrue result ↔ AreDistinct texts.now }
{
    for (at, text) in texts.iter().enumerate() {
        if !is_new(&texts[..at], text) {
            return false;
        }
    }
    true
}

// Whether the text is none of these.
fn is_new(texts: &[Text], text: &Text) -> bool
    ensures { IsTrue result ↔ All (λ other. other ≢ text.now) texts.now }
{
    texts.iter().all(|other| other != text)
}

// Whether there is a first byte, and it is a letter.
fn starts_with_letter(bytes: &[u8]) -> bool
    ensures { IsTrue result ↔ IsSomeAnd (slice_get bytes.now 0) IsLetter }
{
    match bytes.first() {
        Some(byte) => is_letter(*byte),
        None => false,
    }
}

// Whether all bytes may stand in a name.
fn are_name_bytes(bytes: &[u8]) -> bool
    ensures { IsTrue result ↔ All IsNameByte bytes.now }
{
    bytes.iter().all(|byte| is_name_byte(*byte))
}

/// Whether a byte is a letter.
pub fn is_letter(byte: u8) -> bool
    ensures { IsTrue result ↔ IsLetter byte }
{
    matches!(byte, b'A'..=b'Z' | b'a'..=b'z')
}

/// Whether a byte may stand in a name.
pub fn is_name_byte(byte: u8) -> bool
    ensures { IsTrue result ↔ IsNameByte byte }
{
    is_letter(byte) || matches!(byte, b'0'..=b'9' | b'_')
}
