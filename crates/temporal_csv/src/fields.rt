//! The fields of a record.

ghost use Rattle.std.specs.Prelude.{◌≡◌, ◌↔◌, ◌+◌, ◌<◌, ◌≤◌, [], length, take, IsTrue, IsUtf8, slice_index_or};
ghost use Rattle.csv.specs.Records.{fields_of};

use csv::ByteRecord;
use std::str;
use term_core::Text;

/// Whether the record has the cells of a row so wide, and two fields more.
pub fn has_width(fields: &ByteRecord, width: usize) -> bool
    ensures { IsTrue result ↔ (length (fields_of fields.now) ≡ width + 2) }
{
    fields.len() >= 2 && fields.len() - 2 == width
}

/// Whether the first fields of the record are these texts.
pub fn begins_with(fields: &ByteRecord, texts: &[Text]) -> bool
    requires { length texts.now ≤ length (fields_of fields.now) }
    ensures { IsTrue result ↔ (take (length texts.now) (fields_of fields.now) ≡ texts.now) }
{
    for i in 0..texts.len() {
        if !field_is(fields, i, texts[i].as_bytes()) {
            return false;
        }
    }
    true
}

/// Whether the field at a place of the record is the text.
pub fn field_is(fields: &ByteRecord, place: usize, text: &[u8]) -> bool
    requires { place < length (fields_of fields.now) }
    ensures { IsTrue result ↔ (slice_index_or (fields_of fields.now) place [] ≡ text.now) }
{
    field(fields, place) == text
}

/// The field at a place of the record.
pub fn field(fields: &ByteRecord, place: usize) -> &[u8]
    requires { place < length (fields_of fields.now) }
    ensures { result.now ≡ slice_index_or (fields_of fields.now) place [] }
{
    match fields.get(place) {
        Some(field) => field,
        None => unreachable!(),
    }
}

/// Whether bytes are a text.
pub fn is_utf8(bytes: &[u8]) -> bool
    ensures { IsTrue result ↔ IsUtf8 bytes.now }
{
    str::from_utf8(bytes).is_ok()
}
