//! A data record: the cells of a row, and the texts of the ends of its span.

ghost use Rattle.std.specs.Prelude.{◌≡◌, ◌↔◌, ◌≤◌, length, take, All, IsUtf8, IsTrue, IsSome, IfOk, IfErr, IfSome, IfNone};
ghost use Rattle.csv.specs.Records.{fields_of};
ghost use Rattle.temporal_csv.specs.Table.{IsFact, HasFault, HasSpanFault, HasEndTexts, IsEndText, IsNoEndText, IfFault};

use crate::fact::RawFact;
use crate::fault::{TableCode, TableError};
use crate::fields::{field, has_width, is_utf8};
use csv::ByteRecord;
use std::alloc::Global;
use std::str;
use term_core::{Items, Memory, Text};
use time_line::laws::ordered_ends_have_an_instant;
use time_line::{Side, Span, read_end};

/// The fact of the data record with this number.
pub fn read_fact(
    alloc: Global,
    fields: &ByteRecord,
    width: usize,
    at: usize,
) -> Result<RawFact, TableError>
    ensures fact { IfOk result (IsFact width (fields_of fields.now)) }
    ensures place { IfFault result (λ fault. fault.at ≡ at) }
    ensures fault { IfFault result (λ fault. HasFault width (fields_of fields.now) fault.code) }
{
    if !has_width(fields, width) {
        return Err(TableError::new(TableCode::C3, at));
    }
    let start = field(fields, width);
    let stop = field(fields, fields.len() - 1);
    if !are_texts(start, stop) {
        return Err(TableError::new(TableCode::C1, at));
    }
    let found = read_cells(alloc, fields, width)?;
    let Some(cells) = found else {
        return Err(TableError::new(TableCode::C1, at));
    };
    match read_span(start, stop) {
        Ok(span) => Ok(RawFact { cells, span }),
        Err(code) => Err(TableError::new(code, at)),
    }
}

// Whether both are UTF-8.
fn are_texts(start: &[u8], stop: &[u8]) -> bool
    ensures { IsTrue result ↔ (IsUtf8 start.now × IsUtf8 stop.now) }
{
    is_utf8(start) && is_utf8(stop)
}

// The texts of the first fields, where each of them is UTF-8.
fn read_cells(
    alloc: Global,
    fields: &ByteRecord,
    width: usize,
) -> Result<Option<Items<Text>>, Memory>
    requires { width ≤ length (fields_of fields.now) }
    ensures cells { IfOk result (λ found.
        IfSome found (λ cells. cells ≡ take width (fields_of fields.now))) }
    ensures text { IfOk result (λ found.
        IsSome found ↔ All IsUtf8 (take width (fields_of fields.now))) }
{
    let mut cells = Items::new(alloc);
    cells.room(width)?;
    for i in 0..width {
        let Ok(text) = str::from_utf8(field(fields, i)) else {
            return Ok(None);
        };
        cells.push(Text::from_str(alloc, text)?)?;
    }
    Ok(Some(cells))
}

// The span with these texts of its ends, or their first fault.
fn read_span(start: &[u8], stop: &[u8]) -> Result<Span, TableCode>
    ensures span { IfOk result (HasEndTexts start.now stop.now) }
    ensures fault { IfErr result (HasSpanFault start.now stop.now) }
{
    let lo = end_of(start, Side::Start).ok_or(TableCode::C4)?;
    let hi = end_of(stop, Side::End).ok_or(TableCode::C5)?;
    ordered_ends_have_an_instant();
    Span::make(lo, hi).ok_or(TableCode::C6)
}

// The end within the limit that the text is.
fn end_of(text: &[u8], side: Side) -> Option<Option<i64>>
    ensures end { IfSome result (IsEndText side text.now) }
    ensures none { IfNone result (IsNoEndText side text.now) }
{
    match read_end(text, side) {
        Ok(end) => Some(end),
        Err(_) => None,
    }
}
