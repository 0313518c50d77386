//! Tables as they are stored: a header and the rows, as records of csv's default dialect.

ghost use Rattle.std.specs.Prelude.{◌≡◌, ◌<◌, ℕ, List, [], ◌∷◌, ◌++◌, length, map, All, IfOk, OnOk};
ghost use Rattle.csv.specs.Records.{fields_of, partial_of};
ghost use Rattle.csv.specs.Writing.{default_writer, row_text};
ghost use Rattle.rule_core.specs.Terms.{StampedOf, TermOf};
ghost use Rattle.temporal_csv.specs.Cells.{term_of};
ghost use Rattle.temporal_csv.specs.Stored.{AreNumbered, BeginsWithLetter, HasStorableEnds, IsAsWideAs, IsStored, IsStoredBare, bare_row, cell_text, end_texts, header_of, stamped_row, table_text};
ghost use Rattle.temporal_csv.specs.TableWriter.{FitsWord, HasWritten, IsBetween, row_in, written_text};

use crate::cell::{Cell, append_cell, own_text};
use crate::laws::stored_tables_are_read_back;
use crate::row_source::RowSource;
use csv::{ByteRecord, Writer, WriterBuilder};
use std::alloc::Global;
use term_core::{Items, Memory, Text};
use time_line::{Side, Span, write_end};

/// The bytes of a table with this header and these rows, which mean the header and the rows again, as a table with
/// spans or as one without.
pub fn write_table<R: RowSource>(
    alloc: Global,
    header: &Items<Text>,
    rows: &R,
) -> Result<Items<u8>, Memory>
    requires some { 0 < length header.now }
    requires letters { All BeginsWithLetter header.now }
    requires widths { All (IsAsWideAs header.now) (R.rows rows.now) }
    requires numbers { All AreNumbered (R.rows rows.now) }
    ensures text { IfOk result (λ bytes. bytes ≡ table_text header.now (R.rows rows.now)) }
    ensures stored { IfOk result (λ bytes. (columns : List (List ℕ)) (table : List (StampedOf (List (TermOf (List ℕ)))))
        → header.now ≡ header_of columns → R.rows rows.now ≡ map stamped_row table
        → IsStored bytes (header_of columns) (map stamped_row table)) }
    ensures bare { IfOk result (λ bytes. (table : List (List (TermOf (List ℕ))))
        → R.rows rows.now ≡ map bare_row table → IsStoredBare bytes header.now (map bare_row table)) }
{
    // Flexible, so that no lengths are compared again, and only memory can be wanting.
    let mut out = WriterBuilder::new()
        .flexible(true)
        .from_writer(Vec::new(alloc));
    let mut scratch = Scratch::new(alloc);
    write_header(&mut out, &mut scratch.fields, header.as_slice())?;
    for row in 0..rows.count() {
        write_row(&mut out, &mut scratch, rows, row)?;
    }
    stored_tables_are_read_back();
    finish(out)
}

// What each row uses again, so that no cell takes memory of its own, and what the rows' source noted with the last cell.
#[derive(Drop)]
struct Scratch {
    fields: ByteRecord,
    text: String,
    near: usize,
}

impl Scratch {
    fn new(alloc: Global) -> Self {
        Scratch {
            fields: ByteRecord::new(alloc),
            text: String::new(alloc),
            near: 0,
        }
    }
}

fn write_header(
    out: &mut Writer<Vec<u8>>,
    fields: &mut ByteRecord,
    header: &[Text],
) -> Result<(), Memory>
    requires { IsBetween out.old }
    ensures between { OnOk result (IsBetween out.new) }
    ensures text { OnOk result (written_text out.new
        ≡ written_text out.old ++ row_text default_writer header.now) }
{
    fields.clear();
    for text in header {
        fields.push_field(text.as_bytes())?;
    }
    write_record(out, fields)
}

// Writes the row at a place.
fn write_row<R: RowSource>(
    out: &mut Writer<Vec<u8>>,
    scratch: &mut Scratch,
    rows: &R,
    row: usize,
) -> Result<(), Memory>
    requires between { IsBetween out.old }
    requires within { row < length (R.rows rows.now) }
    ensures { OnOk result (HasWritten (row_in (R.rows rows.now) row) out.old out.new) }
{
    scratch.fields.clear();
    push_cells(scratch, rows, row)?;
    push_ends(&mut scratch.fields, &rows.span(row))?;
    write_record(out, &scratch.fields)
}

// Writes the fields as the next record.
fn write_record(out: &mut Writer<Vec<u8>>, fields: &ByteRecord) -> Result<(), Memory>
    requires { IsBetween out.old }
    ensures between { OnOk result (IsBetween out.new) }
    ensures text { OnOk result (written_text out.new
        ≡ written_text out.old ++ row_text default_writer (fields_of fields.now)) }
{
    match out.write_byte_record(fields) {
        Ok(()) => Ok(()),
        Err(_) => Err(Memory),
    }
}

// Adds the text of each cell of the row at a place.
fn push_cells<R: RowSource>(scratch: &mut Scratch, rows: &R, row: usize) -> Result<(), Memory>
    requires whole { partial_of scratch.old.fields ≡ [] }
    requires within { row < length (R.rows rows.now) }
    ensures all { OnOk result (fields_of scratch.new.fields
        ≡ fields_of scratch.old.fields ++ map cell_text (row_in (R.rows rows.now) row).cells) }
    ensures whole { OnOk result (partial_of scratch.new.fields ≡ []) }
    ensures fits { OnOk result (All FitsWord (row_in (R.rows rows.now) row).cells) }
{
    for column in 0..rows.width(row) {
        let cell = rows.cell(row, column, &mut scratch.near);
        push_cell(&mut scratch.fields, &mut scratch.text, &cell)?;
    }
    Ok(())
}

// Adds the text of a cell.
fn push_cell(fields: &mut ByteRecord, text: &mut String, cell: &Cell<'_>) -> Result<(), Memory>
    requires { partial_of fields.old ≡ [] }
    ensures one { OnOk result (fields_of fields.new
        ≡ fields_of fields.old ++ cell_text (term_of cell.now) ∷ []) }
    ensures whole { OnOk result (partial_of fields.new ≡ []) }
    ensures fits { OnOk result (FitsWord (term_of cell.now)) }
{
    if let Some(own) = own_text(cell) {
        fields.push_field(own.as_bytes())?;
        return Ok(());
    }
    text.clear();
    append_cell(text, cell)?;
    fields.push_field(text.as_bytes())?;
    Ok(())
}

// Adds the two ends of a span, where there is one.
fn push_ends(fields: &mut ByteRecord, span: &Option<Span>) -> Result<(), Memory>
    requires { partial_of fields.old ≡ [] }
    ensures both { OnOk result (fields_of fields.new
        ≡ fields_of fields.old ++ end_texts span.now) }
    ensures ends { HasStorableEnds span.now }
{
    let Some(span) = span else {
        return Ok(());
    };
    let start = write_end(span.lo(), Side::Start);
    let stop = write_end(span.hi(), Side::End);
    fields.push_field(start.as_bytes())?;
    fields.push_field(stop.as_bytes())?;
    Ok(())
}

// The bytes that were written.
fn finish(out: Writer<Vec<u8>>) -> Result<Items<u8>, Memory>
    ensures { IfOk result (λ bytes. bytes ≡ written_text out) }
{
    match out.into_inner() {
        Ok(bytes) => Ok(Items::from_vec(bytes)),
        Err(_) => Err(Memory),
    }
}
