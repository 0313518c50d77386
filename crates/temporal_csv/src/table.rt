//! Reading of source tables: the records of `csv`, of which the first is the header and each other one a fact.

ghost use Rattle.std.specs.Prelude.{◌≡◌, ◌↔◌, ◌+◌, ◌<◌, ◌≤◌, ℕ, List, [], ◌∷◌, length, IsUtf8, IsTrue, IfOk, OnOk};
ghost use Rattle.csv.specs.Records.{fields_of};
ghost use Rattle.temporal_csv.specs.Stored.{header_of};
ghost use Rattle.temporal_csv.specs.Table.{IsTable, IsFirstFault, IfFault, IsFaultOfHeader, StopsAt, IsFact};
ghost use Rattle.temporal_csv.specs.TableReader.{HasRead, Continues};

use crate::data_record::read_fact;
use crate::fact::RawFact;
use crate::fault::{TableCode, TableError};
use crate::fields::{begins_with, field_is, has_width, is_utf8};
use csv::{ByteRecord, Reader, ReaderBuilder};
use std::alloc::Global;
use term_core::{Items, Memory, Text};

/// How many data records a table may have.
const MOST_RECORDS: usize = 1_000_000;

/// The facts of a source table with these columns, in the order of its records, or its first fault.
pub fn read_table(
    alloc: Global,
    bytes: &[u8],
    columns: &Items<Text>,
) -> Result<Items<RawFact>, TableError>
    ensures table { IfOk result (IsTable columns.now bytes.now) }
    ensures fault { IfFault result (IsFirstFault columns.now bytes.now) }
{
    if !is_utf8(bytes) {
        return Err(TableError::new(TableCode::C1, 0));
    }
    let mut reader = open(alloc, bytes);
    let mut fields = ByteRecord::new(alloc);
    read_header(&mut reader, &mut fields, columns)?;
    let mut facts = Items::new(alloc);
    while next_record(&mut reader, &mut fields)? {
        let fact = read_numbered(alloc, &fields, columns.len(), facts.len())?;
        facts.push(fact)?;
    }
    Ok(facts)
}

// A reader of the records of the bytes.
fn open(alloc: Global, bytes: &[u8]) -> Reader<&[u8]>
    ensures { HasRead bytes.now [] result }
{
    ReaderBuilder::new()
        .has_headers(false)
        .flexible(true)
        .from_reader(alloc, bytes)
}

// Reads the next record, and says whether there was one. No lengths are compared and a slice is always read, so that
// only memory can be wanting.
fn next_record(reader: &mut Reader<&[u8]>, fields: &mut ByteRecord) -> Result<bool, Memory>
    ensures { IfOk result (λ found. Continues reader.old reader.new found (fields_of fields.new)) }
{
    let Ok(found) = reader.read_byte_record(fields) else {
        return Err(Memory);
    };
    Ok(found)
}

// Reads the header, which is the first record.
fn read_header(
    reader: &mut Reader<&[u8]>,
    fields: &mut ByteRecord,
    columns: &Items<Text>,
) -> Result<(), TableError>
    ensures ok { OnOk result ((bytes : List ℕ)
        → HasRead bytes [] reader.old → HasRead bytes (header_of columns.now ∷ []) reader.new) }
    ensures fault { IfFault result (λ fault. (bytes : List ℕ)
        → IsUtf8 bytes → HasRead bytes [] reader.old → IsFaultOfHeader columns.now bytes fault) }
{
    if !next_record(reader, fields)? {
        return Err(TableError::new(TableCode::C2, 1));
    }
    if !is_header(fields, columns) {
        return Err(TableError::new(TableCode::C2, 1));
    }
    Ok(())
}

// Whether the record is the columns followed by `start` and `end`.
fn is_header(fields: &ByteRecord, columns: &Items<Text>) -> bool
    ensures { IsTrue result ↔ (fields_of fields.now ≡ header_of columns.now) }
{
    let width = columns.len();
    has_width(fields, width)
        && begins_with(fields, columns.as_slice())
        && field_is(fields, width, b"start")
        && field_is(fields, width + 1, b"end")
}

// The fact of a data record that follows so many facts.
fn read_numbered(
    alloc: Global,
    fields: &ByteRecord,
    width: usize,
    count: usize,
) -> Result<RawFact, TableError>
    requires { count ≤ MOST_RECORDS }
    ensures few { OnOk result (count < MOST_RECORDS) }
    ensures fact { IfOk result (IsFact width (fields_of fields.now)) }
    ensures place { IfFault result (λ fault. fault.at ≡ count + 2) }
    ensures fault { IfFault result
        (λ fault. StopsAt width count (fields_of fields.now) fault.code) }
{
    let at = count + 2;
    if count == MOST_RECORDS {
        return Err(TableError::new(TableCode::C7, at));
    }
    read_fact(alloc, fields, width, at)
}
