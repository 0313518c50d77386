//! The files of a solved exchange.

ghost use Rattle.std.specs.Prelude.{◌≡◌, map, All, IfOk};
ghost use Rattle.rule_core.specs.Names.{IsName};
ghost use Rattle.rule_core.specs.Validity.{IsRelation};
ghost use Rattle.temporal_csv.specs.Stored.{AreNumbered, IsAsWideAs, header_of, stamped_row};
ghost use Rattle.exchange_cli.specs.Answers.{answer_relation};
ghost use Rattle.exchange_cli.specs.Target.{IsTableFile, TargetTable};
ghost use Rattle.exchange_cli.specs.Files.{IsVerdict};
ghost use Rattle.exchange_cli.specs.Endings.{solved};

use crate::file::FileOut;
use crate::file_names::{name_answers, name_table, name_verdict};
use rule_core::{Query, Relation};
use shelf_core::Bytes;
use std::alloc::Global;
use temporal_csv::{RowSource, write_table};
use term_core::{Items, Memory, Text};

/// The file of a target table with these rows.
pub fn table_file<R: RowSource>(
    alloc: Global,
    target: &str,
    relation: &Relation,
    rows: &R,
) -> Result<FileOut, Memory>
    requires valid { IsRelation relation.now }
    requires widths { All (IsAsWideAs (header_of relation.now.columns)) (R.rows rows.now) }
    requires numbers { All AreNumbered (R.rows rows.now) }
    ensures { IfOk result (λ file. (table : TargetTable)
        → R.rows rows.now ≡ map stamped_row table → IsTableFile target.now relation.now file table) }
{
    let header = header_texts(alloc, &relation.columns)?;
    let bytes = write_table(alloc, &header, rows)?;
    Ok(FileOut {
        name: name_table(alloc, target, &relation.name)?,
        bytes: Bytes::from_vec(bytes.into_vec()),
    })
}

/// The file of the answers of a query, with these rows.
pub fn answer_file<R: RowSource>(
    alloc: Global,
    target: &str,
    query: &Query,
    rows: &R,
) -> Result<FileOut, Memory>
    requires names { All IsName query.now.head }
    requires widths { All (IsAsWideAs (header_of query.now.head)) (R.rows rows.now) }
    requires numbers { All AreNumbered (R.rows rows.now) }
    ensures { IfOk result (λ file. (table : TargetTable) → R.rows rows.now ≡ map stamped_row table
        → IsTableFile target.now (answer_relation query.now) file table) }
{
    let header = header_texts(alloc, &query.head)?;
    let bytes = write_table(alloc, &header, rows)?;
    Ok(FileOut {
        name: name_answers(alloc, target, &query.name)?,
        bytes: Bytes::from_vec(bytes.into_vec()),
    })
}

// The columns, and then `start` and `end`.
fn header_texts(alloc: Global, columns: &Items<Text>) -> Result<Items<Text>, Memory>
    ensures { IfOk result (λ header. header ≡ header_of columns.now) }
{
    let mut header = Items::new(alloc);
    for column in columns.as_slice() {
        header.push(Text::from_str(alloc, column.as_str())?)?;
    }
    header.push(Text::from_str(alloc, "start")?)?;
    header.push(Text::from_str(alloc, "end")?)?;
    Ok(header)
}

/// What the verdict of a solved exchange holds.
pub const SOLVED: &[u8] = b"solved\n";

/// The verdict of a solved exchange.
pub fn verdict(alloc: Global, target: &str) -> Result<FileOut, Memory>
    ensures { IfOk result (IsVerdict target.now solved) }
{
    Ok(FileOut {
        name: name_verdict(alloc, target)?,
        bytes: Bytes::from_vec(SOLVED.to_vec(alloc)?),
    })
}
