//! Pieces of a source as files: for each relation those that are its, with constants as their texts.

ghost use Rattle.std.specs.Prelude.{◌≡◌, ◌<◌, IfOk, length, map};
ghost use Rattle.fact_table.specs.Facts.{IsTable};
ghost use Rattle.temporal_csv.specs.Cells.{term_of};
ghost use Rattle.temporal_csv.specs.Stored.{stamped_row};
ghost use Rattle.exchange_cli.specs.Cutting.{AreAsWide, AreInPool, IsInPool};
ghost use Rattle.exchange_cli.specs.Pieces.{of_relation, piece_table, piece_tables, piece_term, piece_terms};
ghost use Rattle.exchange_cli.specs.Target.{AreTableFiles};

use crate::file::FileOut;
use crate::storing::table_file;
use exchange_engine::Loaded;
use fact_table::Fact;
use std::alloc::Global;
use temporal_csv::{Cell, OutRow};
use term_core::{ConstId, Items, Memory, Pool};

/// The files of the pieces of a source, a table for each relation, in their order.
pub fn piece_files(
    alloc: Global,
    loaded: &Loaded,
    pieces: &[Fact],
    out: &str,
) -> Result<Items<FileOut>, Memory>
    requires table { IsTable pieces.now }
    requires within { AreInPool (length loaded.now.pool) pieces.now }
    requires wide { AreAsWide loaded.now.rules.sources pieces.now }
    ensures { IfOk result (λ files. AreTableFiles out.now loaded.now.rules.sources files
        (piece_tables loaded.now.pool pieces.now 0 loaded.now.rules.sources)) }
{
    loaded.rules.is_kept();
    let relations = loaded.rules.sources().as_slice();
    let mut files = Items::new(alloc);
    for (place, relation) in relations.iter().enumerate() {
        let rows = piece_rows(alloc, &loaded.pool, facts_in(pieces, place))?;
        files.push(table_file(alloc, out, relation, &rows)?)?;
    }
    Ok(files)
}

// The pieces of a relation, which stand one after the other.
fn facts_in(pieces: &[Fact], relation: usize) -> &[Fact]
    requires { IsTable pieces.now }
    ensures { result.now ≡ of_relation relation pieces.now }
{
    let first = pieces.partition_point(|piece| (piece.relation as usize) < relation);
    let from = &pieces[first..];
    let count = from.partition_point(|piece| piece.relation as usize == relation);
    &from[..count]
}

// The rows of pieces as they are stored.
fn piece_rows<'a>(
    alloc: Global,
    pool: &'a Pool,
    pieces: &[Fact],
) -> Result<Items<OutRow<'a>>, Memory>
    requires { AreInPool (length pool.now) pieces.now }
    ensures { IfOk result (λ rows. rows ≡ map stamped_row (piece_table pool.now pieces.now)) }
{
    let mut rows = Items::new(alloc);
    rows.room(pieces.len())?;
    for piece in pieces {
        let cells = piece_cells(alloc, pool, piece.row.as_slice())?;
        let span = Some(piece.span);
        rows.push(OutRow { cells, span })?;
    }
    Ok(rows)
}

// The cells of a piece as they are stored.
fn piece_cells<'a>(
    alloc: Global,
    pool: &'a Pool,
    row: &[ConstId],
) -> Result<Items<Cell<'a>>, Memory>
    requires { IsInPool (length pool.now) row.now }
    ensures { IfOk result (λ cells. map term_of cells ≡ piece_terms pool.now row.now) }
{
    let mut cells = Items::new(alloc);
    cells.room(row.len())?;
    for id in row {
        cells.push(piece_cell(pool, *id))?;
    }
    Ok(cells)
}

// A constant by its text.
fn piece_cell(pool: &Pool, id: ConstId) -> Cell<'_>
    requires { id.0 < length pool.now }
    ensures { term_of result ≡ piece_term pool.now id }
{
    Cell::Const(pool.text(id))
}
