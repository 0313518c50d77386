//! The target at one instant, as files: the rows that hold there, without their spans.

ghost use Rattle.std.specs.Prelude.{◌≡◌, [], ◌∷◌, ◌++◌, ◌+◌, ◌<◌, ◌-◌, ◌^◌, ◌⊎◌, All, AllPairs, IfOk, length, map};
ghost use Rattle.std.specs.declared.cmp.Ordering.TheVariants.{Less};
ghost use Rattle.term_core.specs.Order.{unknown_cmp};
ghost use Rattle.rule_core.specs.Snapshot.{snapshot_at};
ghost use Rattle.rule_core.specs.Validity.{IsRelation};
ghost use Rattle.temporal_csv.specs.Stored.{AreNumbered, IsAsWideAs, bare_row};
ghost use Rattle.exchange_engine.specs.Loading.{AreTablesOf, cell_count};
ghost use Rattle.exchange_engine.specs.Solved.{AreTargetTables, AreWithinPool, IsTermWithin};
ghost use Rattle.exchange_cli.specs.Certificate.{IsUnsolved};
ghost use Rattle.exchange_cli.specs.Exchanged.{IsLoadedFrom, IsSolvedFrom};
ghost use Rattle.exchange_cli.specs.Inputs.{Inputs as InputsValue};
ghost use Rattle.exchange_cli.specs.Product.{IsShownTarget};
ghost use Rattle.exchange_cli.specs.Rendering.{stored_table};
ghost use Rattle.exchange_cli.specs.Snapshot.{AreBareFiles, BareTable, IsBareFile, row_count, tables_at};
ghost use Rattle.exchange_cli.specs.Steps.{read_of};

use crate::ending::Finding;
use crate::file::FileOut;
use crate::file_names::name_table;
use crate::inputs::Inputs;
use crate::laws::{a_given_trace_refutes, a_target_is_shown_at_each_instant};
use crate::printing::printed_line;
use crate::product::Product;
use crate::refuting::refute;
use crate::rendering::stored_cells;
use crate::solving::{exchanged, load_inputs};
use crate::storing::verdict;
use coalescer::Stamped;
use exchange_engine::{Loaded, Outcome, Solved};
use rule_core::Relation;
use shelf_core::Bytes;
use std::alloc::Global;
use std::marker::Brand;
use std::sync::ledger::Blank;
use temporal_csv::{OutRow, write_table};
use term_core::{Items, Memory, Pool, Unknown};

/// What `snapshot` makes: the files of a target at the instant, and what is printed of them; or a certificate, where some instant has
/// no solution.
pub fn show(alloc: Global, instant: i64, out: &str, inputs: Inputs) -> Result<Product, Memory>
    requires tables { AreTablesOf inputs.mapping.rules.sources inputs.tables }
    requires few { length inputs.mapping.pool + cell_count inputs.tables < 2 ^ 32 - 1 }
    ensures { IfOk result (λ product.
        IsShownTarget (read_of inputs) instant out.now product ⊎ IsUnsolved (read_of inputs) out.now product) }
{
    a_given_trace_refutes();
    let loaded = load_inputs(alloc, inputs)?;
    let outcome = exchanged::<Brand>(alloc, &loaded, Blank::new(1))?;
    match outcome {
        Outcome::Solved(solved) => show_solved(alloc, instant, out, &loaded, &solved),
        Outcome::Failed(trace) => refute(alloc, out, &trace),
    }
}

// The files of a target at the instant, and what is printed of them.
fn show_solved(
    alloc: Global,
    instant: i64,
    out: &str,
    loaded: &Loaded,
    solved: &Solved,
) -> Result<Product, Memory>
    requires { IsSolvedFrom loaded.now solved.now }
    ensures { IfOk result (λ product. (inputs : InputsValue) → IsLoadedFrom inputs loaded.now
        → IsShownTarget inputs instant out.now product) }
{
    a_target_is_shown_at_each_instant();
    let shown = shown_tables(alloc, loaded, solved, instant, out)?;
    let finding = Finding::Shown {
        instant,
        rows: shown.rows,
    };
    Ok(Product {
        files: with_last(shown.files, verdict(alloc, out)?)?,
        line: printed_line(alloc, finding)?,
        finding,
    })
}

// The files, and one behind them.
fn with_last(files: Items<FileOut>, last: FileOut) -> Result<Items<FileOut>, Memory>
    ensures { IfOk result (λ all. all ≡ files ++ last ∷ []) }
{
    let mut files = files;
    files.push(last)?;
    Ok(files)
}

// The tables of a target at an instant as files, and how many rows they have together.
#[derive(Drop)]
struct ShownTables {
    files: Items<FileOut>,
    rows: usize,
}

// The tables at the instant, in the order of the relations.
fn shown_tables(
    alloc: Global,
    loaded: &Loaded,
    solved: &Solved,
    instant: i64,
    out: &str,
) -> Result<ShownTables, Memory>
    requires tables { AreTargetTables loaded.now.rules.targets solved.now.tables }
    requires within { AreWithinPool loaded.now solved.now.tables }
    requires ascending { AllPairs (λ u w. unknown_cmp u w ≡ Less) solved.now.nulls }
    ensures each { IfOk result (λ shown. AreBareFiles out.now loaded.now.rules.targets shown.files
        (tables_at instant (map (stored_table loaded.now.pool solved.now.nulls) solved.now.tables))) }
    ensures rows { IfOk result (λ shown. shown.rows
        ≡ row_count (tables_at instant (map (stored_table loaded.now.pool solved.now.nulls) solved.now.tables))) }
{
    loaded.rules.is_kept();
    let nulls = solved.nulls.as_slice();
    let relations = loaded.rules.targets().as_slice();
    let tables = solved.tables.as_slice();
    let mut files = Items::new(alloc);
    let mut count = 0;
    for (place, table) in tables.iter().enumerate() {
        let rows = rows_at(alloc, &loaded.pool, nulls, table.as_slice(), instant)?;
        files.push(bare_file(alloc, out, &relations[place], &rows)?)?;
        count = added(count, rows.len())?;
    }
    Ok(ShownTables { files, rows: count })
}

// The sum of two counts of what is in memory.
fn added(a: usize, b: usize) -> Result<usize, Memory>
    ensures { IfOk result (λ sum. sum ≡ a + b) }
{
    a.checked_add(b).ok_or(Memory)
}

// The file of a target table with these rows, which have no spans.
fn bare_file(
    alloc: Global,
    out: &str,
    relation: &Relation,
    rows: &Items<OutRow<'_>>,
) -> Result<FileOut, Memory>
    requires valid { IsRelation relation.now }
    requires widths { All (IsAsWideAs relation.now.columns) rows.now }
    requires numbers { All AreNumbered rows.now }
    ensures { IfOk result (λ file. (table : BareTable)
        → rows.now ≡ map bare_row table → IsBareFile out.now relation.now file table) }
{
    let bytes = write_table(alloc, &relation.columns, rows)?;
    Ok(FileOut {
        name: name_table(alloc, out, &relation.name)?,
        bytes: Bytes::from_vec(bytes.into_vec()),
    })
}

// The rows of a table that hold at the instant, as they are stored. A coalesced table has each of them once, in order.
fn rows_at<'a>(
    alloc: Global,
    pool: &'a Pool,
    nulls: &[Unknown],
    table: &[Stamped],
    instant: i64,
) -> Result<Items<OutRow<'a>>, Memory>
    requires within { All (λ e. All (IsTermWithin (length pool.now)) e.row) table.now }
    requires ascending { AllPairs (λ u w. unknown_cmp u w ≡ Less) nulls.now }
    ensures { IfOk result (λ rows.
        rows ≡ map bare_row (snapshot_at (stored_table pool.now nulls.now table.now) instant)) }
{
    let mut rows = Items::new(alloc);
    let mut near = 0;
    for entry in table {
        if entry.span.has(instant) {
            let cells = stored_cells(alloc, pool, nulls, &mut near, entry.row.as_slice())?;
            rows.push(OutRow { cells, span: None })?;
        }
    }
    Ok(rows)
}
