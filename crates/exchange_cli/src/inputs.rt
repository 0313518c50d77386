//! What a command reads: the mapping, and the facts of its source tables.

ghost use Rattle.std.specs.Prelude.{◌≡◌, ◌+◌, ◌-◌, ◌^◌, ◌<◌, ◌≤◌, All, IfOk, IfErr, length, sum_by};
ghost use Rattle.rule_core.specs.Validity.{IsRelation};
ghost use Rattle.exchange_engine.specs.Loading.{AreTablesOf, cell_count};
ghost use Rattle.exchange_cli.specs.Commands.{command_of};
ghost use Rattle.exchange_cli.specs.Names.{table_name};
ghost use Rattle.exchange_cli.specs.Work.{RefusesMapping, RefusesTable, mapping_limit};
ghost use Rattle.exchange_cli.specs.Run.{device};
ghost use Rattle.exchange_cli.specs.Steps.{Keeps, AnswersMapping, AnswersTable, AnswersTables, AnswersAll, FailsToRead, StopsInTables, StopsInOrigin, StopsEarly, AnswersOrigin, HasItsTrace, read_of};

use crate::command::Command;
use crate::ending::Ending;
use crate::fetching::fetch;
use crate::file_names::name_table;
use crate::traces::fetch_trace;
use decl_text::ReadError;
use failure_trace::Trace;
use mapping_core::{Mapping, read_mapping};
use rule_core::Relation;
use shelf_core::Shelf;
use std::alloc::Global;
use temporal_csv::{RawFact, TableError, read_table};
use term_core::{Items, Text};

/// The most bytes that a mapping may have.
pub const MAPPING_LIMIT: usize = 1_048_576;

/// The most bytes that all source tables together may have.
pub const TABLES_LIMIT: usize = 67_108_864;

// A mapping, and the facts of each source table in the order of the relations.
#[derive(Drop)]
struct Source {
    mapping: Mapping,
    tables: Items<Items<RawFact>>,
}

/// A mapping, the facts of each source table in the order of the relations, and a trace, if the command names one.
#[derive(Drop)]
pub struct Inputs {
    pub mapping: Mapping,
    pub tables: Items<Items<RawFact>>,
    pub trace: Option<Trace>,
}

/// Reads all that the command needs, or says how the run ends.
pub fn read_inputs<S: Shelf>(
    alloc: Global,
    shelf: &mut S,
    command: &Command<'_>,
) -> Result<Inputs, Ending>
    ensures keeps { Keeps (device (S.holds shelf.old) (S.faults shelf.old))
        (device (S.holds shelf.new) (S.faults shelf.new)) }
    ensures reads { IfOk result (λ inputs.
        AnswersAll (S.holds shelf.old) (command_of command.now) (read_of inputs)) }
    ensures tables { IfOk result (λ inputs.
        AreTablesOf inputs.mapping.rules.sources inputs.tables) }
    ensures few { IfOk result (λ inputs.
        length inputs.mapping.pool + cell_count inputs.tables < 2 ^ 32 - 1) }
    ensures trace { IfOk result (λ inputs. HasItsTrace (command_of command.now) inputs.trace) }
    ensures stops { IfErr result (StopsEarly (device (S.holds shelf.old) (S.faults shelf.old))
        (device (S.holds shelf.new) (S.faults shelf.new)) (command_of command.now)) }
{
    let Source { mapping, tables } = read_source(alloc, shelf, command)?;
    let trace = fetch_trace(alloc, shelf, command)?;
    Ok(Inputs {
        mapping,
        tables,
        trace,
    })
}

// Reads the mapping, and then the tables of its source.
fn read_source<S: Shelf>(
    alloc: Global,
    shelf: &mut S,
    command: &Command<'_>,
) -> Result<Source, Ending>
    ensures keeps { Keeps (device (S.holds shelf.old) (S.faults shelf.old))
        (device (S.holds shelf.new) (S.faults shelf.new)) }
    ensures reads { IfOk result (λ source.
        AnswersOrigin (S.holds shelf.old) (command_of command.now) source.mapping source.tables) }
    ensures tables { IfOk result (λ source.
        AreTablesOf source.mapping.rules.sources source.tables) }
    ensures few { IfOk result (λ source.
        length source.mapping.pool + cell_count source.tables < 2 ^ 32 - 1) }
    ensures stops { IfErr result (StopsInOrigin (device (S.holds shelf.old) (S.faults shelf.old))
        (device (S.holds shelf.new) (S.faults shelf.new)) (command_of command.now)) }
{
    let origin = command.origin();
    let mapping = fetch_mapping(alloc, shelf, origin.mapping)?;
    let tables = fetch_tables(alloc, shelf, origin.source, &mapping)?;
    Ok(Source { mapping, tables })
}

// The mapping.
fn fetch_mapping<S: Shelf>(alloc: Global, shelf: &mut S, name: &str) -> Result<Mapping, Ending>
    ensures keeps { Keeps (device (S.holds shelf.old) (S.faults shelf.old))
        (device (S.holds shelf.new) (S.faults shelf.new)) }
    ensures reads { IfOk result (AnswersMapping (S.holds shelf.old) name.now mapping_limit) }
    ensures few { IfOk result (λ mapping. length mapping.pool ≤ MAPPING_LIMIT) }
    ensures stops { IfErr result (FailsToRead (device (S.holds shelf.old) (S.faults shelf.old))
        (device (S.holds shelf.new) (S.faults shelf.new)) name.now mapping_limit RefusesMapping) }
{
    let name = Text::from_str(alloc, name)?;
    let bytes = fetch(alloc, shelf, &name, MAPPING_LIMIT)?;
    match read_mapping(alloc, bytes.as_slice()) {
        Ok(mapping) => Ok(mapping),
        Err(ReadError::Fault(fault)) => Err(Ending::Mapping(fault)),
        Err(ReadError::Memory) => Err(Ending::Memory),
    }
}

// The facts of each source table, in the order of the relations. Each fetch may take what is left of the limit.
fn fetch_tables<S: Shelf>(
    alloc: Global,
    shelf: &mut S,
    source: &str,
    mapping: &Mapping,
) -> Result<Items<Items<RawFact>>, Ending>
    ensures keeps { Keeps (device (S.holds shelf.old) (S.faults shelf.old))
        (device (S.holds shelf.new) (S.faults shelf.new)) }
    ensures reads { IfOk result
        (AnswersTables (S.holds shelf.old) source.now mapping.now.rules.sources) }
    ensures tables { IfOk result (λ tables. AreTablesOf mapping.now.rules.sources tables) }
    ensures few { IfOk result (λ tables. cell_count tables ≤ 1_024_000_000) }
    ensures stops { IfErr result (StopsInTables (device (S.holds shelf.old) (S.faults shelf.old))
        (device (S.holds shelf.new) (S.faults shelf.new)) source.now mapping.now.rules.sources) }
{
    mapping.rules.is_kept();
    let mut left = TABLES_LIMIT;
    let mut tables = Items::new(alloc);
    for relation in mapping.rules.sources().as_slice() {
        let (facts, len) = fetch_table(alloc, shelf, source, relation, left)?;
        left -= len;
        tables.push(facts)?;
    }
    Ok(tables)
}

// The facts of a source table, and how many bytes it has.
fn fetch_table<S: Shelf>(
    alloc: Global,
    shelf: &mut S,
    source: &str,
    relation: &Relation,
    limit: usize,
) -> Result<(Items<RawFact>, usize), Ending>
    requires { IsRelation relation.now }
    ensures keeps { Keeps (device (S.holds shelf.old) (S.faults shelf.old))
        (device (S.holds shelf.new) (S.faults shelf.new)) }
    ensures reads { IfOk result (λ read.
        AnswersTable (S.holds shelf.old) source.now relation.now limit read.1 read.0) }
    ensures within { IfOk result (λ read. read.1 ≤ limit) }
    ensures wide { IfOk result (λ read.
        All (λ fact. length fact.row ≡ length relation.now.columns) read.0) }
    ensures few { IfOk result (λ read. sum_by (λ fact. length fact.row) read.0 ≤ 16_000_000) }
    ensures stops { IfErr result (FailsToRead (device (S.holds shelf.old) (S.faults shelf.old))
        (device (S.holds shelf.new) (S.faults shelf.new)) (table_name source.now relation.now.name)
        limit (RefusesTable source.now relation.now)) }
{
    let name = name_table(alloc, source, &relation.name)?;
    let bytes = fetch(alloc, shelf, &name, limit)?;
    match read_table(alloc, bytes.as_slice(), &relation.columns) {
        Ok(facts) => Ok((facts, bytes.as_slice().len())),
        Err(TableError::Fault(fault)) => Err(Ending::Table(name, fault)),
        Err(TableError::Memory) => Err(Ending::Memory),
    }
}
