//! The trace that a command reads, behind the mapping and the tables.

ghost use Rattle.std.specs.Prelude.{◌≡◌, IfOk, IfErr};
ghost use Rattle.exchange_cli.specs.Commands.{command_of};
ghost use Rattle.exchange_cli.specs.Words.{trace_of};
ghost use Rattle.exchange_cli.specs.Work.{RefusesTrace, trace_limit};
ghost use Rattle.exchange_cli.specs.Run.{device};
ghost use Rattle.exchange_cli.specs.Steps.{Keeps, AnswersTrace, AnswersTraceOf, FailsToRead, StopsInTrace};

use crate::command::Command;
use crate::ending::Ending;
use crate::fetching::fetch;
use failure_trace::{Trace, TraceError, read_trace};
use shelf_core::Shelf;
use std::alloc::Global;
use term_core::Text;

/// The trace that the command names, if it names one.
pub fn fetch_trace<S: Shelf>(
    alloc: Global,
    shelf: &mut S,
    command: &Command<'_>,
) -> Result<Option<Trace>, Ending>
    ensures keeps { Keeps (device (S.holds shelf.old) (S.faults shelf.old))
        (device (S.holds shelf.new) (S.faults shelf.new)) }
    ensures reads { IfOk result
        (AnswersTrace (S.holds shelf.old) (trace_of (command_of command.now))) }
    ensures stops { IfErr result (StopsInTrace (device (S.holds shelf.old) (S.faults shelf.old))
        (device (S.holds shelf.new) (S.faults shelf.new)) (trace_of (command_of command.now))) }
{
    match command {
        Command::Check(_, name) => Ok(Some(fetch_named(alloc, shelf, name)?)),
        Command::Exchange(_, _) | Command::Normalise(_, _) | Command::Snapshot(_, _, _) => Ok(None),
    }
}

// The trace of that name, of any length.
fn fetch_named<S: Shelf>(alloc: Global, shelf: &mut S, name: &str) -> Result<Trace, Ending>
    ensures keeps { Keeps (device (S.holds shelf.old) (S.faults shelf.old))
        (device (S.holds shelf.new) (S.faults shelf.new)) }
    ensures reads { IfOk result (AnswersTraceOf (S.holds shelf.old) name.now) }
    ensures stops { IfErr result (FailsToRead (device (S.holds shelf.old) (S.faults shelf.old))
        (device (S.holds shelf.new) (S.faults shelf.new)) name.now trace_limit RefusesTrace) }
{
    let name = Text::from_str(alloc, name)?;
    let bytes = fetch(alloc, shelf, &name, usize::MAX)?;
    match read_trace(alloc, bytes.as_slice()) {
        Ok(trace) => Ok(trace),
        Err(TraceError::Fault(fault)) => Err(Ending::Trace(fault)),
        Err(TraceError::Memory) => Err(Ending::Memory),
    }
}
