//! What each command makes of what it read.

ghost use Rattle.std.specs.Prelude.{◌+◌, ◌<◌, ◌-◌, ◌^◌, IfOk, length};
ghost use Rattle.exchange_engine.specs.Loading.{AreTablesOf, cell_count};
ghost use Rattle.exchange_cli.specs.Commands.{command_of};
ghost use Rattle.exchange_cli.specs.Product.{Makes};
ghost use Rattle.exchange_cli.specs.Steps.{HasItsTrace, read_of};

use crate::command::Command;
use crate::cutting::cut;
use crate::inputs::Inputs;
use crate::judging::judge;
use crate::product::Product;
use crate::showing::show;
use crate::solving::solve;
use std::alloc::Global;
use term_core::Memory;

/// What the command makes of what it read. Nothing is stored or printed here.
pub fn make(alloc: Global, command: &Command<'_>, inputs: Inputs) -> Result<Product, Memory>
    requires tables { AreTablesOf inputs.mapping.rules.sources inputs.tables }
    requires trace { HasItsTrace (command_of command.now) inputs.trace }
    requires few { length inputs.mapping.pool + cell_count inputs.tables < 2 ^ 32 - 1 }
    ensures { IfOk result (Makes (command_of command.now) (read_of inputs)) }
{
    match command {
        Command::Exchange(_, target) => solve(alloc, target, inputs),
        Command::Normalise(_, out) => cut(alloc, out, inputs),
        Command::Snapshot(_, instant, out) => show(alloc, *instant, out, inputs),
        Command::Check(_, _) => judge(alloc, inputs),
    }
}
