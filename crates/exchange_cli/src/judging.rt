//! The verdict on a trace that is read.

ghost use Rattle.std.specs.Prelude.{◌≡◌, ◌+◌, ◌<◌, ◌-◌, ◌^◌, IfOk, IsSome, length};
ghost use Rattle.exchange_engine.specs.Loading.{AreTablesOf, cell_count};
ghost use Rattle.failure_trace.specs.Projected.{pool_text};
ghost use Rattle.trace_checker.specs.Checked.{source_of, IsVerdict};
ghost use Rattle.exchange_cli.specs.Product.{IsJudged};
ghost use Rattle.exchange_cli.specs.Steps.{read_of};

use crate::ending::Finding;
use crate::inputs::Inputs;
use crate::laws::a_verdict_is_one_on_the_texts;
use crate::printing::printed_line;
use crate::product::Product;
use crate::solving::load_inputs;
use exchange_engine::Loaded;
use failure_trace::Trace;
use std::alloc::Global;
use term_core::{Items, Memory};
use trace_checker::{Verdict, check};

/// What `check` makes: no file, and the verdict on the trace that was read.
pub fn judge(alloc: Global, inputs: Inputs) -> Result<Product, Memory>
    requires tables { AreTablesOf inputs.mapping.rules.sources inputs.tables }
    requires trace { IsSome inputs.trace }
    requires few { length inputs.mapping.pool + cell_count inputs.tables < 2 ^ 32 - 1 }
    ensures { IfOk result (IsJudged (read_of inputs)) }
{
    a_verdict_is_one_on_the_texts();
    let Inputs {
        mapping,
        tables,
        trace,
    } = inputs;
    let trace = trace.unwrap();
    let source = Inputs {
        mapping,
        tables,
        trace: None,
    };
    let loaded = load_inputs(alloc, source)?;
    let finding = Finding::Checked(verdict_on(alloc, &loaded, &trace)?);
    Ok(Product {
        files: Items::new(alloc),
        line: printed_line(alloc, finding)?,
        finding,
    })
}

// The verdict on a trace, over the numbers of what is loaded.
fn verdict_on(alloc: Global, loaded: &Loaded, trace: &Trace) -> Result<Verdict, Memory>
    ensures { IfOk result (IsVerdict (pool_text loaded.now.pool) loaded.now.rules
        (source_of loaded.now.pool loaded.now.table) trace.now) }
{
    loaded.is_kept();
    check(alloc, &loaded.rules, &loaded.pool, &loaded.table, trace)
}
