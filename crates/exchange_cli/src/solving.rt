//! The target that a mapping makes of its source, as files, or a certificate that there is none.

ghost use Rattle.std.specs.Prelude.{◌≡◌, ◌+◌, ◌<◌, ◌-◌, ◌^◌, ◌⊎◌, IfOk, length};
ghost use Rattle.exchange_engine.specs.Failed.{IfFailed};
ghost use Rattle.exchange_engine.specs.Loading.{AreTablesOf, cell_count};
ghost use Rattle.exchange_engine.specs.Solved.{IfSolved};
ghost use Rattle.exchange_cli.specs.Certificate.{IsUnsolved};
ghost use Rattle.exchange_cli.specs.Product.{IsSolved};
ghost use Rattle.exchange_cli.specs.Exchanged.{IsLoadedFrom, IsSolvedFrom, IsFailedFrom};
ghost use Rattle.exchange_cli.specs.Inputs.{Inputs as InputsValue};
ghost use Rattle.exchange_cli.specs.Steps.{read_of};

use crate::ending::Finding;
use crate::inputs::Inputs;
use crate::laws::{a_given_trace_refutes, stored_answers_are_certain, stored_tables_are_a_target};
use crate::printing::printed_line;
use crate::product::Product;
use crate::refuting::refute;
use crate::rendering::render;
use exchange_engine::{Loaded, Outcome, Solved, exchange, load};
use std::alloc::Global;
use std::marker::Brand;
use std::mem::forget;
use std::sync::ledger::{Blank, Ledger};
use term_core::{Memory, Steps};

/// What an exchange makes: the files of a target, and what is printed of it; or a certificate, where some instant has no solution.
pub fn solve(alloc: Global, target: &str, inputs: Inputs) -> Result<Product, Memory>
    requires tables { AreTablesOf inputs.mapping.rules.sources inputs.tables }
    requires few { length inputs.mapping.pool + cell_count inputs.tables < 2 ^ 32 - 1 }
    ensures { IfOk result (λ product.
        IsSolved (read_of inputs) target.now product ⊎ IsUnsolved (read_of inputs) target.now product) }
{
    a_given_trace_refutes();
    let loaded = load_inputs(alloc, inputs)?;
    let outcome = exchanged::<Brand>(alloc, &loaded, Blank::new(1))?;
    match outcome {
        Outcome::Solved(solved) => tell(alloc, target, loaded, solved),
        Outcome::Failed(trace) => refute(alloc, target, &trace),
    }
}

// The files of a target, and what is printed of it. What they are made of is not given back list by list: the program ends soon, and
// the system takes all its memory at once.
fn tell(alloc: Global, target: &str, loaded: Loaded, solved: Solved) -> Result<Product, Memory>
    requires { IsSolvedFrom loaded solved }
    ensures { IfOk result (λ product. (inputs : InputsValue) → IsLoadedFrom inputs loaded
        → IsSolved inputs target.now product) }
{
    stored_tables_are_a_target();
    stored_answers_are_certain();
    let counts = solved.counts;
    let finding = Finding::Solved {
        pieces: counts.pieces,
        firings: counts.firings,
        steps: counts.steps,
        cuts: counts.cuts,
    };
    let files = render(alloc, &loaded, &solved, target)?;
    forget(solved);
    forget(loaded);
    Ok(Product {
        files,
        line: printed_line(alloc, finding)?,
        finding,
    })
}

/// What was read, loaded. The texts that were read are given up.
pub fn load_inputs(alloc: Global, inputs: Inputs) -> Result<Loaded, Memory>
    requires tables { AreTablesOf inputs.mapping.rules.sources inputs.tables }
    requires few { length inputs.mapping.pool + cell_count inputs.tables < 2 ^ 32 - 1 }
    ensures { IfOk result (IsLoadedFrom (read_of inputs)) }
{
    let Inputs {
        mapping,
        tables,
        trace: _,
    } = inputs;
    mapping.rules.is_kept();
    let loaded = load(alloc, &mapping, &tables)?;
    loaded.rules.is_kept();
    let _ = loaded.pool.len();
    let _ = loaded.table.facts();
    Ok(loaded)
}

/// The target of what is loaded, or a trace. The steps are counted on a new ledger.
pub fn exchanged<L: Ledger>(alloc: Global, loaded: &Loaded, blank: Blank) -> Result<Outcome, Memory>
    requires name { blank.name ≡ L.name }
    requires parts { blank.parts ≡ L.parts }
    requires some { 0 < blank.parts }
    ensures solved { IfOk result (λ o. IfSolved o (IsSolvedFrom loaded.now)) }
    ensures failed { IfOk result (λ o. IfFailed o (IsFailedFrom loaded.now)) }
{
    let mut steps = Steps::<L>::open(blank);
    exchange(alloc, loaded, &mut steps)
}
