//! The source that is read, cut into pieces, as files.

ghost use Rattle.std.specs.Prelude.{◌≡◌, ◌+◌, ◌<◌, ◌-◌, ◌^◌, IfOk, length};
ghost use Rattle.normaliser.specs.Normalised.{IsNormalised};
ghost use Rattle.exchange_engine.specs.Loading.{AreTablesOf, cell_count};
ghost use Rattle.exchange_cli.specs.Product.{IsNormalisedSource};
ghost use Rattle.exchange_cli.specs.Steps.{read_of};

use crate::ending::Finding;
use crate::inputs::Inputs;
use crate::pieces::piece_files;
use crate::printing::printed_line;
use crate::product::Product;
use crate::solving::load_inputs;
use exchange_engine::Loaded;
use fact_table::FactTable;
use normaliser::normalise;
use std::alloc::Global;
use std::marker::Brand;
use std::sync::ledger::{Blank, Ledger};
use term_core::{Memory, Steps};

/// What `normalise` makes: the pieces of a source as files, and what is printed of them.
pub fn cut(alloc: Global, out: &str, inputs: Inputs) -> Result<Product, Memory>
    requires tables { AreTablesOf inputs.mapping.rules.sources inputs.tables }
    requires few { length inputs.mapping.pool + cell_count inputs.tables < 2 ^ 32 - 1 }
    ensures { IfOk result (IsNormalisedSource (read_of inputs) out.now) }
{
    let loaded = load_inputs(alloc, inputs)?;
    let pieces = normalised::<Brand>(alloc, &loaded, Blank::new(1))?;
    let finding = Finding::Normalised {
        facts: fact_count(&loaded),
        pieces: pieces.facts().len(),
    };
    Ok(Product {
        files: piece_files(alloc, &loaded, pieces.facts().as_slice(), out)?,
        line: printed_line(alloc, finding)?,
        finding,
    })
}

// How many facts are loaded, each counted once.
fn fact_count(loaded: &Loaded) -> usize
    ensures { result ≡ length loaded.now.table }
{
    loaded.table.facts().len()
}

// The pieces of what is loaded. The steps are counted on a new ledger.
fn normalised<L: Ledger>(alloc: Global, loaded: &Loaded, blank: Blank) -> Result<FactTable, Memory>
    requires name { blank.name ≡ L.name }
    requires parts { blank.parts ≡ L.parts }
    requires some { 0 < blank.parts }
    ensures { IfOk result (IsNormalised loaded.now.rules loaded.now.table) }
{
    let mut steps = Steps::<L>::open(blank);
    normalise(alloc, &loaded.table, &loaded.rules, &mut steps)
}
