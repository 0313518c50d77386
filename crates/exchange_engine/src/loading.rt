//! From texts to numbers.

ghost use Rattle.std.specs.Prelude.{◌↔◌, ◌⊎◌, ◌+◌, ◌<◌, ◌-◌, ◌^◌, ℕ, List, Contains, IfOk, length};
ghost use Rattle.rule_core.specs.Rebase.{IsRebased};
ghost use Rattle.exchange_engine.specs.Loading.{AreTablesOf, AreFactsOf, HasText, cell_count};

mod facts;
mod front;
mod pool;

use crate::Loaded;
use fact_table::FactTable;
use facts::numbered_facts;
use mapping_core::Mapping;
use pool::pool_of;
use std::alloc::Global;
use temporal_csv::RawFact;
use term_core::{Items, Memory};

/// The mapping and the facts of its source tables, in the order of the relations. The pool has exactly the constants of both.
pub fn load(
    alloc: Global,
    mapping: &Mapping,
    tables: &Items<Items<RawFact>>,
) -> Result<Loaded, Memory>
    requires tables { AreTablesOf mapping.now.rules.sources tables.now }
    requires few { length mapping.now.pool + cell_count tables.now < 2 ^ 32 - 1 }
    ensures pool { IfOk result (λ loaded. (text : List ℕ)
        → Contains loaded.pool text ↔ (Contains mapping.now.pool text ⊎ HasText tables.now text)) }
    ensures rules { IfOk result (λ loaded. IsRebased mapping.now.pool loaded.pool mapping.now.rules loaded.rules) }
    ensures facts { IfOk result (λ loaded. AreFactsOf tables.now loaded.pool loaded.table) }
{
    mapping.rules.is_kept();
    let tables = tables.as_slice();
    let pool = pool_of(alloc, &mapping.pool, tables)?;
    let rules = mapping.rules.rebase(&mapping.pool, &pool)?;
    let facts = numbered_facts(alloc, &pool, tables)?;
    let table = FactTable::make(alloc, facts)?;
    Ok(Loaded { rules, pool, table })
}
