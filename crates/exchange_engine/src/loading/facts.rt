//! The facts of tables, with their constants told by their numbers in a pool.

ghost use Rattle.std.specs.Prelude.{◌≡◌, ◌<◌, ◌≤◌, [], ◌∷◌, Some, All, Contains, IfOk, OnOk, IsPermutation, length, map, slice_get};
ghost use Rattle.std.specs.Bool.{OnTrue};
ghost use Rattle.std.specs.Option.{option_map};
ghost use Rattle.rule_core.specs.Tables.{facts_of, as_terms};
ghost use Rattle.exchange_engine.specs.Gathered.{Adds, raw_fact, raw_facts};
ghost use Rattle.exchange_engine.specs.Loading.{as_text, text_in};

use crate::loading::front::{Front, SEATS, first_word, seat_of};
use fact_table::Fact;
use std::alloc::Global;
use temporal_csv::RawFact;
use term_core::{ConstId, Items, Memory, Pool, Text};

/// The facts of tables, each table for the relation of its place. Those of one table stand in the order in which their rows
/// begin, so that they are soon sorted.
pub fn numbered_facts(
    alloc: Global,
    pool: &Pool,
    tables: &[Items<RawFact>],
) -> Result<Items<Fact>, Memory>
    requires few { length tables.now ≤ 64 }
    requires there { All (λ table. All (λ raw. All (Contains pool.now) raw.row) table) tables.now }
    ensures { IfOk result (λ facts. Adds pool.now [] facts (facts_of (map as_terms tables.now))) }
{
    let mut facts = Items::new(alloc);
    let mut near = Near::new(alloc)?;
    for (relation, table) in tables.iter().enumerate() {
        let table = table.as_slice();
        add_table(alloc, pool, relation as u32, table, &mut near, &mut facts)?;
    }
    Ok(facts)
}

// Where numbers are looked for first: at that of the last row's first text, and at the last one of each seat.
#[derive(Drop)]
struct Near {
    first: ConstId,
    lately: Vec<ConstId>,
}

impl Near {
    fn new(alloc: Global) -> Result<Near, Memory> {
        Ok(Near {
            first: ConstId(0),
            lately: vec![in alloc; ConstId(0); SEATS]?,
        })
    }

    // The number that had a seat last.
    fn last_at(&self, seat: usize) -> ConstId {
        self.lately.get(seat).copied().unwrap_or(ConstId(0))
    }

    // Gives a seat to a number.
    fn take_seat(&mut self, seat: usize, id: ConstId) {
        if let Some(last) = self.lately.get_mut(seat) {
            *last = id;
        }
    }
}

// Adds the facts of a table.
fn add_table(
    alloc: Global,
    pool: &Pool,
    relation: u32,
    table: &[RawFact],
    near: &mut Near,
    facts: &mut Items<Fact>,
) -> Result<(), Memory>
    requires { All (λ raw. All (Contains pool.now) raw.row) table.now }
    ensures { OnOk result (Adds pool.now facts.old facts.new (raw_facts relation table.now)) }
{
    facts.room(table.len())?;
    let heads = heads_in_order(alloc, table)?;
    for head in &heads {
        let fact = fact_at(alloc, pool, relation, table, head.at, near)?;
        near.first = first_of(&fact);
        facts.push(fact)?;
    }
    Ok(())
}

// How a row of a table begins, and its place there.
#[derive(Clone, Copy, Debug, PartialEq, Eq, PartialOrd, Ord)]
struct Head {
    first: Front,
    second: u64,
    start: i64,
    at: usize,
}

// The rows of a table in the order in which they begin.
fn heads_in_order(alloc: Global, table: &[RawFact]) -> Result<Vec<Head>, Memory>
    ensures { IfOk result (λ heads. IsPermutation (map (λ raw. Some raw) table.now)
        (map (λ head. slice_get table.now head.at) heads.items)) }
{
    let mut heads = heads_of(alloc, table)?;
    heads.sort_unstable();
    Ok(heads)
}

// The rows of a table in its order.
fn heads_of(alloc: Global, table: &[RawFact]) -> Result<Vec<Head>, Memory>
    ensures { IfOk result (λ heads.
        map (λ head. slice_get table.now head.at) heads.items ≡ map (λ raw. Some raw) table.now) }
{
    let mut heads = Vec::with_capacity(alloc, table.len())?;
    for (at, raw) in table.iter().enumerate() {
        heads.push(head_of(raw, at))?;
    }
    Ok(heads)
}

// How a row begins.
fn head_of(raw: &RawFact, at: usize) -> Head
    ensures { result.at ≡ at }
{
    let cells = &raw.cells;
    Head {
        first: cells
            .get(0)
            .map_or(Front::of(""), |cell| Front::of(cell.as_str())),
        second: cells.get(1).map_or(0, |cell| first_word(cell.as_str())),
        start: raw.span.lo().unwrap_or(i64::MIN),
        at,
    }
}

// The row at a place of a table as a fact of a relation.
fn fact_at(
    alloc: Global,
    pool: &Pool,
    relation: u32,
    table: &[RawFact],
    at: usize,
    near: &mut Near,
) -> Result<Fact, Memory>
    requires within { at < length table.now }
    requires there { All (λ raw. All (Contains pool.now) raw.row) table.now }
    ensures reads { IfOk result (λ fact.
        Some (as_text pool.now fact) ≡ option_map (raw_fact relation) (slice_get table.now at)) }
    ensures within { IfOk result (λ fact. All (λ c. c.0 < length pool.now) fact.row) }
{
    numbered_fact(alloc, pool, relation, &table[at], near)
}

// A row as a fact of a relation. Its numbers are looked for near another one first.
fn numbered_fact(
    alloc: Global,
    pool: &Pool,
    relation: u32,
    raw: &RawFact,
    near: &mut Near,
) -> Result<Fact, Memory>
    requires { All (Contains pool.now) raw.now.row }
    ensures reads { IfOk result (λ fact. as_text pool.now fact ≡ raw_fact relation raw.now) }
    ensures within { IfOk result (λ fact. All (λ c. c.0 < length pool.now) fact.row) }
{
    Ok(Fact {
        relation,
        row: numbers_of(alloc, pool, raw.cells.as_slice(), near)?,
        span: raw.span,
    })
}

// The number of the first text of a fact.
fn first_of(fact: &Fact) -> ConstId {
    fact.row.get(0).copied().unwrap_or(ConstId(0))
}

// The numbers of the texts of a row, which are looked for near another one first.
fn numbers_of(
    alloc: Global,
    pool: &Pool,
    cells: &[Text],
    near: &mut Near,
) -> Result<Items<ConstId>, Memory>
    requires { All (Contains pool.now) cells.now }
    ensures reads { IfOk result (λ ids. map (text_in pool.now) ids ≡ cells.now) }
    ensures within { IfOk result (λ ids. All (λ c. c.0 < length pool.now) ids) }
{
    let mut ids = Items::new(alloc);
    ids.room(cells.len())?;
    for cell in cells {
        ids.push(number_near(pool, near, cell.as_str()))?;
    }
    Ok(ids)
}

// The number of a text that the pool has, which may be that of the last row's first text, or the next.
fn number_near(pool: &Pool, near: &mut Near, text: &str) -> ConstId
    requires { Contains pool.now text.now }
    ensures reads { text_in pool.now result ≡ text.now }
    ensures within { result.0 < length pool.now }
{
    let first = near.first;
    if is_text(pool, first, text) {
        return first;
    }
    let next = ConstId(first.0.saturating_add(1));
    if is_text(pool, next, text) {
        return next;
    }
    number_seated(pool, near, text)
}

// The number of a text that the pool has, which may be the last one of its seat.
fn number_seated(pool: &Pool, near: &mut Near, text: &str) -> ConstId
    requires { Contains pool.now text.now }
    ensures reads { text_in pool.now result ≡ text.now }
    ensures within { result.0 < length pool.now }
{
    let seat = seat_of(text);
    let last = near.last_at(seat);
    if is_text(pool, last, text) {
        return last;
    }
    let id = number_of(pool, text);
    near.take_seat(seat, id);
    id
}

// Whether the pool has the text under a number.
fn is_text(pool: &Pool, id: ConstId, text: &str) -> bool
    ensures reads { OnTrue result (text_in pool.now id ≡ text.now) }
    ensures within { OnTrue result (id.0 < length pool.now) }
{
    (id.0 as usize) < pool.len() && pool.text(id) == text
}

// The number of a text that the pool has.
fn number_of(pool: &Pool, text: &str) -> ConstId
    requires { Contains pool.now text.now }
    ensures reads { text_in pool.now result ≡ text.now }
    ensures within { result.0 < length pool.now }
{
    pool.id_of(text).unwrap()
}
