//! One pool for the texts of a mapping and of its tables.

ghost use Rattle.std.specs.Prelude.{◌≡◌, ◌↔◌, ◌⊎◌, ◌+◌, ◌<◌, ◌-◌, ◌^◌, [], ℕ, List, Any, Contains, Some, IsTrue, IfOk, OnOk, length, slice_get, sum_by, take};
ghost use Rattle.exchange_engine.specs.Gathered.{Gains, texts_of};
ghost use Rattle.exchange_engine.specs.Loading.{HasText, cell_count};

use crate::loading::front::{Front, SEATS};
use std::alloc::Global;
use std::marker::Model;
use temporal_csv::RawFact;
use term_core::{ConstId, Items, Memory, Pool, PoolBuilder, Text};

/// The pool of all texts of another one and of all cells. They are added in the order of their fronts, which are sorted faster
/// than texts.
pub fn pool_of(alloc: Global, texts: &Pool, tables: &[Items<RawFact>]) -> Result<Pool, Memory>
    requires { length texts.now + cell_count tables.now < 2 ^ 32 - 1 }
    ensures { IfOk result (λ pool. (text : List ℕ)
        → Contains pool text ↔ (Contains texts.now text ⊎ HasText tables.now text)) }
{
    let mut gathered = Gathered::new(alloc)?;
    add_texts(&mut gathered, texts)?;
    add_tables(&mut gathered, tables)?;
    let mut found = gathered.into_found();
    found.sort_unstable_by_key(|one| one.front);
    let mut builder = PoolBuilder::new(alloc);
    add_found(&mut builder, &found)?;
    builder.finish()
}

// A text, and how it begins.
#[derive(Clone, Copy, Debug)]
struct Found<'a> {
    front: Front,
    text: &'a str,
}

impl<'a> Found<'a> {
    fn new(text: &'a str) -> Found<'a>
        ensures { result.text.now ≡ text.now }
    {
        Found {
            front: Front::of(text),
            text,
        }
    }
}

// Texts that were found. Tables repeat few texts over and over, so each text has a seat, and one that was the last to take
// its seat is not added again.
#[derive(Drop)]
struct Gathered<'a> {
    found: Vec<Found<'a>>,
    seats: Vec<Seat>,
}

// How the text begins that took a seat last, and its place among those that were found.
#[derive(Clone, Copy, Debug)]
struct Seat {
    front: Front,
    place: usize,
}

impl<'a> Model for Gathered<'a> {
    ghost use Rattle.std.specs.Prelude.{List, ℕ};
    ghost use Rattle.exchange_engine.specs.Gathered.{texts_of};

    ghost Value = { List (List ℕ) };

    ghost view = { λ g. texts_of g.found.items };
}

impl<'a> Gathered<'a> {
    // No text yet.
    fn new(alloc: Global) -> Result<Gathered<'a>, Memory>
        ensures { IfOk result (λ gathered. gathered ≡ []) }
    {
        let front = Front::of("");
        let free = Seat { front, place: 0 };
        Ok(Gathered {
            found: Vec::new(alloc),
            seats: vec![in alloc; free; SEATS]?,
        })
    }

    // Adds a text, where it is not known to be there.
    fn add(&mut self, text: &'a str) -> Result<(), Memory>
        ensures { OnOk result (Gains self.old self.new (λ t. t ≡ text.now) 1) }
    {
        let one = Found::new(text);
        if self.has_seat(&one.front, text) {
            return Ok(());
        }
        self.take_seat(one.front);
        self.found.push(one)?;
        Ok(())
    }

    // Whether the text that begins so is the last one that took its seat.
    fn has_seat(&self, front: &Front, text: &str) -> bool
        ensures { IsTrue result → Contains self.now text.now }
    {
        let Some(seat) = self.seats.get(front.seat()) else {
            return false;
        };
        seat.front == *front && is_at(self.found.as_slice(), seat.place, text)
    }

    // Gives the seat of texts that begin so to the one that is found next.
    fn take_seat(&mut self, front: Front)
        ensures { self.new ≡ self.old }
    {
        let place = self.found.len();
        if let Some(seat) = self.seats.get_mut(front.seat()) {
            *seat = Seat { front, place };
        }
    }

    // The texts, each with how it begins.
    fn into_found(self) -> Vec<Found<'a>>
        ensures { texts_of result.items ≡ self.entry }
    {
        let Gathered { found, seats: _ } = self;
        found
    }
}

// Adds texts to a pool.
fn add_found(builder: &mut PoolBuilder, found: &[Found<'_>]) -> Result<(), Memory>
    requires { length builder.old + length found.now < 2 ^ 32 - 1 }
    ensures { OnOk result (Gains builder.old builder.new
        (Contains (texts_of found.now)) (length found.now)) }
{
    for (place, one) in found.iter().enumerate() {
        let text = one.text;
        if was_last(found, place, text) {
            continue;
        }
        builder.add(text)?;
    }
    Ok(())
}

// Whether a text stands right before a place.
fn was_last(found: &[Found<'_>], place: usize, text: &str) -> bool
    ensures { IsTrue result → Contains (take place (texts_of found.now)) text.now }
{
    0 < place && is_at(found, place - 1, text)
}

// Whether a text stands at a place.
fn is_at(found: &[Found<'_>], place: usize, text: &str) -> bool
    ensures { IsTrue result → slice_get (texts_of found.now) place ≡ Some text.now }
{
    match found.get(place) {
        Some(one) => one.text == text,
        None => false,
    }
}

// Adds all texts of a pool.
fn add_texts<'a>(gathered: &mut Gathered<'a>, texts: &'a Pool) -> Result<(), Memory>
    ensures { OnOk result (Gains gathered.old gathered.new
        (Contains texts.now) (length texts.now)) }
{
    let count = texts.len() as u32;
    for at in 0..count {
        gathered.add(texts.text(ConstId(at)))?;
    }
    Ok(())
}

// Adds all cells of tables.
fn add_tables<'a>(gathered: &mut Gathered<'a>, tables: &'a [Items<RawFact>]) -> Result<(), Memory>
    ensures { OnOk result (Gains gathered.old gathered.new
        (HasText tables.now) (cell_count tables.now)) }
{
    for table in tables {
        add_rows(gathered, table.as_slice())?;
    }
    Ok(())
}

// Adds all cells of a table.
fn add_rows<'a>(gathered: &mut Gathered<'a>, table: &'a [RawFact]) -> Result<(), Memory>
    ensures { OnOk result (Gains gathered.old gathered.new
        (λ text. Any (λ fact. Contains fact.row text) table.now)
        (sum_by (λ fact. length fact.row) table.now)) }
{
    for fact in table {
        add_cells(gathered, fact.cells.as_slice())?;
    }
    Ok(())
}

// Adds all cells of a row.
fn add_cells<'a>(gathered: &mut Gathered<'a>, cells: &'a [Text]) -> Result<(), Memory>
    ensures { OnOk result (Gains gathered.old gathered.new
        (Contains cells.now) (length cells.now)) }
{
    for cell in cells {
        gathered.add(cell.as_str())?;
    }
    Ok(())
}
