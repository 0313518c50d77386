//! Facts cut into pieces.

ghost use Rattle.std.specs.Prelude.{◌≡◌, ◌⊎◌, [], ◌∷◌, ◌++◌, length, Some, IfOk, OnOk};
ghost use Rattle.time_line.specs.Span.{IsWithinLimit};
ghost use Rattle.normaliser.specs.Cuts.{AreCutsInOrder, AreWithinLimit, IsCutAt};
ghost use Rattle.normaliser.specs.Pieces.{ArePieces, AddsPieces, IsCutOff, IsNotCut, over};

use crate::cuts::{Cut, cuts_inside};
use fact_table::Fact;
use std::alloc::Global;
use term_core::{Items, Memory};
use time_line::Span;

/// The pieces of all facts. For each the least place in its group is given, and the cuts of all groups.
pub fn pieces_of(
    alloc: Global,
    facts: &[Fact],
    places: &[usize],
    cuts: &[Cut],
) -> Result<Items<Fact>, Memory>
    requires size { length places.now ≡ length facts.now }
    requires order { AreCutsInOrder cuts.now }
    requires limit { AreWithinLimit cuts.now }
    ensures { IfOk result (ArePieces facts.now places.now cuts.now) }
{
    let mut pieces = Items::new(alloc);
    pieces.room(facts.len().saturating_add(cuts.len()))?;
    for (place, fact) in facts.iter().enumerate() {
        add_pieces(alloc, fact, places[place], cuts, &mut pieces)?;
    }
    Ok(pieces)
}

// Adds the pieces of a fact of a group, which is cut at each cut of the group that is strictly inside its span.
fn add_pieces(
    alloc: Global,
    fact: &Fact,
    group: usize,
    cuts: &[Cut],
    pieces: &mut Items<Fact>,
) -> Result<(), Memory>
    requires order { AreCutsInOrder cuts.now }
    requires limit { AreWithinLimit cuts.now }
    ensures { OnOk result (AddsPieces (IsCutAt cuts.now group) fact.now pieces.old pieces.new) }
{
    let inside = cuts_inside(cuts, group, &fact.span);
    let mut rest = fact.span;
    for cut in inside {
        rest = cut_off(alloc, fact, rest, cut.at, pieces)?;
    }
    add_piece(alloc, fact, rest, pieces)
}

// Adds the piece before an end, if the end is strictly inside the span, and gives the rest of the span.
fn cut_off(
    alloc: Global,
    fact: &Fact,
    rest: Span,
    end: i64,
    pieces: &mut Items<Fact>,
) -> Result<Span, Memory>
    requires { IsWithinLimit (Some end) }
    ensures { IfOk result (λ after. IsCutOff fact.now end rest after pieces.old pieces.new
        ⊎ IsNotCut end rest after pieces.old pieces.new) }
{
    match rest.cut(end) {
        Some((before, after)) => {
            add_piece(alloc, fact, before, pieces)?;
            Ok(after)
        }
        None => Ok(rest),
    }
}

// Adds the fact over a span.
fn add_piece(alloc: Global, fact: &Fact, span: Span, pieces: &mut Items<Fact>) -> Result<(), Memory>
    ensures { OnOk result (pieces.new ≡ pieces.old ++ over fact.now span ∷ []) }
{
    let row = Items::from_vec(fact.row.as_slice().to_vec(alloc)?);
    pieces.push(Fact {
        relation: fact.relation,
        row,
        span,
    })
}
