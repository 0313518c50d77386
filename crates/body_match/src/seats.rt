//! Where rows stand in time, under the keys of their cells. No clause rests on it.

ghost use Rattle.std.specs.Prelude.{◌≡◌};

use std::collections::BTreeSet;
use time_line::Span;

/// A row, under its key and with its start.
#[derive(Clone, Copy, Debug, PartialEq, Eq, PartialOrd, Ord)]
pub struct Seat {
    pub key: u64,
    pub from: i64,
    pub row: usize,
}

/// The seat of a row.
pub fn seat_of(key: u64, span: &Span, row: usize) -> Seat
    ensures { result.row ≡ row }
{
    Seat {
        key,
        from: span.lo().unwrap_or(i64::MIN),
        row,
    }
}

/// The last seat before one, under its key.
pub fn seat_before(seats: &BTreeSet<Seat>, seat: &Seat) -> Option<Seat> {
    let found = *seats.range(..*seat).next_back()?;
    (found.key == seat.key).then_some(found)
}

/// The next seat after one, under its key.
pub fn seat_after(seats: &BTreeSet<Seat>, seat: &Seat) -> Option<Seat> {
    let next = Seat {
        row: seat.row.saturating_add(1),
        ..*seat
    };
    let found = *seats.range(next..).next()?;
    (found.key == seat.key).then_some(found)
}
