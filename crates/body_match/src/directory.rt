//! Where the entries of a list stand by the upper half of their keys. Keys are spread over all numbers, so where the list is in their
//! order a stretch of it has few entries of other keys.

ghost use Rattle.std.specs.Prelude.{◌≡◌, ◌<◌, ◌≤◌, ◌+◌, ℕ, Some, length, slice_get, IfOk};
ghost use Rattle.body_match.specs.declared.lookup.Entry.{Entry};
ghost use Rattle.body_match.specs.Directory.{AreDirected, Directs, IsWithin, stretch_place};

use crate::lookup::Entry;
use std::alloc::Global;
use term_core::Memory;

/// How many entries there are for a stretch, if keys are spread evenly.
const SHARE: usize = 4;

/// Half of a key, as a factor.
const HALF: usize = 4294967296;

/// The places from `first` on and before `end`.
#[derive(Clone, Copy, Debug)]
pub struct Stretch {
    pub first: usize,
    pub end: usize,
}

impl Stretch {
    /// No place.
    fn none() -> Stretch {
        Stretch { first: 0, end: 0 }
    }

    /// These places, and one more.
    fn with(self, at: usize) -> Stretch
        requires { at + 1 < 18446744073709551616 }
        ensures kept { (k : ℕ) → IsWithin self k → IsWithin result k }
        ensures more { IsWithin result at }
    {
        if self.first < self.end {
            Stretch {
                first: self.first.min(at),
                end: self.end.max(at + 1),
            }
        } else {
            Stretch {
                first: at,
                end: at + 1,
            }
        }
    }
}

/// The stretches of a list.
pub fn stretches_of(alloc: Global, entries: &[Entry]) -> Result<Vec<Stretch>, Memory>
    ensures { IfOk result (λ stretches. AreDirected entries.now stretches.items (length entries.now)) }
{
    let mut stretches = vec![in alloc; Stretch::none(); entries.len() / SHARE + 1]?;
    for (at, entry) in entries.iter().enumerate() {
        direct(&mut stretches, entry.key, at);
    }
    Ok(stretches)
}

// Lets the stretch of a key have one more place.
fn direct(stretches: &mut Vec<Stretch>, key: u64, at: usize)
    requires { at + 1 < 18446744073709551616 }
    ensures { Directs key at stretches.old.items stretches.new.items }
{
    let place = place_in(stretches.len(), key);
    if place < stretches.len() {
        stretches[place] = stretches[place].with(at);
    }
}

/// The stretch of a key.
pub fn stretch_of(stretches: &[Stretch], key: u64) -> Option<Stretch>
    ensures { slice_get stretches.now (stretch_place (length stretches.now) key) ≡ result }
{
    stretches.get(place_in(stretches.len(), key)).copied()
}

// Which of so many stretches is that of a key.
fn place_in(count: usize, key: u64) -> usize
    ensures { result ≡ stretch_place count key }
{
    (key as usize / HALF).wrapping_mul(count) / HALF
}
