//! Places that are united step by step: each has a parent, which isn't behind it, and the places that lead to one root are of one
//! kind. The root is the least of them. Of 0, 1, 2 and 3, with 1 and 3 united and then 2 and 3, the labels are 0, 1, 1 and 1.

ghost use Rattle.std.specs.Prelude.{◌≡◌, ◌<◌, length, slice_index, IfOk};
ghost use Rattle.std.specs.List.{range_with_len};
ghost use Rattle.normaliser.specs.Labels.{AreParents, Joins, Unites, labels_of};

use body_match::{Match, Visitor};
use std::alloc::Global;
use std::marker::Model;
use term_core::{Items, Memory};

/// Places, each with the least one that it is united with.
#[derive(Drop)]
pub struct Union {
    parents: Vec<usize>,
}

impl Model for Union {
    ghost use Rattle.std.specs.Prelude.{List, ℕ};
    ghost use Rattle.normaliser.specs.Labels.{AreParents, labels_of};

    ghost Value = { List ℕ };

    ghost view = { λ u. labels_of u.parents.items };

    ghost invariant = { λ u. AreParents u.parents.items };
}

impl Union {
    /// So many places, each alone.
    pub fn new(alloc: Global, count: usize) -> Result<Union, Memory>
        ensures { IfOk result (λ labels. labels ≡ range_with_len 0 count) }
    {
        let parents = places_below(alloc, count)?;
        Ok(Union { parents })
    }

    /// For each place the least one that it is united with.
    pub fn into_labels(self) -> Items<usize>
        ensures { result ≡ self }
    {
        let Union { mut parents } = self;
        flatten(&mut parents);
        Items::from_vec(parents)
    }
}

// The places below a number.
fn places_below(alloc: Global, count: usize) -> Result<Vec<usize>, Memory>
    ensures { IfOk result (λ places. places.items ≡ range_with_len 0 count) }
{
    let mut places = Vec::with_capacity(alloc, count)?;
    for place in 0..count {
        places.push(place)?;
    }
    Ok(places)
}

impl Visitor for Union {
    ghost takes = { λ old found new. Unites found.rows old new };

    ghost stops = { λ _. ⊥ };

    fn visit(&mut self, found: &Match) -> Result<bool, Memory> {
        unite(&mut self.parents, found.rows.as_slice());
        Ok(true)
    }
}

// Unites places, as far as they are there.
fn unite(parents: &mut [usize], places: &[usize])
    requires { AreParents parents.old }
    ensures parents { AreParents parents.new }
    ensures unites { Unites places.now (labels_of parents.old) (labels_of parents.new) }
{
    for other in 1..places.len() {
        join_there(parents, places[0], places[other]);
    }
}

// Unites two places, if both are there.
fn join_there(parents: &mut [usize], a: usize, b: usize)
    requires { AreParents parents.old }
    ensures parents { AreParents parents.new }
    ensures size { length parents.new ≡ length parents.old }
    ensures labels { a < length parents.old → b < length parents.old → Joins a b (labels_of parents.old) (labels_of parents.new) }
{
    if a < parents.len() && b < parents.len() {
        join(parents, a, b);
    }
}

// Unites two places.
fn join(parents: &mut [usize], a: usize, b: usize)
    requires parents { AreParents parents.old }
    requires first { a < length parents.old }
    requires second { b < length parents.old }
    ensures parents { AreParents parents.new }
    ensures size { length parents.new ≡ length parents.old }
    ensures labels { Joins a b (labels_of parents.old) (labels_of parents.new) }
{
    let a = root(parents, a);
    let b = root(parents, b);
    parents[a.max(b)] = a.min(b);
}

// Where parents lead to from a place. Each second place on the way gets the parent of its parent, so that the way gets shorter.
fn root(parents: &mut [usize], place: usize) -> usize
    requires parents { AreParents parents.old }
    requires there { place < length parents.old }
    ensures parents { AreParents parents.new }
    ensures size { length parents.new ≡ length parents.old }
    ensures labels { labels_of parents.new ≡ labels_of parents.old }
    ensures root { result ≡ slice_index (labels_of parents.old) place }
    ensures own { slice_index (labels_of parents.old) result ≡ result }
    ensures within { result < length parents.old }
{
    let mut at = place;
    while parents[at] < at {
        let parent = parents[at];
        let above = parents[parent];
        parents[at] = above;
        at = above;
    }
    at
}

// Makes the root of each place its parent.
fn flatten(parents: &mut [usize])
    requires { AreParents parents.old }
    ensures { parents.new ≡ labels_of parents.old }
{
    for place in 0..parents.len() {
        let parent = parents[place];
        let root = parents[parent];
        parents[place] = root;
    }
}
