//! Rows that are listed under keys, each with the instants that it may have, so that those under one key are found without a
//! look at most others. The rows stand in order of key and start. Above them stands a tree, in which a node knows between
//! which keys and which instants all rows below it lie. Two rows may be listed under one key for different values.

ghost use Rattle.std.specs.Prelude.{◌≡◌, ◌↔◌, ◌≤◌, ◌<◌, ◌+◌, ◌*◌, ◌≤ℤ◌, ◌^◌, ℕ, Contains, length, slice_get, Some, IsTrue, IfOk, IfSome, OnOk};
ghost use Rattle.body_match.specs.declared.lookup.Entry.{Entry};
ghost use Rattle.body_match.specs.Directory.{IsWithin};
ghost use Rattle.body_match.specs.declared.lookup.Reach.{Reach};
ghost use Rattle.body_match.specs.Renewals.{IsLive, IsRowAt, KeepsOthers};
ghost use Rattle.body_match.specs.Lookup.{IsSought, Encloses, Includes, AreInLeaves, AreJoined, IsSoughtBelow, AddsBelow, AddsWithin, Keeps, HasSought, IsTree};

use crate::directory::{Stretch, stretch_of, stretches_of};
use std::alloc::Global;
use std::marker::Model;
use term_core::Memory;

/// How many entries stand below each leaf of the tree.
const GROUP: usize = 8;

/// How many entries are gone through rather than sought by the tree.
const MANY: usize = 32;

/// A row under a key: it has no instant before `from`, and none at `to` or later. One that was dropped has no instant at all.
#[derive(Clone, Copy, Debug, PartialEq, Eq, PartialOrd, Ord)]
pub struct Entry {
    pub key: u64,
    pub from: i64,
    pub row: usize,
    pub to: i64,
}

/// A key, and between which instants a row is sought.
#[derive(Clone, Copy, Debug)]
pub struct Probe {
    pub key: u64,
    pub from: i64,
    pub to: i64,
}

/// Between which keys and which instants entries lie.
#[derive(Clone, Copy, Debug)]
pub struct Reach {
    pub least: u64,
    pub greatest: u64,
    pub from: i64,
    pub to: i64,
}

impl Reach {
    /// What no entry lies within.
    fn nothing() -> Reach {
        Reach {
            least: u64::MAX,
            greatest: 0,
            from: i64::MAX,
            to: i64::MIN,
        }
    }

    /// Within which an entry lies.
    fn around(entry: &Entry) -> Reach
        ensures { Encloses result entry.now }
    {
        Reach {
            least: entry.key,
            greatest: entry.key,
            from: entry.from,
            to: entry.to,
        }
    }

    /// Within which all of both lies.
    fn join(self, other: Reach) -> Reach
        ensures left { Includes result self }
        ensures right { Includes result other }
    {
        Reach {
            least: self.least.min(other.least),
            greatest: self.greatest.max(other.greatest),
            from: earlier(self.from, other.from),
            to: later(self.to, other.to),
        }
    }

    /// Whether an entry within it may be sought.
    fn may_have(&self, probe: &Probe) -> bool
        ensures { (entry : Entry) → Encloses self.now entry → IsSought probe.now entry → IsTrue result }
    {
        self.least <= probe.key
            && probe.key <= self.greatest
            && self.from < probe.to
            && probe.from < self.to
    }
}

fn earlier(a: i64, b: i64) -> i64
    ensures left { result ≤ℤ a }
    ensures right { result ≤ℤ b }
{
    if b < a { b } else { a }
}

fn later(a: i64, b: i64) -> i64
    ensures left { a ≤ℤ result }
    ensures right { b ≤ℤ result }
{
    if a < b { b } else { a }
}

/// Adds the row of an entry if it is sought.
pub fn add_if_sought(entry: Entry, probe: &Probe, rows: &mut Vec<usize>) -> Result<(), Memory>
    ensures kept { OnOk result (Keeps rows.old.items rows.new.items) }
    ensures sought { OnOk result
        (IsSought probe.now entry → Contains rows.new.items entry.row) }
{
    if is_sought(&entry, probe) {
        rows.push(entry.row)?;
    }
    Ok(())
}

// Whether an entry is sought.
fn is_sought(entry: &Entry, probe: &Probe) -> bool
    ensures { IsSought probe.now entry.now → IsTrue result }
{
    entry.key == probe.key && entry.from < probe.to && probe.from < entry.to
}

/// Entries, and the reach of each node of the tree above them. The nodes below the one at `n` stand at `2 * n` and at
/// `2 * n + 1`. The leaves begin at `leaves`. So many entries were dropped.
#[derive(Drop)]
pub struct Lookup {
    entries: Vec<Entry>,
    reaches: Vec<Reach>,
    leaves: usize,
    stretches: Vec<Stretch>,
    dropped: usize,
}

impl Model for Lookup {
    ghost use Rattle.body_match.specs.Lookup.{Tree, IsTree, tree_of};

    ghost Value = { Tree };

    ghost view = { λ l. tree_of l.entries.items l.reaches.items l.leaves l.stretches.items };

    ghost invariant = { λ l. IsTree (tree_of l.entries.items l.reaches.items l.leaves l.stretches.items) };
}

impl Lookup {
    /// A look-up that has the entries.
    pub fn make(alloc: Global, entries: Vec<Entry>) -> Result<Lookup, Memory>
        ensures { IfOk result (λ tree. (entry : Entry)
            → Contains entries.items entry → Contains tree.entries entry) }
    {
        let mut entries = entries;
        entries.sort_unstable();
        let Some(leaves) = leaves_for(entries.len()) else {
            return Err(Memory);
        };
        let mut reaches = leaf_reaches(alloc, entries.as_slice(), leaves)?;
        join_up(&mut reaches, leaves);
        let stretches = stretches_of(alloc, entries.as_slice())?;
        let dropped = count_dropped(entries.as_slice());
        Ok(Lookup {
            entries,
            reaches,
            leaves,
            stretches,
            dropped,
        })
    }

    /// How many entries there are.
    pub fn len(&self) -> usize
        ensures { result ≡ length self.now.entries }
    {
        self.entries.len()
    }

    /// The entries.
    pub fn into_entries(self) -> Vec<Entry>
        ensures { result.items ≡ self.entries }
    {
        let Lookup {
            entries,
            reaches: _,
            leaves: _,
            stretches: _,
            dropped: _,
        } = self;
        entries
    }

    /// Drops the entry of a row, if it is there. Where more than half of the entries were dropped, only the others are kept.
    pub fn drop_entry(&mut self, alloc: Global, entry: &Entry) -> Result<(), Memory>
        ensures { OnOk result (KeepsOthers entry.now.row self.old.entries self.new.entries) }
    {
        let Some(at) = self.place_of(entry) else {
            return Ok(());
        };
        self.mark(at, entry.row);
        if self.dropped <= self.entries.len() / 2 {
            return Ok(());
        }
        let rest = others_than(alloc, entry.row, self.entries.as_slice())?;
        *self = Lookup::make(alloc, rest)?;
        Ok(())
    }

    // Where an entry stands that has the key, the start and the row of this one, and was not dropped.
    fn place_of(&self, entry: &Entry) -> Option<usize>
        ensures { IfSome result (IsRowAt self.now.entries entry.now.row) }
    {
        let least = Entry {
            to: i64::MIN,
            ..*entry
        };
        let at = self.entries.partition_point(|other| *other < least);
        let found = self.entries.get(at)?;
        let same = found.key == entry.key && found.from == entry.from && found.row == entry.row;
        (same && is_live(found)).then_some(at)
    }

    // Drops the entry at a place, which is one of the row.
    fn mark(&mut self, at: usize, row: usize)
        requires { IsRowAt self.old.entries row at }
        ensures { KeepsOthers row self.old.entries self.new.entries }
    {
        let entry = &mut self.entries[at];
        *entry = dropped(*entry);
        self.dropped = self.dropped.saturating_add(1);
    }

    /// Adds at least the rows that are sought.
    pub fn gather(&self, probe: &Probe, rows: &mut Vec<usize>) -> Result<(), Memory>
        ensures sought { OnOk result (HasSought self.now.entries probe.now rows.new.items) }
        ensures kept { OnOk result (Keeps rows.old.items rows.new.items) }
    {
        match self.few_of(probe.key) {
            Some(stretch) => self.gather_stretch(stretch, probe, rows),
            None => self.gather_below(self.root(), probe, rows),
        }
    }

    // The stretch of a key, if it has few places.
    fn few_of(&self, key: u64) -> Option<Stretch>
        ensures within { IfSome result (λ stretch. (at : ℕ) (entry : Entry)
            → slice_get self.now.entries at ≡ Some entry → entry.key ≡ key → IsWithin stretch at) }
        ensures tree { IsTree self.now }
    {
        let stretch = stretch_of(self.stretches.as_slice(), key)?;
        if stretch.end.saturating_sub(stretch.first) > MANY {
            return None;
        }
        Some(stretch)
    }

    // Adds at least those that are sought within a stretch.
    fn gather_stretch(
        &self,
        stretch: Stretch,
        probe: &Probe,
        rows: &mut Vec<usize>,
    ) -> Result<(), Memory>
        ensures { OnOk result
            (AddsWithin self.now.entries stretch probe.now rows.old.items rows.new.items) }
    {
        let entries = self.entries();
        let end = entries.len().min(stretch.end);
        for at in stretch.first..end {
            add_if_sought(entries[at], probe, rows)?;
        }
        Ok(())
    }

    // The node that all others are below.
    fn root(&self) -> usize
        ensures value { result ≡ 1 }
        ensures there { 1 < length self.now.reaches }
        ensures tree { IsTree self.now }
    {
        let _ = &self.leaves;
        1
    }

    // The reach of a node.
    fn reach(&self, node: usize) -> Reach
        requires { node < length self.now.reaches }
        ensures value { slice_get self.now.reaches node ≡ Some result }
        ensures tree { IsTree self.now }
    {
        self.reaches[node]
    }

    // Where the leaves begin.
    fn leaves(&self) -> usize
        ensures value { result ≡ self.now.leaves }
        ensures tree { IsTree self.now }
    {
        self.leaves
    }

    // The entries, in order.
    fn entries(&self) -> &[Entry]
        ensures value { result.now ≡ self.now.entries }
        ensures tree { IsTree self.now }
    {
        self.entries.as_slice()
    }

    // Adds at least those that are sought below a node.
    fn gather_below(&self, node: usize, probe: &Probe, rows: &mut Vec<usize>) -> Result<(), Memory>
        requires some { 1 ≤ node }
        requires there { node < length self.now.reaches }
        ensures { OnOk result (AddsBelow self.now node probe.now rows.old.items rows.new.items) }
    {
        if !self.reach(node).may_have(probe) {
            return Ok(());
        }
        if self.leaves() <= node {
            return self.gather_group(node - self.leaves(), probe, rows);
        }
        self.gather_below(2 * node, probe, rows)?;
        self.gather_below(2 * node + 1, probe, rows)
    }

    // Adds those that are sought below a leaf.
    fn gather_group(&self, leaf: usize, probe: &Probe, rows: &mut Vec<usize>) -> Result<(), Memory>
        requires { leaf < self.now.leaves }
        ensures { OnOk result
            (AddsBelow self.now (self.now.leaves + leaf) probe.now rows.old.items rows.new.items) }
    {
        let entries = self.entries();
        let first = GROUP * leaf;
        let end = entries.len().min(first + GROUP);
        for at in first..end {
            add_if_sought(entries[at], probe, rows)?;
        }
        Ok(())
    }
}

// An entry as it is once it was dropped.
fn dropped(entry: Entry) -> Entry
    ensures key { result.key ≡ entry.key }
    ensures row { result.row ≡ entry.row }
    ensures within { (reach : Reach) → Encloses reach entry → Encloses reach result }
{
    Entry {
        to: i64::MIN,
        ..entry
    }
}

// Whether an entry was not dropped.
fn is_live(entry: &Entry) -> bool
    ensures { IsTrue result ↔ IsLive entry.now }
{
    entry.to != i64::MIN
}

// How many entries were dropped.
fn count_dropped(entries: &[Entry]) -> usize {
    entries.iter().filter(|entry| !is_live(entry)).count()
}

/// The entries that were not dropped and are not those of a row.
pub fn others_than(alloc: Global, row: usize, entries: &[Entry]) -> Result<Vec<Entry>, Memory>
    ensures { IfOk result (λ rest. KeepsOthers row entries.now rest.items) }
{
    let mut rest = Vec::new(alloc);
    for entry in entries {
        if entry.row != row && is_live(entry) {
            rest.push(*entry)?;
        }
    }
    Ok(rest)
}

// How many leaves stand above so many entries.
fn leaves_for(entries: usize) -> Option<usize>
    ensures some { IfSome result (λ leaves. 1 ≤ leaves) }
    ensures fits { IfSome result (λ leaves. 16 * leaves < 2 ^ 64) }
    ensures room { IfSome result (λ leaves. entries < 8 * leaves) }
{
    let leaves = (entries / GROUP + 1).next_power_of_two();
    leaves.checked_mul(2 * GROUP)?;
    Some(leaves)
}

// The reaches of the leaves, above which nothing stands yet.
fn leaf_reaches(alloc: Global, entries: &[Entry], leaves: usize) -> Result<Vec<Reach>, Memory>
    requires fits { 16 * leaves < 2 ^ 64 }
    requires room { length entries.now < 8 * leaves }
    ensures size { IfOk result (λ reaches. length reaches.items ≡ 2 * leaves) }
    ensures leaf { IfOk result (λ reaches.
        AreInLeaves entries.now reaches.items leaves (length entries.now)) }
{
    let mut reaches = Vec::new(alloc);
    reaches.resize(2 * leaves, Reach::nothing())?;
    for (at, entry) in entries.iter().enumerate() {
        let leaf = leaves + at / GROUP;
        reaches[leaf] = reaches[leaf].join(Reach::around(entry));
    }
    Ok(reaches)
}

// Makes each node from the leaves up the join of the two below it.
fn join_up(reaches: &mut Vec<Reach>, leaves: usize)
    requires { length reaches.old.items ≡ 2 * leaves }
    ensures size { length reaches.new.items ≡ 2 * leaves }
    ensures leaf { (at : ℕ) → leaves ≤ at
        → slice_get reaches.new.items at ≡ slice_get reaches.old.items at }
    ensures joined { AreJoined reaches.new.items 1 }
{
    let mut node = leaves;
    while 1 < node {
        node -= 1;
        reaches[node] = reaches[2 * node].join(reaches[2 * node + 1]);
    }
}
