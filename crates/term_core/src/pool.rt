//! The texts of all constants of a run, each with a number. Numbers are ordered as their texts.

ghost use Rattle.std.specs.Prelude.{◌≡◌, ◌↔◌, ◌⊎◌, ◌+◌, ◌-◌, ◌^◌, ◌<◌, ◌≤◌, ℕ, List, [], Some, length, map, Contains, slice_get, string_bytes, vec_items, IfSome, IfOk, OnOk, OnErr, IsSome};
ghost use Rattle.std.specs.List.{IsDistinct};
ghost use Rattle.std.specs.Str.{bytes_eq};
ghost use Rattle.term_core.specs.Pool.{IsPool};

use crate::{ConstId, Memory};
use indexmap::IndexSet;
use std::alloc::Global;
use std::marker::Model;

/// The texts that a pool is to have, each once.
#[derive(Drop)]
pub struct PoolBuilder {
    texts: IndexSet<String>,
    alloc: Global,
}

impl Model for PoolBuilder {
    ghost use Rattle.std.specs.Prelude.{List, ℕ, map, length, string_bytes, ◌<◌, ◌^◌};

    ghost Value = { List (List ℕ) };

    ghost view = { λ b. map (λ t. string_bytes t) b.texts.keys };

    ghost invariant = { λ b. length b.texts.keys < 2 ^ 32 };
}

impl PoolBuilder {
    /// No text yet. What is added takes its memory from `alloc`.
    pub fn new(alloc: Global) -> PoolBuilder
        ensures { result ≡ [] }
    {
        PoolBuilder {
            texts: IndexSet::new(alloc),
            alloc,
        }
    }

    /// How many texts there are.
    pub fn len(&self) -> usize
        ensures { result ≡ length self.now }
    {
        self.texts.len()
    }

    /// Adds a text, where it is not there yet.
    pub fn add(&mut self, text: &str) -> Result<(), Memory>
        requires { length self.old < 2 ^ 32 - 1 }
        ensures has { OnOk result ((t : List ℕ)
            → Contains self.new t ↔ (Contains self.old t ⊎ (t ≡ text.now))) }
        ensures once { OnOk result (Contains self.old text.now → self.new ≡ self.old) }
        ensures few { OnOk result (length self.new ≤ length self.old + 1) }
        ensures err { OnErr result (self.new ≡ self.old) }
    {
        if self.texts.contains(text) {
            return Ok(());
        }
        let text = String::from_str(self.alloc, text)?;
        self.texts.insert(text)?;
        Ok(())
    }

    /// The pool of the texts that were added.
    pub fn finish(self) -> Result<Pool, Memory>
        ensures has { IfOk result (λ pool. (t : List ℕ) → Contains pool t ↔ Contains self t) }
        ensures pool { IfOk result (λ pool. IsPool pool) }
        ensures few { IfOk result (λ pool. length pool ≤ length self) }
    {
        let PoolBuilder { texts, alloc } = self;
        let list = in_order(texts, alloc)?;
        let texts = set_of(list, alloc)?;
        Ok(Pool { texts })
    }
}

// The texts of a set in the order of their bytes. A list is sorted faster than a set.
fn in_order(texts: IndexSet<String>, alloc: Global) -> Result<Vec<String>, Memory>
    requires { length texts.keys < 2 ^ 32 }
    ensures has { IfOk result (λ list. (t : List ℕ)
        → Contains (map (λ t. string_bytes t) list.items) t ↔ Contains (map (λ t. string_bytes t) texts.keys) t) }
    ensures pool { IfOk result (λ list. IsPool (map (λ t. string_bytes t) list.items)) }
    ensures once { IfOk result (λ list. IsDistinct (λ a b. bytes_eq (string_bytes a) (string_bytes b)) list.items) }
    ensures few { IfOk result (λ list. length list.items ≤ length texts.keys) }
{
    let mut list = list_of(texts, alloc)?;
    list.sort_unstable();
    Ok(list)
}

// The texts of a set in its order.
fn list_of(texts: IndexSet<String>, alloc: Global) -> Result<Vec<String>, Memory>
    ensures all { IfOk result (λ list. list.items ≡ texts.keys) }
    ensures once { IfOk result (λ list. IsDistinct (λ a b. bytes_eq (string_bytes a) (string_bytes b)) list.items) }
{
    Ok(texts.into_iter().collect(alloc)?)
}

// The texts of a list, in which each stands once, as a set in its order.
fn set_of(list: Vec<String>, alloc: Global) -> Result<IndexSet<String>, Memory>
    requires { IsDistinct (λ a b. bytes_eq (string_bytes a) (string_bytes b)) list.items }
    ensures { IfOk result (λ set. set.keys ≡ list.items) }
{
    Ok(list.into_iter().collect(alloc)?)
}

/// The texts of constants, in the order of their bytes, each once. The number of a text is its place.
#[derive(Drop)]
pub struct Pool {
    texts: IndexSet<String>,
}

impl Model for Pool {
    ghost use Rattle.std.specs.Prelude.{List, ℕ, map, string_bytes};
    ghost use Rattle.term_core.specs.Pool.{IsPool};

    ghost Value = { List (List ℕ) };

    ghost view = { λ p. map (λ t. string_bytes t) p.texts.keys };

    ghost invariant = { λ p. IsPool (map (λ t. string_bytes t) p.texts.keys) };
}

impl Pool {
    /// How many texts there are.
    pub fn len(&self) -> usize
        ensures value { result ≡ length self.now }
        ensures pool { IsPool self.now }
    {
        self.texts.len()
    }

    /// The number of a text, if the pool has it.
    pub fn id_of(&self, text: &str) -> Option<ConstId>
        ensures found { IfSome result (λ id. slice_get self.now id.0 ≡ Some text.now) }
        ensures there { IsSome result ↔ Contains self.now text.now }
        ensures within { IfSome result (λ id. id.0 < length self.now) }
    {
        let place = self.texts.get_index_of(text)?;
        Some(ConstId(place as u32))
    }

    /// The text of a number.
    pub fn text(&self, id: ConstId) -> &str
        requires { id.0 < length self.now }
        ensures { slice_get self.now id.0 ≡ Some result.now }
    {
        self.texts.as_slice()[id.0 as usize].as_str()
    }
}
