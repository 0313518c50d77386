//! The relations, rules and queries of a mapping, which are valid at every moment.

ghost use Rattle.std.specs.Prelude.{◌≡◌, ◌↔◌, ℕ, List, [], Contains, IsTrue, IfSome, IfNone, IfOk, OnOk, OnErr};
ghost use Rattle.rule_core.specs.Adding.{with_relation, with_tgd, with_egd, with_query, IsNamedAt, IsNewRelationName, IsNewRuleName, IsNewQueryName};
ghost use Rattle.rule_core.specs.Rebase.{IsRebased};
ghost use Rattle.rule_core.specs.Validity.{IsValid};
ghost use Rattle.rule_core.specs.declared.rules.Place.{Place as PlaceValue};

use crate::dependencies::{is_new_egd, is_new_egd_name, is_new_tgd, is_new_tgd_name};
use crate::queries::{is_new_query, is_new_query_name};
use crate::rebase::{numbers, rebased_egds, rebased_queries, rebased_tgds, same_relations};
use crate::relations::{is_new_name, is_new_relation, place_of};
use crate::{Egd, Place, Query, Relation, Tgd};
use std::alloc::Global;
use std::marker::Model;
use term_core::{Items, Memory, Pool, Text};

/// A mapping's relations, rules and queries, each kind in the order in which it was added. They are valid.
#[derive(Debug, Drop)]
pub struct Rules {
    sources: Items<Relation>,
    targets: Items<Relation>,
    tgds: Items<Tgd>,
    egds: Items<Egd>,
    queries: Items<Query>,
}

impl Model for Rules {
    ghost use Rattle.rule_core.specs.Mapping.{RuleSet, rules_of};
    ghost use Rattle.rule_core.specs.Validity.{IsValid};

    ghost Value = { RuleSet };

    ghost view = { λ r. rules_of r.sources r.targets r.tgds r.egds r.queries };

    ghost invariant = { λ r. IsValid (rules_of r.sources r.targets r.tgds r.egds r.queries) };
}

impl Rules {
    /// No relation, no rule and no query. Memory will come from `alloc`.
    pub fn new(alloc: Global) -> Rules
        ensures { result ≡ record { sources = []; targets = []; tgds = []; egds = []; queries = [] } }
    {
        Rules {
            sources: Items::new(alloc),
            targets: Items::new(alloc),
            tgds: Items::new(alloc),
            egds: Items::new(alloc),
            queries: Items::new(alloc),
        }
    }

    /// The relations of the source.
    pub fn sources(&self) -> &Items<Relation>
        ensures { result.now ≡ self.now.sources }
    {
        &self.sources
    }

    /// The relations of the target.
    pub fn targets(&self) -> &Items<Relation>
        ensures { result.now ≡ self.now.targets }
    {
        &self.targets
    }

    /// The source to target dependencies.
    pub fn tgds(&self) -> &Items<Tgd>
        ensures { result.now ≡ self.now.tgds }
    {
        &self.tgds
    }

    /// The equalities on the target.
    pub fn egds(&self) -> &Items<Egd>
        ensures { result.now ≡ self.now.egds }
    {
        &self.egds
    }

    /// The queries on the target.
    pub fn queries(&self) -> &Items<Query>
        ensures { result.now ≡ self.now.queries }
    {
        &self.queries
    }

    /// They are valid: the fact that the type keeps.
    pub fn is_kept(&self)
        ensures { IsValid self.now }
    {
        let _ = &self.sources;
    }

    /// The side and the place there of the relation with the name, if there is one.
    pub fn find(&self, name: &str) -> Option<(Place, u32)>
        ensures found { IfSome result (λ at. IsNamedAt self.now name.now at.0 at.1) }
        ensures none { IfNone result
            ((place : PlaceValue) (number : ℕ) → ¬ (IsNamedAt self.now name.now place number)) }
    {
        if let Some(number) = place_of(self.sources.as_slice(), name) {
            return Some((Place::Source, number as u32));
        }
        match place_of(self.targets.as_slice(), name) {
            Some(number) => Some((Place::Target, number as u32)),
            None => None,
        }
    }

    /// Whether no relation of either side has the name.
    pub fn is_new_relation_name(&self, name: &Text) -> bool
        ensures { IsTrue result ↔ IsNewRelationName self.now name.now }
    {
        is_new_name(self.sources.as_slice(), name) && is_new_name(self.targets.as_slice(), name)
    }

    /// Whether no rule of any kind has the name.
    pub fn is_new_rule_name(&self, name: &Text) -> bool
        ensures { IsTrue result ↔ IsNewRuleName self.now name.now }
    {
        is_new_tgd_name(self.tgds.as_slice(), name) && is_new_egd_name(self.egds.as_slice(), name)
    }

    /// Whether no query has the name.
    pub fn is_new_query_name(&self, name: &Text) -> bool
        ensures { IsTrue result ↔ IsNewQueryName self.now name.now }
    {
        is_new_query_name(self.queries.as_slice(), name)
    }

    /// Whether the mapping stays valid with this relation as the last of its side.
    pub fn fits_relation(&self, place: Place, relation: &Relation) -> bool
        ensures { IsTrue result ↔ IsValid (with_relation self.now place relation.now) }
    {
        self.is_kept();
        is_new_relation(self, relation)
    }

    /// Adds a relation as the last of its side. On an error nothing is added.
    pub fn add_relation(&mut self, place: Place, relation: Relation) -> Result<(), Memory>
        requires { IsValid (with_relation self.old place relation) }
        ensures ok { OnOk result (self.new ≡ with_relation self.old place relation) }
        ensures err { OnErr result (self.new ≡ self.old) }
    {
        match place {
            Place::Source => self.sources.push(relation),
            Place::Target => self.targets.push(relation),
        }
    }

    /// Whether the mapping stays valid with this tgd as the last.
    pub fn fits_tgd(&self, tgd: &Tgd) -> bool
        ensures { IsTrue result ↔ IsValid (with_tgd self.now tgd.now) }
    {
        self.is_kept();
        is_new_tgd(self, tgd)
    }

    /// Adds a tgd as the last. On an error nothing is added.
    pub fn add_tgd(&mut self, tgd: Tgd) -> Result<(), Memory>
        requires { IsValid (with_tgd self.old tgd) }
        ensures ok { OnOk result (self.new ≡ with_tgd self.old tgd) }
        ensures err { OnErr result (self.new ≡ self.old) }
    {
        self.tgds.push(tgd)
    }

    /// Whether the mapping stays valid with this egd as the last.
    pub fn fits_egd(&self, egd: &Egd) -> bool
        ensures { IsTrue result ↔ IsValid (with_egd self.now egd.now) }
    {
        self.is_kept();
        is_new_egd(self, egd)
    }

    /// Adds an egd as the last. On an error nothing is added.
    pub fn add_egd(&mut self, egd: Egd) -> Result<(), Memory>
        requires { IsValid (with_egd self.old egd) }
        ensures ok { OnOk result (self.new ≡ with_egd self.old egd) }
        ensures err { OnErr result (self.new ≡ self.old) }
    {
        self.egds.push(egd)
    }

    /// Whether the mapping stays valid with this query as the last.
    pub fn fits_query(&self, query: &Query) -> bool
        ensures { IsTrue result ↔ IsValid (with_query self.now query.now) }
    {
        self.is_kept();
        is_new_query(self, query)
    }

    /// Adds a query as the last. On an error nothing is added.
    pub fn add_query(&mut self, query: Query) -> Result<(), Memory>
        requires { IsValid (with_query self.old query) }
        ensures ok { OnOk result (self.new ≡ with_query self.old query) }
        ensures err { OnErr result (self.new ≡ self.old) }
    {
        self.queries.push(query)
    }

    /// The same mapping, with its constants told by their numbers in another pool, which has all their texts.
    pub fn rebase(&self, from: &Pool, to: &Pool) -> Result<Rules, Memory>
        requires { (t : List ℕ) → Contains from.now t → Contains to.now t }
        ensures { IfOk result (IsRebased from.now to.now self.now) }
    {
        let alloc = self.sources.allocator();
        let ids = numbers(alloc, from, to)?;
        let ids = ids.as_slice();
        Ok(Rules {
            sources: same_relations(alloc, self.sources.as_slice())?,
            targets: same_relations(alloc, self.targets.as_slice())?,
            tgds: rebased_tgds(alloc, ids, self.tgds.as_slice())?,
            egds: rebased_egds(alloc, ids, self.egds.as_slice())?,
            queries: rebased_queries(alloc, ids, self.queries.as_slice())?,
        })
    }
}
