//! The canonical text of a mapping: its lines, each kind in its order.

ghost use Rattle.std.specs.Prelude.{◌≡◌, All, IfOk, ⊤};
ghost use Rattle.std.specs.List.{flat_map};
ghost use Rattle.rule_core.specs.Validity.{IsTgd, IsEgd, IsQuery};
ghost use Rattle.decl_text.specs.Canonical.{declaration_text};
ghost use Rattle.rule_text.specs.declared.rule.Rule.TheVariants as lines;
ghost use Rattle.rule_text.specs.Canonical.{rule_text};
ghost use Rattle.rule_text.specs.Constants.{HasTexts};
ghost use Rattle.mapping_core.specs.Mapping.{HasItsConstants, meaning_of};
ghost use Rattle.mapping_core.specs.Canonical.{mapping_text};
ghost use Rattle.mapping_core.specs.Reading.{IsMapping};

use crate::Mapping;
use decl_text::print_declaration;
use rule_core::{Egd, Place, Query, Relation, Rules, Tgd};
use rule_text::{print_egd, print_query, print_tgd};
use std::alloc::Global;
use term_core::{Memory, Pool, Text};

/// The canonical text of a mapping. Reading it gives an equal mapping.
pub fn print_mapping(alloc: Global, mapping: &Mapping) -> Result<Text, Memory>
    ensures text { IfOk result (λ text. text ≡ mapping_text mapping.now) }
    ensures reads { IfOk result (λ text. IsMapping text mapping.now) }
{
    print_lines(alloc, &mapping.rules, &mapping.pool)
}

// The lines of all kinds, and what they are read as.
fn print_lines(alloc: Global, rules: &Rules, pool: &Pool) -> Result<Text, Memory>
    requires { HasItsConstants rules.now pool.now }
    ensures text { IfOk result (λ text. text ≡ mapping_text (meaning_of rules.now pool.now)) }
    ensures reads { IfOk result (λ text. IsMapping text (meaning_of rules.now pool.now)) }
{
    rules.is_kept();
    let _ = pool.len();
    let sources = print_relations(alloc, Place::Source, rules.sources().as_slice())?;
    let targets = print_relations(alloc, Place::Target, rules.targets().as_slice())?;
    let tgds = print_tgds(alloc, rules.tgds().as_slice(), rules, pool)?;
    let egds = print_egds(alloc, rules.egds().as_slice(), rules, pool)?;
    let queries = print_queries(alloc, rules.queries().as_slice(), rules, pool)?;
    let mut text = sources;
    text.push_str(targets.as_str())?;
    text.push_str(tgds.as_str())?;
    text.push_str(egds.as_str())?;
    text.push_str(queries.as_str())?;
    Ok(text)
}

// The lines of the relations of a side.
fn print_relations(alloc: Global, place: Place, relations: &[Relation]) -> Result<Text, Memory>
    ensures { IfOk result (λ text. text ≡ flat_map (declaration_text place) relations.now) }
{
    let mut text = Text::from_str(alloc, "")?;
    for relation in relations {
        text.push_str(print_declaration(alloc, place, relation)?.as_str())?;
    }
    Ok(text)
}

// The lines of tgds.
fn print_tgds(alloc: Global, tgds: &[Tgd], rules: &Rules, pool: &Pool) -> Result<Text, Memory>
    requires valid { All (IsTgd rules.now.sources rules.now.targets) tgds.now }
    requires texts { All (λ tgd. HasTexts pool.now (λ text. ⊤) (lines.Tgd tgd)) tgds.now }
    ensures { IfOk result (λ text. text
        ≡ flat_map (λ tgd. rule_text rules.now pool.now (lines.Tgd tgd)) tgds.now) }
{
    let mut text = Text::from_str(alloc, "")?;
    for tgd in tgds {
        text.push_str(print_tgd(alloc, tgd, rules, pool)?.as_str())?;
    }
    Ok(text)
}

// The lines of egds.
fn print_egds(alloc: Global, egds: &[Egd], rules: &Rules, pool: &Pool) -> Result<Text, Memory>
    requires valid { All (IsEgd rules.now.targets) egds.now }
    requires texts { All (λ egd. HasTexts pool.now (λ text. ⊤) (lines.Egd egd)) egds.now }
    ensures { IfOk result (λ text. text
        ≡ flat_map (λ egd. rule_text rules.now pool.now (lines.Egd egd)) egds.now) }
{
    let mut text = Text::from_str(alloc, "")?;
    for egd in egds {
        text.push_str(print_egd(alloc, egd, rules, pool)?.as_str())?;
    }
    Ok(text)
}

// The lines of queries.
fn print_queries(
    alloc: Global,
    queries: &[Query],
    rules: &Rules,
    pool: &Pool,
) -> Result<Text, Memory>
    requires valid { All (IsQuery rules.now.targets) queries.now }
    requires texts { All (λ query. HasTexts pool.now (λ text. ⊤) (lines.Query query)) queries.now }
    ensures { IfOk result (λ text. text
        ≡ flat_map (λ query. rule_text rules.now pool.now (lines.Query query)) queries.now) }
{
    let mut text = Text::from_str(alloc, "")?;
    for query in queries {
        text.push_str(print_query(alloc, query, rules, pool)?.as_str())?;
    }
    Ok(text)
}
