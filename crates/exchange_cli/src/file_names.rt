//! The names of files on a shelf.

ghost use Rattle.std.specs.Prelude.{◌≡◌, ◌++◌, codes, IfOk};
ghost use Rattle.exchange_cli.specs.Names.{table_name, verdict_name};

use std::alloc::Global;
use term_core::{Memory, Text};

/// `PREFIX/RELATION.csv`
pub fn name_table(alloc: Global, prefix: &str, relation: &Text) -> Result<Text, Memory>
    ensures { IfOk result (λ name. name ≡ table_name prefix.now relation.now) }
{
    let mut name = Text::from_str(alloc, prefix)?;
    name.push_str("/")?;
    name.push_str(relation.as_str())?;
    name.push_str(".csv")?;
    Ok(name)
}

/// `PREFIX/QUERY.answers.csv`
pub fn name_answers(alloc: Global, prefix: &str, query: &Text) -> Result<Text, Memory>
    ensures { IfOk result (λ name. name ≡ table_name prefix.now (query.now ++ codes ".answers")) }
{
    let mut name = Text::from_str(alloc, prefix)?;
    name.push_str("/")?;
    name.push_str(query.as_str())?;
    name.push_str(".answers")?;
    name.push_str(".csv")?;
    Ok(name)
}

/// `PREFIX/verdict.txt`
pub fn name_verdict(alloc: Global, prefix: &str) -> Result<Text, Memory>
    ensures { IfOk result (λ name. name ≡ verdict_name prefix.now) }
{
    let mut name = Text::from_str(alloc, prefix)?;
    name.push_str("/verdict.txt")?;
    Ok(name)
}
