//! Declarations as text.

ghost use Rattle.std.specs.Prelude.{◌≡◌, IfOk};
ghost use Rattle.decl_text.specs.Canonical.{joined, place_word, declaration_text};

use rule_core::{Place, Relation};
use std::alloc::Global;
use term_core::{Memory, Text};

/// The canonical line that declares a relation, with its line feed.
pub fn print_declaration(alloc: Global, place: Place, relation: &Relation) -> Result<Text, Memory>
    ensures { IfOk result (λ text. text ≡ declaration_text place relation.now) }
{
    let columns = join(alloc, relation.columns.as_slice(), ", ")?;
    let mut text = Text::from_str(alloc, place_word(place))?;
    text.push_str(" ")?;
    text.push_str(relation.name.as_str())?;
    text.push_str("(")?;
    text.push_str(columns.as_str())?;
    text.push_str(")\n")?;
    Ok(text)
}

/// The texts one after another, with the separator between each two.
pub fn join(alloc: Global, texts: &[Text], separator: &str) -> Result<Text, Memory>
    ensures { IfOk result (λ text. text ≡ joined separator.now texts.now) }
{
    let [first, later @ ..] = texts else {
        return Text::from_str(alloc, "");
    };
    let mut joined = Text::from_str(alloc, first.as_str())?;
    for text in later {
        joined.push_str(separator)?;
        joined.push_str(text.as_str())?;
    }
    Ok(joined)
}

// The word that begins the declaration of a relation of this side.
fn place_word(place: Place) -> &'static str
    ensures { result.now ≡ place_word place }
{
    match place {
        Place::Source => "source",
        Place::Target => "target",
    }
}
