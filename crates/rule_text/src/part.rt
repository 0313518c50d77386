//! The parts of lines that are lists of atoms.

ghost use Rattle.std.specs.Prelude.{◌≡◌};
ghost use Rattle.rule_text.specs.Frames.{part_of};
ghost use Rattle.rule_text.specs.RuleLine.{Frame, side_of, kind_code};

use decl_text::Code;
use rule_core::Place;

/// A part of a line that is a list of atoms.
#[derive(Clone, Copy, PartialEq, Eq)]
pub(crate) enum Part {
    /// The body of a tgd.
    TgdBody,
    /// The head of a tgd.
    TgdHead,
    /// The body of an egd.
    EgdBody,
    /// A disjunct of a query.
    Disjunct,
}

impl Part {
    /// The side over which the atoms are.
    pub(crate) fn side(self) -> Place
        ensures { (frame : Frame) → part_of frame ≡ self → result ≡ side_of frame }
    {
        match self {
            Part::TgdBody => Place::Source,
            Part::TgdHead | Part::EgdBody | Part::Disjunct => Place::Target,
        }
    }

    /// The fault of a token of the wrong kind.
    pub(crate) fn wrong(self) -> Code
        ensures { (frame : Frame) → part_of frame ≡ self → result ≡ kind_code frame }
    {
        match self {
            Part::TgdBody | Part::TgdHead => Code::X6,
            Part::EgdBody => Code::X7,
            Part::Disjunct => Code::X8,
        }
    }
}
