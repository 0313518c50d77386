//! The faults of a mapping text.

use term_core::Memory;

/// The number of a fault of a mapping text.
#[derive(Clone, Copy, Debug, PartialEq, Eq)]
pub enum Code {
    /// A byte begins no token.
    X1,
    /// In quotes, bytes are not UTF-8.
    X2,
    /// A quote is not closed in its line.
    X3,
    /// In quotes, a backslash begins no escape.
    X4,
    /// A token is not allowed at the beginning of a line or in a declaration.
    X5,
    /// A token is not allowed in a tgd.
    X6,
    /// A token is not allowed in an egd.
    X7,
    /// A token is not allowed in a query.
    X8,
    /// The word `exists` stands where a name is wanted.
    X9,
    /// A relation is not declared.
    U1,
    /// An atom has not as many arguments as its relation has columns.
    U2,
    /// A relation is of the wrong side.
    U3,
    /// A variable is not bound.
    U4,
    /// A name is not new.
    U5,
    /// A name, a text or a list is too long.
    U6,
}

/// A fault of a mapping text, and the offset of its byte.
#[derive(Clone, Copy, Debug, PartialEq, Eq)]
pub struct MappingFault {
    /// The fault's number.
    pub code: Code,
    /// The offset of the byte at fault.
    pub place: usize,
}

/// Why a text was not read.
#[derive(Clone, Copy, Debug, PartialEq, Eq)]
pub enum ReadError {
    /// The text has a fault.
    Fault(MappingFault),
    /// There was no memory.
    Memory,
}

impl From<Memory> for ReadError {
    ghost use Rattle.std.specs.Prelude.{◌≡◌};
    ghost use Rattle.decl_text.specs.declared.fault.ReadError.TheVariants as error;

    ghost from_gives = { λ _ e. e ≡ error.Memory };

    fn from(_e: Memory) -> ReadError {
        ReadError::Memory
    }
}

impl From<MappingFault> for ReadError {
    ghost use Rattle.std.specs.Prelude.{◌≡◌};
    ghost use Rattle.decl_text.specs.declared.fault.ReadError.TheVariants as error;

    ghost from_gives = { λ f e. e ≡ error.Fault f };

    fn from(fault: MappingFault) -> ReadError {
        ReadError::Fault(fault)
    }
}
