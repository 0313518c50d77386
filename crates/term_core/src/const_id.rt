//! The number of a constant.

/// The place of a constant in a list of the texts that a run knows.
#[derive(Clone, Copy, Debug, PartialEq, Eq, PartialOrd, Ord, Hash)]
pub struct ConstId(pub u32);
