//! The limits of a mapping.

/// The most relations of both sides together.
pub const MOST_RELATIONS: usize = 64;

/// The most columns of a relation.
pub const MOST_COLUMNS: usize = 16;

/// The most tgds.
pub const MOST_TGDS: usize = 256;

/// The most egds.
pub const MOST_EGDS: usize = 256;

/// The most queries.
pub const MOST_QUERIES: usize = 64;

/// The most atoms of a body, a head or a disjunct.
pub const MOST_ATOMS: usize = 8;

/// The most variables of a tgd, an egd or a disjunct.
pub const MOST_VARIABLES: usize = 32;

/// The most head variables of a query.
pub const MOST_HEAD_VARIABLES: usize = 16;

/// The most disjuncts of a query.
pub const MOST_DISJUNCTS: usize = 8;

/// The most bytes of a name.
pub const LONGEST_NAME: usize = 64;

/// The most bytes of a constant in quotes.
pub const LONGEST_CONSTANT: usize = 4096;
