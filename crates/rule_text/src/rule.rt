//! What a line of a mapping states besides a declaration.

use rule_core::{Egd, Query, Tgd};

/// A dependency or a query.
#[derive(Debug, Drop, PartialEq, Eq)]
pub enum Rule {
    /// A source to target dependency.
    Tgd(Tgd),
    /// An equality on the target.
    Egd(Egd),
    /// A query on the target.
    Query(Query),
}
