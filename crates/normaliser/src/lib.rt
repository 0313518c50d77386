//! Tables cut so that a match of a rule has one span. Facts that some match of a rule uses together are of one group, and each
//! fact is cut at every end of a fact of its group that is strictly inside its span. Of `A(a)` over 1 to 5 and `B(a)` over 3 to
//! 9, which match `A(x), B(x)`, the pieces are `A(a)` over 1 to 3 and 3 to 5, and `B(a)` over 3 to 5 and 5 to 9. What holds at
//! an instant stays, and rows that hold together do so over one span.
#![tactic(auto)]

mod cuts;
mod grouping;
pub mod laws;
mod pieces;
mod table;
mod union;

pub use grouping::groups;
pub use table::normalise;
