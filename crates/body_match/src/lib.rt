//! All matches of a body in the rows of a store: depth first over the atoms, and for each atom over the rows that are found under
//! what is known of it by then, in order of their numbers. For the body `A(x, y), B(y)` over the three rows `A(a, b)` over 1 to 5,
//! `B(b)` over 4 to 9 and `B(c)` over 0 to 9, only the first can stand for the first atom. For the second atom the rows of `B`
//! with b in their column are looked up that may have an instant between 1 and 5: only the second is found, and it has one in
//! common. So there is one match: the rows 0 and 1, with x = a and y = b, over 4 to 5. The third row is not looked at.
#![tactic(auto)]

mod choice;
mod directory;
mod equality;
mod exact;
mod found;
mod index;
pub mod laws;
mod levels;
mod listing;
mod looked;
mod lookup;
mod places;
mod plan;
mod register;
mod search;
mod seats;
mod unequal;
mod using;
mod visit;

pub use equality::EqualityIndex;
pub use found::Match;
pub use index::BodyIndex;
pub use listing::{matches, matches_with};
pub use visit::{Visitor, visit_matches};
