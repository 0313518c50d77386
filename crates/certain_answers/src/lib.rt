//! Answers of queries on the rows of a store. For the query `q(x) :- A(x, y), B(y)` each match of the body gives the row of
//! its x over its span, if x is a constant there; the rows of all disjuncts are coalesced at the end. The list of matches is
//! never held.
#![tactic(auto)]

mod collecting;
mod querying;
mod table_answers;
mod table_rows;

pub use querying::answers;
pub use table_answers::answers_of;
