//! Rows with spans, coalesced: each row once for each stretch of time over which it holds, in order.
#![tactic(auto)]

mod coalescing;
mod stamped;

pub use coalescing::coalesce;
pub use stamped::Stamped;
