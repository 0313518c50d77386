//! Calls that no run of the program reaches, each with ample memory. There is no code here but tests; what a run reaches is
//! shown by the rows of `worked_rows`.
#![tactic(auto)]

#[cfg(test)]
mod adapters;
#[cfg(test)]
mod lists;
#[cfg(test)]
mod tokens;
#[cfg(test)]
mod traces;
