//! Rows of the crates that hold clauses, from literals to watched ones: calls with what they have to answer.
//!
//! There is no code here, as in `craig_rows_solver`. One file has the rows of one crate, and `told_ids` a tracer that
//! they use.
#![tactic(auto)]

#[cfg(test)]
mod base;
#[cfg(test)]
mod proof;
#[cfg(test)]
mod told_ids;
#[cfg(test)]
mod watch;
