//! Rows of the crates that search, from decisions to `Solver`: calls with what they have to answer.
//!
//! There is no code here. A crate whose tests stand in it is proved twice in the gate, once without and once with
//! them; here only the tests are proved, through the public calls of the crates below. One file has the rows of one
//! crate, `pigeons` one of a long search, and `counting` and `grown` are helpers of theirs.
#![tactic(auto)]

#[cfg(test)]
mod analyze;
#[cfg(test)]
mod counting;
#[cfg(test)]
mod grown;
#[cfg(test)]
mod order;
#[cfg(test)]
mod pigeons;
#[cfg(test)]
mod search;
#[cfg(test)]
mod solver;
