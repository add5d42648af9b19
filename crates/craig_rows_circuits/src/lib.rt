//! Rows of the crates of circuits, from labels and nodes to AIGER texts: calls with what they have to answer.
//!
//! There is no code here, as in `craig_rows_solver`. One file has the rows of one crate.
#![tactic(auto)]

#[cfg(test)]
mod aig;
#[cfg(test)]
mod aiger;
#[cfg(test)]
mod aiger_read;
#[cfg(test)]
mod binary;
#[cfg(test)]
mod binary_writing;
#[cfg(test)]
mod cnf;
#[cfg(test)]
mod example;
#[cfg(test)]
mod itp;
#[cfg(test)]
mod label;
#[cfg(test)]
mod system;
