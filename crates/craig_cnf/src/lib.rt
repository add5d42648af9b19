//! Texts of clauses: DIMACS, and circuits whose gates are defined by clauses.
//!
//! DIMACS is the format of the second DIMACS implementation challenge, "Satisfiability: Suggested Format", 1993. The
//! clauses that define a gate are those of Tseitin, "On the complexity of derivation in propositional calculus", 1968.
#![tactic(auto)]

mod appending;
mod dimacs;
mod greatest;
pub mod laws;
mod script_clause;
mod text_literal;
mod tseitin;

pub use dimacs::write_dimacs;
pub use tseitin::write_tseitin;
