//! The incremental solver: clauses are added, each in a part, and solved again and again.
//!
//! Each `solve` is a conflict-driven search over the held clauses, after Eén and Sörensson, "An Extensible SAT-solver",
//! SAT 2003. What a search has learnt stays for the next (Eén and Sörensson, "Temporal Induction by Incremental SAT
//! Solving", Electronic Notes in Theoretical Computer Science 89(4), 2003). A tracer is told each clause, so that a
//! refutation can be replayed over the accepted clauses.
#![tactic(auto)]

mod answer;
mod copying;
mod schedule;
mod settling;
mod solver;
mod state;

pub use answer::Answer;
pub use solver::Solver;
