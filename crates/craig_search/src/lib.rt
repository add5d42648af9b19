//! Conflict-driven search for a model of held clauses, or for a refutation with its resolution chain.
//!
//! After Marques-Silva and Sakallah, "GRASP", IEEE Transactions on Computers 48, 1999, and Eén and Sörensson, "An
//! Extensible SAT-solver", SAT 2003: unit propagation, a decision where nothing is forced, and a learnt clause and a
//! jump back where a clause is false. Right after a learnt clause it may restart, and let learnt clauses go. At level 0
//! it derives a unit clause of each literal. A search ends, since no learnt clause contains a held one, over `v` variables
//! there are at most `3^v` such clauses, and clauses are let go and unit clauses derived a bounded number of times.
#![tactic(auto)]

mod bar;
mod conflict_driven;
mod deciding;
mod failing;
mod fingerprint;
mod going_back;
mod holding;
mod journal;
pub mod laws;
mod learning;
mod listing;
mod outcome;
mod places;
mod reducing;
mod reductions;
mod refuting;
mod restarting;
mod units;
mod verdict;
mod workspace;

pub use bar::Bar;
pub use conflict_driven::search;
pub use journal::Journal;
pub use places::Places;
pub use reducing::may_go;
pub use verdict::Verdict;
pub use workspace::Workspace;
