//! The clauses that a solver holds, its trail, and unit propagation.
//!
//! `Held` owns the clauses and the trail, the list of the literals that are assigned, each with its decision
//! level and the clause that forced it. A decision opens a level, and going back takes the later levels from the
//! trail again. Propagation watches two literals of each clause. Which clause becomes a reason, and which false
//! clause is reported, is not promised.
#![tactic(auto)]

mod assigned;
mod assignment;
mod beside;
mod held;
mod keeping;
pub mod laws;
mod looking;
mod trail_entry;
mod value;
mod visit;
mod visiting;
mod watch_list;
mod watch_lists;
mod watched;

pub use held::Held;
pub use value::Value;
