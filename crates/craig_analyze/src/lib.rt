//! Conflict analysis: what a solver learns from a held clause that is false.
//!
//! `learn` resolves back along the trail until one literal of the present level is left, and then on those that follow
//! from the rest of the clause; `refute` resolves all literals away at level 0. `final_core` resolves until a literal is
//! false by decisions alone. Each answer comes with its resolution chain over held clauses. Literals are resolved on from
//! the last on the trail to the first. `analysis.rt` and `minimizing.rt` say where the methods come from.
#![tactic(auto)]

mod analysis;
mod cores;
mod learnt;
mod levels;
mod marks;
mod meeting;
mod minimizing;
mod redundancy;
mod refutation;
mod resolvent;
mod resolving;
mod staying;

pub use analysis::{Analysis, learn};
pub use cores::{Core, final_core};
pub use learnt::Learnt;
pub use refutation::refute;
