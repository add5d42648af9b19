//! The order in which a search decides free variables, and the pace of its restarts.
//!
//! `Order` knows which variables were given back, so that it finds a free one without a walk over those that are
//! assigned. It gives the one of the highest score, in the phase in which it was last assigned; contracts promise
//! nothing of scores and phases. `Pace` says when a search restarts and when it lets clauses go, and promises nothing.
#![tactic(auto)]

mod average;
mod heap;
mod order;
mod pace;
mod permutation;
mod phases;
mod scores;

pub use order::Order;
pub use pace::Pace;
