//! Resolution chains: what a solver tells of each clause that it derives, and what listens.
//!
//! A solver tells a `Tracer` each clause that it is given and each clause that it derives. A derived clause comes
//! with its chain: a first antecedent, and pairs of a pivot and a further antecedent, resolved in turn (Zhang and
//! Malik, DATE 2003). `ChainStore` keeps them and tells another tracer the steps that one clause needs, `Pair` tells
//! two tracers, and `Silent` listens to nothing.
#![tactic(auto)]

mod chain_store;
mod finding;
pub mod laws;
mod marking;
mod needed;
mod needed_step;
mod packed_number;
mod packed_steps;
mod packing;
mod pair;
mod place;
mod replay;
mod row_ends;
mod silent;
mod sliding;
mod step;
mod step_list;
mod stored_step;
mod stored_steps;
mod tracer;

pub use chain_store::ChainStore;
pub use needed::Needed;
pub use needed_step::NeededStep;
pub use packed_steps::PackedSteps;
pub use pair::Pair;
pub use silent::Silent;
pub use step::Step;
pub use step_list::Steps;
pub use tracer::Tracer;
