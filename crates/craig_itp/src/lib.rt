//! Interpolants from one refutation: an edge for each clause that its chains tell, and an edge for each of the cuts that
//! are chosen.
//!
//! After McMillan, CAV 2003, Pudlák, JSL 1997, and D'Silva, Kroening, Purandare and Weissenbacher, VMCAI 2010; sequences
//! after Rollini, Sery and Sharygina, CAV 2012. The rules are those of an interpolation system, and each edge has their
//! value over the told chains. Nothing is promised of a circuit's size.
#![tactic(auto)]

mod chain_edge;
mod cut_tracer;
mod edge_list;
mod interpolation;
pub mod laws;
mod step_edge;
mod walk;

pub use cut_tracer::CutTracer;
pub use edge_list::Edges;
pub use interpolation::{chosen, cuts_up_to, interpolate, outputs, sequence};
