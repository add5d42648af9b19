//! An and-inverter graph: Boolean functions built from two-input conjunctions and negations.
//!
//! After Kuehlmann, Paruthi, Krohm and Ganai, TCAD 2002. Nodes stand in one arena, each above its operands. An
//! edge names a node or its negation, and keeps its function when the arena grows, and when it goes back to a
//! level above the node. Conjunctions are folded where an operand decides them, and an equal gate is found and
//! not made again, by the hash of its operands. Two edges that differ may still be of one function.
#![tactic(auto)]

mod arena;
mod conjunction;
mod edge;
pub mod laws;
mod level;
mod node;
mod value;

pub use arena::Aig;
pub use edge::Edge;
pub use level::Level;
pub use node::Node;
