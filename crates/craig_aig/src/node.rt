//! What stands in an arena: the constant, inputs, and conjunctions of two edges (Kuehlmann, Paruthi, Krohm and Ganai,
//! TCAD 2002).
use crate::Edge;
use craig_base::Var;

/// A node of an arena.
#[derive(Clone, Copy, Debug, PartialEq, Eq, Hash)]
pub enum Node {
    /// The constant false, which is node 0 of each arena and no other node.
    Constant,
    /// The input of a dense variable.
    Input(Var),
    /// The conjunction of two edges, the one with the greater place first. The two places differ, neither is
    /// 0, and both are below the place of the gate.
    Gate(Edge, Edge),
}
