//! Values of nodes under an assignment, from the front and without recursion.
ghost use Rattle.std.specs.Prelude.{◌≡◌, ◌<◌, ◌∷◌, length, IfOk};
ghost use Rattle.craig_aig.specs.Arenas.{IsAig, IsPlaced};
ghost use Rattle.craig_aig.specs.Values.{edge_value_in, node_value, values, true_variables};

use crate::{Edge, Node};
use std::alloc::{AllocError, Global};

/// The value of an edge, given the values of the nodes up to its place.
pub(crate) fn value_in(values: &[bool], edge: Edge) -> bool
    requires { edge.place < length values.now }
    ensures { result ≡ edge_value_in values.now edge }
{
    values[edge.place()] != edge.negated()
}

/// The value of a node, given the values of the nodes before it.
fn value_of(before: &[bool], node: Node, assignment: &[bool]) -> bool
    requires { IsPlaced (length before.now) node }
    ensures { result ≡ node_value (true_variables assignment.now) before.now node }
{
    match node {
        Node::Constant => false,
        Node::Input(var) => assignment.get(var.0 as usize).copied().unwrap_or(false),
        Node::Gate(left, right) => value_in(before, left) && value_in(before, right),
    }
}

/// The values of the constant and the nodes after it.
pub(crate) fn values_of(
    alloc: Global,
    nodes: &[Node],
    assignment: &[bool],
) -> Result<Vec<bool>, AllocError>
    requires { IsAig (Node.Constant ∷ nodes.now) }
    ensures { IfOk result (λ v. v.items ≡ values (true_variables assignment.now) (Node.Constant ∷ nodes.now)) }
{
    let mut values = Vec::new(alloc);
    values.push(false)?;
    for node in nodes {
        let value = value_of(values.as_slice(), *node, assignment);
        values.push(value)?;
    }
    Ok(values)
}
