//! Conjunctions that need no gate, and the gate of two edges.
ghost use Rattle.std.specs.Prelude.{◌≡◌};
ghost use Rattle.craig_aig.specs.Conjunctions.{folded, gate};

use crate::{Aig, Edge, Node};

/// The edge of a conjunction that needs no gate.
pub(crate) fn fold(left: Edge, right: Edge) -> Option<Edge>
    ensures { result ≡ folded left right }
{
    let no = Aig::constant(false);
    if left.place() == 0 {
        return Some(if left.negated() { right } else { no });
    }
    if right.place() == 0 {
        return Some(if right.negated() { left } else { no });
    }
    if left.place() == right.place() {
        let equal = left.negated() == right.negated();
        return Some(if equal { left } else { no });
    }
    None
}

/// The gate of two edges, the greater place first.
pub(crate) fn make_gate(left: Edge, right: Edge) -> Node
    ensures { result ≡ gate left right }
{
    if left.place() < right.place() {
        Node::Gate(right, left)
    } else {
        Node::Gate(left, right)
    }
}
