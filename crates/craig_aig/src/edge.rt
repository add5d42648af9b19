//! A node or its negation in one machine word, as the literals of Biere's AIGER format (2006) have it.
ghost use Rattle.std.specs.Prelude.{◌≡◌, ◌<◌, ◌^◌, nat_eq};
ghost use Rattle.std.specs.Cmp.Rules.{comparing, hashing};
ghost use Rattle.std.specs.Hash as fed;
ghost use Rattle.std.specs.Ordering.{on};
ghost use Rattle.std.proofs.Common.{rules};
ghost use Rattle.craig_aig.specs.Edges.{edge_code, edge_negation};

use std::hash::{Hash, Hasher};
use std::marker::Model;

/// A node of an arena or its negation, named by the place of the node.
///
/// An edge is of an arena where its place is below the number of nodes there.
#[derive(Clone, Copy, Debug)]
pub struct Edge {
    // twice the place of the node, and one more where it is negated
    code: usize,
}

impl Model for Edge {
    ghost use Rattle.std.specs.Prelude.{ℕ, ◌<◌, ◌^◌};
    ghost use Rattle.craig_aig.specs.Edges.{Edge, edge_code, edge_of_code};
    ghost use Rattle.craig_aig.specs.EdgeCodes.{edge_code-edge_of_code};
    ghost use Rattle.std.proofs.Common.{ap};

    ghost Value = { Edge };

    ghost view = { λ e. edge_of_code e.code };

    ghost invariant = { λ e. e.code < 2 ^ 64 };

    ghost inverse = { λ e. record { code = edge_code e } };

    ghost inverse_ok = { λ a h. ap (λ (n : ℕ). record { code = n }) (edge_code-edge_of_code a.code) };
}

impl PartialEq for Edge {
    ghost eq = { on edge_code nat_eq };

    ghost laws = { Prim.search (comparing, rules) };

    fn eq(&self, other: &Edge) -> bool {
        self.code == other.code
    }
}

impl Eq for Edge {
    ghost laws = { Prim.search (comparing, rules) };
}

impl Hash for Edge {
    ghost hash_input = { λ e. fed.usize (edge_code e) };

    ghost respects_eq = { Prim.search (hashing, rules) };

    fn hash<H: Hasher>(&self, state: &mut H) {
        self.code.hash(state);
    }
}

impl Edge {
    /// The node at the place, or its negation.
    #[tactic(none)]
    pub(crate) fn new(place: usize, negated: bool) -> Edge
        requires { place < 2 ^ 63 }
        ensures { result ≡ record { place = place; negated = negated } }
    {
        Edge {
            code: 2 * place + usize::from(negated),
        }
    }

    /// The place of the node, counted from 0.
    pub fn place(self) -> usize
        ensures value { result ≡ self.place }
        ensures below { self.place < 2 ^ 63 }
    {
        self.code / 2
    }

    /// Whether the edge is the negation of its node.
    pub fn negated(self) -> bool
        ensures { result ≡ self.negated }
    {
        self.code % 2 == 1
    }

    /// The edge that is true exactly where this one is false.
    pub(crate) fn not(self) -> Edge
        ensures { result ≡ edge_negation self }
    {
        Edge {
            code: self.code ^ 1,
        }
    }
}
