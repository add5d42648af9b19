//! An arena of nodes, each above its operands, where equal nodes are found again by their hash: structural hashing
//! and the folding of trivial conjunctions after Kuehlmann, Paruthi, Krohm and Ganai, TCAD 2002. The order of operands,
//! the greater first, is that of Biere's AIGER format (2006).
ghost use Rattle.std.specs.Prelude.{◌≡◌, ◌+◌, ◌<◌, ◌≤◌, [], ◌∷◌, List, length, take, Some, slice_get, Contains, IfOk, IsOk, OnErr, not};
ghost use Rattle.craig_spec.specs.Truth.{Assignment, variable_value};
ghost use Rattle.craig_aig.specs.Arenas.{IsAig, IsPlaced};
ghost use Rattle.craig_aig.specs.Cones.{cone, ChoiceConeWithin, ConeWithin};
ghost use Rattle.craig_aig.specs.Conjunctions.{constant_edge, IsConjunction, IsKnownChoice, IsKnownConjunction};
ghost use Rattle.craig_aig.specs.Edges.{Edge, edge_negation};
ghost use Rattle.craig_aig.specs.Growth.{ArenaGrows, Extends, IsShared, KeepsEdges};
ghost use Rattle.craig_aig.specs.Values.{edge_value, ComputesAnd, ComputesChoice, ComputesOr, true_variables};

use crate::conjunction::{fold, make_gate};
use crate::value::{value_in, values_of};
use crate::{Edge, Level, Node};
use craig_base::Var;
use indexmap::IndexSet;
use std::alloc::{AllocError, Global};
use std::marker::Model;

/// An arena of nodes: an and-inverter graph that grows at its end.
///
/// Contracts see the list of the nodes, each at its place. Node 0 is the constant false, and the others follow
/// in the order in which they were made.
#[derive(Debug, Drop)]
pub struct Aig {
    // the nodes from place 1 on, so that an arena of the constant alone takes no memory
    nodes: IndexSet<Node>,
}

impl Model for Aig {
    ghost use Rattle.std.specs.Prelude.{List, ◌∷◌};
    ghost use Rattle.craig_aig.specs.Arenas.{IsAig};
    ghost use Rattle.craig_aig.specs.declared.node.Node.{Node};
    ghost use Rattle.craig_aig.specs.declared.node.Node.TheVariants.{Constant};

    ghost Value = { List Node };

    ghost view = { λ a. Constant ∷ a.nodes.keys };

    ghost invariant = { λ a. IsAig (Constant ∷ a.nodes.keys) };
}

impl Aig {
    /// The arena of the constant alone, which takes no memory.
    pub fn new(alloc: Global) -> Aig
        ensures value { result ≡ Node.Constant ∷ [] }
        ensures is_arena { IsAig result }
    {
        Aig {
            nodes: IndexSet::new(alloc),
        }
    }

    /// The edge that is true or false everywhere. It is of each arena.
    pub fn constant(value: bool) -> Edge
        ensures edge { result ≡ constant_edge value }
        ensures within { (nodes : List Node) → IsAig nodes → result.place < length nodes }
        ensures computes { (s : Assignment) (nodes : List Node) → IsAig nodes → edge_value s nodes result ≡ value }
        ensures cone { (nodes : List Node) → IsAig nodes → cone nodes result ≡ [] }
    {
        Edge::new(0, value)
    }

    /// The edge that is true exactly where this one is false. It is of the arenas that the given edge is of.
    pub fn not(edge: Edge) -> Edge
        ensures edge { result ≡ edge_negation edge }
        ensures computes { (s : Assignment) (nodes : List Node) → edge_value s nodes result ≡ not (edge_value s nodes edge) }
        ensures cone { (nodes : List Node) → cone nodes result ≡ cone nodes edge }
    {
        edge.not()
    }

    /// The number of nodes, at least 1.
    pub fn len(&self) -> usize
        ensures value { result ≡ length self.now }
        ensures is_arena { IsAig self.now }
    {
        self.nodes.len() + 1
    }

    /// The node of an edge, whether the edge is negated or not.
    pub fn node(&self, edge: Edge) -> Node
        requires { edge.place < length self.now }
        ensures value { slice_get self.now edge.place ≡ Some result }
        ensures is_arena { IsAig self.now }
    {
        match edge.place() {
            0 => Node::Constant,
            place => self.nodes.as_slice()[place - 1],
        }
    }

    /// The edge of a node that is not the constant: where it stands, or else it is added at the end.
    /// After an error, which only a new node meets, the nodes are as before.
    fn share(&mut self, node: Node) -> Result<Edge, AllocError>
        requires placed { IsPlaced (length self.old) node }
        ensures shared { IfOk result (IsShared self.old node self.new) }
        ensures extends { Extends self.old self.new }
        ensures count { length self.new ≤ length self.old + 1 }
        ensures is_arena { IsAig self.new }
        ensures known { Contains self.old node → IsOk result }
        ensures unchanged { OnErr result (self.new ≡ self.old) }
    {
        let (index, _) = self.nodes.insert_full(node)?;
        // There are fewer than 2^63 nodes, so that the place fits.
        let _ = self.nodes.len();
        Ok(Edge::new(index + 1, false))
    }

    /// The edge of the input of a dense variable: the one that it has, or a new last node.
    /// After an error, which only a new input meets, the arena is as before.
    pub fn input(&mut self, var: Var) -> Result<Edge, AllocError>
        ensures shared { IfOk result (IsShared self.old (Node.Input var) self.new) }
        ensures within { IfOk result (λ e. e.place < length self.new) }
        ensures computes { IfOk result (λ e. (s : Assignment) → edge_value s self.new e ≡ variable_value s var.0) }
        ensures cone { IfOk result (λ e. cone self.new e ≡ var.0 ∷ []) }
        ensures grows { ArenaGrows self.old self.new }
        ensures count { length self.new ≤ length self.old + 1 }
        ensures known { Contains self.old (Node.Input var) → IsOk result }
        ensures unchanged { OnErr result (self.new ≡ self.old) }
    {
        // What holds of each arena is known from here on.
        let _ = &self.nodes;
        self.share(Node::Input(var))
    }

    /// The conjunction of two edges of this arena. It is folded where an operand is constant or the two are
    /// equal or opposite, it is the gate of these operands where there is one, and else a new last node.
    /// After an error, which only a new gate meets, the arena is as before.
    pub fn and(&mut self, left: Edge, right: Edge) -> Result<Edge, AllocError>
        requires left { left.place < length self.old }
        requires right { right.place < length self.old }
        ensures conjunction { IfOk result (IsConjunction self.old left right self.new) }
        ensures within { IfOk result (λ e. e.place < length self.new) }
        ensures computes { IfOk result (ComputesAnd self.old left right self.new) }
        ensures cone { IfOk result (ConeWithin self.old left right self.new) }
        ensures grows { ArenaGrows self.old self.new }
        ensures count { length self.new ≤ length self.old + 1 }
        ensures known { IsKnownConjunction self.old left right → IsOk result }
        ensures unchanged { OnErr result (self.new ≡ self.old) }
    {
        // What holds of each arena is known from here on.
        let _ = &self.nodes;
        match fold(left, right) {
            Some(edge) => Ok(edge),
            None => self.share(make_gate(left, right)),
        }
    }

    /// The disjunction of two edges of this arena: the negation of the conjunction of their negations.
    /// After an error, which only a new gate meets, the arena is as before.
    pub fn or(&mut self, left: Edge, right: Edge) -> Result<Edge, AllocError>
        requires left { left.place < length self.old }
        requires right { right.place < length self.old }
        ensures conjunction { IfOk result (λ e. IsConjunction self.old (edge_negation left) (edge_negation right) self.new (edge_negation e)) }
        ensures within { IfOk result (λ e. e.place < length self.new) }
        ensures computes { IfOk result (ComputesOr self.old left right self.new) }
        ensures cone { IfOk result (ConeWithin self.old left right self.new) }
        ensures grows { ArenaGrows self.old self.new }
        ensures count { length self.new ≤ length self.old + 1 }
        ensures known { IsKnownConjunction self.old (edge_negation left) (edge_negation right) → IsOk result }
        ensures unchanged { OnErr result (self.new ≡ self.old) }
    {
        let neither = self.and(Aig::not(left), Aig::not(right))?;
        Ok(Aig::not(neither))
    }

    /// The edge that has the value of `yes` where `select` is true, and that of `no` elsewhere, for three edges
    /// of this arena. It adds three gates at most. After an error, which only a new gate meets, all that was there
    /// is as before, and gates may be left that nothing names.
    pub fn mux(&mut self, select: Edge, yes: Edge, no: Edge) -> Result<Edge, AllocError>
        requires select { select.place < length self.old }
        requires yes { yes.place < length self.old }
        requires no { no.place < length self.old }
        ensures within { IfOk result (λ e. e.place < length self.new) }
        ensures computes { IfOk result (ComputesChoice self.old select yes no self.new) }
        ensures cone { IfOk result (ChoiceConeWithin self.old select yes no self.new) }
        ensures grows { ArenaGrows self.old self.new }
        ensures count { length self.new ≤ length self.old + 3 }
        ensures known { IsKnownChoice self.old select yes no → IsOk result }
    {
        let chosen = self.and(select, yes)?;
        let other = self.and(Aig::not(select), no)?;
        self.or(chosen, other)
    }

    /// The present number of nodes, to go back to.
    pub fn level(&self) -> Level
        ensures value { result ≡ length self.now }
        ensures is_arena { IsAig self.now }
    {
        Level::new(self.len())
    }

    /// Takes away the nodes at and above the level. The edges that are still of the arena keep their functions.
    pub fn back_to(&mut self, level: Level)
        requires { level ≤ length self.old }
        ensures nodes { self.new ≡ take level self.old }
        ensures count { length self.new ≡ level }
        ensures kept { KeepsEdges self.old self.new }
        ensures is_arena { IsAig self.new }
    {
        self.nodes.truncate(level.nodes() - 1);
    }

    /// The value of an edge of this arena where each variable has the value at its number in `assignment`. A
    /// variable at or past the length counts as false. Takes time and memory for the nodes up to the edge's.
    pub fn value(&self, edge: Edge, assignment: &[bool]) -> Result<bool, AllocError>
        requires { edge.place < length self.now }
        ensures { IfOk result (λ v. v ≡ edge_value (true_variables assignment.now) self.now edge) }
    {
        let alloc = *self.nodes.allocator();
        let values = values_of(alloc, &self.nodes.as_slice()[..edge.place()], assignment)?;
        Ok(value_in(values.as_slice(), edge))
    }
}
