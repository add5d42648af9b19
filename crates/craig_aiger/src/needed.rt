//! Which nodes some edges need: one pass from the last node back, which keeps the operands of each kept gate.
ghost use Rattle.std.specs.Prelude.{◌≡◌, ◌<◌, ℕ, None, All, length, slice_get, nat_eq, IfOk, if◌then◌else◌};
ghost use Rattle.craig_aig.specs.Arenas.{IsAig};
ghost use Rattle.craig_aiger.specs.Layouts.{AreNeeded, IsRooted, at, edges_of, node_operands};

use crate::OutName;
use craig_aig::{Aig, Edge, Node};
use std::alloc::{AllocError, Global};

/// Keeps the node of the edge.
#[tactic(none)]
fn keep(table: &mut [Option<Node>], aig: &Aig, edge: Edge)
    requires lengths { length table.old ≡ length aig.now }
    requires within { edge.place < length aig.now }
    ensures lengths { length table.new ≡ length table.old }
    ensures kept { (k : ℕ) → at table.new k ≡ (if nat_eq k edge.place then slice_get aig.now edge.place else at table.old k) }
{
    table[edge.place()] = Some(aig.node(edge));
}

/// Keeps the nodes of the outputs' edges.
fn keep_outputs(table: &mut [Option<Node>], aig: &Aig, outputs: &[(OutName, Edge)])
    requires lengths { length table.old ≡ length aig.now }
    requires none { (k : ℕ) → at table.old k ≡ None }
    requires within { All (λ o. o.1.place < length aig.now) outputs.now }
    ensures { IsRooted aig.now (edges_of outputs.now) table.new }
{
    for output in outputs {
        keep(table, aig, output.1);
    }
}

/// The operands of a node, if there is one and it is a gate.
pub(crate) fn gate_operands(node: &Option<Node>) -> Option<(Edge, Edge)>
    ensures { result ≡ node_operands node.now }
{
    match node {
        Some(Node::Gate(left, right)) => Some((*left, *right)),
        _ => None,
    }
}

/// Keeps what the kept nodes need, from the last node to the first.
fn keep_back(table: &mut [Option<Node>], aig: &Aig, outputs: &[(OutName, Edge)])
    requires is_arena { IsAig aig.now }
    requires rooted { IsRooted aig.now (edges_of outputs.now) table.old }
    ensures { AreNeeded aig.now (edges_of outputs.now) table.new }
{
    let mut place = table.len();
    while place > 0 {
        place -= 1;
        if let Some(operands) = gate_operands(&table[place]) {
            keep(table, aig, operands.0);
            keep(table, aig, operands.1);
        }
    }
}

/// The nodes that the outputs need, each at its place.
pub(crate) fn needed_nodes(
    alloc: Global,
    aig: &Aig,
    outputs: &[(OutName, Edge)],
) -> Result<Vec<Option<Node>>, AllocError>
    requires { All (λ o. o.1.place < length aig.now) outputs.now }
    ensures { IfOk result (λ table. AreNeeded aig.now (edges_of outputs.now) table.items) }
{
    let mut table = vec![in alloc; None; aig.len()]?;
    keep_outputs(table.as_mut_slice(), aig, outputs);
    keep_back(table.as_mut_slice(), aig, outputs);
    Ok(table)
}
