//! One walk over the steps that a root needs, with an edge for each: partial interpolants after D'Silva, Kroening,
//! Purandare and Weissenbacher, VMCAI 2010, from packed chains as they are kept, and without a copy of them.
ghost use Rattle.std.specs.Prelude.{◌≡◌, ◌<◌, ◌≤◌, All, length, IfOk, List};
ghost use Rattle.craig_spec.specs.PartialInterpolant.{Labelling};
ghost use Rattle.craig_aig.specs.Arenas.{IsAig};
ghost use Rattle.craig_aig.specs.Growth.{ArenaGrows};
ghost use Rattle.craig_aig.specs.declared.node.Node.{Node};
ghost use Rattle.craig_system.specs.Rules.{labelling};
ghost use Rattle.craig_itp.specs.Interpolants.{IsInterpolant};
ghost use Rattle.craig_itp.specs.StepEdges.{IsEdgeOf};
ghost use Rattle.craig_itp.specs.Walk.{AreFirstEdges, EndInRoot, IsBefore, IsEdgeAt, IsEdgeOfChain};

use crate::chain_edge::leaf_edge;
use craig_aig::{Aig, Edge};
use craig_base::ClauseId;
use craig_label::Sides;
use craig_proof::{Needed, NeededStep, PackedSteps};
use craig_system::System;
use std::alloc::{AllocError, Global};

/// The edge of the step with the id, by its place.
fn edge_of_id(needed: &Needed<'_>, edges: &[Edge], id: ClauseId) -> Edge
    requires { IsBefore needed.now (length edges.now) id.0 }
    ensures { (l : Labelling) (nodes : List Node) → AreFirstEdges l needed.now nodes edges.now → IsEdgeOf l needed.now nodes id.0 result }
{
    edges[needed.place(id)]
}

/// The edge of a derived clause: that of its first antecedent, joined in turn with those of the others.
fn edge_of_chain<S: System>(
    aig: &mut Aig,
    needed: &Needed<'_>,
    edges: &[Edge],
    sides: &Sides,
    cut: u16,
    system: &S,
    first: ClauseId,
    rest: PackedSteps<'_>,
) -> Result<Edge, AllocError>
    requires cut { cut ≤ sides.now.parts }
    requires edges { AreFirstEdges (labelling sides.now cut (S.marks system.now)) needed.now aig.old edges.now }
    requires first { IsBefore needed.now (length edges.now) first.0 }
    requires rest { All (λ s. IsBefore needed.now (length edges.now) s.antecedent) rest }
    ensures chain { IfOk result (IsEdgeOfChain (labelling sides.now cut (S.marks system.now)) needed.now first.0 rest.entry aig.new) }
    ensures grows { ArenaGrows aig.old aig.new }
{
    // What holds of each arena is known from here on.
    let _ = aig.len();
    let mut edge = edge_of_id(needed, edges, first);
    let mut left = rest;
    while let Some(step) = left.next() {
        let right = edge_of_id(needed, edges, step.antecedent);
        edge = system.join(aig, sides, cut, step.pivot, edge, right)?;
    }
    Ok(edge)
}

/// The edge of the step at a place, from those of the steps before it.
fn edge_at<S: System>(
    aig: &mut Aig,
    needed: &Needed<'_>,
    edges: &[Edge],
    sides: &Sides,
    cut: u16,
    system: &S,
    root: ClauseId,
) -> Result<Edge, AllocError>
    requires cut { cut ≤ sides.now.parts }
    requires ends { EndInRoot sides.now needed.now root.0 }
    requires place { length edges.now < length needed.now }
    requires edges { AreFirstEdges (labelling sides.now cut (S.marks system.now)) needed.now aig.old edges.now }
    ensures edge { IfOk result (IsEdgeAt (labelling sides.now cut (S.marks system.now)) needed.now (length edges.now) aig.new) }
    ensures grows { ArenaGrows aig.old aig.new }
{
    match needed.step(edges.len()) {
        NeededStep::Original(part, lits) => leaf_edge(aig, sides, cut, system, part, lits),
        NeededStep::Derived(first, rest) => edge_of_chain(
            aig, needed, edges, sides, cut, system, first, rest,
        ),
    }
}

/// The edge of the root, which is the last of the steps. It takes memory for an edge a step, beside what the arena takes.
pub(crate) fn edge_of_root<S: System>(
    alloc: Global,
    needed: &Needed<'_>,
    root: ClauseId,
    sides: &Sides,
    cut: u16,
    system: &S,
    aig: &mut Aig,
) -> Result<Edge, AllocError>
    requires cut { cut ≤ sides.now.parts }
    requires ends { EndInRoot sides.now needed.now root.0 }
    ensures interpolant { IfOk result (IsInterpolant sides.now cut (S.marks system.now) needed.now root.0 aig.new) }
    ensures grows { ArenaGrows aig.old aig.new }
{
    // What holds of each arena is known from here on.
    let _ = aig.len();
    let mut edges = Vec::new(alloc);
    for _ in 0..needed.len() {
        let edge = edge_at(aig, needed, edges.as_slice(), sides, cut, system, root)?;
        edges.push(edge)?;
    }
    Ok(edges[edges.len() - 1])
}
