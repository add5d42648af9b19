//! The edges of the rules for one told clause.
ghost use Rattle.std.specs.Prelude.{◌≡◌, ◌<◌, ◌≤◌, All, AllPairs, IfOk, length};
ghost use Rattle.craig_aig.specs.Arenas.{IsAig};
ghost use Rattle.craig_aig.specs.Growth.{ArenaGrows};
ghost use Rattle.craig_system.specs.Rules.{labelling};
ghost use Rattle.craig_proof.specs.Tracer.{chain_of};
ghost use Rattle.craig_itp.specs.StepEdges.{HasEdge, IsLeafEdge, IsChainEdgeAt};

use crate::step_edge::{StepEdge, known_edge};
use craig_aig::{Aig, Edge};
use craig_base::{ClauseId, Lit, Part};
use craig_label::Sides;
use craig_proof::Step;
use craig_system::System;
use std::alloc::AllocError;

/// The edge of an original: a leaf of side A where its part is one from 1 to the cut, and else one of side B, also where it
/// is the common part 0.
pub(crate) fn leaf_edge<S: System>(
    aig: &mut Aig,
    sides: &Sides,
    cut: u16,
    system: &S,
    part: Part,
    lits: &[Lit],
) -> Result<Edge, AllocError>
    requires { cut ≤ sides.now.parts }
    ensures within { IfOk result (λ e. e.place < length aig.new) }
    ensures leaf { IfOk result (IsLeafEdge (labelling sides.now cut (S.marks system.now)) part.0 lits.now aig.new) }
    ensures grows { ArenaGrows aig.old aig.new }
{
    if part.0 > 0 && part.0 <= cut {
        system.leaf_a(aig, sides, cut, lits)
    } else {
        system.leaf_b(aig, sides, cut, lits)
    }
}

/// The edge of a derived clause: that of its first antecedent, joined in turn with those of the others.
pub(crate) fn chain_edge<S: System>(
    aig: &mut Aig,
    edges: &[StepEdge],
    sides: &Sides,
    cut: u16,
    system: &S,
    first: ClauseId,
    rest: &[Step],
) -> Result<Edge, AllocError>
    requires cut { cut ≤ sides.now.parts }
    requires is_arena { IsAig aig.old }
    requires rising { AllPairs (λ r s. r.id.0 < s.id.0) edges.now }
    requires within { All (λ s. s.edge.place < length aig.old) edges.now }
    requires first { HasEdge edges.now first.0 }
    requires rest { All (λ s. HasEdge edges.now s.antecedent.0) rest.now }
    ensures within { IfOk result (λ e. e.place < length aig.new) }
    ensures chain { IfOk result (IsChainEdgeAt sides.now cut (S.marks system.now) edges.now aig.old first.0 (chain_of rest.now) aig.new) }
    ensures grows { ArenaGrows aig.old aig.new }
{
    let mut edge = known_edge(edges, first);
    for step in rest {
        let right = known_edge(edges, step.antecedent);
        edge = system.join(aig, sides, cut, step.pivot, edge, right)?;
    }
    Ok(edge)
}
