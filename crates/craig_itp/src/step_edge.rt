//! The edges of told steps, by rising id.
ghost use Rattle.std.specs.Prelude.{◌≡◌, ◌≢◌, ◌<◌, None, IfSome, AllPairs, Contains};
ghost use Rattle.craig_itp.specs.StepEdges.{HasEdge};
ghost use Rattle.craig_itp.specs.declared.step_edge.StepEdge.{StepEdge};

use craig_aig::Edge;
use craig_base::ClauseId;

/// The edge of a told step.
#[derive(Clone, Copy, Debug)]
pub(crate) struct StepEdge {
    // the id of the clause
    pub(crate) id: ClauseId,
    // the edge of the arena
    pub(crate) edge: Edge,
}

/// The edge of the step with the id, in logarithmic time, where there is one.
pub(crate) fn edge_of(edges: &[StepEdge], id: ClauseId) -> Option<Edge>
    requires { AllPairs (λ r s. r.id.0 < s.id.0) edges.now }
    ensures some { IfSome result (λ e. Contains edges.now (record { id = id; edge = e })) }
    ensures none { result ≡ None → (e : StepEdge) → Contains edges.now e → e.id.0 ≢ id.0 }
{
    let place = edges.partition_point(|step| step.id.0 < id.0);
    let step = edges.get(place)?;
    (step.id == id).then_some(step.edge)
}

/// The edge of the step with the id, which has one.
pub(crate) fn known_edge(edges: &[StepEdge], id: ClauseId) -> Edge
    requires rising { AllPairs (λ r s. r.id.0 < s.id.0) edges.now }
    requires known { HasEdge edges.now id.0 }
    ensures { Contains edges.now (record { id = id; edge = result }) }
{
    match edge_of(edges, id) {
        Some(edge) => edge,
        None => unreachable!(),
    }
}
