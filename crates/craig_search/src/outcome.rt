//! How the turns of a search end.
use craig_base::{ClauseId, Lit};

/// How the turns of a search end.
pub(crate) enum Outcome {
    /// Each variable is assigned, and the assumptions are true.
    Model,
    /// A clause was false at level 0; the empty clause was told under the id.
    Refuted(ClauseId),
    /// The assumed literal is false.
    Failed(Lit),
    /// As many clauses as the limit were learnt.
    Limited,
}
