//! The answer of a search.
use crate::{Journal, Places};
use craig_base::ClauseId;

/// What a search has found.
#[derive(Debug, Drop)]
pub enum Verdict {
    /// The trail is a model of the held clauses and the assumptions, and every variable is assigned.
    Model,
    /// The held clauses and the assumptions at these places have no model together.
    Failed {
        /// The id under which a tracer was told the empty clause.
        root: ClauseId,
        /// The places of assumptions, rising.
        places: Places,
    },
    /// The conflict limit was met, by these lemmas.
    Limit(Journal),
}
