//! The answer of a solver.
#![tactic(none)]

use craig_base::{ClauseId, Values};
use craig_search::{Journal, Places};

/// What a solver has found.
#[derive(Debug, Drop)]
pub enum Answer {
    /// A truth value for each known variable. They make all accepted clauses and all assumptions true.
    Model(Values),
    /// No assignment makes the accepted clauses and the assumptions at these places true.
    Failed {
        /// The id under which the tracer was told the empty clause. It is forgotten at the next `solve`.
        root: ClauseId,
        /// The places of assumptions, rising, counted from 0, each the first one of its literal.
        places: Places,
    },
    /// The conflict limit was met, by these lemmas over dense variables. They follow from the accepted clauses alone.
    Limit(Journal),
}
