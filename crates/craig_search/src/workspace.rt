//! What a search keeps for the next one.

use craig_analyze::Analysis;
use std::alloc::Global;
use std::marker::Model;

/// What a search keeps for the next one over the same held clauses: the memory of conflict analysis, and up to which
/// place of the trail, which at level 0 only gets longer, it has derived unit clauses.
///
/// Contracts see nothing of it. A search may be lent that of other clauses too, and then may derive fewer unit clauses.
/// After an `AllocError` it may be used again as before.
#[derive(Drop)]
pub struct Workspace {
    pub(crate) analysis: Analysis,
    pub(crate) walked: usize,
    pub(crate) units: u64,
}

impl Model for Workspace {
    ghost Value = { Unit {0} };

    ghost view = { λ w. tt };
}

impl Workspace {
    /// The workspace before the first search, which takes no memory yet.
    pub fn new(alloc: Global) -> Workspace {
        Workspace {
            analysis: Analysis::new(alloc),
            walked: 0,
            units: 0,
        }
    }

    /// How many unit clauses searches have derived with it. No answer depends on it.
    pub fn units(&self) -> u64 {
        self.units
    }
}
