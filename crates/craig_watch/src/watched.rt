//! Clauses under a trail, each watched by its first two literals.
//!
//! Two watched literals a clause are those of Moskewicz, Madigan, Zhao, Zhang and Malik, "Chaff", DAC 2001. A literal
//! that is looked at before the clause, and the other literal beside each entry of a binary clause, are those of Eén and
//! Sörensson's MiniSat 2.2.

use crate::assigned::Assigned;
use crate::watch_lists::WatchLists;
use craig_base::Arena;

/// Clauses under a trail, and the lists of their watches.
///
/// A clause from the id `looked` on waits to be looked at as a whole. The lists of the literals that became false were
/// walked up to the place `walked` of the trail.
#[derive(Drop)]
pub struct Watched {
    /// The clauses.
    pub arena: Arena,
    /// The trail.
    pub assigned: Assigned,
    /// For each literal the clauses of two or more literals that have it among their first two.
    pub lists: WatchLists,
    /// The clauses from this id on wait.
    pub looked: u64,
    /// From this place of the trail on, lists are yet to be walked.
    pub walked: usize,
}
