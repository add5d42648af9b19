//! What the visit of a watch has brought.

use craig_base::ClauseId;

/// What the visit of an entry in a list of watches has brought.
#[derive(Clone, Copy, Debug, PartialEq, Eq)]
pub enum Visit {
    /// The entry stays, and a literal of its clause is true.
    Stays,
    /// The clause is watched by another literal now.
    Moved,
    /// All literals of this clause are false.
    Conflict(ClauseId),
}
