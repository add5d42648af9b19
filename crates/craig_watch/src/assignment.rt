//! What is noted of an assigned variable.

use craig_base::ClauseId;

/// Where a variable that is assigned stands on the trail, and how it came there.
#[derive(Clone, Copy, Debug, PartialEq, Eq)]
pub struct Assignment {
    /// Its position on the trail, counted from 0.
    pub place: u32,
    /// The decision level at which it was assigned.
    pub level: u32,
    /// The clause that forced it, and none for a decision.
    pub reason: Option<ClauseId>,
}
