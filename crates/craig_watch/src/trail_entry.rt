//! The entries of a trail.

use craig_base::{ClauseId, Lit};

/// A literal on the trail.
#[derive(Clone, Copy, Debug, PartialEq, Eq)]
pub struct TrailEntry {
    /// The literal, which is true.
    pub literal: Lit,
    /// The decision level at which it was assigned.
    pub level: u32,
    /// The clause that forced it, and none for a decision.
    pub reason: Option<ClauseId>,
}
