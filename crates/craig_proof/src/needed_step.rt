//! A needed step as it is lent.

use crate::packed_steps::PackedSteps;
use craig_base::{ClauseId, Lit, Part};

/// Where a needed clause comes from.
#[derive(Debug, Drop)]
pub enum NeededStep<'a> {
    /// It is an original of the part, with these literals.
    Original(Part, &'a [Lit]),
    /// It is derived: the first antecedent, and the steps after it.
    Derived(ClauseId, PackedSteps<'a>),
}
