//! One resolution of a chain.

use craig_base::{ClauseId, Lit, Var};

/// One resolution of a chain.
#[derive(Clone, Copy, Debug, PartialEq, Eq)]
pub struct Step {
    /// The literal of the resolvent so far that is resolved on.
    pub pivot: Lit,
    /// The clause that has the pivot's negation.
    pub antecedent: ClauseId,
}

impl Default for Step {
    /// The step on variable 0 and clause 0, which fills the places of a short list that nothing was put into.
    fn default() -> Step {
        Step {
            pivot: Lit::new(Var(0), false),
            antecedent: ClauseId(0),
        }
    }
}
