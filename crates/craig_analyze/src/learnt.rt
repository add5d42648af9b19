//! What conflict analysis answers.

use craig_base::{ClauseId, Lits};
use craig_proof::Steps;

/// A clause that was derived from held clauses, with its chain.
#[derive(Debug, Drop)]
pub struct Learnt {
    /// The literals, over dense variables. Of an asserting clause the literal of the present level stands first.
    pub lits: Lits,
    /// The id of the held clause at which the chain begins.
    pub first: ClauseId,
    /// The steps of the chain, in the order in which they are resolved.
    pub rest: Steps,
    /// The greatest level of the literals after the first, 0 where there is none.
    pub back: u32,
    /// The number of different levels of the literals.
    pub glue: u32,
}
