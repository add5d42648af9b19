//! What the reply to a solve is made from.

use crate::choices::Choices;
use craig_base::{Lit, Lits, Names, Part};
use craig_label::Sides;
use craig_proof::ChainStore;
use std::alloc::Global;

/// What a session lends to the reply to a solve.
#[derive(Clone, Copy)]
pub struct Material<'a> {
    /// Where memory comes from.
    pub alloc: Global,
    /// The names of the dense variables.
    pub names: &'a Names,
    /// The accepted clauses, over the dense variables.
    pub clauses: &'a [(Part, Lits)],
    /// What the commands have set.
    pub choices: &'a Choices,
    /// The assumptions that failed, over the dense variables.
    pub failed: &'a [(Part, Lit)],
    /// The sides of the accepted clauses and of the failed assumptions, and the number of parts.
    pub sides: &'a Sides,
    /// The refutations that are kept.
    pub store: &'a ChainStore,
    /// The greatest script variable that the clauses and the assumptions of the solve name, or 0.
    pub top: u32,
}
