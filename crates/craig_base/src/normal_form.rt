//! What a clause is found to be when it is made normal.

use crate::Lits;

/// The normal form of a list of literals.
#[derive(Debug, Drop)]
pub enum Normal {
    /// The literals in order, each once, where the list is no tautology.
    Clause(Lits),
    /// The list has a literal and its negation.
    Tautology,
}
