//! A told clause as it is kept.

use craig_base::{ClauseId, Part};

/// A kept clause, whose literals and packed chain lie behind those of the clauses before it.
#[derive(Clone, Copy, Debug)]
pub(crate) struct StoredStep {
    // the id under which it was told
    pub(crate) id: ClauseId,
    // where its literals begin, which stand in the order in which they were told
    pub(crate) literals: usize,
    // where the bytes of its chain begin, which an original has none of
    pub(crate) bytes: usize,
    // the part of an original, and none of a derived clause
    pub(crate) part: Option<Part>,
    // whether it was said that it is no antecedent and no root any more
    pub(crate) forgotten: bool,
    // whether a clause that isn't forgotten needs it, while steps are given up
    pub(crate) needed: bool,
}
