//! What a solver notes beside a clause.

/// What a solver notes of a clause.
#[derive(Clone, Copy, Debug, PartialEq, Eq, PartialOrd, Ord, Hash)]
pub struct Flags {
    /// The clause was learnt in a search.
    pub learnt: bool,
    /// A reduction of the learnt clauses never drops it.
    pub kept: bool,
    /// How many decision levels its literals had when it was learnt.
    pub glue: u32,
}
