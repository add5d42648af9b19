//! The id of a clause.

/// The number of a clause. Clauses are numbered from 0 in the order in which they are made.
#[derive(Clone, Copy, Debug, PartialEq, Eq, PartialOrd, Ord, Hash)]
pub struct ClauseId(pub u64);
