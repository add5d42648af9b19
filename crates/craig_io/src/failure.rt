//! The answer of a read or a write that failed.

/// A read or a write that failed. It says nothing of the cause.
#[derive(Clone, Copy, Debug, PartialEq, Eq)]
pub struct Failed;
