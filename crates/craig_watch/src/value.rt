//! The values of literals under a trail.

/// What a trail says of a literal.
#[derive(Clone, Copy, Debug, PartialEq, Eq)]
pub enum Value {
    /// The literal is on the trail.
    True,
    /// Its negation is on the trail.
    False,
    /// Its variable is not assigned.
    Free,
}
