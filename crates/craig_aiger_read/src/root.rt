//! An output or a bad literal of a circuit.
use crate::Name;

/// An output or a bad literal of a circuit.
#[derive(Debug, Drop)]
pub struct Root {
    /// The literal.
    pub literal: u64,
    /// Its name, where it has one.
    pub name: Option<Name>,
}
