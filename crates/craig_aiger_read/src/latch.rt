//! A latch of a circuit.
use crate::{Name, Reset};

/// A latch of a circuit.
#[derive(Debug, Drop)]
pub struct Latch {
    /// The literal that it takes at a step.
    pub next: u64,
    /// How it starts.
    pub reset: Reset,
    /// Its name, where it has one.
    pub name: Option<Name>,
}
