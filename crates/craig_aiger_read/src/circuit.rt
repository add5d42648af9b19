//! What is read: a circuit with latches.
use crate::{Gates, Inputs, Latches, Roots};

/// A circuit with latches, as an AIGER text gives it.
///
/// Variable 0 is the constant false. The variables from 1 on are the inputs in order, then come the latches, and
/// then the gates. Literal 2v is variable v, and 2v + 1 its negation. Every gate has operands below its own literal.
#[derive(Debug, Drop)]
pub struct Circuit {
    /// The names of the inputs.
    pub inputs: Inputs,
    /// The latches.
    pub latches: Latches,
    /// The outputs.
    pub outputs: Roots,
    /// The bad literals, which say that a property fails.
    pub bads: Roots,
    /// The gates, by rising depth and else in the order of the text.
    pub gates: Gates,
}
