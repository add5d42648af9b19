//! A gate of a circuit.
#![tactic(none)]

/// The conjunction of two literals of a circuit.
///
/// Literal 0 is false and literal 1 is true. Literal 2v is variable v, and 2v + 1 its negation, where the
/// variables from 1 on are the inputs in order, and then the gates.
#[derive(Clone, Copy, Debug, PartialEq, Eq, Hash)]
pub struct Gate {
    /// The first operand literal, the greater one in a layout.
    pub left: u64,
    /// The second operand literal.
    pub right: u64,
}
