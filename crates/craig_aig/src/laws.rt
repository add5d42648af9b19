//! Laws of the definitions, for proofs about functions that circuits compute. The functions do nothing.
ghost use Rattle.craig_aig.specs.Operands.{ConesFromOperands, NoInputIsConstant, ValuesByCones, ValuesFromBits, ValuesFromOperands};

/// An edge has the same value under two assignments that agree on the variables of its cone.
pub fn values_by_cones()
    ensures { ValuesByCones }
{}

/// A node has the value and the cone that those of its operands give it: a gate is the conjunction of its operands and
/// reaches what they reach, an input is its variable and reaches that alone, and the constant is false and reaches
/// nothing.
pub fn nodes_by_operands()
    ensures value { ValuesFromOperands }
    ensures cone { ConesFromOperands }
{}

/// The assignment of a list of bits gives each variable the bit at its number, and false past the last bit.
pub fn bits_are_an_assignment()
    ensures { ValuesFromBits }
{}

/// An edge that reaches no input is that of the constant, since a gate has neither a constant operand nor two of one
/// node.
pub fn no_input_is_constant()
    ensures { NoInputIsConstant }
{}
