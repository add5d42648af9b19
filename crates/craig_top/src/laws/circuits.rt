//! What circuits and their texts are.

ghost use Rattle.std.specs.Prelude.{◌≡◌, ℕ, ◌+◌, ◌*◌, not, false};
ghost use Rattle.craig_spec.specs.Circuit.{Circuit, IsCircuit, IsStrict, circuit_value};
ghost use Rattle.craig_spec.specs.Truth.{Assignment};
ghost use Rattle.craig_top.specs.CircuitShape.{AllAreUsed, GatesAreConjunctions, GatesReachByOperands, GatesStandOnce, InputsAreVariables, NumbersRise, OperandsAreOrdered, OutputsAreLiterals};

/// The literals of a circuit: 0 is false, and an odd one is the negation of the even one before it. An input has the
/// value of its variable, and a gate is true where both of its operands are. An output is one of these literals.
pub fn literals_of_a_circuit()
    ensures constant { (c : Circuit) (s : Assignment) → circuit_value s c 0 ≡ false }
    ensures negations { (c : Circuit) (s : Assignment) (v : ℕ) → circuit_value s c (2 * v + 1) ≡ not (circuit_value s c (2 * v)) }
    ensures inputs { (c : Circuit) → InputsAreVariables c }
    ensures gates { (c : Circuit) → IsCircuit c → GatesAreConjunctions c }
    ensures cones { (c : Circuit) → IsCircuit c → GatesReachByOperands c }
    ensures outputs { (c : Circuit) → IsCircuit c → OutputsAreLiterals c }
{}

/// In a strict circuit the inputs rise, each gate has two variables below its own, the greater first, no two gates are
/// the same, and each input and gate is used by an output or by a later gate.
pub fn strict_circuits()
    ensures inputs { (c : Circuit) → IsStrict c → NumbersRise c.inputs }
    ensures operands { (c : Circuit) → IsStrict c → OperandsAreOrdered c }
    ensures gates { (c : Circuit) → IsStrict c → GatesStandOnce c }
    ensures used { (c : Circuit) → IsStrict c → AllAreUsed c }
{}
