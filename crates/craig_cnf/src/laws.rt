//! What the clauses of a text say of the variables of its gates.
ghost use Rattle.craig_cnf.specs.Extension.{TextsHaveOneExtension};

/// The clauses of a text that is read as a circuit have, for each assignment of the script variables, exactly one
/// extension to the variables of the gates that makes them true: each gate has the value that it has in the circuit.
pub fn one_extension()
    ensures { TextsHaveOneExtension }
{}
