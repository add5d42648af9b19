//! The inputs of a circuit.
ghost use Rattle.std.specs.Prelude.{◌≡◌};

use crate::Name;
use std::marker::Model;

/// The inputs of a circuit: for each a name, where it has one.
#[derive(Debug, Drop)]
pub struct Inputs {
    items: Vec<Option<Name>>,
}

impl Model for Inputs {
    ghost use Rattle.std.specs.Prelude.{List, Option, ℕ};

    ghost Value = { List (Option (List ℕ)) };

    ghost view = { λ l. l.items.items };
}

impl Inputs {
    /// The list of what is in the vector.
    pub(crate) fn from_vec(items: Vec<Option<Name>>) -> Inputs
        ensures { result ≡ items.items }
    {
        Inputs { items }
    }

    /// The names, in the order of the inputs.
    pub fn as_slice(&self) -> &[Option<Name>]
        ensures { result.now ≡ self.now }
    {
        self.items.as_slice()
    }
}
