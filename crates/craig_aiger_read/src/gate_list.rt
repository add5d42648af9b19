//! The gates of a circuit.
ghost use Rattle.std.specs.Prelude.{◌≡◌};

use crate::Gate;
use std::marker::Model;

/// The gates of a circuit.
#[derive(Debug, Drop)]
pub struct Gates {
    items: Vec<Gate>,
}

impl Model for Gates {
    ghost use Rattle.std.specs.Prelude.{List};
    ghost use Rattle.craig_aiger_read.specs.declared.gate.Gate.{Gate};

    ghost Value = { List Gate };

    ghost view = { λ l. l.items.items };
}

impl Gates {
    /// The list of what is in the vector.
    pub(crate) fn from_vec(items: Vec<Gate>) -> Gates
        ensures { result ≡ items.items }
    {
        Gates { items }
    }

    /// The gates, each with operands below its own literal.
    pub fn as_slice(&self) -> &[Gate]
        ensures { result.now ≡ self.now }
    {
        self.items.as_slice()
    }
}
