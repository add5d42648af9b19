//! The latches of a circuit.
ghost use Rattle.std.specs.Prelude.{◌≡◌};

use crate::Latch;
use std::marker::Model;

/// The latches of a circuit.
#[derive(Debug, Drop)]
pub struct Latches {
    items: Vec<Latch>,
}

impl Model for Latches {
    ghost use Rattle.std.specs.Prelude.{List};
    ghost use Rattle.craig_aiger_read.specs.declared.latch.Latch.{Latch};

    ghost Value = { List Latch };

    ghost view = { λ l. l.items.items };
}

impl Latches {
    /// The list of what is in the vector.
    pub(crate) fn from_vec(items: Vec<Latch>) -> Latches
        ensures { result ≡ items.items }
    {
        Latches { items }
    }

    /// The latches, in their order.
    pub fn as_slice(&self) -> &[Latch]
        ensures { result.now ≡ self.now }
    {
        self.items.as_slice()
    }
}
