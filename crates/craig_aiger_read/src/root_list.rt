//! The outputs or the bad literals of a circuit.
ghost use Rattle.std.specs.Prelude.{◌≡◌};

use crate::Root;
use std::marker::Model;

/// The outputs or the bad literals of a circuit.
#[derive(Debug, Drop)]
pub struct Roots {
    items: Vec<Root>,
}

impl Model for Roots {
    ghost use Rattle.std.specs.Prelude.{List};
    ghost use Rattle.craig_aiger_read.specs.declared.root.Root.{Root};

    ghost Value = { List Root };

    ghost view = { λ l. l.items.items };
}

impl Roots {
    /// The list of what is in the vector.
    pub(crate) fn from_vec(items: Vec<Root>) -> Roots
        ensures { result ≡ items.items }
    {
        Roots { items }
    }

    /// The literals with their names, in their order.
    pub fn as_slice(&self) -> &[Root]
        ensures { result.now ≡ self.now }
    {
        self.items.as_slice()
    }
}
