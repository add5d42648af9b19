//! A list of signed numbers, as the literals of a clause.

ghost use Rattle.std.specs.Prelude.{◌≡◌, List, [], ◌∷◌, ◌++◌, ℤ, IfOk, OnOk, OnErr};

use std::alloc::{AllocError, Global};
use std::marker::Model;

/// A list of signed numbers. As literals each is a variable of the script, negative where it is negated.
#[derive(Debug, Drop)]
pub struct Numbers {
    // first to last
    items: Vec<i64>,
}

impl Model for Numbers {
    ghost Value = { List ℤ };

    ghost view = { λ n. n.items.items };
}

impl Numbers {
    /// The empty list. It takes no memory.
    pub fn new(alloc: Global) -> Self
        ensures { result ≡ [] }
    {
        Numbers {
            items: Vec::new(alloc),
        }
    }

    /// These numbers.
    pub fn from_slice(alloc: Global, items: &[i64]) -> Result<Self, AllocError>
        ensures { IfOk result (λ n. n ≡ items.now) }
    {
        let items = Vec::from_slice(alloc, items)?;
        Ok(Numbers { items })
    }

    /// Appends a number. After an error, for which only want of memory is a cause, the list is as before.
    pub fn push(&mut self, item: i64) -> Result<(), AllocError>
        ensures pushed { OnOk result (self.new ≡ self.old ++ item ∷ []) }
        ensures unchanged { OnErr result (self.new ≡ self.old) }
    {
        self.items.push(item)?;
        Ok(())
    }

    /// The numbers, in order.
    pub fn as_slice(&self) -> &[i64]
        ensures { result.now ≡ self.now }
    {
        self.items.as_slice()
    }
}
