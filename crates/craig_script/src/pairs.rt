//! A list of pairs of a part and a literal, as a solve is given them.

ghost use Rattle.std.specs.Prelude.{◌≡◌, ℕ, List, [], ◌∷◌, ◌++◌, ℤ, OnOk, OnErr};

use std::alloc::{AllocError, Global};
use std::marker::Model;

/// A list of pairs. The first of each is a part, and the second a literal that is assumed in it.
#[derive(Debug, Drop)]
pub struct Pairs {
    // first to last, each a part and a literal
    items: Vec<(u64, i64)>,
}

impl Model for Pairs {
    ghost Value = { List (ℕ × ℤ) };

    ghost view = { λ p. p.items.items };
}

impl Pairs {
    /// The empty list. It takes no memory.
    pub fn new(alloc: Global) -> Self
        ensures { result ≡ [] }
    {
        Pairs {
            items: Vec::new(alloc),
        }
    }

    /// Appends a pair. After an error, for which only want of memory is a cause, the list is as before.
    pub fn push(&mut self, item: (u64, i64)) -> Result<(), AllocError>
        ensures pushed { OnOk result (self.new ≡ self.old ++ item ∷ []) }
        ensures unchanged { OnErr result (self.new ≡ self.old) }
    {
        self.items.push(item)?;
        Ok(())
    }

    /// The pairs, in order.
    pub fn as_slice(&self) -> &[(u64, i64)]
        ensures { result.now ≡ self.now }
    {
        self.items.as_slice()
    }
}
