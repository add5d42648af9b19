//! A list of clauses.

ghost use Rattle.std.specs.Prelude.{◌≡◌, [], ◌∷◌, ◌++◌, OnOk, OnErr};

use crate::Lits;
use std::alloc::{AllocError, Global};
use std::marker::Model;

/// A list of clauses.
#[derive(Debug, Drop)]
pub struct Clauses {
    // first to last
    clauses: Vec<Lits>,
}

impl Model for Clauses {
    ghost use Rattle.std.specs.Prelude.{List};
    ghost use Rattle.craig_spec.specs.Literal.{Clause};

    ghost Value = { List Clause };

    ghost view = { λ c. c.clauses.items };
}

impl Clauses {
    /// The empty list, which takes no memory.
    pub fn new(alloc: Global) -> Clauses
        ensures { result ≡ [] }
    {
        Clauses {
            clauses: Vec::new(alloc),
        }
    }

    /// Appends one clause. After an error the list is as before.
    pub fn push(&mut self, item: Lits) -> Result<(), AllocError>
        ensures pushed { OnOk result (self.new ≡ self.old ++ item ∷ []) }
        ensures unchanged { OnErr result (self.new ≡ self.old) }
    {
        self.clauses.push(item)?;
        Ok(())
    }

    /// The clauses, first to last.
    pub fn as_slice(&self) -> &[Lits]
        ensures { result.now ≡ self.now }
    {
        self.clauses.as_slice()
    }
}
