//! A list of literals, as a clause.

ghost use Rattle.std.specs.Prelude.{◌≡◌, [], ◌∷◌, ◌++◌, OnOk, OnErr};

use crate::Lit;
use std::alloc::{AllocError, Global};
use std::marker::Model;

/// A list of literals.
#[derive(Debug, Drop)]
pub struct Lits {
    // first to last
    literals: Vec<Lit>,
}

impl Model for Lits {
    ghost use Rattle.std.specs.Prelude.{List};
    ghost use Rattle.craig_spec.specs.Literal.{Literal};

    ghost Value = { List Literal };

    ghost view = { λ l. l.literals.items };
}

impl Lits {
    /// The empty list, which takes no memory.
    pub fn new(alloc: Global) -> Lits
        ensures { result ≡ [] }
    {
        Lits {
            literals: Vec::new(alloc),
        }
    }

    /// The list of the literals in the vector.
    pub(crate) fn from_vec(literals: Vec<Lit>) -> Lits
        ensures { result ≡ literals.items }
    {
        Lits { literals }
    }

    /// Appends one literal. After an error the list is as before.
    pub fn push(&mut self, item: Lit) -> Result<(), AllocError>
        ensures pushed { OnOk result (self.new ≡ self.old ++ item ∷ []) }
        ensures unchanged { OnErr result (self.new ≡ self.old) }
    {
        self.literals.push(item)?;
        Ok(())
    }

    /// The literals, first to last.
    pub fn as_slice(&self) -> &[Lit]
        ensures { result.now ≡ self.now }
    {
        self.literals.as_slice()
    }
}
