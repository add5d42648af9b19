//! A list of edges as one value.
ghost use Rattle.std.specs.Prelude.{◌≡◌, ◌++◌, [], ◌∷◌, OnOk, OnErr};

use craig_aig::Edge;
use std::alloc::{AllocError, Global};
use std::marker::Model;

/// A list of edges.
#[derive(Debug, Drop)]
pub struct Edges {
    items: Vec<Edge>,
}

impl Model for Edges {
    ghost use Rattle.std.specs.Prelude.{List};
    ghost use Rattle.craig_aig.specs.Edges.{Edge};

    ghost Value = { List Edge };

    ghost view = { λ e. e.items.items };
}

impl Edges {
    /// The empty list, which takes no memory.
    pub fn new(alloc: Global) -> Edges
        ensures { result ≡ [] }
    {
        Edges {
            items: Vec::new(alloc),
        }
    }

    /// Appends an edge. After an error the list is as before.
    pub fn push(&mut self, item: Edge) -> Result<(), AllocError>
        ensures pushed { OnOk result (self.new ≡ self.old ++ item ∷ []) }
        ensures unchanged { OnErr result (self.new ≡ self.old) }
    {
        self.items.push(item)?;
        Ok(())
    }

    /// The edges, first to last.
    pub fn as_slice(&self) -> &[Edge]
        ensures { result.now ≡ self.now }
    {
        self.items.as_slice()
    }
}
