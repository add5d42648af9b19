//! All known variables in a row, with a table of their places.
ghost use Rattle.std.specs.Prelude.{◌≡◌, ◌<◌, ◌≤◌, ℕ, [], OnOk, OnErr, length, map, slice_index};
ghost use Rattle.craig_order.specs.Heap.{IsAppended, exchanged};

use std::alloc::{AllocError, Global};
use std::marker::Model;

/// A row in which each variable below a number stands once.
///
/// It is seen as the table of places: by variable, its position in the row, counted from 0.
#[derive(Drop)]
pub(crate) struct Permutation {
    // the variables, first to last; entries past the number of variables say nothing
    row: Vec<u32>,
    // by variable, its place in the row
    places: Vec<u32>,
}

impl Model for Permutation {
    ghost use Rattle.std.specs.Prelude.{ℕ, List};
    ghost use Rattle.craig_order.specs.Heap.{ArePlaces};

    ghost Value = { List ℕ };

    ghost view = { λ p. p.places.items };

    ghost invariant = { λ p. ArePlaces p.row.items p.places.items };
}

impl Permutation {
    /// The empty row, which takes no memory.
    pub(crate) fn new(alloc: Global) -> Permutation
        ensures { result ≡ [] }
    {
        Permutation {
            row: Vec::new(alloc),
            places: Vec::new(alloc),
        }
    }

    /// Appends the variables up to a number that are not there yet, in their order. After an error all is as before.
    pub(crate) fn grow(&mut self, count: usize) -> Result<(), AllocError>
        requires more { length self.old ≤ count }
        requires few { count ≤ 2147483648 }
        ensures appended { OnOk result (IsAppended self.old self.new count) }
        ensures unchanged { OnErr result (self.new ≡ self.old) }
    {
        let known = self.places.len();
        self.row.resize(count, 0)?;
        self.places.reserve(count - known)?;
        for var in known..count {
            self.row[var] = var as u32;
            self.places.push_reserved(var as u32);
        }
        Ok(())
    }

    /// How many variables there are.
    pub(crate) fn len(&self) -> usize
        ensures { result ≡ length self.now }
    {
        self.places.len()
    }

    /// The place of a variable.
    pub(crate) fn place_of(&self, var: usize) -> usize
        requires { var < length self.now }
        ensures place { result ≡ slice_index self.now var }
        ensures within { result < length self.now }
        ensures only { (v : ℕ) → v < length self.now → slice_index self.now v ≡ result → v ≡ var }
        ensures few { length self.now ≤ 2147483648 }
    {
        self.places[var] as usize
    }

    /// The variable at a place.
    pub(crate) fn at(&self, place: usize) -> usize
        requires { place < length self.now }
        ensures known { result < length self.now }
        ensures place { slice_index self.now result ≡ place }
        ensures only { (v : ℕ) → v < length self.now → slice_index self.now v ≡ place → v ≡ result }
        ensures few { length self.now ≤ 2147483648 }
    {
        self.row[place] as usize
    }

    /// Exchanges the variables at two places.
    pub(crate) fn exchange(&mut self, first: usize, second: usize)
        requires first { first < length self.old }
        requires second { second < length self.old }
        ensures { self.new ≡ map (exchanged first second) self.old }
    {
        let one = self.row[first];
        let other = self.row[second];
        self.row[first] = other;
        self.row[second] = one;
        self.places[one as usize] = second as u32;
        self.places[other as usize] = first as u32;
    }
}
