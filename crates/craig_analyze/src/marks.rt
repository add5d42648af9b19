//! Sets of numbers that are cleared at the cost of what is in them.
ghost use Rattle.std.specs.Prelude.{◌≡◌, ◌≤◌, ℕ, [], false, if◌then◌else◌, length, slice_index_or, vec_len, IfOk, OnOk, OnErr};
ghost use Rattle.craig_base.specs.Counting.{NoneMoreThan, count_of};
ghost use Rattle.craig_analyze.specs.Marks.{IsMarked};

use std::alloc::{AllocError, Global};
use std::marker::Model;

/// A set of numbers. Contracts see the list of its members in the order in which they came in, none twice.
#[derive(Drop)]
pub struct Marks {
    // by number, whether it is in the set
    flags: Vec<bool>,
    marked: Vec<u32>,
}

impl Model for Marks {
    ghost use Rattle.std.specs.Prelude.{ℕ, List};
    ghost use Rattle.craig_analyze.specs.Marks.{AreMarks};

    ghost Value = { List ℕ };

    ghost view = { λ m. m.marked.items };

    ghost invariant = { λ m. AreMarks m.flags.items m.marked.items };
}

impl Marks {
    /// The empty set, which takes no memory.
    pub(crate) fn new(alloc: Global) -> Marks
        ensures { result ≡ [] }
    {
        Marks {
            flags: Vec::new(alloc),
            marked: Vec::new(alloc),
        }
    }

    /// Puts a number into the set, and says whether it is new. After an error the set is as before.
    pub(crate) fn insert(&mut self, number: u32) -> Result<bool, AllocError>
        ensures marked { IfOk result (IsMarked number self.old self.new) }
        ensures unchanged { OnErr result (self.new ≡ self.old) }
    {
        let place = number as usize;
        if is_set(self.flags.as_slice(), place) {
            return Ok(false);
        }
        grow(&mut self.flags, place + 1)?;
        self.marked.push(number)?;
        self.flags[place] = true;
        Ok(true)
    }

    /// Whether the number is in the set.
    pub(crate) fn has(&self, number: u32) -> bool
        ensures { count_of number self.now ≡ (if result then 1 else 0) }
    {
        is_set(self.flags.as_slice(), number as usize)
    }

    /// Takes all numbers out.
    pub(crate) fn clear(&mut self)
        ensures { self.new ≡ [] }
    {
        while let Some(number) = self.marked.pop() {
            self.flags[number as usize] = false;
        }
    }

    /// How many numbers are in the set.
    pub(crate) fn len(&self) -> usize
        ensures number { result ≡ length self.now }
        ensures once { NoneMoreThan 1 self.now }
    {
        self.marked.len()
    }
}

/// Whether the flag of the number is there and set.
fn is_set(flags: &[bool], place: usize) -> bool
    ensures { result ≡ slice_index_or flags.now place false }
{
    place < flags.len() && flags[place]
}

/// Makes room for the flags of all numbers below the bound.
fn grow(flags: &mut Vec<bool>, bound: usize) -> Result<(), AllocError>
    ensures room { OnOk result (bound ≤ vec_len flags.new) }
    ensures same { (n : ℕ) → slice_index_or flags.new.items n false ≡ slice_index_or flags.old.items n false }
{
    if flags.len() < bound {
        flags.resize(bound, false)?;
    }
    Ok(())
}
