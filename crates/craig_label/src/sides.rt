//! The first and the last part of each variable, from which its side at each cut is read.
ghost use Rattle.std.specs.Prelude.{◌≡◌, ◌<◌, ◌≤◌, ◌↔◌, ℕ, [], slice_index_or, vec_len, IfOk, IfSome, OnOk, OnErr, None};
ghost use Rattle.craig_label.specs.Sides.{HasRange, IsNoted, IsRange, IsSides, range_of, side_at};
ghost use Rattle.craig_label.specs.declared.side.Side.{Side};

use crate::Side;
use crate::range::PartRange;
use craig_base::{Part, Var};
use std::alloc::{AllocError, Global};
use std::marker::Model;

/// The parts that variables occur in: of each variable the first and the last one.
///
/// Contracts see the number of parts and a range for each dense variable that was noted.
#[derive(Debug, Drop)]
pub struct Sides {
    parts: u16,
    // by dense variable
    ranges: Vec<Option<PartRange>>,
}

impl Model for Sides {
    ghost use Rattle.craig_label.specs.Sides.{SidesView, IsSides};

    ghost Value = { SidesView };

    ghost view = { λ s. record { parts = s.parts; ranges = s.ranges.items } };

    ghost invariant = { λ s. IsSides (record { parts = s.parts; ranges = s.ranges.items }) };
}

/// Makes the table long enough for the variable, with empty entries. After an error it is as before.
fn reach(ranges: &mut Vec<Option<PartRange>>, var: Var) -> Result<(), AllocError>
    ensures within { OnOk result (var.0 < vec_len ranges.new) }
    ensures same { (k : ℕ) → slice_index_or ranges.new.items k None ≡ slice_index_or ranges.old.items k None }
    ensures unchanged { OnErr result (ranges.new.items ≡ ranges.old.items) }
{
    let place = var.0 as usize;
    if ranges.len() <= place {
        ranges.resize(place + 1, None)?;
    }
    Ok(())
}

impl Sides {
    /// No variable is noted, in so many parts. It takes no memory.
    pub fn new(alloc: Global, parts: u16) -> Sides
        requires { 1 ≤ parts }
        ensures { result ≡ record { parts = parts; ranges = [] } }
    {
        Sides {
            parts,
            ranges: Vec::new(alloc),
        }
    }

    /// Notes that a dense variable occurs in a part: one counted from 1, or the common part 0, which is on both sides of
    /// every cut. It takes memory for the variables up to this one. After an error nothing is noted.
    pub fn note(&mut self, var: Var, part: Part) -> Result<(), AllocError>
        requires { part.0 ≤ self.old.parts }
        ensures noted { OnOk result (IsNoted self.old var.0 part.0 self.new) }
        ensures is_sides { IsSides self.new }
        ensures unchanged { OnErr result (self.new ≡ self.old) }
    {
        reach(&mut self.ranges, var)?;
        let place = var.0 as usize;
        let range = PartRange::widened(self.ranges[place], part);
        self.ranges[place] = Some(range);
        Ok(())
    }

    /// The first and the last part that a dense variable was noted in, where it was noted.
    pub fn range(&self, var: Var) -> Option<PartRange>
        ensures value { result ≡ range_of self.now var.0 }
        ensures is_range { IfSome result (λ r. IsRange self.now.parts r) }
    {
        self.ranges.get(var.0 as usize).copied().flatten()
    }

    /// Gives a dense variable a range, or none, in place of what was noted of it: so notes are taken back. It takes memory
    /// where a variable behind all noted ones gets a range. After an error all is as before.
    pub fn set_range(&mut self, var: Var, range: Option<PartRange>) -> Result<(), AllocError>
        requires { IfSome range (λ r. IsRange self.old.parts r) }
        ensures set { OnOk result (HasRange self.old var.0 range self.new) }
        ensures is_sides { IsSides self.new }
        ensures unchanged { OnErr result (self.new ≡ self.old) }
    {
        reach(&mut self.ranges, var)?;
        self.ranges[var.0 as usize] = range;
        Ok(())
    }

    /// An equal value.
    pub fn copy(&self) -> Result<Sides, AllocError>
        ensures { IfOk result (λ s. s ≡ self.now) }
    {
        let alloc = *self.ranges.allocator();
        let ranges = Vec::from_slice(alloc, self.ranges.as_slice())?;
        Ok(Sides {
            parts: self.parts,
            ranges,
        })
    }

    /// The number of parts.
    pub fn parts(&self) -> u16
        ensures value { result ≡ self.now.parts }
        ensures is_sides { IsSides self.now }
    {
        self.parts
    }

    /// Where a dense variable occurs at the cut that puts the parts from 1 to `cut` on side A, the later ones on side B
    /// and part 0 on both.
    pub fn class(&self, var: Var, cut: u16) -> Side
        requires { cut ≤ self.now.parts }
        ensures side { result ≡ side_at self.now cut var.0 }
        ensures absent { (result ≡ Side.Absent) ↔ (range_of self.now var.0 ≡ None) }
    {
        let range = self.ranges.get(var.0 as usize).copied().flatten();
        match range {
            None => Side::Absent,
            Some(range) if range.first > cut => Side::BLocal,
            Some(range) if range.first > 0 && range.last <= cut => Side::ALocal,
            Some(_) => Side::Shared,
        }
    }
}
