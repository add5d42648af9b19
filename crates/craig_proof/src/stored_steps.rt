//! The steps that a store keeps, in three lists: fixed rows, and the literals and the packed chains of all.
ghost use Rattle.std.specs.Prelude.{◌≡◌, ◌<◌, ◌++◌, [], ◌∷◌, ℕ, All, Option, length, map, OnErr, OnOk};
ghost use Rattle.craig_spec.specs.Chain.{AreRising, EachStands, forgotten_at};
ghost use Rattle.craig_spec.specs.Needed.{Reclaims};
ghost use Rattle.craig_proof.specs.Lent.{IsAtPlace, IsLent};
ghost use Rattle.craig_proof.specs.NeededSteps.{HasId};
ghost use Rattle.craig_proof.specs.Reclaiming.{AreAllInUse};
ghost use Rattle.craig_proof.specs.StoredSteps.{bytes_of};
ghost use Rattle.craig_proof.specs.Tracer.{chain_of, derived_step, original_step};

use crate::marking::mark_needed;
use crate::packed_steps::PackedSteps;
use crate::packing::append_chain;
use crate::place::place_of;
use crate::row_ends::{bytes_at, end_of_literals};
use crate::sliding::slide_down;
use crate::stored_step::StoredStep;
use crate::{NeededStep, Step};
use craig_base::{ClauseId, Lit, Part};
use std::alloc::{AllocError, Global};
use std::marker::Model;

/// The kept steps, in the order in which they were told.
///
/// A step takes a row of 32 bytes, 4 bytes a literal and the bytes of its packed chain, beside what the lists have
/// reserved.
#[derive(Drop)]
pub(crate) struct StoredSteps {
    // one for each step
    rows: Vec<StoredStep>,
    // those of all steps, in order
    literals: Vec<Lit>,
    // the packed chains of all derived clauses, in order
    bytes: Vec<u8>,
}

impl Model for StoredSteps {
    ghost use Rattle.std.specs.Prelude.{List};
    ghost use Rattle.craig_spec.specs.Chain.{ToldStep};
    ghost use Rattle.craig_proof.specs.StoredSteps.{AreStored, steps_in};

    ghost Value = { List ToldStep };

    ghost view = { λ s. steps_in s.literals.items s.bytes.items s.rows.items };

    ghost invariant = { λ s. AreStored s.rows.items s.literals.items s.bytes.items (steps_in s.literals.items s.bytes.items s.rows.items) };
}

impl StoredSteps {
    /// No step, which takes no memory.
    pub(crate) fn new(alloc: Global) -> StoredSteps
        ensures { result ≡ [] }
    {
        StoredSteps {
            rows: Vec::new(alloc),
            literals: Vec::new(alloc),
            bytes: Vec::new(alloc),
        }
    }

    /// Where memory is taken from.
    pub(crate) fn allocator(&self) -> Global {
        *self.rows.allocator()
    }

    /// The number of the steps.
    pub(crate) fn len(&self) -> usize
        ensures { result ≡ length self.now }
    {
        self.rows.len()
    }

    /// Appends an original of the part. After an error the steps are as before.
    pub(crate) fn push_original(
        &mut self,
        id: ClauseId,
        part: Part,
        lits: &[Lit],
    ) -> Result<(), AllocError>
        ensures pushed { OnOk result (self.new ≡ self.old ++ original_step id.0 part.0 lits.now ∷ []) }
        ensures unchanged { OnErr result (self.new ≡ self.old) }
    {
        // room for the row first, so that no literal stays behind where there is none
        self.rows.reserve(1)?;
        let literals = self.literals.len();
        self.literals.extend_from_slice(lits)?;
        self.rows.push_reserved(StoredStep {
            id,
            literals,
            bytes: self.bytes.len(),
            part: Some(part),
            forgotten: false,
            needed: false,
        });
        Ok(())
    }

    /// Appends a derived clause, whose antecedents have lower ids. After an error the steps are as before.
    pub(crate) fn push_derived(
        &mut self,
        id: ClauseId,
        lits: &[Lit],
        first: ClauseId,
        rest: &[Step],
    ) -> Result<(), AllocError>
        requires first { first.0 < id.0 }
        requires rest { All (λ s. s.antecedent.0 < id.0) rest.now }
        ensures pushed { OnOk result (self.new ≡ self.old ++ derived_step id.0 lits.now first.0 rest.now ∷ []) }
        ensures unchanged { OnErr result (self.new ≡ self.old) }
    {
        // room for the row and the literals first, so that no byte stays behind where there is none
        self.rows.reserve(1)?;
        self.literals.reserve(lits.len())?;
        let bytes = self.bytes.len();
        append_chain(&mut self.bytes, id, first, rest)?;
        let literals = self.literals.len();
        self.literals.extend_from_slice(lits)?;
        self.rows.push_reserved(StoredStep {
            id,
            literals,
            bytes,
            part: None,
            forgotten: false,
            needed: false,
        });
        Ok(())
    }

    /// The place of the step with the id, which is there.
    pub(crate) fn place(&self, id: ClauseId) -> usize
        requires rising { AreRising self.now }
        requires has { HasId self.now id.0 }
        ensures { IsAtPlace self.now result (λ s. s.id ≡ id.0) }
    {
        place_of(self.rows.as_slice(), id)
    }

    /// The id of the step at the place.
    pub(crate) fn id(&self, place: usize) -> ClauseId
        requires { place < length self.now }
        ensures { IsAtPlace self.now place (λ s. s.id ≡ result.0) }
    {
        self.rows[place].id
    }

    /// The literals of the step at the place.
    pub(crate) fn literals(&self, place: usize) -> &[Lit]
        requires { place < length self.now }
        ensures { IsAtPlace self.now place (λ s. s.literals ≡ result.now) }
    {
        let start = self.rows[place].literals;
        let end = end_of_literals(self.rows.as_slice(), place, self.literals.len());
        &self.literals[start..end]
    }

    /// The bytes of the step at the place: none of an original, and its packed chain of a derived clause.
    pub(crate) fn packed(&self, place: usize) -> &[u8]
        requires { place < length self.now }
        ensures { IsAtPlace self.now place (λ s. bytes_of s ≡ result.now) }
    {
        bytes_at(self.rows.as_slice(), self.bytes.as_slice(), place)
    }

    /// Where the step at the place comes from.
    pub(crate) fn step(&self, place: usize) -> NeededStep<'_>
        requires { place < length self.now }
        ensures { IsAtPlace self.now place (λ s. IsLent s result) }
    {
        let row = self.rows[place];
        match row.part {
            Some(part) => NeededStep::Original(part, self.literals(place)),
            None => {
                let (first, rest) = PackedSteps::open(row.id, self.packed(place));
                NeededStep::Derived(first, rest)
            }
        }
    }

    /// Marks the id, which is there, as forgotten.
    pub(crate) fn forget(&mut self, id: ClauseId)
        requires rising { AreRising self.old }
        requires has { HasId self.old id.0 }
        ensures { self.new ≡ map (forgotten_at id.0) self.old }
    {
        let place = place_of(self.rows.as_slice(), id);
        self.rows[place].forgotten = true;
    }
    /// Gives up the steps that no id needs that isn't forgotten, and keeps the others in their order. It takes no memory.
    pub(crate) fn reclaim(&mut self)
        requires rising { AreRising self.old }
        requires stand { EachStands self.old }
        ensures reclaims { (greatest : Option ℕ) → Reclaims (record { greatest = greatest; steps = self.old }) (record { greatest = greatest; steps = self.new }) }
        ensures in_use { AreAllInUse self.old self.new }
    {
        mark_needed(&mut self.rows, &self.bytes);
        let filled = slide_down(&mut self.rows, &mut self.literals, &mut self.bytes);
        self.rows.truncate(filled.rows);
        self.literals.truncate(filled.literals);
        self.bytes.truncate(filled.bytes);
    }
}
