//! The steps that one clause needs, lent from the store that keeps them.
ghost use Rattle.std.specs.Prelude.{◌≡◌, ◌<◌, ◌≤◌, ◌==◌, All, AllPairs, Contains, length, slice_get, IfOk, Some};
ghost use Rattle.std.specs.Option.{ForSome};
ghost use Rattle.craig_spec.specs.Chain.{AreRising, EachStands};
ghost use Rattle.craig_spec.specs.Needed.{IsNeededPart};
ghost use Rattle.craig_proof.specs.Lent.{ArePlaces, AreWithin, IsAtPlace, IsLent, steps_at};
ghost use Rattle.craig_proof.specs.NeededSteps.{HasId};

use crate::NeededStep;
use crate::finding::needed_steps;
use crate::stored_steps::StoredSteps;
use craig_base::ClauseId;
use std::alloc::{AllocError, Global};
use std::marker::Model;

/// The steps that a root needs, by rising id: the root's own is the last one, and with each step those of its antecedents
/// are among them. They are found once, and each is then lent by its place.
///
/// Contracts see the list of the steps, none of them forgotten.
#[derive(Drop)]
pub struct Needed<'a> {
    // those of the store
    steps: &'a StoredSteps,
    // where the needed ones stand among them, in order
    needed: Vec<usize>,
    // at the id of each needed step its place among the needed ones, where such a table isn't much longer than they
    places: Option<Vec<usize>>,
}

impl<'a> Model for Needed<'a> {
    ghost use Rattle.std.specs.Prelude.{List};
    ghost use Rattle.std.specs.Option.{option_map};
    ghost use Rattle.craig_spec.specs.Chain.{ToldStep};
    ghost use Rattle.craig_proof.specs.Lent.{AreLent, steps_at};

    ghost Value = { List ToldStep };

    ghost view = { λ n. steps_at n.steps.now n.needed.items };

    ghost invariant = { λ n. AreLent n.steps.now n.needed.items (option_map (λ v. v.items) n.places) };
}

/// How many ids up to the root there may be for each needed step, so that places are kept in a table by id.
const SPREAD: usize = 16;

/// A table of places: at the id of each needed step, which is below the bound, its place among them.
fn places_by_id(
    alloc: Global,
    steps: &StoredSteps,
    needed: &[usize],
    bound: usize,
) -> Result<Vec<usize>, AllocError>
    requires rising { AreRising (steps_at steps.now needed.now) }
    requires within { AreWithin steps.now needed.now }
    requires below { All (λ s. s.id < bound) (steps_at steps.now needed.now) }
    ensures { IfOk result (λ v. ArePlaces (steps_at steps.now needed.now) v.items) }
{
    let mut places = vec![in alloc; 0; bound]?;
    for place in 0..needed.len() {
        let id = steps.id(needed[place]);
        places[id.0 as usize] = place;
    }
    Ok(places)
}

/// The table of places, unless it is much longer than the needed steps, whose ids are at most that of the root.
fn table_of_places(
    alloc: Global,
    steps: &StoredSteps,
    needed: &[usize],
    root: ClauseId,
) -> Result<Option<Vec<usize>>, AllocError>
    requires rising { AreRising (steps_at steps.now needed.now) }
    requires within { AreWithin steps.now needed.now }
    requires low { All (λ s. s.id ≤ root.0) (steps_at steps.now needed.now) }
    ensures { IfOk result (λ table. ForSome table (λ v. ArePlaces (steps_at steps.now needed.now) v.items)) }
{
    let last = root.0 as usize;
    if last / SPREAD >= needed.len() {
        return Ok(None);
    }
    match last.checked_add(1) {
        Some(bound) => Ok(Some(places_by_id(alloc, steps, needed, bound)?)),
        None => Ok(None),
    }
}

/// The place among the needed steps of the one that stands there among all, in logarithmic time.
fn place_among(needed: &[usize], stands: usize) -> usize
    requires rising { AllPairs (λ m n. m < n) needed.now }
    requires found { Contains needed.now stands }
    ensures { slice_get needed.now result ≡ Some stands }
{
    needed.partition_point(|place| *place < stands)
}

impl<'a> Needed<'a> {
    /// The steps that the root needs.
    pub(crate) fn of_root(
        alloc: Global,
        steps: &'a StoredSteps,
        root: ClauseId,
    ) -> Result<Needed<'a>, AllocError>
        requires rising { AreRising steps.now }
        requires stand { EachStands steps.now }
        requires root { HasId steps.now root.0 }
        ensures { IfOk result (IsNeededPart steps.now root.0) }
    {
        let needed = needed_steps(alloc, steps, root)?;
        let places = table_of_places(alloc, steps, needed.as_slice(), root)?;
        Ok(Needed {
            steps,
            needed,
            places,
        })
    }

    /// The number of the steps.
    pub fn len(&self) -> usize
        ensures { result ≡ length self.now }
    {
        self.needed.len()
    }

    /// Whether there is no step.
    pub fn is_empty(&self) -> bool
        ensures { result ≡ (length self.now == 0) }
    {
        self.needed.is_empty()
    }

    /// The step at a place, counted from 0.
    pub fn step(&self, place: usize) -> NeededStep<'a>
        requires { place < length self.now }
        ensures { IsAtPlace self.now place (λ s. IsLent s result) }
    {
        let steps = self.steps;
        steps.step(self.needed[place])
    }

    /// The place of the step with the id, which is one of them.
    pub fn place(&self, id: ClauseId) -> usize
        requires { HasId self.now id.0 }
        ensures { IsAtPlace self.now result (λ s. s.id ≡ id.0) }
    {
        match &self.places {
            Some(places) => places[id.0 as usize],
            None => {
                let steps = self.steps;
                place_among(self.needed.as_slice(), steps.place(id))
            }
        }
    }
}
