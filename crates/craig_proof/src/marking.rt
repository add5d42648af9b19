//! Which steps an id needs that isn't forgotten: marks in their rows.
//!
//! At first those are marked that aren't forgotten. Then one walk from the last step to the first marks with each marked
//! step those of its antecedents, which stand before it. It takes no memory.
ghost use Rattle.std.specs.Prelude.{◌≡◌, ◌<◌, ◌+◌, ℕ, All, AllPairs, List, length, map, nat_eq};
ghost use Rattle.std.specs.List.{list_any};
ghost use Rattle.craig_spec.specs.Chain.{Derived, ToldStep, antecedents};
ghost use Rattle.craig_proof.specs.Reclaiming.{AreMarkedFrom, AreSameRows, HasRow, HaveChains, MarksMore, marked_unless_forgotten};

use crate::packed_steps::PackedSteps;
use crate::place::place_of;
use crate::row_ends::bytes_at;
use crate::stored_step::StoredStep;
use craig_base::ClauseId;

/// Marks the row of the id.
fn mark(rows: &mut [StoredStep], id: ClauseId)
    requires rising { AllPairs (λ r s. r.id.0 < s.id.0) rows.old }
    requires has { HasRow rows.old id.0 }
    ensures { MarksMore (λ x. nat_eq x id.0) rows.old rows.new }
{
    let place = place_of(rows, id);
    rows[place].needed = true;
}

/// Marks the rows of the antecedents.
fn mark_antecedents(rows: &mut [StoredStep], first: ClauseId, rest: PackedSteps<'_>)
    requires rising { AllPairs (λ r s. r.id.0 < s.id.0) rows.old }
    requires have { All (HasRow rows.old) (antecedents (Derived first.0 rest)) }
    ensures { MarksMore (λ x. list_any (nat_eq x) (antecedents (Derived first.0 rest.entry))) rows.old rows.new }
{
    mark(rows, first);
    let mut left = rest;
    while let Some(step) = left.next() {
        mark(rows, step.antecedent);
    }
}

/// Where the row at the place is marked, marks those of its antecedents.
fn mark_before(rows: &mut [StoredStep], bytes: &[u8], place: usize)
    requires within { place < length rows.old }
    requires chains { (steps : List ToldStep) × HaveChains rows.old bytes.now steps }
    ensures same { AreSameRows rows.old rows.new }
    ensures marked { (steps : List ToldStep) → HaveChains rows.old bytes.now steps → AreMarkedFrom steps rows.old (place + 1) → AreMarkedFrom steps rows.new place }
{
    let row = rows[place];
    if row.needed && row.part.is_none() {
        let (first, rest) = PackedSteps::open(row.id, bytes_at(rows, bytes, place));
        mark_antecedents(rows, first, rest);
    }
}

/// Marks the rows that aren't forgotten, and no others.
fn mark_unforgotten(rows: &mut [StoredStep])
    ensures { rows.new ≡ map marked_unless_forgotten rows.old }
{
    for place in 0..rows.len() {
        rows[place].needed = !rows[place].forgotten;
    }
}

/// Marks the rows that an id needs that isn't forgotten, and no others.
pub(crate) fn mark_needed(rows: &mut [StoredStep], bytes: &[u8])
    requires { (steps : List ToldStep) × HaveChains rows.old bytes.now steps }
    ensures same { AreSameRows rows.old rows.new }
    ensures marked { (steps : List ToldStep) → HaveChains rows.old bytes.now steps → AreMarkedFrom steps rows.new 0 }
{
    mark_unforgotten(rows);
    let mut place = rows.len();
    while place > 0 {
        place -= 1;
        mark_before(rows, bytes, place);
    }
}
