//! Where a kept step stands.

ghost use Rattle.std.specs.Prelude.{◌≡◌, ◌<◌, ◌≤◌, ℕ, length, AllPairs, IfSome, slice_index_or};
ghost use Rattle.craig_proof.specs.declared.stored_step.StoredStep.{StoredStep};

use crate::stored_step::StoredStep;
use craig_base::ClauseId;

/// The place of the step with the id where no id was left out before it, as it is mostly.
fn dense_place(rows: &[StoredStep], id: ClauseId) -> Option<usize>
    ensures { IfSome result (λ place. (place < length rows.now) × ((d : StoredStep) → (slice_index_or rows.now place d).id.0 ≡ id.0)) }
{
    let first = rows.first()?;
    let place = id.0.checked_sub(first.id.0)? as usize;
    let row = rows.get(place)?;
    (row.id == id).then_some(place)
}

/// The place of the step with the id, where there is one: in constant time where no id was left out before it, and else
/// in logarithmic time.
pub(crate) fn place_of(rows: &[StoredStep], id: ClauseId) -> usize
    requires { AllPairs (λ r s. r.id.0 < s.id.0) rows.now }
    ensures bound { result ≤ length rows.now }
    ensures found { (k : ℕ) (d : StoredStep) → k < length rows.now → (slice_index_or rows.now k d).id.0 ≡ id.0 → result ≡ k }
{
    match dense_place(rows, id) {
        Some(place) => place,
        None => rows.partition_point(|row| row.id.0 < id.0),
    }
}
