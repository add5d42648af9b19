//! Where the literals and the bytes of a row lie: up to where those of the next one begin.
ghost use Rattle.std.specs.Prelude.{◌≡◌, ◌<◌, ◌+◌, List, drop, length};
ghost use Rattle.craig_spec.specs.Chain.{ToldStep};
ghost use Rattle.craig_proof.specs.Lent.{IsAtPlace};
ghost use Rattle.craig_proof.specs.StoredSteps.{AreStored, all_literals, bytes_of, first_start};

use crate::stored_step::StoredStep;

/// Where the literals of the row at the place end.
pub(crate) fn end_of_literals(rows: &[StoredStep], place: usize, all: usize) -> usize
    requires { place < length rows.now }
    ensures { result ≡ first_start (λ r. r.literals) (drop (place + 1) rows.now) all }
{
    match rows.get(place + 1) {
        Some(next) => next.literals,
        None => all,
    }
}

/// Where the bytes of the row at the place end.
pub(crate) fn end_of_bytes(rows: &[StoredStep], place: usize, all: usize) -> usize
    requires { place < length rows.now }
    ensures { result ≡ first_start (λ r. r.bytes) (drop (place + 1) rows.now) all }
{
    match rows.get(place + 1) {
        Some(next) => next.bytes,
        None => all,
    }
}

/// The bytes of the row at the place.
pub(crate) fn bytes_at<'a>(rows: &[StoredStep], bytes: &'a [u8], place: usize) -> &'a [u8]
    requires within { place < length rows.now }
    requires stored { (steps : List ToldStep) × AreStored rows.now (all_literals steps) bytes.now steps }
    ensures { (steps : List ToldStep) → AreStored rows.now (all_literals steps) bytes.now steps → IsAtPlace steps place (λ s. bytes_of s ≡ result.now) }
{
    let start = rows[place].bytes;
    let end = end_of_bytes(rows, place, bytes.len());
    &bytes[start..end]
}
