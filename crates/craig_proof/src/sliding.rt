//! How the steps whose rows are marked slide down over those that are given up: one walk from the first row to the last,
//! which moves each literal and each byte at most once, and takes no memory. A packed chain has differences of ids
//! alone, so that none of its bytes changes.
ghost use Rattle.std.specs.Prelude.{◌≡◌, ◌<◌, ◌≤◌, ◌+◌, List, length, slice_index_or, true};
ghost use Rattle.craig_spec.specs.Chain.{ToldStep};
ghost use Rattle.craig_proof.specs.Reclaiming.{IsMovedDown, IsSliding, left_from, marked_steps};
ghost use Rattle.craig_proof.specs.StoredSteps.{AreStored};
ghost use Rattle.craig_proof.specs.declared.stored_step.StoredStep.{StoredStep};

use crate::row_ends::{end_of_bytes, end_of_literals};
use crate::stored_step::StoredStep;
use craig_base::Lit;

/// How far each list has what is left.
#[derive(Clone, Copy)]
pub(crate) struct Filled {
    // how many rows
    pub(crate) rows: usize,
    // how many literals
    pub(crate) literals: usize,
    // how many bytes
    pub(crate) bytes: usize,
}

/// Moves a part of a list down to a place before it, and leaves what lies behind it.
fn move_down<T: Copy>(items: &mut [T], start: usize, end: usize, to: usize)
    requires down { to ≤ start }
    requires part { start ≤ end }
    requires within { end ≤ length items.old }
    ensures { IsMovedDown items.old items.new start end to }
{
    items.copy_within(start..end, to);
}

/// Slides the step of the row at the place down behind those that are left before it.
fn keep_step(
    rows: &mut [StoredStep],
    literals: &mut [Lit],
    bytes: &mut [u8],
    place: usize,
    filled: Filled,
) -> Filled
    requires within { place < length rows.old }
    requires marked { (d : StoredStep) → (slice_index_or rows.old place d).needed ≡ true }
    requires sliding { IsSliding rows.old literals.old bytes.old place filled }
    ensures sliding { IsSliding rows.new literals.new bytes.new (place + 1) result }
    ensures left { left_from rows.new literals.new bytes.new (place + 1) result ≡ left_from rows.old literals.old bytes.old place filled }
{
    let mut row = rows[place];
    let literals_end = end_of_literals(rows, place, literals.len());
    let bytes_end = end_of_bytes(rows, place, bytes.len());
    move_down(literals, row.literals, literals_end, filled.literals);
    move_down(bytes, row.bytes, bytes_end, filled.bytes);
    let after = Filled {
        rows: filled.rows + 1,
        literals: filled.literals + (literals_end - row.literals),
        bytes: filled.bytes + (bytes_end - row.bytes),
    };
    row.literals = filled.literals;
    row.bytes = filled.bytes;
    rows[filled.rows] = row;
    after
}

/// Slides the step of the row at the place down where the row is marked, and gives it up where it isn't.
fn slide_step(
    rows: &mut [StoredStep],
    literals: &mut [Lit],
    bytes: &mut [u8],
    place: usize,
    filled: Filled,
) -> Filled
    requires within { place < length rows.old }
    requires sliding { IsSliding rows.old literals.old bytes.old place filled }
    ensures sliding { IsSliding rows.new literals.new bytes.new (place + 1) result }
    ensures left { left_from rows.new literals.new bytes.new (place + 1) result ≡ left_from rows.old literals.old bytes.old place filled }
{
    if rows[place].needed {
        keep_step(rows, literals, bytes, place, filled)
    } else {
        filled
    }
}

/// Slides the steps whose rows are marked down to the front, in their order, and gives how far each list then has them:
/// what lies behind is nobody's.
pub(crate) fn slide_down(rows: &mut [StoredStep], literals: &mut [Lit], bytes: &mut [u8]) -> Filled
    requires { (steps : List ToldStep) × AreStored rows.old literals.old bytes.old steps }
    ensures sliding { IsSliding rows.new literals.new bytes.new (length rows.new) result }
    ensures left { (steps : List ToldStep) → AreStored rows.old literals.old bytes.old steps → left_from rows.new literals.new bytes.new (length rows.new) result ≡ marked_steps rows.old steps }
{
    let mut filled = Filled {
        rows: 0,
        literals: 0,
        bytes: 0,
    };
    for place in 0..rows.len() {
        filled = slide_step(rows, literals, bytes, place, filled);
    }
    filled
}
