//! Laws of labels. The functions do nothing.
ghost use Rattle.std.specs.Prelude.{◌≡◌, ℕ};
ghost use Rattle.std.specs.Ordering.{nat_cmp};
ghost use Rattle.craig_spec.specs.PartialInterpolant.{rank};
ghost use Rattle.craig_label.specs.Marks.{label_of};
ghost use Rattle.craig_label.specs.Sides.{IsNoted, SidesView, side_at};
ghost use Rattle.craig_label.specs.declared.side.Side.{Side};

use crate::Mark;

/// Marks are ordered as the labels that they give: B is below AB, and AB below A.
pub fn marks_rise()
    ensures { (m n : Mark) → ⟦<Mark as Ord>⟧.cmp m n ≡ nat_cmp (rank (label_of m)) (rank (label_of n)) }
{}

/// A variable that is noted in part 0 occurs on both sides of every cut.
pub fn common_variables_are_shared()
    ensures { (old new : SidesView) (x cut : ℕ) → IsNoted old x 0 new → side_at new cut x ≡ Side.Shared }
{}
