//! The inverse of McMillan's system, its dual: D'Silva, Kroening, Purandare and Weissenbacher, "Interpolant Strength",
//! VMCAI 2010.
ghost use Rattle.std.specs.Prelude.{◌≡◌};
ghost use Rattle.craig_spec.specs.PartialInterpolant.{A};

use crate::System;
use craig_base::Var;
use craig_label::Mark;

/// The inverse system: variables of both sides count as ones of side A. It negates what McMillan's system gives with the
/// sides exchanged, and of all labelled systems it gives the weakest interpolants.
#[derive(Clone, Copy, Debug)]
pub struct Inverse;

impl System for Inverse {
    ghost marks = { λ _ _. A };

    fn mark(&self, _var: Var) -> Mark {
        Mark::A
    }
}
