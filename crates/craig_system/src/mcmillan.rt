//! McMillan's system: "Interpolation and SAT-Based Model Checking", CAV 2003.
ghost use Rattle.std.specs.Prelude.{◌≡◌};
ghost use Rattle.craig_spec.specs.PartialInterpolant.{B};

use crate::System;
use craig_base::Var;
use craig_label::Mark;

/// McMillan's system: variables of both sides count as ones of side B. Of all labelled systems it gives the strongest
/// interpolants.
#[derive(Clone, Copy, Debug)]
pub struct McMillan;

impl System for McMillan {
    ghost marks = { λ _ _. B };

    fn mark(&self, _var: Var) -> Mark {
        Mark::B
    }
}
