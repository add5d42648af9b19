//! Pudlák's system: "Lower bounds for resolution and cutting plane proofs and monotone computations", JSL 1997.
ghost use Rattle.std.specs.Prelude.{◌≡◌, IfOk};
ghost use Rattle.craig_spec.specs.PartialInterpolant.{AB};

use crate::System;
use craig_base::Var;
use craig_label::Mark;

/// Pudlák's system: variables of both sides count as such.
#[derive(Clone, Copy, Debug)]
pub struct Pudlak;

impl System for Pudlak {
    ghost marks = { λ _ _. AB };

    fn mark(&self, _var: Var) -> Mark {
        Mark::Ab
    }
}
