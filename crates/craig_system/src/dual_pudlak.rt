//! The dual of Pudlák's system, after D'Silva, Kroening, Purandare and Weissenbacher, "Interpolant Strength", VMCAI 2010:
//! its own dual as a function, by other gates.
ghost use Rattle.std.specs.Prelude.{◌≡◌, ◌<◌, length, IfOk};
ghost use Rattle.craig_spec.specs.PartialInterpolant.{AB};
ghost use Rattle.craig_aig.specs.Growth.{ArenaGrows};
ghost use Rattle.craig_system.specs.Rules.{IsChoice};

use crate::System;
use crate::choice::disjunction_of_both;
use craig_aig::{Aig, Edge};
use craig_base::{Lit, Var};
use craig_label::Mark;
use std::alloc::AllocError;

/// The dual of Pudlák's system: variables of both sides count as such, and the choice by a pivot of both sides is a
/// disjunction of two conjunctions. Each edge has the function that Pudlák's system gives it.
#[derive(Clone, Copy, Debug)]
pub struct DualPudlak;

impl System for DualPudlak {
    ghost marks = { λ _ _. AB };

    fn mark(&self, _var: Var) -> Mark {
        Mark::Ab
    }

    fn choice(
        &self,
        aig: &mut Aig,
        pivot: Lit,
        left: Edge,
        right: Edge,
    ) -> Result<Edge, AllocError> {
        disjunction_of_both(aig, pivot, left, right)
    }
}
