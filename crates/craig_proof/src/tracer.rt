//! What a solver tells of its clauses, and to whom.

ghost use Rattle.std.specs.Prelude.{◌≡◌, Option, is_some, OnOk};
ghost use Rattle.std.specs.Option.{ForSome, option_map};
ghost use Rattle.craig_base.specs.Clauses.{IsNormal};
ghost use Rattle.craig_spec.specs.Chain.{Told, IsAbove, IsUnforgotten, without_id};
ghost use Rattle.craig_proof.specs.Tracer.{chain_of, original_step, derived_step, Appends, AreUnforgotten, IsReclaimed, IsToldChain};

use crate::Step;
use craig_base::{ClauseId, Lit, Part};
use std::alloc::AllocError;

/// What a solver tells of its clauses: where each comes from, and when it is done with it.
///
/// A tracer has a meaning, which it may tell to proofs: the greatest id that it was told, and the steps that it
/// keeps. One that tells it goes on telling it, and one that doesn't never begins to. After an error nothing more
/// is said of the meaning, and the caller tells the tracer no more. It may also name what no call changes, not even
/// one that fails.
pub trait Tracer {
    // what was told, where the tracer tells it
    ghost told: { Self → Option Told };
    // what no call changes
    ghost Kept: { Type 0 } = { Unit {0} };

    ghost kept: { Self → Self.Kept };

    /// Tells a clause of a part of the input. The ids rise from call to call, and the clause is normal.
    fn original(&mut self, id: ClauseId, part: Part, lits: &[Lit]) -> Result<(), AllocError>
        requires above { ForSome (told self.old) (λ t. IsAbove t id.0) }
        requires normal { IsNormal lits.now }
        ensures told { OnOk result (Appends (told self.old) (told self.new) (original_step id.0 part.0 lits.now)) }
        ensures tells { is_some (told self.new) ≡ is_some (told self.old) }
        ensures kept { kept self.new ≡ kept self.old };

    /// Tells a clause that follows by a chain: the clause of `first` is resolved in turn with those of `rest`, each
    /// on its pivot, and the last resolvent has the literals `lits`, in any order. No antecedent is forgotten.
    fn derived(
        &mut self,
        id: ClauseId,
        lits: &[Lit],
        first: ClauseId,
        rest: &[Step],
    ) -> Result<(), AllocError>
        requires above { ForSome (told self.old) (λ t. IsAbove t id.0) }
        requires unforgotten { AreUnforgotten (told self.old) first.0 (chain_of rest.now) }
        requires chain { IsToldChain (told self.old) lits.now first.0 (chain_of rest.now) }
        ensures told { OnOk result (Appends (told self.old) (told self.new) (derived_step id.0 lits.now first.0 rest.now)) }
        ensures tells { is_some (told self.new) ≡ is_some (told self.old) }
        ensures kept { kept self.new ≡ kept self.old };

    /// Says that the clause will be no antecedent and no root any more. It takes no memory.
    fn forget(&mut self, id: ClauseId)
        requires { ForSome (told self.old) (λ t. IsUnforgotten t.steps id.0) }
        ensures told { told self.new ≡ option_map (without_id id.0) (told self.old) }
        ensures kept { kept self.new ≡ kept self.old };

    /// Lets go of steps that no clause needs that isn't forgotten, or of none. It takes no memory.
    fn reclaim(&mut self)
        ensures told { IsReclaimed (told self.old) (told self.new) }
        ensures tells { is_some (told self.new) ≡ is_some (told self.old) }
        ensures kept { kept self.new ≡ kept self.old };
}
