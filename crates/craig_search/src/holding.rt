//! What follows from held clauses is held, and told with its chain.
ghost use Rattle.std.specs.Prelude.{◌≡◌, ◌<◌, true, Some, None, All, IfOk, OnOk, is_some};
ghost use Rattle.craig_spec.specs.Chain.{ChainOk};
ghost use Rattle.craig_base.specs.Arena.{ChangesOnly, clause_at};
ghost use Rattle.craig_base.specs.Clauses.{IsNormal};
ghost use Rattle.craig_proof.specs.Covers.{IsCovering};
ghost use Rattle.craig_proof.specs.Tracer.{chain_of};
ghost use Rattle.craig_watch.specs.Held.{IsConsistent, MayBeHeld, held_clause, with_held};
ghost use Rattle.craig_search.specs.Journal.{StayKept};
ghost use Rattle.craig_search.specs.Searching.{GoesOn};

use craig_base::{ClauseId, Flags, Lit};
use craig_proof::{Step, Tracer};
use craig_watch::Held;
use std::alloc::AllocError;

/// Holds a clause that a chain over held clauses derives, and tells it with its chain.
pub(crate) fn hold_derived<T: Tracer>(
    held: &mut Held,
    tracer: &mut T,
    lits: &[Lit],
    flags: Flags,
    first: ClauseId,
    rest: &[Step],
) -> Result<ClauseId, AllocError>
    requires normal { IsNormal lits.now }
    requires known { All (λ l. l.var < held.old.vars) lits.now }
    requires fits { MayBeHeld held.old lits.now }
    requires learnt { flags.learnt ≡ true }
    requires chain { ChainOk (held_clause held.old.arena) lits.now first.0 (chain_of rest.now) }
    requires covers { IsCovering (T.told tracer.old) (held_clause held.old.arena) held.old.arena.given }
    ensures goes_on { OnOk result (GoesOn held.old held.new (T.told tracer.old) (T.told tracer.new)) }
    ensures stay { OnOk result (StayKept held.old.arena held.new.arena) }
    ensures held { OnOk result (held.new ≡ with_held held.old lits.now flags) }
    ensures next { IfOk result (λ id. id.0 ≡ held.old.arena.given) }
    ensures fresh { IfOk result (λ id. clause_at held.old.arena id.0 ≡ None) }
    ensures only { IfOk result (λ id. ChangesOnly held.old.arena held.new.arena id.0 (Some (record { literals = lits.now; flags = flags }))) }
    ensures vars { held.new.vars ≡ held.old.vars }
    ensures consistent { OnOk result (IsConsistent held.new) }
    ensures covers { OnOk result (IsCovering (T.told tracer.new) (held_clause held.new.arena) held.new.arena.given) }
    ensures tells { is_some (T.told tracer.new) ≡ is_some (T.told tracer.old) }
    ensures kept { T.kept tracer.new ≡ T.kept tracer.old }
{
    craig_proof::laws::covered_chain_is_told();
    let id = held.hold(lits, flags)?;
    tracer.derived(id, lits, first, rest)?;
    Ok(id)
}
