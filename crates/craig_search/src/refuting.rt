//! The end of a search whose clauses have no model.
ghost use Rattle.std.specs.Prelude.{◌≡◌, IfOk, OnOk, is_some};
ghost use Rattle.craig_watch.specs.Held.{IsConsistent, IsFalsified, held_clause};
ghost use Rattle.craig_proof.specs.Covers.{IsCovering};
ghost use Rattle.craig_search.specs.Searching.{TellsEmptyClause};

use craig_analyze::Analysis;
use craig_base::ClauseId;
use craig_proof::Tracer;
use craig_watch::Held;
use std::alloc::AllocError;

/// Tells the empty clause, which follows from a clause that is false at level 0, and gives its id.
pub(crate) fn refuted<T: Tracer>(
    held: &mut Held,
    tracer: &mut T,
    analysis: &mut Analysis,
    conflict: ClauseId,
) -> Result<ClauseId, AllocError>
    requires level { held.old.level ≡ 0 }
    requires conflict { IsFalsified held.old conflict.0 }
    requires covers { IsCovering (T.told tracer.old) (held_clause held.old.arena) held.old.arena.given }
    ensures refuted { IfOk result (λ root. TellsEmptyClause held.old held.new root.0 (T.told tracer.old) (T.told tracer.new)) }
    ensures consistent { OnOk result (IsConsistent held.new) }
    ensures vars { held.new.vars ≡ held.old.vars }
    ensures covers { OnOk result (IsCovering (T.told tracer.new) (held_clause held.new.arena) held.new.arena.given) }
    ensures tells { is_some (T.told tracer.new) ≡ is_some (T.told tracer.old) }
    ensures kept { T.kept tracer.new ≡ T.kept tracer.old }
{
    craig_proof::laws::covered_chain_is_told();
    let empty = analysis.refute_with(held, conflict)?;
    let lits = empty.lits.as_slice();
    let rest = empty.rest.as_slice();
    let root = held.number()?;
    tracer.derived(root, lits, empty.first, rest)?;
    Ok(root)
}
