//! Learning from a clause that is false.
ghost use Rattle.std.specs.Prelude.{◌≡◌, ◌<◌, ◌+◌, ℕ, Bool, All, IfOk, OnOk, is_some, length};
ghost use Rattle.craig_watch.specs.Trail.{part_up_to};
ghost use Rattle.craig_watch.specs.Held.{IsConsistent, IsFalsified, MayBeHeld, held_clause};
ghost use Rattle.craig_proof.specs.Covers.{IsCovering};
ghost use Rattle.craig_analyze.specs.Learnt.{IsDerived};
ghost use Rattle.craig_search.specs.Journal.{LearnsNext, StayKept};
ghost use Rattle.craig_search.specs.Searching.{GoesOn, IsNew, KeepsJournals, IsUnderWay, with_learnt};

use crate::Journal;
use crate::going_back::go_back;
use crate::holding::hold_derived;
use craig_analyze::{Analysis, Learnt};
use craig_base::{ClauseId, Flags, Lit};
use craig_order::{Order, Pace};
use craig_proof::{Step, Tracer};
use craig_watch::Held;
use std::alloc::AllocError;

/// Learns a clause from one that is false above level 0, goes back to where it forces its first literal, and holds it.
/// It is the next lemma.
pub(crate) fn learn<T: Tracer>(
    held: &mut Held,
    order: &mut Order,
    tracer: &mut T,
    analysis: &mut Analysis,
    pace: &mut Pace,
    journal: &Journal,
    conflict: ClauseId,
) -> Result<Learnt, AllocError>
    requires level { 0 < held.old.level }
    requires conflict { IsFalsified held.old conflict.0 }
    requires under_way { IsUnderWay held.old order.old (T.told tracer.old) }
    ensures goes_on { OnOk result (GoesOn held.old held.new (T.told tracer.old) (T.told tracer.new)) }
    ensures journals { OnOk result (KeepsJournals held.old held.new) }
    ensures given { OnOk result (held.new.arena.given ≡ held.old.arena.given + 1) }
    ensures listed { IfOk result (λ learnt. LearnsNext journal.now held.old held.new (T.told tracer.old) learnt.lits) }
    ensures stay { OnOk result (StayKept held.old.arena held.new.arena) }
    ensures under_way { OnOk result (IsUnderWay held.new order.new (T.told tracer.new)) }
    ensures back { OnOk result ((level : ℕ) × (held.new.trail ≡ part_up_to level held.old.trail)) }
    ensures vars { held.new.vars ≡ held.old.vars }
    ensures order { order.new.dead ≡ order.old.dead }
    ensures tells { is_some (T.told tracer.new) ≡ is_some (T.told tracer.old) }
    ensures kept { T.kept tracer.new ≡ T.kept tracer.old }
{
    craig_watch::laws::asserting_clauses_may_be_held();
    craig_watch::laws::entries_have_places();
    let learnt = analysis.learn_with(held, conflict)?;
    pace.conflict(learnt.glue);
    raise(order, learnt.lits.as_slice(), learnt.rest.as_slice());
    go_back(held, order, learnt.back);
    hold_learnt(held, tracer, &learnt, journal)?;
    Ok(learnt)
}

/// Raises the scores of the variables that analysis met: those of the learnt clause, and those that were resolved on.
fn raise(order: &mut Order, lits: &[Lit], rest: &[Step])
    requires lits { All (λ l. l.var < length order.old.given_back) lits.now }
    requires pivots { All (λ s. s.pivot.var < length order.old.given_back) rest.now }
    ensures { order.new ≡ order.old }
{
    for lit in lits {
        order.bump(lit.var());
    }
    for step in rest {
        order.bump(step.pivot.var());
    }
    order.decay();
}

/// Holds a learnt clause, and tells it with its chain. One that may stand in the journal is kept.
fn hold_learnt<T: Tracer>(
    held: &mut Held,
    tracer: &mut T,
    learnt: &Learnt,
    journal: &Journal,
) -> Result<(), AllocError>
    requires derived { IsDerived held.old.arena learnt.now }
    requires known { All (λ l. l.var < held.old.vars) learnt.now.lits }
    requires fits { MayBeHeld held.old learnt.now.lits }
    requires new { IsNew held.old.arena learnt.now.lits }
    requires covers { IsCovering (T.told tracer.old) (held_clause held.old.arena) held.old.arena.given }
    ensures goes_on { OnOk result (GoesOn held.old held.new (T.told tracer.old) (T.told tracer.new)) }
    ensures journals { OnOk result (KeepsJournals held.old held.new) }
    ensures listed { OnOk result (LearnsNext journal.now held.old held.new (T.told tracer.old) learnt.now.lits) }
    ensures stay { OnOk result (StayKept held.old.arena held.new.arena) }
    ensures vars { held.new.vars ≡ held.old.vars }
    ensures held { OnOk result ((kept : Bool) × (held.new ≡ record held.old { arena = with_learnt held.old.arena learnt.now kept })) }
    ensures consistent { OnOk result (IsConsistent held.new) }
    ensures covers { OnOk result (IsCovering (T.told tracer.new) (held_clause held.new.arena) held.new.arena.given) }
    ensures tells { is_some (T.told tracer.new) ≡ is_some (T.told tracer.old) }
    ensures kept { T.kept tracer.new ≡ T.kept tracer.old }
{
    let lits = learnt.lits.as_slice();
    let rest = learnt.rest.as_slice();
    let flags = Flags {
        learnt: true,
        kept: journal.may_have(lits),
        glue: learnt.glue,
    };
    hold_derived(held, tracer, lits, flags, learnt.first, rest)?;
    Ok(())
}
