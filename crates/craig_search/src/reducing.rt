//! Reductions: a search lets the worse half of its learnt clauses go now and then, so that propagation stays fast.
//!
//! Eén and Sörensson, "An Extensible SAT-solver", SAT 2003. `bar.rt` says which clauses are worse.
ghost use Rattle.std.specs.Prelude.{◌≡◌, ◌≢◌, ◌<◌, ◌≤◌, true, false, Some, All, is_some};
ghost use Rattle.craig_base.specs.Arena.{IsLive};
ghost use Rattle.craig_proof.specs.Covers.{IsCovering};
ghost use Rattle.craig_watch.specs.Held.{IsConsistent, held_clause};
ghost use Rattle.craig_search.specs.Reducing.{IsLearnt, IsNotForcedBy, IsReduced, IsUnkept, LetsGo};

use crate::bar::Bar;
use crate::reductions::Reductions;
use craig_base::{ClauseId, Lit};
use craig_order::Pace;
use craig_proof::Tracer;
use craig_watch::{Held, Value};

/// Lets the worse half of the learnt clauses go where that is due.
pub(crate) fn reduce_if_due<T: Tracer>(
    held: &mut Held,
    tracer: &mut T,
    pace: &mut Pace,
    reductions: &mut Reductions,
)
    requires consistent { IsConsistent held.old }
    requires covers { IsCovering (T.told tracer.old) (held_clause held.old.arena) held.old.arena.given }
    ensures lets_go { LetsGo reductions.old.first held.old held.new (T.told tracer.old) (T.told tracer.new) }
    ensures reduced { IsReduced reductions.old reductions.new held.old held.new }
    ensures consistent { IsConsistent held.new }
    ensures covers { IsCovering (T.told tracer.new) (held_clause held.new.arena) held.new.arena.given }
    ensures tells { is_some (T.told tracer.new) ≡ is_some (T.told tracer.old) }
    ensures kept { T.kept tracer.new ≡ T.kept tracer.old }
{
    let due = pace.reduce_due();
    if reductions.left == 0 {
        return;
    }
    if !due {
        return;
    }
    reductions.left -= 1;
    reduce(held, tracer, reductions.first);
    reductions.since = held.arena().given();
}

/// Lets the worse half of the learnt clauses go that are held from an id on, but for those that are reasons.
fn reduce<T: Tracer>(held: &mut Held, tracer: &mut T, first: u64)
    requires consistent { IsConsistent held.old }
    requires covers { IsCovering (T.told tracer.old) (held_clause held.old.arena) held.old.arena.given }
    ensures lets_go { LetsGo first held.old held.new (T.told tracer.old) (T.told tracer.new) }
    ensures consistent { IsConsistent held.new }
    ensures covers { IsCovering (T.told tracer.new) (held_clause held.new.arena) held.new.arena.given }
    ensures tells { is_some (T.told tracer.new) ≡ is_some (T.told tracer.old) }
    ensures kept { T.kept tracer.new ≡ T.kept tracer.old }
{
    let mut bar = Bar::new(held, first);
    let end = held.arena().given();
    for number in first..end {
        let_go_if_bad(held, tracer, ClauseId(number), &mut bar);
    }
    held.let_go_all(&[]);
}

/// Lets a clause go where it is bad and no reason, and forgets its id.
fn let_go_if_bad<T: Tracer>(held: &mut Held, tracer: &mut T, id: ClauseId, bar: &mut Bar)
    requires consistent { IsConsistent held.old }
    requires covers { IsCovering (T.told tracer.old) (held_clause held.old.arena) held.old.arena.given }
    ensures lets_go { LetsGo id.0 held.old held.new (T.told tracer.old) (T.told tracer.new) }
    ensures consistent { IsConsistent held.new }
    ensures covers { IsCovering (T.told tracer.new) (held_clause held.new.arena) held.new.arena.given }
    ensures tells { is_some (T.told tracer.new) ≡ is_some (T.told tracer.old) }
    ensures kept { T.kept tracer.new ≡ T.kept tracer.old }
{
    craig_proof::laws::covered_chain_is_told();
    if !may_go(held, id, bar) {
        return;
    }
    held.let_go(id);
    tracer.forget(id);
}

/// Whether a clause is held, learnt, bad and no reason, so that it may be let go. It is asked of each clause once, from
/// older ones to newer ones.
pub fn may_go(held: &Held, id: ClauseId, bar: &mut Bar) -> bool
    requires { IsConsistent held.now }
    ensures live { result ≡ true → IsLive held.now.arena id.0 }
    ensures unkept { result ≡ true → IsUnkept held.now.arena id.0 }
    ensures learnt { result ≡ true → IsLearnt held.now.arena id.0 }
    ensures no_reason { result ≡ true → All (λ e. e.reason ≢ Some id) held.now.trail }
{
    if !bar.is_below(held, id) {
        return false;
    }
    !is_reason(held, id)
}

/// Whether a held clause forced a literal.
fn is_reason(held: &Held, id: ClauseId) -> bool
    requires consistent { IsConsistent held.now }
    requires live { IsLive held.now.arena id.0 }
    ensures { result ≡ false → All (λ e. e.reason ≢ Some id) held.now.trail }
{
    for lit in held.arena().lits(id) {
        if is_forced_by(held, *lit, id) {
            return true;
        }
    }
    false
}

/// Whether a literal is true, and the clause is its reason.
fn is_forced_by(held: &Held, lit: Lit, id: ClauseId) -> bool
    requires { lit.var < held.now.vars }
    ensures { result ≡ false → IsNotForcedBy held.now.trail id lit }
{
    if held.value(lit) != Value::True {
        return false;
    }
    held.reason(lit.var()) == Some(id)
}
