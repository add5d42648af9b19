//! The literals of a clause come into the resolvent.
ghost use Rattle.std.specs.Prelude.{◌≡◌, ◌≢◌, ◌<◌, ◌⊎◌, [], ◌∷◌, Some, true, false, All, OnOk, is_some};
ghost use Rattle.craig_base.specs.Arena.{IsLive, literals_at};
ghost use Rattle.std.specs.Option.{option_map};
ghost use Rattle.craig_watch.specs.declared.trail_entry.TrailEntry.{TrailEntry};
ghost use Rattle.craig_watch.specs.Trail.{IsAssigned, IsFalse, entry_of, level_at};
ghost use Rattle.craig_watch.specs.Held.{IsConsistent, IsFalsified};
ghost use Rattle.craig_analyze.specs.Resolvent.{HasBegun, HasBegunReason, IsResolvedOn, Meets, Stays, view_of};

use crate::redundancy::Redundancy;
use crate::resolvent::Resolvent;
use crate::staying::Staying;
use craig_base::{ClauseId, Lit};
use craig_watch::Held;
use std::alloc::AllocError;

impl Resolvent {
    /// Begins with the literals of a held clause that is false.
    pub(crate) fn begin(&mut self, held: &Held, conflict: ClauseId) -> Result<(), AllocError>
        requires { IsFalsified held.now conflict.0 }
        ensures begun { OnOk result (HasBegun held.now conflict.0 (view_of self.new)) }
        ensures consistent { IsConsistent held.now }
    {
        self.variables.clear();
        self.pending.clear();
        self.lower.clear();
        self.meet(held, Staying::InnerLevels, conflict)
    }

    /// Begins with the literals of the reason of a variable beside the true one, which is that of the variable.
    pub(crate) fn begin_reason(
        &mut self,
        held: &Held,
        failed: Lit,
        reason: ClauseId,
    ) -> Result<(), AllocError>
        requires failed { IsFalse held.now.trail failed }
        requires reason { option_map (λ e. e.reason) (entry_of held.now.trail failed.var) ≡ Some (Some reason) }
        ensures begun { OnOk result (HasBegunReason held.now failed reason.0 (view_of self.new)) }
        ensures consistent { IsConsistent held.now }
    {
        let _ = held.level();
        self.variables.clear();
        self.pending.clear();
        self.lower.clear();
        self.variables.insert(failed.var().0)?;
        self.meet(held, Staying::Decisions, reason)
    }

    /// Takes up the literals of a held clause that are false and not met yet.
    pub(crate) fn meet(
        &mut self,
        held: &Held,
        staying: Staying,
        id: ClauseId,
    ) -> Result<(), AllocError>
        requires live { IsLive held.now.arena id.0 }
        requires assigned { All (λ l. IsAssigned held.now.trail l.var) (literals_at held.now.arena id.0) }
        ensures met { OnOk result (Meets staying held.now (literals_at held.now.arena id.0) (view_of self.old) (view_of self.new)) }
        ensures consistent { IsConsistent held.now }
    {
        for lit in held.arena().lits(id) {
            self.meet_literal(held, staying, *lit)?;
        }
        Ok(())
    }

    /// Takes up a literal, where its variable is not met yet.
    fn meet_literal(&mut self, held: &Held, staying: Staying, lit: Lit) -> Result<(), AllocError>
        requires { IsAssigned held.now.trail lit.var }
        ensures { OnOk result (Meets staying held.now (lit ∷ []) (view_of self.old) (view_of self.new)) }
    {
        let var = lit.var();
        if !self.variables.insert(var.0)? {
            return Ok(());
        }
        if is_resolved_on(held, &self.redundancy, staying, lit) {
            self.pending.push(held.place_of(var))?;
        } else {
            self.lower.push(lit)?;
        }
        Ok(())
    }
}

/// Whether a false literal is resolved on: one of level 0 or of the present level; where decisions stay, one that was
/// forced; and where what follows goes, one of level 0 or one that follows.
fn is_resolved_on(held: &Held, redundancy: &Redundancy, staying: Staying, lit: Lit) -> bool
    requires { IsAssigned held.now.trail lit.var }
    ensures yes { result ≡ true → (e : TrailEntry) → entry_of held.now.trail lit.var ≡ Some e → IsResolvedOn staying held.now e }
    ensures no { result ≡ false → IsFalse held.now.trail lit → Stays staying held.now lit }
    ensures consistent { IsConsistent held.now }
{
    let present = held.level();
    match staying {
        Staying::InnerLevels => is_end_level(held.level_of(lit.var()), present),
        Staying::Decisions => is_forced(held, lit),
        Staying::Irredundant => is_root(held, lit) || is_following(held, redundancy, lit),
    }
}

/// Whether the level is 0 or the present one.
fn is_end_level(level: u32, present: u32) -> bool
    ensures yes { result ≡ true → (level ≡ 0) ⊎ (level ≡ present) }
    ensures no { result ≡ false → (level ≢ 0) × (level ≢ present) }
{
    level == 0 || level == present
}

/// Whether the literal is of level 0, so that a clause forced its variable.
fn is_root(held: &Held, lit: Lit) -> bool
    requires { IsAssigned held.now.trail lit.var }
    ensures yes { result ≡ true → option_map (λ e. is_some e.reason) (entry_of held.now.trail lit.var) ≡ Some true }
    ensures no { result ≡ false → 0 < level_at held.now.trail lit }
{
    let _ = held.level();
    held.level_of(lit.var()) == 0
}

/// Whether the literal was found to follow from others, and its variable was forced by a clause.
fn is_following(held: &Held, redundancy: &Redundancy, lit: Lit) -> bool
    requires { IsAssigned held.now.trail lit.var }
    ensures { result ≡ true → option_map (λ e. is_some e.reason) (entry_of held.now.trail lit.var) ≡ Some true }
{
    redundancy.is_redundant(lit.var()) && is_forced(held, lit)
}

/// Whether the literal's variable was forced by a clause.
pub(crate) fn is_forced(held: &Held, lit: Lit) -> bool
    requires { IsAssigned held.now.trail lit.var }
    ensures { option_map (λ e. is_some e.reason) (entry_of held.now.trail lit.var) ≡ Some result }
{
    held.reason(lit.var()).is_some()
}
