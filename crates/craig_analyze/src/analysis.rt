//! What is learnt from a conflict.
//!
//! Clause learning: Marques-Silva and Sakallah, "GRASP", IEEE Transactions on Computers 48, 1999. The first unique
//! implication point: Zhang, Madigan, Moskewicz and Malik, "Efficient Conflict Driven Learning in a Boolean
//! Satisfiability Solver", ICCAD 2001. The walk back along the trail: Eén and Sörensson, "An Extensible SAT-solver",
//! SAT 2003.
ghost use Rattle.std.specs.Prelude.{◌≡◌, ◌<◌, [], ◌∷◌, IfOk};
ghost use Rattle.craig_watch.specs.Held.{IsFalsified};
ghost use Rattle.craig_analyze.specs.Learnt.{IsAssertingClause, IsDerived};

use crate::Learnt;
use crate::levels::{count_levels, greatest_level};
use crate::marks::Marks;
use crate::resolvent::Resolvent;
use craig_base::{ClauseId, Lit, Lits};
use craig_proof::Steps;
use craig_watch::Held;
use std::alloc::{AllocError, Global};
use std::marker::Model;

/// The memory of conflict analysis, which a search keeps from one conflict to the next.
///
/// Contracts see nothing of it: each call clears what the last one left, so after an `AllocError` it may be used again
/// as before. Once there is room for a mark of each variable, a call costs what it touches, with a heap of the places
/// that are still to be resolved on, and not the number of variables.
#[derive(Drop)]
pub struct Analysis {
    pub(crate) alloc: Global,
    pub(crate) resolvent: Resolvent,
    levels: Marks,
}

impl Model for Analysis {
    ghost Value = { Unit {0} };

    ghost view = { λ a. tt };
}

impl Analysis {
    /// The workspace, which takes no memory yet.
    pub fn new(alloc: Global) -> Analysis {
        Analysis {
            alloc,
            resolvent: Resolvent::new(alloc),
            levels: Marks::new(alloc),
        }
    }

    /// Learns an asserting clause from a held clause that is false, at a level above 0.
    ///
    /// The clause is false now. Its first literal alone is of the present level, and no other is of level 0, so that
    /// it forces the first after going back to the level `back`, the greatest of the others' levels. No held clause is
    /// contained in it, and its chain begins at `conflict` and ends in its literals. `glue` counts the different levels
    /// of its literals. The clause is that of the first unique implication point without what follows from the rest of
    /// it. An `AllocError` comes only for want of
    /// memory, and the workspace may be used again after it.
    pub fn learn_with(&mut self, held: &Held, conflict: ClauseId) -> Result<Learnt, AllocError>
        requires level { 0 < held.now.level }
        requires conflict { IsFalsified held.now conflict.0 }
        ensures derived { IfOk result (IsDerived held.now.arena) }
        ensures begins { IfOk result (λ l. l.first ≡ conflict) }
        ensures asserting { IfOk result (IsAssertingClause held.now) }
    {
        craig_watch::laws::conflicts_above_the_root();
        let mut rest = Steps::new(self.alloc);
        self.resolvent.begin(held, conflict)?;
        let first = self.resolvent.find_asserting(held, &mut rest)?;
        self.resolvent.minimize(held, first, &mut rest)?;
        let lits = with_first(self.alloc, first, self.resolvent.lower.as_slice())?;
        let back = greatest_level(held, self.resolvent.lower.as_slice());
        let glue = count_levels(&mut self.levels, held, lits.as_slice())?;
        Ok(Learnt {
            lits,
            first: conflict,
            rest,
            back,
            glue,
        })
    }
}

/// The literal and then the others.
pub(crate) fn with_first(alloc: Global, first: Lit, others: &[Lit]) -> Result<Lits, AllocError>
    ensures { IfOk result (λ l. l ≡ first ∷ others.now) }
{
    let mut lits = Lits::new(alloc);
    lits.push(first)?;
    for lit in others {
        lits.push(*lit)?;
    }
    Ok(lits)
}

/// Learns an asserting clause from a held clause that is false, as `Analysis::learn_with` does, in memory of its own.
pub fn learn(alloc: Global, held: &Held, conflict: ClauseId) -> Result<Learnt, AllocError>
    requires level { 0 < held.now.level }
    requires conflict { IsFalsified held.now conflict.0 }
    ensures derived { IfOk result (IsDerived held.now.arena) }
    ensures begins { IfOk result (λ l. l.first ≡ conflict) }
    ensures asserting { IfOk result (IsAssertingClause held.now) }
{
    Analysis::new(alloc).learn_with(held, conflict)
}
