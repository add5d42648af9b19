//! Which literals of a false clause follow from the others.
//!
//! Sörensson and Biere, "Minimizing Learned Clauses", SAT 2009: a literal does where each other literal of the reason of
//! its negation is of level 0, in the clause, or does so itself; it can't where its level is that of no other literal.
//! Contracts promise nothing of the answer, since what is resolved on is safe whatever it is.
ghost use Rattle.std.specs.Prelude.{All};
ghost use Rattle.craig_watch.specs.Trail.{IsAssigned};
ghost use Rattle.craig_watch.specs.Held.{IsConsistent};

use crate::marks::Marks;
use craig_base::{Lit, Var};
use craig_watch::Held;
use std::alloc::{AllocError, Global};

/// How far the reasons of reasons are followed.
const DEPTH: u32 = 500;

/// What is known of the variables of a clause and of those that make them true.
#[derive(Drop)]
pub struct Redundancy {
    // variables of literals that follow
    redundant: Marks,
    // variables of literals that don't
    needed: Marks,
    // the levels of the clause
    levels: Marks,
}

impl Redundancy {
    /// Of no clause, which takes no memory.
    pub(crate) fn new(alloc: Global) -> Redundancy {
        Redundancy {
            redundant: Marks::new(alloc),
            needed: Marks::new(alloc),
            levels: Marks::new(alloc),
        }
    }

    /// Begins with the literals of a clause.
    pub(crate) fn begin(&mut self, held: &Held, lits: &[Lit]) -> Result<(), AllocError>
        requires { All (λ l. IsAssigned held.now.trail l.var) lits.now }
    {
        self.redundant.clear();
        self.needed.clear();
        self.levels.clear();
        for lit in lits {
            self.levels.insert(held.level_of(lit.var()))?;
        }
        Ok(())
    }

    /// Whether the literal of a variable was found to follow.
    pub(crate) fn is_redundant(&self, var: Var) -> bool {
        self.redundant.has(var.0)
    }

    /// Finds out whether the literal of a variable follows from the others of the clause with these variables.
    pub(crate) fn find(&mut self, held: &Held, clause: &Marks, var: Var) -> Result<bool, AllocError>
        requires { IsAssigned held.now.trail var.0 }
    {
        let _ = held.level();
        self.follows(held, clause, var, DEPTH)
    }

    /// Whether the literal of a variable follows by reasons up to a depth.
    fn follows(
        &mut self,
        held: &Held,
        clause: &Marks,
        var: Var,
        depth: u32,
    ) -> Result<bool, AllocError>
        requires assigned { IsAssigned held.now.trail var.0 }
        requires consistent { IsConsistent held.now }
    {
        if depth == 0 {
            return Ok(false);
        }
        let Some(reason) = held.reason(var) else {
            return Ok(false);
        };
        for lit in held.arena().lits(reason) {
            let other = lit.var();
            let fine = match self.known(held, clause, var, other) {
                Some(known) => known,
                None => self.follows(held, clause, other, depth - 1)?,
            };
            if !fine {
                self.needed.insert(var.0)?;
                return Ok(false);
            }
        }
        self.redundant.insert(var.0)?;
        Ok(true)
    }

    /// What is known of a variable in the reason of another without its own reason.
    fn known(&self, held: &Held, clause: &Marks, forced: Var, var: Var) -> Option<bool>
        requires { IsAssigned held.now.trail var.0 }
    {
        let level = held.level_of(var);
        if var == forced || level == 0 || clause.has(var.0) || self.redundant.has(var.0) {
            return Some(true);
        }
        if self.needed.has(var.0) || !self.levels.has(level) {
            return Some(false);
        }
        None
    }
}
