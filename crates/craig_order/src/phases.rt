//! Saved phases: a variable is decided as it was last assigned.
//!
//! Pipatsrisawat and Darwiche, "A Lightweight Component Caching Scheme for Satisfiability Solvers", SAT 2007.
ghost use Rattle.std.specs.Prelude.{◌≡◌, ◌<◌, [], true, OnOk, OnErr, length, slice_index_or, slice_set};
ghost use Rattle.craig_order.specs.Phases.{ArePhasesGrown};

use craig_base::{Lit, Var};
use std::alloc::{AllocError, Global};
use std::marker::Model;

/// A phase for each known variable.
///
/// It is seen as a list of truth values, which say by variable whether it is decided false.
#[derive(Drop)]
pub(crate) struct Phases {
    // by variable, whether its literal is negated
    negated: Vec<bool>,
}

impl Model for Phases {
    ghost use Rattle.std.specs.Prelude.{Bool, List};

    ghost Value = { List Bool };

    ghost view = { λ p. p.negated.items };
}

impl Phases {
    /// No phase, which takes no memory.
    pub(crate) fn new(alloc: Global) -> Phases
        ensures { result ≡ [] }
    {
        Phases {
            negated: Vec::new(alloc),
        }
    }

    /// Makes phases until there are as many. A new variable is decided false. After an error all is as before.
    pub(crate) fn grow(&mut self, count: usize) -> Result<(), AllocError>
        ensures grown { OnOk result (ArePhasesGrown self.old self.new count) }
        ensures unchanged { OnErr result (self.new ≡ self.old) }
    {
        if count > self.negated.len() {
            self.negated.resize(count, true)?;
        }
        Ok(())
    }

    /// Saves the phase of a known variable: the literal of it that was true.
    pub(crate) fn save(&mut self, lit: Lit)
        requires { lit.var < length self.old }
        ensures { self.new ≡ slice_set self.old lit.var lit.negated }
    {
        self.negated[lit.var().0 as usize] = lit.negated();
    }

    /// The literal as which a variable is decided.
    pub(crate) fn literal(&self, var: Var) -> Lit
        requires known { var.0 < length self.now }
        requires few { var.0 < 2147483648 }
        ensures { result ≡ record { var = var.0; negated = slice_index_or self.now var.0 true } }
    {
        Lit::new(var, self.negated[var.0 as usize])
    }
}
