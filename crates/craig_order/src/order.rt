//! The order in which free variables are decided, and with which phase.
//!
//! By scores that conflicts raise, in a heap: Eén and Sörensson, "An Extensible SAT-solver", SAT 2003. Which free variable
//! comes first and with which phase is not promised.
ghost use Rattle.std.specs.Prelude.{◌≡◌, ◌≢◌, ℕ, ◌<◌, ◌≤◌, true, false, None, IfSome, OnOk, OnErr, IsErr, length};
ghost use Rattle.craig_watch.specs.Trail.{value_under};
ghost use Rattle.craig_watch.specs.declared.value.Value.TheVariants.{Free};
ghost use Rattle.craig_order.specs.Order.{nothing_known, is_given_back, IsGrown, IsGivenBack, IsFree, FreeAreGivenBack, CountsAsBefore};

use crate::heap::Heap;
use crate::phases::Phases;
use crate::scores::Scores;
use craig_base::{Lit, Var};
use craig_watch::{Held, Value};
use std::alloc::{AllocError, Global};
use std::marker::Model;

/// Which variable is decided next.
///
/// It is seen as a list of truth values, one for each known variable, which say whether the variable counts as given
/// back: a variable is taken when it is decided, and its search gives it back when it becomes free again. After an
/// `AllocError` the value is dead, and each later call that can answer `AllocError` does so.
#[derive(Drop)]
pub struct Order {
    // the variables that count as given back
    heap: Heap,
    // for at least the known variables
    scores: Scores,
    // for at least the known variables
    phases: Phases,
    dead: bool,
}

impl Model for Order {
    ghost use Rattle.craig_order.specs.Order.{OrderView};
    ghost use Rattle.craig_order.specs.Heap.{HaveRoom};

    ghost Value = { OrderView };

    ghost view = { λ o. record { given_back = o.heap.stands; dead = o.dead } };

    ghost invariant = { λ o. HaveRoom o.heap.stands o.scores o.phases };
}

impl Order {
    /// The order that knows no variable, which takes no memory.
    pub fn new(alloc: Global) -> Order
        ensures { result ≡ nothing_known }
    {
        Order {
            heap: Heap::new(alloc),
            scores: Scores::new(alloc),
            phases: Phases::new(alloc),
            dead: false,
        }
    }

    /// Makes all variables below `vars` known. A new variable counts as given back, and none becomes unknown.
    pub fn grow(&mut self, vars: u32) -> Result<(), AllocError>
        requires { vars ≤ 2147483648 }
        ensures grown { OnOk result (IsGrown self.old self.new vars) }
        ensures alive { OnOk result (self.new.dead ≡ false) }
        ensures dead { OnErr result (self.new.dead ≡ true) }
        ensures refused { self.old.dead ≡ true → IsErr result }
        ensures unchanged { OnErr result (self.new ≡ record self.old { dead = true }) }
    {
        if self.dead {
            return Err(AllocError);
        }
        self.dead = true;
        let vars = vars as usize;
        if vars > self.heap.len() {
            self.scores.grow(vars)?;
            self.phases.grow(vars)?;
            self.heap.grow(vars)?;
        }
        self.dead = false;
        Ok(())
    }

    /// Raises the score of a known variable.
    pub fn bump(&mut self, var: Var)
        requires { var.0 < length self.old.given_back }
        ensures { self.new ≡ self.old }
    {
        self.scores.bump(var.0 as usize);
        self.heap.raise(&self.scores, var);
    }

    /// Makes later raises of scores count for more.
    pub fn decay(&mut self)
        ensures { self.new ≡ self.old }
    {
        self.scores.decay();
    }

    /// Saves the phase of a known variable: the literal of it that was true. A variable is decided as it was saved last,
    /// and false where it was not.
    pub fn save(&mut self, lit: Lit)
        requires { lit.var < length self.old.given_back }
        ensures { self.new ≡ self.old }
    {
        self.phases.save(lit);
    }

    /// Says that a known variable may be decided again.
    pub fn give_back(&mut self, var: Var)
        requires { var.0 < length self.old.given_back }
        ensures { IsGivenBack self.old self.new var.0 }
    {
        self.heap.insert(&self.scores, var);
    }

    /// A free literal to decide, and `None` exactly where every variable is assigned. The variable of the answer
    /// does not count as given back afterwards, and every other free variable counts as before.
    pub fn next(&mut self, held: &Held) -> Option<Lit>
        requires known { length self.old.given_back ≤ held.now.vars }
        requires given_back { FreeAreGivenBack held.now self.old }
        ensures free { IfSome result (λ l. (l.var < held.now.vars) × (value_under held.now.trail l ≡ Free)) }
        ensures taken { IfSome result (λ l. is_given_back self.new l.var ≡ false) }
        ensures none { result ≡ None → (v : ℕ) → ¬ IsFree held.now v }
        ensures others { CountsAsBefore held.now self.old self.new (λ v. IfSome result (λ l. v ≢ l.var)) }
    {
        while let Some(var) = self.heap.pop(&self.scores) {
            let lit = self.phases.literal(var);
            if held.value(lit) == Value::Free {
                return Some(lit);
            }
        }
        None
    }
}
