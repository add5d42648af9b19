//! What a search decides: the assumptions in their order, and then the variables that are free.
ghost use Rattle.std.specs.Prelude.{◌≢◌, ◌≡◌, ◌<◌, ◌≤◌, All, length};
ghost use Rattle.craig_watch.specs.declared.value.Value.TheVariants.{True};
ghost use Rattle.craig_watch.specs.Trail.{value_under};
ghost use Rattle.craig_watch.specs.Held.{IsComplete, IsConsistent};
ghost use Rattle.craig_search.specs.Assuming.{AreDecided, AreTrueBefore, IsAssumedTurn, IsOpen, IsTurn};
ghost use Rattle.craig_search.specs.Leaves.{IsReady};

use craig_base::{Lit, Part};
use craig_order::Order;
use craig_watch::{Held, Value};

/// What came of the next decision.
pub(crate) enum Turn {
    /// A literal was decided.
    Decided,
    /// No variable is free, and the assumptions are true.
    Model,
    /// The assumed literal is false.
    Failed(Lit),
}

/// Decides the assumption at the place, which is not true, or where there is none, a free variable.
pub(crate) fn decide_next(
    held: &mut Held,
    order: &mut Order,
    assumptions: &[(Part, Lit)],
    place: usize,
) -> Turn
    requires consistent { IsConsistent held.old }
    requires complete { IsComplete held.old.arena held.old.trail }
    requires ready { IsReady held.old order.old }
    requires known { All (λ a. a.1.var < held.old.vars) assumptions.now }
    requires decided { AreDecided assumptions.now held.old.trail }
    requires before { AreTrueBefore held.old.trail assumptions.now place }
    requires waiting { IsOpen held.old.trail assumptions.now place }
    ensures turn { IsTurn assumptions.now held.old held.new order.new result }
    ensures consistent { IsConsistent held.new }
    ensures order { order.new.dead ≡ order.old.dead }
{
    if place < assumptions.len() {
        return decide_assumed(held, assumptions[place].1);
    }
    match order.next(held) {
        None => Turn::Model,
        Some(lit) => {
            held.decide(lit);
            Turn::Decided
        }
    }
}

/// Decides an assumed literal that is not true, unless it is false.
fn decide_assumed(held: &mut Held, lit: Lit) -> Turn
    requires known { lit.var < held.old.vars }
    requires complete { IsComplete held.old.arena held.old.trail }
    requires waiting { value_under held.old.trail lit ≢ True }
    requires consistent { IsConsistent held.old }
    ensures turn { IsAssumedTurn held.old held.new lit result }
    ensures consistent { IsConsistent held.new }
{
    if held.value(lit) == Value::False {
        return Turn::Failed(lit);
    }
    held.decide(lit);
    Turn::Decided
}

/// The first place, from the given one on, of an assumption that is not true, or the number of the assumptions.
pub(crate) fn first_open(held: &Held, assumptions: &[(Part, Lit)], from: usize) -> usize
    requires known { All (λ a. a.1.var < held.now.vars) assumptions.now }
    requires within { from ≤ length assumptions.now }
    requires before { AreTrueBefore held.now.trail assumptions.now from }
    ensures within { result ≤ length assumptions.now }
    ensures before { AreTrueBefore held.now.trail assumptions.now result }
    ensures waiting { IsOpen held.now.trail assumptions.now result }
{
    let mut place = from;
    while place < assumptions.len() {
        if held.value(assumptions[place].1) != Value::True {
            return place;
        }
        place += 1;
    }
    place
}
