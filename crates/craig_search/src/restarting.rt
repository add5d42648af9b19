//! Restarts: a search goes back to its assumptions, and decides anew by the scores as they are by now.
ghost use Rattle.std.specs.Prelude.{◌≡◌, ℕ, ◌<◌, ◌≤◌, All};
ghost use Rattle.craig_watch.specs.Trail.{part_up_to};
ghost use Rattle.craig_watch.specs.Held.{IsConsistent};
ghost use Rattle.craig_search.specs.Leaves.{IsReady};

use crate::going_back::go_back;
use craig_base::{Lit, Part};
use craig_order::{Order, Pace};
use craig_watch::{Held, Value};

/// Goes back to the highest level of an assumption that is true, where a restart is due.
pub(crate) fn restart_if_due(
    held: &mut Held,
    order: &mut Order,
    pace: &mut Pace,
    assumptions: &[(Part, Lit)],
)
    requires ready { IsReady held.old order.old }
    requires known { All (λ a. a.1.var < held.old.vars) assumptions.now }
    ensures back { (level : ℕ) × (held.new ≡ record held.old { trail = part_up_to level held.old.trail; level = level }) }
    ensures ready { IsReady held.new order.new }
    ensures dead { order.new.dead ≡ order.old.dead }
    ensures consistent { IsConsistent held.new }
{
    let present = held.level();
    let level = if pace.restart_due() {
        assumed_level(held, assumptions)
    } else {
        present
    };
    go_back(held, order, level);
}

/// The highest level of an assumption that is true, or 0.
fn assumed_level(held: &Held, assumptions: &[(Part, Lit)]) -> u32
    requires consistent { IsConsistent held.now }
    requires known { All (λ a. a.1.var < held.now.vars) assumptions.now }
    ensures { result ≤ held.now.level }
{
    let mut highest = 0;
    for (_, lit) in assumptions {
        highest = level_if_true(held, *lit).max(highest);
    }
    highest
}

/// The level of a literal that is true, or 0.
fn level_if_true(held: &Held, lit: Lit) -> u32
    requires consistent { IsConsistent held.now }
    requires known { lit.var < held.now.vars }
    ensures { result ≤ held.now.level }
{
    craig_watch::laws::entries_have_places();
    craig_watch::laws::levels_rise();
    if held.value(lit) == Value::True {
        held.level_of(lit.var())
    } else {
        0
    }
}
