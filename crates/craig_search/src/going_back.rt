//! Going back to an earlier level, with the variables that become free given back to the order.
ghost use Rattle.std.specs.Prelude.{◌≡◌, ℕ, ◌<◌, ◌≤◌, true, All, length};
ghost use Rattle.craig_watch.specs.Trail.{part_up_to};
ghost use Rattle.craig_watch.specs.Held.{IsConsistent};
ghost use Rattle.craig_order.specs.Order.{is_given_back};
ghost use Rattle.craig_search.specs.Leaves.{IsReady};
ghost use Rattle.craig_search.specs.Levels.{AreAboveFrom, AreUpToBefore};

use craig_base::Lit;
use craig_order::Order;
use craig_watch::Held;

/// Goes back to a level, and gives the variables that become free back to the order.
pub(crate) fn go_back(held: &mut Held, order: &mut Order, level: u32)
    requires below { level ≤ held.old.level }
    requires ready { IsReady held.old order.old }
    ensures back { held.new ≡ record held.old { trail = part_up_to level held.old.trail; level = level } }
    ensures ready { IsReady held.new order.new }
    ensures dead { order.new.dead ≡ order.old.dead }
    ensures consistent { IsConsistent held.new }
{
    craig_watch::laws::entries_have_places();
    craig_watch::laws::parts_keep_values();
    let place = first_above(held, level);
    give_back_each(order, &held.trail()[place..]);
    held.back_to(level);
}

/// Saves the phases of the variables, and gives them back.
fn give_back_each(order: &mut Order, lits: &[Lit])
    requires { All (λ l. l.var < length order.old.given_back) lits.now }
    ensures known { length order.new.given_back ≡ length order.old.given_back }
    ensures kept { (v : ℕ) → is_given_back order.old v ≡ true → is_given_back order.new v ≡ true }
    ensures given { All (λ l. is_given_back order.new l.var ≡ true) lits.now }
    ensures dead { order.new.dead ≡ order.old.dead }
{
    for lit in lits {
        order.save(*lit);
        order.give_back(lit.var());
    }
}

/// The place of the first literal on the trail of a level above this one, or the number of the literals.
fn first_above(held: &Held, level: u32) -> usize
    ensures within { result ≤ length held.now.trail }
    ensures upto { AreUpToBefore result level held.now.trail }
    ensures above { AreAboveFrom result level held.now.trail }
{
    craig_watch::laws::entries_have_places();
    craig_watch::laws::levels_rise();
    let trail = held.trail();
    let mut place = trail.len();
    while place > 0 {
        if held.level_of(trail[place - 1].var()) <= level {
            return place;
        }
        place -= 1;
    }
    0
}
