//! Held clauses and an order that know the same variables.
ghost use Rattle.std.specs.Prelude.{◌≡◌, ℕ, ◌<◌, ◌≤◌, true, OnOk};
ghost use Rattle.craig_watch.specs.Held.{nothing_held};
ghost use Rattle.craig_order.specs.Order.{is_given_back, nothing_known};
ghost use Rattle.craig_search.specs.Leaves.{IsReady};

use craig_order::Order;
use craig_watch::Held;
use std::alloc::AllocError;

/// Makes the variables below the number known to both, where neither knew one.
pub(crate) fn grow(held: &mut Held, order: &mut Order, vars: u32) -> Result<(), AllocError>
    requires held { held.old ≡ nothing_held }
    requires order { order.old ≡ nothing_known }
    requires vars { vars ≤ 2147483648 }
    ensures ready { OnOk result (IsReady held.new order.new) }
    ensures given_back { OnOk result ((v : ℕ) → v < vars → is_given_back order.new v ≡ true) }
    ensures vars { OnOk result (held.new.vars ≡ vars) }
    ensures level { OnOk result (held.new.level ≡ 0) }
{
    held.grow(vars)?;
    order.grow(vars)?;
    Ok(())
}
