//! What is done after a search before the solver answers.
ghost use Rattle.std.specs.Prelude.{◌≡◌, ℕ, ◌<◌, true, All, IfOk, OnOk, length};
ghost use Rattle.craig_watch.specs.Trail.{IsAssigned, part_up_to};
ghost use Rattle.craig_watch.specs.Held.{IsConsistent};
ghost use Rattle.craig_order.specs.Order.{is_given_back};
ghost use Rattle.craig_search.specs.Leaves.{IsReady, IsAtRest};
ghost use Rattle.craig_solver.specs.Settling.{AreValuesOf, AssignsAll, IsAnswerFor, IsAtRoot, root_of_verdict, units_of_verdict};

use crate::Answer;
use craig_base::{ClauseId, Lit, Values, Var};
use craig_order::Order;
use craig_search::Verdict;
use craig_watch::{Held, Value};
use std::alloc::{AllocError, Global};

/// The answer for a verdict. A model is read from the trail, and then the level is 0 again.
pub(crate) fn answer_for(
    alloc: Global,
    held: &mut Held,
    order: &mut Order,
    verdict: Verdict,
) -> Result<Answer, AllocError>
    requires at_rest { IsAtRest held.old order.old verdict }
    requires assigned { AssignsAll held.old verdict }
    ensures answer { IfOk result (IsAnswerFor held.old verdict) }
    ensures at_root { OnOk result (IsAtRoot held.old held.new order.new) }
    ensures vars { held.new.vars ≡ held.old.vars }
    ensures order { order.new.dead ≡ order.old.dead }
{
    match verdict {
        Verdict::Model => Ok(Answer::Model(read_model(alloc, held, order)?)),
        Verdict::Failed { root, places } => {
            let _consistent = held.level();
            Ok(Answer::Failed { root, places })
        }
        Verdict::Limit(lemmas) => {
            let _consistent = held.level();
            Ok(Answer::Limit(lemmas))
        }
    }
}

/// The values on a trail that assigns every variable. Then the variables are given back, and the level is 0.
fn read_model(alloc: Global, held: &mut Held, order: &mut Order) -> Result<Values, AllocError>
    requires known { length order.old.given_back ≡ held.old.vars }
    requires assigned { (v : ℕ) → v < held.old.vars → IsAssigned held.old.trail v }
    ensures values { IfOk result (AreValuesOf held.old.vars held.old.trail) }
    ensures back { OnOk result (held.new ≡ record held.old { trail = part_up_to 0 held.old.trail; level = 0 }) }
    ensures ready { OnOk result (IsReady held.new order.new) }
    ensures consistent { OnOk result (IsConsistent held.new) }
    ensures vars { held.new.vars ≡ held.old.vars }
    ensures order { order.new.dead ≡ order.old.dead }
{
    craig_watch::laws::entries_have_places();
    let values = values_of(alloc, held)?;
    give_back_each(order, held.trail());
    held.back_to(0);
    Ok(values)
}

/// The values of the known variables on the trail, where a free one is false.
fn values_of(alloc: Global, held: &Held) -> Result<Values, AllocError>
    requires assigned { (v : ℕ) → v < held.now.vars → IsAssigned held.now.trail v }
    ensures { IfOk result (AreValuesOf held.now.vars held.now.trail) }
{
    craig_watch::laws::entries_have_places();
    craig_base::laws::values_are_an_assignment();
    let vars = held.vars();
    let mut values = Values::new(alloc, vars)?;
    for var in 0..vars {
        let value = held.value(Lit::new(Var(var), false));
        values.set(Var(var), value == Value::True);
    }
    Ok(values)
}

/// Gives the variables of the literals back.
fn give_back_each(order: &mut Order, lits: &[Lit])
    requires { All (λ l. l.var < length order.old.given_back) lits.now }
    ensures known { length order.new.given_back ≡ length order.old.given_back }
    ensures given { All (λ l. is_given_back order.new l.var ≡ true) lits.now }
    ensures dead { order.new.dead ≡ order.old.dead }
{
    for lit in lits {
        order.give_back(lit.var());
    }
}

/// The id of the empty clause, where the verdict is a refutation.
pub(crate) fn root_of(verdict: &Verdict) -> Option<ClauseId>
    ensures { result ≡ root_of_verdict verdict.now }
{
    match verdict {
        Verdict::Failed { root, .. } => Some(*root),
        _ => None,
    }
}

/// How many units were told for the verdict, with the ids directly below its root.
pub(crate) fn units_of(verdict: &Verdict) -> u64
    ensures { result ≡ units_of_verdict verdict.now }
{
    match verdict {
        Verdict::Failed { places, .. } => places.as_slice().len() as u64,
        _ => 0,
    }
}
