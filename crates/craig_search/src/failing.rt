//! The end of a search whose assumptions fail.
ghost use Rattle.std.specs.Prelude.{◌≡◌, ◌<◌, List, ◌∷◌, ◌++◌, All, IfOk, OnOk, Some, is_some, length, slice_get};
ghost use Rattle.craig_watch.specs.Trail.{IsFalse};
ghost use Rattle.craig_watch.specs.Held.{IsConsistent, held_clause};
ghost use Rattle.craig_proof.specs.Covers.{IsCovering};
ghost use Rattle.craig_proof.specs.declared.step.Step.{Step};
ghost use Rattle.craig_analyze.specs.Learnt.{IsDerived};
ghost use Rattle.craig_search.specs.Assuming.{AreAllAssumed, IsAssumed};
ghost use Rattle.craig_search.specs.Failing.{AreUnitsTold, IsFailure, at_root, unit_chain, units_of, with_ids};
ghost use Rattle.craig_search.specs.Leaves.{IsReady};
ghost use Rattle.craig_search.specs.Verdict.{at_places};
ghost use Rattle.craig_spec.specs.Literal.{negation};

use crate::Places;
use crate::going_back::go_back;
use craig_analyze::{Analysis, Core, Learnt};
use craig_base::{ClauseId, Lit, Lits, Part};
use craig_order::Order;
use craig_proof::{Step, Steps, Tracer};
use craig_watch::Held;
use std::alloc::{AllocError, Global};

/// The refutation of some assumptions.
#[derive(Drop)]
pub(crate) struct Failure {
    /// The id of the empty clause.
    pub root: ClauseId,
    /// The places of the assumptions that it rests on.
    pub places: Places,
}

/// Tells the units of the assumptions that make an assumed literal false and of the literal, and the empty clause that
/// follows from them, and goes back to level 0.
pub(crate) fn failed<T: Tracer>(
    alloc: Global,
    held: &mut Held,
    order: &mut Order,
    tracer: &mut T,
    analysis: &mut Analysis,
    assumptions: &[(Part, Lit)],
    lit: Lit,
) -> Result<Failure, AllocError>
    requires falsified { IsFalse held.old.trail lit }
    requires assumed { IsAssumed assumptions.now lit }
    requires all { AreAllAssumed assumptions.now held.old.trail }
    requires ready { IsReady held.old order.old }
    requires covers { IsCovering (T.told tracer.old) (held_clause held.old.arena) held.old.arena.given }
    ensures failure { IfOk result (λ f. IsFailure assumptions.now (at_root held.old) held.new f.root.0 f.places (T.told tracer.old) (T.told tracer.new)) }
    ensures ready { OnOk result (IsReady held.new order.new) }
    ensures consistent { OnOk result (IsConsistent held.new) }
    ensures covers { OnOk result (IsCovering (T.told tracer.new) (held_clause held.new.arena) held.new.arena.given) }
    ensures vars { held.new.vars ≡ held.old.vars }
    ensures order { order.new.dead ≡ order.old.dead }
    ensures tells { is_some (T.told tracer.new) ≡ is_some (T.told tracer.old) }
    ensures kept { T.kept tracer.new ≡ T.kept tracer.old }
{
    let core = analysis.final_core_with(held, lit)?;
    go_back(held, order, 0);
    match core {
        Core::Clause(learnt) => refute_core(alloc, held, tracer, assumptions, learnt),
        Core::Clash(lit) => refute_clash(alloc, held, tracer, assumptions, lit),
    }
}

/// Resolves a clause of negated assumptions with their units.
fn refute_core<T: Tracer>(
    alloc: Global,
    held: &mut Held,
    tracer: &mut T,
    assumptions: &[(Part, Lit)],
    mut core: Learnt,
) -> Result<Failure, AllocError>
    requires derived { IsDerived held.old.arena core }
    requires assumed { All (λ m. IsAssumed assumptions.now (negation m)) core.lits }
    requires consistent { IsConsistent held.old }
    requires covers { IsCovering (T.told tracer.old) (held_clause held.old.arena) held.old.arena.given }
    ensures failure { IfOk result (λ f. IsFailure assumptions.now held.old held.new f.root.0 f.places (T.told tracer.old) (T.told tracer.new)) }
    ensures consistent { OnOk result (IsConsistent held.new) }
    ensures covers { OnOk result (IsCovering (T.told tracer.new) (held_clause held.new.arena) held.new.arena.given) }
    ensures vars { held.new.vars ≡ held.old.vars }
    ensures tells { is_some (T.told tracer.new) ≡ is_some (T.told tracer.old) }
    ensures kept { T.kept tracer.new ≡ T.kept tracer.old }
{
    let places = Places::negated(alloc, assumptions, core.lits.as_slice())?;
    tell_units(held, tracer, assumptions, places.as_slice(), &mut core.rest)?;
    let empty = Lits::new(alloc);
    let root = held.number()?;
    tracer.derived(root, empty.as_slice(), core.first, core.rest.as_slice())?;
    Ok(Failure { root, places })
}

/// Resolves the units of a literal and of its negation.
fn refute_clash<T: Tracer>(
    alloc: Global,
    held: &mut Held,
    tracer: &mut T,
    assumptions: &[(Part, Lit)],
    lit: Lit,
) -> Result<Failure, AllocError>
    requires assumed { IsAssumed assumptions.now lit }
    requires negated { IsAssumed assumptions.now (negation lit) }
    requires consistent { IsConsistent held.old }
    requires covers { IsCovering (T.told tracer.old) (held_clause held.old.arena) held.old.arena.given }
    ensures failure { IfOk result (λ f. IsFailure assumptions.now held.old held.new f.root.0 f.places (T.told tracer.old) (T.told tracer.new)) }
    ensures consistent { OnOk result (IsConsistent held.new) }
    ensures covers { OnOk result (IsCovering (T.told tracer.new) (held_clause held.new.arena) held.new.arena.given) }
    ensures vars { held.new.vars ≡ held.old.vars }
    ensures tells { is_some (T.told tracer.new) ≡ is_some (T.told tracer.old) }
    ensures kept { T.kept tracer.new ≡ T.kept tracer.old }
{
    let places = Places::negated(alloc, assumptions, &[lit, lit.not()])?;
    let mut steps = Steps::new(alloc);
    tell_units(held, tracer, assumptions, places.as_slice(), &mut steps)?;
    let empty = Lits::new(alloc);
    let root = held.number()?;
    let steps = steps.as_slice();
    let first = first_of(steps);
    let rest = rest_of(steps);
    tracer.derived(root, empty.as_slice(), first, rest)?;
    Ok(Failure { root, places })
}

/// Tells the units of the assumptions at the places, in their order, and appends the steps that resolve with them.
fn tell_units<T: Tracer>(
    held: &mut Held,
    tracer: &mut T,
    assumptions: &[(Part, Lit)],
    places: &[usize],
    steps: &mut Steps,
) -> Result<(), AllocError>
    requires places { All (λ p. p < length assumptions.now) places.now }
    requires covers { IsCovering (T.told tracer.old) (held_clause held.old.arena) held.old.arena.given }
    ensures numbered { OnOk result (held.new ≡ with_ids held.old (length places.now)) }
    ensures steps { OnOk result (steps.new ≡ steps.old ++ unit_chain held.old.arena.given (at_places assumptions.now places.now)) }
    ensures units { OnOk result (AreUnitsTold held.old assumptions.now places.now (T.told tracer.old) (T.told tracer.new)) }
    ensures covers { OnOk result (IsCovering (T.told tracer.new) (units_of held.old assumptions.now places.now) held.new.arena.given) }
    ensures vars { held.new.vars ≡ held.old.vars }
    ensures tells { is_some (T.told tracer.new) ≡ is_some (T.told tracer.old) }
    ensures kept { T.kept tracer.new ≡ T.kept tracer.old }
{
    for place in places {
        let (part, lit) = at(assumptions, *place);
        let id = held.number()?;
        tracer.original(id, part, &[lit])?;
        let pivot = lit.not();
        steps.push(Step {
            pivot,
            antecedent: id,
        })?;
    }
    Ok(())
}

/// The clause of the first step.
fn first_of(steps: &[Step]) -> ClauseId
    requires { 0 < length steps.now }
    ensures { (s : Step) (rest : List Step) → steps.now ≡ s ∷ rest → result ≡ s.antecedent }
{
    steps[0].antecedent
}

/// The steps behind the first.
fn rest_of(steps: &[Step]) -> &[Step]
    requires { 0 < length steps.now }
    ensures { (s : Step) (rest : List Step) → steps.now ≡ s ∷ rest → result.now ≡ rest }
{
    &steps[1..]
}

/// The assumption at the place.
fn at(assumptions: &[(Part, Lit)], place: usize) -> (Part, Lit)
    requires { place < length assumptions.now }
    ensures { slice_get assumptions.now place ≡ Some result }
{
    assumptions[place]
}
