//! The search itself: propagation, decisions and conflicts in turn.
ghost use Rattle.std.specs.Prelude.{◌≡◌, ◌≢◌, ◌<◌, [], true, Some, None, All, IfOk, IsErr, is_some};
ghost use Rattle.craig_search.specs.Journal.{ListsLemmas};
ghost use Rattle.craig_search.specs.Search.{IsSearched, MayBegin};
ghost use Rattle.craig_search.specs.Searching.{IsOutcome, IsUnderWay};
ghost use Rattle.craig_search.specs.Verdict.{IsDefiniteVerdict};

use crate::deciding::{Turn, decide_next, first_open};
use crate::failing::failed;
use crate::going_back::go_back;
use crate::learning::learn;
use crate::listing::list_lemma;
use crate::outcome::Outcome;
use crate::reducing::reduce_if_due;
use crate::reductions::Reductions;
use crate::refuting::refuted;
use crate::restarting::restart_if_due;
use crate::units::derive_units;
use crate::{Journal, Places, Verdict, Workspace};
use craig_base::{ClauseId, Lit, Part};
use craig_order::{Order, Pace};
use craig_proof::Tracer;
use craig_watch::Held;
use std::alloc::{AllocError, Global};

/// Searches for a model of the held clauses and the assumptions.
///
/// Literals are over dense variables, and an assumption is a literal with its part. The level is 0 at first, and the
/// order knows the variables that are held and was given back all that are free. A tracer that tells its meaning covers
/// the held clauses, and goes on doing so: it is told each learnt clause with its chain, the unit clause of each literal
/// that a longer clause forces at level 0, and the empty clause for a refutation. Clauses that are not learnt stay as they
/// are, and each new clause is learnt, follows from those that were held, and has variables of theirs alone. After `Model`
/// the level stays as it is: the caller reads the values and goes back to level 0. After every other verdict the level is
/// 0, and all free variables were given back again.
///
/// An `AllocError` comes only for want of memory. After it nothing is promised of what was lent but that its calls are
/// safe, and that the same variables are known. Clauses whose memory was refused before are not searched.
///
/// A search lets some of the clauses go that it learnt itself, and the tracer forgets their ids. What it keeps for the next
/// search over the same clauses is in the workspace.
///
/// Assumptions are decided in their order, each at a level of its own, and none that is true already. One that is false
/// ends the search.
///
/// A limit, which is not 0, ends the search as soon as so many clauses were learnt. `Limit` has these clauses, the lemmas:
/// each follows from the clauses that were held when the search began, without the assumptions, has variables of theirs
/// alone, and contains none of them. No three of them have the same literals. Without a limit there is no such verdict.
pub fn search<T: Tracer>(
    alloc: Global,
    held: &mut Held,
    order: &mut Order,
    tracer: &mut T,
    workspace: &mut Workspace,
    assumptions: &[(Part, Lit)],
    limit: Option<u64>,
) -> Result<Verdict, AllocError>
    requires begins { MayBegin held.old order.old (T.told tracer.old) }
    requires known { All (λ a. a.1.var < held.old.vars) assumptions.now }
    requires limit { limit ≢ Some 0 }
    ensures searched { IfOk result (IsSearched held.old held.new order.new (T.told tracer.old) (T.told tracer.new) assumptions.now limit) }
    ensures decided { limit ≡ None → IfOk result IsDefiniteVerdict }
    ensures vars { held.new.vars ≡ held.old.vars }
    ensures order { order.new.dead ≡ order.old.dead }
    ensures refused { held.old.dead ≡ true → IsErr result }
    ensures tells { is_some (T.told tracer.new) ≡ is_some (T.told tracer.old) }
    ensures kept { T.kept tracer.new ≡ T.kept tracer.old }
{
    let level = held.level();
    prove!(level == 0);
    let mut journal = Journal::new(alloc);
    let outcome = run(
        alloc,
        held,
        order,
        tracer,
        workspace,
        assumptions,
        limit,
        &mut journal,
    )?;
    match outcome {
        Outcome::Model => Ok(Verdict::Model),
        Outcome::Refuted(root) => Ok(Verdict::Failed {
            root,
            places: Places::none(alloc),
        }),
        Outcome::Failed(lit) => {
            let analysis = &mut workspace.analysis;
            let failure = failed(alloc, held, order, tracer, analysis, assumptions, lit)?;
            Ok(Verdict::Failed {
                root: failure.root,
                places: failure.places,
            })
        }
        Outcome::Limited => {
            go_back(held, order, 0);
            Ok(Verdict::Limit(journal))
        }
    }
}

/// Searches until no variable is free, until a clause is false at level 0, until an assumption is false, or until the
/// journal has as many clauses as the limit.
fn run<T: Tracer>(
    alloc: Global,
    held: &mut Held,
    order: &mut Order,
    tracer: &mut T,
    workspace: &mut Workspace,
    assumptions: &[(Part, Lit)],
    limit: Option<u64>,
    journal: &mut Journal,
) -> Result<Outcome, AllocError>
    requires under_way { IsUnderWay held.old order.old (T.told tracer.old) }
    requires level { held.old.level ≡ 0 }
    requires known { All (λ a. a.1.var < held.old.vars) assumptions.now }
    requires limit { limit ≢ Some 0 }
    requires none_yet { journal.old ≡ [] }
    ensures listed { IfOk result (ListsLemmas limit held.old journal.new) }
    ensures outcome { IfOk result (IsOutcome assumptions.now held.old held.new order.new (T.told tracer.old) (T.told tracer.new)) }
    ensures vars { held.new.vars ≡ held.old.vars }
    ensures order { order.new.dead ≡ order.old.dead }
    ensures refused { held.old.dead ≡ true → IsErr result }
    ensures tells { is_some (T.told tracer.new) ≡ is_some (T.told tracer.old) }
    ensures kept { T.kept tracer.new ≡ T.kept tracer.old }
{
    craig_watch::laws::levels_rise();
    craig_base::laws::no_longer_list();
    let mut pace = Pace::new();
    let mut reductions = Reductions::new(held.arena().given());
    let mut place = 0;
    'turns: loop {
        match held.propagate()? {
            None => {
                derive_units(alloc, held, tracer, workspace, &mut reductions)?;
                place = first_open(held, assumptions, place);
                match decide_next(held, order, assumptions, place) {
                    Turn::Decided => {}
                    Turn::Model => return Ok(Outcome::Model),
                    Turn::Failed(lit) => return Ok(Outcome::Failed(lit)),
                }
            }
            Some(conflict) => {
                let analysis = &mut workspace.analysis;
                if held.level() == 0 {
                    return Ok(Outcome::Refuted(refuted(held, tracer, analysis, conflict)?));
                }
                let learnt = learn(held, order, tracer, analysis, &mut pace, journal, conflict)?;
                let met = list_lemma(journal, limit, learnt.lits.as_slice())?;
                if met {
                    return Ok(Outcome::Limited);
                }
                restart_if_due(held, order, &mut pace, assumptions);
                reduce_if_due(held, tracer, &mut pace, &mut reductions);
                place = 0;
            }
        }
    }
}
