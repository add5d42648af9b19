//! Rows of `craig_solver`: clauses are added and solved again and again.
//!
//! A row is a function over a solver that it was lent: where it returns early it lets nothing large go, and its proof is
//! short.
ghost use Rattle.std.specs.Prelude.{◌≡◌, ◌+◌, ◌<◌, ◌≤◌, All, OnOk};

use crate::counting::Counting;
use craig_base::{ClauseId, Lit, Part, Var};
use craig_proof::{ChainStore, Silent, Tracer};
use craig_solver::{Answer, Solver};
use std::alloc::{AllocError, Global};
use std::test::Fail;

/// Makes the variables below the number known.
pub(crate) fn reach<T: Tracer>(solver: &mut Solver<T>, vars: u32) -> Result<(), AllocError>
    requires { vars ≤ 2147483648 }
    ensures { OnOk result (vars ≤ solver.new.vars) }
{
    solver.reach(vars)?;
    Ok(())
}

/// The value of the variable, where there is a model.
fn value<T: Tracer>(
    solver: &mut Solver<T>,
    assumptions: &[(Part, Lit)],
    var: Var,
) -> Result<Option<bool>, AllocError>
    requires known { All (λ a. a.1.var < solver.old.vars) assumptions.now }
    requires var { var.0 < solver.old.vars }
    ensures { solver.new.vars ≡ solver.old.vars }
{
    let Answer::Model(values) = solver.solve(assumptions, None)? else {
        return Ok(None);
    };
    Ok(Some(values.get(var)))
}

/// The root of a refutation, which is replayed, where the assumptions at the wanted places fail.
fn root(
    alloc: Global,
    solver: &mut Solver<ChainStore>,
    assumptions: &[(Part, Lit)],
    wanted: &[usize],
) -> Result<Option<ClauseId>, AllocError>
    requires { All (λ a. a.1.var < solver.old.vars) assumptions.now }
    ensures { solver.new.vars ≡ solver.old.vars }
{
    let Answer::Failed { root, places } = solver.solve(assumptions, None)? else {
        return Ok(None);
    };
    let mut part = ChainStore::new(alloc);
    solver.tracer().replay(root, &mut part)?;
    if places.as_slice() != wanted {
        return Ok(None);
    }
    Ok(Some(root))
}

/// Whether a variable is true once a clause leaves it no other value.
fn gives_value(solver: &mut Solver<Silent>) -> Result<bool, AllocError> {
    let v0 = Lit::new(Var(0), false);
    let v1 = Lit::new(Var(1), false);
    reach(solver, 2)?;
    solver.add(Part(1), &[v0, v1])?;
    let before = value(solver, &[], Var(1))?;
    solver.add(Part(2), &[v0.not()])?;
    let after = value(solver, &[], Var(1))?;
    Ok(before.is_some() && after == Some(true))
}

#[test]
fn a_model_gives_each_variable_its_value(rt: HostRuntime) -> Result<(), Fail> {
    let mut solver = Solver::new(rt.alloc(), Silent);
    assert!(rt; gives_value(&mut solver)?);
    Ok(())
}

/// Adds four clauses that have no model.
fn add_four(solver: &mut Solver<ChainStore>) -> Result<(), AllocError> {
    let v0 = Lit::new(Var(0), false);
    let v1 = Lit::new(Var(1), false);
    reach(solver, 2)?;
    solver.add(Part(1), &[v0, v1])?;
    solver.add(Part(1), &[v0, v1.not()])?;
    solver.add(Part(2), &[v0.not(), v1])?;
    solver.add(Part(2), &[v0.not(), v1.not()])
}

/// Whether clauses are refuted twice, the second time under a later root.
fn is_refuted_twice(alloc: Global, solver: &mut Solver<ChainStore>) -> Result<bool, AllocError> {
    add_four(solver)?;
    let first = root(alloc, solver, &[], &[])?;
    let again = root(alloc, solver, &[], &[])?;
    Ok(first.is_some() && first < again)
}

#[test]
fn a_refutation_is_replayed(rt: HostRuntime) -> Result<(), Fail> {
    let mut solver = Solver::new(rt.alloc(), ChainStore::new(rt.alloc()));
    assert!(rt; is_refuted_twice(rt.alloc(), &mut solver)?);
    Ok(())
}

/// Whether a literal and its negation fail together, and an assumption that a clause contradicts fails alone.
fn names_failed(alloc: Global, solver: &mut Solver<ChainStore>) -> Result<bool, AllocError> {
    let v0 = Lit::new(Var(0), false);
    let v1 = Lit::new(Var(1), false);
    reach(solver, 2)?;
    let opposite = [(Part(1), v0), (Part(2), v0), (Part(2), v0.not())];
    let together = root(alloc, solver, &opposite, &[0, 2])?;
    solver.add(Part(1), &[v0])?;
    let excluded = [(Part(1), v1), (Part(2), v0.not())];
    let alone = root(alloc, solver, &excluded, &[1])?;
    Ok(together.is_some() && alone.is_some())
}

#[test]
fn assumptions_fail_by_their_first_places(rt: HostRuntime) -> Result<(), Fail> {
    let mut solver = Solver::new(rt.alloc(), ChainStore::new(rt.alloc()));
    assert!(rt; names_failed(rt.alloc(), &mut solver)?);
    Ok(())
}

/// Whether assumptions that fail are gone in the next search, and fail under a later root when they come again.
fn forgets_assumptions(alloc: Global, solver: &mut Solver<ChainStore>) -> Result<bool, AllocError> {
    let v0 = Lit::new(Var(0), false);
    let v1 = Lit::new(Var(1), false);
    reach(solver, 2)?;
    solver.add(Part(1), &[v0, v1])?;
    let assumptions = [(Part(1), v0.not()), (Part(2), v1.not())];
    let first = root(alloc, solver, &assumptions, &[0, 1])?;
    let unassumed = value(solver, &[], Var(0))?;
    let again = root(alloc, solver, &assumptions, &[0, 1])?;
    let assumed = value(solver, &[(Part(2), v1.not())], Var(0))?;
    Ok(first.is_some() && unassumed.is_some() && first < again && assumed == Some(true))
}

#[test]
fn assumptions_hold_for_one_search(rt: HostRuntime) -> Result<(), Fail> {
    let mut solver = Solver::new(rt.alloc(), ChainStore::new(rt.alloc()));
    assert!(rt; forgets_assumptions(rt.alloc(), &mut solver)?);
    Ok(())
}

/// The number of lemmas, where a limit of one is met.
fn lemmas(
    solver: &mut Solver<Silent>,
    assumptions: &[(Part, Lit)],
) -> Result<Option<usize>, AllocError>
    requires { All (λ a. a.1.var < solver.old.vars) assumptions.now }
    ensures { solver.new.vars ≡ solver.old.vars }
{
    let Answer::Limit(lemmas) = solver.solve(assumptions, Some(1))? else {
        return Ok(None);
    };
    Ok(Some(lemmas.len()))
}

/// Whether a lemma that an assumption led to stays held, so that the assumption fails without one more.
fn keeps_lemma(solver: &mut Solver<Silent>) -> Result<bool, AllocError> {
    let v0 = Lit::new(Var(0), false);
    let v1 = Lit::new(Var(1), false);
    reach(solver, 2)?;
    solver.add(Part(1), &[v0, v1])?;
    solver.add(Part(2), &[v0, v1.not()])?;
    let assumed = [(Part(2), v0.not())];
    let first = lemmas(solver, &assumed)?;
    let again = solver.solve(&assumed, Some(1))?;
    Ok(first == Some(1) && matches!(again, Answer::Failed { .. }))
}

#[test]
fn lemmas_stay_held(rt: HostRuntime) -> Result<(), Fail> {
    let mut solver = Solver::new(rt.alloc(), Silent);
    assert!(rt; keeps_lemma(&mut solver)?);
    Ok(())
}

/// Adds the clauses of five pigeons in four holes: variable 4p + h says that pigeon p is in hole h.
fn add_pigeons(solver: &mut Solver<Silent>) -> Result<(), AllocError>
    ensures { OnOk result (20 ≤ solver.new.vars) }
{
    reach(solver, 20)?;
    for pigeon in 0..5 {
        add_pigeon(solver, 4 * pigeon)?;
    }
    Ok(())
}

/// Adds the clauses of a pigeon whose variables are the four from this one on: it is in a hole where no earlier one is.
fn add_pigeon(solver: &mut Solver<Silent>, first: u32) -> Result<(), AllocError>
    requires known { first + 4 ≤ solver.old.vars }
    requires pigeon { first ≤ 16 }
    ensures { solver.new.vars ≡ solver.old.vars }
{
    let hole = |h: u32| Lit::new(Var(first + h), false);
    solver.add(Part(1), &[hole(0), hole(1), hole(2), hole(3)])?;
    for earlier in 0..first {
        exclude(solver, first, earlier)?;
    }
    Ok(())
}

/// Adds the clause that keeps a pigeon out of the hole that a variable of an earlier one names.
fn exclude(solver: &mut Solver<Silent>, first: u32, earlier: u32) -> Result<(), AllocError>
    requires known { first + 4 ≤ solver.old.vars }
    requires pigeon { first ≤ 16 }
    requires before { earlier < first }
    ensures { solver.new.vars ≡ solver.old.vars }
{
    let in_hole = Lit::new(Var(first + earlier % 4), true);
    solver.add(Part(2), &[in_hole, Lit::new(Var(earlier), true)])
}

/// Whether pigeons and holes meet a limit of one lemma, also under an assumption, and are refuted without a limit.
fn are_refuted_after_lemmas(solver: &mut Solver<Silent>) -> Result<bool, AllocError> {
    add_pigeons(solver)?;
    let first = lemmas(solver, &[])?;
    let assumed = lemmas(solver, &[(Part(2), Lit::new(Var(0), false))])?;
    let last = solver.solve(&[], None)?;
    Ok(first == Some(1) && assumed == Some(1) && matches!(last, Answer::Failed { .. }))
}

#[test]
fn pigeons_are_refuted_after_lemmas(rt: HostRuntime) -> Result<(), Fail> {
    let mut solver = Solver::new(rt.alloc(), Silent);
    assert!(rt; are_refuted_after_lemmas(&mut solver)?);
    Ok(())
}

/// Adds a clause that forces a literal from the one before it.
fn add_implication(solver: &mut Solver<Counting>, var: u32) -> Result<(), AllocError>
    requires known { var + 1 < solver.old.vars }
    requires few { var < 4 }
    ensures { solver.new.vars ≡ solver.old.vars }
{
    let implied = Lit::new(Var(var + 1), false);
    solver.add(Part(2), &[Lit::new(Var(var), true), implied])
}

/// Adds a clause of one literal and clauses that force the others from it, one after another.
fn add_implications(solver: &mut Solver<Counting>) -> Result<(), AllocError>
    ensures { OnOk result (5 ≤ solver.new.vars) }
{
    reach(solver, 5)?;
    solver.add(Part(1), &[Lit::new(Var(0), false)])?;
    add_implication(solver, 0)?;
    add_implication(solver, 1)?;
    add_implication(solver, 2)?;
    add_implication(solver, 3)
}

/// What was told, where there is a model.
fn counted(solver: &mut Solver<Counting>) -> Result<Option<Counting>, AllocError>
    ensures { solver.new.vars ≡ solver.old.vars }
{
    let Answer::Model(_) = solver.solve(&[], None)? else {
        return Ok(None);
    };
    Ok(Some(*solver.tracer()))
}

/// Whether the literals that clauses force at level 0 get unit clauses, each told once by one step, so that a refutation
/// behind them takes one step too.
fn derives_units(solver: &mut Solver<Counting>) -> Result<bool, AllocError> {
    add_implications(solver)?;
    let told = Counting {
        derived: 4,
        longest: 1,
        forgotten: 0,
    };
    let first = counted(solver)?;
    let again = counted(solver)?;
    solver.add(Part(1), &[Lit::new(Var(4), true)])?;
    let last = solver.solve(&[], None)?;
    let counts = *solver.tracer();
    let refuted = matches!(last, Answer::Failed { .. }) && counts.derived == 5;
    Ok(first == Some(told) && again == Some(told) && refuted && counts.longest == 1)
}

#[test]
fn literals_of_level_0_get_unit_clauses(rt: HostRuntime) -> Result<(), Fail> {
    let mut solver = Solver::new(rt.alloc(), Counting::new());
    assert!(rt; derives_units(&mut solver)?);
    Ok(())
}
