//! A row of a search that is long: eight pigeons in seven holes.
ghost use Rattle.std.specs.Prelude.{◌≡◌, ◌+◌, ◌<◌, ◌≤◌, OnOk};

use crate::counting::Counting;
use crate::solver::reach;
use craig_base::{Lit, Part, Var};
use craig_solver::{Answer, Solver};
use std::alloc::AllocError;
use std::test::Fail;

/// Adds the clauses: variable 7p + h says that pigeon p is in hole h.
fn add_pigeons(solver: &mut Solver<Counting>) -> Result<(), AllocError> {
    reach(solver, 56)?;
    for pigeon in 0..8 {
        add_pigeon(solver, 7 * pigeon)?;
    }
    Ok(())
}

/// Adds the clauses of a pigeon whose variables are the seven from this one on: it is in a hole where no earlier one is.
fn add_pigeon(solver: &mut Solver<Counting>, first: u32) -> Result<(), AllocError>
    requires known { first + 7 ≤ solver.old.vars }
    requires pigeon { first ≤ 49 }
    ensures { solver.new.vars ≡ solver.old.vars }
{
    let hole = |h: u32| Lit::new(Var(first + h), false);
    solver.add(
        Part(1),
        &[
            hole(0),
            hole(1),
            hole(2),
            hole(3),
            hole(4),
            hole(5),
            hole(6),
        ],
    )?;
    for earlier in 0..first {
        exclude(solver, first, earlier)?;
    }
    Ok(())
}

/// Adds the clause that keeps a pigeon out of the hole that a variable of an earlier one names.
fn exclude(solver: &mut Solver<Counting>, first: u32, earlier: u32) -> Result<(), AllocError>
    requires known { first + 7 ≤ solver.old.vars }
    requires pigeon { first ≤ 49 }
    requires before { earlier < first }
    ensures { solver.new.vars ≡ solver.old.vars }
{
    let in_hole = Lit::new(Var(first + earlier % 7), true);
    solver.add(Part(2), &[in_hole, Lit::new(Var(earlier), true)])
}

/// What was told by now, where the clauses are refuted.
fn refuted(solver: &mut Solver<Counting>) -> Result<Option<Counting>, AllocError> {
    let Answer::Failed { .. } = solver.solve(&[], None)? else {
        return Ok(None);
    };
    Ok(Some(*solver.tracer()))
}

/// Whether a search lets clauses go, and keeps others, so that the next one tells fewer derived clauses.
fn lets_go_and_keeps(solver: &mut Solver<Counting>) -> Result<bool, AllocError> {
    add_pigeons(solver)?;
    let Some(first) = refuted(solver)? else {
        return Ok(false);
    };
    let Some(both) = refuted(solver)? else {
        return Ok(false);
    };
    Ok(first.forgotten > 0 && both.derived < first.derived.saturating_mul(2))
}

#[test]
fn clauses_are_let_go_and_kept(rt: HostRuntime) -> Result<(), Fail> {
    let mut solver = Solver::new(rt.alloc(), Counting::new());
    assert!(rt; lets_go_and_keeps(&mut solver)?);
    Ok(())
}
