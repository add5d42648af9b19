//! Rows of `craig_itp`: the interpolants of a small refutation.

use crate::example::tell_refutation;
use craig_aig::Aig;
use craig_base::{ClauseId, Lit, Part, Var};
use craig_itp::{CutTracer, interpolate, sequence};
use craig_label::{Mark, Sides};
use craig_proof::{ChainStore, Tracer};
use craig_system::{DualPudlak, Inverse, Marked, McMillan, Pudlak, System};
use std::alloc::{AllocError, Global};
use std::test::Fail;

#[test]
fn an_untold_clause_has_no_edge(rt: HostRuntime) -> Result<(), Fail> {
    let sides = Sides::new(rt.alloc(), 1);
    let aig = Aig::new(rt.alloc());
    let mut tracer = CutTracer::new(rt.alloc(), aig, &sides, 1, &Pudlak);
    let empty: [Lit; 0] = [];
    tracer.original(ClauseId(5), Part(1), &empty)?;
    assert_eq!(rt; tracer.edge(ClauseId(4)), None);
    assert_eq!(rt; tracer.edge(ClauseId(5)), Some(Aig::constant(false)));
    tracer.forget(ClauseId(5));
    tracer.reclaim();
    let aig = tracer.into_aig();
    assert_eq!(rt; aig.len(), 1);
    Ok(())
}

/// Whether the interpolant of the small refutation at the cut between two parts has these values, where both variables
/// are false, where the first is true, where the second is, and where both are.
fn has_values<S: System>(alloc: Global, system: &S, values: [bool; 4]) -> Result<bool, AllocError> {
    let mut store = ChainStore::new(alloc);
    let mut sides = Sides::new(alloc, 2);
    tell_refutation(&mut store, &mut sides, Part(1), Part(1), Part(2))?;
    let mut aig = Aig::new(alloc);
    let edge = interpolate(alloc, &store, ClauseId(4), &sides, 1, system, &mut aig)?;
    let found = [
        aig.value(edge, &[false, false])?,
        aig.value(edge, &[true, false])?,
        aig.value(edge, &[false, true])?,
        aig.value(edge, &[true, true])?,
    ];
    Ok(found == values)
}

/// The system that marks the two variables so.
fn marking(alloc: Global, first: Mark, second: Mark) -> Result<Marked, AllocError> {
    let mut marked = Marked::new(alloc);
    marked.set(Var(0), first)?;
    marked.set(Var(1), second)?;
    Ok(marked)
}

#[test]
fn each_system_has_its_interpolant_of_two_parts(rt: HostRuntime) -> Result<(), Fail> {
    let alloc = rt.alloc();
    let first = [false, true, false, true];
    let both = [false, false, false, true];
    assert!(rt; has_values(alloc, &McMillan, both)?);
    assert!(rt; has_values(alloc, &Pudlak, first)?);
    assert!(rt; has_values(alloc, &DualPudlak, first)?);
    assert!(rt; has_values(alloc, &Inverse, first)?);
    assert!(rt; has_values(alloc, &marking(alloc, Mark::B, Mark::A)?, first)?);
    assert!(rt; has_values(alloc, &marking(alloc, Mark::Ab, Mark::B)?, first)?);
    Ok(())
}

#[test]
fn a_sequence_has_an_interpolant_for_each_cut(rt: HostRuntime) -> Result<(), Fail> {
    let mut store = ChainStore::new(rt.alloc());
    let mut sides = Sides::new(rt.alloc(), 3);
    tell_refutation(&mut store, &mut sides, Part(1), Part(2), Part(3))?;
    let mut aig = Aig::new(rt.alloc());
    let edges = sequence(rt.alloc(), &store, ClauseId(4), &sides, &Pudlak, &mut aig)?;
    let x = aig.input(Var(1))?;
    let y = aig.input(Var(0))?;
    let expected = [Aig::constant(true), x, y, Aig::constant(false)];
    assert_eq!(rt; edges.as_slice(), expected.as_slice());
    Ok(())
}
