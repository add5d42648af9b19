//! Rows of `craig_aig`: gates are folded, shared and valued.
ghost use Rattle.std.specs.Prelude.{◌<◌, IfOk, length};

use craig_aig::{Aig, Edge, Node};
use craig_base::Var;
use std::alloc::{AllocError, Global};
use std::test::Fail;

/// An arena with the inputs of the variables 0 and 1, and their edges.
fn two_inputs(alloc: Global) -> Result<(Aig, Edge, Edge), AllocError>
    ensures first { IfOk result (λ r. r.1.place < length r.0) }
    ensures second { IfOk result (λ r. r.2.place < length r.0) }
{
    let mut aig = Aig::new(alloc);
    let x = aig.input(Var(0))?;
    let y = aig.input(Var(1))?;
    Ok((aig, x, y))
}

/// All values of two variables.
const ASSIGNMENTS: [[bool; 2]; 4] = [[false, false], [false, true], [true, false], [true, true]];

#[test]
fn one_input_for_each_variable(rt: HostRuntime) -> Result<(), Fail> {
    let (mut aig, _, y) = two_inputs(rt.alloc())?;
    assert_eq!(rt; aig.input(Var(1))?, y);
    assert_eq!(rt; aig.len(), 3);
    assert_eq!(rt; aig.node(Aig::not(y)), Node::Input(Var(1)));
    assert_eq!(rt; Aig::not(y).place(), 2);
    assert!(rt; Aig::not(y).negated());
    Ok(())
}

#[test]
fn conjunctions_are_folded_and_shared(rt: HostRuntime) -> Result<(), Fail> {
    let (mut aig, x, y) = two_inputs(rt.alloc())?;
    let both = aig.and(x, y)?;
    assert_eq!(rt; aig.and(y, x)?, both);
    assert_eq!(rt; aig.and(x, Aig::not(x))?, Aig::constant(false));
    assert_eq!(rt; aig.or(x, Aig::constant(true))?, Aig::constant(true));
    Ok(())
}

#[test]
fn a_choice_against_false_is_a_conjunction(rt: HostRuntime) -> Result<(), Fail> {
    let (mut aig, x, y) = two_inputs(rt.alloc())?;
    let both = aig.and(x, y)?;
    let chosen = aig.mux(x, y, Aig::constant(false))?;
    for [first, second] in ASSIGNMENTS {
        let assignment = [first, second];
        assert_eq!(rt; aig.value(both, &assignment)?, first && second);
        assert_eq!(rt; aig.value(chosen, &assignment)?, first && second);
    }
    Ok(())
}

#[test]
fn a_deep_chain_has_a_value_and_goes_away(rt: HostRuntime) -> Result<(), Fail> {
    let (mut aig, x, y) = two_inputs(rt.alloc())?;
    let level = aig.level();
    let mut last = y;
    'chain: for _ in 0..100000 {
        last = aig.and(x, Aig::not(last))?;
    }
    assert_eq!(rt; aig.len(), 100003);
    assert_eq!(rt; aig.value(last, &[true, true])?, true);
    assert_eq!(rt; aig.value(last, &[true, false])?, false);
    aig.back_to(level);
    assert_eq!(rt; aig.len(), 3);
    assert_eq!(rt; aig.value(y, &[false, true])?, true);
    Ok(())
}
