//! Rows of `craig_system`: leaves and joins over three variables.
ghost use Rattle.std.specs.Prelude.{◌≡◌, IfOk};

use craig_aig::Aig;
use craig_base::{Lit, Part, Var};
use craig_label::Sides;
use craig_system::{Pudlak, System};
use std::alloc::{AllocError, Global};
use std::test::Fail;

/// At cut 1 the variable 0 is on side A, 1 on both sides and 2 on side B.
fn three_variables(alloc: Global) -> Result<Sides, AllocError>
    ensures { IfOk result (λ s. s.parts ≡ 2) }
{
    let mut sides = Sides::new(alloc, 2);
    sides.note(Var(0), Part(1))?;
    sides.note(Var(1), Part(1))?;
    sides.note(Var(1), Part(2))?;
    sides.note(Var(2), Part(2))?;
    Ok(sides)
}

#[test]
fn leaves_have_the_literals_of_the_other_side(rt: HostRuntime) -> Result<(), Fail> {
    let sides = three_variables(rt.alloc())?;
    let mut aig = Aig::new(rt.alloc());
    let clause = [
        Lit::new(Var(0), false),
        Lit::new(Var(1), false),
        Lit::new(Var(2), true),
    ];
    let leaf_a = Pudlak.leaf_a(&mut aig, &sides, 1, &clause)?;
    let leaf_b = Pudlak.leaf_b(&mut aig, &sides, 1, &clause)?;
    assert_eq!(rt; leaf_a, Aig::not(aig.input(Var(2))?));
    assert_eq!(rt; leaf_b, Aig::not(aig.input(Var(0))?));
    Ok(())
}

#[test]
fn a_shared_pivot_joins_by_a_conjunction_of_two_disjunctions(rt: HostRuntime) -> Result<(), Fail> {
    let sides = three_variables(rt.alloc())?;
    let mut aig = Aig::new(rt.alloc());
    let left = aig.input(Var(0))?;
    let no = Aig::constant(false);
    let joined = Pudlak.join(&mut aig, &sides, 1, Lit::new(Var(1), false), left, no)?;
    let pivot = aig.input(Var(1))?;
    let either = aig.or(pivot, left)?;
    let expected = aig.and(either, Aig::not(pivot))?;
    assert_eq!(rt; joined, expected);
    Ok(())
}
