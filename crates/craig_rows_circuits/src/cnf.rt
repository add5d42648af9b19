//! Rows of `craig_cnf`: the text of one clause, and of the clauses of one gate.
ghost use Rattle.std.specs.Prelude.{◌≡◌, ◌≤◌, ◌<◌, true, All, length};
ghost use Rattle.craig_base.specs.Clauses.{IsNormal};

use crate::aiger::{both, of_one};
use craig_aig::Aig;
use craig_aiger::{Layout, OutName};
use craig_base::{Lit, Lits, Names, Normal, Var, normal};
use craig_cnf::{write_dimacs, write_tseitin};
use std::alloc::{AllocError, Global};
use std::test::Fail;

/// Whether each variable of the literals has a name.
fn are_named(literals: &[Lit], names: &Names) -> bool
    ensures { result ≡ true → All (λ l. l.var < length names.now) literals.now }
{
    literals.iter().all(|literal| literal.var().0 < names.len())
}

/// Whether the text of one clause is this.
fn is_clause_text(
    alloc: Global,
    clause: Lits,
    names: &Names,
    wanted: &[u8],
) -> Result<bool, AllocError>
    requires { IsNormal clause }
{
    if !are_named(clause.as_slice(), names) {
        return Ok(false);
    }
    let mut out = Vec::new(alloc);
    write_dimacs(alloc, &[clause], names, &mut out)?;
    Ok(out.as_slice() == wanted)
}

/// Whether the clause of the first variable and the negation of the second has this text, where these are the first
/// names of a script.
fn is_text_of_two(
    alloc: Global,
    names: &mut Names,
    first: u32,
    second: u32,
    wanted: &[u8],
) -> Result<bool, AllocError>
    requires first_low { 1 ≤ first }
    requires first_high { first ≤ 2147483647 }
    requires second_low { 1 ≤ second }
    requires second_high { second ≤ 2147483647 }
{
    let one = names.dense(first)?;
    let two = names.dense(second)?;
    let literals = [Lit::new(one, false), Lit::new(two, true)];
    match normal(alloc, &literals)? {
        Normal::Clause(clause) => is_clause_text(alloc, clause, names, wanted),
        Normal::Tautology => Ok(false),
    }
}

#[test]
fn the_text_of_one_clause(rt: HostRuntime) -> Result<(), Fail> {
    let mut names = Names::new(rt.alloc());
    assert!(rt; is_text_of_two(rt.alloc(), &mut names, 3, 5, b"p cnf 5 1\n3 -5 0\n")?);
    Ok(())
}

#[test]
fn literals_stand_by_script_variable(rt: HostRuntime) -> Result<(), Fail> {
    let mut names = Names::new(rt.alloc());
    assert!(rt; is_text_of_two(rt.alloc(), &mut names, 5, 3, b"p cnf 5 1\n-3 5 0\n")?);
    Ok(())
}

/// Whether each of the variables is at most `top`.
fn are_up_to(variables: &[u32], top: u32) -> bool
    ensures { result ≡ true → All (λ x. x ≤ top) variables.now }
{
    variables.iter().all(|variable| *variable <= top)
}

/// Whether the text of the layout is this, with fresh variables after `top`.
fn is_circuit_text(
    alloc: Global,
    layout: &Layout,
    top: u32,
    wanted: &[u8],
) -> Result<bool, AllocError> {
    if !are_up_to(layout.inputs(), top) {
        return Ok(false);
    }
    let mut out = Vec::new(alloc);
    write_tseitin(layout, top, &mut out)?;
    Ok(out.as_slice() == wanted)
}

/// Whether the gate of two named variables has this text, with fresh variables after 2.
fn is_text_of_gate(
    alloc: Global,
    aig: &mut Aig,
    names: &Names,
    first: Var,
    second: Var,
    wanted: &[u8],
) -> Result<bool, AllocError> {
    if first.0 >= names.len() || second.0 >= names.len() {
        return Ok(false);
    }
    let edge = both(aig, names, first, second)?;
    let name = OutName {
        family: None,
        cut: 0,
    };
    let layout = of_one(alloc, aig, names, name, edge)?;
    is_circuit_text(alloc, &layout, 2, wanted)
}

#[test]
fn the_clauses_of_one_gate(rt: HostRuntime) -> Result<(), Fail> {
    let mut names = Names::new(rt.alloc());
    let first = names.dense(1)?;
    let second = names.dense(2)?;
    let mut aig = Aig::new(rt.alloc());
    let wanted = b"c o 0 3\np cnf 3 3\n-3 2 0\n-3 1 0\n3 -2 -1 0\n";
    assert!(rt; is_text_of_gate(rt.alloc(), &mut aig, &names, first, second, wanted)?);
    Ok(())
}
