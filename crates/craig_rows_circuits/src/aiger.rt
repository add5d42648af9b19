//! Rows of `craig_aiger`: the layout and the text of one gate.
ghost use Rattle.std.specs.Prelude.{◌<◌, ℕ, Contains, IfOk, length};
ghost use Rattle.craig_aig.specs.Cones.{cone};

use craig_aig::{Aig, Edge};
use craig_aiger::{Family, Form, Layout, OutName};
use craig_base::{Names, Var};
use std::alloc::{AllocError, Global};
use std::test::Fail;

#[test]
fn a_name_prints_as_its_cut_after_its_letter(rt: HostRuntime) -> Result<(), Fail> {
    let name = OutName {
        family: Some(Family::Pudlak),
        cut: 12,
    };
    assert_eq!(rt; format!(in rt.alloc(); "{name}")?.as_str(), "p12");
    Ok(())
}

/// The conjunction of the inputs of two named variables.
pub(crate) fn both(aig: &mut Aig, names: &Names, left: Var, right: Var) -> Result<Edge, AllocError>
    requires left { left.0 < length names.now }
    requires right { right.0 < length names.now }
    ensures edge { IfOk result (λ e. e.place < length aig.new) }
    ensures inputs { IfOk result (λ e. (x : ℕ) → Contains (cone aig.new e) x → x < length names.now) }
{
    let one = aig.input(left)?;
    let two = aig.input(right)?;
    aig.and(one, two)
}

/// The layout of one output.
pub(crate) fn of_one(
    alloc: Global,
    aig: &Aig,
    names: &Names,
    name: OutName,
    edge: Edge,
) -> Result<Layout, AllocError>
    requires edge { edge.place < length aig.now }
    requires inputs { (x : ℕ) → Contains (cone aig.now edge) x → x < length names.now }
{
    Layout::new(alloc, aig, names, &[(name, edge)])
}

/// Whether the layout is one gate of the inputs 1 and 2, which is its output.
fn is_laid_out(layout: &Layout, name: OutName) -> bool {
    layout.inputs() == [1, 2].as_slice()
        && layout.gates() == [(4, 2)].as_slice()
        && layout.outputs() == 1
        && layout.output(0) == (name, 6)
}

#[test]
fn the_text_of_one_gate(rt: HostRuntime) -> Result<(), Fail> {
    let mut names = Names::new(rt.alloc());
    let first = names.dense(1)?;
    let second = names.dense(2)?;
    assert!(rt; first.0 < names.len());
    let mut aig = Aig::new(rt.alloc());
    let edge = both(&mut aig, &names, first, second)?;
    let name = OutName {
        family: None,
        cut: 0,
    };
    let layout = of_one(rt.alloc(), &aig, &names, name, edge)?;
    let mut out = Vec::new(rt.alloc());
    layout.write_aag(&mut out)?;
    assert!(rt; is_laid_out(&layout, name));
    assert_eq!(rt; layout.size_of(Form::Aag), 41);
    assert_eq!(rt;
        out.as_slice(),
        b"aag 3 2 0 1 1\n2\n4\n6\n6 4 2\ni0 1\ni1 2\no0 0\n".as_slice()
    );
    Ok(())
}
