//! Rows of `craig_aiger`: the binary text of one gate.
use crate::aiger::{both, of_one};
use craig_aig::Aig;
use craig_aiger::{Form, Layout, OutName};
use craig_base::Names;
use std::alloc::{AllocError, Global};
use std::test::Fail;

/// Whether the layout is written as one gate of the inputs 1 and 2, and its size told.
fn is_written(alloc: Global, layout: &Layout) -> Result<bool, AllocError> {
    let mut out = Vec::new(alloc);
    layout.write_aig(&mut out)?;
    let text = b"aig 3 2 0 1 1\n6\n\x02\x02i0 1\ni1 2\no0 0\n";
    Ok(layout.size_of(Form::Aig) == 33 && out.as_slice() == text.as_slice())
}

#[test]
fn the_binary_text_of_one_gate(rt: HostRuntime) -> Result<(), Fail> {
    let mut names = Names::new(rt.alloc());
    let first = names.dense(1)?;
    let second = names.dense(2)?;
    assert!(rt; first.0 < names.len());
    let mut aig = Aig::new(rt.alloc());
    let edge = both(&mut aig, &names, first, second)?;
    let name = OutName {
        family: None,
        cut: 0,
    };
    let layout = of_one(rt.alloc(), &aig, &names, name, edge)?;
    assert!(rt; is_written(rt.alloc(), &layout)?);
    Ok(())
}
