//! The disjunction of the literals of a clause that have one label, from which the rules for clauses are made.
ghost use Rattle.std.specs.Prelude.{◌≤◌, ◌<◌, length, IfOk};
ghost use Rattle.craig_label.specs.Marks.{label_of};
ghost use Rattle.craig_aig.specs.Growth.{ArenaGrows};
ghost use Rattle.craig_system.specs.Building.{IsAny};
ghost use Rattle.craig_system.specs.Rules.{labelling};

use crate::System;
use crate::literal::or_literal;
use craig_aig::{Aig, Edge};
use craig_base::Lit;
use craig_label::{Mark, Sides};
use std::alloc::AllocError;

/// The disjunction of the literals that have the label.
pub(crate) fn any_labelled<S: System>(
    system: &S,
    aig: &mut Aig,
    sides: &Sides,
    cut: u16,
    label: Mark,
    lits: &[Lit],
) -> Result<Edge, AllocError>
    requires { cut ≤ sides.now.parts }
    ensures within { IfOk result (λ e. e.place < length aig.new) }
    ensures any { IfOk result (IsAny (labelling sides.now cut (S.marks system.now)).label (label_of label) lits.now aig.new) }
    ensures grows { ArenaGrows aig.old aig.new }
{
    // What holds of each arena is known from here on.
    let _ = aig.len();
    let mut edge = Aig::constant(false);
    for lit in lits {
        if system.label(sides, cut, lit.var()) == label {
            edge = or_literal(aig, edge, *lit)?;
        }
    }
    Ok(edge)
}
