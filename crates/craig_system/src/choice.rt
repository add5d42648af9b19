//! The gates of a choice between two edges by a literal.
ghost use Rattle.std.specs.Prelude.{◌<◌, length, IfOk};
ghost use Rattle.craig_aig.specs.Growth.{ArenaGrows};
ghost use Rattle.craig_system.specs.Rules.{IsChoice};

use crate::literal::{literal_edge, or_literal};
use craig_aig::{Aig, Edge};
use craig_base::Lit;
use std::alloc::AllocError;

/// The choice as a conjunction of two disjunctions: of the pivot and `left`, and of its negation and `right`.
pub(crate) fn conjunction_of_either(
    aig: &mut Aig,
    pivot: Lit,
    left: Edge,
    right: Edge,
) -> Result<Edge, AllocError>
    requires left { left.place < length aig.old }
    requires right { right.place < length aig.old }
    ensures within { IfOk result (λ e. e.place < length aig.new) }
    ensures choice { IfOk result (IsChoice pivot aig.old left right aig.new) }
    ensures grows { ArenaGrows aig.old aig.new }
{
    let first = or_literal(aig, left, pivot)?;
    let second = or_literal(aig, right, pivot.not())?;
    aig.and(first, second)
}

/// The choice as a disjunction of two conjunctions: of the pivot and `right`, and of its negation and `left`.
pub(crate) fn disjunction_of_both(
    aig: &mut Aig,
    pivot: Lit,
    left: Edge,
    right: Edge,
) -> Result<Edge, AllocError>
    requires left { left.place < length aig.old }
    requires right { right.place < length aig.old }
    ensures within { IfOk result (λ e. e.place < length aig.new) }
    ensures choice { IfOk result (IsChoice pivot aig.old left right aig.new) }
    ensures grows { ArenaGrows aig.old aig.new }
{
    let literal = literal_edge(aig, pivot)?;
    aig.mux(literal, right, left)
}
