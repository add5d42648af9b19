//! The edges of literals.
ghost use Rattle.std.specs.Prelude.{◌<◌, length, IfOk};
ghost use Rattle.craig_aig.specs.Growth.{ArenaGrows};
ghost use Rattle.craig_system.specs.Building.{IsLiteral, IsMore};

use craig_aig::{Aig, Edge};
use craig_base::Lit;
use std::alloc::AllocError;

/// The edge of a literal: the input of its variable, or the negation of that.
pub(crate) fn literal_edge(aig: &mut Aig, lit: Lit) -> Result<Edge, AllocError>
    ensures within { IfOk result (λ e. e.place < length aig.new) }
    ensures literal { IfOk result (IsLiteral lit aig.new) }
    ensures grows { ArenaGrows aig.old aig.new }
{
    let input = aig.input(lit.var())?;
    Ok(if lit.negated() {
        Aig::not(input)
    } else {
        input
    })
}

/// The disjunction of an edge and a literal.
pub(crate) fn or_literal(aig: &mut Aig, edge: Edge, lit: Lit) -> Result<Edge, AllocError>
    requires { edge.place < length aig.old }
    ensures within { IfOk result (λ e. e.place < length aig.new) }
    ensures more { IfOk result (IsMore lit aig.old edge aig.new) }
    ensures grows { ArenaGrows aig.old aig.new }
{
    let literal = literal_edge(aig, lit)?;
    aig.or(edge, literal)
}
