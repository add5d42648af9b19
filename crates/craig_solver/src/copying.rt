//! Copies of clauses.
ghost use Rattle.std.specs.Prelude.{◌≡◌, IfOk};

use craig_base::{Lit, Lits};
use std::alloc::{AllocError, Global};

/// The literals in their order, with repeats.
pub(crate) fn copy_of(alloc: Global, lits: &[Lit]) -> Result<Lits, AllocError>
    ensures { IfOk result (λ copy. copy ≡ lits.now) }
{
    let mut copy = Lits::new(alloc);
    for lit in lits {
        copy.push(*lit)?;
    }
    Ok(copy)
}
