//! The resolvent in the course of conflict analysis.
ghost use Rattle.std.specs.BinaryHeap.{IsHeap, heap_items};
ghost use Rattle.std.specs.Ordering.{nat_cmp};
ghost use Rattle.std.proofs.Props.{props};

use crate::marks::Marks;
use crate::redundancy::Redundancy;
use craig_base::Lit;
use std::alloc::Global;
use std::collections::BinaryHeap;

/// A clause of false literals: the negations of the literals at the pending places of the trail, and the literals
/// that stay. Each variable that came in once is marked, so a literal comes in once.
#[derive(Drop)]
pub struct Resolvent {
    /// The variables that were met.
    pub variables: Marks,
    /// The places on the trail of the literals that are to be resolved on.
    pub pending: BinaryHeap<usize>,
    /// The literals that stay: those of the levels between, or those of decisions.
    pub lower: Vec<Lit>,
    /// Which literals follow from the others.
    pub redundancy: Redundancy,
    ghost ordered: { IsHeap nat_cmp (heap_items pending) } by { Prim.hlevel props },
}

impl Resolvent {
    /// The clause without literals, which takes no memory.
    pub(crate) fn new(alloc: Global) -> Resolvent {
        Resolvent {
            variables: Marks::new(alloc),
            pending: BinaryHeap::new(alloc),
            lower: Vec::new(alloc),
            redundancy: Redundancy::new(alloc),
        }
    }
}
