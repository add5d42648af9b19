//! What an interpolation system is: its labels, and the edges that the rules of a labelled system give, after D'Silva,
//! Kroening, Purandare and Weissenbacher, VMCAI 2010.
ghost use Rattle.std.specs.Prelude.{◌≡◌, ◌<◌, ◌≤◌, ℕ, length, IfOk};
ghost use Rattle.craig_spec.specs.PartialInterpolant.{Label};
ghost use Rattle.craig_label.specs.Marks.{label_of};
ghost use Rattle.craig_aig.specs.Growth.{ArenaGrows};
ghost use Rattle.craig_system.specs.Rules.{labelling, IsLeafA, IsLeafB, IsChoice, IsJoin};

use crate::choice::conjunction_of_either;
use crate::leaf::any_labelled;
use craig_aig::{Aig, Edge};
use craig_base::{Lit, Var};
use craig_label::{Mark, Side, Sides};
use std::alloc::AllocError;

/// A labelled system: how the variables are marked that occur on both sides of a cut, and the edges of the rules.
///
/// All edges are of the one arena that is given. Older edges keep their functions, after an error too, which only want
/// of memory is a cause of; gates may then be left that nothing names.
pub trait System {
    // the labels of the variables that occur on both sides
    ghost marks: { Self → ℕ → Label };

    /// The mark of a dense variable.
    fn mark(&self, var: Var) -> Mark
        ensures { label_of result ≡ marks self.now var.0 };

    /// The label of a dense variable at a cut: A where it occurs on side A alone, the mark where it occurs on both sides,
    /// and B elsewhere.
    final fn label(&self, sides: &Sides, cut: u16, var: Var) -> Mark
        requires { cut ≤ sides.now.parts }
        ensures { label_of result ≡ (labelling sides.now cut (marks self.now)).label var.0 }
    {
        match sides.class(var, cut) {
            Side::ALocal => Mark::A,
            Side::Shared => self.mark(var),
            Side::BLocal | Side::Absent => Mark::B,
        }
    }

    /// The edge of a clause of side A: the disjunction of its literals that are labelled B.
    final fn leaf_a(
        &self,
        aig: &mut Aig,
        sides: &Sides,
        cut: u16,
        lits: &[Lit],
    ) -> Result<Edge, AllocError>
        requires { cut ≤ sides.now.parts }
        ensures within { IfOk result (λ e. e.place < length aig.new) }
        ensures leaf { IfOk result (IsLeafA (labelling sides.now cut (marks self.now)).label lits.now aig.new) }
        ensures grows { ArenaGrows aig.old aig.new }
    {
        any_labelled(self, aig, sides, cut, Mark::B, lits)
    }

    /// The edge of a clause of side B: the conjunction of the negations of its literals that are labelled A.
    final fn leaf_b(
        &self,
        aig: &mut Aig,
        sides: &Sides,
        cut: u16,
        lits: &[Lit],
    ) -> Result<Edge, AllocError>
        requires { cut ≤ sides.now.parts }
        ensures within { IfOk result (λ e. e.place < length aig.new) }
        ensures leaf { IfOk result (IsLeafB (labelling sides.now cut (marks self.now)).label lits.now aig.new) }
        ensures grows { ArenaGrows aig.old aig.new }
    {
        let some = any_labelled(self, aig, sides, cut, Mark::A, lits)?;
        Ok(Aig::not(some))
    }

    /// The edge of a resolvent on a pivot that is labelled AB: that of `right` where the pivot is true, and that of `left`
    /// elsewhere. Where a system says nothing else, it is the conjunction of two disjunctions: of the pivot and `left`,
    /// and of the pivot's negation and `right`.
    fn choice(&self, aig: &mut Aig, pivot: Lit, left: Edge, right: Edge) -> Result<Edge, AllocError>
        requires left { left.place < length aig.old }
        requires right { right.place < length aig.old }
        ensures within { IfOk result (λ e. e.place < length aig.new) }
        ensures choice { IfOk result (IsChoice pivot aig.old left right aig.new) }
        ensures grows { ArenaGrows aig.old aig.new }
    {
        conjunction_of_either(aig, pivot, left, right)
    }

    /// The edge of a resolvent, from `left`, that of the parent that holds the pivot, and `right`, that of the parent
    /// that holds its negation: their disjunction where the pivot is labelled A, their conjunction where it is labelled
    /// B, and where it is labelled AB `right` where the pivot is true and `left` elsewhere.
    final fn join(
        &self,
        aig: &mut Aig,
        sides: &Sides,
        cut: u16,
        pivot: Lit,
        left: Edge,
        right: Edge,
    ) -> Result<Edge, AllocError>
        requires cut { cut ≤ sides.now.parts }
        requires left { left.place < length aig.old }
        requires right { right.place < length aig.old }
        ensures within { IfOk result (λ e. e.place < length aig.new) }
        ensures join { IfOk result (IsJoin (labelling sides.now cut (marks self.now)).label pivot aig.old left right aig.new) }
        ensures grows { ArenaGrows aig.old aig.new }
    {
        match self.label(sides, cut, pivot.var()) {
            Mark::A => aig.or(left, right),
            Mark::Ab => self.choice(aig, pivot, left, right),
            Mark::B => aig.and(left, right),
        }
    }
}
