//! A packed chain, read one resolution after another.
ghost use Rattle.std.specs.Prelude.{◌≡◌, ◌∷◌, [], ℕ, List, IfNone, IfSome};
ghost use Rattle.craig_spec.specs.Chain.{ChainStep};
ghost use Rattle.craig_spec.specs.PackedChain.{packed_chain};
ghost use Rattle.craig_proof.specs.PackedSteps.{IsPackedChain, IsPackable};
ghost use Rattle.craig_proof.specs.Tracer.{chain_step};

use crate::Step;
use crate::packed_number::{first_number, numbered_literal};
use craig_base::ClauseId;
use std::marker::Model;

/// What is left to be read of the resolutions of a packed chain.
///
/// Contracts see the list of these resolutions.
#[derive(Debug, Drop)]
pub struct PackedSteps<'a> {
    // that of the clause
    id: ClauseId,
    // those of the resolutions that are left
    bytes: &'a [u8],
}

impl<'a> Model for PackedSteps<'a> {
    ghost use Rattle.std.specs.Prelude.{List};
    ghost use Rattle.craig_spec.specs.Chain.{ChainStep};
    ghost use Rattle.craig_spec.specs.PackedChain.{numbers_of, steps_of_numbers};
    ghost use Rattle.craig_proof.specs.PackedSteps.{AreUnread};

    ghost Value = { List ChainStep };

    ghost view = { λ c. steps_of_numbers c.id.0 (numbers_of c.bytes.now) };

    ghost invariant = { λ c. AreUnread c.id.0 c.bytes.now (steps_of_numbers c.id.0 (numbers_of c.bytes.now)) };
}

impl<'a> PackedSteps<'a> {
    /// The first antecedent of a packed chain of the clause with the id, and the resolutions after it.
    pub(crate) fn open(id: ClauseId, bytes: &'a [u8]) -> (ClauseId, PackedSteps<'a>)
        requires { IsPackedChain id.0 bytes.now }
        ensures { (first : ℕ) (rest : List ChainStep) → IsPackable id.0 first rest → bytes.now ≡ packed_chain id.0 first rest → (result.0.0 ≡ first) × (result.1 ≡ rest) }
    {
        let (difference, bytes) = first_number(bytes);
        (ClauseId(id.0 - difference), PackedSteps { id, bytes })
    }

    /// Reads the next resolution, unless all were read.
    pub fn next(&mut self) -> Option<Step>
        ensures step { IfSome result (λ s. self.old ≡ chain_step s ∷ self.new) }
        ensures none { IfNone result (self.old ≡ []) }
    {
        if self.bytes.is_empty() {
            return None;
        }
        let (pivot, behind) = first_number(self.bytes);
        let (difference, rest) = first_number(behind);
        self.bytes = rest;
        Some(Step {
            pivot: numbered_literal(pivot),
            antecedent: ClauseId(self.id.0 - difference),
        })
    }
}
