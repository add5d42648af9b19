//! Places in a list of assumptions.
ghost use Rattle.std.specs.Prelude.{◌≡◌, ◌≢◌, [], true, false, ◌<◌, ◌+◌, All, Contains, IfOk, OnOk, length};
ghost use Rattle.craig_base.specs.declared.script_part.Part.{Part};
ghost use Rattle.craig_spec.specs.Literal.{Literal};
ghost use Rattle.craig_search.specs.Assuming.{AreNegated};

use craig_base::{Lit, Part};
use std::alloc::{AllocError, Global};
use std::marker::Model;

/// A rising list of places in a list of assumptions, counted from 0.
#[derive(Debug, Drop)]
pub struct Places {
    places: Vec<usize>,
}

impl Model for Places {
    ghost use Rattle.std.specs.Prelude.{ℕ, List};

    ghost Value = { List ℕ };

    ghost view = { λ p. p.places.items };
}

impl Places {
    /// No place, which takes no memory.
    pub(crate) fn none(alloc: Global) -> Places
        ensures { result ≡ [] }
    {
        Places {
            places: Vec::new(alloc),
        }
    }

    /// The places of the assumptions whose negations are in the clause, of each literal the first one.
    pub(crate) fn negated(
        alloc: Global,
        assumptions: &[(Part, Lit)],
        clause: &[Lit],
    ) -> Result<Places, AllocError>
        ensures { IfOk result (AreNegated assumptions.now clause.now (length assumptions.now)) }
    {
        let mut places = Vec::new(alloc);
        let mut place = 0;
        while place < assumptions.len() {
            push_negated(&mut places, assumptions, clause, place)?;
            place += 1;
        }
        Ok(Places { places })
    }

    /// The places, first to last.
    pub fn as_slice(&self) -> &[usize]
        ensures { result.now ≡ self.now }
    {
        self.places.as_slice()
    }
}

/// Appends the place of an assumption whose negation is in the clause, where it is the first one of its literal.
fn push_negated(
    places: &mut Vec<usize>,
    assumptions: &[(Part, Lit)],
    clause: &[Lit],
    place: usize,
) -> Result<(), AllocError>
    requires within { place < length assumptions.now }
    requires before { AreNegated assumptions.now clause.now place places.old.items }
    ensures { OnOk result (AreNegated assumptions.now clause.now (place + 1) places.new.items) }
{
    let lit = assumptions[place].1;
    if !is_in(clause, lit.not()) {
        return Ok(());
    }
    if !is_new(&assumptions[..place], lit) {
        return Ok(());
    }
    places.push(place)?;
    Ok(())
}

/// Whether the clause has the literal.
fn is_in(clause: &[Lit], lit: Lit) -> bool
    ensures yes { result ≡ true → Contains clause.now lit }
    ensures no { result ≡ false → ¬ Contains clause.now lit }
{
    clause.contains(&lit)
}

/// Whether the literal is not among the assumptions.
fn is_new(assumptions: &[(Part, Lit)], lit: Lit) -> bool
    ensures yes { result ≡ true → All (λ a. a.1 ≢ lit) assumptions.now }
    ensures no { result ≡ false → (a : Part × Literal) × Contains assumptions.now a × (a.1 ≡ lit) }
{
    for (_, other) in assumptions {
        if *other == lit {
            return false;
        }
    }
    true
}
