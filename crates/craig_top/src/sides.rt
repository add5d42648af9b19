//! The sides of the accepted clauses, and of failed assumptions for as long as a reply is written.

ghost use Rattle.std.specs.Prelude.{◌≡◌, ◌≤◌, [], All, IfOk, OnOk};
ghost use Rattle.craig_label.specs.Sides.{IsSides, SidesView};
ghost use Rattle.craig_top.specs.Sides.{AreRanges, NotesAssumptions, NotesClause, PutsBack};

use craig_base::{Lit, Part, Var};
use craig_label::{PartRange, Sides};
use std::alloc::{AllocError, Global};

/// Notes each variable of a clause in its part. After an error some of them may be noted.
pub fn note_clause(sides: &mut Sides, part: Part, clause: &[Lit]) -> Result<(), AllocError>
    requires { part.0 ≤ sides.old.parts }
    ensures noted { OnOk result (NotesClause sides.old clause.now part.0 sides.new) }
    ensures is_sides { IsSides sides.new }
    ensures parts { sides.new.parts ≡ sides.old.parts }
{
    let _ = sides.parts();
    for literal in clause {
        sides.note(literal.var(), part)?;
    }
    Ok(())
}

/// Notes the variable of each assumption in its part. The answer is what `put_back` wants: the ranges that the variables had
/// before. After an error some of them may be noted.
pub fn note_assumptions(
    alloc: Global,
    sides: &mut Sides,
    assumptions: &[(Part, Lit)],
) -> Result<Vec<(Var, Option<PartRange>)>, AllocError>
    requires { All (λ a. a.0.0 ≤ sides.old.parts) assumptions.now }
    ensures noted { IfOk result (λ before. NotesAssumptions assumptions.now sides.old sides.new) }
    ensures back { IfOk result (λ before. PutsBack before.items sides.new sides.old) }
    ensures ranges { IfOk result (λ before. AreRanges sides.new.parts before.items) }
    ensures is_sides { IsSides sides.new }
    ensures parts { sides.new.parts ≡ sides.old.parts }
{
    let _ = sides.parts();
    let mut before = Vec::new(alloc);
    for assumption in assumptions {
        let var = assumption.1.var();
        before.push((var, sides.range(var)))?;
        sides.note(var, assumption.0)?;
    }
    Ok(before)
}

/// Gives variables the ranges back that they had, the one that was noted last first. After an error some may have theirs.
pub fn put_back(
    sides: &mut Sides,
    mut before: Vec<(Var, Option<PartRange>)>,
) -> Result<(), AllocError>
    requires { AreRanges sides.old.parts before.items }
    ensures back { OnOk result ((past : SidesView) → PutsBack before.items sides.old past → PutsBack [] sides.new past) }
    ensures is_sides { IsSides sides.new }
    ensures parts { sides.new.parts ≡ sides.old.parts }
{
    let _ = sides.parts();
    while let Some((var, range)) = before.pop() {
        sides.set_range(var, range)?;
    }
    Ok(())
}
