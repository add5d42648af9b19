//! What the levels of literals say of a clause.
//!
//! The number of different levels, called glue, is that of Audemard and Simon, "Predicting Learnt Clauses Quality in
//! Modern SAT Solvers", IJCAI 2009.
ghost use Rattle.std.specs.Prelude.{All, IfOk, map};
ghost use Rattle.craig_watch.specs.Trail.{IsAssigned, level_at};
ghost use Rattle.craig_watch.specs.Held.{IsConsistent};
ghost use Rattle.craig_analyze.specs.Learnt.{IsGreatestOf, IsNumberOfDifferent};

use crate::marks::Marks;
use craig_base::Lit;
use craig_watch::Held;
use std::alloc::AllocError;

/// The greatest level of the literals, 0 where there is none.
pub(crate) fn greatest_level(held: &Held, lits: &[Lit]) -> u32
    requires { All (λ l. IsAssigned held.now.trail l.var) lits.now }
    ensures { IsGreatestOf (map (level_at held.now.trail) lits.now) result }
{
    let mut greatest = 0;
    for lit in lits {
        greatest = held.level_of(lit.var()).max(greatest);
    }
    greatest
}

/// The number of different levels of the literals.
pub(crate) fn count_levels(marks: &mut Marks, held: &Held, lits: &[Lit]) -> Result<u32, AllocError>
    requires assigned { All (λ l. IsAssigned held.now.trail l.var) lits.now }
    requires consistent { IsConsistent held.now }
    ensures { IfOk result (IsNumberOfDifferent (map (level_at held.now.trail) lits.now)) }
{
    craig_watch::laws::levels_rise();
    marks.clear();
    for lit in lits {
        marks.insert(held.level_of(lit.var()))?;
    }
    Ok(marks.len() as u32)
}
