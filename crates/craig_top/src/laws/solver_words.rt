//! What words of the solver, on dense variables and places, are in the words of a script.

ghost use Rattle.std.specs.Prelude.{◌↔◌, ◌++◌, List, ℕ, map};
ghost use Rattle.craig_spec.specs.Chain.{ToldStep};
ghost use Rattle.craig_spec.specs.DrawnFromOneRefutation.{IsOriginalOf};
ghost use Rattle.craig_spec.specs.FailedAssumptions.{NamesFailed};
ghost use Rattle.craig_spec.specs.Literal.{Clause};
ghost use Rattle.craig_base.specs.declared.script_part.Part.{Part};
ghost use Rattle.craig_search.specs.Verdict.{AreFirstPlaces, Assumptions, at_places};
ghost use Rattle.craig_solver.specs.Told.{IsAcceptedStep};
ghost use Rattle.craig_top.specs.Sides.{parted, parted_literals};

/// The assumptions at places which a search names are failed ones as a reply names them. A step of an accepted clause
/// is an original of the clauses, and each such original is one.
pub fn words_of_the_solver()
    ensures failed { (assumptions : Assumptions) (places : List ℕ) → AreFirstPlaces assumptions places → NamesFailed (parted_literals assumptions) (parted_literals (at_places assumptions places)) }
    ensures originals { (accepted : List (Part × Clause)) (s : ToldStep) → IsAcceptedStep accepted s ↔ IsOriginalOf (parted accepted) s }
{}
