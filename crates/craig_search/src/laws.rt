//! Laws of what a search tells a tracer, for proofs about any caller of one. The functions do nothing.
ghost use Rattle.craig_search.specs.LawsOfTelling.{HeldClausesRestOnClauses, OthersStayCovered, RefutationsMayBeForgotten, RootsRestOnAssumptions};

/// A tracer that covers clauses besides those that a search was lent goes on covering them.
pub fn other_clauses_stay_covered()
    ensures { OthersStayCovered }
{}

/// Of the originals, a refutation rests on those from before its search and on the units of the failed assumptions. No
/// clause that is held after it rests on such a unit, and the root and the units may be forgotten.
pub fn refutations_rest_on_assumptions()
    ensures root { RootsRestOnAssumptions }
    ensures held { HeldClausesRestOnClauses }
    ensures forgotten { RefutationsMayBeForgotten }
{}
