//! Laws of arenas, for proofs about any caller of one. The functions do nothing.
ghost use Rattle.std.specs.Prelude.{◌≡◌, ◌<◌, ◌++◌, [], ◌∷◌, ℕ, Bool, false, List, Some, Contains, slice_index_or};
ghost use Rattle.craig_spec.specs.Literal.{Clause};
ghost use Rattle.craig_spec.specs.Chain.{GivesSame};
ghost use Rattle.craig_spec.specs.Truth.{variable_value};
ghost use Rattle.craig_base.specs.Values.{assignment_of_values};
ghost use Rattle.craig_base.specs.Arena.{ArenaView, FlaggedClause, IsArena, IsLive, OnlyReorders, clauses_of, literals_at, literals_of, with_clause};
ghost use Rattle.craig_base.specs.LawsOfArenas.{FoundClausesAreListed, OneClauseChanges, ModelsMakeFoundClausesTrue, ModelsFromFoundClauses};
ghost use Rattle.craig_base.specs.LawsOfClauses.{ClausesAreFew, LemmasAreFew, RepeatedClausesAreFew};

/// An id under which a clause is live was given, so nothing is live under the next one.
pub fn live_ids_were_given()
    ensures { (a : ArenaView) (id : ℕ) → IsArena a → IsLive a id → id < a.given }
{}

/// A clause is found under an id exactly where the list has it with this id, and the list of the literals has exactly
/// those of the clauses that are found.
pub fn clauses_are_found()
    ensures found { FoundClausesAreListed }
    ensures literals { (a : ArenaView) (id : ℕ) → IsLive a id → literals_of a id ≡ Some (literals_at a id) }
    ensures listed { (a : ArenaView) (id : ℕ) (c : Clause) → literals_of a id ≡ Some c → Contains (clauses_of a) c }
    ensures looked_up { (a : ArenaView) (c : Clause) → IsArena a → Contains (clauses_of a) c → (id : ℕ) × (literals_of a id ≡ Some c) }
    ensures added { (a : ArenaView) (c : FlaggedClause) → clauses_of (with_clause a c) ≡ clauses_of a ++ c.literals ∷ [] }
{}

/// After a call that changes what is live under one id, the literals under an id are the new ones under this id, or
/// those from before under another.
pub fn one_clause_changes()
    ensures { OneClauseChanges }
{}

/// The models of the live clauses are the assignments that make each clause true that is found under an id.
pub fn models_of_an_arena()
    ensures looked_up { ModelsMakeFoundClausesTrue }
    ensures model { ModelsFromFoundClauses }
{}

/// Where clauses only change the order of their literals, each id has the same literals as before, and a clause that
/// is found later was there before. This holds of no change, and of two such changes one after the other.
pub fn reordered_clauses()
    ensures same { (a : ArenaView) → OnlyReorders a a }
    ensures twice { (a b c : ArenaView) → OnlyReorders a b → OnlyReorders b c → OnlyReorders a c }
    ensures literals { (a b : ArenaView) → OnlyReorders a b → (id : ℕ) → GivesSame (literals_of a) (literals_of b) id }
    ensures before { (a b : ArenaView) → OnlyReorders a b → (id : ℕ) → GivesSame (literals_of b) (literals_of a) id }
{}

/// No longer list: over `v` variables there are at most `3^v` clauses that are no tautologies and of which no two have
/// the same literals. So many stand in a list in which no two do, and at most twice as many in one in which no three do.
/// A list that meets the lemma rule is such a list over the variables of its clauses, however these are numbered.
pub fn no_longer_list()
    ensures once { ClausesAreFew }
    ensures twice { RepeatedClausesAreFew }
    ensures lemmas { LemmasAreFew }
{}

/// A variable is true under the assignment of a list of values where its value is, and false where it has none.
pub fn values_are_an_assignment()
    ensures { (values : List Bool) (x : ℕ) → variable_value (assignment_of_values values) x ≡ slice_index_or values x false }
{}
