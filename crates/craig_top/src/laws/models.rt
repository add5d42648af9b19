//! What a satisfiable reply lists.

ghost use Rattle.craig_spec.specs.Truth.{Assignment, IsModel};
ghost use Rattle.craig_top.specs.ListedLiterals.{EachHasOne, EachModelReply, ListsEachVariable, MakesTrue, VariablesRise};

/// The literals of a satisfiable reply are one for each variable of the clauses, by rising variable. Each clause has
/// one of them, so that an assignment which makes them true makes the clauses true, and there is such an assignment.
pub fn literals_of_a_model()
    ensures each { EachModelReply (λ clauses literals. ListsEachVariable clauses literals) }
    ensures rising { EachModelReply (λ clauses literals. VariablesRise literals) }
    ensures in_each_clause { EachModelReply (λ clauses literals. EachHasOne clauses literals) }
    ensures model { EachModelReply (λ clauses literals. (s : Assignment) → MakesTrue s literals → IsModel s clauses) }
    ensures together { EachModelReply (λ clauses literals. (s : Assignment) × MakesTrue s literals) }
{}
