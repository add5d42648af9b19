//! What the steps of a refutation are, and which steps of a session the interpolants of a reply are drawn from.

ghost use Rattle.std.specs.Prelude.{◌≡◌, ◌⊎◌, List, Some, map};
ghost use Rattle.craig_spec.specs.Chain.{IsResolvent};
ghost use Rattle.craig_spec.specs.DrawnFromOneRefutation.{IsRefutationOf};
ghost use Rattle.craig_spec.specs.Literal.{Clause, Literal, negation};
ghost use Rattle.craig_spec.specs.Truth.{IsUnsatisfiable};
ghost use Rattle.craig_top.specs.DrawnSteps.{AllAreByTheRules, AreAlong, AreInOrder, AreNeededOnes, ClashOnlyOn, DerivedAreResolved, DerivedFollow, EachChain, EachDrawn, EachLastRoot, EachRefutation, EachRefutationBy, EachSolveByLastRoot, EndInTheEmptyClause, FollowsFrom, HasAllBut, HasNoOther, IdsRise, IsEmptyOne, IsRefutingBy, OriginalsAreClauses, OriginalsAreNormal};
ghost use Rattle.craig_top.specs.LemmaReply.{IsUnknownReply};
ghost use Rattle.craig_top.specs.Reply.{GivesModel};

/// Two clauses clash on the pivot of their resolvent alone. It has all their other literals and no more, and is true
/// where both are.
pub fn resolvents()
    ensures clash { (pivot : Literal) (c d resolvent : Clause) → IsResolvent pivot c d resolvent → ClashOnlyOn pivot c d }
    ensures first { (pivot : Literal) (c d resolvent : Clause) → IsResolvent pivot c d resolvent → HasAllBut pivot c resolvent }
    ensures second { (pivot : Literal) (c d resolvent : Clause) → IsResolvent pivot c d resolvent → HasAllBut (negation pivot) d resolvent }
    ensures no_other { (pivot : Literal) (c d resolvent : Clause) → IsResolvent pivot c d resolvent → HasNoOther pivot c d resolvent }
    ensures follows { (pivot : Literal) (c d resolvent : Clause) → IsResolvent pivot c d resolvent → FollowsFrom c d resolvent }
{}

/// Along a chain stand the clause of its first id and a resolvent for each of its steps, and the last one has the
/// literals that the chain gives.
pub fn clauses_along_a_chain()
    ensures { EachChain (λ clause_of literals first rest. (along : List Clause) × AreAlong clause_of literals first rest along) }
{}

/// The steps of a refutation stand by rising id. Each original has the literals of a clause of its part, without
/// repeats and no two opposite ones. Each derived step has a chain over steps before it, and is true where those are.
/// The last step is the empty clause, and so no assignment makes the clauses true.
pub fn steps_of_a_refutation()
    ensures rising { EachRefutation (λ clauses steps root. IdsRise steps) }
    ensures originals { EachRefutation (λ clauses steps root. OriginalsAreClauses clauses steps) }
    ensures normal { EachRefutation (λ clauses steps root. OriginalsAreNormal steps) }
    ensures derived { EachRefutation (λ clauses steps root. DerivedAreResolved steps) }
    ensures follow { EachRefutation (λ clauses steps root. DerivedFollow steps) }
    ensures last { EachRefutation (λ clauses steps root. EndInTheEmptyClause steps root) }
    ensures no_model { EachRefutation (λ clauses steps root. IsUnsatisfiable (map (λ p. p.clause) clauses)) }
{
    craig_proof::laws::chain_follows();
    craig_proof::laws::told_clauses_follow();
}

/// Literals that are drawn from one refutation have, at each cut between the outer ones and for each system, the value
/// that the labelled rules give its root: whatever values meet the rules at each of its steps.
pub fn values_from_one_refutation()
    ensures one { EachDrawn (λ clauses parts cuts c steps root systems. IsRefutationOf clauses steps root) }
    ensures values { EachDrawn (λ clauses parts cuts c steps root systems. AllAreByTheRules clauses parts cuts steps root c systems) }
{
    craig_itp::laws::partial_values_by_steps();
}

/// The steps that a session's interpolants are drawn from are those of its kept steps that its last root needs, in
/// order and over the variables of the script. The last root is an empty clause among them. So is the reply to a line
/// that is a solve, unless it gives a model or lists lemmas.
pub fn steps_of_the_last_root()
    ensures last { EachLastRoot (λ names kept last steps root. last ≡ Some root) }
    ensures needed { EachLastRoot (λ names kept last steps root. AreNeededOnes names kept root steps) }
    ensures order { EachLastRoot (λ names kept last steps root. AreInOrder names kept steps) }
    ensures empty { EachRefutationBy (λ kept last. IsEmptyOne kept last) }
    ensures solve { EachSolveByLastRoot (λ view state pairs text. GivesModel state pairs text ⊎ (IsRefutingBy view state pairs text ⊎ IsUnknownReply state text)) }
{}
