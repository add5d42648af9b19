//! What interpolants at cuts say of the parts, and which assumptions are named as failed.

ghost use Rattle.std.specs.Prelude.{List, map};
ghost use Rattle.craig_spec.specs.Cut.{PartLiteral};
ghost use Rattle.craig_spec.specs.FailedAssumptions.{NamesFailed};
ghost use Rattle.craig_spec.specs.Truth.{IsUnsatisfiable};
ghost use Rattle.craig_top.specs.TrueParts.{AreFirstOnes, AreImplied, AreOfCuts, AreRefuted, AreRisingUpTo, ClausesAreTrue, ClausesHave, EachSequence, FirstPlacesRise, ImplyLaterOnes, ReachSharedVariables};

/// Where there is a sequence of interpolants of some clauses, no assignment makes all of them true: it would make the
/// first interpolant both true and false.
pub fn nothing_left()
    ensures { EachSequence (λ clauses parts cuts c literals. IsUnsatisfiable (map (λ p. p.clause) clauses)) }
{}

/// A sequence of interpolants has a literal for each chosen cut, constants at the outer ones. Each is true where the
/// parts up to its cut are, and false where the later ones are; part 0 is among both. It reaches variables alone that
/// occur in parts of both kinds, and with the parts up to a later cut it implies the literal there.
pub fn interpolants_at_cuts()
    ensures chosen { EachSequence (λ clauses parts cuts c literals. AreRisingUpTo parts cuts) }
    ensures cuts { EachSequence (λ clauses parts cuts c literals. AreOfCuts parts cuts literals) }
    ensures implied { EachSequence (λ clauses parts cuts c literals. AreImplied (ClausesAreTrue clauses) cuts c literals) }
    ensures refuted { EachSequence (λ clauses parts cuts c literals. AreRefuted (ClausesAreTrue clauses) cuts c literals) }
    ensures shared { EachSequence (λ clauses parts cuts c literals. ReachSharedVariables (ClausesHave clauses) cuts c literals) }
    ensures onward { EachSequence (λ clauses parts cuts c literals. ImplyLaterOnes (ClausesAreTrue clauses) cuts c literals) }
{}

/// Failed assumptions are some of the assumptions, in order, each at the first place of its literal.
pub fn failed_assumptions()
    ensures first { (assumptions failed : List PartLiteral) → NamesFailed assumptions failed → AreFirstOnes assumptions failed }
    ensures rising { (assumptions failed : List PartLiteral) → NamesFailed assumptions failed → FirstPlacesRise assumptions failed }
{}
