//! Laws of chains and of the steps that a tracer was told, for proofs about any tracer. The functions do nothing.

ghost use Rattle.std.specs.Prelude.{◌≡◌, [], false, ℕ, List, Option, Some, Contains};
ghost use Rattle.std.specs.Option.{ForSome};
ghost use Rattle.craig_spec.specs.Literal.{Clause};
ghost use Rattle.craig_spec.specs.Chain.{ToldStep, Told, IsAbove, IsTold, IsUnforgotten, StandsOn, ChainOk, clause_told, nothing_told, with_step, without_id};
ghost use Rattle.craig_spec.specs.Needed.{AllFollow, IsNeededPart, Reclaims};
ghost use Rattle.craig_proof.specs.Covers.{IsCovering};
ghost use Rattle.craig_proof.specs.LawsOfChains.{PackedChainsAreReadInOneWay, ChainsOverSameClauses, ChainsAreSound, ChainsKeepFromTautologies, AntecedentsAreGiven, LiteralsAreOfAntecedents, VariablesAreOfAntecedents, ResolventsExtendChains, ChainsInAnyOrder};
ghost use Rattle.craig_proof.specs.LawsOfCovering.{CoveredIdsAreUnforgotten, CoveredAntecedentsAreUnforgotten, CoveredChainsAreTold, NothingToldCoversNoClauses, FewerClausesAreCovered, OriginalsKeepCovering, DerivedClausesKeepCovering, ForgettingKeepsCovering, ReclaimingKeepsCovering};
ghost use Rattle.craig_proof.specs.LawsOfSteps.{FoundClausesAreOfSteps, UnforgottenIdsAreOfSteps, PartsHaveNeededSteps, PartsHaveAllNeededSteps, PartsKeepClauses, PartsEndInTheRoot, PartsKeepTheRoot};

/// Each clause of steps that stand on one another is true wherever the originals are that it needs, and each id has
/// the part of the steps that it needs.
pub fn told_clauses_follow()
    ensures follows { (t : Told) → IsTold t → AllFollow t.steps }
    ensures needed { (t : Told) → IsTold t → (root : ℕ) → (part : List ToldStep) × IsNeededPart t.steps root part }
{}

/// Steps that stand on one another go on doing so: when one more is told, when one is forgotten, and when some are
/// given up.
pub fn told_steps_stand()
    ensures nothing { IsTold nothing_told }
    ensures told { (t : Told) (s : ToldStep) → IsTold t → IsAbove t s.id → StandsOn t.steps s.literals s.origin → IsTold (with_step t s) }
    ensures forgotten { (id : ℕ) (t : Told) → IsTold t → IsTold (without_id id t) }
    ensures reclaimed { (before after : Told) → IsTold before → Reclaims before after → IsTold after }
{}

/// Each step is found under its id, of which there is no other step, and what is found is the clause of a step. An id
/// isn't forgotten exactly where a step of it isn't.
pub fn steps_are_found()
    ensures found { (t : Told) (s : ToldStep) → IsTold t → Contains t.steps s → clause_told t.steps s.id ≡ Some s.literals }
    ensures one { (t : Told) (r s : ToldStep) → IsTold t → Contains t.steps r → Contains t.steps s → r.id ≡ s.id → r ≡ s }
    ensures step { FoundClausesAreOfSteps }
    ensures unforgotten { UnforgottenIdsAreOfSteps }
    ensures kept { (steps : List ToldStep) (s : ToldStep) → Contains steps s → s.forgotten ≡ false → IsUnforgotten steps s.id }
{}

/// The steps that a root needs stand on one another by themselves. Each is a step of the whole, whether or not it is
/// forgotten there, and the root needs it; each step that the root needs is one of them. Under an id that the root
/// needs they have the same clause as the whole, and the root is the last of them.
pub fn needed_part_stands()
    ensures told { (t u : Told) (root : ℕ) → IsTold t → IsNeededPart t.steps root u.steps → u.greatest ≡ Some root → IsTold u }
    ensures steps { PartsHaveNeededSteps }
    ensures has { PartsHaveAllNeededSteps }
    ensures clause { PartsKeepClauses }
    ensures root { PartsEndInTheRoot }
    ensures unforgotten { PartsKeepTheRoot }
{}

/// A chain is one over any other clauses with the same literals under the ids that it names.
pub fn chain_over_same_clauses()
    ensures { ChainsOverSameClauses }
{}

/// Resolution is sound: a chain's clause is true wherever the clauses of its antecedents are, and it is no tautology
/// where none of them is.
pub fn chain_follows()
    ensures follows { ChainsAreSound }
    ensures not_tautology { ChainsKeepFromTautologies }
{}

/// The look-up gives each antecedent of a chain, and each literal and so each variable of the chain's clause is one of
/// an antecedent's.
pub fn chain_variables()
    ensures given { AntecedentsAreGiven }
    ensures literals { LiteralsAreOfAntecedents }
    ensures variables { VariablesAreOfAntecedents }
{}

/// A chain begins with a clause that the look-up gives and no step, a resolvent with one more clause makes it longer,
/// and its clause may stand in any order.
pub fn chain_grows()
    ensures start { (f : ℕ → Option Clause) (literals : Clause) (first : ℕ) → f first ≡ Some literals → ChainOk f literals first [] }
    ensures step { ResolventsExtendChains }
    ensures order { ChainsInAnyOrder }
{}

/// A tracer that covers the clauses of a solver may be told of the next one, and of one that is done with: a chain over
/// these clauses is one over the told steps, and none of its antecedents is forgotten.
pub fn covered_chain_is_told()
    ensures above { (told : Option Told) (f : ℕ → Option Clause) (given : ℕ) → IsCovering told f given → ForSome told (λ t. IsAbove t given) }
    ensures unforgotten { CoveredIdsAreUnforgotten }
    ensures antecedents { CoveredAntecedentsAreUnforgotten }
    ensures chain { CoveredChainsAreTold }
{}

/// A tracer that was told nothing covers no clauses. It goes on covering those of a solver when some are let go, change
/// the order of their literals or ids are numbered (`fewer`), when an original or a derived clause is told under the
/// next id, whether or not the solver then has it, when an id is forgotten that the solver doesn't have, and when steps
/// are given up.
pub fn covering_is_kept()
    ensures nothing { NothingToldCoversNoClauses }
    ensures fewer { FewerClausesAreCovered }
    ensures original { OriginalsKeepCovering }
    ensures derived { DerivedClausesKeepCovering }
    ensures forgotten { ForgettingKeepsCovering }
    ensures reclaimed { ReclaimingKeepsCovering }
{}

/// Two chains of clauses under one id that are packed into the same bytes are one chain.
pub fn packed_chains_are_read_in_one_way()
    ensures { PackedChainsAreReadInOneWay }
{}
