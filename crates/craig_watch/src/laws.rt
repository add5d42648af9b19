//! Laws of held clauses and their trail, for proofs about any caller of `Held`. The functions do nothing.
ghost use Rattle.std.specs.Prelude.{◌≡◌, ◌≢◌, ◌<◌, ◌≤◌, ◌++◌, ℕ, Some, All, IsTrue, length, take};
ghost use Rattle.craig_spec.specs.Literal.{Literal, negation};
ghost use Rattle.craig_spec.specs.Truth.{literal_value};
ghost use Rattle.craig_watch.specs.declared.trail_entry.TrailEntry.{TrailEntry};
ghost use Rattle.craig_watch.specs.declared.value.Value.TheVariants.{True, Free};
ghost use Rattle.craig_watch.specs.Trail.{AreDistinct, AreLevels, IsFalse, Trail, assignment_of, entry_of, level_at, part_up_to, value_under};
ghost use Rattle.craig_watch.specs.Held.{HeldView, IsConsistent};
ghost use Rattle.craig_watch.specs.LawsOfTrails.{AssertingClausesAreNew, AssertingClausesMayBeHeld, CompleteTrailsAreModels, DecisionsAreAboveTheRoot, EarlyFalseLiteralsStandBefore, EntriesOfVariablesHavePlaces, FalseClausesHaveTwoOfPresentLevel, FalseLiteralsHaveEntries, HigherLevelsAreFree, LevelsRise, PartsKeepEntries, PartsKeepValues, PlacesHaveEntriesOfVariables, ReasonsStandBefore, RootEntriesHaveReasons, TrueLiteralsHaveEntries};

/// Levels rise along a trail and none is above the present one; a decision has a level above 0, so what has level 0
/// has a reason; and there are no more levels and literals than known variables.
pub fn levels_rise()
    ensures rise { (t : Trail) → AreLevels t → LevelsRise t }
    ensures present { (h : HeldView) → IsConsistent h → All (λ e. e.level ≤ h.level) h.trail }
    ensures decision { (t : Trail) → AreLevels t → DecisionsAreAboveTheRoot t }
    ensures root { (t : Trail) → AreLevels t → RootEntriesHaveReasons t }
    ensures few_levels { (h : HeldView) → IsConsistent h → h.level ≤ h.vars }
    ensures few_literals { (h : HeldView) → IsConsistent h → length h.trail ≤ h.vars }
{}

/// The entry of a variable stands at a place of the trail, and the entry at a place is that of its variable. A literal
/// is true where it stands there itself, and false where its negation does.
pub fn entries_have_places()
    ensures place { (t : Trail) → EntriesOfVariablesHavePlaces t }
    ensures entry { PlacesHaveEntriesOfVariables }
    ensures true_literal { (t : Trail) → TrueLiteralsHaveEntries t }
    ensures false_literal { (t : Trail) → FalseLiteralsHaveEntries t }
    ensures literal_true { (t : Trail) (l : Literal) (e : TrailEntry) → entry_of t l.var ≡ Some e → e.literal ≡ l → value_under t l ≡ True }
    ensures literal_false { (t : Trail) (l : Literal) (e : TrailEntry) → entry_of t l.var ≡ Some e → e.literal ≡ negation l → IsFalse t l }
    ensures level { (t : Trail) (l : Literal) (e : TrailEntry) → entry_of t l.var ≡ Some e → level_at t l ≡ e.level }
{}

/// What is assigned stays so when a trail gets longer, and what was false under the first places is false.
pub fn longer_trails_keep_values()
    ensures entry { (t u : Trail) (v : ℕ) (e : TrailEntry) → entry_of t v ≡ Some e → entry_of (t ++ u) v ≡ Some e }
    ensures value { (t u : Trail) (l : Literal) → value_under t l ≢ Free → value_under (t ++ u) l ≡ value_under t l }
    ensures falsified { (k : ℕ) (t : Trail) (l : Literal) → IsFalse (take k t) l → IsFalse t l }
    ensures before { (t : Trail) → EarlyFalseLiteralsStandBefore t }
{}

/// The part of a trail up to a level keeps what was assigned up to it, and what has a higher level is free there.
pub fn parts_keep_values()
    ensures entry { PartsKeepEntries }
    ensures value { PartsKeepValues }
    ensures above { HigherLevelsAreFree }
    ensures free { (level : ℕ) (t : Trail) (l : Literal) → value_under t l ≡ Free → value_under (part_up_to level t) l ≡ Free }
    ensures first_places { (level : ℕ) (t : Trail) → (n : ℕ) × (n ≤ length t) × (part_up_to level t ≡ take n t) }
    ensures twice { (l m : ℕ) (t : Trail) → l ≤ m → part_up_to l (part_up_to m t) ≡ part_up_to l t }
    ensures present { (h : HeldView) (l : ℕ) → IsConsistent h → h.level ≤ l → part_up_to l h.trail ≡ h.trail }
{}

/// The reason of the literal at a place is held and has it, and its other literals are false, their negations standing
/// at places before.
pub fn reasons_stand_before()
    ensures { (h : HeldView) → IsConsistent h → ReasonsStandBefore h }
{}

/// A held clause that is false above level 0 has two literals of the present level. A false clause whose literals but
/// the first have lower levels contains no held clause.
pub fn conflicts_above_the_root()
    ensures two { FalseClausesHaveTwoOfPresentLevel }
    ensures new { AssertingClausesAreNew }
{}

/// A false clause may be held after going back to the greatest level of its literals but the first, or to level 0, where
/// the first has a higher one.
pub fn asserting_clauses_may_be_held()
    ensures { (h : HeldView) → AssertingClausesMayBeHeld h }
{}

/// What is true under a trail is true under the assignment of its positive literals, which is a model of the held
/// clauses once propagation is complete and none of their variables is free.
pub fn complete_trails_are_models()
    ensures literal { (t : Trail) (l : Literal) → AreDistinct t → value_under t l ≡ True → IsTrue (literal_value (assignment_of t) l) }
    ensures model { CompleteTrailsAreModels }
{
    craig_base::laws::models_of_an_arena();
}
