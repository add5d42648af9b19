//! Laws of what words set. The functions do nothing.

ghost use Rattle.std.specs.Prelude.{◌≡◌, ◌<◌, ◌≤◌, ℕ, List, [], ◌∷◌, ◌++◌, Some, None, true, false, map, codes, option_map, is_some};
ghost use Rattle.std.specs.Fmt.{decimal};
ghost use Rattle.craig_script.specs.Reading.{format_named, system_named};
ghost use Rattle.craig_words.specs.ClapCommand.{is_known};
ghost use Rattle.craig_words.specs.CommandLine.{Piece, has_name, is_allowed, limit_named, pieces_of, settings_of, steps_named, words_read};
ghost use Rattle.craig_words.specs.Runs.{Written, have_plain_names, nothing_set, words_of};

use crate::words::Words;

/// The pieces of words are those that the words are written of, each as one word or as two: it makes no difference
/// which. A name ends at the first equals sign.
pub fn runs_of_pieces()
    ensures read { (run : List Written) → have_plain_names run ≡ true → pieces_of (words_of run) ≡ Some (map (λ written. written.piece) run) }
    ensures only { (words : List (List ℕ)) (pieces : List Piece) → pieces_of words ≡ Some pieces
        → (run : List Written) × (have_plain_names run ≡ true) × (words_of run ≡ words) × (map (λ written. written.piece) run ≡ pieces) }
{}

/// An option alone sets what its value is read as, and is refused where the value reads as nothing.
pub fn one_option()
    ensures none { words_read [] ≡ Some nothing_set }
    ensures system { (value : List ℕ) → words_read (codes "--system" ∷ value ∷ []) ≡ option_map (λ system. record nothing_set { system = Some system }) (system_named value) }
    ensures format { (value : List ℕ) → words_read (codes "--format" ∷ value ∷ []) ≡ option_map (λ format. record nothing_set { format = Some format }) (format_named value) }
    ensures limit { (value : List ℕ) → words_read (codes "--limit" ∷ value ∷ []) ≡ option_map (λ limit. record nothing_set { limit = Some limit }) (limit_named value) }
    ensures steps { (value : List ℕ) → words_read (codes "--gen" ∷ value ∷ []) ≡ option_map (λ steps. record nothing_set { steps = Some steps }) (steps_named value) }
{}

/// Each piece sets what its name says, wherever it stands, and what no piece names is left as it is. One more piece is
/// accepted where it is allowed and its name is new.
pub fn pieces_set()
    ensures more { (pieces : List Piece) (words : Words) (piece : Piece) → settings_of pieces ≡ Some words → has_name piece.name pieces ≡ false → is_allowed piece ≡ true → is_some (settings_of (pieces ++ piece ∷ [])) ≡ true }
    ensures system { (before after : List Piece) (value : List ℕ) (words : Words) → settings_of (before ++ record { name = codes "system"; value = value } ∷ after) ≡ Some words → words.system ≡ system_named value }
    ensures format { (before after : List Piece) (value : List ℕ) (words : Words) → settings_of (before ++ record { name = codes "format"; value = value } ∷ after) ≡ Some words → words.format ≡ format_named value }
    ensures limit { (before after : List Piece) (value : List ℕ) (words : Words) → settings_of (before ++ record { name = codes "limit"; value = value } ∷ after) ≡ Some words → words.limit ≡ limit_named value }
    ensures steps { (before after : List Piece) (value : List ℕ) (words : Words) → settings_of (before ++ record { name = codes "gen"; value = value } ∷ after) ≡ Some words → words.steps ≡ steps_named value }
    ensures no_system { (pieces : List Piece) (words : Words) → settings_of pieces ≡ Some words → has_name (codes "system") pieces ≡ false → words.system ≡ None }
    ensures no_format { (pieces : List Piece) (words : Words) → settings_of pieces ≡ Some words → has_name (codes "format") pieces ≡ false → words.format ≡ None }
    ensures no_limit { (pieces : List Piece) (words : Words) → settings_of pieces ≡ Some words → has_name (codes "limit") pieces ≡ false → words.limit ≡ None }
    ensures no_steps { (pieces : List Piece) (words : Words) → settings_of pieces ≡ Some words → has_name (codes "gen") pieces ≡ false → words.steps ≡ None }
{}

/// One piece that isn't allowed, or whose name stood before, refuses all. A name that isn't known isn't allowed, nor a
/// value that begins with a minus sign (45).
pub fn pieces_refused()
    ensures twice { (before after : List Piece) (piece : Piece) → has_name piece.name before ≡ true → settings_of (before ++ piece ∷ after) ≡ None }
    ensures one { (before after : List Piece) (piece : Piece) → is_allowed piece ≡ false → settings_of (before ++ piece ∷ after) ≡ None }
    ensures unknown { (name value : List ℕ) → is_known name ≡ false → is_allowed (record { name = name; value = value }) ≡ false }
    ensures signed { (name rest : List ℕ) → is_allowed (record { name = name; value = 45 ∷ rest }) ≡ false }
{}

/// A limit is from 1 to 100000 or none, a number of steps from 1 to 60, each written in decimal digits.
pub fn numbers_in_range()
    ensures none { limit_named (codes "none") ≡ Some None }
    ensures limit { (n : ℕ) → 1 ≤ n → n ≤ 100000 → limit_named (decimal n) ≡ Some (Some n) }
    ensures only_limit { (text : List ℕ) (n : ℕ) → limit_named text ≡ Some (Some n) → (text ≡ decimal n) × (1 ≤ n) × (n ≤ 100000) }
    ensures steps { (n : ℕ) → 1 ≤ n → n ≤ 60 → steps_named (decimal n) ≡ Some n }
    ensures only_steps { (text : List ℕ) (n : ℕ) → steps_named text ≡ Some n → (text ≡ decimal n) × (1 ≤ n) × (n ≤ 60) }
{}

/// Words that are no run of pieces with names that are known.
pub fn words_refused()
    ensures help { words_read (codes "--help" ∷ []) ≡ None }
    ensures short_help { words_read (codes "-h" ∷ []) ≡ None }
    ensures version { words_read (codes "--version" ∷ []) ≡ None }
    ensures signs { words_read (codes "--" ∷ []) ≡ None }
    ensures signs_before { words_read (codes "--" ∷ codes "--gen=1" ∷ []) ≡ None }
    ensures bare { words_read (codes "gen" ∷ codes "1" ∷ []) ≡ None }
    ensures no_value { words_read (codes "--system" ∷ []) ≡ None }
    ensures empty_value { words_read (codes "--system=" ∷ []) ≡ None }
{}
