//! Laws of the definitions, for proofs about whole streams and about what is written. The functions do nothing.

ghost use Rattle.std.specs.Prelude.{◌≡◌, ◌≢◌, ℕ, ◌+◌, ◌*◌, ◌^◌, ◌<◌, ◌≤◌, Bool, false, ℤ, pos, List, [], ◌++◌, count_by, count_ones, drop, length, map, Contains, IsTrue, Ok};
ghost use Rattle.std.specs.Fmt.{decimal, signed_decimal};
ghost use Rattle.std.specs.Int.RustNames.{unsigned_abs};
ghost use Rattle.std.specs.List.{concat, list_all};
ghost use Rattle.craig_script.specs.NumberWords.{IsLiteralWord, number_of, literal_of};
ghost use Rattle.craig_script.specs.Generator.{adds_clause, generated, is_true_command};
ghost use Rattle.craig_script.specs.Reading.{admitted, command_of, parsed, variables_named};
ghost use Rattle.craig_script.specs.Words.{words};
ghost use Rattle.craig_script.specs.Writing.{command_line, command_words, is_writable};
ghost use Rattle.craig_script.specs.declared.command.Command.{Command};
ghost use Rattle.craig_script.specs.declared.command.Command.TheVariants as command;
ghost use Rattle.craig_script.specs.declared.line.Line.{Line};
ghost use Rattle.craig_script.specs.declared.line.Line.TheVariants.{Text};
ghost use Rattle.craig_script.specs.Lines.{LinesView, before_first_byte, fed, ended, with_given, all_fed, line_of, whole_lines, script_lines};

/// It makes no difference where a stream is cut into pieces.
pub fn cut_anywhere()
    ensures pieces { (cut : LinesView) (a b : List ℕ) → fed (fed cut a) b ≡ fed cut (a ++ b) }
    ensures nothing { fed before_first_byte [] ≡ before_first_byte }
    ensures all { (pieces : List (List ℕ)) → all_fed before_first_byte pieces ≡ fed before_first_byte (concat pieces) }
{}

/// What a stream that was fed whole gives, before and after its end.
pub fn whole_stream()
    ensures ready { (stream : List ℕ) → (fed before_first_byte stream).ready ≡ map line_of (whole_lines stream) }
    ensures ended { (stream : List ℕ) → (ended (fed before_first_byte stream)).ready ≡ script_lines stream }
{}

/// Lines that were given before may be counted in: what comes next changes nothing in front of it.
pub fn given_before()
    ensures fed { (given : List Line) (cut : LinesView) (piece : List ℕ) → fed (with_given given cut) piece ≡ with_given given (fed cut piece) }
    ensures ended { (given : List Line) (cut : LinesView) → ended (with_given given cut) ≡ with_given given (ended cut) }
{}

/// The numbers are the decimal forms of those below 10 ^ 18, and the literals those of the others than 0, with a minus
/// sign where they are negative: no plus sign, no leading zero, and no sign before 0.
pub fn decimal_forms()
    ensures read { (word : List ℕ) (n : ℕ) → number_of word ≡ Some n → (word ≡ decimal n) × (n < 10 ^ 18) }
    ensures number { (n : ℕ) → n < 10 ^ 18 → number_of (decimal n) ≡ Some n }
    ensures literal { (z : ℤ) → z ≢ pos 0 → unsigned_abs z < 10 ^ 18 → literal_of (signed_decimal z) ≡ Some z }
    ensures read_literal { (word : List ℕ) (z : ℤ) → literal_of word ≡ Some z → IsLiteralWord word z }
{}

/// A command that `parse` gives can be written, and is read again as the same. A command that can be written has the
/// words that its line is made of, and is read from them; none of its bytes is a newline.
pub fn written_commands()
    ensures given { (line : Line) (c : Command) → parsed line ≡ Ok c → c ≢ command.Nothing → IsTrue (is_writable c) }
    ensures words { (c : Command) → IsTrue (is_writable c) → words (command_line c) ≡ command_words c }
    ensures read_back { (c : Command) → IsTrue (is_writable c) → command_of (words (command_line c)) ≡ Ok c }
    ensures line { (c : Command) → IsTrue (is_writable c) → length (command_line c) ≤ 1048576 → parsed (Text (command_line c)) ≡ Ok c }
    ensures no_newline { (c : Command) → IsTrue (is_writable c) → ¬ Contains (command_line c) 10 }
{}

/// The generator's script of so many steps, from 1 to 60, has 46 clauses for each step, seven for the start and one for
/// each bit that is set in the bound. It names variables from 1 to seven more than fourteen times the number of steps.
/// Its first command is accepted where a script begins, and each later one where there is one part more than steps. Each
/// can be written, and its line is read as it.
pub fn generated_scripts()
    ensures clauses { (n : ℕ) → n ≤ 60 → count_by adds_clause (generated n) ≡ 7 + 46 * n + count_ones (2 * n + 1) }
    ensures variables { (n : ℕ) (c : Command) (v : ℕ) → Contains (generated n) c → Contains (variables_named c) v → (1 ≤ v) × (v ≤ 14 * n + 7) }
    ensures greatest { (n : ℕ) → 1 ≤ n → (c : Command) × Contains (generated n) c × Contains (variables_named c) (14 * n + 7) }
    ensures first { (n : ℕ) → n ≤ 60 → admitted 2 false (command.Parts (n + 1)) ≡ Ok tt }
    ensures later { (n : ℕ) (any : Bool) (c : Command) → n ≤ 60 → Contains (drop 1 (generated n)) c → admitted (n + 1) any c ≡ Ok tt }
    ensures writable { (n : ℕ) (c : Command) → n ≤ 60 → Contains (generated n) c → IsTrue (is_writable c) }
    ensures read { (n : ℕ) (c : Command) → n ≤ 60 → Contains (generated n) c → parsed (Text (command_line c)) ≡ Ok c }
{}

/// A generated script of at most 60 steps is unsatisfiable: whatever values the variables have, one of its clauses is
/// false.
pub fn generated_is_unsatisfiable()
    ensures { (n : ℕ) (values : ℕ → Bool) → n ≤ 60 → list_all (is_true_command values) (generated n) ≡ false }
{}
