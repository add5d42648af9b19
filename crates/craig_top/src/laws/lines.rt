//! What the lines of a script are.

ghost use Rattle.std.specs.Prelude.{◌≡◌, ◌≢◌, ℕ, ◌<◌, ◌≤◌, [], ◌∷◌, ◌++◌, List, Ok, Err, Contains, codes, length, map};
ghost use Rattle.std.specs.List.{flat_map};
ghost use Rattle.craig_script.specs.declared.command.Command.{Command};
ghost use Rattle.craig_script.specs.declared.command.Command.TheVariants.{Add, Cuts, Format, Limit, Mark, Parts, Solve, System};
ghost use Rattle.craig_script.specs.declared.cut_word.CutWord.{CutWord};
ghost use Rattle.craig_script.specs.declared.line.Line.TheVariants.{Overlong, Text};
ghost use Rattle.craig_script.specs.declared.refusal.Refusal.TheVariants as refusal;
ghost use Rattle.craig_script.specs.Lines.{last_part, line_of, script_lines, whole_lines};
ghost use Rattle.craig_script.specs.Words.{words};
ghost use Rattle.craig_script.specs.Writing.{command_words};
ghost use Rattle.craig_top.specs.CommandLines.{AreInRange, ArePairsInRange, AreRisingCuts, IsLimitInRange, EachAddLine, EachCutsLine, EachFormatLine, EachLimitLine, EachMarkLine, EachPartsLine, EachSolveLine, EachSystemLine};
ghost use Rattle.craig_top.specs.GivenState.{State, reading};

/// The bytes of a script are its lines, each with a newline behind it, and what comes after the last newline, which is
/// a line where it has a byte. None of them has a newline. A line of more than 1048576 bytes is seen as overlong.
pub fn lines_of_a_script()
    ensures joined { (bytes : List ℕ) → flat_map (λ line. line ++ codes "\n") (whole_lines bytes) ++ last_part bytes ≡ bytes }
    ensures no_newline { (bytes line : List ℕ) → Contains (whole_lines bytes) line → ¬ Contains line 10 }
    ensures last_no_newline { (bytes : List ℕ) → ¬ Contains (last_part bytes) 10 }
    ensures ended { (bytes : List ℕ) → last_part bytes ≡ [] → script_lines bytes ≡ map line_of (whole_lines bytes) }
    ensures unended { (bytes : List ℕ) → last_part bytes ≢ [] → script_lines bytes ≡ map line_of (whole_lines bytes ++ last_part bytes ∷ []) }
    ensures text { (bytes : List ℕ) → length bytes ≤ 1048576 → line_of bytes ≡ Text bytes }
    ensures overlong { (bytes : List ℕ) → 1048576 < length bytes → line_of bytes ≡ Overlong }
{}

/// A line that is read as an addition has the word `add`, the decimal forms of its part and of its literals, and 0. One
/// that is read as a solve has the word `solve`, the decimal forms of the part and the literal of each pair, and 0. Those that set something have the word of what they set, and
/// what it is set to; a number of parts is from 1 to 4096, and none is given once a clause is accepted. No line of more
/// than 1048576 bytes is read as a command.
pub fn words_of_commands()
    ensures add { EachAddLine (λ state bytes part lits. (words bytes ≡ command_words (Add part lits)) × AreInRange state.settings.parts part lits) }
    ensures parts { EachPartsLine (λ state bytes n. (words bytes ≡ command_words (Parts n)) × (1 ≤ n) × (n ≤ 4096) × (state.accepted ≡ [])) }
    ensures system { EachSystemLine (λ bytes s. words bytes ≡ command_words (System s)) }
    ensures mark { EachMarkLine (λ bytes name m. (words bytes ≡ command_words (Mark name m)) × (1 ≤ name) × (name ≤ 2147483647)) }
    ensures all_cuts { (state : State) (bytes : List ℕ) → reading state (Text bytes) ≡ Ok (Cuts CutWord.All) → words bytes ≡ command_words (Cuts CutWord.All) }
    ensures cuts { EachCutsLine (λ state bytes cuts. (words bytes ≡ command_words (Cuts (CutWord.Chosen cuts))) × AreRisingCuts state.settings.parts cuts) }
    ensures limit { EachLimitLine (λ bytes limit. (words bytes ≡ command_words (Limit limit)) × IsLimitInRange limit) }
    ensures format { EachFormatLine (λ bytes f. words bytes ≡ command_words (Format f)) }
    ensures solve { EachSolveLine (λ state bytes pairs. (words bytes ≡ command_words (Solve pairs)) × ArePairsInRange state.settings.parts pairs) }
    ensures short { (state : State) (bytes : List ℕ) (c : Command) → reading state (Text bytes) ≡ Ok c → length bytes ≤ 1048576 }
    ensures overlong { (state : State) → reading state Overlong ≡ Err refusal.Overlong }
{
    craig_script::laws::decimal_forms();
}
