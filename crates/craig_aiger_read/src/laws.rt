//! Laws of what texts write. The functions do nothing.
ghost use Rattle.std.specs.Prelude.{◌≡◌, ℕ, ◌+◌, ◌<◌, ◌≤◌, ◌^◌, ◌++◌, All, List, length, Ok};
ghost use Rattle.craig_spec.specs.AigerBinary.{aiger_reading};
ghost use Rattle.craig_spec.specs.AigerReading.{AigerFile, IsDefinedFile};
ghost use Rattle.craig_spec.specs.SevenBits.{FirstNumber, first_number, groups_of};

/// In the file that a text writes no gate stands before one that it uses, and each literal of a latch, an output, a
/// bad literal or a gate is of a variable of the file.
pub fn files_are_defined()
    ensures { (bytes : List ℕ) (f : AigerFile) → aiger_reading bytes ≡ Ok f → IsDefinedFile f }
{}

/// A number below 2 ^ 63 is read from its groups, whatever stands behind them.
pub fn numbers_are_read_from_their_groups()
    ensures { (n : ℕ) (rest : List ℕ) → n < 2 ^ 63 → first_number (groups_of n ++ rest) ≡ FirstNumber.Number n rest }
{}

/// No bytes in which a number is read are fewer than its groups.
pub fn groups_are_fewest()
    ensures { (n : ℕ) (bytes rest : List ℕ) → All (λ b. b < 256) bytes → first_number bytes ≡ FirstNumber.Number n rest → length (groups_of n) + length rest ≤ length bytes }
{}
