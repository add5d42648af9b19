//! What the commands of a script have set beside the number of parts.

ghost use Rattle.std.specs.Prelude.{◌≡◌, ℕ, ◌++◌, ◌∷◌, [], Option, Some, None, map, true, IfOk, OnOk, OnErr};
ghost use Rattle.std.specs.Int.RustNames.{unsigned_abs};
ghost use Rattle.craig_script.specs.Reading.{are_rising_within};
ghost use Rattle.craig_label.specs.Marks.{label_of};
ghost use Rattle.craig_top.specs.GivenState.{label_named, unmarked};
ghost use Rattle.std.specs.Option.{option_map};
ghost use Rattle.craig_top.specs.Stored.{settings_of, written_cuts};

use crate::settings::Settings;
use craig_itp::cuts_up_to;
use craig_label::Mark;
use craig_script::{FormatWord, MarkWord, SystemWord};
use std::alloc::{AllocError, Global};

/// The settings of a script, but for the number of parts.
#[derive(Drop)]
pub struct Choices {
    /// The system of the interpolants.
    pub system: SystemWord,
    /// The marks of script variables, first to last.
    pub marks: Vec<(u32, Mark)>,
    /// The cuts whose interpolants are written, where not all are.
    pub cuts: Option<Vec<u16>>,
    /// The format in which circuits are written.
    pub format: FormatWord,
    /// How many conflicts a solve may meet, where there is a limit.
    pub limit: Option<u64>,
}

impl Choices {
    /// The settings of the start, no mark and all cuts. It takes no memory.
    pub fn new(alloc: Global, settings: Settings) -> Choices
        ensures { (parts : ℕ) → settings_of parts result ≡ unmarked parts settings }
    {
        Choices {
            system: settings.system,
            marks: Vec::new(alloc),
            cuts: None,
            format: settings.format,
            limit: settings.limit,
        }
    }
}

/// The mark that a word names.
pub fn mark_of(word: MarkWord) -> Mark
    ensures { label_of result ≡ label_named word }
{
    match word {
        MarkWord::A => Mark::A,
        MarkWord::Ab => Mark::Ab,
        MarkWord::B => Mark::B,
    }
}

/// The cuts that these numbers are, which rise and are at most 65535.
pub fn chosen_cuts(alloc: Global, numbers: &[i64]) -> Result<Vec<u16>, AllocError>
    requires { are_rising_within 0 65535 numbers.now ≡ true }
    ensures { IfOk result (λ cuts. cuts.items ≡ map unsigned_abs numbers.now) }
{
    let mut cuts = Vec::new(alloc);
    for number in numbers {
        cuts.push(number.unsigned_abs() as u16)?;
    }
    Ok(cuts)
}

/// The cuts that are written where there are so many parts: the chosen ones, or all.
pub fn written_cuts(
    alloc: Global,
    parts: u16,
    chosen: &Option<Vec<u16>>,
) -> Result<Vec<u16>, AllocError>
    ensures { IfOk result (λ cuts. cuts.items ≡ written_cuts parts (option_map (λ cuts. cuts.items) chosen.now)) }
{
    match chosen {
        Some(cuts) => Vec::from_slice(alloc, cuts.as_slice()),
        None => cuts_up_to(alloc, parts),
    }
}
