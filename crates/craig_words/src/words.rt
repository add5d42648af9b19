//! What the words of the program set, and why they are refused.

ghost use Rattle.std.specs.Prelude.{◌≡◌};
ghost use Rattle.craig_words.specs.declared.words.WordsFault.TheVariants.{NoMemory};

use craig_script::{FormatWord, SystemWord};
use std::alloc::AllocError;

/// What the words of the program set. `None` is what they leave as it is.
#[derive(Clone, Copy, Debug, PartialEq, Eq)]
pub struct Words {
    /// The system of interpolation that a script begins with.
    pub system: Option<SystemWord>,
    /// The format that circuits are written in.
    pub format: Option<FormatWord>,
    /// The conflict limit of a solve: `None` inside for no limit, or a number from 1 to 100000.
    pub limit: Option<Option<u64>>,
    /// How many steps the script has that is made in place of one that is read: from 1 to 60.
    pub steps: Option<u32>,
}

/// Why words set nothing.
#[derive(Debug, Drop)]
pub enum WordsFault {
    /// The words are refused, whatever memory there is.
    Refused,
    /// Memory ran out.
    NoMemory(AllocError),
}

impl From<AllocError> for WordsFault {
    ghost from_gives = { λ error fault. fault ≡ NoMemory error };

    fn from(error: AllocError) -> WordsFault {
        WordsFault::NoMemory(error)
    }
}
