//! Why a line of the script is refused.

ghost use Rattle.std.specs.Prelude.{◌≡◌};
ghost use Rattle.craig_script.specs.Refusals.{number_of_refusal};

use std::alloc::AllocError;
use thiserror::Error;

/// Why a line is refused. Where several reasons stand, `Overlong` comes first, then `Syntax`, then `LateParts`, then
/// `Range`, then `Variable`, then `LimitRange`, then `CutRange`.
#[derive(Clone, Copy, Debug, PartialEq, Eq)]
pub enum Refusal {
    /// The line isn't in the grammar.
    Syntax,
    /// The line is longer than the limit.
    Overlong,
    /// A part isn't from 0 to the number of parts, or a number of parts isn't from 1 to 4096.
    Range,
    /// A variable isn't from 1 to 2147483647.
    Variable,
    /// The number of parts is given after a clause was accepted.
    LateParts,
    /// A conflict limit isn't from 1 to 100000.
    LimitRange,
    /// A cut is above the number of parts, or isn't above the one before it.
    CutRange,
}

impl Refusal {
    /// The number by which a reply names the reason.
    pub fn number(self) -> u8
        ensures { result ≡ number_of_refusal self }
    {
        match self {
            Refusal::Syntax => 1,
            Refusal::Overlong => 2,
            Refusal::Range => 3,
            Refusal::Variable => 4,
            Refusal::LateParts => 5,
            Refusal::LimitRange => 6,
            Refusal::CutRange => 7,
        }
    }
}

/// Why a line gave no command.
#[derive(Debug, Drop, Error)]
pub enum LineFault {
    /// The line is refused, whatever memory there is.
    #[error("the line is refused")]
    Refused(Refusal),
    /// Memory ran out.
    #[error(transparent)]
    NoMemory(#[from(alloc)] AllocError),
}
