//! Why a text is not read.
#![tactic(none)]

ghost use Rattle.std.specs.Prelude.{◌≡◌, alloc_error};
ghost use Rattle.craig_aiger_read.specs.declared.aiger_error.AigerError.TheVariants.{NoMemory};

use std::alloc::{AllocError, AllocFailed};
use thiserror::Error;

/// The first fault of a text, with the number of bytes before it, or want of memory.
///
/// The faults of a line are tested in the order in which they stand here, and have the place of the line's first
/// byte. `Undefined` and `Cycle` come after the whole text was read.
#[derive(Debug, Drop, Error)]
pub enum AigerError {
    /// The first line is not a header, or there is no byte.
    #[error("byte {place}: no header")]
    Header { place: u64 },
    /// The greatest variable is less than the number of inputs, latches and gates, or in a binary text more.
    #[error("byte {place}: the greatest variable is not that of the definitions")]
    Count { place: u64 },
    /// The header counts constraints, or justice or fairness properties.
    #[error("byte {place}: constraints and justice and fairness properties are not supported")]
    Unsupported { place: u64 },
    /// The bytes end before the lines or the binary numbers that the header counts. The place is the number of
    /// bytes.
    #[error("byte {place}: the text ends before what its header counts")]
    Truncated { place: u64 },
    /// The line of an input, a latch, an output, a bad literal or a gate is not in its form.
    #[error("byte {place}: the line is not in its form")]
    Line { place: u64 },
    /// A literal other than a reset is of a variable above the greatest, or one that is defined is odd or constant.
    #[error("byte {place}: the literal is out of range")]
    Literal { place: u64 },
    /// A variable is defined a second time.
    #[error("byte {place}: the variable is defined twice")]
    Twice { place: u64 },
    /// The reset of a latch is not 0, 1 or the latch's own literal.
    #[error("byte {place}: the reset is not 0, 1 or the latch's own literal")]
    Reset { place: u64 },
    /// A binary number has more than nine groups, or the first of a gate is 0 or above the gate's literal, or the
    /// second is above the first operand. The place is the number's first byte.
    #[error("byte {place}: the difference is out of range")]
    Delta { place: u64 },
    /// A line after the gates is neither a symbol nor the first of the comments, there is nothing at its
    /// position, or what is there has a name already.
    #[error("byte {place}: the line is no symbol of something without a name")]
    Symbol { place: u64 },
    /// A line uses a literal whose variable is defined nowhere.
    #[error("byte {place}: the variable is defined nowhere")]
    Undefined { place: u64 },
    /// A gate depends on itself, or on one that does.
    #[error("byte {place}: the gate depends on itself")]
    Cycle { place: u64 },
    /// Memory ran out.
    #[error(transparent)]
    NoMemory(AllocError),
}

impl From<AllocError> for AigerError {
    ghost from_gives = { λ error e. e ≡ NoMemory error };

    #[tactic(auto)]
    fn from(error: AllocError) -> AigerError {
        AigerError::NoMemory(error)
    }
}

impl<T: Drop> From<AllocFailed<T>> for AigerError {
    ghost from_gives = { λ _ e. e ≡ NoMemory alloc_error };

    #[tactic(auto)]
    fn from(_error: AllocFailed<T>) -> AigerError {
        AigerError::NoMemory(AllocError)
    }
}
