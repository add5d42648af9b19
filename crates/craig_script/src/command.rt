//! What a line of the script asks for.

use crate::cut_word::CutWord;
use crate::numbers::Numbers;
use crate::pairs::Pairs;
use crate::setting_words::{FormatWord, MarkWord, SystemWord};

/// What a line of the script asks for.
#[derive(Debug, Drop)]
pub enum Command {
    /// A blank line or a comment.
    Nothing,
    /// How many parts the clauses have.
    Parts(u64),
    /// A clause for a part, its literals as they were written.
    Add { part: u64, lits: Numbers },
    /// The system of the interpolants.
    System(SystemWord),
    /// The mark of a variable of the script.
    Mark { name: u64, mark: MarkWord },
    /// The cuts whose interpolants are written.
    Cuts(CutWord),
    /// How many conflicts each later solve may meet, where there is a limit.
    Limit(Option<u64>),
    /// The format in which circuits are written.
    Format(FormatWord),
    /// Solve under these assumptions, each a part and a literal.
    Solve(Pairs),
}
