//! Which cuts a line chooses.

use crate::numbers::Numbers;

/// The cuts whose interpolants are written.
#[derive(Debug, Drop)]
pub enum CutWord {
    /// Every cut.
    All,
    /// These cuts, as they were written.
    Chosen(Numbers),
}
