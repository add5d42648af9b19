//! How latches start.
#![tactic(none)]

/// How a latch starts.
#[derive(Clone, Copy, Debug, PartialEq, Eq)]
pub enum Reset {
    /// As false.
    Zero,
    /// As true.
    One,
    /// As either.
    Open,
}
