//! The numbers of a header.
ghost use Rattle.std.specs.Prelude.{◌+◌, ◌<◌, ◌≤◌};

/// The numbers of a header.
#[derive(Clone, Copy)]
pub(crate) struct Counts {
    /// The greatest variable.
    pub greatest: u64,
    /// How many inputs there are.
    pub inputs: u64,
    /// How many latches there are.
    pub latches: u64,
    /// How many outputs there are.
    pub outputs: u64,
    /// How many gates there are.
    pub gates: u64,
    /// How many bad literals there are.
    pub bads: u64,
    ghost enough: { inputs + latches + gates ≤ greatest },
    ghost small: { greatest < 1000000000000000000 },
}
