//! What a search counts of its reductions.
ghost use Rattle.std.specs.Prelude.{◌≡◌};

/// Which clauses a search may let go, and how often it may do so or derive unit clauses still.
#[derive(Drop)]
pub(crate) struct Reductions {
    /// The id of the first clause that the search learns.
    pub first: u64,
    /// The id of the first clause that it learns after it last let clauses go or derived unit clauses.
    pub since: u64,
    /// How often it may do either still. There is a bound so that the search ends.
    pub left: u64,
}

impl Reductions {
    /// None yet, for a search that learns clauses from an id on.
    pub(crate) fn new(first: u64) -> Reductions
        ensures first { result.first ≡ first }
        ensures since { result.since ≡ first }
    {
        Reductions {
            first,
            since: first,
            left: u64::MAX,
        }
    }
}
