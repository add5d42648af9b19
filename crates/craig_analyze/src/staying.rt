//! Which literals conflict analysis leaves in a clause.

/// Which literals of a false clause stay in it. The others are resolved on.
#[derive(Clone, Copy, Debug)]
pub enum Staying {
    /// Those of the levels between level 0 and the present one, for an asserting clause.
    InnerLevels,
    /// Those of decisions, for a core.
    Decisions,
    /// Those that don't follow from the others, for an asserting clause that is made shorter.
    Irredundant,
}
