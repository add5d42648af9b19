//! On which sides of a cut a variable occurs.
/// Where a variable occurs at a cut.
#[derive(Clone, Copy, Debug, PartialEq, Eq, Hash)]
pub enum Side {
    /// On side A alone.
    ALocal,
    /// On both sides.
    Shared,
    /// On side B alone.
    BLocal,
    /// Nowhere.
    Absent,
}
