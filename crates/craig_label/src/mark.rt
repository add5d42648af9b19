//! Labels of variables that both sides of a cut have.
/// How a variable is labelled that occurs on both sides of a cut.
///
/// Marks rise from B over Ab to A, as labels do in D'Silva, Kroening, Purandare and Weissenbacher, VMCAI 2010: the
/// interpolant by lower marks implies the one by higher marks.
#[derive(Clone, Copy, Debug, PartialEq, Eq, PartialOrd, Ord, Hash)]
pub enum Mark {
    /// As one of side B.
    B,
    /// As one of both sides.
    Ab,
    /// As one of side A.
    A,
}
