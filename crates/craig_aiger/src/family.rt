//! The interpolation systems whose circuits stand side by side in one text.
#![tactic(none)]

/// An interpolation system whose circuits stand beside those of others in one text.
#[derive(Clone, Copy, Debug, PartialEq, Eq, PartialOrd, Ord, Hash)]
pub enum Family {
    /// McMillan's system, printed as `m`.
    McMillan,
    /// Pudlák's system, printed as `p`.
    Pudlak,
    /// The inverse of McMillan's system, printed as `i`.
    Inverse,
}
