//! Where the variables of a script occur: on which side of a cut, and how those on both sides are marked.
//!
//! A cut k puts the parts 1 to k on side A, the later ones on side B, and the common part 0 on both. For each variable the
//! first and the last part are kept that have it, and they tell its side at each cut.
#![tactic(auto)]

pub mod laws;
mod mark;
mod range;
mod side;
mod sides;

pub use mark::Mark;
pub use range::PartRange;
pub use side::Side;
pub use sides::Sides;
