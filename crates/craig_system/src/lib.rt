//! Systems of interpolation: how partial interpolants are built along a refutation, as edges of a circuit.
//!
//! All are labelled systems of D'Silva, Kroening, Purandare and Weissenbacher, VMCAI 2010, with one label for each
//! variable: A where it occurs on side A alone, B where it occurs on side B alone or nowhere, and the system's mark
//! where it occurs on both sides. A system is its marks and the shape of the gates.
#![tactic(auto)]

mod choice;
mod dual_pudlak;
mod inverse;
mod leaf;
mod literal;
mod marked;
mod mcmillan;
mod pudlak;
mod system;

pub use dual_pudlak::DualPudlak;
pub use inverse::Inverse;
pub use marked::Marked;
pub use mcmillan::McMillan;
pub use pudlak::Pudlak;
pub use system::System;
