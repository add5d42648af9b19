//! The small types that every layer names: variables, literals, lists of them, clauses in normal form, and the
//! arena of clauses.
//!
//! Variables are dense: they are numbered from 0 without gaps, and `Names` ties them to the numbers that a
//! script gives them. A literal is one word of 32 bits, twice its variable and one more where it is negated,
//! and contracts see it as a `Literal`.
#![tactic(auto)]

mod arena;
mod clause_head;
mod clause_id;
mod clause_list;
mod closing_gaps;
mod flags;
pub mod laws;
mod literal;
mod literal_list;
mod names;
mod normal_form;
mod normalize;
mod script_part;
mod values;
mod variable;

pub use arena::Arena;
pub use clause_id::ClauseId;
pub use clause_list::Clauses;
pub use flags::Flags;
pub use literal::Lit;
pub use literal_list::Lits;
pub use names::Names;
pub use normal_form::Normal;
pub use normalize::normal;
pub use script_part::Part;
pub use values::Values;
pub use variable::Var;
