//! The forms of a text.
#![tactic(none)]

/// A form in which a layout is written.
#[derive(Clone, Copy, Debug, PartialEq, Eq, Hash)]
pub enum Form {
    /// The ASCII form, whose first word is `aag`.
    Aag,
    /// The binary form, whose first word is `aig`.
    Aig,
}
