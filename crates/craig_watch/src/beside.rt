//! What stands beside the id of a clause in a list of watches.

use craig_base::Lit;

/// A literal of a watched clause that is looked at before the clause.
#[derive(Clone, Copy, Debug, PartialEq, Eq)]
pub enum Beside {
    /// The clause has two literals, and this is the other one.
    Other(Lit),
    /// The clause has this literal; where it is true the clause isn't visited.
    Blocker(Lit),
}
