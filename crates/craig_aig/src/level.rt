//! How many nodes an arena had once: what is newer can be dropped at once, as a stack is cut back.
ghost use Rattle.std.specs.Prelude.{◌≡◌, ◌≤◌};

use std::marker::Model;

/// A number of nodes that an arena had once, to go back to. It is at least 1.
#[derive(Clone, Copy, Debug, PartialEq, Eq, PartialOrd, Ord, Hash)]
pub struct Level {
    nodes: usize,
}

impl Model for Level {
    ghost use Rattle.std.specs.Prelude.{ℕ, ◌≤◌};

    ghost Value = { ℕ };

    ghost view = { λ l. l.nodes };

    ghost invariant = { λ l. 1 ≤ l.nodes };

    ghost inverse = { λ n. record { nodes = n } };
}

impl Level {
    /// The level of an arena that has so many nodes.
    pub(crate) fn new(nodes: usize) -> Level
        requires { 1 ≤ nodes }
        ensures { result ≡ nodes }
    {
        Level { nodes }
    }

    /// The number of nodes.
    pub(crate) fn nodes(self) -> usize
        ensures value { result ≡ self }
        ensures positive { 1 ≤ self }
    {
        self.nodes
    }
}
