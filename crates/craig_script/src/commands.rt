//! A list of commands, as a script.

ghost use Rattle.std.specs.Prelude.{◌≡◌, List, [], ◌∷◌, ◌++◌, OnOk, OnErr};
ghost use Rattle.craig_script.specs.declared.command.Command.{Command};

use crate::command::Command;
use std::alloc::{AllocError, Global};
use std::marker::Model;

/// A list of commands, in the order of their lines.
#[derive(Debug, Drop)]
pub struct Commands {
    // first to last
    items: Vec<Command>,
}

impl Model for Commands {
    ghost Value = { List Command };

    ghost view = { λ c. c.items.items };
}

impl Commands {
    /// The empty list. It takes no memory.
    pub fn new(alloc: Global) -> Self
        ensures { result ≡ [] }
    {
        Commands {
            items: Vec::new(alloc),
        }
    }

    /// Appends a command. After an error, for which only want of memory is a cause, the list is as before.
    pub fn push(&mut self, item: Command) -> Result<(), AllocError>
        ensures pushed { OnOk result (self.new ≡ self.old ++ item ∷ []) }
        ensures unchanged { OnErr result (self.new ≡ self.old) }
    {
        self.items.push(item)?;
        Ok(())
    }

    /// The commands, in order.
    pub fn as_slice(&self) -> &[Command]
        ensures { result.now ≡ self.now }
    {
        self.items.as_slice()
    }
}
