//! Dense numbers for the variables of a script, by the first use of each.

ghost use Rattle.std.specs.Prelude.{◌≡◌, ◌<◌, ◌≤◌, ◌↔◌, [], ◌==◌, length, slice_get, Contains, IsOk, IsNone, IfOk, IfSome, OnOk, OnErr};
ghost use Rattle.craig_base.specs.Names.{AreNames, with_name};

use crate::Var;
use indexmap::IndexSet;
use std::alloc::{AllocError, Global};
use std::marker::Model;

/// A two-way table of the variables of a script and the dense variables.
///
/// A script names its variables by numbers from 1 to 2147483647. The first name that is asked for becomes the
/// dense variable 0, the next new one the dense variable 1, and so on. Contracts see the list of the names by
/// dense number.
#[derive(Drop)]
pub struct Names {
    // the name of each dense number, at its place
    table: IndexSet<u32>,
}

impl Model for Names {
    ghost use Rattle.std.specs.Prelude.{List, ℕ};
    ghost use Rattle.craig_base.specs.Names.{AreNames};

    ghost Value = { List ℕ };

    ghost view = { λ n. n.table.keys };

    ghost invariant = { λ n. AreNames n.table.keys };
}

impl Names {
    /// The empty table, which takes no memory.
    pub fn new(alloc: Global) -> Names
        ensures { result ≡ [] }
    {
        Names {
            table: IndexSet::new(alloc),
        }
    }

    /// The dense variable of a name. A known name keeps its variable, and a new name takes the next one.
    /// After an error, which only a new name meets, the table is as before.
    pub fn dense(&mut self, name: u32) -> Result<Var, AllocError>
        requires low { 1 ≤ name }
        requires high { name ≤ 2147483647 }
        ensures names { OnOk result (self.new ≡ with_name self.old name) }
        ensures place { IfOk result (λ v. slice_get self.new v.0 ≡ Some name) }
        ensures within { IfOk result (λ v. v.0 < length self.new) }
        ensures known { Contains self.old name → IsOk result }
        ensures unchanged { OnErr result (self.new ≡ self.old) }
        ensures are_names { AreNames self.new }
    {
        let (place, _) = self.table.insert_full(name)?;
        Ok(Var(place as u32))
    }

    /// The dense variable of a name that is in the table.
    pub fn find(&self, name: u32) -> Option<Var>
        ensures absent { IsNone result ↔ ¬ Contains self.now name }
        ensures place { IfSome result (λ v. slice_get self.now v.0 ≡ Some name) }
        ensures within { IfSome result (λ v. v.0 < length self.now) }
        ensures are_names { AreNames self.now }
    {
        let place = self.table.get_index_of(&name)?;
        Some(Var(place as u32))
    }

    /// The name of a dense variable.
    pub fn name(&self, var: Var) -> u32
        requires { var.0 < length self.now }
        ensures value { slice_get self.now var.0 ≡ Some result }
        ensures low { 1 ≤ result }
        ensures high { result ≤ 2147483647 }
    {
        self.table.as_slice()[var.0 as usize]
    }

    /// The number of names.
    pub fn len(&self) -> u32
        ensures value { result ≡ length self.now }
        ensures are_names { AreNames self.now }
    {
        self.table.len() as u32
    }

    /// Whether the table has no names.
    pub fn is_empty(&self) -> bool
        ensures { result ≡ (length self.now == 0) }
    {
        self.table.is_empty()
    }
}
