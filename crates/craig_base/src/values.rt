//! A value for each of some variables.

ghost use Rattle.std.specs.Prelude.{◌≡◌, ◌<◌, false, replicate, slice_index_or, slice_set, length, IfOk};

use crate::Var;
use std::alloc::{AllocError, Global};
use std::marker::Model;

/// A truth value for each variable from 0 on, such as a model.
#[derive(Debug, Drop)]
pub struct Values {
    // the value of each variable, at its place
    values: Vec<bool>,
}

impl Model for Values {
    ghost use Rattle.std.specs.Prelude.{List, Bool};

    ghost Value = { List Bool };

    ghost view = { λ v. v.values.items };
}

impl Values {
    /// The values of the variables below `vars`, all false.
    pub fn new(alloc: Global, vars: u32) -> Result<Values, AllocError>
        ensures { IfOk result (λ values. values ≡ replicate vars false) }
    {
        Ok(Values {
            values: vec![in alloc; false; vars as usize]?,
        })
    }

    /// The value of a variable that has one.
    pub fn get(&self, var: Var) -> bool
        requires { var.0 < length self.now }
        ensures { result ≡ slice_index_or self.now var.0 false }
    {
        self.values[var.0 as usize]
    }

    /// Sets the value of a variable that has one.
    pub fn set(&mut self, var: Var, value: bool)
        requires { var.0 < length self.old }
        ensures { self.new ≡ slice_set self.old var.0 value }
    {
        self.values[var.0 as usize] = value;
    }
}
