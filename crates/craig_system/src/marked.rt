//! A system whose marks are set variable by variable: the labelled systems of D'Silva, Kroening, Purandare and
//! Weissenbacher, "Interpolant Strength", VMCAI 2010, where a variable has one label, whichever literal it stands in.
ghost use Rattle.std.specs.Prelude.{◌≡◌, [], OnOk, OnErr};
ghost use Rattle.craig_label.specs.Marks.{label_of};
ghost use Rattle.craig_system.specs.Marking.{labels_in, with_label};

use crate::System;
use craig_base::Var;
use craig_label::Mark;
use indexmap::IndexMap;
use std::alloc::{AllocError, Global};
use std::marker::Model;

/// A system of marks of its own: a variable of both sides counts as its mark says, and as one of both sides where it has
/// none.
///
/// Contracts see the label of each dense variable. The marks take memory for the variables that have one, and none for
/// those between.
#[derive(Debug, Drop)]
pub struct Marked {
    // the last mark of each dense variable that has one
    marks: IndexMap<Var, Mark>,
}

impl Model for Marked {
    ghost use Rattle.std.specs.Prelude.{List};
    ghost use Rattle.craig_base.specs.declared.variable.Var.{Var};
    ghost use Rattle.craig_label.specs.declared.mark.Mark.{Mark};

    ghost Value = { List (Var × Mark) };

    ghost view = { λ m. m.marks.entries };
}

impl Marked {
    /// No variable has a mark. It takes no memory.
    pub fn new(alloc: Global) -> Marked
        ensures { result ≡ [] }
    {
        Marked {
            marks: IndexMap::new(alloc),
        }
    }

    /// Gives a dense variable this mark, in place of the one that it has. After an error the marks are as before.
    pub fn set(&mut self, var: Var, mark: Mark) -> Result<(), AllocError>
        ensures set { OnOk result (labels_in self.new ≡ with_label (labels_in self.old) var.0 (label_of mark)) }
        ensures unchanged { OnErr result (self.new ≡ self.old) }
    {
        self.marks.insert(var, mark)?;
        Ok(())
    }
}

impl System for Marked {
    ghost marks = { labels_in };

    fn mark(&self, var: Var) -> Mark {
        self.marks.get(&var).copied().unwrap_or(Mark::Ab)
    }
}
