//! The calls of an object in memory: how many were made and failed, and which are to fail.

ghost use Rattle.std.specs.Prelude.{◌≡◌, ◌↔◌, ◌<◌, ◌^◌, IsTrue, Contains};
ghost use Rattle.craig_io.specs.Faults.{raised};
ghost use Rattle.craig_io.specs.Calls.{CallsMade};

use std::marker::Model;

/// The calls of an object in memory. Both counters stand still at their last value.
#[derive(Drop)]
pub(crate) struct Calls {
    // the numbers of the calls that are to fail, in any order; the first call has 1
    fails: Vec<u64>,
    // how many calls were made
    made: u64,
    // how many of them failed
    pub(crate) faults: u64,
}

impl Model for Calls {
    ghost Value = { CallsMade };

    ghost view = { λ c. record { fails = c.fails.items; made = c.made; faults = c.faults } };

    ghost invariant = { λ c. c.faults < 2 ^ 64 };
}

impl Calls {
    /// No call was made yet.
    pub fn new(fails: Vec<u64>) -> Calls
        ensures { result ≡ record { fails = fails.items; made = 0; faults = 0 } }
    {
        Calls {
            fails,
            made: 0,
            faults: 0,
        }
    }

    /// Counts a call, and says whether it is one that is to fail.
    pub fn next_fails(&mut self) -> bool
        ensures listed { IsTrue result ↔ Contains self.old.fails (raised self.old.made) }
        ensures counted { self.new ≡ record self.old { made = raised self.old.made } }
        ensures fits { self.old.faults < 2 ^ 64 }
    {
        self.made = self.made.saturating_add(1);
        self.fails.contains(&self.made)
    }

    /// Counts a fault.
    pub fn fault(&mut self)
        ensures { self.new ≡ record self.old { faults = raised self.old.faults } }
    {
        self.faults = self.faults.saturating_add(1);
    }
}
