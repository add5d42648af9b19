//! When a solver lets learnt clauses of earlier searches go.
//!
//! Eén and Sörensson, "An Extensible SAT-solver", SAT 2003, lets them go at intervals that grow. No answer depends on it, so
//! that the schedule promises nothing.

/// How many clauses are learnt before any is let go.
const FIRST: u64 = 2000;

/// By how many more each later interval is longer.
const STEP: u64 = 500;

/// How many clauses are to be learnt before learnt ones are let go again.
#[derive(Drop)]
pub(crate) struct Schedule {
    // how many were learnt by then
    next: u64,
    // how many are learnt from one time to the next
    interval: u64,
}

impl Schedule {
    /// Before the first search.
    pub(crate) fn new() -> Schedule {
        Schedule {
            next: FIRST,
            interval: FIRST,
        }
    }

    /// Whether clauses are let go now that so many were learnt. It says so once.
    pub(crate) fn is_due(&mut self, learnt: u64) -> bool {
        if learnt < self.next {
            return false;
        }
        self.interval = self.interval.saturating_add(STEP);
        self.next = learnt.saturating_add(self.interval);
        true
    }
}
