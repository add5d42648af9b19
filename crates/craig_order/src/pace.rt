//! When a search restarts, and when it lets learnt clauses go.
//!
//! Restarts where the clauses that were learnt of late are worse than those of long: Audemard and Simon, "Refining Restarts
//! Strategies for SAT and UNSAT", CP 2012, by moving averages. Reductions at intervals that grow: Eén and Sörensson, "An
//! Extensible SAT-solver", SAT 2003. No answer depends on either, so that the schedules promise nothing.

use crate::average::Average;

/// How many conflicts count as of late.
const LATE: u64 = 32;

/// How many conflicts count as of long.
const LONG: u64 = 100000;

/// The least number of conflicts before the first restart, and by how many more each later one is further apart.
const APART: u64 = 250;

/// How many conflicts come before the first reduction, and by how many more each later one takes longer.
const STEP: u64 = 300;

/// The schedule of restarts and reductions, by the conflicts of a search.
#[derive(Drop)]
pub struct Pace {
    // the glue of clauses that were learnt of late
    late: Average,
    // and of long
    long: Average,
    // conflicts since the last restart
    unrestarted: u64,
    // the least number of conflicts from the last restart to the next
    apart: u64,
    // conflicts since the last reduction
    unreduced: u64,
    // conflicts from the last reduction to the next
    interval: u64,
}

impl Pace {
    /// Before the first conflict.
    pub fn new() -> Pace {
        Pace {
            late: Average::new(LATE),
            long: Average::new(LONG),
            unrestarted: 0,
            apart: APART,
            unreduced: 0,
            interval: STEP,
        }
    }

    /// A conflict has come, whose learnt clause has literals of so many levels.
    pub fn conflict(&mut self, glue: u32) {
        self.late.add(glue);
        self.long.add(glue);
        self.unrestarted = self.unrestarted.saturating_add(1);
        self.unreduced = self.unreduced.saturating_add(1);
    }

    /// Whether the search restarts now. It says so once, not before 250 conflicts, and each time not before 250 more than
    /// the last time.
    pub fn restart_due(&mut self) -> bool {
        let due = self.unrestarted >= self.apart && self.late.is_well_above(&self.long);
        if due {
            self.unrestarted = 0;
            self.apart = self.apart.saturating_add(APART);
        }
        due
    }

    /// Whether learnt clauses are let go now. It says so once, first after 300 conflicts, and each time after 300 more than
    /// the last time.
    pub fn reduce_due(&mut self) -> bool {
        let due = self.unreduced >= self.interval;
        if due {
            self.unreduced = 0;
            self.interval = self.interval.saturating_add(STEP);
        }
        due
    }
}
