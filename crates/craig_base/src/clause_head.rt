//! The head of a clause in an arena.
ghost use Rattle.std.specs.Prelude.{◌≡◌, if◌then◌else◌};
ghost use Rattle.craig_base.specs.ArenaTable.{flags_of, live_length, with_flags};

use crate::Flags;

/// Where the literals of a clause lie among those of all clauses of an arena, and what was noted of it.
#[derive(Clone, Copy, Debug)]
pub(crate) struct ClauseHead {
    // the place of its first literal
    pub(crate) start: usize,
    // how many literals it has
    pub(crate) length: usize,
    // the flags, one by one, since a `Flags` would make the head longer
    pub(crate) glue: u32,
    pub(crate) learnt: bool,
    pub(crate) kept: bool,
    // whether the clause is there: it isn't where it was let go, or where only the id was given
    pub(crate) live: bool,
}

// A clause of n literals takes 4n + 24 bytes.
const _: () = prove!(size_of::<ClauseHead>() == 24);

impl ClauseHead {
    /// What the solver noted of the clause.
    pub(crate) fn flags(&self) -> Flags
        ensures { result ≡ flags_of self.now }
    {
        Flags {
            learnt: self.learnt,
            kept: self.kept,
            glue: self.glue,
        }
    }

    /// Sets what the solver noted of the clause.
    pub(crate) fn set_flags(&mut self, flags: Flags)
        ensures { self.new ≡ with_flags self.old flags }
    {
        self.learnt = flags.learnt;
        self.kept = flags.kept;
        self.glue = flags.glue;
    }

    /// How many literals of a live clause there are: none where no clause is live.
    pub(crate) fn live_length(&self) -> usize
        ensures { result ≡ live_length self.now }
    {
        if self.live { self.length } else { 0 }
    }
}
