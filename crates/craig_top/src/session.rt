//! A session: one reply for each line, and the state that the lines so far have left.

ghost use Rattle.std.specs.Prelude.{◌≡◌, ◌≢◌, ℕ, ◌++◌, true, false, List, OnOk, OnErr, IsErr, Some};
ghost use Rattle.craig_spec.specs.Appended.{AppendsOnly};
ghost use Rattle.craig_top.specs.Appended.{AppendsText};

use crate::settings::Settings;
use crate::stored::Stored;
use craig_script::Line;
use std::alloc::{AllocError, Global};
use std::marker::Model;

/// How many parts the clauses of a script have.
const PARTS: u16 = 2;

/// The state of a script. Contracts see the given state, which is what the accepted lines have said so far, and the
/// refutations that are kept: steps over the dense variables of the names, and the root of the last one.
///
/// After an error, for which only want of memory is a cause, the session is dead: its given state is as before, and
/// each later line is refused.
#[derive(Drop)]
pub struct Session {
    stored: Stored,
    // then the sides may say more than the accepted clauses
    dead: bool,
}

impl Model for Session {
    ghost use Rattle.std.specs.Prelude.{◌≡◌, false};
    ghost use Rattle.craig_top.specs.LastRefutation.{SessionView};
    ghost use Rattle.craig_top.specs.Stored.{IsKept, seen};

    ghost Value = { SessionView };

    ghost view = { λ s. seen s.stored s.dead };

    ghost invariant = { λ s. s.dead ≡ false → IsKept s.stored };
}

impl Session {
    ghost use Rattle.craig_top.specs.GivenState.{start, next};
    ghost use Rattle.craig_top.specs.LastRefutation.{LineIsByLastRoot, view_before_lines};
    ghost use Rattle.craig_top.specs.Reply.{Reply};

    /// The session before the first line. A limit is at least 1. It takes no memory.
    pub fn new(alloc: Global, settings: Settings) -> Session
        requires { settings.limit ≢ Some 0 }
        ensures { result ≡ view_before_lines (start settings) }
    {
        Session {
            stored: Stored::new(alloc, PARTS, settings),
            dead: false,
        }
    }

    /// Appends the reply to one line, whole, and goes on to the state after it.
    ///
    /// After an error, for which only want of memory is a cause, the given state is as before, a part of a reply may
    /// stand behind what was in `out`, and the session is dead: each later line is refused in the same way, and changes
    /// nothing.
    pub fn answer(&mut self, line: &Line, out: &mut Vec<u8>) -> Result<(), AllocError>
        ensures reply { OnOk result (AppendsText out.old.items out.new.items (Reply self.old.state line.now)) }
        ensures refutation { OnOk result (AppendsText out.old.items out.new.items (LineIsByLastRoot self.new self.old.state line.now)) }
        ensures state { OnOk result (self.new.state ≡ next self.old.state line.now) }
        ensures unchanged { OnErr result (self.new.state ≡ self.old.state) }
        ensures appends { AppendsOnly out.old.items out.new.items }
        ensures alive { OnOk result (self.new.dead ≡ false) }
        ensures dead { OnErr result (self.new.dead ≡ true) }
        ensures refused { self.old.dead ≡ true → IsErr result }
        ensures untouched { self.old.dead ≡ true → (self.new ≡ self.old) × (out.new ≡ out.old) }
    {
        if self.dead {
            return Err(AllocError);
        }
        self.dead = true;
        self.stored.answer(line, out)?;
        self.dead = false;
        Ok(())
    }
}
