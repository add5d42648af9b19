//! The compaction of an arena: one walk over its clauses, by rising id, in which each one slides down to the end of the
//! last one that is live. It moves each literal at most once and takes no memory.
ghost use Rattle.std.specs.Prelude.{◌≡◌, ◌<◌, ◌+◌, length, sum_by, take};
ghost use Rattle.craig_base.specs.ArenaTable.{AreLaidOut, IsClosedBelow, arena_with, live_length};

use crate::Lit;
use crate::clause_head::ClauseHead;

/// Closes the gaps between the literals of live clauses, and gives the number of literals that are left, as many as
/// live clauses have: those behind them are nobody's.
pub(crate) fn close_gaps(heads: &mut [ClauseHead], literals: &mut [Lit]) -> usize
    requires { AreLaidOut heads.old literals.old }
    ensures laid_out { AreLaidOut heads.new (take result literals.new) }
    ensures tight { result ≡ sum_by live_length heads.new }
    ensures same { arena_with heads.new (take result literals.new) ≡ arena_with heads.old literals.old }
{
    let mut end = 0;
    for place in 0..heads.len() {
        end = slide_down(heads, literals, place, end);
    }
    end
}

/// Slides the literals of one clause down to where those of the clauses before it end, and gives its own end.
fn slide_down(heads: &mut [ClauseHead], literals: &mut [Lit], place: usize, end: usize) -> usize
    requires within { place < length heads.old }
    requires laid_out { AreLaidOut heads.old literals.old }
    requires closed { IsClosedBelow place end heads.old }
    ensures laid_out { AreLaidOut heads.new literals.new }
    ensures closed { IsClosedBelow (place + 1) result heads.new }
    ensures same { arena_with heads.new literals.new ≡ arena_with heads.old literals.old }
{
    let head = &mut heads[place];
    let start = head.start;
    let length = head.live_length();
    head.start = end;
    head.length = length;
    literals.copy_within(start..start + length, end);
    end + length
}
