//! Which learnt clauses are the worse half.
//!
//! By the number of different levels of their literals, the glue: Audemard and Simon, "Predicting Learnt Clauses Quality
//! in Modern SAT Solvers", IJCAI 2009. Of one glue the older clauses are worse. Contracts promise nothing of it.
ghost use Rattle.std.specs.Prelude.{◌≡◌, ◌≤◌, true, IfSome};
ghost use Rattle.craig_base.specs.Arena.{IsLive};
ghost use Rattle.craig_search.specs.Reducing.{IsLearnt, IsUnkept};

use craig_base::ClauseId;
use craig_watch::Held;

/// A clause of at most so many levels is always good.
const LEAST_GLUE: usize = 2;

/// Clauses of so many levels or more count as one.
const MOST_GLUE: usize = 63;

/// The glue of which, and how many clauses of it, count as bad.
#[derive(Drop)]
pub struct Bar {
    // a clause of more levels is bad
    glue: usize,
    // how many clauses of exactly so many levels are bad, the older ones
    ties: usize,
}

impl Bar {
    /// The bar under which about half of the learnt clauses stand that are held from an id on.
    pub fn new(held: &Held, first: u64) -> Bar {
        let mut counts = [0usize; 64];
        let end = held.arena().given();
        for number in first..end {
            if let Some(glue) = glue_of(held, ClauseId(number)) {
                counts[glue] = counts[glue].saturating_add(1);
            }
        }
        let mut ties = half_of(&counts);
        let mut glue = MOST_GLUE;
        while glue > LEAST_GLUE && counts[glue] <= ties {
            ties -= counts[glue];
            glue -= 1;
        }
        Bar { glue, ties }
    }

    /// Whether a clause is bad. It is asked of each clause once, from older ones to newer ones.
    pub(crate) fn is_below(&mut self, held: &Held, id: ClauseId) -> bool
        ensures live { result ≡ true → IsLive held.now.arena id.0 }
        ensures unkept { result ≡ true → IsUnkept held.now.arena id.0 }
        ensures learnt { result ≡ true → IsLearnt held.now.arena id.0 }
    {
        let Some(glue) = glue_of(held, id) else {
            return false;
        };
        if glue != self.glue {
            return glue > self.glue;
        }
        let bad = self.ties > 0;
        self.ties = self.ties.saturating_sub(1);
        bad
    }
}

/// The glue of a clause that may go: one that is held, learnt, not marked as kept, and of more than two levels.
fn glue_of(held: &Held, id: ClauseId) -> Option<usize>
    ensures few { IfSome result (λ glue. glue ≤ 63) }
    ensures live { IfSome result (λ glue. IsLive held.now.arena id.0) }
    ensures unkept { IfSome result (λ glue. IsUnkept held.now.arena id.0) }
    ensures learnt { IfSome result (λ glue. IsLearnt held.now.arena id.0) }
{
    if !held.arena().live(id) {
        return None;
    }
    let flags = held.arena().flags(id);
    let glue = flags.glue as usize;
    if flags.learnt && !flags.kept && glue > LEAST_GLUE {
        return Some(glue.min(MOST_GLUE));
    }
    None
}

/// Half of the sum of the numbers.
fn half_of(counts: &[usize]) -> usize {
    let mut sum: usize = 0;
    for count in counts {
        sum = sum.saturating_add(*count);
    }
    sum / 2
}
