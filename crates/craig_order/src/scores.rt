//! Scores of variables, by which those of recent conflicts come first.
//!
//! Raises that grow exponentially in place of scores that fall: Eén and Sörensson, "An Extensible SAT-solver", SAT 2003;
//! Biere and Fröhlich, "Evaluating CDCL Variable Scoring Schemes", SAT 2015. Scores are whole numbers here, and all are
//! divided before one passes the end of its type; so what was raised long ago counts as never raised.
ghost use Rattle.std.specs.Prelude.{◌≡◌, ◌<◌, ◌≤◌, All, OnOk, OnErr, length, max};

use std::alloc::{AllocError, Global};
use std::marker::Model;

/// A raise at first.
const FIRST_INCREMENT: u64 = 17592186044416;

/// Scores and raises above it are divided.
const LIMIT: u64 = 4611686018427387904;

/// What all scores and the raise are divided by.
const DIVISOR: u64 = 65536;

/// A score for each variable below a number, which is all that contracts see.
#[derive(Drop)]
pub(crate) struct Scores {
    // by variable
    scores: Vec<u64>,
    // what is added where a score is raised
    increment: u64,
}

impl Model for Scores {
    ghost use Rattle.std.specs.Prelude.{ℕ, ◌≤◌, length};

    ghost Value = { ℕ };

    ghost view = { λ s. length s.scores.items };

    ghost invariant = { λ s. s.increment ≤ 4611686018427387904 };
}

impl Scores {
    /// No score, which takes no memory.
    pub(crate) fn new(alloc: Global) -> Scores
        ensures { result ≡ 0 }
    {
        Scores {
            scores: Vec::new(alloc),
            increment: FIRST_INCREMENT,
        }
    }

    /// Makes scores of 0 until there are as many. After an error there are as many as before.
    pub(crate) fn grow(&mut self, count: usize) -> Result<(), AllocError>
        ensures grown { OnOk result (self.new ≡ max self.old count) }
        ensures unchanged { OnErr result (self.new ≡ self.old) }
    {
        if count > self.scores.len() {
            self.scores.resize(count, 0)?;
        }
        Ok(())
    }

    /// The score of a variable.
    pub(crate) fn of(&self, var: usize) -> u64
        requires { var < self.now }
    {
        self.scores[var]
    }

    /// Raises the score of a variable.
    pub(crate) fn bump(&mut self, var: usize)
        requires { var < self.old }
        ensures { self.new ≡ self.old }
    {
        if self.scores[var] > LIMIT {
            self.increment /= DIVISOR;
            divide_each(self.scores.as_mut_slice());
        }
        self.scores[var] += self.increment;
    }

    /// Makes later raises count for more, by one part in nineteen.
    pub(crate) fn decay(&mut self)
        ensures { self.new ≡ self.old }
    {
        self.increment += self.increment / 19;
        if self.increment > LIMIT {
            self.increment /= DIVISOR;
            divide_each(self.scores.as_mut_slice());
        }
    }
}

/// Divides all scores.
fn divide_each(scores: &mut [u64])
    ensures { All (λ s. s ≤ 281474976710656) scores.new }
{
    for score in scores.iter_mut() {
        *score /= DIVISOR;
    }
}
