//! The numbers of a line.
ghost use Rattle.std.specs.Prelude.{◌≡◌, ◌<◌, ℕ, All};
ghost use Rattle.craig_spec.specs.AigerReading.{numbers_in};

use crate::cut::cut_at;
use crate::decimal::number_of;
use std::marker::Model;

const MOST: usize = 9;

/// At most nine numbers, each below 10 ^ 18.
#[derive(Drop)]
pub(crate) struct Numbers {
    values: [u64; 9],
    count: usize,
}

impl Model for Numbers {
    ghost use Rattle.std.specs.Prelude.{◌<◌, ◌≤◌, List, ℕ, All, take};

    ghost Value = { List ℕ };

    ghost view = { λ n. take n.count n.values };

    ghost invariant = { λ n. (n.count ≤ 9) × All (λ x. x < 1000000000000000000) (take n.count n.values) };
}

impl Numbers {
    /// The numbers, first to last.
    pub(crate) fn as_slice(&self) -> &[u64]
        ensures numbers { result.now ≡ self.now }
        ensures small { All (λ x. x < 1000000000000000000) result.now }
    {
        &self.values[..self.count]
    }
}

/// The numbers of a line, with one space between them, if it has no more than nine and nothing else.
pub(crate) fn numbers_of(line: &[u8]) -> Option<Numbers>
    ensures { result ≡ numbers_in line.now }
{
    let mut values = [0; 9];
    let mut count = 0;
    let mut rest = Some(line);
    while let Some(words) = rest {
        if count == MOST {
            return None;
        }
        let (word, behind) = cut_at(words, b' ');
        values[count] = number_of(word)?;
        count += 1;
        rest = behind;
    }
    Some(Numbers { values, count })
}
