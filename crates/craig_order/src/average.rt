//! A moving average, in fixed point.
//!
//! Biere and Fröhlich, "Evaluating CDCL Restart Schemes", POS 2015: each number counts for one part in a window, and what
//! came before fades. Before as many came as the window has, it is their mean.
ghost use Rattle.std.specs.Prelude.{◌≤◌};

/// A number of 1 in fixed point.
const ONE: u64 = 16777216;

/// The greatest number of 32 bits in fixed point.
const GREATEST: u64 = 72057594021150720;

/// The average of numbers of 32 bits.
#[derive(Drop)]
pub(crate) struct Average {
    // in fixed point
    value: u64,
    // how many numbers count, at most as many as the window has
    counted: u64,
    window: u64,
    ghost in_range: { value ≤ 72057594021150720 },
}

impl Average {
    /// The average of no number, which is 0, over a window of the size.
    pub(crate) fn new(window: u64) -> Average {
        Average {
            value: 0,
            counted: 0,
            window,
        }
    }

    /// Takes one number more into the average.
    pub(crate) fn add(&mut self, number: u32) {
        if self.counted < self.window {
            self.counted += 1;
        }
        let count = self.counted.max(1);
        let falls = self.value / count;
        let rises = number as u64 * ONE / count;
        self.value = (self.value - falls + rises).min(GREATEST);
    }

    /// Whether it is above another one by more than a tenth of that.
    pub(crate) fn is_well_above(&self, other: &Average) -> bool {
        self.value * 10 > other.value * 11
    }
}
