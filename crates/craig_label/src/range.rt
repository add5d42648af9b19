//! The parts that a variable occurs in, by the first and the last of them: they tell its side at every cut.
ghost use Rattle.std.specs.Prelude.{◌≡◌};
ghost use Rattle.craig_label.specs.Sides.{widened};

use craig_base::Part;
use std::marker::Model;

/// The first and the last part that a variable was noted in. Part 0 comes before the others, so that a first part 0
/// tells of a common variable.
#[derive(Clone, Copy, Debug)]
pub struct PartRange {
    // the first part, which may be 0
    pub(crate) first: u16,
    // the last part
    pub(crate) last: u16,
}

impl Model for PartRange {
    ghost use Rattle.craig_label.specs.Sides.{Range};

    ghost Value = { Range };

    ghost view = { λ r. record { first = r.first; last = r.last } };

    ghost inverse = { λ r. record { first = r.first; last = r.last } };
}

impl PartRange {
    /// The range with one part more.
    pub(crate) fn widened(range: Option<PartRange>, part: Part) -> PartRange
        ensures { result ≡ widened range part.0 }
    {
        let only = PartRange {
            first: part.0,
            last: part.0,
        };
        range.map_or(
            only,
            |known| PartRange {
                first: known.first.min(part.0),
                last: known.last.max(part.0),
            },
        )
    }
}
