//! The names of outputs.
ghost use Rattle.std.specs.Prelude.{Some};
ghost use Rattle.craig_aiger.specs.OutNames.{name_text};

use crate::Family;
use std::fmt;

/// The name of an output: a cut, and the system where several are written side by side.
/// It prints as the number of the cut, after the letter of the family where one is given.
#[derive(Clone, Copy, Debug, PartialEq, Eq, PartialOrd, Ord, Hash)]
pub struct OutName {
    /// The system, where several are written.
    pub family: Option<Family>,
    /// The number of parts on the A side.
    pub cut: u32,
}

impl fmt::Display for OutName {
    ghost output = { λ n. Some (name_text n) };

    fn fmt<W: fmt::Write>(&self, f: &mut fmt::Formatter<W>) -> fmt::Result {
        let cut = self.cut;
        match self.family {
            None => write!(f, "{cut}"),
            Some(Family::McMillan) => write!(f, "m{cut}"),
            Some(Family::Pudlak) => write!(f, "p{cut}"),
            Some(Family::Inverse) => write!(f, "i{cut}"),
        }
    }
}
