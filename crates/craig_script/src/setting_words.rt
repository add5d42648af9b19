//! The words that a script or the program's command line names settings by.

/// A system of interpolation, or all three that are compared by strength.
#[derive(Clone, Copy, Debug, PartialEq, Eq)]
pub enum SystemWord {
    /// McMillan, CAV 2003.
    McMillan,
    /// Pudlák, Journal of Symbolic Logic 1997.
    Pudlak,
    /// The dual of McMillan's system.
    Inverse,
    /// The dual of Pudlák's system.
    Dual,
    /// Labels by the mark of each variable.
    Marks,
    /// McMillan's, Pudlák's and the inverse system beside one another.
    All,
}

/// The label of a variable that occurs on both sides of a cut, under the system of marks.
#[derive(Clone, Copy, Debug, PartialEq, Eq)]
pub enum MarkWord {
    /// It counts as one of side A.
    A,
    /// It counts as one of both sides.
    Ab,
    /// It counts as one of side B.
    B,
}

/// The format in which circuits are written.
#[derive(Clone, Copy, Debug, PartialEq, Eq)]
pub enum FormatWord {
    /// AIGER in its ASCII form.
    Aag,
    /// AIGER in its binary form.
    Aig,
    /// Clauses with a fresh variable for each gate.
    Cnf,
}
