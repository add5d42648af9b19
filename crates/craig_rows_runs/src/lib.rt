//! Rows of streams, scripts and whole runs: calls with what they have to answer.
//!
//! There is no code here, as in `craig_rows_solver`. One file has the rows of one crate, or of a part of it.
#![tactic(auto)]

#[cfg(test)]
mod io;
#[cfg(test)]
mod script;
#[cfg(test)]
mod script_texts;
#[cfg(test)]
mod top;
#[cfg(test)]
mod words;
