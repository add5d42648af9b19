//! The words of the command line: what the program's user sets before a script is read.
//!
//! `clap` reads the words as options of a simple command, and the readers of `craig_script` their values.
#![tactic(auto)]

mod command;
pub mod laws;
mod reading;
mod values;
mod words;

pub use reading::read_words;
pub use words::{Words, WordsFault};
