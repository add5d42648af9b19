//! The script: bytes to lines, and a line to a command.
//!
//! `Lines` takes a stream in pieces and gives its lines, however it was cut. `parse` reads a line as a
//! command by the grammar alone, and `admit` then tests its parts and variables against their ranges.
//! Variables are the script's own here: whole numbers from 1 on, signed in a literal. `write_command` writes
//! the line of a command, and `make` makes the commands of a whole script.
#![tactic(auto)]

mod admission;
mod bytes;
mod command;
mod commands;
mod cut_word;
mod generator;
pub mod laws;
mod line;
mod lines;
mod literal;
mod numbers;
mod pairs;
mod reading;
mod refusal;
mod setting_words;
mod words;
mod writing;

pub use admission::admit;
pub use bytes::Bytes;
pub use command::Command;
pub use commands::Commands;
pub use cut_word::CutWord;
pub use generator::{clause_count, greatest_variable, make};
pub use line::Line;
pub use lines::{LINE_LIMIT, Lines};
pub use literal::number_in;
pub use numbers::Numbers;
pub use pairs::Pairs;
pub use reading::{format_named, parse, system_named};
pub use refusal::{LineFault, Refusal};
pub use setting_words::{FormatWord, MarkWord, SystemWord};
pub use writing::write_command;
