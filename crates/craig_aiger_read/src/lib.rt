//! The reading of an AIGER text.
//!
//! After Biere, Heljanko and Wieringa, AIGER 1.9 and beyond, 2011. A text may be any bytes: it is a file with latches,
//! bad literals, symbols and comments, or the first fault.
#![tactic(auto)]

mod aiger_error;
mod assembly;
mod binary_gates;
mod binary_latch;
mod binary_reading;
mod circuit;
mod counts;
mod cut;
mod decimal;
mod depths;
mod gate;
mod gate_line;
mod gate_list;
mod header;
mod input_line;
mod input_list;
mod latch;
mod latch_line;
mod latch_list;
pub mod laws;
mod line_numbers;
mod moving;
mod name;
mod naming;
mod order;
mod reading;
mod reset;
mod root;
mod root_line;
mod root_list;
mod seven_bits;
mod symbols;
mod text_line;
mod variables;
mod written;

pub use aiger_error::AigerError;
pub use circuit::Circuit;
pub use gate::Gate;
pub use gate_list::Gates;
pub use input_list::Inputs;
pub use latch::Latch;
pub use latch_list::Latches;
pub use name::Name;
pub use reading::read;
pub use reset::Reset;
pub use root::Root;
pub use root_list::Roots;
