//! Circuits as AIGER texts: the layout of the cones of some edges, and its text in either form.
//!
//! After Biere, Heljanko and Wieringa, AIGER 1.9 and beyond, 2011. A layout numbers the inputs in the cones by rising
//! script variable, and then the gates in the order of the arena. Each text is an explicit list of bytes. What reads
//! texts is `craig_aiger_read`, whose items are passed on.
#![tactic(auto)]

mod binary_size;
mod binary_writing;
mod family;
mod form;
mod layout;
mod needed;
mod node_numbers;
mod out_name;
mod script_inputs;
mod text_size;
mod writing;

pub use craig_aiger_read::{
    AigerError, Circuit, Gate, Gates, Inputs, Latch, Latches, Name, Reset, Root, Roots, read,
};
pub use family::Family;
pub use form::Form;
pub use layout::Layout;
pub use out_name::OutName;
