//! A line of the script.

use crate::bytes::Bytes;

/// A line of the script, without its newline.
#[derive(Debug, Drop)]
pub enum Line {
    /// The bytes of the line.
    Text(Bytes),
    /// The line is longer than the limit. Nothing of it is kept.
    Overlong,
}
