//! The edge to the outside: sources and sinks of bytes, in memory and over std, with counts of faults.
//!
//! `Source` and `Sink` say what a read and a write do to the bytes left and to the bytes held, where
//! those are told. An answer `Failed` comes only in a call in which the count of faults rose, so that
//! a caller which stops at it can show why. `put_all` writes a whole text. `MemSource` and `MemSink`
//! fail at the calls that they are given, `StdSource` and `StdSink` where std's reader or writer does.
#![tactic(auto)]

mod calls;
mod failure;
mod mem_sink;
mod mem_source;
mod put;
mod sink;
mod source;
mod std_sink;
mod std_source;

pub use failure::Failed;
pub use mem_sink::MemSink;
pub use mem_source::MemSource;
pub use put::put_all;
pub use sink::Sink;
pub use source::Source;
pub use std_sink::StdSink;
pub use std_source::StdSource;
