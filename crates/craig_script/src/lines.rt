//! The lines of a stream that comes in pieces.
//!
//! A piece is gone over once: it is cut at its newlines, each cut goes onto the line that is being gathered,
//! and a whole line is moved out. Of a line past the limit no more is kept than tells that it is overlong.

ghost use Rattle.std.specs.Prelude.{◌≡◌, ℕ, ◌+◌, ◌<◌, ◌≤◌, Bool, true, false, List, [], ◌∷◌, ◌++◌, length, map, IsTrue, IfSome, IfNone, IfOk, OnOk, OnErr};
ghost use Rattle.std.specs.List.{position};
ghost use Rattle.craig_script.specs.Lines.{unended, before_first_byte, fed, ended, line_of, cut_back, is_newline, has_newline, IsPartial};

use crate::bytes::Bytes;
use crate::line::Line;
use std::alloc::{AllocError, Global};
use std::collections::VecDeque;
use std::marker::Model;
use std::mem;

/// The most bytes of a line, its newline not counted.
pub const LINE_LIMIT: usize = 1048576;

/// The byte that ends a line.
const NEWLINE: u8 = b'\n';

/// A stream of bytes that is cut into lines as it comes.
#[derive(Debug, Drop)]
pub struct Lines {
    // for the bytes of the next line
    alloc: Global,
    // whole lines that wait to be given
    ready: VecDeque<Line>,
    // what has come of the next line, cut off where it is enough to be overlong
    partial: Bytes,
    // whether the stream has ended
    finished: bool,
}

impl Model for Lines {
    ghost use Rattle.craig_script.specs.Lines.{LinesView, IsPartial};

    ghost Value = { LinesView };

    ghost view = { λ l. record { ready = l.ready.items; partial = l.partial; finished = l.finished } };

    ghost invariant = { λ l. IsPartial l.partial };
}

impl Lines {
    /// Nothing has come yet. It takes no memory.
    pub fn new(alloc: Global) -> Lines
        ensures { result ≡ before_first_byte }
    {
        Lines {
            alloc,
            ready: VecDeque::new(alloc),
            partial: Bytes::new(alloc),
            finished: false,
        }
    }

    /// Takes the next piece of the stream. Its whole lines wait for `next`. After an `Err` it may be fed
    /// again, as if it hadn't come.
    pub fn feed(&mut self, bytes: &[u8]) -> Result<(), AllocError>
        requires { self.old.finished ≡ false }
        ensures ok { OnOk result (self.new ≡ fed self.old bytes.now) }
        ensures err { OnErr result (self.new ≡ self.old) }
    {
        take_in(self.alloc, &mut self.ready, &mut self.partial, bytes)
    }

    /// The stream has ended. What has come of the next line is a line where it has a byte. After an error, for which
    /// only want of memory is a cause, the value is as before.
    pub fn finish(&mut self) -> Result<(), AllocError>
        ensures ok { OnOk result (self.new ≡ ended self.old) }
        ensures err { OnErr result (self.new ≡ self.old) }
    {
        if !self.partial.is_empty() {
            self.ready.reserve(1)?;
            let last = mem::replace(&mut self.partial, Bytes::new(self.alloc));
            self.ready.push_back_reserved(line_in(last));
        }
        self.finished = true;
        Ok(())
    }

    /// The next line, or `None` where no whole line is left. It takes no memory.
    pub fn next(&mut self) -> Option<Line>
        ensures none { IfNone result ((self.old.ready ≡ []) × (self.new ≡ self.old)) }
        ensures some { IfSome result (λ line. (self.old.ready ≡ line ∷ self.new.ready)
            × (self.new ≡ record self.old { ready = self.new.ready })) }
    {
        self.ready.pop_front()
    }
}

/// Takes a piece in. All that may fail comes before the first change that shows.
fn take_in(
    alloc: Global,
    ready: &mut VecDeque<Line>,
    partial: &mut Bytes,
    bytes: &[u8],
) -> Result<(), AllocError>
    requires { IsPartial partial.old }
    ensures partial { IsPartial partial.new }
    ensures ok { OnOk result (unended ready.new.items partial.new ≡ fed (unended ready.old.items partial.old) bytes.now) }
    ensures err { OnErr result ((ready.new.items ≡ ready.old.items) × (partial.new ≡ partial.old)) }
{
    let Some((front, behind)) = split_line(bytes) else {
        return keep(partial, bytes);
    };
    let (mut lines, last) = cut_lines(alloc, behind)?;
    ready.reserve(lines.len() + 1)?;
    keep(partial, front)?;
    ready.push_back_reserved(line_in(mem::replace(partial, last)));
    ready.append(&mut lines)
}

/// The whole lines of the bytes, and what is kept of the part after the last newline.
fn cut_lines(alloc: Global, bytes: &[u8]) -> Result<(VecDeque<Line>, Bytes), AllocError>
    ensures { IfOk result (λ cut. IsPartial cut.1 × (unended cut.0.items cut.1 ≡ fed before_first_byte bytes.now)) }
{
    let mut lines = VecDeque::new(alloc);
    let mut partial = Bytes::new(alloc);
    let mut rest = bytes;
    while let Some((front, behind)) = split_line(rest) {
        keep(&mut partial, front)?;
        let whole = mem::replace(&mut partial, Bytes::new(alloc));
        lines.push_back(line_in(whole))?;
        rest = behind;
    }
    keep(&mut partial, rest)?;
    Ok((lines, partial))
}

/// A line of these bytes.
fn line_in(bytes: Bytes) -> Line
    ensures { result ≡ line_of bytes }
{
    if bytes.len() > LINE_LIMIT {
        Line::Overlong
    } else {
        Line::Text(bytes)
    }
}

/// Takes as many of the bytes as still tell what the line is.
fn keep(partial: &mut Bytes, bytes: &[u8]) -> Result<(), AllocError>
    requires partial { IsPartial partial.old }
    requires open_ended { has_newline bytes.now ≡ false }
    ensures partial { IsPartial partial.new }
    ensures ok { OnOk result (partial.new ≡ cut_back (partial.old ++ bytes.now)) }
    ensures err { OnErr result (partial.new ≡ partial.old) }
{
    let room = LINE_LIMIT + 1 - partial.len();
    let fitting = room.min(bytes.len());
    partial.extend_from_slice(&bytes[..fitting])
}

/// What stands before the first newline and what stands behind it.
fn split_line(bytes: &[u8]) -> Option<(&[u8], &[u8])>
    ensures none { IfNone result (has_newline bytes.now ≡ false) }
    ensures some { IfSome result (λ cut. (bytes.now ≡ cut.0.now ++ 10 ∷ cut.1.now) × (has_newline cut.0.now ≡ false)) }
{
    let end = newline_position(bytes)?;
    Some((&bytes[..end], &bytes[end + 1..]))
}

/// Where the first newline stands.
fn newline_position(bytes: &[u8]) -> Option<usize>
    ensures { result ≡ position is_newline bytes.now }
{
    bytes.iter().position(|byte| *byte == NEWLINE)
}
