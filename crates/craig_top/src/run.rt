//! A script from a source, answered line by line to a sink.
//!
//! What was read is cut into lines. Their replies are gathered, and put as soon as they have 65536 bytes and in any
//! case before the next read and before the run ends, unless a write failed. Between two reads the text put is a
//! transcript of the lines whose newline was read: that is the invariant. How long a read or a write takes is not promised.

ghost use Rattle.std.specs.Prelude.{◌≡◌, ◌≢◌, ℕ, ◌<◌, ◌≤◌, ◌+◌, List, [], false, length, vec_len, Option, Some, Err, OnOk, IfOk, IfErr, OnErr};
ghost use Rattle.craig_script.specs.Lines.{fed, ended};
ghost use Rattle.craig_top.specs.GivenState.{start, after};
ghost use Rattle.craig_top.specs.Emptied.{emptied};
ghost use Rattle.craig_top.specs.Faults.{CountsFaults};
ghost use Rattle.craig_top.specs.Ending.{Promise, EndsDoneIfQuiet};
ghost use Rattle.craig_top.specs.StopStatus.{status_of};
ghost use Rattle.craig_top.specs.declared.settings.Settings.{Settings};

use crate::session::Session;
use crate::settings::Settings;
use crate::status::Status;
use craig_io::{Failed, Sink, Source, put_all};
use craig_script::{Line, Lines};
use std::alloc::{AllocError, Global};

/// The most bytes that one read asks for.
const READ_SIZE: usize = 65536;

/// How many bytes of replies are gathered before they are put.
const ENOUGH: usize = 65536;

/// Why lines are answered no further.
#[derive(Clone, Copy, Debug, PartialEq, Eq)]
pub enum Stop {
    /// Memory ran out.
    NoMemory,
    /// A write failed.
    WriteFault,
}

impl From<AllocError> for Stop {
    ghost use Rattle.std.specs.Prelude.{◌≡◌};
    ghost use Rattle.craig_top.specs.declared.run.Stop.TheVariants.{NoMemory};

    ghost from_gives = { λ _ stop. stop ≡ NoMemory };

    fn from(_error: AllocError) -> Stop {
        Stop::NoMemory
    }
}

impl From<Failed> for Stop {
    ghost use Rattle.std.specs.Prelude.{◌≡◌};
    ghost use Rattle.craig_top.specs.declared.run.Stop.TheVariants.{WriteFault};

    ghost from_gives = { λ _ stop. stop ≡ WriteFault };

    fn from(_failed: Failed) -> Stop {
        Stop::WriteFault
    }
}

impl Stop {
    /// The status of a run that stops so.
    fn status(self) -> Status
        ensures { result ≡ status_of (Err self) }
    {
        match self {
            Stop::NoMemory => Status::NoMemory,
            Stop::WriteFault => Status::WriteFault,
        }
    }
}

/// The lines of a script as they come, and the session that answers them.
#[derive(Drop)]
struct Run {
    /// What answers.
    session: Session,
    /// What came of the script and is not answered yet.
    lines: Lines,
    /// The replies that are gathered and not put yet, or were put last.
    replies: Vec<u8>,
}

impl Run {
    ghost use Rattle.std.specs.Prelude.{true};
    ghost use Rattle.craig_top.specs.Appended.{AppendsText};
    ghost use Rattle.craig_top.specs.Gathered.{Gathers};
    ghost use Rattle.craig_top.specs.GivenState.{next};
    ghost use Rattle.craig_top.specs.Progress.{Progress, StepLeaves, IsStop};
    ghost use Rattle.craig_top.specs.Puts.{PutsReplies, StopsIn};
    ghost use Rattle.craig_top.specs.Reply.{Reply};
    ghost use Rattle.craig_top.specs.Transcript.{BeginsTranscript};

    /// Answers a line. Its reply is gathered behind the others, whole or, after an error, not at all.
    fn answer(&mut self, line: &Line) -> Result<(), AllocError>
        ensures reply { OnOk result (AppendsText self.old.replies.items self.new.replies.items (Reply self.old.session.state line.now)) }
        ensures state { OnOk result (self.new.session.state ≡ next self.old.session.state line.now) }
        ensures lines { self.new.lines ≡ self.old.lines }
        ensures unchanged { OnErr result (self.new.replies.items ≡ self.old.replies.items) }
    {
        let whole = self.replies.len();
        let answered = self.session.answer(line, &mut self.replies);
        if answered.is_err() {
            self.replies.truncate(whole);
        }
        answered
    }

    /// Answers lines that wait, in order, until their replies are enough to be put or none waits. Says whether the
    /// replies were enough: then lines may wait still. After an error the replies gathered so far are whole.
    fn gather(&mut self) -> Result<bool, AllocError>
        ensures gathered { OnOk result (Gathers self.old.session.state self.new.session.state self.old.lines self.new.lines self.new.replies.items) }
        ensures whole { BeginsTranscript self.old.session.state self.old.lines.ready self.new.replies.items }
        ensures enough { IfOk result (λ enough. enough ≡ true → 65536 ≤ length self.new.replies.items) }
        ensures all { IfOk result (λ enough. enough ≡ false → self.new.lines.ready ≡ []) }
    {
        self.replies.clear();
        while self.replies.len() < ENOUGH {
            let Some(line) = self.lines.next() else {
                return Ok(false);
            };
            self.answer(&line)?;
        }
        Ok(true)
    }

    /// Answers each line that waits, in order, and puts the replies: those that are whole also where memory runs out.
    fn answer_ready<W: Sink>(&mut self, sink: &mut W) -> Result<(), Stop>
        ensures lines { OnOk result (self.new.lines ≡ emptied self.old.lines) }
        ensures session { OnOk result (self.new.session.state ≡ after self.old.session.state self.old.lines.ready) }
        ensures put { OnOk result (PutsReplies self.old.session.state self.old.lines (W.contents sink.old) (W.contents sink.new)) }
        ensures stopped { IfErr result (StopsIn self.old.session.state self.old.lines (W.contents sink.old) (W.contents sink.new)) }
        ensures write_fault { CountsFaults (result ≡ Err Stop.WriteFault) (W.faults sink.old) (W.faults sink.new) }
    {
        loop {
            let gathered = self.gather();
            put_all(sink, &self.replies)?;
            let enough = gathered?;
            if !enough {
                return Ok(());
            }
        }
    }

    /// Takes the next bytes of the script, and answers the lines that are whole with them.
    fn take<W: Sink>(&mut self, bytes: &[u8], sink: &mut W) -> Result<(), Stop>
        requires { self.old.lines.finished ≡ false }
        ensures lines { OnOk result (self.new.lines ≡ emptied (fed self.old.lines bytes.now)) }
        ensures session { OnOk result (self.new.session.state ≡ after self.old.session.state (fed self.old.lines bytes.now).ready) }
        ensures put { OnOk result (PutsReplies self.old.session.state (fed self.old.lines bytes.now) (W.contents sink.old) (W.contents sink.new)) }
        ensures stopped { IfErr result (StopsIn self.old.session.state (fed self.old.lines bytes.now) (W.contents sink.old) (W.contents sink.new)) }
        ensures write_fault { CountsFaults (result ≡ Err Stop.WriteFault) (W.faults sink.old) (W.faults sink.new) }
    {
        self.lines.feed(bytes)?;
        self.answer_ready(sink)
    }

    /// The script has ended: answers a last line without its newline.
    fn end<W: Sink>(&mut self, sink: &mut W) -> Result<(), Stop>
        ensures put { OnOk result (PutsReplies self.old.session.state (ended self.old.lines) (W.contents sink.old) (W.contents sink.new)) }
        ensures stopped { IfErr result (StopsIn self.old.session.state (ended self.old.lines) (W.contents sink.old) (W.contents sink.new)) }
        ensures write_fault { CountsFaults (result ≡ Err Stop.WriteFault) (W.faults sink.old) (W.faults sink.new) }
    {
        self.lines.finish()?;
        self.answer_ready(sink)
    }

    /// Reads once, at most 65536 bytes, and answers the lines that are whole then, at the end of the input also a last one without its
    /// newline. Answers how many bytes were read, 0 at the end, or the status of a run that stops.
    fn step<R: Source, W: Sink>(
        &mut self,
        source: &mut R,
        sink: &mut W,
        piece: &mut [u8],
    ) -> Result<usize, Status>
        requires piece { 0 < length piece.old }
        requires size { length piece.old ≤ 65536 }
        requires open { self.old.lines.finished ≡ false }
        ensures bound { IfOk result (λ count. count ≤ length piece.new) }
        ensures open { IfOk result (λ count. 0 < count → self.new.lines.finished ≡ false) }
        ensures leaves { (settings : Settings) (bound : ℕ) (left_before held_before : Option (List ℕ)) (taken : List ℕ)
            → Progress settings left_before held_before (R.remaining source.old) (W.contents sink.old) self.old.session.state self.old.lines taken
            → length taken + length piece.old ≤ bound
            → StepLeaves settings bound left_before held_before (R.remaining source.new) (W.contents sink.new) self.new.session.state self.new.lines taken piece.new result }
        ensures no_other { IfErr result IsStop }
        ensures read_fault { CountsFaults (result ≡ Err Status.ReadFault) (R.faults source.old) (R.faults source.new) }
        ensures write_fault { CountsFaults (result ≡ Err Status.WriteFault) (W.faults sink.old) (W.faults sink.new) }
    {
        match source.read(piece) {
            Err(_) => Err(Status::ReadFault),
            Ok(0) => match self.end(sink) {
                Ok(()) => Ok(0),
                Err(stop) => Err(stop.status()),
            },
            Ok(count) => match self.take(&piece[..count], sink) {
                Ok(()) => Ok(count),
                Err(stop) => Err(stop.status()),
            },
        }
    }

    /// Reads and answers until the input ends, the bound is reached or the run stops. A read asks for no more bytes
    /// than the buffer holds.
    fn read_to_end<R: Source, W: Sink>(
        &mut self,
        source: &mut R,
        sink: &mut W,
        buffer: &mut [u8],
        bound: u64,
    ) -> Status
        requires buffer { 0 < length buffer.old }
        requires size { length buffer.old ≤ 65536 }
        requires bound { 0 < bound }
        requires open { self.old.lines.finished ≡ false }
        ensures promise { (settings : Settings) (left held : Option (List ℕ))
            → Progress settings left held (R.remaining source.old) (W.contents sink.old) self.old.session.state self.old.lines []
            → Promise settings bound result left (R.remaining source.new) held (W.contents sink.new) }
        ensures no_usage { result ≢ Status.Usage }
        ensures read_fault { CountsFaults (result ≡ Status.ReadFault) (R.faults source.old) (R.faults source.new) }
        ensures write_fault { CountsFaults (result ≡ Status.WriteFault) (W.faults sink.old) (W.faults sink.new) }
    {
        let mut left = bound;
        while left > 0 {
            let size = left.min(buffer.len() as u64) as usize;
            match self.step(source, sink, &mut buffer[..size]) {
                Ok(0) => return Status::Done,
                Ok(count) => left -= count as u64,
                Err(status) => return status,
            }
        }
        Status::TooLong
    }
}

/// Answers the script that the source has, line by line, to the sink. `bound` counts bytes. A limit is at least 1.
///
/// Each read asks for at most 65536 bytes, and for no more than are left to the bound. It ends with `Done` at the end
/// of the input, with `ReadFault` or `WriteFault` at the first read or write that fails, with `TooLong` as soon as
/// `bound` bytes were read and the lines among them answered, and with `NoMemory` where memory runs out. It never
/// ends with `Usage`.
pub fn run_script<R: Source, W: Sink>(
    alloc: Global,
    settings: Settings,
    bound: u64,
    source: &mut R,
    sink: &mut W,
) -> Status
    requires bound { 0 < bound }
    requires settings { settings.limit ≢ Some 0 }
    ensures promise { Promise settings bound result (R.remaining source.old) (R.remaining source.new) (W.contents sink.old) (W.contents sink.new) }
    ensures no_usage { result ≢ Status.Usage }
    ensures read_fault { CountsFaults (result ≡ Status.ReadFault) (R.faults source.old) (R.faults source.new) }
    ensures write_fault { CountsFaults (result ≡ Status.WriteFault) (W.faults sink.old) (W.faults sink.new) }
    ensures complete { EndsDoneIfQuiet bound result (R.remaining source.old) R.faults source.old source.new W.faults sink.old sink.new }
{
    let Ok(mut buffer) = zeroed(alloc, READ_SIZE) else {
        return Status::NoMemory;
    };
    let mut run = Run {
        session: Session::new(alloc, settings),
        lines: Lines::new(alloc),
        replies: Vec::new(alloc),
    };
    run.read_to_end(source, sink, &mut buffer, bound)
}

/// So many bytes, all 0.
fn zeroed(alloc: Global, size: usize) -> Result<Vec<u8>, AllocError>
    ensures { IfOk result (λ bytes. vec_len bytes ≡ size) }
{
    vec![in alloc; 0; size]
}
