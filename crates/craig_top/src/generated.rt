//! A run of the generator's script: a summary, and the reply to the last line.

ghost use Rattle.std.specs.Prelude.{◌≡◌, ◌≢◌, ◌≤◌, ◌⊎◌, ◌++◌, [], Some, Err, IfOk, OnOk};
ghost use Rattle.craig_io.specs.Faults.{Rose};
ghost use Rattle.craig_top.specs.Faults.{CountsFaults};
ghost use Rattle.craig_top.specs.GeneratedRun.{EndsGenerated, GeneratedPromise, GeneratedReply, RepliesToLast, generated_text, summary_line, summary_text};
ghost use Rattle.craig_top.specs.StopStatus.{status_of};

use crate::run::Stop;
use crate::session::Session;
use crate::settings::Settings;
use crate::status::Status;
use craig_io::{Sink, put_all};
use craig_script::{Lines, clause_count, greatest_variable, make, write_command};
use itoa::Buffer;
use std::alloc::{AllocError, Global};

/// Answers the generator's script of so many steps, from 1 to 60, and puts a summary of it and then the reply to its last
/// line to the sink. A limit is at least 1.
///
/// The summary is put whole before the script is answered, and no other reply is put. It ends with `Done`, with
/// `WriteFault` at the first write that fails, or with `NoMemory` where memory runs out.
pub fn run_generated<W: Sink>(alloc: Global, settings: Settings, steps: u32, sink: &mut W) -> Status
    requires limit { settings.limit ≢ Some 0 }
    requires some { 1 ≤ steps }
    requires few { steps ≤ 60 }
    ensures promise { GeneratedPromise settings steps result (W.contents sink.old) (W.contents sink.new) }
    ensures stops { EndsGenerated result }
    ensures write_fault { CountsFaults (result ≡ Status.WriteFault) (W.faults sink.old) (W.faults sink.new) }
    ensures complete { ¬ Rose (W.faults sink.old) (W.faults sink.new) → (result ≡ Status.Done) ⊎ (result ≡ Status.NoMemory) }
{
    match put_generated(alloc, settings, steps, sink) {
        Ok(()) => Status::Done,
        Err(Stop::NoMemory) => Status::NoMemory,
        Err(Stop::WriteFault) => Status::WriteFault,
    }
}

/// Puts the summary, and then the reply.
#[tactic(none)]
fn put_generated<W: Sink>(
    alloc: Global,
    settings: Settings,
    steps: u32,
    sink: &mut W,
) -> Result<(), Stop>
    requires limit { settings.limit ≢ Some 0 }
    requires some { 1 ≤ steps }
    requires few { steps ≤ 60 }
    ensures promise { GeneratedPromise settings steps (status_of result) (W.contents sink.old) (W.contents sink.new) }
    ensures write_fault { CountsFaults (result ≡ Err Stop.WriteFault) (W.faults sink.old) (W.faults sink.new) }
{
    let summary = summary(alloc, steps)?;
    put_all(sink, &summary)?;
    let reply = last_reply(alloc, settings, steps)?;
    put_all(sink, &reply)?;
    Ok(())
}

/// The lines that say how many steps, parts, clauses, variables and cuts the script has.
fn summary(alloc: Global, steps: u32) -> Result<Vec<u8>, AllocError>
    requires some { 1 ≤ steps }
    requires few { steps ≤ 60 }
    ensures { IfOk result (λ text. text.items ≡ summary_text steps) }
{
    let mut text = Vec::new(alloc);
    append_line(&mut text, b"gen", steps)?;
    append_line(&mut text, b"parts", steps + 1)?;
    append_line(&mut text, b"clauses", clause_count(steps))?;
    append_line(&mut text, b"variables", greatest_variable(steps))?;
    append_line(&mut text, b"cuts", steps + 2)?;
    Ok(text)
}

/// A word and a number, as a line.
fn append_line(out: &mut Vec<u8>, word: &[u8], number: u32) -> Result<(), AllocError>
    ensures { OnOk result (out.new.items ≡ out.old.items ++ summary_line word.now number) }
{
    let mut buffer = Buffer::new();
    out.extend_from_slice(word)?;
    out.extend_from_slice(b" ")?;
    out.extend_from_slice(buffer.format(number).as_bytes())?;
    out.extend_from_slice(b"\n")
}

/// The reply to the last line of the script, where a session with the settings answers all of them.
fn last_reply(alloc: Global, settings: Settings, steps: u32) -> Result<Vec<u8>, AllocError>
    requires limit { settings.limit ≢ Some 0 }
    requires some { 1 ≤ steps }
    requires few { steps ≤ 60 }
    ensures { IfOk result (λ reply. GeneratedReply settings steps reply.items) }
{
    let script = script(alloc, steps)?;
    let mut lines = Lines::new(alloc);
    lines.feed(&script)?;
    let mut session = Session::new(alloc, settings);
    let mut reply = Vec::new(alloc);
    answer_lines(&mut session, &mut lines, &mut reply)?;
    Ok(reply)
}

/// Answers each line that waits, in order. The reply to the last of them is left in `reply`, where there is one.
fn answer_lines(
    session: &mut Session,
    lines: &mut Lines,
    reply: &mut Vec<u8>,
) -> Result<(), AllocError>
    ensures { OnOk result (lines.old.ready ≢ [] → RepliesToLast session.old.state lines.old.ready reply.new.items) }
{
    while let Some(line) = lines.next() {
        reply.clear();
        session.answer(&line, reply)?;
    }
    Ok(())
}

/// The bytes of the script.
fn script(alloc: Global, steps: u32) -> Result<Vec<u8>, AllocError>
    requires some { 1 ≤ steps }
    requires few { steps ≤ 60 }
    ensures { IfOk result (λ text. text.items ≡ generated_text steps) }
{
    craig_script::laws::generated_scripts();
    let commands = make(alloc, steps)?;
    let mut text = Vec::new(alloc);
    for command in commands.as_slice() {
        write_command(command, &mut text)?;
    }
    Ok(text)
}
