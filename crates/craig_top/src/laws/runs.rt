//! What a run has taken and put, by its status.

ghost use Rattle.std.specs.Prelude.{◌≡◌, ℕ, ◌<◌, ◌≤◌, List, [], length, Some};
ghost use Rattle.craig_script.specs.declared.line.Line.{Line};
ghost use Rattle.craig_script.specs.Lines.{script_lines};
ghost use Rattle.craig_top.specs.GivenState.{State};
ghost use Rattle.craig_top.specs.PutReplies.{AreFirstReplies, AreReplies, FaultlessRunsEnd, IsBrokenOff, IsDoneOrNoMemory, RunsPut, RunsTake, StandsBehind, TakenAreAnswered, Takes};
ghost use Rattle.craig_top.specs.Transcript.{BeginsTranscript, BreaksOff, Transcript};

use crate::status::Status;

/// A transcript is one allowed reply for each line, in order, each in the state that the lines before it left. One that
/// begins so has the replies to the first lines, and one that breaks off the front of a reply to the next line behind them.
pub fn replies_of_a_transcript()
    ensures whole { (state : State) (lines : List Line) (text : List ℕ) → Transcript state lines text → AreReplies state lines text }
    ensures begun { (state : State) (lines : List Line) (text : List ℕ) → BeginsTranscript state lines text → AreFirstReplies state lines text }
    ensures broken_off { (state : State) (lines : List Line) (text : List ℕ) → BreaksOff state lines text → IsBrokenOff state lines text }
{}

/// Which bytes a run has taken of a source that tells them, by its status: all of fewer than the bound, none, fewer
/// than the bound, or as many as the bound.
pub fn bytes_taken()
    ensures done { RunsTake Status.Done (λ bound all left. (left ≡ Some []) × (length all < bound)) }
    ensures usage { RunsTake Status.Usage (λ bound all left. left ≡ Some all) }
    ensures read_fault { RunsTake Status.ReadFault (λ bound all left. Takes all left (λ taken. length taken < bound)) }
    ensures write_fault { RunsTake Status.WriteFault (λ bound all left. Takes all left (λ taken. length taken ≤ bound)) }
    ensures too_long { RunsTake Status.TooLong (λ bound all left. Takes all left (λ taken. length taken ≡ bound)) }
    ensures no_memory { RunsTake Status.NoMemory (λ bound all left. Takes all left (λ taken. length taken ≤ bound)) }
{}

/// What a run has put behind the bytes of a sink that tells them, by its status: a reply for each line of the script,
/// nothing, a reply for each line whose newline was taken, or the replies to some lines from the first on, with the
/// front of the next reply behind them where a write failed.
pub fn replies_put()
    ensures done { RunsPut Status.Done (λ given all left held now. StandsBehind held now (AreReplies given (script_lines all))) }
    ensures usage { RunsPut Status.Usage (λ given all left held now. now ≡ Some held) }
    ensures read_fault { RunsPut Status.ReadFault (λ given all left held now. TakenAreAnswered given all left held now) }
    ensures write_fault { RunsPut Status.WriteFault (λ given all left held now. StandsBehind held now (IsBrokenOff given (script_lines all))) }
    ensures too_long { RunsPut Status.TooLong (λ given all left held now. TakenAreAnswered given all left held now) }
    ensures no_memory { RunsPut Status.NoMemory (λ given all left held now. StandsBehind held now (AreFirstReplies given (script_lines all))) }
{}

/// A run of a told script below the bound, of which no read and no write failed, ends with no other status than `Done`
/// or `NoMemory`.
pub fn runs_end_done()
    ensures { FaultlessRunsEnd (λ status. IsDoneOrNoMemory status) }
{}
