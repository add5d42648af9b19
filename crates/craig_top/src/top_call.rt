//! The top call: the words of the program, and then a run.

ghost use Rattle.std.specs.Prelude.{◌≡◌, ◌⊎◌, ℕ, None, Some, map, string_bytes};
ghost use Rattle.craig_io.specs.Faults.{Rose};
ghost use Rattle.craig_words.specs.CommandLine.{words_read};
ghost use Rattle.craig_words.specs.declared.words.Words.{Words};
ghost use Rattle.craig_top.specs.Faults.{CountsFaults};
ghost use Rattle.craig_top.specs.WordsRun.{EndsDoneBy, PromiseWith};

use crate::generated::run_generated;
use crate::run::run_script;
use crate::settings::Settings;
use crate::status::Status;
use craig_io::{Sink, Source};
use craig_words::{WordsFault, read_words};
use std::alloc::Global;

/// How many bytes a script has to be shorter than.
const SCRIPT_BOUND: u64 = 4294967296;

/// Runs the program: takes a script from the source and puts the reply to each of its lines to the sink, or makes a
/// script of the generator where the words say so, and puts a summary and the reply to its last line.
///
/// The words are those of the command line without the program's name: `--system`, `--format`, `--limit` and `--gen`, each
/// at most once and with its value behind it or behind an equals sign. Where they are refused the answer is `Usage`, or
/// `NoMemory` where memory runs out before that is known, and source and sink are as before.
pub fn craig_top<R: Source, W: Sink>(
    alloc: Global,
    words: &[String],
    source: &mut R,
    sink: &mut W,
) -> Status
    // The transcript theorem.
    ensures promise { (given : Words) → words_read (map (λ word. string_bytes word) words.now) ≡ Some given
        → PromiseWith given 4294967296 result (R.remaining source.old) (R.remaining source.new) (W.contents sink.old) (W.contents sink.new) }

    // The causes of the other statuses.
    ensures usage { result ≡ Status.Usage → words_read (map (λ word. string_bytes word) words.now) ≡ None }
    ensures refused { words_read (map (λ word. string_bytes word) words.now) ≡ None → (result ≡ Status.Usage) ⊎ (result ≡ Status.NoMemory) }
    ensures untouched { words_read (map (λ word. string_bytes word) words.now) ≡ None → (source.new ≡ source.old) × (sink.new ≡ sink.old) }
    ensures unread { (given : Words) (steps : ℕ) → words_read (map (λ word. string_bytes word) words.now) ≡ Some given
        → given.steps ≡ Some steps → source.new ≡ source.old }
    ensures read_fault { CountsFaults (result ≡ Status.ReadFault) (R.faults source.old) (R.faults source.new) }
    ensures write_fault { CountsFaults (result ≡ Status.WriteFault) (W.faults sink.old) (W.faults sink.new) }
    ensures complete { (given : Words) → words_read (map (λ word. string_bytes word) words.now) ≡ Some given
        → EndsDoneBy given.steps 4294967296 result (R.remaining source.old) (Rose (R.faults source.old) (R.faults source.new)) (Rose (W.faults sink.old) (W.faults sink.new)) }
{
    let given = match read_words(alloc, words) {
        Ok(given) => given,
        Err(WordsFault::Refused) => return Status::Usage,
        Err(WordsFault::NoMemory(_)) => return Status::NoMemory,
    };
    let settings = Settings::with(&given);
    match given.steps {
        None => run_script(alloc, settings, SCRIPT_BOUND, source, sink),
        Some(steps) => run_generated(alloc, settings, steps, sink),
    }
}
