//! What the generator's script is, what the reply to its last line says, and what a run of it has put.

ghost use Rattle.std.specs.Prelude.{◌≡◌, ℕ, ◌≤◌, ◌⊎◌, [], List, Option, Some, map};
ghost use Rattle.craig_script.specs.declared.line.Line.TheVariants.{Text};
ghost use Rattle.craig_script.specs.Generator.{generated};
ghost use Rattle.craig_script.specs.Lines.{last_part};
ghost use Rattle.craig_script.specs.Writing.{command_line};
ghost use Rattle.craig_top.specs.declared.settings.Settings.{Settings};
ghost use Rattle.craig_top.specs.Ending.{whole};
ghost use Rattle.craig_top.specs.GeneratedRun.{EndsGenerated, GeneratedPromise, GeneratedReply, generated_text, summary_text, with_generated};
ghost use Rattle.craig_top.specs.PutGenerated.{GeneratedRunsPut, IsFrontOfSummaryAndReply, IsSummary, IsSummaryAndReply};
ghost use Rattle.craig_top.specs.PutReplies.{StandsBehind};
ghost use Rattle.craig_top.specs.Reply.{IsSolveReply};

use crate::status::Status;

/// The script of so many steps, at most 60, has a line for each of its commands, and nothing stands behind its last
/// newline. The reply to the last line is one to a solve without assumptions, where the accepted clauses are those that
/// the commands add, each in its part, there is one part more than steps, and all cuts are chosen.
pub fn generated_runs()
    ensures lines { (n : ℕ) → n ≤ 60 → whole (generated_text n) ≡ map (λ command. Text (command_line command)) (generated n) }
    ensures ended { (n : ℕ) → last_part (generated_text n) ≡ [] }
    ensures reply { (settings : Settings) (n : ℕ) (text : List ℕ) → n ≤ 60 → GeneratedReply settings n text → IsSolveReply (with_generated settings n) [] text }
{
    craig_script::laws::generated_scripts();
    craig_script::laws::written_commands();
}

/// The summary of the script of so many steps, from 1 to 60, is five lines. They count its steps, and the parts, the accepted
/// clauses and the chosen cuts of the state before its last line, and say the greatest variable of these clauses.
pub fn summaries()
    ensures { (settings : Settings) (n : ℕ) → 1 ≤ n → n ≤ 60 → IsSummary n (with_generated settings n) (summary_text n) }
{
    craig_script::laws::generated_scripts();
}

/// What a run of the generator's script has put behind the bytes of a sink that tells them, by its status: the summary
/// and the reply to the last line, the front of these where a write failed, and nothing or the summary where memory ran out.
pub fn generated_replies()
    ensures done { GeneratedRunsPut Status.Done (λ summary IsReply held now. StandsBehind held now (IsSummaryAndReply summary IsReply)) }
    ensures write_fault { GeneratedRunsPut Status.WriteFault (λ summary IsReply held now. StandsBehind held now (IsFrontOfSummaryAndReply summary IsReply)) }
    ensures no_memory { GeneratedRunsPut Status.NoMemory (λ summary IsReply held now. StandsBehind held now (λ text. (text ≡ []) ⊎ (text ≡ summary))) }
    ensures no_other { (settings : Settings) (n : ℕ) (status : Status) (held : List ℕ) (now : Option (List ℕ)) → GeneratedPromise settings n status (Some held) now → EndsGenerated status }
{
    craig_script::laws::generated_scripts();
    craig_script::laws::written_commands();
}
