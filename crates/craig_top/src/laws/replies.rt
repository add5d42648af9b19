//! What replies say, what their bytes are, and what a line does to the given state.

ghost use Rattle.std.specs.Prelude.{◌≡◌, ◌≢◌, ◌≤◌, ◌*◌, ◌^◌, Option, Some, IsTrue, Contains, length, ℕ, [], ◌++◌, List, Ok, Err, ℤ, true, codes, decimal, map, pos};
ghost use Rattle.craig_spec.specs.AigerBinary.{read_aig};
ghost use Rattle.craig_spec.specs.AigerReading.{read_aag};
ghost use Rattle.craig_spec.specs.CircuitCnf.{read_cnf};
ghost use Rattle.craig_spec.specs.Cut.{PartLiteral, with_units};
ghost use Rattle.craig_spec.specs.DrawnFromOneRefutation.{IsRefutationOf};
ghost use Rattle.craig_spec.specs.PartialInterpolant.{Label, A, AB, B};
ghost use Rattle.std.specs.List.Sorted.{IsStrictlyIncreasing};
ghost use Rattle.craig_base.specs.LemmaRule.{ContainsClause, NoneMoreThanTwice};
ghost use Rattle.craig_spec.specs.Literal.{Clause, Literal, negation};
ghost use Rattle.craig_spec.specs.Occurs.{Occurs, occurs_in_clause};
ghost use Rattle.craig_spec.specs.Truth.{Implies, clause_value};
ghost use Rattle.craig_spec.specs.Strength.{ImplyInTurn};
ghost use Rattle.craig_script.specs.declared.line.Line.{Line};
ghost use Rattle.craig_script.specs.declared.command.Command.TheVariants.{Nothing, Parts, Add, System, Mark, Cuts, Limit, Format, Solve};
ghost use Rattle.craig_script.specs.declared.cut_word.CutWord.{CutWord};
ghost use Rattle.craig_script.specs.declared.setting_words.FormatWord.{FormatWord};
ghost use Rattle.craig_script.specs.declared.setting_words.MarkWord.{MarkWord};
ghost use Rattle.craig_script.specs.declared.refusal.Refusal.{Refusal};
ghost use Rattle.craig_script.specs.declared.setting_words.SystemWord.{SystemWord};
ghost use Rattle.craig_top.specs.declared.settings.Settings.{Settings};
ghost use Rattle.craig_aiger.specs.AsciiText.{aag_text};
ghost use Rattle.craig_aiger.specs.BinaryText.{aig_text};
ghost use Rattle.craig_cnf.specs.LayoutClauses.{layout_text};
ghost use Rattle.craig_top.specs.DrawnSteps.{AreByTheRules};
ghost use Rattle.craig_top.specs.Formats.{format_in, format_of, greatest_named};
ghost use Rattle.craig_top.specs.GivenState.{State, next, reading, script_literal, start};
ghost use Rattle.craig_top.specs.Named.{bare_clauses};
ghost use Rattle.craig_top.specs.RefutationReply.{AreNoHigher};
ghost use Rattle.craig_top.specs.LemmaReply.{EachLemma, EachUnknownReply, HaveOnly, IsLemmaText, IsLimitUpTo};
ghost use Rattle.craig_top.specs.ReplyContents.{AreLiteralsOf, AreNamedBy, AreThree, AreThreeByStrength, EachAddition, EachDrawnSystem, EachMark, EachReading, EachRefutingReply, EachReply, EachReplyOfAll, EachReplySystem, EachText, EachTwoSystems, HasAccepted, HasCuts, HaveOutputs, IsAlone, IsDivided, IsLastMark, IsPrintedFirst, IsStrictText, IsTextOf, MayAnswer, PrintsRefutation, RefusalsAreNumbered, StartsWith, with_format, with_limit, with_mark, with_system};
ghost use Rattle.craig_top.specs.ReplyTexts.{literals_text, refusal_text};
ghost use Rattle.craig_top.specs.TrueParts.{AreFirstOnes, AreImplied, AreOfCuts, AreRefuted, AreTrueWith, FirstPlacesRise, HaveWith, ImplyLaterOnes, ReachSharedVariables};
ghost use Rattle.craig_top.specs.WrittenSystems.{label_of_mark, systems_of, written_systems};

/// The text of a circuit in a format reads back as it, and is laid out strictly; it has the outputs.
pub fn texts_of_circuits()
    ensures read { EachText (λ format outputs bytes c. IsTextOf format bytes c) }
    ensures strict { EachText (λ format outputs bytes c. IsStrictText format bytes) }
    ensures outputs { EachText (λ format outputs bytes c. HaveOutputs outputs c.outputs) }
{}

/// How the format of a word is written and read: as AIGER in its ASCII or its binary form, or as clauses whose fresh
/// variables come after a number.
pub fn formats_of_words()
    ensures aag { (top : ℕ) → ((format_of FormatWord.Aag top).write ≡ aag_text) × ((format_of FormatWord.Aag top).read ≡ read_aag) }
    ensures aig { (top : ℕ) → ((format_of FormatWord.Aig top).write ≡ aig_text) × ((format_of FormatWord.Aig top).read ≡ read_aig) }
    ensures cnf { (top : ℕ) → ((format_of FormatWord.Cnf top).write ≡ layout_text top) × ((format_of FormatWord.Cnf top).read ≡ read_cnf top) }
{}

/// The number after which the fresh variables of a reply come: no variable of the accepted clauses or the assumptions is
/// above it, and unless it is 0, it is one of them.
pub fn greatest_variable_of_a_solve()
    ensures above { (state : State) (assumptions : List PartLiteral) (x : ℕ) → Occurs x (bare_clauses (with_units state.accepted assumptions)) → x ≤ greatest_named state assumptions }
    ensures occurs { (state : State) (assumptions : List PartLiteral) → greatest_named state assumptions ≢ 0 → Occurs (greatest_named state assumptions) (bare_clauses (with_units state.accepted assumptions)) }
{}

/// The systems that a word names: one alone, which labels each variable of both sides B, AB or A or by its mark, or
/// McMillan's, Pudlák's and the inverse one.
pub fn systems_of_words()
    ensures mcmillan { (marks : ℕ → Label) → IsAlone (systems_of SystemWord.McMillan marks) (λ x. B) }
    ensures pudlak { (marks : ℕ → Label) → IsAlone (systems_of SystemWord.Pudlak marks) (λ x. AB) }
    ensures inverse { (marks : ℕ → Label) → IsAlone (systems_of SystemWord.Inverse marks) (λ x. A) }
    ensures dual { (marks : ℕ → Label) → IsAlone (systems_of SystemWord.Dual marks) (λ x. AB) }
    ensures marks { (marks : ℕ → Label) → IsAlone (systems_of SystemWord.Marks marks) marks }
    ensures all { (marks : ℕ → Label) → AreThree (systems_of SystemWord.All marks) }
{}

/// The label of a variable by its marks: AB without one, and otherwise the last one.
pub fn labels_of_marks()
    ensures none { (x : ℕ) → label_of_mark [] x ≡ AB }
    ensures last { (marks : List (ℕ × Label)) (x : ℕ) (label : Label) → IsLastMark marks x label }
{}

/// A refuting reply prints some of the assumptions as failed, and then a number of bytes and so many. They read back in
/// the format that is set as a circuit with an output for each cut and each system that is set, named by the cut and the family.
pub fn contents_of_a_refutation()
    ensures text { EachRefutingReply (λ state assumptions text reply. PrintsRefutation text reply.failed reply.block.bytes) }
    ensures failed { EachRefutingReply (λ state assumed text reply. AreFirstOnes assumed reply.failed × FirstPlacesRise assumed reply.failed) }
    ensures read { EachRefutingReply (λ state assumed text reply. IsTextOf (format_in state assumed) reply.block.bytes reply.gives.circuit) }
    ensures strict { EachRefutingReply (λ state assumed text reply. IsStrictText (format_in state assumed) reply.block.bytes) }
    ensures outputs { EachRefutingReply (λ state assumptions text reply. HaveOutputs reply.block.outputs reply.gives.circuit.outputs) }
    ensures named { EachRefutingReply (λ state assumed text reply. AreNamedBy (written_systems state.settings) state.settings.cuts reply.gives.circuit.outputs) }
    ensures literals { EachRefutingReply (λ state assumptions text reply. AreLiteralsOf reply.gives.systems reply.gives.circuit.outputs) }
    ensures systems { EachRefutingReply (λ state assumptions text reply. map (λ y. y.system) reply.gives.systems ≡ written_systems state.settings) }
{}

/// By each system of a refuting reply there is a literal for each cut, the literal 1 at cut 0 and the literal 0 at the
/// last. At each cut the accepted clauses and the failed assumptions of the parts up to it imply the literal, those of
/// the later parts refute it, and the inputs in its cone occur on both sides; with those of the next part it implies
/// the next literal. Of two systems the one that labels no variable higher has the stronger literals. Between the outer
/// cuts each has the value of the labelled rules for one refutation of these clauses, by the labels of its system.
pub fn interpolants_of_a_refutation()
    ensures cuts { EachReplySystem (λ given failed c marks literals. AreOfCuts given.settings.parts given.settings.cuts literals) }
    ensures implied { EachReplySystem (λ given failed c marks literals. AreImplied (AreTrueWith given.accepted failed) given.settings.cuts c literals) }
    ensures refuted { EachReplySystem (λ given failed c marks literals. AreRefuted (AreTrueWith given.accepted failed) given.settings.cuts c literals) }
    ensures shared { EachReplySystem (λ given failed c marks literals. ReachSharedVariables (HaveWith given.accepted failed) given.settings.cuts c literals) }
    ensures onward { EachReplySystem (λ given failed c marks literals. ImplyLaterOnes (AreTrueWith given.accepted failed) given.settings.cuts c literals) }
    ensures strength { EachTwoSystems (λ c marks literals other others. AreNoHigher marks other → ImplyInTurn c literals others) }
    ensures refutation { EachDrawnSystem (λ clauses given steps root c marks literals. IsRefutationOf clauses steps root) }
    ensures values { EachDrawnSystem (λ clauses given steps root c marks literals. AreByTheRules clauses given.parts given.cuts steps root c marks literals) }
{
    craig_itp::laws::partial_values_by_steps();
}

/// Where all systems are set, a refuting reply has the sequences of McMillan's, Pudlák's and the inverse system in this
/// order, and at each cut the literal of each implies that of the next.
pub fn three_systems_by_strength()
    ensures { EachReplyOfAll (λ clauses settings c systems. AreThreeByStrength clauses settings c systems) }
{}

/// A reply that lists lemmas has as many as the limit. Each is true wherever the accepted clauses are, has variables of
/// theirs alone, by rising number, no literal beside its negation, and contains none of them; none stands more than twice.
/// So where the accepted clauses have `v` variables, no such reply comes under a limit above `2 * 3^v`.
pub fn lemmas_of_a_reply()
    ensures text { EachUnknownReply (λ state text lemmas. IsLemmaText text lemmas) }
    ensures many { EachUnknownReply (λ state text lemmas. state.settings.limit ≡ Some (length lemmas)) }
    ensures few { EachUnknownReply (λ state text lemmas. NoneMoreThanTwice lemmas) }
    ensures low { EachUnknownReply (λ state text lemmas. (vars : List ℕ) → HaveOnly vars state → IsLimitUpTo (2 * 3 ^ length vars) state) }
    ensures implied { EachLemma (λ accepted lemma. Implies accepted (λ s. IsTrue (clause_value s lemma))) }
    ensures known { EachLemma (λ accepted lemma. (x : ℕ) → IsTrue (occurs_in_clause x lemma) → Occurs x accepted) }
    ensures sound { EachLemma (λ accepted lemma. (l : Literal) → Contains lemma l → ¬ Contains lemma (negation l)) }
    ensures new { EachLemma (λ accepted lemma. (c : Clause) → Contains accepted c → ¬ ContainsClause lemma c) }
    ensures rising { EachLemma (λ accepted lemma. IsStrictlyIncreasing (map (λ l. l.var) lemma)) }
{
    craig_base::laws::no_longer_list();
}

/// The reply to a line is no text, `ok`, the number of a refusal, a model of the accepted clauses and the assumed
/// literals, a refutation of them, or as many implied clauses as the limit, as the line is read in the state.
pub fn replies_to_lines()
    ensures nothing { EachReply (λ state line text. reading state line ≡ Ok Nothing → text ≡ []) }
    ensures parts { EachReply (λ state line text. (n : ℕ) → reading state line ≡ Ok (Parts n) → text ≡ codes "ok\n") }
    ensures add { EachReply (λ state line text. (part : ℕ) (lits : List ℤ) → reading state line ≡ Ok (Add part lits) → text ≡ codes "ok\n") }
    ensures system { EachReply (λ state line text. (s : SystemWord) → reading state line ≡ Ok (System s) → text ≡ codes "ok\n") }
    ensures mark { EachReply (λ state line text. (name : ℕ) (m : MarkWord) → reading state line ≡ Ok (Mark name m) → text ≡ codes "ok\n") }
    ensures cuts { EachReply (λ state line text. (cuts : CutWord) → reading state line ≡ Ok (Cuts cuts) → text ≡ codes "ok\n") }
    ensures limit { EachReply (λ state line text. (limit : Option ℕ) → reading state line ≡ Ok (Limit limit) → text ≡ codes "ok\n") }
    ensures format { EachReply (λ state line text. (f : FormatWord) → reading state line ≡ Ok (Format f) → text ≡ codes "ok\n") }
    ensures solve { EachReply (λ state line text. (pairs : List (ℕ × ℤ)) → reading state line ≡ Ok (Solve pairs) → MayAnswer state pairs text) }
    ensures refused { EachReply (λ state line text. (refusal : Refusal) → reading state line ≡ Err refusal → text ≡ refusal_text refusal) }
{}

/// Two parts, no mark, all cuts, the system, the format and the limit of the start and no clause come before the first
/// line. An added clause is accepted last, a setting is set, where the number of parts sets the cuts too, and any other line changes nothing.
pub fn states_after_lines()
    ensures start { (settings : Settings) → StartsWith settings.system settings.format settings.limit (start settings) }
    ensures add { EachAddition (λ state part lits after. HasAccepted state part lits after) }
    ensures parts { EachReading (λ n. Ok (Parts n)) (λ state n after. IsDivided state n after) }
    ensures system { EachReading (λ s. Ok (System s)) (λ state s after. after ≡ with_system state s) }
    ensures mark { EachMark (λ state name label after. after ≡ with_mark state name label) }
    ensures cuts { EachReading (λ w. Ok (Cuts w)) (λ state w after. HasCuts state w after) }
    ensures limit { EachReading (λ l. Ok (Limit l)) (λ state l after. after ≡ with_limit state l) }
    ensures format { EachReading (λ f. Ok (Format f)) (λ state f after. after ≡ with_format state f) }
    ensures nothing { (state : State) (line : Line) → reading state line ≡ Ok Nothing → next state line ≡ state }
    ensures solve { (state : State) (line : Line) (pairs : List (ℕ × ℤ)) → reading state line ≡ Ok (Solve pairs) → next state line ≡ state }
    ensures refused { (state : State) (line : Line) (refusal : Refusal) → reading state line ≡ Err refusal → next state line ≡ state }
{}

/// How literals and refusals are printed: each literal with a space behind it, and a minus sign in front where it is
/// negated.
pub fn printed_literals()
    ensures none { literals_text [] ≡ codes "0\n" }
    ensures positive { (n : ℕ) → IsPrintedFirst (script_literal (pos n)) (decimal n) }
    ensures negative { (n : ℕ) → IsPrintedFirst (record { var = n; negated = true }) (codes "-" ++ decimal n) }
    ensures refusals { RefusalsAreNumbered }
{}
