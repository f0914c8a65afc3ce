//! Theorems about reports, printed output and statuses.
ghost use Rattle.std.specs.Prelude.{◌≡◌, ◌⊎◌, ◌↔◌, ℕ, ◌<◌, true, List, length, Option, None};
ghost use Rattle.language.specs.Core.{Core};
ghost use Rattle.language.specs.Facts.{Fact};
ghost use Rattle.language.specs.Meaning.{IsFinished, Known, Meaning};
ghost use Rattle.language.specs.Outcomes.{Clean};
ghost use Rattle.language.specs.Resolved.{core};
ghost use Rattle.headline.specs.Headline.{PartOfLines};
ghost use Rattle.task_code.specs.Code.{Code};
ghost use Rattle.paths.specs.declared.faults.Fault.{Fault};
ghost use Rattle.board_runs.specs.declared.report.End.TheVariants as Ends;
ghost use Rattle.board_runs.specs.declared.report.Report.{Report};
ghost use Rattle.board_runs.specs.Report.{Reports};
ghost use Rattle.compile.specs.Compiled.{IsCompiled};
ghost use Rattle.swt_arguments.specs.Lines.{files_of};
ghost use Rattle.swt_arguments.specs.declared.line.Line.{Line};
ghost use Rattle.swt_arguments.specs.declared.line.Line.TheVariants.{Mean, Run, Replay};
ghost use Rattle.swt_command.specs.Causes.{AsksBadly, AtLimit, HasFailed, IsDone, LacksMemory, LeftBlocked, MetFault, Reported, SomeRefused};
ghost use Rattle.swt_command.specs.Files.{Files, source_of};
ghost use Rattle.swt_command.specs.declared.meaning_summary.MeaningSummary.{MeaningSummary};
ghost use Rattle.swt_command.specs.Means.{IsMeaning, IsTold, PrintsMeaning};
ghost use Rattle.swt_command.specs.OneThread.{IsMeantBy, IsScriptFault, IsWhole, PrintsWhole};
ghost use Rattle.swt_command.specs.Owes.{Owes};
ghost use Rattle.swt_command.specs.Sinks.{Held};

/// Proves that every report of a run of compiled code agrees with the meaning of its script, for any scheduling.
///
/// A report that ends quiet shows that the script has no fault. It has exactly the script's lines, in some order, and
/// exactly its blocked statements, in text order. If the script writes no key twice, the lines of every report are a
/// part of the script's lines. A fault in which a run of such a script ends is then among the script's faults.
pub fn reports_are_meant()
    ensures quiet { (src : List ℕ) (code : Code) (limit : ℕ) (r : Report) (w : IsCompiled src code) → Reports code limit r → r.end ≡ Ends.Quiet
        → IsWhole (core w.table w.tree) r }
    ensures part { (src : List ℕ) (code : Code) (limit : ℕ) (r : Report) (w : IsCompiled src code) → Clean (core w.table w.tree) → Reports code limit r
        → PartOfLines (Meaning (core w.table w.tree)) r.lines.items }
    ensures fault { (src : List ℕ) (code : Code) (limit : ℕ) (r : Report) (f : Fault) (w : IsCompiled src code) → Clean (core w.table w.tree)
        → Reports code limit r → r.end ≡ Ends.Fault f
        → IsScriptFault (core w.table w.tree) f }
{}

/// Proves that `run` or `replay` with status 0 or 4 has printed all that the script means, and nothing else.
pub fn runs_print_the_meaning()
    ensures run { (file : List ℕ) (engines workers steps : ℕ) (wanted : Option (List ℕ)) (files : Files)
        (out out_new err err_new trace trace_new : Held) (number : ℕ)
        → Owes (Run file engines workers steps wanted) files out out_new err err_new trace trace_new number → (number ≡ 0) ⊎ (number ≡ 4)
        → PrintsWhole files out out_new }
    ensures replay { (file events : List ℕ) (files : Files) (out out_new err err_new trace trace_new : Held) (number : ℕ)
        → Owes (Replay file events) files out out_new err err_new trace trace_new number → (number ≡ 0) ⊎ (number ≡ 4) → PrintsWhole files out out_new }
{}

/// Proves that every printed report agrees with the meaning of the script of the first file, for any status.
///
/// A report that ends quiet is complete. If the script writes no key twice, the lines are a part of the script's lines,
/// and the fault is among its faults.
pub fn printed_reports_are_meant()
    ensures { (line : Line) (files : Files) (r : Report) (out new : Held) → Reported line files r out new → IsMeantBy files r }
{}

/// Proves that the facts known after n rounds are the whole meaning of a script if one more round adds none.
pub fn enough_is_meant()
    ensures { (s : Core) (n : ℕ) → IsFinished s n → (f : Fact) → Meaning s f ↔ Known s n f }
{}

/// Proves that `mean` with status 0, 3 or 4 has printed all that the script means, including its faults, and nothing
/// else.
pub fn mean_prints_the_meaning()
    ensures told { (s : Core) (limit : ℕ) (t : MeaningSummary) → IsTold s limit t → t.enough ≡ true → IsMeaning s t }
    ensures printed { (file : List ℕ) (rounds : ℕ) (files : Files) (out out_new err err_new trace trace_new : Held) (number : ℕ)
        → Owes (Mean file rounds) files out out_new err err_new trace trace_new number → (number ≡ 0) ⊎ ((number ≡ 3) ⊎ (number ≡ 4))
        → PrintsMeaning files rounds out out_new }
{}

/// Proves that each status of `command` identifies its cause.
///
/// - 0: the command is done.
/// - 1: the text of a file is refused.
/// - 2: the line requests impossible numbers of engines and workers.
/// - 3: there is a fault.
/// - 4: statements are blocked.
/// - 5: the limit of events or rounds is reached.
/// - 6: an allocation failed.
/// - 7: a file, a trace, a write or a thread failed.
///
/// The status is always 7 if a write of output or of the trace failed, or if the first file cannot be read.
pub fn statuses_tell()
    ensures refused { (line : Line) (files : Files) (out out_new err err_new trace trace_new : Held) (number : ℕ)
        → Owes line files out out_new err err_new trace trace_new number → number ≡ 1 → SomeRefused files }
    ensures usage { (line : Line) (files : Files) (out out_new err err_new trace trace_new : Held) (number : ℕ)
        → Owes line files out out_new err err_new trace trace_new number → number ≡ 2 → AsksBadly line }
    ensures done { (line : Line) (files : Files) (out out_new err err_new trace trace_new : Held) (number : ℕ)
        → Owes line files out out_new err err_new trace trace_new number → number ≡ 0 → IsDone line files out out_new }
    ensures fault { (line : Line) (files : Files) (out out_new err err_new trace trace_new : Held) (number : ℕ)
        → Owes line files out out_new err err_new trace trace_new number → number ≡ 3 → MetFault line files out out_new }
    ensures blocked { (line : Line) (files : Files) (out out_new err err_new trace trace_new : Held) (number : ℕ)
        → Owes line files out out_new err err_new trace trace_new number → number ≡ 4 → LeftBlocked line files out out_new }
    ensures limit { (line : Line) (files : Files) (out out_new err err_new trace trace_new : Held) (number : ℕ)
        → Owes line files out out_new err err_new trace trace_new number → number ≡ 5 → AtLimit line files out out_new }
    ensures memory { (line : Line) (files : Files) (out out_new err err_new trace trace_new : Held) (number : ℕ)
        → Owes line files out out_new err err_new trace trace_new number → number ≡ 6 → LacksMemory line files out out_new err err_new trace trace_new }
    ensures failed { (line : Line) (files : Files) (out out_new err err_new trace trace_new : Held) (number : ℕ)
        → Owes line files out out_new err err_new trace trace_new number → number ≡ 7 → HasFailed line files out out_new err err_new trace trace_new }
    ensures writes { (line : Line) (files : Files) (out out_new err err_new trace trace_new : Held) (number : ℕ)
        → Owes line files out out_new err err_new trace trace_new number
        → (out.failures < out_new.failures) ⊎ (trace.failures < trace_new.failures) → number ≡ 7 }
    ensures unread { (line : Line) (files : Files) (out out_new err err_new trace trace_new : Held) (number : ℕ)
        → Owes line files out out_new err err_new trace trace_new number → 0 < length (files_of line) → source_of files 0 ≡ None → number ≡ 7 }
{}
