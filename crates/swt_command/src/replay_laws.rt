//! Theorems about the report of a run and of the replay of its trace.
ghost use Rattle.std.specs.Prelude.{◌≡◌, ◌≤◌, ℕ, List, [], Some};
ghost use Rattle.board_runs.specs.Report.{Reports};
ghost use Rattle.board_runs.specs.declared.report.Report.{Report};
ghost use Rattle.code_laws.specs.Alike.{AreAlike};
ghost use Rattle.compile.specs.Compiled.{IsCompiled};
ghost use Rattle.swt_arguments.specs.declared.line.Line.TheVariants.{Replay, Run};
ghost use Rattle.swt_command.specs.Files.{Files, source_of};
ghost use Rattle.swt_command.specs.Owes.{Owes};
ghost use Rattle.swt_command.specs.Sinks.{Held};
ghost use Rattle.swt_command.specs.Same.{IsOfReport, PrintOneText, TellSame, of_code};
ghost use Rattle.swt_status.specs.Statuses.{report_status};
ghost use Rattle.swt_trace.specs.Replay.{IsFirstNoStep, IsWrongEnd, ReplaysTo};
ghost use Rattle.swt_trace.specs.Report.{ReportText, TraceOf};
ghost use Rattle.swt_trace.specs.Trace.{IsFirstBad, max_events};
ghost use Rattle.task_code.specs.Code.{Code};

/// Proves that a report of a run of code, with its program replaced, is a report of all code that is alike.
pub fn alike_codes_are_reported_alike()
    ensures { (C D : Code) → AreAlike C D → (limit : ℕ) (r : Report) → Reports C limit r → Reports D limit (of_code D r) }
{}

/// Proves that the replay of the trace of a run has a report of the same content, for any code of the script.
///
/// No line of the trace is bad or no step, and its end is that of the run. Two reports of the same content have the
/// same text and the same status.
pub fn replays_tell_the_same()
    ensures same { (src : List ℕ) (C D : Code) (limit : ℕ) (r : Report) → IsCompiled src C → IsCompiled src D → limit ≤ max_events → Reports C limit r
        → (s : Report) → ReplaysTo D (TraceOf r) s → TellSame r s }
    ensures not_bad { (src : List ℕ) (C D : Code) (limit : ℕ) (r : Report) → IsCompiled src C → IsCompiled src D → limit ≤ max_events → Reports C limit r
        → (n : ℕ) → IsFirstBad (TraceOf r) n → ⊥ }
    ensures no_step { (src : List ℕ) (C D : Code) (limit : ℕ) (r : Report) → IsCompiled src C → IsCompiled src D → limit ≤ max_events → Reports C limit r
        → (n : ℕ) → IsFirstNoStep D (TraceOf r) n → ⊥ }
    ensures its_end { (src : List ℕ) (C D : Code) (limit : ℕ) (r : Report) → IsCompiled src C → IsCompiled src D → limit ≤ max_events → Reports C limit r
        → (n : ℕ) → IsWrongEnd D (TraceOf r) n → ⊥ }
    ensures text { (r s : Report) → TellSame r s → ReportText r ≡ ReportText s }
    ensures status { (r s : Report) → TellSame r s → report_status r ≡ report_status s }
{}

/// Proves that `run` with a trace and `replay` of this trace print the same report with the same status. Both commands
/// must print a report, and both use the same script.
///
/// The trace is written to a sink that was empty, and read from the second file.
pub fn a_run_and_its_replay_print_one_report()
    ensures { (file name : List ℕ) (engines workers steps : ℕ) (files : Files) (out out_new err err_new trace trace_new : Held) (number : ℕ)
        → steps ≤ max_events → Owes (Run file engines workers steps (Some name)) files out out_new err err_new trace trace_new number
        → IsOfReport number → trace.bytes ≡ []
        → (script events : List ℕ) (later : Files) (again again_new said said_new kept kept_new : Held) (other : ℕ)
        → source_of later 0 ≡ source_of files 0 → source_of later 1 ≡ Some trace_new.bytes
        → Owes (Replay script events) later again again_new said said_new kept kept_new other → IsOfReport other
        → PrintOneText out out_new again again_new × (number ≡ other) }
{}
