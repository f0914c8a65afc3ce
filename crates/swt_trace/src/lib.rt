//! Texts of a run: its report, and the trace of its events, which can be written, read and replayed.
//!
//! A trace is the line `swt-trace 2`, a line for each event, and a last line for the end of the run. The line of an
//! event is `B`, `E` or `K`, the worker from 0 to 63, and the item from 1 on. The letters stand for an item that was
//! begun, ended or given back. Numbers are decimal, parts are separated by single spaces, and each line ends with
//! byte 10.
//!
//! The last line is `Q` (quiet), `F` (a fault) or `L` (the limit). A trace of version 1 begins with `swt-trace 1` and
//! has no such line.
#![tactic(auto)]

ghost use Rattle.std.specs.Prelude.{◌≡◌, ℕ, ◌≤◌, List, Option, length, All};
ghost use Rattle.task_code.specs.declared.event.Event.{Event};
ghost use Rattle.task_code.specs.Code.{Code};
ghost use Rattle.task_code.specs.Whole.{IsCode};
ghost use Rattle.board_runs.specs.declared.report.Report.{Report};
ghost use Rattle.swt_trace.specs.declared.ending.Ending.{Ending};
ghost use Rattle.swt_trace.specs.Replay.{IsFirstNoStep, IsWrongEnd, ReplaysTo};
ghost use Rattle.swt_trace.specs.Trace.{IsTrace, TraceText, IsInRange, IsFirstBad, max_events};

pub mod ending;
pub mod fault;
mod number;
pub mod read;
pub mod replay;
pub mod report;
pub mod write;

/// States that the grammar of traces and their text agree.
///
/// A text is a trace of at most one list of events, and it names at most one end. `TraceText` of at most
/// `max_events` events in range is a trace of them, and the only one. A text with a bad line is not a trace.
pub fn traces_are_exact()
    ensures one_meaning { (bytes : List ℕ) (es fs : List Event) (d e : Option Ending) → IsTrace bytes es d → IsTrace bytes fs e → (es ≡ fs) × (d ≡ e) }
    ensures one_text { (bytes : List ℕ) (es : List Event) (e : Option Ending) → IsTrace bytes es e → bytes ≡ TraceText es e }
    ensures written { (es : List Event) (e : Option Ending) → All IsInRange es → length es ≤ max_events → IsTrace (TraceText es e) es e }
    ensures bad { (bytes : List ℕ) (n : ℕ) (es : List Event) (e : Option Ending) → IsFirstBad bytes n → IsTrace bytes es e → ⊥ }
    ensures first_bad { (bytes : List ℕ) (m n : ℕ) → IsFirstBad bytes m → IsFirstBad bytes n → m ≡ n }
{}

/// States that a code and the bytes of a trace allow at most one result of a replay.
///
/// The results are a report, a first event that is not a step, and an end that differs from the named one. A bad line
/// excludes all of them, by `traces_are_exact`.
pub fn replays_are_exact()
    ensures no_step { (C : Code) (bytes : List ℕ) (n : ℕ) (r : Report) → IsCode C → IsFirstNoStep C bytes n → ReplaysTo C bytes r → ⊥ }
    ensures other_end { (C : Code) (bytes : List ℕ) (n : ℕ) (r : Report) → IsCode C → IsWrongEnd C bytes n → ReplaysTo C bytes r → ⊥ }
    ensures steps_first { (C : Code) (bytes : List ℕ) (m n : ℕ) → IsCode C → IsFirstNoStep C bytes m → IsWrongEnd C bytes n → ⊥ }
{}
