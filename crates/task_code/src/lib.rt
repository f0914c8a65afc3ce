//! Flat dataflow code: its bodies and entries, its meaning as a task system, and the theorems about every run of whole
//! code.
#![tactic(auto)]

ghost use Rattle.std.specs.Prelude.{◌≡◌, ℕ, true, false, List, length, ◌+◌, ◌*◌, ◌≤◌};
ghost use Rattle.dataflow.specs.System.{In};
ghost use Rattle.dataflow.specs.Machine.{Event, OfTask};
ghost use Rattle.dataflow.specs.Events.{backs};
ghost use Rattle.dataflow.specs.Names.{NamedState, IsNaming, NamedStep, NamedSteps, named_start, IsFresh};
ghost use Rattle.task_code.specs.Code.{Code, Name, entry, targets};
ghost use Rattle.task_code.specs.Places.{Step};
ghost use Rattle.task_code.specs.Effects.{Task};
ghost use Rattle.task_code.specs.Compute.{InOperation};
ghost use Rattle.values.specs.declared.fault.OpFault.TheVariants.{Memory};
ghost use Rattle.task_code.specs.System.{code_system};
ghost use Rattle.task_code.specs.Machine.{CodeState, CleanCode, CodeStep, Run, Quiet, Newly, Agrees, Complete, GoesOn, AnswersAreOne, run_log, LeadsTo, DataAreKept, IsTidy, DataAreExact, SameButFree, HasSteps, SameEnd};
ghost use Rattle.task_code.specs.Runs.{Blocked, EverBlocked};
ghost use Rattle.task_code.specs.Whole.{IsCode};
ghost use Rattle.task_code.specs.Check.{is_code};
ghost use Rattle.task_code.specs.Exact.{needs_of, Leads, IsExact, is_exact};
ghost use Rattle.task_code.specs.Count.{HasAllBlocks, HasAllLoops, items_in};
ghost use Rattle.task_code.specs.Worked.{hello, used_before_assigned, filled_by_loop, key_written_twice, fibonacci, filled_by_call, filled_without_end, several_outputs, called_everywhere};
ghost use Rattle.task_code.specs.Worked.{assigned_twice, loop_without_right, one_output_twice, name_undeclared, assigned_in_loop, loop_variable_assigned, entry_twice, opened_by_another, scalar_filled, calls_without_right};
ghost use Rattle.task_code.specs.Worked.{right_without_use, HelloRuns, WaitsForAssignment, SecondWriteFaults, StoresThree, Overflows, PrintsHello, LacksElement, OpensTurns, MeansTen, MeansResult, MeansInner, MeansCallersArray, ComparesTen, Chunks};

pub mod body_numbers;
pub mod code;
pub mod draft;
pub mod entry;
pub mod event;
pub mod expr;
pub mod packed_event;

/// Proves the theorem for every list of events of whole code.
///
/// - If no key is written twice in any round, each state agrees with the meaning of the code.
/// - A quiet state without fault has all of the meaning, with that premise or without. Its blocked statements are those
///   of the meaning, so all runs that end quiet end alike.
/// - No item is ever stuck, and none exists twice. The items determine which events have a step.
/// - No fault is an allocation failure.
/// - A run has at most two events for each item created and for each item given back. The items are counted by the
///   blocks that are opened and the loops that run.
pub fn every_run_of_code()
    ensures agrees { (C : Code) → IsCode C → CleanCode C →
        (events : List Event) (s : CodeState) → Run C events s →
        Agrees C s }
    ensures complete { (C : Code) → IsCode C →
        (events : List Event) (s : CodeState) → Run C events s →
        Quiet C s → Complete C s }
    ensures one_end { (C : Code) → IsCode C →
        (events others : List Event) (s t : CodeState) → Run C events s → Run C others t →
        Quiet C s → Quiet C t → SameEnd C s t }
    ensures goes_on { (C : Code) → IsCode C →
        (events : List Event) (s : CodeState) → Run C events s →
        GoesOn C s }
    ensures steps { (C : Code) → IsCode C →
        (events : List Event) (s : CodeState) → Run C events s → HasSteps C s }
    ensures blocked { (C : Code) → IsCode C →
        (events : List Event) (s : CodeState) → Run C events s → Quiet C s →
        (at : ℕ) (path : List Step) → (Blocked C s at path → EverBlocked C at path) × (EverBlocked C at path → Blocked C s at path) }
    ensures no_memory_fault { (C : Code) → IsCode C →
        (events : List Event) (s : CodeState) → Run C events s →
        (t : Task) → s.fault ≡ Some (t, OfTask (InOperation Memory)) → ⊥ }
    ensures bound { (C : Code) →
        (events : List Event) (s : CodeState) → Run C events s →
        length events + 2 ≤ 2 * s.next + 2 * backs events }
    ensures bound_by_blocks { (C : Code) → IsCode C → CleanCode C →
        (blocks : List (ℕ × List Step)) (loops : List (ℕ × List Step × ℕ)) →
        HasAllBlocks C blocks → HasAllLoops C loops →
        (events : List Event) (s : CodeState) → Run C events s →
        length events ≤ 2 * (items_in C blocks loops + backs events) }
{}

/// Proves the invariants of the states of whole code: answers, the log of the run, the number of newly enabled items,
/// and the data.
pub fn every_state_of_code()
    ensures answers { (C : Code) → IsCode C →
        (events : List Event) (s : CodeState) → Run C events s →
        AnswersAreOne C s }
    ensures log { (C : Code) → IsCode C →
        (events : List Event) (s : CodeState) (run : Run C events s) →
        LeadsTo C (run_log C events s run) s }
    ensures determined { (C : Code) → IsCode C →
        (events : List Event) (s t : CodeState)
        (run : Run C events s) (again : Run C events t) →
        (run_log C events s run ≡ run_log C events t again) × SameButFree C s t }
    ensures counted { (C : Code) → IsCode C →
        (events : List Event) (s : CodeState) → Run C events s →
        (n : ℕ) × Newly C events n × ((m : ℕ) → Newly C events m → m ≡ n) }
    ensures kept { (C : Code) → IsCode C →
        (events : List Event) (s : CodeState) (run : Run C events s) →
        DataAreKept C s (run_log C events s run) }
    ensures exact { (C : Code) → IsCode C →
        (events : List Event) (s : CodeState) (run : Run C events s) →
        IsTidy C s → DataAreExact C s (run_log C events s run) }
    ensures can_be_tidy { (C : Code) → IsCode C →
        (old : CodeState) (event : Event) (new : CodeState) →
        CodeStep C old event new →
        (tidy : CodeState) × CodeStep C old event tidy × IsTidy C tidy }
{}

/// Proves agreement and completeness for code whose data have names, for every choice of names.
pub fn every_naming_of_code<N>()
    ensures agrees { (C : Code) → IsCode C → CleanCode C →
        (events : List Event) (s : NamedState (code_system C) N) →
        NamedSteps (code_system C) N (named_start (code_system C) N) events s → Agrees C s.state }
    ensures complete { (C : Code) → IsCode C →
        (events : List Event) (s : NamedState (code_system C) N) →
        NamedSteps (code_system C) N (named_start (code_system C) N) events s →
        Quiet C s.state → Complete C s.state }
    ensures found { (C : Code) → IsCode C → (fresh : List N → N) → IsFresh N fresh →
        (old : NamedState (code_system C) N) → IsNaming (code_system C) N old.names old.state.places →
        (event : Event) (new : CodeState) →
        CodeStep C old.state event new →
        (named : NamedState (code_system C) N) × (named.state ≡ new) × NamedStep (code_system C) N old event named }
{}

/// Proves that a computable test decides whether code is whole, and that the worked codes are whole.
///
/// They are `printf("hello");`, a scalar used before its assignment, an array filled by a loop, and a key written
/// twice. There are also a recursive function, a function that fills an array of its caller, and one whose calls never
/// end. The last two have calls with several outputs, with arrays passed down, nested calls, and calls in loops and
/// without outputs.
pub fn whole_code()
    ensures tested { (C : Code) → is_code C ≡ true → IsCode C }
    ensures passes { (C : Code) → IsCode C → is_code C ≡ true }
    ensures hello { IsCode hello }
    ensures used_before_assigned { IsCode used_before_assigned }
    ensures filled_by_loop { IsCode filled_by_loop }
    ensures key_written_twice { IsCode key_written_twice }
    ensures fibonacci { IsCode fibonacci }
    ensures filled_by_call { IsCode filled_by_call }
    ensures filled_without_end { IsCode filled_without_end }
    ensures several_outputs { IsCode several_outputs }
    ensures called_everywhere { IsCode called_everywhere }
{}

/// Proves that ten codes are not whole, each for one reason.
///
/// The reasons are:
///
/// - a scalar with two assigners,
/// - a loop that lacks the right of its body,
/// - a call with one variable for two outputs,
/// - an undeclared name,
/// - an assignment to an outer scalar inside a loop,
/// - an assigned loop variable,
/// - a duplicate entry,
/// - a body with another opener,
/// - elements stored into a scalar,
/// - calls without the right to write their outputs.
pub fn bad_code()
    ensures assigned_twice { IsCode assigned_twice → ⊥ }
    ensures loop_without_right { IsCode loop_without_right → ⊥ }
    ensures one_output_twice { IsCode one_output_twice → ⊥ }
    ensures name_undeclared { IsCode name_undeclared → ⊥ }
    ensures assigned_in_loop { IsCode assigned_in_loop → ⊥ }
    ensures loop_variable_assigned { IsCode loop_variable_assigned → ⊥ }
    ensures entry_twice { IsCode entry_twice → ⊥ }
    ensures opened_by_another { IsCode opened_by_another → ⊥ }
    ensures scalar_filled { IsCode scalar_filled → ⊥ }
    ensures calls_without_right { IsCode calls_without_right → ⊥ }
{}

/// Proves that whole code has every right that is used, and that exact code has no other right.
///
/// A right is used by an entry or by an entry that it leads to. A test that searches bodies up to a given depth
/// establishes exactness. The worked codes are exact.
pub fn exact_rights()
    ensures reads { (C : Code) → IsCode C → (i : ℕ) (r : Name) → Leads C needs_of i r → In r (entry C i).reads }
    ensures writes { (C : Code) → IsCode C → (i : ℕ) (r : Name) → Leads C targets i r → In r (entry C i).writes }
    ensures tested { (C : Code) (depth : ℕ) → is_exact C depth ≡ true → IsExact C }
    ensures hello { IsExact hello }
    ensures used_before_assigned { IsExact used_before_assigned }
    ensures filled_by_loop { IsExact filled_by_loop }
    ensures key_written_twice { IsExact key_written_twice }
    ensures fibonacci { IsExact fibonacci }
    ensures filled_by_call { IsExact filled_by_call }
    ensures filled_without_end { IsExact filled_without_end }
    ensures several_outputs { IsExact several_outputs }
    ensures called_everywhere { IsExact called_everywhere }
    ensures right_without_use { IsCode right_without_use × (IsExact right_without_use → ⊥) }
{}

/// Proves the effects of selected items of the worked codes.
pub fn worked_items()
    ensures stores { StoresThree }
    ensures overflows { Overflows }
    ensures prints { PrintsHello }
    ensures lacks { LacksElement }
    ensures turns { OpensTurns }
    ensures literal_input { MeansTen }
    ensures output { MeansResult }
    ensures inner_output { MeansInner }
    ensures array_output { MeansCallersArray }
    ensures compares { ComparesTen }
    ensures chunks { Chunks }
{}

/// Proves facts about runs of the worked codes.
///
/// One run of `printf("hello");` ends quiet with its line. In one run an assignment waits for the following one. Two
/// runs of a script that writes a key twice end in a fault at the second write, in either order.
pub fn worked_runs()
    ensures hello { HelloRuns }
    ensures waits { WaitsForAssignment }
    ensures second_write { SecondWriteFaults }
{}
