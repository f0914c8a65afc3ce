//! Proof that a run of a script's code that ends quiet leaves a blocked statement, or nothing at all.
//!
//! Nothing here runs: each function has an empty body, and its contract is a law.

ghost use Rattle.std.specs.Prelude.{◌≡◌, ℕ, List, [], true};
ghost use Rattle.dataflow.specs.System.{In};
ghost use Rattle.dataflow.specs.Machine.{Event};
ghost use Rattle.task_code.specs.Code.{Code};
ghost use Rattle.task_code.specs.Exact.{IsExact};
ghost use Rattle.task_code.specs.Machine.{CodeItem, CodeState, IsTidy, Quiet, Run};
ghost use Rattle.task_code.specs.Places.{Step};
ghost use Rattle.task_code.specs.Runs.{Blocked};
ghost use Rattle.task_code.specs.Whole.{IsCode};
ghost use Rattle.task_code.specs.Worked.{called_everywhere, fibonacci, filled_by_call, filled_by_loop, several_outputs, used_before_assigned};
ghost use Rattle.code_laws.specs.Sources.{CellsFollow, FindsSources};
ghost use Rattle.code_laws.specs.Tested.{has_sources};

/// Proves that a statement is blocked in a quiet state in which an item is left.
///
/// The state is reached by a run of whole code with exact rights. In this code each scalar that can be read has a
/// source, and cells follow the cells that they need.
pub fn left_items()
    ensures { (C : Code) → IsCode C → IsExact C → FindsSources C → CellsFollow C
        → (events : List Event) (s : CodeState) → Run C events s → Quiet C s
        → (i : CodeItem) → In i s.items → (at : ℕ) × (path : List Step) × Blocked C s at path }
{}

/// Proves that a quiet state without a blocked statement has no item left, and no datum once the free data are removed.
pub fn nothing_left()
    ensures items { (C : Code) → IsCode C → IsExact C → FindsSources C → CellsFollow C
        → (events : List Event) (s : CodeState) → Run C events s → Quiet C s
        → ((at : ℕ) (path : List Step) → Blocked C s at path → ⊥) → s.items ≡ [] }
    ensures data { (C : Code) → IsCode C → IsExact C → FindsSources C → CellsFollow C
        → (events : List Event) (s : CodeState) → Run C events s → Quiet C s
        → ((at : ℕ) (path : List Step) → Blocked C s at path → ⊥) → IsTidy C s → s.places ≡ [] }
{}

/// Proves that the computable test `has_sources` implies both `FindsSources` and `CellsFollow`, and that six worked
/// scripts have both.
///
/// Four scripts have a scalar used before its assignment, an array that a loop fills, a recursive function, and a
/// function that fills its caller's array. The other two have calls with several outputs, calls with array arguments,
/// nested calls, calls in loops and calls without outputs.
pub fn tested_sources()
    ensures tested { (C : Code) → has_sources C ≡ true → FindsSources C × CellsFollow C }
    ensures used_before_assigned { FindsSources used_before_assigned × CellsFollow used_before_assigned }
    ensures filled_by_loop { FindsSources filled_by_loop × CellsFollow filled_by_loop }
    ensures fibonacci { FindsSources fibonacci × CellsFollow fibonacci }
    ensures filled_by_call { FindsSources filled_by_call × CellsFollow filled_by_call }
    ensures several_outputs { FindsSources several_outputs × CellsFollow several_outputs }
    ensures called_everywhere { FindsSources called_everywhere × CellsFollow called_everywhere }
{}
