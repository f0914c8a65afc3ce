//! The main theorem, that every run of a script's code agrees with the script's meaning.
//!
//! This crate has no executable code. Its public functions have empty bodies and carry the theorems in their contracts.
#![tactic(auto)]

ghost use Rattle.headline.specs.Asserted.{Asserted};
ghost use Rattle.headline.specs.Backs.{Backs};
ghost use Rattle.headline.specs.Halves.{Half, HalfIn};
ghost use Rattle.headline.specs.Knows.{Knows};
ghost use Rattle.headline.specs.Inclusions.{Facts, WrittenTo, WrittenFrom, ClosedTo, ClosedFrom, ArraysOnce, LinesTo, LinesFrom, FaultsTo};
ghost use Rattle.code_rules.specs.NodesOnce.{NodesOnce};
ghost use Rattle.language_laws.specs.Scoped.{Scoped};
ghost use Rattle.code_rules.specs.IsCodeOf.{IsCodeOf};
ghost use Rattle.language_laws.specs.TypedValues.{TypedValues};
ghost use Rattle.headline.specs.Headline.{Agrees, Headline};
ghost use Rattle.headline.specs.Worked.{fibonacci, fibonacci_code, filled, filled_code};
ghost use Rattle.dataflow.specs.Facts.{Ever};
ghost use Rattle.dataflow.specs.Machine.{Event};
ghost use Rattle.dataflow.specs.System.{Effect};
ghost use Rattle.std.specs.Prelude.{ℕ, List};
ghost use Rattle.language.specs.Core.{Core};
ghost use Rattle.language.specs.Facts.{OneWriter};
ghost use Rattle.language.specs.Meaning.{Known, Meaning};
ghost use Rattle.language.specs.Outcomes.{Clean};
ghost use Rattle.language.specs.Places as ScriptPlaces;
ghost use Rattle.language_accepted.specs.Placed.{IsPlaced};
ghost use Rattle.language.specs.Resolved.{core};
ghost use Rattle.language.specs.Single.{SinglyAssigned};
ghost use Rattle.language.specs.Table.{Table};
ghost use Rattle.language.specs.Tree.{Tree};
ghost use Rattle.language.specs.Typing.{WellTyped};
ghost use Rattle.language.specs.WellFormed.{WellFormed};
ghost use Rattle.task_code.specs.Code.{Code};
ghost use Rattle.task_code.specs.Effects.{Task};
ghost use Rattle.task_code.specs.Exact.{IsExact};
ghost use Rattle.task_code.specs.Machine.{CleanCode, CodeState, Run, Quiet};
ghost use Rattle.task_code.specs.Places.{Place};
ghost use Rattle.task_code.specs.System.{code_system};
ghost use Rattle.task_code.specs.Whole.{IsCode};
ghost use Rattle.values.specs.declared.key.Key.{Key};
ghost use Rattle.values.specs.declared.value.Scalar.{Scalar};

pub mod bounded_runs;

/// States that two example codes are the codes of their scripts, whole, exact and with each node once. One script has a
/// recursive function, the other a function that fills an array of its caller in a loop.
pub fn worked_codes()
    ensures fibonacci { IsCodeOf fibonacci fibonacci_code × IsCode fibonacci_code × NodesOnce fibonacci_code × IsExact fibonacci_code }
    ensures filled { IsCodeOf filled filled_code × IsCode filled_code × NodesOnce filled_code × IsExact filled_code }
{}

/// States for the whole language that code and script agree on writes and lines.
///
/// What the code writes by the script's answers is known of the script. What is known of the script is written by the
/// code if a live task may read it. Each key of an array is written by one task, and lines agree for each writer.
pub fn writes_agree()
    ensures to { (s : Core) (C : Code) → IsCodeOf s C → IsCode C → WellFormed s → Knows s (Meaning s) → Scoped s → TypedValues s (Meaning s)
        → WrittenTo s C (Meaning s) }
    ensures from { (s : Core) (C : Code) → IsCodeOf s C → IsCode C → WellFormed s → Knows s (Meaning s) → Scoped s → TypedValues s (Meaning s)
        → WrittenFrom s C (Meaning s) }
    ensures once { (s : Core) (C : Code) → IsCodeOf s C → IsCode C → WellFormed s → Knows s (Meaning s) → Scoped s → TypedValues s (Meaning s) → NodesOnce C
        → ArraysOnce s C (Meaning s) }
    ensures prints_to { (s : Core) (C : Code) → IsCodeOf s C → IsCode C → WellFormed s → Knows s (Meaning s) → Scoped s → TypedValues s (Meaning s)
        → LinesTo s C (Meaning s) }
    ensures prints_from { (s : Core) (C : Code) → IsCodeOf s C → IsCode C → WellFormed s → Knows s (Meaning s) → Scoped s → LinesFrom s C (Meaning s) }
{}

/// States for the whole language that code and script agree on closed arrays.
///
/// An array that is closed in the code, by the script's answers, is closed in the script. If the rights are exact, an
/// array that is closed in the script is closed in the code, if a live task may read it.
pub fn closed_agrees()
    ensures to { (s : Core) (C : Code) → IsCodeOf s C → IsCode C → WellFormed s → Knows s (Meaning s) → Scoped s → TypedValues s (Meaning s)
        → ClosedTo s C (Meaning s) }
    ensures from { (s : Core) (C : Code) → IsCodeOf s C → IsCode C → WellFormed s → Knows s (Meaning s) → Scoped s → TypedValues s (Meaning s) → NodesOnce C
        → IsExact C → SinglyAssigned s → ClosedFrom s C (Meaning s) }
{}

/// States for the whole language that every fact of the code is yielded by the script's answers, and that no key has
/// two writers.
pub fn code_within_script()
    ensures facts { (s : Core) (C : Code) → IsCodeOf s C → IsCode C → WellFormed s → Knows s (Meaning s) → Scoped s → TypedValues s (Meaning s) → NodesOnce C
        → IsExact C → SinglyAssigned s
        → (t : Task) (e : Effect Task Place Key Scalar) → Ever (code_system C) t e → Facts s C (Meaning s) t e }
    ensures clean { (s : Core) (C : Code) → IsCodeOf s C → IsCode C → WellFormed s → Knows s (Meaning s) → Scoped s → TypedValues s (Meaning s) → NodesOnce C
        → IsExact C → SinglyAssigned s → CleanCode C }
{}

/// States for the whole language that every state of every run agrees with a script that writes no key twice.
///
/// A stored value is the script's value at its place. An array that is closed by rights is closed in the script. The
/// printed lines are some of the script's lines, none used twice. A fault is one of the script's faults, at the
/// statement and path of its item.
pub fn runs_agree()
    ensures { (s : Core) (C : Code) → IsCodeOf s C → IsCode C → IsExact C → NodesOnce C → WellFormed s → SinglyAssigned s → Scoped s → TypedValues s (Meaning s)
        → Clean s → (events : List Event) (st : CodeState) → Run C events st → Agrees s C st }
{}

/// States for the whole language that each fault of the code is one of the script's faults. The fault must follow from
/// the facts of the code, by the script's answers.
pub fn faults_agree()
    ensures { (s : Core) (C : Code) → IsCodeOf s C → IsCode C → IsExact C → NodesOnce C → WellFormed s → Knows s (Meaning s) → Scoped s
        → TypedValues s (Meaning s) → SinglyAssigned s → FaultsTo s C (Meaning s) }
{}

/// States that the rounds of the script agree with the code, without the premise that the script writes no key twice.
///
/// Half a round is what is known after n rounds, with the scalars that follow from it. It meets the premises of the
/// lemmas from script to code as long as round n is clean. If the code writes no key twice, neither does the script.
/// The code then has all facts that half a round yields, and so all facts that the script's answers yield.
pub fn rounds_agree()
    ensures backs { (s : Core) → WellFormed s → SinglyAssigned s → (n : ℕ) → ((a : ScriptPlaces.Place) → OneWriter (Known s n) a) → Backs s (Half s n) }
    ensures clean { (s : Core) (C : Code) → IsCodeOf s C → WellFormed s → SinglyAssigned s → IsCode C → Scoped s → CleanCode C → IsExact C
        → Clean s }
    ensures half { (s : Core) (C : Code) → IsCodeOf s C → WellFormed s → SinglyAssigned s → IsCode C → Scoped s → CleanCode C → IsExact C
        → (n : ℕ) → HalfIn s C n }
    ensures meaning { (s : Core) (C : Code) → IsCodeOf s C → WellFormed s → SinglyAssigned s → IsCode C → Scoped s → CleanCode C → IsExact C
        → (t : Task) (e : Effect Task Place Key Scalar) → Facts s C (Meaning s) t e → Ever (code_system C) t e }
{}

/// States the headline for the whole language, from the relation between script and code alone.
///
/// Every state of every run agrees with a script that writes no key twice. Every quiet state without fault has all of
/// the script's meaning, whatever the script writes. The script then has no fault, the lines are the script's lines,
/// and the blocked statements are the script's blocked statements. A script whose code reaches such a state writes no
/// key twice (`clean`).
pub fn headline()
    ensures every_run { (s : Core) (C : Code) → IsCodeOf s C → IsCode C → IsExact C → NodesOnce C → WellFormed s → SinglyAssigned s → Scoped s
        → TypedValues s (Meaning s) → Asserted s → Headline s C }
    ensures clean { (s : Core) (C : Code) → IsCodeOf s C → IsCode C → IsExact C → NodesOnce C → WellFormed s → SinglyAssigned s → Scoped s
        → TypedValues s (Meaning s)
        → (events : List Event) (st : CodeState) → Run C events st → Quiet C st → Clean s }
{}

/// States that the core of each tree, with any table of its names, has an assertion operator in the cell of each
/// assertion. That operator results in true or a fault.
pub fn asserted_cores()
    ensures { (t : Table) (tree : Tree) → Asserted (core t tree) }
{}

/// States the headline for every placed tree that is well typed and singly assigned, as the tree of every accepted
/// script is. It holds for any code of the tree that is whole, has exact rights and has each node once. There is no
/// other premise.
pub fn accepted_scripts()
    ensures { (t : Table) (tree : Tree) (C : Code) → IsPlaced tree → WellTyped tree t → SinglyAssigned (core t tree)
        → IsCodeOf (core t tree) C → IsCode C → IsExact C → NodesOnce C → Headline (core t tree) C }
{}
