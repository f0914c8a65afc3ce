//! Bounds on the items and events of a run in terms of the script's live blocks, and invariance of the headline under
//! folding.
//!
//! This crate has no executable code. Each public function has an empty body, and its contract is a law.

ghost use Rattle.code_rules.specs.IsCodeOf.{IsCodeOf};
ghost use Rattle.code_rules.specs.NodesOnce.{NodesOnce};
ghost use Rattle.headline.specs.Headline.{Headline};
ghost use Rattle.headline.specs.Live.{IsBounded, IsLiveItem};
ghost use Rattle.dataflow.specs.Machine.{Event};
ghost use Rattle.dataflow.specs.System.{In};
ghost use Rattle.std.specs.Prelude.{◌≡◌, ◌⊎◌, List};
ghost use Rattle.fold_laws.specs.Same.{SameCore};
ghost use Rattle.language.specs.Core.{Core};
ghost use Rattle.language.specs.Outcomes.{Clean};
ghost use Rattle.language_accepted.specs.Placed.{IsPlaced};
ghost use Rattle.language.specs.Resolved.{core};
ghost use Rattle.language.specs.Single.{SinglyAssigned};
ghost use Rattle.language.specs.Table.{Table};
ghost use Rattle.language.specs.Tree.{Tree};
ghost use Rattle.language.specs.Typing.{WellTyped};
ghost use Rattle.task_code.specs.Code.{Code};
ghost use Rattle.task_code.specs.Effects.{Main};
ghost use Rattle.task_code.specs.Exact.{IsExact};
ghost use Rattle.task_code.specs.Machine.{CodeItem, CodeState, Run};
ghost use Rattle.task_code.specs.Whole.{IsCode};

/// States that each item of a run belongs to a live block of the script, and bounds the number of events.
///
/// The script writes no key twice. Except for expressions of literals, it equals a placed tree that is well typed and
/// singly assigned. The code stands for that tree, is whole, has exact rights and has each node once. Each item of each
/// state of a run is the main task, or belongs to a live block of the script. In the second case it is of an entry of
/// that block, at the block's path.
///
/// A run in which b items were given back has at most 2(I + b) events. There are lists of bodies of live blocks and of
/// running loops, without duplicates, that determine I. It counts 1, each entry of each of these bodies, and the
/// integer part of (m - 1)/64 for each loop with m turns.
pub fn bounded_runs()
    ensures live { (s : Core) (t : Table) (tree : Tree) (C : Code) → SameCore s (core t tree) → IsPlaced tree → WellTyped tree t → SinglyAssigned (core t tree)
        → (w : IsCodeOf (core t tree) C) → IsCode C → IsExact C → NodesOnce C → Clean s
        → (events : List Event) (st : CodeState) → Run C events st → (i : CodeItem) → In i st.items → (i.task ≡ Main) ⊎ IsLiveItem s C w.layout i.task }
    ensures bound { (s : Core) (t : Table) (tree : Tree) (C : Code) → SameCore s (core t tree) → IsPlaced tree → WellTyped tree t → SinglyAssigned (core t tree)
        → (w : IsCodeOf (core t tree) C) → IsCode C → IsExact C → NodesOnce C → Clean s
        → (events : List Event) (st : CodeState) → Run C events st → IsBounded s C w.layout events }
{}

/// States that the headline holds for one of two cores if it holds for the other, when they differ only in expressions
/// of literals.
pub fn same_headline()
    ensures { (c d : Core) (C : Code) → SameCore c d → Headline c C → Headline d C }
{}
