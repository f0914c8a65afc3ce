//! Laws of the code emitted for a script and of its runs, for every naming of data. Nothing here runs: each function
//! has an empty body, and its contract is a law.
ghost use Rattle.dataflow.specs.Machine.{Event};
ghost use Rattle.dataflow.specs.System.{In};
ghost use Rattle.dataflow.specs.Names.{IsFresh, IsNaming, NamedState, NamedStep, NamedSteps, named_start};
ghost use Rattle.code_laws.specs.Alike.{AreAlike};
ghost use Rattle.code_rules.specs.Emitted.{IsEmitted};
ghost use Rattle.code_rules.specs.Laying.{Kinds};
ghost use Rattle.compile.specs.Compiled.{IsCompiled};
ghost use Rattle.compile.specs.Accepted.{IsAccepted};
ghost use Rattle.constant_fold.specs.Folded.{folded_tree};
ghost use Rattle.emit.specs.Marks.{marks_of};
ghost use Rattle.flow.specs.Cells.{AreAmong};
ghost use Rattle.lowering.specs.Nodes.{nodes_of};
ghost use Rattle.std.specs.Prelude.{◌≡◌, ℕ, Bool, List, []};
ghost use Rattle.headline.specs.Headline.{Agrees, IsAll};
ghost use Rattle.language.specs.Outcomes.{Clean};
ghost use Rattle.language.specs.Resolved.{core};
ghost use Rattle.language.specs.Table.{Table};
ghost use Rattle.language.specs.Tree.{Tree};
ghost use Rattle.task_code.specs.Code.{Code};
ghost use Rattle.task_code.specs.Machine.{CodeItem, CodeState, CodeStep, IsTidy, Quiet, Run};
ghost use Rattle.task_code.specs.Places.{Step};
ghost use Rattle.task_code.specs.Runs.{Blocked};
ghost use Rattle.task_code.specs.System.{code_system};
ghost use Rattle.code_laws.specs.Described.{DeclaredIn, KindsOf};

/// Proves that code emitted for the fold of an accepted script, with the offsets of the fold's nodes, is the compiled
/// code of the text.
///
/// The code is laid by the rules for the core of the folded tree, with exactly the rights that its entries lead to.
/// Every run of it satisfies the headline of the script, and the code has all properties of `IsCompiled`.
pub fn emitted_code_is_compiled()
    ensures { (src : List ℕ) (t : Table) (tree : Tree) (fs : List Kinds) (ds : List (ℕ × Bool)) (code : Code) → IsAccepted src t tree
        → KindsOf fs tree → DeclaredIn ds tree → IsEmitted (core t (folded_tree tree)) fs ds code
        → AreAmong (marks_of code.entries) (nodes_of (folded_tree tree)) → IsCompiled src code }
{}

/// Proves that the guarantees of a script's runs hold for every naming of data.
///
/// A new datum may take any name that is not in use. If the script writes no key twice, each state agrees with the
/// script. A state that is quiet without a fault has all of its meaning. From any supply of fresh names, each step can
/// be taken.
pub fn every_naming_of_scripts<N>()
    ensures agrees { (src : List ℕ) (code : Code) (w : IsCompiled src code) → Clean (core w.table w.tree) →
        (events : List Event) (st : NamedState (code_system code) N) →
        NamedSteps (code_system code) N (named_start (code_system code) N) events st → Agrees (core w.table w.tree) code st.state }
    ensures all { (src : List ℕ) (code : Code) (w : IsCompiled src code) →
        (events : List Event) (st : NamedState (code_system code) N) →
        NamedSteps (code_system code) N (named_start (code_system code) N) events st →
        Quiet code st.state → IsAll (core w.table w.tree) code st.state }
    ensures found { (src : List ℕ) (code : Code) → IsCompiled src code → (fresh : List N → N) → IsFresh N fresh →
        (old : NamedState (code_system code) N) → IsNaming (code_system code) N old.names old.state.places →
        (event : Event) (new : CodeState) → CodeStep code old.state event new →
        (named : NamedState (code_system code) N) × (named.state ≡ new) × NamedStep (code_system code) N old event named }
{}

/// Proves that two codes of one text are alike: they have the same bodies, and their entries do the same with the same
/// rights.
pub fn codes_of_a_text_are_alike()
    ensures { (src : List ℕ) (C D : Code) → IsCompiled src C → IsCompiled src D → AreAlike C D }
{}

/// Proves that a run that ends quiet without a fault leaves a blocked statement, or nothing at all.
///
/// If an item is left, a statement is blocked. If no statement is blocked, no item is left. No datum is left either,
/// once the free data have been removed.
pub fn quiet_runs_leave_nothing()
    ensures blocked { (src : List ℕ) (code : Code) → IsCompiled src code → (events : List Event) (st : CodeState) → Run code events st
        → Quiet code st → (i : CodeItem) → In i st.items → (at : ℕ) × (path : List Step) × Blocked code st at path }
    ensures items { (src : List ℕ) (code : Code) → IsCompiled src code → (events : List Event) (st : CodeState) → Run code events st
        → Quiet code st → ((at : ℕ) (path : List Step) → Blocked code st at path → ⊥) → st.items ≡ [] }
    ensures data { (src : List ℕ) (code : Code) → IsCompiled src code → (events : List Event) (st : CodeState) → Run code events st
        → Quiet code st → ((at : ℕ) (path : List Step) → Blocked code st at path → ⊥) → IsTidy code st → st.places ≡ [] }
{}
