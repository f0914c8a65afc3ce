//! Theorem that the contracts of consecutive stages fit together.
//!
//! Nothing here runs: the function has an empty body, and its contract is a law.
ghost use Rattle.std.specs.Prelude.{◌≡◌, ◌⊎◌, ◌++◌, ℕ, List, map};
ghost use Rattle.compile.specs.Accepted.{IsAccepted};
ghost use Rattle.compile.specs.Compiled.{IsOfScript};
ghost use Rattle.constant_fold.specs.Folded.{folded_tree};
ghost use Rattle.flow.specs.Cells.{AreAmong, anchors_of};
ghost use Rattle.flow.specs.Listed.{shown_of};
ghost use Rattle.flow.specs.Shapes.{declared_of, kinds_of};
ghost use Rattle.flow.specs.View.{core_of};
ghost use Rattle.flow.specs.declared.script.Flow.{Flow};
ghost use Rattle.language.specs.Resolved.{core};
ghost use Rattle.language.specs.Scopes.{signatures};
ghost use Rattle.language.specs.Table.{Table};
ghost use Rattle.language.specs.Tree.{Tree};
ghost use Rattle.lowering.specs.Listed.{shown};
ghost use Rattle.lowering.specs.Nodes.{nodes_of};
ghost use Rattle.lowering.specs.Shapes.{flagged, function_declarations, kinds_of_signature, own_declarations};
ghost use Rattle.wait_merge.specs.Merged.{IsMerged};

/// Proves that the output of `lower` and `merge` satisfies the precondition of `rights` for an accepted script, whether
/// `fold` was called before or not. Given the fold, the merged flow is the flow of the folded script.
pub fn merged_flows_are_of_scripts<A>()
    ensures { (src : List ℕ) (t : Table) (tree other : Tree) (lowered merged : Flow A) → IsAccepted src t tree
        → (other ≡ tree) ⊎ (other ≡ folded_tree tree)
        → core_of lowered ≡ core t other
        → declared_of lowered ≡ flagged (own_declarations other) ++ flagged (function_declarations other)
        → kinds_of lowered ≡ map kinds_of_signature (signatures other)
        → shown_of lowered ≡ shown other
        → AreAmong (anchors_of lowered) (nodes_of other)
        → core_of merged ≡ core_of lowered
        → declared_of merged ≡ declared_of lowered
        → kinds_of merged ≡ kinds_of lowered
        → shown_of merged ≡ shown_of lowered
        → anchors_of merged ≡ anchors_of lowered
        → IsMerged merged
        → IsOfScript merged }
{}
