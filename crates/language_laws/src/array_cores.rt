//! Proofs that the worked examples with arrays, loops and conditions are the cores of their scripts' trees.
//!
//! Nothing here runs: each function has an empty body, and its contract is a law.

ghost use Rattle.std.specs.Prelude.{◌≡◌};
ghost use Rattle.language_laws.specs.ArrayExamples.{nobody_writes, waits_for_itself, array_literal, whole_copies, wait_for_array};
ghost use Rattle.language_laws.specs.HeaderExamples.{no_step, headers_without_end, closed_loop, loop_over_array};
ghost use Rattle.language.specs.Resolved.{core};
ghost use Rattle.language.specs.Single.{SinglyAssigned};
ghost use Rattle.language.specs.WellFormed.{WellFormed};
ghost use Rattle.language_laws.specs.Trees as tree;

/// Proves that each of these cores is the core of its tree, with the table of its names. `language_laws` states what
/// the cores print, what is blocked and where they are at fault (Swift/T Guide, on arrays, loops and conditions;
/// docs/LANGUAGE.md, Cells).
pub fn array_cores_are_those_of_their_trees()
    ensures nobody_writes { core tree.table_of_nobody_writes tree.tree_of_nobody_writes ≡ nobody_writes }
    ensures waits_for_itself { core tree.table_of_waits_for_itself tree.tree_of_waits_for_itself ≡ waits_for_itself }
    ensures array_literal { core tree.table_of_array_literal tree.tree_of_array_literal ≡ array_literal }
    ensures whole_copies { core tree.table_of_whole_copies tree.tree_of_whole_copies ≡ whole_copies }
    ensures wait_for_array { core tree.table_of_wait_for_array tree.tree_of_wait_for_array ≡ wait_for_array }
    ensures no_step { core tree.table_of_no_step tree.tree_of_no_step ≡ no_step }
    ensures headers_without_end { core tree.table_of_headers_without_end tree.tree_of_headers_without_end ≡ headers_without_end }
    ensures closed_loop { core tree.table_of_closed_loop tree.tree_of_closed_loop ≡ closed_loop }
    ensures loop_over_array { core tree.table_of_loop_over_array tree.tree_of_loop_over_array ≡ loop_over_array }
{}

/// Proves that these scripts satisfy the premises of the laws: each is well formed and singly assigned.
pub fn array_cores_keep_the_premises()
    ensures nobody_writes { WellFormed nobody_writes × SinglyAssigned nobody_writes }
    ensures waits_for_itself { WellFormed waits_for_itself × SinglyAssigned waits_for_itself }
    ensures array_literal { WellFormed array_literal × SinglyAssigned array_literal }
    ensures whole_copies { WellFormed whole_copies × SinglyAssigned whole_copies }
    ensures wait_for_array { WellFormed wait_for_array × SinglyAssigned wait_for_array }
    ensures no_step { WellFormed no_step × SinglyAssigned no_step }
    ensures headers_without_end { WellFormed headers_without_end × SinglyAssigned headers_without_end }
    ensures closed_loop { WellFormed closed_loop × SinglyAssigned closed_loop }
    ensures loop_over_array { WellFormed loop_over_array × SinglyAssigned loop_over_array }
{}
