//! Worked examples: the meaning of small scripts, from scalars to nested waits.
//!
//! The functions are empty. Each contract states what one script of `specs/Examples` prints, where it is at fault, or
//! which statements are blocked.

ghost use Rattle.std.specs.Prelude.{◌≡◌, [], ◌∷◌, codes};
ghost use Rattle.values.specs.declared.fault.OpFault.TheVariants.{DivideByZero, Overflow};
ghost use Rattle.language_laws.specs.Examples.{read_before_assignment, loop_reads_what_it_writes, key_written_twice, missing_element, circle, fault_beside_unknown, fault_in_index, strict_and, too_large, outputs_are_the_callers, calls_without_end, nested_waits};
ghost use Rattle.language_laws.specs.HeaderExamples.{filled_in_a_call};
ghost use Rattle.language_laws.specs.ExampleTrees.{table_of_read_before_assignment, tree_of_read_before_assignment, table_of_loop_reads_what_it_writes, tree_of_loop_reads_what_it_writes, table_of_key_written_twice, tree_of_key_written_twice, table_of_missing_element, tree_of_missing_element, table_of_circle, tree_of_circle, table_of_fault_beside_unknown, tree_of_fault_beside_unknown, table_of_fault_in_index, tree_of_fault_in_index, table_of_strict_and, tree_of_strict_and, table_of_too_large, tree_of_too_large, table_of_outputs_are_the_callers, tree_of_outputs_are_the_callers, table_of_calls_without_end, tree_of_calls_without_end, table_of_nested_waits, tree_of_nested_waits, table_of_filled_in_a_call, tree_of_filled_in_a_call, table_of_fibonacci, tree_of_fibonacci};
ghost use Rattle.language.specs.Facts.{Fact, operation, no_element, element_twice};
ghost use Rattle.language.specs.Meaning.{Meaning};
ghost use Rattle.language.specs.Outcomes.{Blocked, Faults, Lines};
ghost use Rattle.language.specs.Resolved.{core};
ghost use Rattle.language.specs.Single.{SinglyAssigned};
ghost use Rattle.language.specs.WellFormed.{WellFormed};

/// Proves that each of these cores is the core of its tree, with the table of its names.
pub fn the_cores_are_those_of_the_trees()
    ensures read_before_assignment { core table_of_read_before_assignment tree_of_read_before_assignment ≡ read_before_assignment }
    ensures loop_reads_what_it_writes { core table_of_loop_reads_what_it_writes tree_of_loop_reads_what_it_writes ≡ loop_reads_what_it_writes }
    ensures key_written_twice { core table_of_key_written_twice tree_of_key_written_twice ≡ key_written_twice }
    ensures missing_element { core table_of_missing_element tree_of_missing_element ≡ missing_element }
    ensures circle { core table_of_circle tree_of_circle ≡ circle }
    ensures fault_beside_unknown { core table_of_fault_beside_unknown tree_of_fault_beside_unknown ≡ fault_beside_unknown }
    ensures fault_in_index { core table_of_fault_in_index tree_of_fault_in_index ≡ fault_in_index }
    ensures strict_and { core table_of_strict_and tree_of_strict_and ≡ strict_and }
    ensures too_large { core table_of_too_large tree_of_too_large ≡ too_large }
    ensures outputs_are_the_callers { core table_of_outputs_are_the_callers tree_of_outputs_are_the_callers ≡ outputs_are_the_callers }
    ensures calls_without_end { core table_of_calls_without_end tree_of_calls_without_end ≡ calls_without_end }
    ensures nested_waits { core table_of_nested_waits tree_of_nested_waits ≡ nested_waits }
    ensures filled_in_a_call { core table_of_filled_in_a_call tree_of_filled_in_a_call ≡ filled_in_a_call }
{}

/// Proves that these scripts satisfy the premises of the laws. Among them are a script that fills an array in a called
/// function and one that calls itself.
pub fn the_examples_keep_the_premises()
    ensures read_before_assignment { WellFormed (core table_of_read_before_assignment tree_of_read_before_assignment)
        × SinglyAssigned (core table_of_read_before_assignment tree_of_read_before_assignment) }
    ensures loop_reads_what_it_writes { WellFormed (core table_of_loop_reads_what_it_writes tree_of_loop_reads_what_it_writes)
        × SinglyAssigned (core table_of_loop_reads_what_it_writes tree_of_loop_reads_what_it_writes) }
    ensures key_written_twice { WellFormed (core table_of_key_written_twice tree_of_key_written_twice)
        × SinglyAssigned (core table_of_key_written_twice tree_of_key_written_twice) }
    ensures missing_element { WellFormed (core table_of_missing_element tree_of_missing_element)
        × SinglyAssigned (core table_of_missing_element tree_of_missing_element) }
    ensures circle { WellFormed (core table_of_circle tree_of_circle) × SinglyAssigned (core table_of_circle tree_of_circle) }
    ensures fault_beside_unknown { WellFormed (core table_of_fault_beside_unknown tree_of_fault_beside_unknown)
        × SinglyAssigned (core table_of_fault_beside_unknown tree_of_fault_beside_unknown) }
    ensures fault_in_index { WellFormed (core table_of_fault_in_index tree_of_fault_in_index)
        × SinglyAssigned (core table_of_fault_in_index tree_of_fault_in_index) }
    ensures strict_and { WellFormed (core table_of_strict_and tree_of_strict_and) × SinglyAssigned (core table_of_strict_and tree_of_strict_and) }
    ensures too_large { WellFormed (core table_of_too_large tree_of_too_large) × SinglyAssigned (core table_of_too_large tree_of_too_large) }
    ensures outputs_are_the_callers { WellFormed (core table_of_outputs_are_the_callers tree_of_outputs_are_the_callers)
        × SinglyAssigned (core table_of_outputs_are_the_callers tree_of_outputs_are_the_callers) }
    ensures calls_without_end { WellFormed (core table_of_calls_without_end tree_of_calls_without_end)
        × SinglyAssigned (core table_of_calls_without_end tree_of_calls_without_end) }
    ensures nested_waits { WellFormed (core table_of_nested_waits tree_of_nested_waits) × SinglyAssigned (core table_of_nested_waits tree_of_nested_waits) }
    ensures filled_in_a_call { WellFormed (core table_of_filled_in_a_call tree_of_filled_in_a_call)
        × SinglyAssigned (core table_of_filled_in_a_call tree_of_filled_in_a_call) }
    ensures fibonacci { WellFormed (core table_of_fibonacci tree_of_fibonacci) × SinglyAssigned (core table_of_fibonacci tree_of_fibonacci) }
{}

/// Proves that `int x; int y; x = y + 1; y = 2; printf("%i", x);` prints 3 and nothing else. Statements wait for data,
/// not for one another.
pub fn a_cell_is_read_before_its_assignment()
    ensures { Lines (Meaning read_before_assignment) (codes "3" ∷ []) }
{}

/// Proves that `int A[]; A[0] = 1; foreach i in [1:2] { A[i] = A[i-1] * 2; } printf("%i", A[2]);` prints 4 and nothing
/// else. Each turn reads what the previous one wrote.
pub fn a_loop_reads_what_it_writes()
    ensures { Lines (Meaning loop_reads_what_it_writes) (codes "4" ∷ []) }
{}

/// Proves that in `int A[]; A[0] = 1; A[0] = 2;` both writes are at fault, the one at offset 9 and the one at offset
/// 19.
pub fn each_of_two_writers_is_at_fault()
    ensures { Faults (Meaning key_written_twice) element_twice 9 [] × Faults (Meaning key_written_twice) element_twice 19 [] }
{}

/// Proves that `int A[]; A[0] = 1; printf("%i", A[3]);` is at fault: once the array is closed, the element is missing.
pub fn an_element_that_nothing_writes_is_missing()
    ensures { Faults (Meaning missing_element) no_element 19 [] }
{}

/// Proves that in `int x; int y; x = y; y = x; printf("%i", x);` nothing ever becomes known, and all three statements
/// after the declarations are blocked.
pub fn a_circle_is_blocked()
    ensures { Blocked circle (Meaning circle) 14 [] × Blocked circle (Meaning circle) 21 [] × Blocked circle (Meaning circle) 28 [] }
{}

/// Proves that nothing ever becomes known of `int y; int z; y = z; z = y; printf("%i", 1 %/ 0 + y);`. The line waits
/// for `y` and is blocked; the division beside `y` is not a fault.
pub fn a_fault_beside_an_unknown_part_is_none()
    ensures { ((f : Fact) → Meaning fault_beside_unknown f → ⊥) × Blocked fault_beside_unknown (Meaning fault_beside_unknown) 28 [] }
{}

/// Proves that `.. A[1 %/ 0] + y` is at fault although `y` is unknown. The index is a cell of its own.
pub fn a_fault_in_an_index_is_one()
    ensures { Faults (Meaning fault_in_index) (operation DivideByZero) 47 [] }
{}

/// Proves that `boolean b = false && 1 %/ 0 == 1;` divides by zero.
pub fn every_operator_is_strict()
    ensures { Faults (Meaning strict_and) (operation DivideByZero) 0 [] }
{}

/// Proves that `int x = 9223372036854775807 + 1;` overflows.
pub fn a_sum_can_be_too_large()
    ensures { Faults (Meaning too_large) (operation Overflow) 0 [] }
{}

/// Proves that `(p, q) = two(3); printf("%i %i", p, q);` prints 4 8 and nothing else.
pub fn the_outputs_of_a_call_are_the_callers_variables()
    ensures { Lines (Meaning outputs_are_the_callers) (codes "4 8" ∷ []) }
{}

/// Proves that in `int x = 1; .. wait (x) { wait (y) { printf("q"); } }`, with `y` unknown, the inner wait is live and
/// blocked.
pub fn a_wait_in_a_wait_is_blocked_alone()
    ensures { Blocked nested_waits (Meaning nested_waits) 50 [] }
{}
