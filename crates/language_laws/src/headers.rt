//! Worked examples: the meaning of small scripts with loops and conditions.
//!
//! The functions are empty. Each contract states what one script of `specs/HeaderExamples` prints, or where it is at
//! fault.

ghost use Rattle.std.specs.Prelude.{◌≡◌, ℕ, ◌-◌, [], ◌∷◌, codes, length};
ghost use Rattle.values.specs.declared.fault.OpFault.TheVariants.{BadStep};
ghost use Rattle.values.specs.declared.value.Scalar.{Scalar};
ghost use Rattle.language_laws.specs.Examples.{calls_without_end};
ghost use Rattle.language_laws.specs.HeaderExamples.{nested_calls, no_step, headers_without_end, closed_loop, loop_over_array, filled_in_a_call};
ghost use Rattle.language.specs.Facts.{operation, too_deep};
ghost use Rattle.language.specs.Meaning.{HasValue, Meaning};
ghost use Rattle.language.specs.Outcomes.{Faults, Lines};
ghost use Rattle.language.specs.Places.{Path, max_path_steps};

/// Proves that `foreach i in [5:1:0] { }` is at fault: a step of 0 is a fault, even if the range has no values.
pub fn an_empty_range_has_its_step_tested()
    ensures { Faults (Meaning no_step) (operation BadStep) 0 [] }
{}

/// Proves that the condition is at fault in the deepest body of
/// `(int r) f(int n) { if (true) { } r = f(n + 1); } printf("%i", f(0));`. The path of this body has `max_path_steps`
/// steps.
pub fn a_header_at_the_longest_path_is_too_deep()
    ensures length { length (nested_calls 62 37 (max_path_steps - 1)) ≡ max_path_steps }
    ensures fault { Faults (Meaning headers_without_end) too_deep 19 (nested_calls 62 37 (max_path_steps - 1)) }
{}

/// Proves that the call is at fault in the deepest body of `(int r) f(int n) { r = f(n + 1); } printf("%i", f(0));`.
/// The path of this body has `max_path_steps` steps.
pub fn a_call_at_the_longest_path_is_too_deep()
    ensures length { length (nested_calls 48 23 (max_path_steps - 1)) ≡ max_path_steps }
    ensures fault { Faults (Meaning calls_without_end) too_deep 19 (nested_calls 48 23 (max_path_steps - 1)) }
{}

/// Proves that in `int A[] = [7]; if (false) { foreach v in A { } }` the variable `v` has no value at any path. No turn
/// of the loop is live.
pub fn a_loop_that_is_not_live_gives_no_value()
    ensures { (path : Path) (v : Scalar) → HasValue closed_loop (Meaning closed_loop) (path, 8) v → ⊥ }
{}

/// Proves that `int A[] = [7, 9]; int B[]; foreach v, i in A { B[i] = v; } printf("%i %i", size(B), B[1]);` prints 2 9
/// and nothing else. A loop over a closed array has a turn for each element, with its key and value.
pub fn a_loop_over_an_array_has_a_turn_for_each_element()
    ensures { Lines (Meaning loop_over_array) (codes "2 9" ∷ []) }
{}

/// Proves that `(int B[]) g(int m) { foreach i in [0:m-1] { B[i] = i*i; } } int C[]; C = g(4); printf("%i %i", size(C),
/// C[3]);` prints 4 9 and nothing else. The called function writes the caller's array, which is closed once the call
/// has finished with it.
pub fn a_called_function_fills_the_callers_array()
    ensures { Lines (Meaning filled_in_a_call) (codes "4 9" ∷ []) }
{}
