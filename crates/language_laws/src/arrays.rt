//! Worked examples: the meaning of small scripts with arrays.
//!
//! The functions are empty. Each contract states what one script of `specs/ArrayExamples` prints, or which statement is
//! blocked.

ghost use Rattle.std.specs.Prelude.{[], ◌∷◌, codes};
ghost use Rattle.language_laws.specs.ArrayExamples.{nobody_writes, waits_for_itself, array_literal, whole_copies, wait_for_array};
ghost use Rattle.language.specs.Meaning.{Meaning};
ghost use Rattle.language.specs.Outcomes.{Blocked, Lines};

/// Proves that `int A[]; printf("%i", size(A));` prints 0 and nothing else. An array without writers is closed from the
/// start.
pub fn an_array_that_nobody_writes_is_empty()
    ensures { Lines (Meaning nobody_writes) (codes "0" ∷ []) }
{}

/// Proves that `int A[] = [4, 5]; printf("%i %i", size(A), A[1]);` prints 2 5 and nothing else. A literal has its
/// elements under the keys from 0 on.
pub fn a_literal_is_an_array()
    ensures { Lines (Meaning array_literal) (codes "2 5" ∷ []) }
{}

/// Proves that `int A[] = [7]; wait (A) { printf("%i", size(A)); }` prints 1 and nothing else. The content is live once
/// the array is closed.
pub fn a_wait_opens_when_its_array_is_closed()
    ensures { Lines (Meaning wait_for_array) (codes "1" ∷ []) }
{}

/// Proves that `int A[] = [4, 5]; int B[] = A; int C[]; C = B; printf("%i %i", size(C), C[1]);` prints 2 5 and nothing
/// else. An array can be assigned as a whole.
pub fn a_whole_array_is_copied()
    ensures { Lines (Meaning whole_copies) (codes "2 5" ∷ []) }
{}

/// Proves that the write in `int A[]; A[0] = size(A);` is blocked. The array is closed only after the write, and the
/// write waits for the array.
pub fn an_array_that_waits_for_itself_is_blocked()
    ensures { Blocked waits_for_itself (Meaning waits_for_itself) 9 [] }
{}
