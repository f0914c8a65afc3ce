//! Proof that code laid by the rules for a script's core is the core's code: its bodies and entries stand for the
//! blocks and statements of the core.
//!
//! Nothing here runs: each function has an empty body, and its contract is a law.

ghost use Rattle.std.specs.Prelude.{◌≡◌, ◌≤◌, ◌+◌, ◌*◌, ℕ, Bool, List, [], length};
ghost use Rattle.dataflow.specs.System.{In};
ghost use Rattle.language.specs.Core.{Core};
ghost use Rattle.task_code.specs.Code.{Calling, Code, call_at, entry, ways};
ghost use Rattle.code_rules.specs.Emitted.{CallsOnce, CellsOnce, ReadsStand, size_of};
ghost use Rattle.code_rules.specs.IsCodeOf.{IsCodeOf, Layout};
ghost use Rattle.code_rules.specs.Laid.{IsLaid};
ghost use Rattle.code_rules.specs.Laying.{Kinds, LaysScript};
ghost use Rattle.code_rules.specs.NodesOnce.{NodesOnce};
ghost use Rattle.code_laws.specs.Worked.{fibonacci, fibonacci_kinds, fibonacci_code, misplaced_code, filled, filled_kinds, filled_declared, filled_code};
ghost use Rattle.language.specs.Typing.{WellTyped};
ghost use Rattle.language_accepted.specs.Placed.{IsPlaced};
ghost use Rattle.language.specs.Resolved.{core};
ghost use Rattle.language.specs.Table.{Table};
ghost use Rattle.language.specs.Tree.{Tree};

/// Proves that in laid code an entry that calls a function is found by its offset. The core has an offset of its own for
/// each call and a node of its own for each cell. The index of each read stands before it.
pub fn calls_are_found()
    ensures { (c : Core) (fs : List Kinds) (ds : List (ℕ × Bool)) (C : Code) → LaysScript c fs ds C → CellsOnce c → ReadsStand c → CallsOnce c
        → (i b : ℕ) → In (Calling, b) (ways (entry C i).act) → call_at C (entry C i).offset ≡ i }
{}

/// Proves bounds on the size of laid code. If the core has n functions, statements, cells and calls, the code has at
/// most n entries and 2n + 1 bodies. The bound on entries requires that each cell has a node of its own and that the
/// index of each read stands before it.
pub fn laid_code_is_small()
    ensures bodies { (c : Core) (fs : List Kinds) (ds : List (ℕ × Bool)) (C : Code) → LaysScript c fs ds C → length C.bodies ≤ 2 * size_of c + 1 }
    ensures entries { (c : Core) (fs : List Kinds) (ds : List (ℕ × Bool)) (C : Code) → LaysScript c fs ds C → CellsOnce c → ReadsStand c
        → length C.entries ≤ size_of c }
{}

/// Proves that cores meet the conditions of emission on cells. In a placed tree each cell has a node of its own, and in
/// every tree the index of each read stands before it.
pub fn accepted_cores_can_be_laid()
    ensures cells { (t : Table) (tree : Tree) → IsPlaced tree → CellsOnce (core t tree) }
    ensures reads { (t : Table) (tree : Tree) → ReadsStand (core t tree) }
{}

/// Proves that code laid for the core of a placed tree is a table of the core. Each body stands for a block, with the
/// entries of its statements and their variables, and each entry and each variable occurs once. This holds for any
/// kinds of functions and any declarations of variables.
pub fn laid_code_is_a_table()
    ensures { (t : Table) (tree : Tree) (fs : List Kinds) (ds : List (ℕ × Bool)) (C : Code) → IsPlaced tree → LaysScript (core t tree) fs ds C
        → (l : Layout) × IsLaid (core t tree) fs ds C l }
{}

/// Proves that code that is a table of a core, by any layout, is the core's code.
pub fn a_table_is_the_cores_code()
    ensures { (s : Core) (fs : List Kinds) (ds : List (ℕ × Bool)) (C : Code) (l : Layout) → IsLaid s fs ds C l → IsCodeOf s C }
{}

/// Proves that code laid for the core of a placed tree is the core's code. An entry of it that computes, writes or
/// prints a value has its node to itself.
pub fn laid_code_is_the_cores_code()
    ensures code { (t : Table) (tree : Tree) (fs : List Kinds) (ds : List (ℕ × Bool)) (C : Code) → IsPlaced tree → LaysScript (core t tree) fs ds C
        → IsCodeOf (core t tree) C }
    ensures nodes { (t : Table) (tree : Tree) (fs : List Kinds) (ds : List (ℕ × Bool)) (C : Code) → IsPlaced tree
        → LaysScript (core t tree) fs ds C → NodesOnce C }
{}

/// Proves that two worked codes are laid for their cores, and that a misplaced variant is not.
///
/// The first code is that of `(int r) fib(int n) { if (n < 2) { r = n; } else { r = fib(n-1) + fib(n-2); } }
/// printf("%i", fib(10));`. The second is that of `(int B[]) g(int m) { foreach i in [0:m-1] { B[i] = i*i; } } int C[];
/// C = g(4); printf("%i %i", size(C), C[3]);`. In the variant of the first, the entry of the first branch stands in the
/// function's own body instead of the branch's. It is not laid, whatever the kinds of its function and the declared
/// variables.
pub fn worked_code()
    ensures laid { LaysScript fibonacci fibonacci_kinds [] fibonacci_code }
    ensures filled { LaysScript filled filled_kinds filled_declared filled_code }
    ensures misplaced { (fs : List Kinds) (ds : List (ℕ × Bool)) → LaysScript fibonacci fs ds misplaced_code → ⊥ }
{}
