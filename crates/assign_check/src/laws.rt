//! Theorems that relate the faults of a script to the definition of single assignment.
ghost use Rattle.std.specs.Prelude.{◌≡◌, ℕ, [], Some, false};
ghost use Rattle.language.specs.Members.{◌∈◌};
ghost use Rattle.language.specs.Numbered.{numbered};
ghost use Rattle.language.specs.Resolved.{core};
ghost use Rattle.language.specs.Single.{SinglyAssigned};
ghost use Rattle.language.specs.Table.{Table};
ghost use Rattle.language.specs.Tree.{Tree};
ghost use Rattle.language.specs.Typing.{WellTyped};
ghost use Rattle.assign_check.specs.declared.fault.AssignFault.{AssignFault};
ghost use Rattle.assign_check.specs.Breaks.{Breaks};
ghost use Rattle.assign_check.specs.Faults.{faults, first_fault, precedes};

/// Proves that a well typed script, numbered in reading order, has no fault exactly if it is singly assigned.
pub fn single_assignment()
    ensures no_fault { (n : ℕ) (u tree : Tree) (t : Table) → tree ≡ numbered n u → WellTyped tree t → faults t tree ≡ [] → SinglyAssigned (core t tree) }
    ensures single { (n : ℕ) (u tree : Tree) (t : Table) → tree ≡ numbered n u → WellTyped tree t → SinglyAssigned (core t tree) → faults t tree ≡ [] }
{}

/// Proves that the reported fault is a fault of the script that no other one precedes.
///
/// The faults of a well typed script, numbered in reading order, are exactly the rules that it breaks, each at its
/// place. Hence it breaks no rule before the reported fault.
pub fn refusals_name_broken_rules()
    ensures there { (t : Table) (tree : Tree) (f : AssignFault) → first_fault (faults t tree) ≡ Some f → f ∈ faults t tree }
    ensures first { (t : Table) (tree : Tree) (f g : AssignFault) → first_fault (faults t tree) ≡ Some f → g ∈ faults t tree → precedes g f ≡ false }
    ensures names { (n : ℕ) (u tree : Tree) (t : Table) (f : AssignFault) → tree ≡ numbered n u → WellTyped tree t → f ∈ faults t tree → Breaks t tree f }
    ensures all { (n : ℕ) (u tree : Tree) (t : Table) (f : AssignFault) → tree ≡ numbered n u → WellTyped tree t → Breaks t tree f → f ∈ faults t tree }
    ensures none_before { (n : ℕ) (u tree : Tree) (t : Table) (f g : AssignFault) → tree ≡ numbered n u → WellTyped tree t
        → first_fault (faults t tree) ≡ Some f → Breaks t tree g → precedes g f ≡ false }
{}
