//! Selection of the fault that is reported, if a script has several.
//!
//! The fault whose place begins first is reported; of several at one place, the one with the smallest number.
ghost use Rattle.std.specs.Prelude.{◌≡◌};
ghost use Rattle.assign_check.specs.Faults as faults;

use crate::fault::AssignFault;

/// Returns the byte offset at which the place of a fault begins.
fn place(fault: AssignFault) -> usize
    ensures { result ≡ faults.place fault }
{
    match fault {
        AssignFault::AssignedTwice(at)
        | AssignFault::PartlyAssigned(at)
        | AssignFault::NeverAssigned(at)
        | AssignFault::OuterInLoop(at)
        | AssignFault::WholeAndElements(at)
        | AssignFault::OutputUnassigned(at) => at.from,
        AssignFault::Memory => 0,
    }
}

/// Returns the number of the rule: 1 for S1 and so on, or 0 for `Memory`.
fn code(fault: AssignFault) -> u8
    ensures { result ≡ faults.code fault }
{
    match fault {
        AssignFault::AssignedTwice(_) => 1,
        AssignFault::PartlyAssigned(_) => 2,
        AssignFault::NeverAssigned(_) => 3,
        AssignFault::OuterInLoop(_) => 4,
        AssignFault::WholeAndElements(_) => 5,
        AssignFault::OutputUnassigned(_) => 6,
        AssignFault::Memory => 0,
    }
}

/// Returns true if the first fault takes precedence: its place begins earlier, or the places begin together and its
/// code is smaller.
fn precedes(one: AssignFault, other: AssignFault) -> bool
    ensures { result ≡ faults.precedes one other }
{
    let (from, behind) = (place(one), place(other));
    from < behind || from == behind && code(one) < code(other)
}

/// Replaces the best fault so far if the new one takes precedence, or if there is none yet.
pub fn note(best: &mut Option<AssignFault>, fault: AssignFault)
    ensures { best.new ≡ faults.earlier best.old fault }
{
    match *best {
        None => *best = Some(fault),
        Some(other) => {
            if precedes(fault, other) {
                *best = Some(fault);
            }
        }
    }
}
