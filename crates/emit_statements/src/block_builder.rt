//! The body of a block under construction.
ghost use Rattle.std.specs.Prelude.{◌≡◌, ◌++◌, ◌≤◌, ◌^◌, ◌-◌, OnOk};
ghost use Rattle.code_rules.specs.Laying.{counted};

use std::alloc::AllocError;
use task_code::body_numbers::small;
use task_code::entry::Variable;

/// The variables that a block declares, and the numbers of its entries.
#[derive(Drop)]
pub struct BlockBuilder {
    pub makes: Vec<Variable>,
    pub entries: Vec<u32>,
}

/// Appends the numbers from `from` up to but not including `to`.
pub fn add_numbers(numbers: &mut Vec<u32>, from: usize, to: usize) -> Result<(), AllocError>
    ensures { OnOk result (from ≤ to → to ≤ 2 ^ 32 → numbers.new.items ≡ numbers.old.items ++ counted from (to - from)) }
{
    for number in from..to {
        numbers.push(small(number))?;
    }
    Ok(())
}
