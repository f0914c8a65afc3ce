//! Conditions that one side of an `&&` or `||` decides while another side is not known.

use crate::expressions::value_of;
use flow::cell::{CellForm, CellPart, OuterCell};
use flow::expression::{Expr, Operation};
use flow::statement::Action;
use meaning_cells::parts::outers_of;
use meaning_facts::fact_base::FactBase;
use std::alloc::{AllocError, Allocator, Global};
use values::value::{Scalar, Value};

/// An operator on conditions. All its operands are evaluated, even if one of them decides the result.
#[derive(Clone, Copy)]
pub enum Junction {
    And,
    Or,
}

impl Junction {
    /// Returns the text of a hint for a condition that one side decides.
    pub fn remedy(self) -> &'static str {
        match self {
            Junction::And => {
                "both sides of && are evaluated: write if (..) { if (..) { .. } }, with the test that decides first\n"
            }
            Junction::Or => {
                "both sides of || are evaluated: write if (..) { .. } else if (..) { .. }, with the test that decides first\n"
            }
        }
    }

    /// Returns the value of an operand that decides the result.
    fn deciding(self) -> bool {
        match self {
            Junction::And => false,
            Junction::Or => true,
        }
    }
}

/// Returns an operator of a statement of which one operand decides the result and another one is not known. Returns
/// `None` if there is no such operator.
///
/// # Errors
///
/// Returns `AllocError` if an allocation fails.
pub fn decided_junction<A: Allocator>(
    fact_base: &FactBase,
    alloc: Global,
    instance: usize,
    action: &Action<A>,
) -> Result<Option<Junction>, AllocError> {
    let outers = outers_of(alloc, action)?;
    for outer in &outers {
        if let Some(found) = in_outer(fact_base, alloc, instance, outer)? {
            return Ok(Some(found));
        }
    }
    Ok(None)
}

fn in_outer<A: Allocator>(
    fact_base: &FactBase,
    alloc: Global,
    instance: usize,
    outer: &OuterCell<A>,
) -> Result<Option<Junction>, AllocError> {
    for part in &outer.parts {
        if let Some(found) = in_part(fact_base, alloc, instance, part)? {
            return Ok(Some(found));
        }
    }
    in_form(fact_base, alloc, instance, &outer.cell.form)
}

fn in_part<A: Allocator>(
    fact_base: &FactBase,
    alloc: Global,
    instance: usize,
    part: &CellPart<A>,
) -> Result<Option<Junction>, AllocError> {
    match part {
        CellPart::Inner(cell) => in_form(fact_base, alloc, instance, &cell.form),
        CellPart::Calls(_) => Ok(None),
    }
}

fn in_form<A: Allocator>(
    fact_base: &FactBase,
    alloc: Global,
    instance: usize,
    form: &CellForm<A>,
) -> Result<Option<Junction>, AllocError> {
    match form {
        CellForm::Compute(expr) => in_expr(fact_base, alloc, instance, expr),
        CellForm::Read { .. } => Ok(None),
    }
}

#[cycle(search)]
fn in_expr<A: Allocator>(
    fact_base: &FactBase,
    alloc: Global,
    instance: usize,
    expr: &Expr<A>,
) -> Result<Option<Junction>, AllocError> {
    match expr {
        Expr::Operation(operation, operands) => {
            match decided(fact_base, alloc, instance, operation, operands)? {
                Some(found) => Ok(Some(found)),
                None => in_exprs(fact_base, alloc, instance, operands),
            }
        }
        _ => Ok(None),
    }
}

#[cycle(search)]
fn in_exprs<A: Allocator>(
    fact_base: &FactBase,
    alloc: Global,
    instance: usize,
    exprs: &Vec<Expr<A>, A>,
) -> Result<Option<Junction>, AllocError> {
    for expr in exprs {
        if let Some(found) = in_expr(fact_base, alloc, instance, expr)? {
            return Ok(Some(found));
        }
    }
    Ok(None)
}

/// Returns the operator on conditions that an operation is, if one operand decides its result and another one is not
/// known.
fn decided<A: Allocator>(
    fact_base: &FactBase,
    alloc: Global,
    instance: usize,
    operation: &Operation<A>,
    operands: &Vec<Expr<A>, A>,
) -> Result<Option<Junction>, AllocError> {
    let Some(junction) = junction_of(operation) else {
        return Ok(None);
    };
    let mut is_decided = false;
    let mut is_known = true;
    for operand in operands {
        match truth_of(fact_base, alloc, instance, operand)? {
            Some(truth) if truth == junction.deciding() => is_decided = true,
            Some(_) => {}
            None => is_known = false,
        }
    }
    if is_decided && !is_known {
        Ok(Some(junction))
    } else {
        Ok(None)
    }
}

fn junction_of<A: Allocator>(operation: &Operation<A>) -> Option<Junction> {
    match operation {
        Operation::And => Some(Junction::And),
        Operation::Or => Some(Junction::Or),
        _ => None,
    }
}

/// Returns the value of a condition, or `None` if it is not known.
fn truth_of<A: Allocator>(
    fact_base: &FactBase,
    alloc: Global,
    instance: usize,
    expr: &Expr<A>,
) -> Result<Option<bool>, AllocError> {
    match value_of(fact_base, alloc, instance, expr)? {
        Some(Ok(Value::One(Scalar::Truth(truth)))) => Ok(Some(truth)),
        _ => Ok(None),
    }
}
