//! Evaluation of expressions and cells over the known facts (Swift/T Guide, on expressions).
//!
//! An expression evaluates once all its parts are known. The first fault in reading order is its fault.
ghost use Rattle.std.specs.Prelude.{◌≡◌, Some, false, IfOk, option_map};
ghost use Rattle.values.specs.Formats.{pieces};
ghost use Rattle.values.specs.Keys.{key_seen};
ghost use Rattle.values.specs.Op.{operation_of};
ghost use Rattle.values.specs.Operators.{evaluated};
ghost use Rattle.language.specs.Resolved.{pieces_or_none};
ghost use Rattle.flow.specs.View.{expr_view, exprs_view, form_view, name_view, operation_view};
ghost use Rattle.meaning_steps.specs.Environment.{element_come, many_come, outcome, worked, worked_all};
ghost use Rattle.meaning_facts.specs.Sighted.{outcome_view, sight_of};

use crate::fact_base::FactBase;
use crate::facts::{KeyWrites, Place, kind_of_operation};
use flow::cell::CellForm;
use flow::expression::{Expr, Operation};
use flow::name::Name;
use paths::FaultKind;
use std::alloc::{AllocError, Allocator, Global};
use values::fault::OpFault;
use values::format::{Format, FormatError};
use values::key::KeyRef;
use values::op::Op;
use values::text::Text;
use values::value::Value;

/// The value or the fault of a cell.
pub type CellResult = Result<Value, FaultKind>;

impl FactBase {
    /// Returns the value or the fault of a cell, or `None` if it is not known.
    pub fn outcome<A: Allocator>(
        &self,
        alloc: Global,
        instance: usize,
        form: &CellForm<A>,
    ) -> Result<Option<CellResult>, AllocError>
        ensures { IfOk result (λ r. outcome_view r ≡ outcome (sight_of self.now instance) (form_view form.now)) }
    {
        match form {
            CellForm::Compute(expr) => match self.value_under(alloc, instance, expr)? {
                Some(Ok(value)) => Ok(Some(Ok(value))),
                Some(Err(fault)) => Ok(Some(Err(kind_of_operation(fault)?))),
                None => Ok(None),
            },
            CellForm::Read { array, index } => {
                let index = Place {
                    instance,
                    node: *index,
                };
                match self.facts.value(index) {
                    Some(value) => match KeyRef::of_value(value) {
                        Some(key) => self.element(instance, *array, key),
                        None => Ok(None),
                    },
                    None => Ok(None),
                }
            }
        }
    }

    /// Returns the element of an array at a key. This is the value that was written once, or the fault `NoElement` if
    /// the array is closed and the key was never written.
    fn element(
        &self,
        instance: usize,
        array: Name,
        key: KeyRef<'_>,
    ) -> Result<Option<CellResult>, AllocError>
        ensures { IfOk result (λ r. outcome_view r ≡ element_come ((sight_of self.now instance).writes (name_view array) (key_seen key.entry))
            ((sight_of self.now instance).closed (name_view array))) }
    {
        let place = self.instances.place(instance, array);
        match self.facts.written(place, key) {
            KeyWrites::Once(scalar) => Ok(Some(Ok(Value::One(scalar.share()?)))),
            KeyWrites::Never if self.is_closed(place) => Ok(Some(Err(FaultKind::NoElement))),
            _ => Ok(None),
        }
    }

    /// Returns the value or the fault of an expression, or `None` unless all its parts are known.
    #[cycle(value)]
    fn value_under<A: Allocator>(
        &self,
        alloc: Global,
        instance: usize,
        expr: &Expr<A>,
    ) -> Result<Option<Result<Value, OpFault>>, AllocError>
        ensures { IfOk result (λ r. r ≡ worked (sight_of self.now instance) (expr_view expr.now)) }
    {
        match expr {
            Expr::Number(number) => Ok(Some(Ok(Value::from_number(*number)))),
            Expr::Text(bytes) => Ok(Some(Ok(Value::from_text(Text::from_slice(
                alloc,
                bytes.as_slice(),
            )?)))),
            Expr::Truth(truth) => Ok(Some(Ok(Value::from_truth(*truth)))),
            Expr::Name(name) => match self.scalar(instance, *name) {
                Some(scalar) => Ok(Some(Ok(Value::One(scalar.share()?)))),
                None => Ok(None),
            },
            Expr::Whole(array) => self.whole(alloc, instance, *array),
            Expr::Operation(operation, operands) => match self.operands(
                alloc, instance, operands,
            )? {
                Some(values) => apply_operation(alloc, operation, values),
                None => Ok(None),
            },
        }
    }

    /// Returns all elements of an array, or `None` if it is not closed.
    fn whole(
        &self,
        alloc: Global,
        instance: usize,
        array: Name,
    ) -> Result<Option<Result<Value, OpFault>>, AllocError>
        ensures { IfOk result (λ r. r ≡ many_come ((sight_of self.now instance).closed (name_view array))
            ((sight_of self.now instance).elements (name_view array))) }
    {
        let place = self.instances.place(instance, array);
        if !self.is_closed(place) {
            return Ok(None);
        }
        Ok(Some(Ok(Value::Many(self.facts.elements(alloc, place)?))))
    }

    /// Returns the values and faults of operands, or `None` unless all are known.
    #[cycle(value)]
    #[tactic(auto, using(crate::proofs::Fronts::front_more, crate::proofs::Fronts::front_all, crate::proofs::Fronts::front_none))]
    fn operands<A: Allocator>(
        &self,
        alloc: Global,
        instance: usize,
        exprs: &Vec<Expr<A>, A>,
    ) -> Result<Option<Vec<Result<Value, OpFault>>>, AllocError>
        ensures { IfOk result (λ r. option_map (λ v. v.items) r ≡ worked_all (sight_of self.now instance) (exprs_view exprs.now.items)) }
    {
        let mut values = Vec::new(alloc);
        for expr in exprs {
            match self.value_under(alloc, instance, expr)? {
                Some(value) => values.push(value)?,
                None => return Ok(None),
            }
        }
        Ok(Some(values))
    }
}

/// Applies an operation to its operands.
fn apply_operation<A: Allocator>(
    alloc: Global,
    operation: &Operation<A>,
    operands: Vec<Result<Value, OpFault>>,
) -> Result<Option<Result<Value, OpFault>>, AllocError>
    ensures { IfOk result (λ r. r ≡ Some (evaluated (operation_view operation.now) operands.items)) }
{
    match operation {
        Operation::Sum(signs) => apply_operator(alloc, &Op::Sum(signs.as_slice()), operands),
        Operation::Product(factors) => apply_operator(
            alloc,
            &Op::Product(factors.as_slice()),
            operands,
        ),
        Operation::Compare(order) => apply_operator(alloc, &Op::Compare(*order), operands),
        Operation::Equal => apply_operator(alloc, &Op::Equal, operands),
        Operation::Unequal => apply_operator(alloc, &Op::Unequal, operands),
        Operation::And => apply_operator(alloc, &Op::And, operands),
        Operation::Or => apply_operator(alloc, &Op::Or, operands),
        Operation::Not => apply_operator(alloc, &Op::Not, operands),
        Operation::Negate => apply_operator(alloc, &Op::Negate, operands),
        Operation::Join => apply_operator(alloc, &Op::Join, operands),
        Operation::FromInt => apply_operator(alloc, &Op::FromInt, operands),
        Operation::ToInt => apply_operator(alloc, &Op::ToInt, operands),
        Operation::Size => apply_operator(alloc, &Op::Size, operands),
        Operation::Printf(bytes) => {
            let format = format_of(alloc, bytes.as_slice())?;
            apply_operator(alloc, &Op::Printf(&format), operands)
        }
        Operation::Assert => apply_operator(alloc, &Op::Assert, operands),
        Operation::Literal => apply_operator(alloc, &Op::Literal, operands),
    }
}

/// Applies an operator to its operands. `OpFault::Memory` becomes `AllocError`.
fn apply_operator(
    alloc: Global,
    op: &Op<'_>,
    operands: Vec<Result<Value, OpFault>>,
) -> Result<Option<Result<Value, OpFault>>, AllocError>
    ensures { IfOk result (λ r. r ≡ Some (evaluated (operation_of op.now) operands.items)) }
{
    match op.evaluate(alloc, operands) {
        Ok(value) => Ok(Some(Ok(value))),
        Err(OpFault::Memory) => Err(AllocError),
        Err(OpFault::Overflow) => Ok(Some(Err(OpFault::Overflow))),
        Err(OpFault::DivideByZero) => Ok(Some(Err(OpFault::DivideByZero))),
        Err(OpFault::BadStep) => Ok(Some(Err(OpFault::BadStep))),
        Err(OpFault::NotANumber) => Ok(Some(Err(OpFault::NotANumber))),
        Err(OpFault::AssertFailed) => Ok(Some(Err(OpFault::AssertFailed))),
    }
}

/// Parses a format. A text that is not a format becomes the format that prints nothing.
fn format_of(alloc: Global, bytes: &[u8]) -> Result<Format, AllocError>
    ensures { IfOk result (λ format. format ≡ pieces_or_none (pieces false bytes.now)) }
{
    match Format::read(alloc, bytes) {
        Ok(format) => Ok(format),
        Err(FormatError::Memory) => Err(AllocError),
        Err(FormatError::Unreadable) => match Format::read(alloc, &[]) {
            Ok(format) => Ok(format),
            Err(_) => Err(AllocError),
        },
    }
}
