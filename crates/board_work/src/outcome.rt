//! Outcomes of entries, computed from the answers to their needs.
ghost use Rattle.std.specs.Prelude.{◌≡◌, IfOk};
ghost use Rattle.values.specs.Ranges.{range_count};
ghost use Rattle.values.specs.Values.{scalar_of};
ghost use Rattle.task_code.specs.Compute.{eval, insert_element, branched, ranged, turns_or, read, content, pairs, answer_at, leaf_result, InOperation, Fails as Failed, Inserts as Inserted, Turns as Turned};
ghost use Rattle.task_code.specs.View.{act_view, expr_view};
ghost use Rattle.board_work.specs.View.{answers_view, computed_view};
ghost use Rattle.board_work.specs.Outcome.{control_result, result_in, control_in};

use crate::answer::{Answer, answer_to};
use crate::evaluation::{evaluate, evaluate_literal};
use std::alloc::{AllocError, Global};
use task_code::entry::Act;
use task_code::expr::Expr;
use values::fault::OpFault;
use values::key::Key;
use values::map::Map;
use values::range::IntRange;
use values::value::{Scalar, Value};

/// The fault of an entry, which then has no effect at its end.
#[derive(Clone, Copy, PartialEq, Eq, Debug, Drop)]
pub enum EntryFault {
    InOperation(OpFault),
    /// A closed array has no such element.
    NoElement,
    /// A path would exceed the maximum number of steps.
    TooDeep,
}

/// The result of a control entry.
#[derive(Drop)]
pub enum ControlResult {
    Fails(EntryFault),
    /// The element that was read.
    Gives(Scalar),
    /// The elements of the array to copy.
    Inserts(Map),
    /// The element to write.
    InsertsElement(Key, Scalar),
    /// The branch to take.
    Takes(bool),
    /// A loop's turns, one for each value of a range.
    Counts(IntRange),
    /// A loop's turns, one for each element of an array.
    Goes(Map),
    /// The block may be opened.
    Opens,
}

impl ControlResult {
    /// Returns the same result. Texts and maps are shared.
    fn share(&self) -> Result<ControlResult, AllocError>
        ensures { IfOk result (λ computed. computed ≡ self.now) }
    {
        match self {
            ControlResult::Fails(fault) => Ok(ControlResult::Fails(*fault)),
            ControlResult::Gives(scalar) => Ok(ControlResult::Gives(scalar.share()?)),
            ControlResult::Inserts(map) => Ok(ControlResult::Inserts(map.share()?)),
            ControlResult::InsertsElement(key, value) => Ok(ControlResult::InsertsElement(
                key.share()?,
                value.share()?,
            )),
            ControlResult::Takes(truth) => Ok(ControlResult::Takes(*truth)),
            ControlResult::Counts(range) => Ok(ControlResult::Counts(*range)),
            ControlResult::Goes(map) => Ok(ControlResult::Goes(map.share()?)),
            ControlResult::Opens => Ok(ControlResult::Opens),
        }
    }
}

/// The outcome of an entry: a value or fault for a leaf entry, the result that its end uses for a control entry.
#[derive(Drop)]
pub enum Outcome {
    Leaf(Result<Value, OpFault>),
    Control(ControlResult),
}

impl Outcome {
    /// Returns the same outcome. Texts and maps are shared.
    pub fn share(&self) -> Result<Outcome, AllocError>
        ensures { IfOk result (λ outcome. outcome ≡ self.now) }
    {
        match self {
            Outcome::Leaf(Ok(value)) => Ok(Outcome::Leaf(Ok(value.share()?))),
            Outcome::Leaf(Err(fault)) => Ok(Outcome::Leaf(Err(*fault))),
            Outcome::Control(computed) => Ok(Outcome::Control(computed.share()?)),
        }
    }
}

/// Computes the outcome of an entry with this act.
///
/// # Errors
///
/// Returns `AllocError` if an allocation fails.
#[inline(always)]
pub fn outcome_of(alloc: Global, act: &Act, answers: &[Answer]) -> Result<Outcome, AllocError>
    ensures leaf { IfOk result (λ o. result_in o ≡ leaf_result (act_view act.now) (answers_view answers.now)) }
    ensures control { IfOk result (λ o. control_in o ≡ control_result (act_view act.now) (answers_view answers.now)) }
{
    match act {
        Act::Cell(expr) => Ok(Outcome::Leaf(evaluate(alloc, expr, answers)?)),
        Act::Read => Ok(Outcome::Control(element(answers)?)),
        Act::Call { .. } => Ok(Outcome::Control(ControlResult::Opens)),
        Act::Set(_, expr) => Ok(Outcome::Leaf(evaluate(alloc, expr, answers)?)),
        Act::Fill(_, exprs) => Ok(Outcome::Leaf(evaluate_literal(alloc, exprs, answers)?)),
        Act::Copy(_) => Ok(Outcome::Control(copied(alloc, answers)?)),
        Act::InsertElement(_, index, right) => Ok(Outcome::Control(written(
            alloc, index, right, answers,
        )?)),
        Act::Print(expr) => Ok(Outcome::Leaf(evaluate(alloc, expr, answers)?)),
        Act::Assert(expr) => Ok(Outcome::Leaf(evaluate(alloc, expr, answers)?)),
        Act::If(test, _, _) => Ok(Outcome::Control(branch(alloc, test, answers)?)),
        Act::Range(low, high, step, _) => {
            Ok(Outcome::Control(counted(alloc, low, high, step, answers)?))
        }
        Act::Each(_) => Ok(Outcome::Control(gone_over(alloc, answers)?)),
        Act::Wait(_, _) => Ok(Outcome::Control(ControlResult::Opens)),
    }
}

/// Converts a fault of an operation into a result.
fn fails(fault: OpFault) -> ControlResult
    ensures { computed_view result ≡ Failed (InOperation fault) }
{
    ControlResult::Fails(EntryFault::InOperation(fault))
}

/// Returns the result of an element read: the element, or `NoElement` if the array does not have it.
fn element(answers: &[Answer]) -> Result<ControlResult, AllocError>
    ensures { IfOk result (λ c. computed_view c ≡ read (answer_at (answers_view answers.now) 0)) }
{
    match answer_to(answers, 0) {
        Some(Answer::Found(scalar)) => Ok(ControlResult::Gives(scalar.share()?)),
        Some(Answer::Missing) => Ok(ControlResult::Fails(EntryFault::NoElement)),
        Some(Answer::Content(_)) => Ok(ControlResult::Gives(Scalar::Number(0))),
        None => Ok(ControlResult::Gives(Scalar::Number(0))),
    }
}

/// Returns the elements of the awaited array; the map is shared.
#[tactic(auto, using(crate::proofs::Answered::content_of_rising))]
fn elements(alloc: Global, answers: &[Answer]) -> Result<Map, AllocError>
    ensures { IfOk result (λ map. pairs map ≡ content (answer_at (answers_view answers.now) 0)) }
{
    match answer_to(answers, 0) {
        Some(Answer::Content(map)) => {
            let _rising = map.elements();
            map.share()
        }
        Some(Answer::Found(_)) => Map::new(alloc, Vec::new(alloc)),
        Some(Answer::Missing) => Map::new(alloc, Vec::new(alloc)),
        None => Map::new(alloc, Vec::new(alloc)),
    }
}

/// Returns the result of an array copy.
fn copied(alloc: Global, answers: &[Answer]) -> Result<ControlResult, AllocError>
    ensures { IfOk result (λ c. computed_view c ≡ Inserted (content (answer_at (answers_view answers.now) 0))) }
{
    Ok(ControlResult::Inserts(elements(alloc, answers)?))
}

/// Returns the result of a loop over an array: its turns.
fn gone_over(alloc: Global, answers: &[Answer]) -> Result<ControlResult, AllocError>
    ensures { IfOk result (λ c. computed_view c ≡ Turned (content (answer_at (answers_view answers.now) 0))) }
{
    Ok(ControlResult::Goes(elements(alloc, answers)?))
}

/// Returns the result of an element write. The index is evaluated before the right side.
fn written(
    alloc: Global,
    index: &Expr,
    right: &Expr,
    answers: &[Answer],
) -> Result<ControlResult, AllocError>
    ensures { IfOk result (λ c. computed_view c ≡ insert_element (eval (answers_view answers.now) (expr_view index.now))
        (eval (answers_view answers.now) (expr_view right.now))) }
{
    let index = match evaluate(alloc, index, answers)? {
        Ok(index) => index,
        Err(fault) => return Ok(fails(fault)),
    };
    match evaluate(alloc, right, answers)? {
        Ok(right) => Ok(ControlResult::InsertsElement(
            Key::of(into_scalar(index)),
            into_scalar(right),
        )),
        Err(fault) => Ok(fails(fault)),
    }
}

/// Converts a value into its scalar; an array becomes 0. A text is moved, not shared.
#[inline(always)]
pub fn into_scalar(value: Value) -> Scalar
    ensures { result ≡ scalar_of value }
{
    match value {
        Value::One(scalar) => scalar,
        Value::Many(_) => Scalar::Number(0),
    }
}

/// Returns the result of a condition: the branch to take.
fn branch(alloc: Global, test: &Expr, answers: &[Answer]) -> Result<ControlResult, AllocError>
    ensures { IfOk result (λ c. computed_view c ≡ branched (eval (answers_view answers.now) (expr_view test.now))) }
{
    match evaluate(alloc, test, answers)? {
        Ok(value) => Ok(ControlResult::Takes(value.truth())),
        Err(fault) => Ok(fails(fault)),
    }
}

/// Returns the result of a loop over a range: its turns. The bounds and the step are evaluated in order.
fn counted(
    alloc: Global,
    low: &Expr,
    high: &Expr,
    step: &Expr,
    answers: &[Answer],
) -> Result<ControlResult, AllocError>
    ensures { IfOk result (λ c. computed_view c ≡ ranged (eval (answers_view answers.now) (expr_view low.now))
        (eval (answers_view answers.now) (expr_view high.now)) (eval (answers_view answers.now) (expr_view step.now))) }
{
    let low = match evaluate(alloc, low, answers)? {
        Ok(low) => low.number(),
        Err(fault) => return Ok(fails(fault)),
    };
    let high = match evaluate(alloc, high, answers)? {
        Ok(high) => high.number(),
        Err(fault) => return Ok(fails(fault)),
    };
    match evaluate(alloc, step, answers)? {
        Ok(step) => Ok(turns(low, high, step.number())),
        Err(fault) => Ok(fails(fault)),
    }
}

/// Returns the turns of a range with these bounds and step, or its fault.
fn turns(low: i64, high: i64, step: i64) -> ControlResult
    ensures { computed_view result ≡ turns_or (range_count low high step) low step }
{
    match IntRange::new(low, high, step) {
        Ok(range) => ControlResult::Counts(range),
        Err(fault) => fails(fault),
    }
}
