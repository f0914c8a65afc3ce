//! Collection of the scalars that expressions read.
//!
//! The reads are appended to the outline in the order of the text. Names of arrays are not reads of scalars, and are
//! left out.
ghost use Rattle.std.specs.Prelude.{◌≡◌, ◌++◌, ◌∷◌, [], OnOk, map, option_map};
ghost use Rattle.syntax_trees.specs.View.{word_of, words_view, expression_view, form_view, right_of, calling_of, range_of, over_of};
ghost use Rattle.language.specs.Tree.{expressions_of};
ghost use Rattle.types.specs.Typed.{table_of};
ghost use Rattle.assign_check.specs.Outline as outline;
ghost use Rattle.assign_check.specs.View.{steps_view, kind_of};

use crate::outlining::outline::{OutlineStep, UseKind, UseSite};
use std::alloc::{AllocError, Allocator};
use syntax_trees::tree::{Call, Expr, ExprKind, Name, Range, Right, Shape, Source};
use types::typed::Typed;

/// Appends a use of the variable that a name refers to.
pub fn add_use<A: Allocator>(
    typed: &Typed,
    kind: UseKind,
    name: &Name<A>,
    steps: &mut Vec<OutlineStep>,
) -> Result<(), AllocError>
    ensures { OnOk result (steps_view steps.new.items
        ≡ steps_view steps.old.items ++ outline.use_of (table_of typed.now) (kind_of kind) (word_of name.now) ∷ []) }
{
    let one = UseSite {
        kind,
        of: typed.name(name.number).what,
        span: name.span,
    };
    steps.push(OutlineStep::Uses(one))?;
    Ok(())
}

/// Appends the read of a name if it is that of a scalar.
pub fn read_name<A: Allocator>(
    typed: &Typed,
    name: &Name<A>,
    steps: &mut Vec<OutlineStep>,
) -> Result<(), AllocError>
    ensures { OnOk result (steps_view steps.new.items ≡ steps_view steps.old.items ++ outline.name_read (table_of typed.now) (word_of name.now)) }
{
    match typed.shape(name.number) {
        Shape::Scalar => add_use(typed, UseKind::Read, name, steps),
        Shape::Array(_) => Ok(()),
    }
}

/// Appends the reads of an expression.
#[cycle(read)]
pub fn read<A: Allocator>(
    typed: &Typed,
    expr: &Expr<A>,
    steps: &mut Vec<OutlineStep>,
) -> Result<(), AllocError>
    ensures { OnOk result (steps_view steps.new.items ≡ steps_view steps.old.items ++ outline.read_in (table_of typed.now) (expression_view expr.now)) }
{
    read_form(typed, &expr.kind, steps)
}

#[cycle(read)]
fn read_form<A: Allocator>(
    typed: &Typed,
    kind: &ExprKind<A>,
    steps: &mut Vec<OutlineStep>,
) -> Result<(), AllocError>
    ensures { OnOk result (steps_view steps.new.items ≡ steps_view steps.old.items ++ outline.read_form (table_of typed.now) (form_view kind.now)) }
{
    match kind {
        ExprKind::Number(_) | ExprKind::Text(_) | ExprKind::Truth(_) => Ok(()),
        ExprKind::Variable(name) => read_name(typed, name, steps),
        ExprKind::Element(_, index) => read(typed, index, steps),
        ExprKind::Call(_, arguments) => read_all(typed, arguments, steps),
        ExprKind::Prefixed(_, operand) => read(typed, operand, steps),
        ExprKind::Chain(_, operands) => read_all(typed, operands, steps),
    }
}

/// Appends the reads of expressions in order.
#[cycle(read)]
pub fn read_all<A: Allocator>(
    typed: &Typed,
    exprs: &Vec<Expr<A>, A>,
    steps: &mut Vec<OutlineStep>,
) -> Result<(), AllocError>
    ensures { OnOk result (steps_view steps.new.items
        ≡ steps_view steps.old.items ++ outline.read_all (table_of typed.now) (expressions_of (map expression_view exprs.now.items))) }
{
    for expr in exprs {
        read(typed, expr, steps)?;
    }
    Ok(())
}

/// Appends the reads of a right side.
pub fn read_right<A: Allocator>(
    typed: &Typed,
    right: &Right<A>,
    steps: &mut Vec<OutlineStep>,
) -> Result<(), AllocError>
    ensures { OnOk result (steps_view steps.new.items ≡ steps_view steps.old.items ++ outline.read_right (table_of typed.now) (right_of right.now)) }
{
    match right {
        Right::Value(value) => read(typed, value, steps),
        Right::List(list) => read_all(typed, &list.elements, steps),
    }
}

/// Appends the reads of the arguments of a call.
pub fn read_call<A: Allocator>(
    typed: &Typed,
    call: &Call<A>,
    steps: &mut Vec<OutlineStep>,
) -> Result<(), AllocError>
    ensures { OnOk result (steps_view steps.new.items ≡ steps_view steps.old.items ++ outline.read_calling (table_of typed.now) (calling_of call.now)) }
{
    read_all(typed, &call.arguments, steps)
}

/// Appends the reads of the bounds and the step of a range. The array that a loop iterates over is not a read.
pub fn read_source<A: Allocator>(
    typed: &Typed,
    source: &Source<A>,
    steps: &mut Vec<OutlineStep>,
) -> Result<(), AllocError>
    ensures { OnOk result (steps_view steps.new.items ≡ steps_view steps.old.items ++ outline.read_over (table_of typed.now) (over_of source.now)) }
{
    match source {
        Source::Array(_) => Ok(()),
        Source::Range(range) => read_range(typed, range, steps),
    }
}

fn read_range<A: Allocator>(
    typed: &Typed,
    range: &Range<A>,
    steps: &mut Vec<OutlineStep>,
) -> Result<(), AllocError>
    ensures { OnOk result (steps_view steps.new.items ≡ steps_view steps.old.items ++ outline.read_over (table_of typed.now) (range_of range.now)) }
{
    read(typed, &range.low, steps)?;
    read(typed, &range.high, steps)?;
    read_step(typed, &range.step, steps)
}

fn read_step<A: Allocator>(
    typed: &Typed,
    step: &Option<Expr<A>>,
    steps: &mut Vec<OutlineStep>,
) -> Result<(), AllocError>
    ensures { OnOk result (steps_view steps.new.items
        ≡ steps_view steps.old.items ++ outline.read_step (table_of typed.now) (option_map expression_view step.now)) }
{
    match step {
        None => Ok(()),
        Some(step) => read(typed, step, steps),
    }
}

/// Appends the reads of those names that are scalars, in order.
pub fn read_names<A: Allocator>(
    typed: &Typed,
    names: &Vec<Name<A>, A>,
    steps: &mut Vec<OutlineStep>,
) -> Result<(), AllocError>
    ensures { OnOk result (steps_view steps.new.items ≡ steps_view steps.old.items ++ outline.read_names (table_of typed.now) (words_view names.now)) }
{
    for name in names {
        read_name(typed, name, steps)?;
    }
    Ok(())
}
