//! Collection of the variables that expressions read and of the functions that they call, in the order of the text.
ghost use Rattle.std.specs.Prelude.{◌≡◌, ◌++◌, ◌∷◌, [], OnOk, map};
ghost use Rattle.syntax_trees.specs.View.{word_of, words_view, expression_view, form_view, right_of, calling_of};
ghost use Rattle.language.specs.Tree.{expressions_of};
ghost use Rattle.explain_warnings.specs.Failures.{is_zero_divisor};
ghost use Rattle.explain_warnings.specs.Mentions as specs;

use crate::mistakes::failures::{form_overflows, is_no_number, is_zero_divisor};
use crate::mistakes::guards::guards_nothing;
use crate::name_use::{NameUse, NameUseKind};
use std::alloc::{AllocError, Allocator};
use syntax_trees::tree::{Call, Expr, ExprKind, Name, Operator, Right};

/// Appends an occurrence, if the condition holds.
pub fn note(holds: bool, name_use: NameUse, name_uses: &mut Vec<NameUse>) -> Result<(), AllocError>
    ensures { OnOk result (name_uses.new.items ≡ name_uses.old.items ++ specs.noted holds name_use) }
{
    if holds {
        name_uses.push(name_use)?;
    }
    Ok(())
}

/// Returns the occurrence of an expression.
pub fn at_expression<A: Allocator>(kind: NameUseKind, expr: &Expr<A>) -> NameUse
    ensures { result ≡ specs.at_expression kind (expression_view expr.now) }
{
    NameUse {
        kind,
        number: expr.number,
        at: expr.first,
    }
}

/// Appends an occurrence of a name.
pub fn add<A: Allocator>(
    kind: NameUseKind,
    name: &Name<A>,
    name_uses: &mut Vec<NameUse>,
) -> Result<(), AllocError>
    ensures { OnOk result (name_uses.new.items ≡ name_uses.old.items ++ specs.name_use kind (word_of name.now) ∷ []) }
{
    name_uses.push(NameUse {
        kind,
        number: name.number,
        at: name.span,
    })?;
    Ok(())
}

/// Appends an occurrence of each name, all of one kind.
pub fn add_all<A: Allocator>(
    kind: NameUseKind,
    names: &Vec<Name<A>, A>,
    name_uses: &mut Vec<NameUse>,
) -> Result<(), AllocError>
    ensures { OnOk result (name_uses.new.items ≡ name_uses.old.items ++ map (specs.name_use kind) (words_view names.now)) }
{
    for name in names {
        add(kind, name, name_uses)?;
    }
    Ok(())
}

/// Appends the occurrences of an array of which an element is read.
fn add_element<A: Allocator>(name: &Name<A>, name_uses: &mut Vec<NameUse>) -> Result<(), AllocError>
    ensures { OnOk result (name_uses.new.items ≡ name_uses.old.items
        ++ specs.name_use NameUseKind.Read (word_of name.now) ∷ specs.name_use NameUseKind.ReadElement (word_of name.now) ∷ []) }
{
    add(NameUseKind::Read, name, name_uses)?;
    add(NameUseKind::ReadElement, name, name_uses)
}

/// Appends the mistakes of an expression by its own form.
fn own_mistakes<A: Allocator>(
    expr: &Expr<A>,
    name_uses: &mut Vec<NameUse>,
) -> Result<(), AllocError>
    ensures { OnOk result (name_uses.new.items ≡ name_uses.old.items ++ specs.own_mistakes (expression_view expr.now)) }
{
    let is_idle = guards_nothing(&expr.kind);
    note(
        is_idle,
        at_expression(NameUseKind::IdleGuard, expr),
        name_uses,
    )?;
    let fails = form_overflows(&expr.kind);
    note(
        fails,
        at_expression(NameUseKind::AlwaysFails, expr),
        name_uses,
    )
}

/// Appends an occurrence for a call of the function with this name if it fails by its first argument.
fn first_failures<A: Allocator>(
    function: &[u8],
    argument: &Expr<A>,
    name_uses: &mut Vec<NameUse>,
) -> Result<(), AllocError>
    ensures { OnOk result (name_uses.new.items ≡ name_uses.old.items ++ specs.first_failures function.now (expression_view argument.now)) }
{
    let fails = is_no_number(function, argument);
    note(
        fails,
        at_expression(NameUseKind::AlwaysFails, argument),
        name_uses,
    )
}

/// Appends an occurrence for a call in an expression that fails by its first argument.
fn argument_failures<A: Allocator>(
    function: &Name<A>,
    arguments: &Vec<Expr<A>, A>,
    name_uses: &mut Vec<NameUse>,
) -> Result<(), AllocError>
    ensures { OnOk result (name_uses.new.items ≡ name_uses.old.items
        ++ specs.argument_failures (word_of function.now).text (expressions_of (map expression_view arguments.now.items))) }
{
    match arguments.as_slice() {
        [] => Ok(()),
        [argument, ..] => first_failures(function.text.as_slice(), argument, name_uses),
    }
}

/// Appends the called function, and the failure of the call by its first argument.
fn add_call<A: Allocator>(
    function: &Name<A>,
    arguments: &Vec<Expr<A>, A>,
    name_uses: &mut Vec<NameUse>,
) -> Result<(), AllocError>
    ensures { OnOk result (name_uses.new.items ≡ name_uses.old.items ++ specs.name_use NameUseKind.Called (word_of function.now)
        ∷ specs.argument_failures (word_of function.now).text (expressions_of (map expression_view arguments.now.items))) }
{
    add(NameUseKind::Called, function, name_uses)?;
    argument_failures(function, arguments, name_uses)
}

/// Appends an occurrence for an operand of a chain that is a divisor and the literal 0.
fn add_divisor<A: Allocator>(
    operators: &Vec<Operator, A>,
    place: usize,
    operand: &Expr<A>,
    name_uses: &mut Vec<NameUse>,
) -> Result<(), AllocError>
    ensures { OnOk result (name_uses.new.items ≡ name_uses.old.items
        ++ specs.noted (is_zero_divisor operators.now.items place (expression_view operand.now)) (specs.at_expression NameUseKind.AlwaysFails (expression_view operand.now))) }
{
    let fails = is_zero_divisor(operators, place, operand);
    note(
        fails,
        at_expression(NameUseKind::AlwaysFails, operand),
        name_uses,
    )
}

/// Appends the reads of an expression, the functions that it calls, and its mistakes.
#[cycle(read)]
pub fn read<A: Allocator>(expr: &Expr<A>, name_uses: &mut Vec<NameUse>) -> Result<(), AllocError>
    ensures { OnOk result (name_uses.new.items ≡ name_uses.old.items ++ specs.reads_of (expression_view expr.now)) }
{
    own_mistakes(expr, name_uses)?;
    read_form(&expr.kind, name_uses)
}

#[cycle(read)]
fn read_form<A: Allocator>(
    kind: &ExprKind<A>,
    name_uses: &mut Vec<NameUse>,
) -> Result<(), AllocError>
    ensures { OnOk result (name_uses.new.items ≡ name_uses.old.items ++ specs.form_reads (form_view kind.now)) }
{
    match kind {
        ExprKind::Number(_) | ExprKind::Text(_) | ExprKind::Truth(_) => Ok(()),
        ExprKind::Variable(name) => add(NameUseKind::Read, name, name_uses),
        ExprKind::Element(name, index) => {
            add_element(name, name_uses)?;
            read(index, name_uses)
        }
        ExprKind::Call(function, arguments) => {
            add_call(function, arguments, name_uses)?;
            read_all(arguments, name_uses)
        }
        ExprKind::Prefixed(_, operand) => read(operand, name_uses),
        ExprKind::Chain(operators, operands) => read_operands(operators, operands, name_uses),
    }
}

/// Appends the reads of the operands of a chain, each divisor that is 0 before its reads.
#[cycle(read)]
fn read_operands<A: Allocator>(
    operators: &Vec<Operator, A>,
    operands: &Vec<Expr<A>, A>,
    name_uses: &mut Vec<NameUse>,
) -> Result<(), AllocError>
    ensures { OnOk result (name_uses.new.items ≡ name_uses.old.items
        ++ specs.operand_reads operators.now.items 0 (expressions_of (map expression_view operands.now.items))) }
{
    let mut place = 0;
    for operand in operands {
        add_divisor(operators, place, operand, name_uses)?;
        read(operand, name_uses)?;
        place += 1;
    }
    Ok(())
}

/// Appends the reads of expressions in order.
#[cycle(read)]
pub fn read_all<A: Allocator>(
    exprs: &Vec<Expr<A>, A>,
    name_uses: &mut Vec<NameUse>,
) -> Result<(), AllocError>
    ensures { OnOk result (name_uses.new.items ≡ name_uses.old.items ++ specs.all_reads (expressions_of (map expression_view exprs.now.items))) }
{
    for expr in exprs {
        read(expr, name_uses)?;
    }
    Ok(())
}

/// Appends the reads of a right side.
pub fn read_right<A: Allocator>(
    right: &Right<A>,
    name_uses: &mut Vec<NameUse>,
) -> Result<(), AllocError>
    ensures { OnOk result (name_uses.new.items ≡ name_uses.old.items ++ specs.right_reads (right_of right.now)) }
{
    match right {
        Right::Value(value) => read(value, name_uses),
        Right::List(list) => read_all(&list.elements, name_uses),
    }
}

/// Appends the called function and the reads of the arguments of a call.
pub fn read_call<A: Allocator>(
    call: &Call<A>,
    name_uses: &mut Vec<NameUse>,
) -> Result<(), AllocError>
    ensures { OnOk result (name_uses.new.items ≡ name_uses.old.items ++ specs.calling_reads (calling_of call.now)) }
{
    add(NameUseKind::Called, &call.name, name_uses)?;
    read_all(&call.arguments, name_uses)
}
