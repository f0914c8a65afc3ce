//! Type inference for expressions.
//!
//! An expression is read from left to right; the first fault ends the check. A scalar expression has one of three base
//! types. An array is the value of a variable's name or of a call, and of no other form. The contracts equate each
//! function with one of `specs/Expressions.antt`.
ghost use Rattle.std.specs.Prelude.{map, drop};
ghost use Rattle.syntax_trees.specs.View.{word_of, expression_view, form_view};
ghost use Rattle.language.specs.Tree.{expressions_of};
ghost use Rattle.language.specs.Tree as trees;
ghost use Rattle.types.specs.Known.{type_of, around_of};
ghost use Rattle.types.specs.Functions.{signatures_of};
ghost use Rattle.types.specs.Expressions as checks;
ghost use Rattle.types.specs.Outcomes.{Gives, Judges};

use crate::builtins::{base_of, builtin_of, gives, one_of};
use crate::fault::TypeFault;
use crate::functions::{called, function_called};
use crate::scope::{Scope, refer};
use crate::signatures::Functions;
use crate::typed::{Builtin, Callee, ElementTypes, NameEntry, VariableType};
use lexer::token::Span;
use std::alloc::Allocator;
use syntax_trees::tree::{Base, Expr, ExprKind, Name, Operator, Shape};

/// Returns `Mismatch` at `at` unless the found base type is the wanted one.
pub fn same_base(found: Base, wanted: Base, at: Span) -> Result<(), TypeFault>
    ensures { Judges (λ _. tt) result (checks.has_base found wanted at) }
{
    if found == wanted {
        Ok(())
    } else {
        Err(TypeFault::Mismatch(at))
    }
}

/// Returns `Mismatch` at `at` unless the found type is the wanted one, in base and in shape.
pub fn same_type(found: VariableType, wanted: VariableType, at: Span) -> Result<(), TypeFault>
    ensures { Judges (λ _. tt) result (checks.has_type (type_of found) (type_of wanted) at) }
{
    if found.base == wanted.base && found.shape == wanted.shape {
        Ok(())
    } else {
        Err(TypeFault::Mismatch(at))
    }
}

/// Returns the base type of a scalar, or `Mismatch` at `at` for an array.
pub fn scalar(found: VariableType, at: Span) -> Result<Base, TypeFault>
    ensures { Judges (λ b. b) result (checks.scalar (type_of found) at) }
{
    match found.shape {
        Shape::Scalar => Ok(found.base),
        Shape::Array(_) => Err(TypeFault::Mismatch(at)),
    }
}

/// Returns the element type and the key type of an array, or `Mismatch` at `at` for a scalar.
pub fn elements_of(found: VariableType, at: Span) -> Result<ElementTypes, TypeFault>
    ensures { Judges (λ given. given) result (checks.elements_of (type_of found) at) }
{
    match found.shape {
        Shape::Array(keys) => Ok(ElementTypes {
            value: found.base,
            key: keys.base(),
        }),
        Shape::Scalar => Err(TypeFault::Mismatch(at)),
    }
}

/// Returns the type of an expression, which may be an array: a variable's name, or a call whose output is an array.
#[tactic(auto, unfolding(crate::specs::Expressions::whole))]
#[cycle(expr)]
pub fn whole<A: Allocator>(
    functions: &Functions,
    scope: &Scope,
    settled: &mut Vec<NameEntry>,
    value: &Expr<A>,
) -> Result<VariableType, TypeFault>
    ensures { Gives type_of result settled.new.items (checks.whole (signatures_of functions.now) (around_of scope.now)
        (expression_view value.now) settled.old.items) }
{
    form(functions, scope, settled, &value.kind, value.first)
}

#[tactic(auto, unfolding(crate::specs::Expressions::whole_form))]
#[cycle(expr)]
fn form<A: Allocator>(
    functions: &Functions,
    scope: &Scope,
    settled: &mut Vec<NameEntry>,
    kind: &ExprKind<A>,
    at: Span,
) -> Result<VariableType, TypeFault>
    ensures { Gives type_of result settled.new.items (checks.whole_form (signatures_of functions.now) (around_of scope.now)
        (form_view kind.now) at settled.old.items) }
{
    match kind {
        ExprKind::Number(_) => Ok(one_of(Base::Int)),
        ExprKind::Text(_) => Ok(one_of(Base::Text)),
        ExprKind::Truth(_) => Ok(one_of(Base::Boolean)),
        ExprKind::Variable(name) => refer(scope, settled, name),
        ExprKind::Element(name, index) => {
            let given = elements_of(refer(scope, settled, name)?, name.span)?;
            expect(functions, scope, settled, index, given.key)?;
            Ok(one_of(given.value))
        }
        ExprKind::Call(name, given) => call(functions, scope, settled, name, given, at),
        ExprKind::Prefixed(prefix, operand) => {
            let base = base_of(*prefix);
            expect(functions, scope, settled, operand, base)?;
            Ok(one_of(base))
        }
        ExprKind::Chain(operators, operands) => {
            let base = chain(functions, scope, settled, operators, operands, at)?;
            Ok(one_of(base))
        }
    }
}

/// Returns the type of a scalar expression, or `Mismatch` at its first token if it is an array.
#[tactic(auto, unfolding(crate::specs::Expressions::typed, crate::specs::Expressions::whole))]
#[cycle(expr)]
pub fn expr<A: Allocator>(
    functions: &Functions,
    scope: &Scope,
    settled: &mut Vec<NameEntry>,
    value: &Expr<A>,
) -> Result<Base, TypeFault>
    ensures { Gives (λ b. b) result settled.new.items
        (checks.typed (signatures_of functions.now) (around_of scope.now) (expression_view value.now) settled.old.items) }
{
    let found = whole(functions, scope, settled, value)?;
    let base = scalar(found, value.first)?;
    Ok(base)
}

/// Checks that an expression is a scalar of the wanted type.
#[tactic(auto, unfolding(crate::specs::Expressions::expected, crate::specs::Expressions::typed))]
#[cycle(expr)]
pub fn expect<A: Allocator>(
    functions: &Functions,
    scope: &Scope,
    settled: &mut Vec<NameEntry>,
    value: &Expr<A>,
    wanted: Base,
) -> Result<(), TypeFault>
    ensures { Gives (λ _. tt) result settled.new.items
        (checks.expected (signatures_of functions.now) (around_of scope.now) (expression_view value.now) wanted settled.old.items) }
{
    let found = expr(functions, scope, settled, value)?;
    same_base(found, wanted, value.first)?;
    Ok(())
}

/// Returns the type of a chain. Every operand has to have the type of the first one.
///
/// Every operator has to accept that type, and all operators have to return the same type.
#[tactic(auto, unfolding(crate::specs::Expressions::chained))]
#[cycle(expr)]
fn chain<A: Allocator>(
    functions: &Functions,
    scope: &Scope,
    settled: &mut Vec<NameEntry>,
    operators: &Vec<Operator, A>,
    operands: &Vec<Expr<A>, A>,
    at: Span,
) -> Result<Base, TypeFault>
    ensures { Gives (λ b. b) result settled.new.items
        (checks.chained (signatures_of functions.now) (around_of scope.now) (expressions_of (map expression_view operands.now.items))
        operators.now.items at settled.old.items) }
{
    let Some(first) = operands.first() else {
        return Err(TypeFault::Mismatch(at));
    };
    let base = expr(functions, scope, settled, first)?;
    let given = first_given(operators.as_slice(), base, first.first)?;
    further(
        functions,
        scope,
        settled,
        operators.as_slice(),
        operands,
        1,
        base,
        given,
        first.first,
    )?;
    Ok(given)
}

/// Returns the result type of the first operator of a chain.
///
/// # Errors
///
/// Returns `Mismatch` at `at` if there is no operator, or if it does not accept the operand type.
fn first_given(operators: &[Operator], base: Base, at: Span) -> Result<Base, TypeFault>
    ensures { Judges (λ b. b) result (checks.first_given operators.now base at) }
{
    match operators.first() {
        Some(operator) => given_by(*operator, base, at),
        None => Err(TypeFault::Mismatch(at)),
    }
}

/// Returns the result type of an operator, or `Mismatch` at the preceding operand if the operator does not accept the
/// operand type.
fn given_by(operator: Operator, base: Base, before: Span) -> Result<Base, TypeFault>
    ensures { Judges (λ b. b) result (checks.given_by operator base before) }
{
    match gives(operator, base) {
        Some(given) => Ok(given),
        None => Err(TypeFault::Mismatch(before)),
    }
}

/// Checks the operators of a chain, each with its following operand, from the operand number `from` on.
///
/// `base` is the type of the operands, and `given` is the result type of the first operator. `at` is the operand that
/// precedes the first of these operators.
#[tactic(auto, unfolding(crate::specs::Expressions::further))]
#[cycle(expr)]
fn further<A: Allocator>(
    functions: &Functions,
    scope: &Scope,
    settled: &mut Vec<NameEntry>,
    operators: &[Operator],
    operands: &Vec<Expr<A>, A>,
    from: usize,
    base: Base,
    given: Base,
    at: Span,
) -> Result<(), TypeFault>
    ensures { Gives (λ _. tt) result settled.new.items
        (checks.further (signatures_of functions.now) (around_of scope.now) (expressions_of (map expression_view (drop from operands.now.items))) operators.now
        base given at settled.old.items) }
{
    let mut before = at;
    for i in from..operands.len() {
        let Some(operator) = operators.get(i - from) else {
            return Err(TypeFault::Mismatch(before));
        };
        takes(*operator, base, given, before)?;
        let operand = &operands[i];
        expect(functions, scope, settled, operand, base)?;
        before = operand.first;
    }
    if operators.len() > operands.len().saturating_sub(from) {
        return Err(TypeFault::Mismatch(before));
    }
    Ok(())
}

/// Checks that an operator accepts its operands and has the result type of the first operator of its chain.
///
/// # Errors
///
/// Returns `Mismatch` at the preceding operand if it does not.
fn takes(operator: Operator, base: Base, given: Base, before: Span) -> Result<(), TypeFault>
    ensures { Judges (λ _. tt) result (checks.takes operator base given before) }
{
    let found = given_by(operator, base, before)?;
    same_base(found, given, before)
}

/// Returns the type of the only output of a call.
#[tactic(auto, unfolding(crate::specs::Expressions::whole_form))]
#[cycle(expr)]
fn call<A: Allocator>(
    functions: &Functions,
    scope: &Scope,
    settled: &mut Vec<NameEntry>,
    name: &Name<A>,
    given: &Vec<Expr<A>, A>,
    at: Span,
) -> Result<VariableType, TypeFault>
    ensures { Gives type_of result settled.new.items (checks.whole_form (signatures_of functions.now) (around_of scope.now)
        (trees.call (word_of name.now) (expressions_of (map expression_view given.now.items))) at settled.old.items) }
{
    match builtin_of(name.text.as_slice()) {
        Some(builtin) => {
            called(settled, name, Callee::BuiltIn(builtin))?;
            let base = builtin_call(functions, scope, settled, builtin, given, name.span)?;
            Ok(one_of(base))
        }
        None => {
            let signature = function_called(functions, settled, name, given.len(), 1)?;
            arguments(
                functions,
                scope,
                settled,
                given,
                0,
                signature.inputs.as_slice(),
                name.span,
            )?;
            let output = output_of(signature.outputs.as_slice(), name.span)?;
            Ok(output)
        }
    }
}

/// Returns the type of the first output, or `WrongCount` at `at` if there is none.
fn output_of(outputs: &[VariableType], at: Span) -> Result<VariableType, TypeFault>
    ensures { Judges type_of result (checks.output_of (map type_of outputs.now) at) }
{
    match outputs.first() {
        Some(output) => Ok(*output),
        None => Err(TypeFault::WrongCount(at)),
    }
}

/// Returns the result type of a call of a built-in function. `at`: the called name.
///
/// `printf` and `assert` have no result, so that they are refused here with `WrongCount`.
#[cycle(expr)]
pub fn builtin_call<A: Allocator>(
    functions: &Functions,
    scope: &Scope,
    settled: &mut Vec<NameEntry>,
    builtin: Builtin,
    given: &Vec<Expr<A>, A>,
    at: Span,
) -> Result<Base, TypeFault>
    ensures { Gives (λ b. b) result settled.new.items
        (checks.builtin_type (signatures_of functions.now) (around_of scope.now) builtin
        (expressions_of (map expression_view given.now.items)) at settled.old.items) }
{
    match builtin {
        Builtin::Strcat => {
            let _first = first_argument(given.as_slice(), at)?;
            elements(functions, scope, settled, given, Some(Base::Text))?;
            Ok(Base::Text)
        }
        Builtin::FromInt | Builtin::ToInt | Builtin::Size => only(
            functions, scope, settled, builtin, given, at,
        ),
        Builtin::Printf | Builtin::Assert => Err(TypeFault::WrongCount(at)),
    }
}

/// Returns the result type of a built-in function that takes one argument, or `WrongCount` unless there is exactly one.
#[tactic(auto, unfolding(crate::specs::Expressions::only))]
#[cycle(expr)]
fn only<A: Allocator>(
    functions: &Functions,
    scope: &Scope,
    settled: &mut Vec<NameEntry>,
    builtin: Builtin,
    given: &Vec<Expr<A>, A>,
    at: Span,
) -> Result<Base, TypeFault>
    ensures { Gives (λ b. b) result settled.new.items
        (checks.only (signatures_of functions.now) (around_of scope.now) (expressions_of (map expression_view given.now.items)) builtin at settled.old.items) }
{
    if given.len() != 1 {
        return Err(TypeFault::WrongCount(at));
    }
    let Some(argument) = given.first() else {
        return Err(TypeFault::WrongCount(at));
    };
    let found = whole(functions, scope, settled, argument)?;
    let base = of_one(builtin, found, argument, at)?;
    Ok(base)
}

/// Returns the result type of a built-in function for one argument of the type `found`, or the fault of that argument.
fn of_one<A: Allocator>(
    builtin: Builtin,
    found: VariableType,
    argument: &Expr<A>,
    at: Span,
) -> Result<Base, TypeFault>
    ensures { Judges (λ b. b) result (checks.of_one builtin (type_of found) (expression_view argument.now) at) }
{
    match builtin {
        Builtin::FromInt => {
            same_base(scalar(found, argument.first)?, Base::Int, argument.first)?;
            Ok(Base::Text)
        }
        Builtin::ToInt => {
            same_base(scalar(found, argument.first)?, Base::Text, argument.first)?;
            Ok(Base::Int)
        }
        Builtin::Size => {
            let _given = array_name(found, argument)?;
            Ok(Base::Int)
        }
        Builtin::Strcat | Builtin::Printf | Builtin::Assert => Err(TypeFault::WrongCount(at)),
    }
}

/// Returns the first argument, or `WrongCount` at `at` if there is none.
pub fn first_argument<A: Allocator>(given: &[Expr<A>], at: Span) -> Result<&Expr<A>, TypeFault>
    ensures { Judges (λ _. tt) result (checks.some_given (expressions_of (map expression_view given.now)) at) }
{
    match given.first() {
        Some(argument) => Ok(argument),
        None => Err(TypeFault::WrongCount(at)),
    }
}

/// Checks the arguments from number `from` on against the types of the inputs.
///
/// Returns `WrongCount` at `at` for an argument without an input. Inputs without an argument are not reported: the
/// caller has compared the counts.
#[tactic(auto, unfolding(crate::specs::Expressions::arguments))]
#[cycle(expr)]
pub fn arguments<A: Allocator>(
    functions: &Functions,
    scope: &Scope,
    settled: &mut Vec<NameEntry>,
    given: &Vec<Expr<A>, A>,
    from: usize,
    inputs: &[VariableType],
    at: Span,
) -> Result<(), TypeFault>
    ensures { Gives (λ _. tt) result settled.new.items
        (checks.arguments (signatures_of functions.now) (around_of scope.now) (expressions_of (map expression_view (drop from given.now.items)))
        (map type_of inputs.now) at settled.old.items) }
{
    for i in from..given.len() {
        let Some(input) = inputs.get(i - from) else {
            return Err(TypeFault::WrongCount(at));
        };
        let argument = &given[i];
        let found = whole(functions, scope, settled, argument)?;
        fits(found, *input, argument)?;
    }
    Ok(())
}

/// Checks that an argument fits an input. The argument for an array input has to be the name of an array.
fn fits<A: Allocator>(
    found: VariableType,
    input: VariableType,
    argument: &Expr<A>,
) -> Result<(), TypeFault>
    ensures { Judges (λ _. tt) result (checks.fits (type_of found) (type_of input) (expression_view argument.now)) }
{
    match input.shape {
        Shape::Scalar => same_base(scalar(found, argument.first)?, input.base, argument.first),
        Shape::Array(_) => {
            let _given = array_name(found, argument)?;
            same_type(found, input, argument.first)
        }
    }
}

/// Returns the element and key types of an array that is given by its name, or `Mismatch` for any other expression.
fn array_name<A: Allocator>(found: VariableType, value: &Expr<A>) -> Result<ElementTypes, TypeFault>
    ensures { Judges (λ given. given) result (checks.array_name (type_of found) (expression_view value.now)) }
{
    match &value.kind {
        ExprKind::Variable(_) => elements_of(found, value.first),
        _ => Err(TypeFault::Mismatch(value.first)),
    }
}

/// Checks that all expressions are scalars of the wanted type. Without a wanted type each has to be well typed, and may
/// be an array.
#[tactic(auto, unfolding(crate::specs::Expressions::elements))]
#[cycle(expr)]
pub fn elements<A: Allocator>(
    functions: &Functions,
    scope: &Scope,
    settled: &mut Vec<NameEntry>,
    values: &Vec<Expr<A>, A>,
    wanted: Option<Base>,
) -> Result<(), TypeFault>
    ensures { Gives (λ _. tt) result settled.new.items
        (checks.elements (signatures_of functions.now) (around_of scope.now) (expressions_of (map expression_view values.now.items)) wanted settled.old.items) }
{
    for i in 0..values.len() {
        let value = &values[i];
        let found = whole(functions, scope, settled, value)?;
        has_wanted(found, wanted, value.first)?;
    }
    Ok(())
}

/// Returns `Mismatch` at `at` unless the found type is a scalar of the wanted base type. Without a wanted type nothing
/// is refused.
fn has_wanted(found: VariableType, wanted: Option<Base>, at: Span) -> Result<(), TypeFault>
    ensures { Judges (λ _. tt) result (checks.has_wanted (type_of found) wanted at) }
{
    match wanted {
        Some(base) => same_base(scalar(found, at)?, base, at),
        None => Ok(()),
    }
}
