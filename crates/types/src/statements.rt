//! Type checks of statements, each of which passes the extended scope to the following ones.
//!
//! The functions read a statement from left to right and stop at the first fault. They append each resolved name to
//! `settled`, even if they fail later. The contracts equate each function with one of `specs/Statements.antt`, except
//! after an allocation failure.
ghost use Rattle.std.specs.Prelude.{◌≡◌, IfOk, List, OnOk, map, option_map};
ghost use Rattle.syntax_trees.specs.View.{word_of, expression_view, calling_of, right_of, list_of, range_of, over_of, words_view, declaration_of, statement_view, command_view, body_view};
ghost use Rattle.language.specs.Tree.{choice_of};
ghost use Rattle.language.specs.Tree as trees;
ghost use Rattle.language.specs.Tree.{statements_of};
ghost use Rattle.language.specs.Scopes as scopes;
ghost use Rattle.language.specs.Typing as typing;
ghost use Rattle.types.specs.Known.{type_of, around_of};
ghost use Rattle.types.specs.Functions.{signatures_of};
ghost use Rattle.types.specs.Statements as steps;
ghost use Rattle.types.specs.Outcomes.{Gives, Judges, Tells, got};
ghost use Rattle.types.specs.Growth.{Grown, outside};

use crate::builtins::{builtin_of, one_of};
use crate::expressions::{
    arguments, builtin_call, elements, elements_of, expect, same_type, whole,
};
use crate::fault::TypeFault;
use crate::functions::{called, declared, function_called};
use crate::scope::{Scope, add, declare, fresh, refer, same_text};
use crate::signatures::Functions;
use crate::typed::{Binding, Builtin, Callee, ElementTypes, NameEntry, VariableType};
use lexer::token::Span;
use std::alloc::{AllocError, Allocator, Global};
use syntax_trees::tree::{
    Base, Block, Call, Decl, Expr, ExprKind, Header, Keys, ListOf, Name, Range, Right, Shape,
    Source, Stmt, StmtKind,
};
use values::format::{Format, FormatError, FormatPiece};

/// Checks that a right side has the type of its target.
fn right<A: Allocator>(
    functions: &Functions,
    scope: &Scope,
    settled: &mut Vec<NameEntry>,
    right: &Right<A>,
    target: VariableType,
) -> Result<(), TypeFault>
    ensures { Gives (λ _. tt) result settled.new.items
        (steps.right (signatures_of functions.now) (around_of scope.now) (right_of right.now) (type_of target) settled.old.items) }
{
    match right {
        Right::Value(value) => {
            let found = whole(functions, scope, settled, value)?;
            same_type(found, target, value.first)
        }
        Right::List(list) => literal(functions, scope, settled, list, target),
    }
}

/// Checks an array literal against the type of its target.
///
/// Each element has to have the element type of the target, and the target has to be an array with numbers as keys.
/// With a scalar target the elements are checked for their own faults alone, and then the literal is refused.
fn literal<A: Allocator>(
    functions: &Functions,
    scope: &Scope,
    settled: &mut Vec<NameEntry>,
    list: &ListOf<A>,
    target: VariableType,
) -> Result<(), TypeFault>
    ensures { Gives (λ _. tt) result settled.new.items
        (steps.right (signatures_of functions.now) (around_of scope.now) (list_of list.now) (type_of target) settled.old.items) }
{
    match target.shape {
        Shape::Array(keys) => {
            elements(functions, scope, settled, &list.elements, Some(target.base))?;
            under_numbers(keys, list.first)
        }
        Shape::Scalar => {
            elements(functions, scope, settled, &list.elements, None)?;
            Err(TypeFault::Mismatch(list.first))
        }
    }
}

/// Returns `Mismatch` at `at` unless the keys are numbers.
fn under_numbers(keys: Keys, at: Span) -> Result<(), TypeFault>
    ensures { Judges (λ _. tt) result (steps.under_numbers keys at) }
{
    match keys {
        Keys::Numbers => Ok(()),
        Keys::Texts => Err(TypeFault::Mismatch(at)),
    }
}

/// Returns the types of the variables that names refer to, in the order of the names, and records each reference.
///
/// # Errors
///
/// Returns the first fault of a name, or `Memory` if an allocation fails.
fn refer_all<A: Allocator>(
    alloc: Global,
    scope: &Scope,
    settled: &mut Vec<NameEntry>,
    names: &[Name<A>],
) -> Result<Vec<VariableType>, TypeFault>
    ensures { Gives (λ types. map type_of types.items) result settled.new.items
        (steps.refer_all (around_of scope.now) (map word_of names.now) settled.old.items) }
{
    let mut types = Vec::new(alloc);
    for name in names {
        types.push(refer(scope, settled, name)?)?;
    }
    Ok(types)
}

/// Checks that the outputs of a call have the types of their targets.
///
/// Returns `Mismatch` at `at` if an output has another type than its target, or `WrongCount` if there are fewer targets
/// than outputs. Further targets are not checked: the caller has compared the counts.
fn same_types(found: &[VariableType], wanted: &[VariableType], at: Span) -> Result<(), TypeFault>
    ensures { Judges (λ _. tt) result (steps.same_types (map type_of found.now) (map type_of wanted.now) at) }
{
    for i in 0..found.len() {
        let one = found[i];
        let Some(other) = wanted.get(i) else {
            return Err(TypeFault::WrongCount(at));
        };
        same_type(one, *other, at)?;
    }
    Ok(())
}

/// Returns the type of the only target of a call that has one output.
///
/// # Errors
///
/// Returns `WrongCount` at the called name if there is not exactly one target.
fn only_target(targets: &[VariableType], at: Span) -> Result<VariableType, TypeFault>
    ensures { Judges type_of result (steps.only_target (map type_of targets.now) at) }
{
    if targets.len() != 1 {
        return Err(TypeFault::WrongCount(at));
    }
    match targets.first() {
        Some(target) => Ok(*target),
        None => Err(TypeFault::WrongCount(at)),
    }
}

/// Checks a call whose outputs are assigned to variables of the types in `targets`.
fn several<A: Allocator>(
    functions: &Functions,
    scope: &Scope,
    settled: &mut Vec<NameEntry>,
    call: &Call<A>,
    targets: &[VariableType],
) -> Result<(), TypeFault>
    ensures { Gives (λ _. tt) result settled.new.items
        (steps.several (signatures_of functions.now) (around_of scope.now) (calling_of call.now) (map type_of targets.now) settled.old.items) }
{
    let at = call.name.span;
    match builtin_of(call.name.text.as_slice()) {
        Some(builtin) => {
            let target = only_target(targets, at)?;
            called(settled, &call.name, Callee::BuiltIn(builtin))?;
            let base = builtin_call(functions, scope, settled, builtin, &call.arguments, at)?;
            same_type(one_of(base), target, at)
        }
        None => {
            let signature = function_called(
                functions,
                settled,
                &call.name,
                call.arguments.len(),
                targets.len(),
            )?;
            arguments(
                functions,
                scope,
                settled,
                &call.arguments,
                0,
                signature.inputs.as_slice(),
                at,
            )?;
            same_types(signature.outputs.as_slice(), targets, at)
        }
    }
}

/// Checks a call that is a statement: of a function without outputs, of `printf` or of `assert`.
fn call_statement<A: Allocator>(
    alloc: Global,
    functions: &Functions,
    scope: &Scope,
    settled: &mut Vec<NameEntry>,
    call: &Call<A>,
) -> Result<(), TypeFault>
    ensures { Gives (λ _. tt) result settled.new.items
        (steps.call_alone (signatures_of functions.now) (around_of scope.now) (calling_of call.now) settled.old.items) }
{
    let given = &call.arguments;
    let at = call.name.span;
    match builtin_of(call.name.text.as_slice()) {
        Some(builtin) => {
            called(settled, &call.name, Callee::BuiltIn(builtin))?;
            builtin_statement(alloc, functions, scope, settled, builtin, given, at)
        }
        None => {
            let signature = function_called(functions, settled, &call.name, given.len(), 0)?;
            arguments(
                functions,
                scope,
                settled,
                given,
                0,
                signature.inputs.as_slice(),
                at,
            )
        }
    }
}

/// Checks the arguments of a built-in function that is called as a statement. `at`: the called name.
fn builtin_statement<A: Allocator>(
    alloc: Global,
    functions: &Functions,
    scope: &Scope,
    settled: &mut Vec<NameEntry>,
    builtin: Builtin,
    given: &Vec<Expr<A>, A>,
    at: Span,
) -> Result<(), TypeFault>
    ensures { Gives (λ _. tt) result settled.new.items
        (steps.builtin_statement builtin (signatures_of functions.now) (around_of scope.now) (map expression_view given.now.items) at settled.old.items) }
{
    match builtin {
        Builtin::Printf => print(alloc, functions, scope, settled, given, at),
        Builtin::Assert => {
            if given.len() != 2 {
                return Err(TypeFault::WrongCount(at));
            }
            arguments(
                functions,
                scope,
                settled,
                given,
                0,
                &[one_of(Base::Boolean), one_of(Base::Text)],
                at,
            )
        }
        Builtin::Strcat | Builtin::FromInt | Builtin::ToInt | Builtin::Size => Err(
            TypeFault::WrongCount(at),
        ),
    }
}

/// Checks the arguments of `printf`: a format, and one argument for each of its conversions. `at`: the called name.
fn print<A: Allocator>(
    alloc: Global,
    functions: &Functions,
    scope: &Scope,
    settled: &mut Vec<NameEntry>,
    given: &Vec<Expr<A>, A>,
    at: Span,
) -> Result<(), TypeFault>
    ensures { Gives (λ _. tt) result settled.new.items
        (steps.print (signatures_of functions.now) (around_of scope.now) (map expression_view given.now.items) at settled.old.items) }
{
    let Some(format) = given.first() else {
        return Err(TypeFault::WrongCount(at));
    };
    let wanted = conversions(alloc, format)?;
    if given.len() - 1 != wanted.len() {
        return Err(TypeFault::WrongCount(at));
    }
    arguments(functions, scope, settled, given, 1, wanted.as_slice(), at)
}

/// Returns the types that the conversions of a format take.
///
/// # Errors
///
/// Returns `BadFormat` at the argument if it is not a string literal with a valid format, or `Memory` if an allocation
/// fails.
fn conversions<A: Allocator>(
    alloc: Global,
    format: &Expr<A>,
) -> Result<Vec<VariableType>, TypeFault>
    ensures { Tells (λ types. map type_of types.items) result (steps.conversions (expression_view format.now)) }
{
    let at = Span {
        from: format.first.from,
        to: format.to,
    };
    let ExprKind::Text(bytes) = &format.kind else {
        return Err(TypeFault::BadFormat(at));
    };
    match Format::read(alloc, bytes.as_slice()) {
        Ok(format) => Ok(wanted(alloc, &format)?),
        Err(FormatError::Unreadable) => Err(TypeFault::BadFormat(at)),
        Err(FormatError::Memory) => Err(TypeFault::Memory),
    }
}

/// Returns the types that the conversions of a parsed format take.
///
/// # Errors
///
/// Returns `AllocError` if an allocation fails.
fn wanted(alloc: Global, format: &Format) -> Result<Vec<VariableType>, AllocError>
    ensures { IfOk result (λ types. map type_of types.items ≡ typing.wanted format.now) }
{
    let mut types = Vec::new(alloc);
    for piece in format.pieces() {
        match piece {
            FormatPiece::Byte(_) => {}
            FormatPiece::Number => types.push(one_of(Base::Int))?,
            FormatPiece::Text => types.push(one_of(Base::Text))?,
        }
    }
    Ok(types)
}

/// Checks the source of a loop, and returns the types of the value variable and of the key variable.
fn source<A: Allocator>(
    functions: &Functions,
    scope: &Scope,
    settled: &mut Vec<NameEntry>,
    source: &Source<A>,
) -> Result<ElementTypes, TypeFault>
    ensures { Gives (λ given. given) result settled.new.items
        (steps.source (signatures_of functions.now) (around_of scope.now) (over_of source.now) settled.old.items) }
{
    match source {
        Source::Array(name) => elements_of(refer(scope, settled, name)?, name.span),
        Source::Range(over) => {
            let given = range(functions, scope, settled, over)?;
            Ok(given)
        }
    }
}

/// Checks that the bounds and the step of a range are numbers. Its values and its keys are numbers too.
fn range<A: Allocator>(
    functions: &Functions,
    scope: &Scope,
    settled: &mut Vec<NameEntry>,
    range: &Range<A>,
) -> Result<ElementTypes, TypeFault>
    ensures { Gives (λ given. given) result settled.new.items
        (steps.source (signatures_of functions.now) (around_of scope.now) (range_of range.now) settled.old.items) }
{
    expect(functions, scope, settled, &range.low, Base::Int)?;
    expect(functions, scope, settled, &range.high, Base::Int)?;
    step(functions, scope, settled, &range.step)?;
    Ok(ElementTypes {
        value: Base::Int,
        key: Base::Int,
    })
}

/// Checks that the step of a range is a number, if the range has a step.
fn step<A: Allocator>(
    functions: &Functions,
    scope: &Scope,
    settled: &mut Vec<NameEntry>,
    step: &Option<Expr<A>>,
) -> Result<(), TypeFault>
    ensures { Gives (λ _. tt) result settled.new.items
        (steps.step_of (signatures_of functions.now) (around_of scope.now) (option_map expression_view step.now) settled.old.items) }
{
    match step {
        Some(step) => expect(functions, scope, settled, step, Base::Int),
        None => Ok(()),
    }
}

/// Checks that the variables of a loop are not yet visible and that their names differ.
///
/// # Errors
///
/// Returns `Declared` at the first name that is already visible, or at the key if it has the name of the value.
fn fresh_variables<A: Allocator>(
    scope: &Scope,
    value: &Name<A>,
    key: &Option<Name<A>>,
) -> Result<(), TypeFault>
    ensures { Judges (λ _. tt) result (steps.fresh_variables (around_of scope.now) (word_of value.now) (option_map word_of key.now)) }
{
    fresh(scope, value)?;
    match key {
        None => Ok(()),
        Some(key) => {
            fresh(scope, key)?;
            if same_text(key.text.as_slice(), value.text.as_slice()) {
                return Err(TypeFault::Declared(key.span));
            }
            Ok(())
        }
    }
}

/// Adds the variables of a loop to the scope. Their names are not yet visible, and they differ.
///
/// If an allocation fails, the first variable may already have been added.
fn add_variables<A: Allocator>(
    alloc: Global,
    scope: &mut Scope,
    value: &Name<A>,
    key: &Option<Name<A>>,
    given: ElementTypes,
) -> Result<(), AllocError>
    requires { (settled : List NameEntry) → steps.fresh_variables (around_of scope.old) (word_of value.now) (option_map word_of key.now)
        settled ≡ got tt settled }
    ensures { OnOk result (around_of scope.new ≡ steps.with_key (steps.declared (around_of scope.old) (word_of value.now) (scopes.one_of given.value))
        (option_map word_of key.now) given.key) }
{
    add(
        alloc,
        scope,
        value,
        Binding::Local(value.number),
        one_of(given.value),
    )?;
    if let Some(key) = key {
        add(
            alloc,
            scope,
            key,
            Binding::Local(key.number),
            one_of(given.key),
        )?;
    }
    Ok(())
}

/// Checks a statement, and adds the variable that it declares to the scope.
#[tactic(auto, unfolding(crate::specs::Statements::stated))]
#[cycle(stmt)]
pub fn stmt<A: Allocator>(
    alloc: Global,
    functions: &Functions,
    scope: &mut Scope,
    settled: &mut Vec<NameEntry>,
    stmt: &Stmt<A>,
) -> Result<(), TypeFault>
    ensures { Gives (λ _. around_of scope.new) result settled.new.items
        (steps.stated (signatures_of functions.now) (around_of scope.old) (statement_view stmt.now) settled.old.items) }
{
    command(alloc, functions, scope, settled, &stmt.kind)
}

/// Checks a statement by its form.
#[cycle(stmt)]
fn command<A: Allocator>(
    alloc: Global,
    functions: &Functions,
    scope: &mut Scope,
    settled: &mut Vec<NameEntry>,
    kind: &StmtKind<A>,
) -> Result<(), TypeFault>
    ensures { Gives (λ _. around_of scope.new) result settled.new.items
        (steps.commanded (signatures_of functions.now) (around_of scope.old) (command_view kind.now) settled.old.items) }
{
    match kind {
        StmtKind::Declare(decl, value) => declaration(
            alloc, functions, scope, settled, decl, value,
        ),
        StmtKind::Assign(name, value) => assignment(functions, scope, settled, name, value),
        StmtKind::Write(name, index, value) => write(functions, scope, settled, name, index, value),
        StmtKind::AssignAll(names, call) => assignments(
            alloc, functions, scope, settled, names, call,
        ),
        StmtKind::Call(priority, call) => called_alone(
            alloc, functions, scope, settled, *priority, call,
        ),
        StmtKind::If(condition, then, other) => choice(
            alloc, functions, scope, settled, condition, then, other,
        ),
        StmtKind::Foreach(header, body) => {
            repetition(alloc, functions, scope, settled, header, body)
        }
        StmtKind::Wait(names, body) => waiting(alloc, functions, scope, settled, names, body),
    }
}

/// Checks a declaration. The declared name is already visible in its own right side.
#[tactic(auto, unfolding(crate::specs::Statements::commanded))]
fn declaration<A: Allocator>(
    alloc: Global,
    functions: &Functions,
    scope: &mut Scope,
    settled: &mut Vec<NameEntry>,
    decl: &Decl<A>,
    value: &Option<Right<A>>,
) -> Result<(), TypeFault>
    ensures { Gives (λ _. around_of scope.new) result settled.new.items
        (steps.commanded (signatures_of functions.now) (around_of scope.old)
        (trees.declare (declaration_of decl.now) (option_map right_of value.now)) settled.old.items) }
{
    declare(
        alloc,
        scope,
        &decl.name,
        Binding::Local(decl.name.number),
        declared(decl),
    )?;
    initial(functions, scope, settled, value, declared(decl))?;
    Ok(())
}

/// Checks the right side of a declaration, if there is one.
fn initial<A: Allocator>(
    functions: &Functions,
    scope: &Scope,
    settled: &mut Vec<NameEntry>,
    value: &Option<Right<A>>,
    target: VariableType,
) -> Result<(), TypeFault>
    ensures { Gives (λ _. tt) result settled.new.items
        (steps.initial (signatures_of functions.now) (around_of scope.now) (option_map right_of value.now) (type_of target) settled.old.items) }
{
    match value {
        None => Ok(()),
        Some(value) => right(functions, scope, settled, value, target),
    }
}

/// Checks an assignment to one variable.
#[tactic(auto, unfolding(crate::specs::Statements::commanded))]
fn assignment<A: Allocator>(
    functions: &Functions,
    scope: &Scope,
    settled: &mut Vec<NameEntry>,
    name: &Name<A>,
    value: &Right<A>,
) -> Result<(), TypeFault>
    ensures { Gives (λ _. around_of scope.now) result settled.new.items
        (steps.commanded (signatures_of functions.now) (around_of scope.now) (trees.assign (word_of name.now) (right_of value.now)) settled.old.items) }
{
    let target = refer(scope, settled, name)?;
    right(functions, scope, settled, value, target)?;
    Ok(())
}

/// Checks a write of one array element.
#[tactic(auto, unfolding(crate::specs::Statements::commanded))]
fn write<A: Allocator>(
    functions: &Functions,
    scope: &Scope,
    settled: &mut Vec<NameEntry>,
    name: &Name<A>,
    index: &Expr<A>,
    value: &Expr<A>,
) -> Result<(), TypeFault>
    ensures { Gives (λ _. around_of scope.now) result settled.new.items
        (steps.commanded (signatures_of functions.now) (around_of scope.now)
        (trees.write (word_of name.now) (expression_view index.now) (expression_view value.now)) settled.old.items) }
{
    let given = elements_of(refer(scope, settled, name)?, name.span)?;
    expect(functions, scope, settled, index, given.key)?;
    expect(functions, scope, settled, value, given.value)?;
    Ok(())
}

/// Checks an assignment of several variables by one call.
#[tactic(auto, unfolding(crate::specs::Statements::commanded))]
fn assignments<A: Allocator>(
    alloc: Global,
    functions: &Functions,
    scope: &Scope,
    settled: &mut Vec<NameEntry>,
    names: &Vec<Name<A>, A>,
    call: &Call<A>,
) -> Result<(), TypeFault>
    ensures { Gives (λ _. around_of scope.now) result settled.new.items
        (steps.commanded (signatures_of functions.now) (around_of scope.now)
        (trees.assign_all (words_view names.now) (calling_of call.now)) settled.old.items) }
{
    let targets = refer_all(alloc, scope, settled, names.as_slice())?;
    several(functions, scope, settled, call, targets.as_slice())?;
    Ok(())
}

/// Checks a call that is a statement, with any priority.
#[tactic(auto, unfolding(crate::specs::Statements::commanded))]
fn called_alone<A: Allocator>(
    alloc: Global,
    functions: &Functions,
    scope: &Scope,
    settled: &mut Vec<NameEntry>,
    priority: i32,
    call: &Call<A>,
) -> Result<(), TypeFault>
    ensures { Gives (λ _. around_of scope.now) result settled.new.items
        (steps.commanded (signatures_of functions.now) (around_of scope.now) (trees.calls priority (calling_of call.now)) settled.old.items) }
{
    call_statement(alloc, functions, scope, settled, call)?;
    Ok(())
}

/// Checks an `if`, with its `else` if there is one.
#[tactic(auto, unfolding(crate::specs::Statements::commanded))]
#[cycle(stmt)]
fn choice<A: Allocator>(
    alloc: Global,
    functions: &Functions,
    scope: &mut Scope,
    settled: &mut Vec<NameEntry>,
    condition: &Expr<A>,
    then: &Block<A>,
    other: &Option<Box<Block<A>, A>>,
) -> Result<(), TypeFault>
    ensures { Gives (λ _. around_of scope.new) result settled.new.items
        (steps.commanded (signatures_of functions.now) (around_of scope.old)
        (choice_of (expression_view condition.now) (body_view then.now) (option_map (λ it. body_view it.value) other.now)) settled.old.items) }
{
    expect(functions, scope, settled, condition, Base::Boolean)?;
    branch(alloc, functions, scope, settled, then)?;
    if let Some(other) = other {
        branch(alloc, functions, scope, settled, other)?;
    }
    Ok(())
}

/// Checks a loop. Its variables have to be new, and only its body sees them.
#[tactic(auto, unfolding(crate::specs::Statements::commanded))]
#[cycle(stmt)]
fn repetition<A: Allocator>(
    alloc: Global,
    functions: &Functions,
    scope: &mut Scope,
    settled: &mut Vec<NameEntry>,
    header: &Header<A>,
    body: &Block<A>,
) -> Result<(), TypeFault>
    ensures { Gives (λ _. around_of scope.new) result settled.new.items
        (steps.commanded (signatures_of functions.now) (around_of scope.old)
        (trees.loop (word_of header.now.value) (option_map word_of header.now.key) (over_of header.now.source) (body_view body.now)) settled.old.items) }
{
    fresh_variables(scope, &header.value, &header.key)?;
    let given = source(functions, scope, settled, &header.source)?;
    let visible = scope.names.len();
    scope.blocks.push(visible)?;
    add_variables(alloc, scope, &header.value, &header.key, given)?;
    block(alloc, functions, scope, settled, body)?;
    leave(scope, visible);
    Ok(())
}

/// Checks a `wait` statement: its variables, then its body.
#[tactic(auto, unfolding(crate::specs::Statements::commanded))]
#[cycle(stmt)]
fn waiting<A: Allocator>(
    alloc: Global,
    functions: &Functions,
    scope: &mut Scope,
    settled: &mut Vec<NameEntry>,
    names: &Vec<Name<A>, A>,
    body: &Block<A>,
) -> Result<(), TypeFault>
    ensures { Gives (λ _. around_of scope.new) result settled.new.items
        (steps.commanded (signatures_of functions.now) (around_of scope.old) (trees.waits (words_view names.now) (body_view body.now)) settled.old.items) }
{
    let _types = refer_all(alloc, scope, settled, names.as_slice())?;
    block(alloc, functions, scope, settled, body)?;
    Ok(())
}

/// Checks a block that is nested one level deeper than `scope`, and restores the scope.
#[cycle(stmt)]
fn branch<A: Allocator>(
    alloc: Global,
    functions: &Functions,
    scope: &mut Scope,
    settled: &mut Vec<NameEntry>,
    body: &Block<A>,
) -> Result<(), TypeFault>
    ensures gives { Gives (λ _. tt) result settled.new.items
        (steps.enclosed (signatures_of functions.now) (steps.inside (around_of scope.old)) (body_view body.now) settled.old.items) }
    ensures same { OnOk result (around_of scope.new ≡ around_of scope.old) }
{
    let visible = scope.names.len();
    scope.blocks.push(visible)?;
    block(alloc, functions, scope, settled, body)?;
    leave(scope, visible);
    Ok(())
}

/// Closes a block: drops the names that were added after the first `visible` ones.
fn leave(scope: &mut Scope, visible: usize)
    ensures { around_of scope.new ≡ outside (around_of scope.old) visible }
{
    scope.names.truncate(visible);
    let _closed = scope.blocks.pop();
}

/// Checks the statements of a block. Variables that they declare are not visible after the block.
#[tactic(auto, unfolding(crate::specs::Statements::enclosed))]
#[cycle(stmt)]
pub fn block<A: Allocator>(
    alloc: Global,
    functions: &Functions,
    scope: &mut Scope,
    settled: &mut Vec<NameEntry>,
    body: &Block<A>,
) -> Result<(), TypeFault>
    ensures gives { Gives (λ _. tt) result settled.new.items
        (steps.enclosed (signatures_of functions.now) (around_of scope.old) (body_view body.now) settled.old.items) }
    ensures same { OnOk result (around_of scope.new ≡ around_of scope.old) }
{
    let visible = scope.names.len();
    each(alloc, functions, scope, settled, &body.statements)?;
    scope.names.truncate(visible);
    Ok(())
}

/// Checks statements in order.
#[tactic(auto, unfolding(crate::specs::Statements::in_order))]
#[cycle(stmt)]
fn each<A: Allocator>(
    alloc: Global,
    functions: &Functions,
    scope: &mut Scope,
    settled: &mut Vec<NameEntry>,
    statements: &Vec<Stmt<A>, A>,
) -> Result<(), TypeFault>
    ensures gives { Gives (λ _. tt) result settled.new.items
        (steps.in_order (signatures_of functions.now) (around_of scope.old) (statements_of (map statement_view statements.now.items)) settled.old.items) }
    ensures grown { OnOk result (Grown (around_of scope.old) (around_of scope.new)) }
{
    for inner in statements {
        stmt(alloc, functions, scope, settled, inner)?;
    }
    Ok(())
}
