//! Search for a type mismatch at a place: the type of an expression, and the type that its context expects.
//!
//! The walk visits the whole tree, and records the first mismatch whose expression begins at the place. It repeats a
//! part of the type check.

use crate::calls::{is_behind_comma, looped_array};
use explain_names::lookup::{LookupKind, bytes_at, function_named, last_before};
use explain_names::occurrence::{DisplayType, Occurrence};
use lexer::token::Span;
use std::alloc::Allocator;
use syntax_trees::tree::{
    Base, Block, Call, Decl, Expr, ExprKind, Item, Keys, Name, Operator, Prefix, Range, Right,
    Script, Shape, Source, Stmt, StmtKind,
};

/// An expression whose type differs from the expected one.
#[derive(Clone, Copy, Debug, PartialEq, Eq, Drop)]
pub struct TypeMismatch {
    pub found: DisplayType,
    pub wanted: ExpectedType,
}

/// The expected type of an expression, as its context determines it.
#[derive(Clone, Copy, Debug, PartialEq, Eq, Drop)]
pub enum ExpectedType {
    /// A type.
    Sort(DisplayType),
    /// The type of an operand of this operator.
    Operand(DisplayType, Operator),
    /// A key of an array of this type. The place is that of the array's name.
    Key(DisplayType, Span),
    /// A value of this type, in place of which there is an array literal.
    Literal(DisplayType),
    /// An array, of which an element is used.
    Element,
    /// An array that a loop iterates over.
    Loop,
    /// An array as the argument of `size`.
    Size,
    /// The name of an array, in place of another expression whose value is an array.
    Named,
    /// A scalar operand of a comparison.
    Compared,
}

/// The input of a search: a place in a script, with the occurrences of variables in the surrounding function or in the
/// script's own block.
#[derive(Clone, Copy, Drop)]
pub struct MismatchSearch<'a, A: Allocator> {
    pub text: &'a [u8],
    pub script: &'a Script<A>,
    pub occurrences: &'a [Occurrence],
    pub at: Span,
}

/// Returns the type of a scalar with this base type.
pub fn one(base: Base) -> DisplayType {
    DisplayType {
        base,
        shape: Shape::Scalar,
    }
}

/// Returns the key type of an array, or numbers for a scalar.
pub fn keys_of(array: DisplayType) -> Keys {
    match array.shape {
        Shape::Array(keys) => keys,
        Shape::Scalar => Keys::Numbers,
    }
}

/// Returns the mismatch at the place, or `None` if it cannot be determined.
pub fn first_mismatch<A: Allocator>(search: &MismatchSearch<A>) -> Option<TypeMismatch> {
    let mut found = None;
    for item in &search.script.items {
        match item {
            Item::Import(_) => {}
            Item::Function(function) => in_block(search, &function.body, &mut found),
            Item::Statement(stmt) => in_statement(search, stmt, &mut found),
        }
    }
    found
}

/// Searches a statement.
#[cycle(stmt)]
fn in_statement<A: Allocator>(
    search: &MismatchSearch<A>,
    stmt: &Stmt<A>,
    found: &mut Option<TypeMismatch>,
) {
    in_command(search, &stmt.kind, found);
}

/// Searches a statement by its form.
#[cycle(stmt)]
fn in_command<A: Allocator>(
    search: &MismatchSearch<A>,
    kind: &StmtKind<A>,
    found: &mut Option<TypeMismatch>,
) {
    match kind {
        StmtKind::Declare(decl, right) => in_declaration(search, decl, right, found),
        StmtKind::Assign(name, right) => {
            in_right(search, right, sort_of_name(search, name), found);
        }
        StmtKind::Write(name, index, value) => in_write(search, name, index, value, found),
        StmtKind::AssignAll(targets, call) => {
            in_call(search, call, found);
            in_targets(search, targets, call, found);
        }
        StmtKind::Call(_, call) => in_call(search, call, found),
        StmtKind::If(test, then, other) => {
            demand(search, test, one(Base::Boolean), None, found);
            in_block(search, then, found);
            if let Some(other) = other {
                in_block(search, other, found);
            }
        }
        StmtKind::Foreach(header, body) => {
            in_source(search, &header.source, found);
            in_block(search, body, found);
        }
        StmtKind::Wait(_, body) => in_block(search, body, found),
    }
}

/// Searches a block.
#[cycle(stmt)]
fn in_block<A: Allocator>(
    search: &MismatchSearch<A>,
    block: &Block<A>,
    found: &mut Option<TypeMismatch>,
) {
    in_each(search, &block.statements, found);
}

/// Searches statements in order.
#[cycle(stmt)]
fn in_each<A: Allocator>(
    search: &MismatchSearch<A>,
    statements: &Vec<Stmt<A>, A>,
    found: &mut Option<TypeMismatch>,
) {
    for stmt in statements {
        in_statement(search, stmt, found);
    }
}

fn in_declaration<A: Allocator>(
    search: &MismatchSearch<A>,
    decl: &Decl<A>,
    right: &Option<Right<A>>,
    found: &mut Option<TypeMismatch>,
) {
    let wanted = DisplayType {
        base: decl.base,
        shape: decl.shape,
    };
    if let Some(right) = right {
        in_right(search, right, Some(wanted), found);
    }
}

fn in_write<A: Allocator>(
    search: &MismatchSearch<A>,
    name: &Name<A>,
    index: &Expr<A>,
    value: &Expr<A>,
    found: &mut Option<TypeMismatch>,
) {
    want_array(search, name, ExpectedType::Element, found);
    if let Some(array) = sort_of_name(search, name) {
        demand_key(search, name, index, array, found);
        demand(search, value, one(array.base), None, found);
    }
}

fn in_right<A: Allocator>(
    search: &MismatchSearch<A>,
    right: &Right<A>,
    wanted: Option<DisplayType>,
    found: &mut Option<TypeMismatch>,
) {
    let Some(wanted) = wanted else { return };
    match right {
        Right::Value(value) => demand(search, value, wanted, None, found),
        Right::List(list) => {
            for element in &list.elements {
                demand(search, element, one(wanted.base), None, found);
            }
            let numbered = Shape::Array(Keys::Numbers);
            if wanted.shape != numbered && list.first == search.at {
                let array = DisplayType {
                    base: wanted.base,
                    shape: numbered,
                };
                note(found, array, ExpectedType::Literal(wanted));
            }
        }
    }
}

/// Records a mismatch if it is the first.
fn note(found: &mut Option<TypeMismatch>, sort: DisplayType, wanted: ExpectedType) {
    if found.is_none() {
        *found = Some(TypeMismatch {
            found: sort,
            wanted,
        });
    }
}

/// Records a mismatch if the name at the place is a variable that is not an array.
fn want_array<A: Allocator>(
    search: &MismatchSearch<A>,
    name: &Name<A>,
    wish: ExpectedType,
    found: &mut Option<TypeMismatch>,
) {
    if name.span != search.at {
        return;
    }
    if let Some(sort) = sort_of_name(search, name) {
        if sort.shape == Shape::Scalar {
            note(found, sort, wish);
        }
    }
}

/// Records a mismatch if an output of the call at the place has another type than its target.
fn in_targets<A: Allocator>(
    search: &MismatchSearch<A>,
    targets: &Vec<Name<A>, A>,
    call: &Call<A>,
    found: &mut Option<TypeMismatch>,
) {
    if call.name.span != search.at {
        return;
    }
    let Some(function) = function_named(call.name.text.as_slice(), search.script) else {
        return;
    };
    for (output, target) in function.outputs.iter().zip(targets.iter()) {
        let given = DisplayType {
            base: output.base,
            shape: output.shape,
        };
        if let Some(wanted) = sort_of_name(search, target) {
            if wanted != given {
                note(found, given, ExpectedType::Sort(wanted));
            }
        }
    }
}

fn in_call<A: Allocator>(
    search: &MismatchSearch<A>,
    call: &Call<A>,
    found: &mut Option<TypeMismatch>,
) {
    in_arguments(search, &call.name, &call.arguments, found);
}

fn in_source<A: Allocator>(
    search: &MismatchSearch<A>,
    source: &Source<A>,
    found: &mut Option<TypeMismatch>,
) {
    match source {
        Source::Range(range) => in_range(search, range, found),
        Source::Array(name) => want_array(search, name, ExpectedType::Loop, found),
    }
}

fn in_range<A: Allocator>(
    search: &MismatchSearch<A>,
    range: &Range<A>,
    found: &mut Option<TypeMismatch>,
) {
    demand(search, &range.low, one(Base::Int), None, found);
    demand(search, &range.high, one(Base::Int), None, found);
    if let Some(step) = &range.step {
        demand(search, step, one(Base::Int), None, found);
    }
}

/// Searches an expression for which a type is expected. `operator`: the operator of which it is an operand, if any.
#[cycle(expr)]
fn demand<A: Allocator>(
    search: &MismatchSearch<A>,
    value: &Expr<A>,
    wanted: DisplayType,
    operator: Option<Operator>,
    found: &mut Option<TypeMismatch>,
) {
    in_form(search, &value.kind, found);
    judge(search, value, wanted, operator, found);
}

/// Searches an index of an array of this type.
#[cycle(expr)]
fn demand_key<A: Allocator>(
    search: &MismatchSearch<A>,
    name: &Name<A>,
    index: &Expr<A>,
    array: DisplayType,
    found: &mut Option<TypeMismatch>,
) {
    in_form(search, &index.kind, found);
    judge_key(search, name, index, array, found);
}

/// Records a mismatch if the index at the place has another type than the keys of its array.
fn judge_key<A: Allocator>(
    search: &MismatchSearch<A>,
    name: &Name<A>,
    index: &Expr<A>,
    array: DisplayType,
    found: &mut Option<TypeMismatch>,
) {
    if index.first != search.at {
        return;
    }
    if let Some(sort) = sort_of(search, index) {
        if sort != one(keys_of(array).base()) {
            note(found, sort, ExpectedType::Key(array, name.span));
        }
    }
}

/// Records a mismatch if the expression at the place has another type than the expected one.
fn judge<A: Allocator>(
    search: &MismatchSearch<A>,
    value: &Expr<A>,
    wanted: DisplayType,
    operator: Option<Operator>,
    found: &mut Option<TypeMismatch>,
) {
    if value.first != search.at {
        return;
    }
    if let Some(sort) = sort_of(search, value) {
        if sort != wanted {
            note(found, sort, wish_of(wanted, operator));
        } else if sort.shape != Shape::Scalar {
            want_name(value, sort, found);
        }
    }
}

/// Returns the expectation of a type, by an operator if there is one.
fn wish_of(wanted: DisplayType, operator: Option<Operator>) -> ExpectedType {
    match operator {
        Some(operator) => ExpectedType::Operand(wanted, operator),
        None => ExpectedType::Sort(wanted),
    }
}

/// Records a mismatch if an array is not given by its name.
fn want_name<A: Allocator>(value: &Expr<A>, array: DisplayType, found: &mut Option<TypeMismatch>) {
    if !matches!(&value.kind, ExprKind::Variable(_)) {
        note(found, array, ExpectedType::Named);
    }
}

/// Returns the type of a prefix operator, which is that of its operand and of its result.
fn base_of(prefix: Prefix) -> Base {
    match prefix {
        Prefix::Not => Base::Boolean,
        Prefix::Negative => Base::Int,
    }
}

/// Searches the parts of an expression.
#[cycle(expr)]
fn in_form<A: Allocator>(
    search: &MismatchSearch<A>,
    kind: &ExprKind<A>,
    found: &mut Option<TypeMismatch>,
) {
    match kind {
        ExprKind::Number(_) | ExprKind::Text(_) | ExprKind::Truth(_) | ExprKind::Variable(_) => {}
        ExprKind::Element(name, index) => {
            want_array(search, name, ExpectedType::Element, found);
            match sort_of_name(search, name) {
                Some(array) => demand_key(search, name, index, array, found),
                None => demand(search, index, one(Base::Int), None, found),
            }
        }
        ExprKind::Call(name, arguments) => in_arguments(search, name, arguments, found),
        ExprKind::Prefixed(prefix, operand) => {
            demand(search, operand, one(base_of(*prefix)), None, found);
        }
        ExprKind::Chain(operators, operands) => in_chain(search, operators, operands, found),
    }
}

/// Searches the operands of a chain. If an operator accepts several types, the first operand determines the expected
/// one.
#[cycle(expr)]
fn in_chain<A: Allocator>(
    search: &MismatchSearch<A>,
    operators: &Vec<Operator, A>,
    operands: &Vec<Expr<A>, A>,
    found: &mut Option<TypeMismatch>,
) {
    let first = match operands.first() {
        Some(first) => sort_of(search, first),
        None => None,
    };
    let wanted = wanted_by(operators.as_slice(), first);
    let operator = match operators.first() {
        Some(operator) => Some(*operator),
        None => None,
    };
    judge_compared(search, operators.as_slice(), operands.as_slice(), found);
    for operand in operands {
        demand(search, operand, wanted, operator, found);
    }
}

/// Records a mismatch if an array at the place is compared.
fn judge_compared<A: Allocator>(
    search: &MismatchSearch<A>,
    operators: &[Operator],
    operands: &[Expr<A>],
    found: &mut Option<TypeMismatch>,
) {
    if !matches!(
        operators.first(),
        Some(Operator::Equal | Operator::NotEqual)
    ) {
        return;
    }
    for operand in operands {
        if operand.first == search.at {
            if let Some(sort) = sort_of(search, operand) {
                if sort.shape != Shape::Scalar {
                    note(found, sort, ExpectedType::Compared);
                }
            }
        }
    }
}

/// Returns the operand type that the operators of a chain expect. `first`: the type of the first operand.
fn wanted_by(operators: &[Operator], first: Option<DisplayType>) -> DisplayType {
    let any = match first {
        Some(first) => one(first.base),
        None => one(Base::Int),
    };
    match operators.first() {
        Some(Operator::Or | Operator::And) => one(Base::Boolean),
        Some(Operator::Equal | Operator::NotEqual) => any,
        Some(Operator::Plus) if !operators.contains(&Operator::Minus) && any.base == Base::Text => {
            one(Base::Text)
        }
        _ => one(Base::Int),
    }
}

/// Searches the arguments of a function.
#[cycle(expr)]
fn in_arguments<A: Allocator>(
    search: &MismatchSearch<A>,
    name: &Name<A>,
    arguments: &Vec<Expr<A>, A>,
    found: &mut Option<TypeMismatch>,
) {
    let mut place: usize = 0;
    for argument in arguments {
        match wanted_at(search, name, arguments.as_slice(), place) {
            Some(wanted) => demand(search, argument, wanted, None, found),
            None => in_argument(search, name, argument, found),
        }
        place = place.saturating_add(1);
    }
}

/// Searches an argument for which no single type is expected.
#[cycle(expr)]
fn in_argument<A: Allocator>(
    search: &MismatchSearch<A>,
    name: &Name<A>,
    value: &Expr<A>,
    found: &mut Option<TypeMismatch>,
) {
    in_form(search, &value.kind, found);
    if name.text.as_slice() == b"size".as_slice() {
        judge_counted(search, value, found);
    }
}

/// Records a mismatch if the argument of `size` at the place is not an array.
fn judge_counted<A: Allocator>(
    search: &MismatchSearch<A>,
    value: &Expr<A>,
    found: &mut Option<TypeMismatch>,
) {
    if value.first != search.at {
        return;
    }
    if let Some(sort) = sort_of(search, value) {
        if sort.shape == Shape::Scalar {
            note(found, sort, ExpectedType::Size);
        } else {
            want_name(value, sort, found);
        }
    }
}

/// Returns the expected type of an argument. `place`: its position.
fn wanted_at<A: Allocator>(
    search: &MismatchSearch<A>,
    name: &Name<A>,
    arguments: &[Expr<A>],
    place: usize,
) -> Option<DisplayType> {
    let called = name.text.as_slice();
    if let Some(function) = function_named(called, search.script) {
        let input = function.inputs.get(place)?;
        return Some(DisplayType {
            base: input.base,
            shape: input.shape,
        });
    }
    if called == b"strcat".as_slice() || called == b"toint".as_slice() {
        Some(one(Base::Text))
    } else if called == b"fromint".as_slice() {
        Some(one(Base::Int))
    } else if called == b"assert".as_slice() {
        Some(one(if place == 0 {
            Base::Boolean
        } else {
            Base::Text
        }))
    } else if called == b"printf".as_slice() && place > 0 {
        match &arguments.first()?.kind {
            ExprKind::Text(format) => converted(format.as_slice(), place),
            _ => None,
        }
    } else {
        None
    }
}

/// Returns the type that a conversion of a format expects. `place`: its position, counted from 1.
pub fn converted(format: &[u8], place: usize) -> Option<DisplayType> {
    let mut left = place;
    let mut begun = false;
    for byte in format {
        if begun {
            begun = false;
            if *byte != b'%' {
                left = left.saturating_sub(1);
                if left == 0 {
                    let base = if *byte == b's' { Base::Text } else { Base::Int };
                    return Some(one(base));
                }
            }
        } else {
            begun = *byte == b'%';
        }
    }
    None
}

/// Returns the type of a variable: the declared one, or for a loop variable that of the elements or keys of the array.
fn sort_of_name<A: Allocator>(search: &MismatchSearch<A>, name: &Name<A>) -> Option<DisplayType> {
    let declared = declaration_of(search, bytes_at(search.text, name.span), name.span.from)?;
    match declared.sort {
        Some(sort) => Some(sort),
        None => {
            let array = looped_array(search.text, declared.at.to)?;
            let source = declaration_of(search, array, declared.at.from)?.sort?;
            let is_key = is_behind_comma(search.text, declared.at.from);
            Some(one(if is_key {
                keys_of(source).base()
            } else {
                source.base
            }))
        }
    }
}

/// Returns the last declaration of a name before an offset.
fn declaration_of<A: Allocator>(
    search: &MismatchSearch<A>,
    name: &[u8],
    before: usize,
) -> Option<Occurrence> {
    last_before(
        search.text,
        search.occurrences,
        LookupKind::Declaration,
        name,
        before,
    )
}

/// Returns the type of an expression, or `None` if its form does not determine it.
fn sort_of<A: Allocator>(search: &MismatchSearch<A>, value: &Expr<A>) -> Option<DisplayType> {
    let mut value = value;
    for _ in 0..64 {
        match &value.kind {
            ExprKind::Chain(operators, operands) if operators.first() == Some(&Operator::Plus) => {
                value = operands.first()?;
            }
            kind => return sort_of_form(search, kind),
        }
    }
    None
}

fn sort_of_form<A: Allocator>(
    search: &MismatchSearch<A>,
    kind: &ExprKind<A>,
) -> Option<DisplayType> {
    match kind {
        ExprKind::Number(_) => Some(one(Base::Int)),
        ExprKind::Text(_) => Some(one(Base::Text)),
        ExprKind::Truth(_) => Some(one(Base::Boolean)),
        ExprKind::Prefixed(prefix, _) => Some(one(base_of(*prefix))),
        ExprKind::Variable(name) => sort_of_name(search, name),
        ExprKind::Element(name, _) => Some(one(sort_of_name(search, name)?.base)),
        ExprKind::Call(name, _) => sort_of_call(search, name),
        ExprKind::Chain(operators, _) => {
            match operators.first()? {
                Operator::Minus | Operator::Times | Operator::Quotient | Operator::Remainder => {
                    Some(one(Base::Int))
                }
                Operator::Plus => None,
                _ => Some(one(Base::Boolean)),
            }
        }
    }
}

/// Returns the type of the value of a call.
fn sort_of_call<A: Allocator>(search: &MismatchSearch<A>, name: &Name<A>) -> Option<DisplayType> {
    let called = name.text.as_slice();
    if let Some(function) = function_named(called, search.script) {
        let output = function.outputs.first()?;
        return Some(DisplayType {
            base: output.base,
            shape: output.shape,
        });
    }
    if called == b"strcat".as_slice() || called == b"fromint".as_slice() {
        Some(one(Base::Text))
    } else if called == b"toint".as_slice() || called == b"size".as_slice() {
        Some(one(Base::Int))
    } else {
        None
    }
}
