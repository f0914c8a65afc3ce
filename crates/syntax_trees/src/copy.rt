//! Copies of syntax trees into another allocator.

ghost use Rattle.std.specs.Prelude.{◌≡◌, IfOk, map, option_map};
ghost use Rattle.language.specs.Tree.{expressions_of, element, call, chain, declare, assign, write, assign_all, choice, choice_else, loop, waits, body, statements_of};
ghost use Rattle.syntax_trees.specs.View.{word_of, expression_view, form_view, expressions_view, words_view, declaration_of, declarations_view, list_of, right_of, calling_of, range_of, over_of, statement_view, command_view, body_view, composite_of, part_of, tree_of};

use crate::tree::{
    Block, Call, Decl, Expr, ExprKind, Function, Header, Item, ListOf, Name, Operator, Range,
    Right, Script, Source, Stmt, StmtKind,
};
use std::alloc::{AllocError, Allocator};

impl<A: Allocator> Script<A> {
    /// Returns a copy of the tree, with all its contents in memory of `alloc`.
    ///
    /// # Errors
    ///
    /// Returns `AllocError` if `alloc` refuses an allocation.
    pub fn copy_to<B: Allocator + Clone>(&self, alloc: B) -> Result<Script<B>, AllocError>
        ensures { IfOk result (λ t. tree_of t ≡ tree_of self.now) }
    {
        let items = copy_items(&self.items, &alloc)?;
        Ok(Script { items })
    }
}

fn copy_name<A: Allocator, B: Allocator + Clone>(
    name: &Name<A>,
    alloc: &B,
) -> Result<Name<B>, AllocError>
    ensures { IfOk result (λ n. word_of n ≡ word_of name.now) }
{
    Ok(Name {
        number: name.number,
        span: name.span,
        text: Vec::from_slice(alloc.clone()?, name.text.as_slice())?,
    })
}

fn copy_names<A: Allocator, B: Allocator + Clone>(
    names: &Vec<Name<A>, A>,
    alloc: &B,
) -> Result<Vec<Name<B>, B>, AllocError>
    ensures { IfOk result (λ v. words_view v ≡ words_view names.now) }
{
    let mut copies = Vec::new(alloc.clone()?);
    for name in names {
        copies.push(copy_name(name, alloc)?)?;
    }
    Ok(copies)
}

fn copy_boxed_name<A: Allocator, B: Allocator + Clone>(
    name: &Name<A>,
    alloc: &B,
) -> Result<Box<Name<B>, B>, AllocError>
    ensures { IfOk result (λ n. word_of n.value ≡ word_of name.now) }
{
    Ok(Box::new(alloc.clone()?, copy_name(name, alloc)?)?)
}

// EXPRESSIONS

/// Creates an array element from a copied index. Copies the name.
fn copy_element<A: Allocator, B: Allocator + Clone>(
    name: &Name<A>,
    index: Box<Expr<B>, B>,
    alloc: &B,
) -> Result<ExprKind<B>, AllocError>
    ensures { IfOk result (λ k. form_view k ≡ element (word_of name.now) (expression_view index.value)) }
{
    let name = copy_boxed_name(name, alloc)?;
    Ok(ExprKind::Element(name, index))
}

/// Creates a function call from copied arguments. Copies the name.
fn copy_application<A: Allocator, B: Allocator + Clone>(
    name: &Name<A>,
    arguments: Vec<Expr<B>, B>,
    alloc: &B,
) -> Result<ExprKind<B>, AllocError>
    ensures { IfOk result (λ k. form_view k ≡ call (word_of name.now) (expressions_of (map expression_view arguments.items))) }
{
    let name = copy_boxed_name(name, alloc)?;
    Ok(ExprKind::Call(name, arguments))
}

/// Creates a chain from copied operands. Copies the operators.
fn copy_chain<B: Allocator + Clone>(
    operators: &[Operator],
    operands: Vec<Expr<B>, B>,
    alloc: &B,
) -> Result<ExprKind<B>, AllocError>
    ensures { IfOk result (λ k. form_view k ≡ chain operators.now (expressions_of (map expression_view operands.items))) }
{
    let operators = Vec::from_slice(alloc.clone()?, operators)?;
    Ok(ExprKind::Chain(operators, operands))
}

#[cycle(copy)]
fn copy_expr<A: Allocator, B: Allocator + Clone>(
    expr: &Expr<A>,
    alloc: &B,
) -> Result<Expr<B>, AllocError>
    ensures { IfOk result (λ e. expression_view e ≡ expression_view expr.now) }
{
    Ok(Expr {
        number: expr.number,
        first: expr.first,
        to: expr.to,
        kind: copy_kind(&expr.kind, alloc)?,
    })
}

#[cycle(copy)]
fn copy_kind<A: Allocator, B: Allocator + Clone>(
    kind: &ExprKind<A>,
    alloc: &B,
) -> Result<ExprKind<B>, AllocError>
    ensures { IfOk result (λ k. form_view k ≡ form_view kind.now) }
{
    match kind {
        ExprKind::Number(n) => Ok(ExprKind::Number(*n)),
        ExprKind::Text(text) => Ok(ExprKind::Text(Vec::from_slice(
            alloc.clone()?,
            text.as_slice(),
        )?)),
        ExprKind::Truth(b) => Ok(ExprKind::Truth(*b)),
        ExprKind::Variable(name) => Ok(ExprKind::Variable(copy_name(name, alloc)?)),
        ExprKind::Element(name, index) => {
            let index = copy_boxed(index, alloc)?;
            copy_element(name, index, alloc)
        }
        ExprKind::Call(name, arguments) => {
            let arguments = copy_exprs(arguments, alloc)?;
            copy_application(name, arguments, alloc)
        }
        ExprKind::Prefixed(sign, operand) => {
            Ok(ExprKind::Prefixed(*sign, copy_boxed(operand, alloc)?))
        }
        ExprKind::Chain(operators, operands) => {
            let operands = copy_exprs(operands, alloc)?;
            copy_chain(operators.as_slice(), operands, alloc)
        }
    }
}

#[cycle(copy)]
fn copy_exprs<A: Allocator, B: Allocator + Clone>(
    exprs: &Vec<Expr<A>, A>,
    alloc: &B,
) -> Result<Vec<Expr<B>, B>, AllocError>
    ensures { IfOk result (λ v. expressions_view v ≡ expressions_view exprs.now) }
{
    let mut copies = Vec::new(alloc.clone()?);
    for expr in exprs {
        copies.push(copy_expr(expr, alloc)?)?;
    }
    Ok(copies)
}

#[cycle(copy)]
fn copy_boxed<A: Allocator, B: Allocator + Clone>(
    expr: &Expr<A>,
    alloc: &B,
) -> Result<Box<Expr<B>, B>, AllocError>
    ensures { IfOk result (λ e. expression_view e.value ≡ expression_view expr.now) }
{
    Ok(Box::new(alloc.clone()?, copy_expr(expr, alloc)?)?)
}

// DECLARATIONS, RIGHT SIDES, CALLS, SOURCES

fn copy_decl<A: Allocator, B: Allocator + Clone>(
    decl: &Decl<A>,
    alloc: &B,
) -> Result<Decl<B>, AllocError>
    ensures { IfOk result (λ d. declaration_of d ≡ declaration_of decl.now) }
{
    Ok(Decl {
        base: decl.base,
        name: copy_name(&decl.name, alloc)?,
        shape: decl.shape,
    })
}

fn copy_decls<A: Allocator, B: Allocator + Clone>(
    decls: &Vec<Decl<A>, A>,
    alloc: &B,
) -> Result<Vec<Decl<B>, B>, AllocError>
    ensures { IfOk result (λ v. declarations_view v ≡ declarations_view decls.now) }
{
    let mut copies = Vec::new(alloc.clone()?);
    for decl in decls {
        copies.push(copy_decl(decl, alloc)?)?;
    }
    Ok(copies)
}

fn copy_list<A: Allocator, B: Allocator + Clone>(
    list: &ListOf<A>,
    alloc: &B,
) -> Result<ListOf<B>, AllocError>
    ensures { IfOk result (λ l. list_of l ≡ list_of list.now) }
{
    Ok(ListOf {
        number: list.number,
        first: list.first,
        to: list.to,
        elements: copy_exprs(&list.elements, alloc)?,
    })
}

fn copy_right<A: Allocator, B: Allocator + Clone>(
    right: &Right<A>,
    alloc: &B,
) -> Result<Right<B>, AllocError>
    ensures { IfOk result (λ r. right_of r ≡ right_of right.now) }
{
    match right {
        Right::Value(expr) => Ok(Right::Value(copy_boxed(expr, alloc)?)),
        Right::List(list) => Ok(Right::List(Box::new(alloc.clone()?, copy_list(list, alloc)?)?)),
    }
}

fn copy_initial<A: Allocator, B: Allocator + Clone>(
    right: &Option<Right<A>>,
    alloc: &B,
) -> Result<Option<Right<B>>, AllocError>
    ensures { IfOk result (λ r. option_map right_of r ≡ option_map right_of right.now) }
{
    match right {
        None => Ok(None),
        Some(right) => Ok(Some(copy_right(right, alloc)?)),
    }
}

fn copy_call<A: Allocator, B: Allocator + Clone>(
    call: &Call<A>,
    alloc: &B,
) -> Result<Box<Call<B>, B>, AllocError>
    ensures { IfOk result (λ c. calling_of c.value ≡ calling_of call.now) }
{
    let name = copy_name(&call.name, alloc)?;
    let arguments = copy_exprs(&call.arguments, alloc)?;
    Ok(Box::new(
        alloc.clone()?,
        Call {
            number: call.number,
            first: call.first,
            to: call.to,
            name,
            arguments,
        },
    )?)
}

fn copy_key<A: Allocator, B: Allocator + Clone>(
    key: &Option<Name<A>>,
    alloc: &B,
) -> Result<Option<Name<B>>, AllocError>
    ensures { IfOk result (λ k. option_map word_of k ≡ option_map word_of key.now) }
{
    match key {
        None => Ok(None),
        Some(name) => Ok(Some(copy_name(name, alloc)?)),
    }
}

fn copy_step<A: Allocator, B: Allocator + Clone>(
    step: &Option<Expr<A>>,
    alloc: &B,
) -> Result<Option<Expr<B>>, AllocError>
    ensures { IfOk result (λ e. option_map expression_view e ≡ option_map expression_view step.now) }
{
    match step {
        None => Ok(None),
        Some(expr) => Ok(Some(copy_expr(expr, alloc)?)),
    }
}

fn copy_range<A: Allocator, B: Allocator + Clone>(
    range: &Range<A>,
    alloc: &B,
) -> Result<Range<B>, AllocError>
    ensures { IfOk result (λ r. range_of r ≡ range_of range.now) }
{
    Ok(Range {
        low: copy_expr(&range.low, alloc)?,
        high: copy_expr(&range.high, alloc)?,
        step: copy_step(&range.step, alloc)?,
    })
}

fn copy_source<A: Allocator, B: Allocator + Clone>(
    source: &Source<A>,
    alloc: &B,
) -> Result<Source<B>, AllocError>
    ensures { IfOk result (λ s. over_of s ≡ over_of source.now) }
{
    match source {
        Source::Array(name) => Ok(Source::Array(copy_name(name, alloc)?)),
        Source::Range(range) => Ok(Source::Range(Box::new(
            alloc.clone()?,
            copy_range(range, alloc)?,
        )?)),
    }
}

fn copy_header<A: Allocator, B: Allocator + Clone>(
    header: &Header<A>,
    alloc: &B,
) -> Result<Box<Header<B>, B>, AllocError>
    ensures value { IfOk result (λ h. word_of h.value.value ≡ word_of header.now.value) }
    ensures key { IfOk result (λ h. option_map word_of h.value.key ≡ option_map word_of header.now.key) }
    ensures source { IfOk result (λ h. over_of h.value.source ≡ over_of header.now.source) }
{
    let value = copy_name(&header.value, alloc)?;
    let key = copy_key(&header.key, alloc)?;
    let source = copy_source(&header.source, alloc)?;
    Ok(Box::new(alloc.clone()?, Header { value, key, source })?)
}

// STATEMENTS

fn copy_declare<A: Allocator, B: Allocator + Clone>(
    decl: &Decl<A>,
    right: &Option<Right<A>>,
    alloc: &B,
) -> Result<StmtKind<B>, AllocError>
    ensures { IfOk result (λ k. command_view k ≡ declare (declaration_of decl.now) (option_map right_of right.now)) }
{
    let decl = copy_decl(decl, alloc)?;
    Ok(StmtKind::Declare(decl, copy_initial(right, alloc)?))
}

fn copy_assign<A: Allocator, B: Allocator + Clone>(
    name: &Name<A>,
    right: &Right<A>,
    alloc: &B,
) -> Result<StmtKind<B>, AllocError>
    ensures { IfOk result (λ k. command_view k ≡ assign (word_of name.now) (right_of right.now)) }
{
    let name = copy_name(name, alloc)?;
    Ok(StmtKind::Assign(name, copy_right(right, alloc)?))
}

fn copy_write<A: Allocator, B: Allocator + Clone>(
    name: &Name<A>,
    index: &Expr<A>,
    value: &Expr<A>,
    alloc: &B,
) -> Result<StmtKind<B>, AllocError>
    ensures { IfOk result (λ k. command_view k ≡ write (word_of name.now) (expression_view index.now) (expression_view value.now)) }
{
    let name = copy_name(name, alloc)?;
    let index = copy_boxed(index, alloc)?;
    Ok(StmtKind::Write(name, index, copy_boxed(value, alloc)?))
}

fn copy_assign_all<A: Allocator, B: Allocator + Clone>(
    names: &Vec<Name<A>, A>,
    call: &Call<A>,
    alloc: &B,
) -> Result<StmtKind<B>, AllocError>
    ensures { IfOk result (λ k. command_view k ≡ assign_all (words_view names.now) (calling_of call.now)) }
{
    let names = copy_names(names, alloc)?;
    Ok(StmtKind::AssignAll(names, copy_call(call, alloc)?))
}

/// Creates an `if` without `else` from a copied block. Copies the condition.
fn copy_choice<A: Allocator, B: Allocator + Clone>(
    test: &Expr<A>,
    then: Box<Block<B>, B>,
    alloc: &B,
) -> Result<StmtKind<B>, AllocError>
    ensures { IfOk result (λ k. command_view k ≡ choice (expression_view test.now) (body_view then.value)) }
{
    let test = copy_boxed(test, alloc)?;
    Ok(StmtKind::If(test, then, None))
}

/// Creates an `if` with `else` from copied blocks. Copies the condition.
fn copy_choice_else<A: Allocator, B: Allocator + Clone>(
    test: &Expr<A>,
    then: Box<Block<B>, B>,
    other: Box<Block<B>, B>,
    alloc: &B,
) -> Result<StmtKind<B>, AllocError>
    ensures { IfOk result (λ k. command_view k ≡ choice_else (expression_view test.now) (body_view then.value) (body_view other.value)) }
{
    let test = copy_boxed(test, alloc)?;
    Ok(StmtKind::If(test, then, Some(other)))
}

/// Creates a `foreach` from a copied block. Copies the header.
fn copy_loop<A: Allocator, B: Allocator + Clone>(
    header: &Header<A>,
    body: Box<Block<B>, B>,
    alloc: &B,
) -> Result<StmtKind<B>, AllocError>
    ensures { IfOk result (λ k. command_view k ≡ loop (word_of header.now.value) (option_map word_of header.now.key) (over_of header.now.source)
        (body_view body.value)) }
{
    let header = copy_header(header, alloc)?;
    Ok(StmtKind::Foreach(header, body))
}

/// Creates a `wait` from a copied block. Copies the names.
fn copy_wait<A: Allocator, B: Allocator + Clone>(
    names: &Vec<Name<A>, A>,
    body: Box<Block<B>, B>,
    alloc: &B,
) -> Result<StmtKind<B>, AllocError>
    ensures { IfOk result (λ k. command_view k ≡ waits (words_view names.now) (body_view body.value)) }
{
    let names = copy_names(names, alloc)?;
    Ok(StmtKind::Wait(names, body))
}

#[cycle(copy_stmt)]
fn copy_stmt<A: Allocator, B: Allocator + Clone>(
    stmt: &Stmt<A>,
    alloc: &B,
) -> Result<Stmt<B>, AllocError>
    ensures { IfOk result (λ s. statement_view s ≡ statement_view stmt.now) }
{
    Ok(Stmt {
        number: stmt.number,
        first: stmt.first,
        to: stmt.to,
        kind: copy_command(&stmt.kind, alloc)?,
    })
}

#[cycle(copy_stmt)]
fn copy_command<A: Allocator, B: Allocator + Clone>(
    kind: &StmtKind<A>,
    alloc: &B,
) -> Result<StmtKind<B>, AllocError>
    ensures { IfOk result (λ k. command_view k ≡ command_view kind.now) }
{
    match kind {
        StmtKind::Declare(decl, right) => copy_declare(decl, right, alloc),
        StmtKind::Assign(name, right) => copy_assign(name, right, alloc),
        StmtKind::Write(name, index, value) => copy_write(name, index, value, alloc),
        StmtKind::AssignAll(names, call) => copy_assign_all(names, call, alloc),
        StmtKind::Call(priority, call) => Ok(StmtKind::Call(*priority, copy_call(call, alloc)?)),
        StmtKind::If(test, then, other) => {
            let then = copy_block(then, alloc)?;
            match other {
                None => copy_choice(test, then, alloc),
                Some(other) => {
                    let other = copy_block(other, alloc)?;
                    copy_choice_else(test, then, other, alloc)
                }
            }
        }
        StmtKind::Foreach(header, body) => {
            let body = copy_block(body, alloc)?;
            copy_loop(header, body, alloc)
        }
        StmtKind::Wait(names, body) => {
            let body = copy_block(body, alloc)?;
            copy_wait(names, body, alloc)
        }
    }
}

#[cycle(copy_stmt)]
fn copy_block<A: Allocator, B: Allocator + Clone>(
    block: &Block<A>,
    alloc: &B,
) -> Result<Box<Block<B>, B>, AllocError>
    ensures { IfOk result (λ b. body_view b.value ≡ body_view block.now) }
{
    let statements = copy_stmts(&block.statements, alloc)?;
    boxed_block(block.from, statements, alloc)
}

#[cycle(copy_stmt)]
fn copy_stmts<A: Allocator, B: Allocator + Clone>(
    stmts: &Vec<Stmt<A>, A>,
    alloc: &B,
) -> Result<Vec<Stmt<B>, B>, AllocError>
    ensures { IfOk result (λ v. map statement_view v.items ≡ map statement_view stmts.now.items) }
{
    let mut copies = Vec::new(alloc.clone()?);
    for stmt in stmts {
        copies.push(copy_stmt(stmt, alloc)?)?;
    }
    Ok(copies)
}

fn boxed_block<B: Allocator + Clone>(
    from: usize,
    statements: Vec<Stmt<B>, B>,
    alloc: &B,
) -> Result<Box<Block<B>, B>, AllocError>
    ensures { IfOk result (λ b. body_view b.value ≡ body from (statements_of (map statement_view statements.items))) }
{
    Ok(Box::new(alloc.clone()?, crate::block(from, statements))?)
}

fn copy_body<A: Allocator, B: Allocator + Clone>(
    block: &Block<A>,
    alloc: &B,
) -> Result<Block<B>, AllocError>
    ensures { IfOk result (λ b. body_view b ≡ body_view block.now) }
{
    let statements = copy_stmts(&block.statements, alloc)?;
    Ok(crate::block(block.from, statements))
}

// SCRIPTS

fn copy_function<A: Allocator, B: Allocator + Clone>(
    function: &Function<A>,
    alloc: &B,
) -> Result<Function<B>, AllocError>
    ensures { IfOk result (λ f. composite_of f ≡ composite_of function.now) }
{
    Ok(Function {
        number: function.number,
        first: function.first,
        to: function.to,
        outputs: copy_decls(&function.outputs, alloc)?,
        name: copy_name(&function.name, alloc)?,
        inputs: copy_decls(&function.inputs, alloc)?,
        body: copy_body(&function.body, alloc)?,
    })
}

fn copy_item<A: Allocator, B: Allocator + Clone>(
    item: &Item<A>,
    alloc: &B,
) -> Result<Item<B>, AllocError>
    ensures { IfOk result (λ i. part_of i ≡ part_of item.now) }
{
    match item {
        Item::Import(span) => Ok(Item::Import(*span)),
        Item::Function(function) => Ok(Item::Function(Box::new(
            alloc.clone()?,
            copy_function(function, alloc)?,
        )?)),
        Item::Statement(stmt) => Ok(Item::Statement(Box::new(
            alloc.clone()?,
            copy_stmt(stmt, alloc)?,
        )?)),
    }
}

fn copy_items<A: Allocator, B: Allocator + Clone>(
    items: &Vec<Item<A>, A>,
    alloc: &B,
) -> Result<Vec<Item<B>, B>, AllocError>
    ensures { IfOk result (λ v. map part_of v.items ≡ map part_of items.now.items) }
{
    let mut copies = Vec::new(alloc.clone()?);
    for item in items {
        copies.push(copy_item(item, alloc)?)?;
    }
    Ok(copies)
}
