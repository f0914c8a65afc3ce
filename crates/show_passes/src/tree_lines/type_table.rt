//! The types of the variables and expressions of a script, and the places of their declarations.

use std::alloc::{AllocError, Allocator, Global};
use syntax_trees::tree::{
    Base, Block, Decl, ExprKind, Function, Header, Item, Level, Name, Operator, Prefix, Script,
    Shape, Source, Stmt, StmtKind,
};
use types::typed::{Binding, Builtin, Callee, ElementTypes, Typed, VariableType};

/// The type of a variable, and the offset at which it is declared.
#[derive(Clone, Copy, Drop)]
pub struct DeclaredVariable {
    pub of: VariableType,
    pub at: usize,
}

/// The offset of a function's name, and its inputs and outputs.
#[derive(Drop)]
pub struct FunctionTypes {
    pub at: usize,
    inputs: Vec<DeclaredVariable>,
    outputs: Vec<DeclaredVariable>,
}

/// The types of all variables of a script, by the table of its names.
#[derive(Drop)]
pub struct TypeTable<'p> {
    typed: &'p Typed,
    /// The variables that statements declare, by the numbers of their names.
    variables: Vec<Option<DeclaredVariable>>,
    functions: Vec<FunctionTypes>,
}

impl<'p> TypeTable<'p> {
    /// Creates the table of a well typed script.
    ///
    /// # Errors
    ///
    /// Returns `AllocError` if an allocation fails.
    pub fn of<A: Allocator>(
        alloc: Global,
        script: &Script<A>,
        typed: &'p Typed,
    ) -> Result<TypeTable<'p>, AllocError> {
        let functions = functions_of(alloc, script)?;
        let mut table = TypeTable {
            typed,
            variables: Vec::new(alloc),
            functions,
        };
        let mut function = 0usize;
        for item in &script.items {
            match item {
                Item::Import(_) => {}
                Item::Function(one) => {
                    declare_block(&mut table, Some(function), &one.body)?;
                    function = function.saturating_add(1);
                }
                Item::Statement(one) => declare_statement(&mut table, None, one)?,
            }
        }
        Ok(table)
    }

    /// Returns the variable that the name at a node refers to, in a function or outside of all functions.
    pub fn variable(&self, function: Option<usize>, number: u32) -> Option<DeclaredVariable> {
        match self.typed.name(number).what {
            Binding::Local(node) => self.declared(node),
            Binding::Input(place) => self.function_types(function)?.inputs.get(place).copied(),
            Binding::Output(place) => self.function_types(function)?.outputs.get(place).copied(),
        }
    }

    /// Returns the variable that a statement declares at a node.
    pub fn declared(&self, number: u32) -> Option<DeclaredVariable> {
        self.variables.get(number as usize).copied().flatten()
    }

    /// Returns the function that the called name at a node refers to.
    pub fn callee(&self, number: u32) -> Callee {
        self.typed.callee(number)
    }

    /// Returns the types of the function at a position.
    pub fn function_types(&self, function: Option<usize>) -> Option<&FunctionTypes> {
        self.functions.get(function?)
    }

    /// Returns the type of the first output of the function that the called name at a node refers to.
    fn called_type(&self, number: u32) -> Option<VariableType> {
        match self.callee(number) {
            Callee::Function(place) => {
                let output = self.function_types(Some(place))?.outputs.first()?;
                Some(output.of)
            }
            Callee::BuiltIn(builtin) => builtin_type(builtin),
        }
    }

    /// Records a variable that a statement declares.
    fn declare<A: Allocator>(
        &mut self,
        name: &Name<A>,
        of: VariableType,
    ) -> Result<(), AllocError> {
        let number = name.number as usize;
        for _ in self.variables.len()..number.saturating_add(1) {
            self.variables.push(None)?;
        }
        if let Some(kept) = self.variables.get_mut(number) {
            *kept = Some(DeclaredVariable {
                of,
                at: name.span.from,
            });
        }
        Ok(())
    }
}

/// Returns the type of an expression of a well typed script, or `None` for a call without an output.
pub fn expression_type<A: Allocator>(
    table: &TypeTable<'_>,
    function: Option<usize>,
    kind: &ExprKind<A>,
) -> Option<VariableType> {
    match kind {
        ExprKind::Number(_) => Some(scalar(Base::Int)),
        ExprKind::Text(_) => Some(scalar(Base::Text)),
        ExprKind::Truth(_) => Some(scalar(Base::Boolean)),
        ExprKind::Variable(name) => Some(table.variable(function, name.number)?.of),
        ExprKind::Element(name, _) => {
            Some(scalar(table.variable(function, name.number)?.of.base))
        }
        ExprKind::Call(name, _) => table.called_type(name.number),
        ExprKind::Prefixed(prefix, _) => Some(scalar(prefix_base(*prefix))),
        ExprKind::Chain(operators, operands) => match chain_base(*operators.first()?) {
            Some(base) => Some(scalar(base)),
            None => expression_type(table, function, &operands.first()?.kind),
        },
    }
}

/// Returns the base type of a chain with this operator, or `None` if it has the type of its operands.
fn chain_base(operator: Operator) -> Option<Base> {
    match operator.level() {
        Level::Or | Level::And | Level::Equality | Level::Order => Some(Base::Boolean),
        Level::Product => Some(Base::Int),
        Level::Sum => None,
    }
}

/// Returns the type of a prefix operator's result.
fn prefix_base(prefix: Prefix) -> Base {
    match prefix {
        Prefix::Not => Base::Boolean,
        Prefix::Negative => Base::Int,
    }
}

/// Returns the type of a built-in function's result, or `None` if it has none.
fn builtin_type(builtin: Builtin) -> Option<VariableType> {
    match builtin {
        Builtin::Strcat | Builtin::FromInt => Some(scalar(Base::Text)),
        Builtin::ToInt | Builtin::Size => Some(scalar(Base::Int)),
        Builtin::Printf | Builtin::Assert => None,
    }
}

/// Returns the type of a scalar.
fn scalar(base: Base) -> VariableType {
    VariableType {
        base,
        shape: Shape::Scalar,
    }
}

/// Returns the inputs and outputs of all functions of a script, in the order of the text.
fn functions_of<A: Allocator>(
    alloc: Global,
    script: &Script<A>,
) -> Result<Vec<FunctionTypes>, AllocError> {
    let mut functions = Vec::new(alloc);
    for item in &script.items {
        if let Item::Function(function) = item {
            functions.push(function_types(alloc, function)?)?;
        }
    }
    Ok(functions)
}

/// Returns the inputs and outputs of a function.
fn function_types<A: Allocator>(
    alloc: Global,
    function: &Function<A>,
) -> Result<FunctionTypes, AllocError> {
    Ok(FunctionTypes {
        at: function.name.span.from,
        inputs: declared_variables(alloc, &function.inputs)?,
        outputs: declared_variables(alloc, &function.outputs)?,
    })
}

/// Returns the types of declarations and their places.
fn declared_variables<A: Allocator>(
    alloc: Global,
    declarations: &Vec<Decl<A>, A>,
) -> Result<Vec<DeclaredVariable>, AllocError> {
    let mut variables = Vec::new(alloc);
    for declaration in declarations {
        variables.push(DeclaredVariable {
            of: type_of(declaration),
            at: declaration.name.span.from,
        })?;
    }
    Ok(variables)
}

/// Returns the type that a declaration states.
fn type_of<A: Allocator>(declaration: &Decl<A>) -> VariableType {
    VariableType {
        base: declaration.base,
        shape: declaration.shape,
    }
}

/// Records the variables that the statements of a block declare.
#[cycle(declaration)]
fn declare_block<A: Allocator>(
    table: &mut TypeTable<'_>,
    function: Option<usize>,
    block: &Block<A>,
) -> Result<(), AllocError> {
    for statement in &block.statements {
        declare_statement(table, function, statement)?;
    }
    Ok(())
}

/// Records the variables that a statement and its blocks declare.
#[cycle(declaration)]
fn declare_statement<A: Allocator>(
    table: &mut TypeTable<'_>,
    function: Option<usize>,
    statement: &Stmt<A>,
) -> Result<(), AllocError> {
    match &statement.kind {
        StmtKind::Declare(declaration, _) => table.declare(&declaration.name, type_of(declaration)),
        StmtKind::Assign(_, _) | StmtKind::Write(_, _, _) => Ok(()),
        StmtKind::AssignAll(_, _) | StmtKind::Call(_, _) => Ok(()),
        StmtKind::If(_, then, other) => {
            declare_block(table, function, then)?;
            match other {
                Some(other) => declare_block(table, function, other),
                None => Ok(()),
            }
        }
        StmtKind::Foreach(header, body) => {
            declare_header(table, function, header)?;
            declare_block(table, function, body)
        }
        StmtKind::Wait(_, body) => declare_block(table, function, body),
    }
}

/// Records the variables of a loop.
fn declare_header<A: Allocator>(
    table: &mut TypeTable<'_>,
    function: Option<usize>,
    header: &Header<A>,
) -> Result<(), AllocError> {
    let given = loop_types(table, function, &header.source);
    table.declare(&header.value, scalar(given.value))?;
    match &header.key {
        Some(key) => table.declare(key, scalar(given.key)),
        None => Ok(()),
    }
}

/// Returns the types of the value and of the key of a loop over this source.
fn loop_types<A: Allocator>(
    table: &TypeTable<'_>,
    function: Option<usize>,
    source: &Source<A>,
) -> ElementTypes {
    let numbers = ElementTypes {
        value: Base::Int,
        key: Base::Int,
    };
    match source {
        Source::Array(name) => match table.variable(function, name.number) {
            Some(array) => ElementTypes {
                value: array.of.base,
                key: key_base(array.of.shape),
            },
            None => numbers,
        },
        Source::Range(_) => numbers,
    }
}

/// Returns the type of the keys of an array.
fn key_base(shape: Shape) -> Base {
    match shape {
        Shape::Array(keys) => keys.base(),
        Shape::Scalar => Base::Int,
    }
}
