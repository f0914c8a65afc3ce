//! The names of the variables of a flow, by the nodes that declare them.

use flow::name::NameBinding;
use flow::script::{Flow, Function};
use flow::statement::{Action, Block, Statement, Variable};
use std::alloc::{AllocError, Allocator, Global};

/// The names of the variables of a flow.
#[derive(Drop)]
pub struct FlowNames<'f, A: Allocator> {
    /// The names of the variables that statements declare, by their nodes.
    locals: Vec<Option<&'f [u8]>>,
    functions: &'f Vec<Function<A>, A>,
}

impl<'f, A: Allocator> FlowNames<'f, A> {
    /// Collects the names of a flow.
    ///
    /// # Errors
    ///
    /// Returns `AllocError` if an allocation fails.
    pub fn of(alloc: Global, flow: &'f Flow<A>) -> Result<FlowNames<'f, A>, AllocError> {
        let mut locals = Vec::new(alloc);
        collect_block(&mut locals, &flow.body)?;
        for function in &flow.functions {
            collect_block(&mut locals, &function.body)?;
        }
        Ok(FlowNames {
            locals,
            functions: &flow.functions,
        })
    }

    /// Returns the name of a variable, or `None` for a cell. `function`: the position of the function in which it is
    /// used.
    pub fn name_of(&self, function: Option<usize>, what: NameBinding) -> Option<&'f [u8]> {
        match what {
            NameBinding::Local(node) => self.locals.get(node as usize).copied().flatten(),
            NameBinding::Input(place) => {
                let input = self.functions.get(function?)?.inputs.get(place)?;
                Some(input.name.as_slice())
            }
            NameBinding::Output(place) => {
                let output = self.functions.get(function?)?.outputs.get(place)?;
                Some(output.name.as_slice())
            }
        }
    }

    /// Returns the name of a function.
    pub fn function_name(&self, function: usize) -> Option<&'f [u8]> {
        let called = self.functions.get(function)?;
        Some(called.name.as_slice())
    }
}

/// Records the name of a declared variable.
fn collect<'f, A: Allocator>(
    locals: &mut Vec<Option<&'f [u8]>>,
    variable: &'f Variable<A>,
) -> Result<(), AllocError> {
    let node = variable.node as usize;
    for _ in locals.len()..node.saturating_add(1) {
        locals.push(None)?;
    }
    if let Some(kept) = locals.get_mut(node) {
        *kept = Some(variable.name.as_slice());
    }
    Ok(())
}

/// Records the name of a variable if there is one.
fn collect_some<'f, A: Allocator>(
    locals: &mut Vec<Option<&'f [u8]>>,
    variable: &'f Option<Variable<A>>,
) -> Result<(), AllocError> {
    match variable {
        Some(variable) => collect(locals, variable),
        None => Ok(()),
    }
}

/// Records the names of the variables that a block declares.
#[cycle(collection)]
fn collect_block<'f, A: Allocator>(
    locals: &mut Vec<Option<&'f [u8]>>,
    block: &'f Block<A>,
) -> Result<(), AllocError> {
    for statement in &block.statements {
        collect_statement(locals, statement)?;
    }
    Ok(())
}

/// Records the names of the variables that a statement and its blocks declare.
#[cycle(collection)]
fn collect_statement<'f, A: Allocator>(
    locals: &mut Vec<Option<&'f [u8]>>,
    statement: &'f Statement<A>,
) -> Result<(), AllocError> {
    match &statement.action {
        Action::Declare(variable) => collect(locals, variable),
        Action::Call { .. } | Action::Assign { .. } | Action::Fill { .. } => Ok(()),
        Action::Insert { .. } | Action::Print { .. } | Action::Assert { .. } => Ok(()),
        Action::When { then, .. } => collect_block(locals, then),
        Action::Choose { then, other, .. } => {
            collect_block(locals, then)?;
            collect_block(locals, other)
        }
        Action::Range {
            value,
            turn,
            body,
            ..
        } => {
            collect(locals, value)?;
            collect_some(locals, turn)?;
            collect_block(locals, body)
        }
        Action::Each {
            value,
            key,
            body,
            ..
        } => {
            collect(locals, value)?;
            collect_some(locals, key)?;
            collect_block(locals, body)
        }
        Action::Wait { content, .. } => collect_block(locals, content),
    }
}
