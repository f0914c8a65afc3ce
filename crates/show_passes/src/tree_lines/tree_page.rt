//! The text of a syntax tree under construction, with the types of its names and expressions if they are known.

use crate::text::page::PassPage;
use crate::text::words::{base_word, brackets};
use crate::tree_lines::type_table::{DeclaredVariable, TypeTable, expression_type};
use std::alloc::Allocator;
use syntax_trees::tree::{Decl, Expr, ExprKind, Name};
use types::typed::{Callee, VariableType};

/// The text of a syntax tree under construction.
#[derive(Drop)]
pub struct TreePage<'p, 's, 't> {
    pub page: PassPage<'t>,
    /// The types of the script, if they are to be shown.
    pub types: Option<&'p TypeTable<'s>>,
    /// The function in which the next node stands, by its position among the functions.
    pub function: Option<usize>,
}

impl TreePage<'_, '_, '_> {
    /// Appends a declaration, as `int x[]`.
    pub fn add_declaration<A: Allocator>(&mut self, declaration: &Decl<A>) {
        self.page.add(base_word(declaration.base));
        self.page.add(" ");
        self.page.add_bytes(declaration.name.text.as_slice());
        self.page.add(brackets(declaration.shape));
    }

    /// Appends a loop variable, with its type.
    pub fn add_loop_variable<A: Allocator>(&mut self, name: &Name<A>) {
        self.page.add_bytes(name.text.as_slice());
        if let Some(types) = self.types {
            if let Some(declared) = types.declared(name.number) {
                self.add_type(declared.of);
            }
        }
    }

    /// Appends names of variables with their types, with semicolons between them.
    pub fn add_variables<A: Allocator>(&mut self, names: &Vec<Name<A>, A>) {
        let mut is_first = true;
        for name in names {
            if !is_first {
                self.page.add("; ");
            }
            self.add_variable(name);
            is_first = false;
        }
    }

    /// Appends the name of a variable, with its type and the place of its declaration.
    pub fn add_variable<A: Allocator>(&mut self, name: &Name<A>) {
        self.page.add_bytes(name.text.as_slice());
        if let Some(types) = self.types {
            if let Some(declared) = types.variable(self.function, name.number) {
                self.add_type(declared.of);
                self.add_declared_at(declared);
            }
        }
    }

    /// Appends the type of an expression, and what its name refers to.
    pub fn add_expression_type<A: Allocator>(&mut self, expr: &Expr<A>) {
        let Some(types) = self.types else {
            return;
        };
        if let Some(found) = expression_type(types, self.function, &expr.kind) {
            self.add_type(found);
        }
        match &expr.kind {
            ExprKind::Number(_) | ExprKind::Text(_) | ExprKind::Truth(_) => {}
            ExprKind::Prefixed(_, _) | ExprKind::Chain(_, _) => {}
            ExprKind::Variable(name) => self.add_origin(types, name),
            ExprKind::Element(name, _) => self.add_origin(types, name),
            ExprKind::Call(name, _) => self.add_callee(name),
        }
    }

    /// Appends the place at which a variable is declared.
    fn add_origin<A: Allocator>(&mut self, types: &TypeTable<'_>, name: &Name<A>) {
        if let Some(declared) = types.variable(self.function, name.number) {
            self.add_declared_at(declared);
        }
    }

    /// Appends what a called name refers to.
    pub fn add_callee<A: Allocator>(&mut self, name: &Name<A>) {
        let Some(types) = self.types else {
            return;
        };
        match types.callee(name.number) {
            Callee::BuiltIn(_) => self.page.add(", built in"),
            Callee::Function(place) => {
                if let Some(function) = types.function_types(Some(place)) {
                    self.page.add(", defined at ");
                    self.page.add_position(function.at);
                }
            }
        }
    }

    /// Appends a type.
    fn add_type(&mut self, of: VariableType) {
        self.page.add(" : ");
        self.page.add(base_word(of.base));
        self.page.add(brackets(of.shape));
    }

    /// Appends the place of a declaration.
    fn add_declared_at(&mut self, declared: DeclaredVariable) {
        self.page.add(", declared at ");
        self.page.add_position(declared.at);
    }
}
