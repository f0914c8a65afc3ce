//! The text of a flow under construction, with the names of its variables.

use crate::flow_lines::flow_names::FlowNames;
use crate::text::page::PassPage;
use crate::text::words::brackets;
use flow::name::{Name, NameBinding};
use flow::statement::Variable;
use std::alloc::Allocator;

/// The text of a flow under construction.
#[derive(Drop)]
pub struct FlowPage<'t, 'f, A: Allocator> {
    pub page: PassPage<'t>,
    pub names: FlowNames<'f, A>,
    /// The function in which the next node stands, by its position among the functions.
    pub function: Option<usize>,
}

impl<A: Allocator> FlowPage<'_, '_, A> {
    /// Appends a declared variable, with brackets for an array.
    pub fn add_declared(&mut self, variable: &Variable<A>) {
        self.page.add_bytes(variable.name.as_slice());
        self.page.add(brackets(variable.shape));
    }

    /// Appends the variables of a loop.
    pub fn add_loop_variables(&mut self, value: &Variable<A>, key: &Option<Variable<A>>) {
        self.add_declared(value);
        if let Some(key) = key {
            self.page.add(", ");
            self.add_declared(key);
        }
    }

    /// Appends names with commas between them.
    pub fn add_names(&mut self, names: &Vec<Name, A>) {
        let mut is_first = true;
        for name in names {
            if !is_first {
                self.page.add(", ");
            }
            self.add_name(name);
            is_first = false;
        }
    }

    /// Appends a resolved name: the variable, or `#` and the node of a cell; then `^` and the number of blocks between
    /// its use and its owner, unless that is 0.
    pub fn add_name(&mut self, name: &Name) {
        match self.names.name_of(self.function, name.what) {
            Some(bytes) => self.page.add_bytes(bytes),
            None => self.add_unnamed(name.what),
        }
        if name.up > 0 {
            self.page.add_counted("^", name.up);
        }
    }

    /// Appends the binding of a name that no variable of the text has.
    fn add_unnamed(&mut self, what: NameBinding) {
        match what {
            NameBinding::Local(node) => self.page.add_counted("#", node as usize),
            NameBinding::Input(place) => self.page.add_counted("input ", place),
            NameBinding::Output(place) => self.page.add_counted("output ", place),
        }
    }
}
