//! Lookup of the statements, variables, cells and calls of a script by offset or node.
ghost use Rattle.std.specs.Prelude.{IfOk};
ghost use Rattle.flow.specs.View.{core_of};
ghost use Rattle.flow_index.specs.Sites.{AreSites};

use crate::sites::{action_of, variable_of};
use flow::cell::{Call, Cell, CellPart, OuterCell};
use flow::name::{Name, NameBinding};
use flow::script::Flow;
use flow::statement::{Action, Variable};
use flow_index::site::Site;
use flow_index::statement_index::StatementIndex;
use meaning_cells::parts::outers_of;
use std::alloc::{AllocError, Allocator, Global};
use std::collections::HashMap;

/// A cell, with the function that contains its statement if any.
#[derive(Drop)]
pub struct CellSite<'a, A: Allocator> {
    pub function: Option<usize>,
    pub cell: &'a Cell<A>,
}

/// The statements of a script, with lookup tables for variables, cells and calls.
#[derive(Drop)]
pub struct ScriptIndex<'a, A: Allocator> {
    pub flow: &'a Flow<A>,
    pub sites: StatementIndex<'a, A>,
    tables: LocationTables<'a, A>,
}

/// Lookup tables for the statements of a script. A statement is stored as its position in the statement index.
#[derive(Drop)]
struct LocationTables<'a, A: Allocator> {
    /// The statements that declare variables, by the nodes of the variables.
    declaring: HashMap<u32, usize>,
    spots: Vec<CellSite<'a, A>>,
    /// The cells by their nodes, as positions in `spots`.
    cells: HashMap<u32, usize>,
    /// The offsets of the calls in expressions, by the nodes of their results.
    giving: HashMap<u32, usize>,
    /// The numbers of the called functions, by the offsets of the calls.
    called: HashMap<usize, usize>,
    /// The statements that can be blocked, by their nodes.
    blockable: HashMap<u32, usize>,
}

impl<'a, A: Allocator> LocationTables<'a, A> {
    fn of(alloc: Global, sites: &[Site<'a, A>]) -> Result<LocationTables<'a, A>, AllocError> {
        let mut tables = LocationTables {
            declaring: HashMap::new(alloc),
            spots: Vec::new(alloc),
            cells: HashMap::new(alloc),
            giving: HashMap::new(alloc),
            called: HashMap::new(alloc),
            blockable: HashMap::new(alloc),
        };
        for i in 0..sites.len() {
            tables.note_site(alloc, i, &sites[i])?;
        }
        Ok(tables)
    }

    fn note_site(&mut self, alloc: Global, i: usize, site: &Site<'a, A>) -> Result<(), AllocError> {
        if site.can_be_blocked() {
            self.blockable.insert(site.node(), i)?;
        }
        match action_of(site) {
            None => Ok(()),
            Some(action) => self.note_action(alloc, i, site.function, action),
        }
    }

    fn note_action(
        &mut self,
        alloc: Global,
        i: usize,
        function: Option<usize>,
        action: &'a Action<A>,
    ) -> Result<(), AllocError> {
        match action {
            Action::Declare(variable) => self.note_variable(i, variable),
            Action::Call { parts, call, .. } => {
                self.note_call(call)?;
                self.note_parts(function, parts.as_slice())
            }
            Action::Range { value, turn, .. } => {
                self.note_loop(i, value, turn)?;
                self.note_outers(function, outers_of(alloc, action)?.as_slice())
            }
            Action::Each { value, key, .. } => self.note_loop(i, value, key),
            _ => self.note_outers(function, outers_of(alloc, action)?.as_slice()),
        }
    }

    fn note_variable(&mut self, i: usize, variable: &Variable<A>) -> Result<(), AllocError> {
        self.declaring.insert(variable.node, i)?;
        Ok(())
    }

    fn note_loop(
        &mut self,
        i: usize,
        value: &Variable<A>,
        other: &Option<Variable<A>>,
    ) -> Result<(), AllocError> {
        self.note_variable(i, value)?;
        match other {
            None => Ok(()),
            Some(variable) => self.note_variable(i, variable),
        }
    }

    fn note_outers(
        &mut self,
        function: Option<usize>,
        outers: &[&'a OuterCell<A>],
    ) -> Result<(), AllocError> {
        for outer in outers {
            let outer: &'a OuterCell<A> = *outer;
            self.note_parts(function, outer.parts.as_slice())?;
            self.note_cell(function, &outer.cell)?;
        }
        Ok(())
    }

    fn note_parts(
        &mut self,
        function: Option<usize>,
        parts: &'a [CellPart<A>],
    ) -> Result<(), AllocError> {
        for part in parts {
            match part {
                CellPart::Inner(cell) => self.note_cell(function, cell)?,
                CellPart::Calls(call) => {
                    self.note_call(call)?;
                    self.note_given(call)?;
                }
            }
        }
        Ok(())
    }

    fn note_cell(&mut self, function: Option<usize>, cell: &'a Cell<A>) -> Result<(), AllocError> {
        self.cells.insert(cell.node, self.spots.len())?;
        self.spots.push(CellSite { function, cell })?;
        Ok(())
    }

    fn note_call(&mut self, call: &Call<A>) -> Result<(), AllocError> {
        self.called.insert(call.at, call.function)?;
        Ok(())
    }

    /// Records the offset of a call in an expression for each of its results.
    fn note_given(&mut self, call: &Call<A>) -> Result<(), AllocError> {
        for output in &call.outputs {
            if let NameBinding::Local(node) = output.what {
                self.giving.insert(node, call.at)?;
            }
        }
        Ok(())
    }
}

impl<'a, A: Allocator> ScriptIndex<'a, A> {
    pub fn new(alloc: Global, flow: &'a Flow<A>) -> Result<ScriptIndex<'a, A>, AllocError>
        ensures { IfOk result (λ index. AreSites (core_of flow.entry.now) index.sites) }
    {
        let sites = StatementIndex::of(alloc, flow)?;
        let tables = LocationTables::of(alloc, sites.all.as_slice())?;
        Ok(ScriptIndex {
            flow,
            sites,
            tables,
        })
    }

    /// Returns the only statement at an offset that can be blocked, or `None` if there is no such statement or there
    /// are several.
    pub fn site(&self, at: usize) -> Option<&Site<'a, A>> {
        self.sites.at(at)
    }

    /// Returns the statement with this node, or `None` if no statement with this node can be blocked.
    pub fn site_of(&self, node: u32) -> Option<&Site<'a, A>> {
        self.sites.all.get(*self.tables.blockable.get(&node)?)
    }

    /// Returns the number of the function that is called at an offset.
    pub fn called_at(&self, at: usize) -> Option<usize> {
        self.tables.called.get(&at).copied()
    }

    /// Returns the name of the function that is called at an offset.
    pub fn function_at(&self, at: usize) -> Option<&'a [u8]> {
        let i = self.called_at(at)?;
        let function = self.flow.functions.get(i)?;
        Some(function.name.as_slice())
    }

    /// Returns the cell with this node.
    pub fn cell(&self, node: u32) -> Option<&CellSite<'a, A>> {
        let i = *self.tables.cells.get(&node)?;
        self.tables.spots.get(i)
    }

    /// Returns the offset of the call in an expression whose result has this node.
    pub fn giving_at(&self, node: u32) -> Option<usize> {
        self.tables.giving.get(&node).copied()
    }

    /// Returns the name of the variable that is declared at this node.
    pub fn variable_name(&self, node: u32) -> Option<&'a [u8]> {
        let variable = variable_of(self.declaring_site(node)?, node)?;
        Some(variable.name.as_slice())
    }

    /// Returns the statement that declares the variable with this node.
    pub fn declaring_site(&self, node: u32) -> Option<&Site<'a, A>> {
        self.sites.all.get(*self.tables.declaring.get(&node)?)
    }

    /// Returns the source name of a variable, as seen in a function or, with `None`, in the script's own blocks.
    ///
    /// Returns `None` if the name denotes a cell or the result of a call.
    pub fn name(&self, function: Option<usize>, name: Name) -> Option<&'a [u8]> {
        self.owned_name(function, name.what)
    }

    /// Returns the source name of a binding, in the block that owns it. See `name` for the results.
    pub fn owned_name(&self, function: Option<usize>, owned: NameBinding) -> Option<&'a [u8]> {
        match owned {
            NameBinding::Local(node) => self.variable_name(node),
            NameBinding::Input(i) => {
                let function = self.flow.functions.get(function?)?;
                Some(function.inputs.get(i)?.name.as_slice())
            }
            NameBinding::Output(i) => {
                let function = self.flow.functions.get(function?)?;
                Some(function.outputs.get(i)?.name.as_slice())
            }
        }
    }
}
