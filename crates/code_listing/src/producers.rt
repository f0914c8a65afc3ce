//! Producers: the entries that produce the values without a name in the script.
ghost use Rattle.std.specs.Prelude.{◌≡◌, [], ℕ, IfOk, OnOk, cond, map, nat_eq};
ghost use Rattle.task_code.specs.View.{entry_view, name_view};
ghost use Rattle.code_listing.specs.Labels.{maker_of};
ghost use Rattle.code_listing.specs.Order.{bodies_made, body_made, entries_made, entry_made, made_all, made_by, maker_among, own_node, own_nodes};

use crate::bodies::BodyPosition;
use indexmap::IndexMap;
use std::alloc::{AllocError, Global};
use task_code::code::Code;
use task_code::entry::{Act, Entry, Name, Owned};

/// The number of the producing entry in its body, from 1, for each node whose value an entry produces.
#[derive(Drop)]
pub struct Producers {
    numbers: IndexMap<u32, usize>,
}

impl Producers {
    /// Finds the producers in these bodies. Each later lookup takes constant time.
    ///
    /// # Errors
    ///
    /// Returns `AllocError` if an allocation fails.
    pub fn find(
        alloc: Global,
        code: &Code,
        positions: &Vec<BodyPosition>,
    ) -> Result<Producers, AllocError>
        ensures { IfOk result (λ made. (n : ℕ) → maker_of made n ≡ maker_among 0 (bodies_made code.now positions.now.items) n) }
    {
        let mut producers = Producers {
            numbers: IndexMap::new(alloc),
        };
        for place in 0..positions.len() {
            producers.add_body(code, positions[place].body)?;
        }
        Ok(producers)
    }

    /// Returns the number in its body, from 1, of the entry that produces the value of a node, or 0 if there is none.
    pub fn of(&self, node: u32) -> usize
        ensures { result ≡ maker_of self.now node }
    {
        match self.numbers.get(&node) {
            Some(number) => *number,
            None => 0,
        }
    }

    /// Adds the nodes whose values the entries of a body produce.
    fn add_body(&mut self, code: &Code, body: u32) -> Result<(), AllocError>
        ensures { OnOk result ((n : ℕ) → maker_of self.new n ≡ maker_among (maker_of self.old n) (body_made code.now body) n) }
    {
        match code.body(body) {
            None => Ok(()),
            Some(body) => self.add_entries(code, body.entries.as_slice()),
        }
    }

    /// Adds the nodes whose values these entries produce.
    fn add_entries(&mut self, code: &Code, entries: &[u32]) -> Result<(), AllocError>
        ensures { OnOk result ((n : ℕ) → maker_of self.new n ≡ maker_among (maker_of self.old n) (entries_made code.now 0 entries.now) n) }
    {
        for k in 0..entries.len() {
            self.add_entry_at(code, entries[k], k + 1)?;
        }
        Ok(())
    }

    /// Adds the nodes whose values the entry of a number in the code produces, if there is one.
    fn add_entry_at(&mut self, code: &Code, entry: u32, number: usize) -> Result<(), AllocError>
        ensures { OnOk result ((n : ℕ) → maker_of self.new n ≡ maker_among (maker_of self.old n) (entry_made code.now number entry) n) }
    {
        match code.entry(entry) {
            None => Ok(()),
            Some(entry) => self.add_entry(entry, number),
        }
    }

    /// Adds the nodes whose values an entry produces.
    fn add_entry(&mut self, entry: &Entry, number: usize) -> Result<(), AllocError>
        ensures { OnOk result ((n : ℕ) → maker_of self.new n
            ≡ maker_among (maker_of self.old n) (made_all number (made_by (entry_view entry.now).node (entry_view entry.now).act)) n) }
    {
        match &entry.act {
            Act::Cell(_) | Act::Read => self.add(entry.node, number),
            Act::Call { outputs, .. } => self.add_outputs(outputs, number),
            Act::Set(_, _)
            | Act::Fill(_, _)
            | Act::Copy(_)
            | Act::InsertElement(_, _, _)
            | Act::Print(_)
            | Act::Assert(_)
            | Act::If(_, _, _)
            | Act::Range(_, _, _, _)
            | Act::Each(_)
            | Act::Wait(_, _) => Ok(()),
        }
    }

    /// Adds the outputs of a call that belong to its own block.
    fn add_outputs(&mut self, outputs: &Vec<Name>, number: usize) -> Result<(), AllocError>
        ensures { OnOk result ((n : ℕ) → maker_of self.new n
            ≡ maker_among (maker_of self.old n) (made_all number (own_nodes (map name_view outputs.now.items))) n) }
    {
        for output in outputs {
            self.add_output(output, number)?;
        }
        Ok(())
    }

    /// Adds an output of a call if it belongs to the block of the call.
    fn add_output(&mut self, output: &Name, number: usize) -> Result<(), AllocError>
        ensures { OnOk result ((n : ℕ) → maker_of self.new n
            ≡ maker_among (maker_of self.old n) (made_all number (own_node (name_view output.now))) n) }
    {
        if output.up != 0 {
            return Ok(());
        }
        match output.owned {
            Owned::Local(variable) => self.add(variable.node, number),
            Owned::Parameter(_, _) => Ok(()),
        }
    }

    fn add(&mut self, node: u32, number: usize) -> Result<(), AllocError>
        ensures { OnOk result ((n : ℕ) → maker_of self.new n ≡ cond (nat_eq node n) number (maker_of self.old n)) }
    {
        let _before = self.numbers.insert(node, number)?;
        Ok(())
    }
}
