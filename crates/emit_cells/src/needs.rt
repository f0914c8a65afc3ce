//! Plain needs of an entry: the scalars and arrays that its expressions name, each once, in reading order.
ghost use Rattle.std.specs.Prelude.{◌≡◌, ◌≤◌, ◌++◌, ◌∷◌, [], length, map, OnOk, IfOk};
ghost use Rattle.flow.specs.View.{expr_view, exprs_view, name_view};
ghost use Rattle.task_code.specs.View as code_view;
ghost use Rattle.code_rules.specs.CodeNames.{each_once, name_as, wanted, wanted_all, place_in};
ghost use Rattle.code_rules.specs.Room.{Each, ExprRoom, ExprsRoom};
ghost use Rattle.emit_cells.specs.PlainNeeds.{name_of, need_of, need_named, IsPlain, IsReady, Notes};

use crate::names::named;
use flow::expression::Expr;
use indexmap::IndexSet;
use std::alloc::{AllocError, Allocator, Global};
use task_code::body_numbers::small;
use task_code::entry::{Name, Need, Owned, Variable};

/// A plain need: a scalar that must be stored, or an array that must be closed.
#[derive(Clone, Copy, PartialEq, Eq, Hash, Debug)]
pub struct PlainNeed {
    pub up: usize,
    /// Whether the need names a variable of a block, and not a parameter.
    pub local: bool,
    /// The node of the variable, or 0 for a parameter.
    pub node: u32,
    /// The index of the parameter, or 0 for a variable.
    pub place: usize,
    pub array: bool,
}

impl PlainNeed {
    /// Creates the plain need with this name.
    pub fn new(name: Name) -> PlainNeed
        ensures plain { IsPlain result }
        ensures name { name_of result ≡ code_view.name_view name }
    {
        match name.owned {
            Owned::Local(variable) => PlainNeed {
                up: name.up,
                local: true,
                node: variable.node,
                place: 0,
                array: variable.array,
            },
            Owned::Parameter(place, array) => PlainNeed {
                up: name.up,
                local: false,
                node: 0,
                place,
                array,
            },
        }
    }

    /// Returns the name.
    pub fn name(self) -> Name
        ensures { code_view.name_view result ≡ name_of self }
    {
        let owned = if self.local {
            Owned::Local(Variable {
                node: self.node,
                array: self.array,
            })
        } else {
            Owned::Parameter(self.place, self.array)
        };
        Name { up: self.up, owned }
    }

    /// Returns the need of code: closed for an array, stored for a scalar.
    pub fn need(self) -> Need
        ensures { code_view.need_view result ≡ need_of self }
    {
        if self.array {
            Need::Closed(self.name())
        } else {
            Need::Stored(self.name())
        }
    }
}

/// Adds the need with this name, if it is not present yet.
pub fn note_name(needs: &mut IndexSet<PlainNeed>, name: Name) -> Result<(), AllocError>
    ensures { OnOk result (Notes needs.old.keys needs.new.keys (need_named (code_view.name_view name) ∷ [])) }
{
    needs.insert(PlainNeed::new(name))?;
    Ok(())
}

/// Adds the needs of an expression.
#[cycle(note)]
pub fn note<A: Allocator>(
    needs: &mut IndexSet<PlainNeed>,
    inputs: usize,
    expr: &Expr<A>,
) -> Result<(), AllocError>
    ensures { OnOk result (ExprRoom inputs (expr_view expr.now) → Notes needs.old.keys needs.new.keys (wanted inputs (expr_view expr.now))) }
{
    match expr {
        Expr::Number(_) | Expr::Text(_) | Expr::Truth(_) => Ok(()),
        Expr::Name(name) => note_name(needs, named(inputs, *name, false)),
        Expr::Whole(name) => note_name(needs, named(inputs, *name, true)),
        Expr::Operation(_, operands) => note_all(needs, inputs, operands),
    }
}

/// Adds the needs of several expressions.
#[cycle(note)]
fn note_all<A: Allocator>(
    needs: &mut IndexSet<PlainNeed>,
    inputs: usize,
    exprs: &Vec<Expr<A>, A>,
) -> Result<(), AllocError>
    ensures { OnOk result (ExprsRoom inputs (exprs_view exprs.now.items)
        → Notes needs.old.keys needs.new.keys (wanted_all inputs (exprs_view exprs.now.items))) }
{
    for expr in exprs {
        note(needs, inputs, expr)?;
    }
    Ok(())
}

/// Returns the index of the need with this name, or the number of needs if it is not present.
pub fn place_of(needs: &IndexSet<PlainNeed>, name: Name) -> u32
    ensures { IsReady needs.now.keys → result ≡ place_in (need_named (code_view.name_view name)) (map need_of needs.now.keys) }
{
    small(index_of(needs, name))
}

fn index_of(needs: &IndexSet<PlainNeed>, name: Name) -> usize
    ensures place { Each IsPlain needs.now.keys → result ≡ place_in (need_named (code_view.name_view name)) (map need_of needs.now.keys) }
    ensures most { result ≤ length needs.now.keys }
{
    let wanted = PlainNeed::new(name);
    match needs.get_index_of(&wanted) {
        Some(place) => place,
        None => needs.len(),
    }
}

/// Returns the needs as a list for an entry.
pub fn listed(alloc: Global, needs: &IndexSet<PlainNeed>) -> Result<Vec<Need>, AllocError>
    ensures { IfOk result (λ found. map code_view.need_view found.items ≡ map need_of needs.now.keys) }
{
    let mut found = Vec::with_capacity(alloc, needs.len())?;
    for number in 0..needs.len() {
        if let Some(wanted) = needs.get_index(number) {
            found.push(wanted.need())?;
        }
    }
    Ok(found)
}
