//! Names and declared variables of a flow, resolved by the result of the type check.
ghost use Rattle.std.specs.Prelude.{◌≡◌, IfOk, map, option_map};
ghost use Rattle.language.specs.Core as core;
ghost use Rattle.language.specs.Resolved as rules;
ghost use Rattle.syntax_trees.specs.View.{word_of, words_view, declarations_view};
ghost use Rattle.types.specs.Typed.{table_of};
ghost use Rattle.flow.specs.View.{name_view, names_view, awaited_view};
ghost use Rattle.lowering.specs.View.{declared, as_declared, variable_of};

use flow::name::{Name, NameBinding};
use flow::statement::Variable;
use std::alloc::{AllocError, Allocator};
use syntax_trees::tree::{self, Decl, Shape};
use types::typed::{self, Typed};

/// Creates the name of the variable or cell of this node in the current block, as a scalar.
pub fn here(node: u32) -> Name
    ensures name { name_view result ≡ core.here node }
    ensures shape { result.shape ≡ Shape.Scalar }
{
    Name {
        up: 0,
        what: NameBinding::Local(node),
        shape: Shape::Scalar,
    }
}

/// Returns the resolved name for a name of the tree.
pub fn refer<A: Allocator>(typed: &Typed, name: &tree::Name<A>) -> Name
    ensures name { name_view result ≡ rules.refers (table_of typed.now) (word_of name.now) }
    ensures shape { result.shape ≡ (table_of typed.now).shape_of name.now.number }
{
    let reference = typed.name(name.number);
    let what = match reference.what {
        typed::Binding::Local(node) => NameBinding::Local(node),
        typed::Binding::Input(i) => NameBinding::Input(i),
        typed::Binding::Output(i) => NameBinding::Output(i),
    };
    Name {
        up: reference.up,
        what,
        shape: typed.shape(name.number),
    }
}

/// Returns the resolved names for names of the tree, in their order.
pub fn all<A: Allocator + Clone>(
    alloc: &A,
    typed: &Typed,
    names: &Vec<tree::Name<A>, A>,
) -> Result<Vec<Name, A>, AllocError>
    ensures names { IfOk result (λ v. names_view v.items ≡ map (rules.refers (table_of typed.now)) (words_view names.now)) }
    ensures awaited { IfOk result (λ v. map awaited_view v.items ≡ map (rules.awaited (table_of typed.now)) (words_view names.now)) }
{
    let mut found = Vec::new(alloc.clone()?);
    for name in names {
        found.push(refer(typed, name))?;
    }
    Ok(found)
}

/// Creates a declared variable from its name and its shape.
pub fn variable<A: Allocator + Clone>(
    alloc: &A,
    name: &tree::Name<A>,
    shape: Shape,
) -> Result<Variable<A>, AllocError>
    ensures node { IfOk result (λ v. v.node ≡ name.now.number) }
    ensures variable { IfOk result (λ v. declared v ≡ as_declared shape (word_of name.now)) }
{
    Ok(Variable {
        node: name.number,
        shape,
        name: Vec::from_slice(alloc.clone()?, name.text.as_slice())?,
    })
}

/// Creates a scalar variable from an optional name.
pub fn optional<A: Allocator + Clone>(
    alloc: &A,
    name: &Option<tree::Name<A>>,
) -> Result<Option<Variable<A>>, AllocError>
    ensures node { IfOk result (λ v. option_map (λ x. x.node) v ≡ option_map (λ x. x.number) (option_map word_of name.now)) }
    ensures variable { IfOk result (λ v. option_map declared v ≡ option_map (as_declared Shape.Scalar) (option_map word_of name.now)) }
{
    match name {
        None => Ok(None),
        Some(name) => Ok(Some(variable(alloc, name, Shape::Scalar)?)),
    }
}

/// Creates the variables of declarations, such as inputs or outputs.
pub fn variables<A: Allocator + Clone>(
    alloc: &A,
    decls: &Vec<Decl<A>, A>,
) -> Result<Vec<Variable<A>, A>, AllocError>
    ensures { IfOk result (λ v. map declared v.items ≡ map variable_of (declarations_view decls.now)) }
{
    let mut found = Vec::new(alloc.clone()?);
    for decl in decls {
        found.push(variable(alloc, &decl.name, decl.shape)?)?;
    }
    Ok(found)
}
