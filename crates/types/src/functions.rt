//! Functions: their signatures, and the resolution of called names.
ghost use Rattle.std.specs.Prelude.{◌≡◌, ℕ, List, IfOk, MatchOption, OnOk, map};
ghost use Rattle.std.specs.Str.{bytes_eq};
ghost use Rattle.indexmap.specs.IndexMap.{get_by};
ghost use Rattle.syntax_trees.specs.View.{word_of, part_of, composite_of, declaration_of};
ghost use Rattle.language.specs.Scopes as scopes;
ghost use Rattle.types.specs.Known.{type_of, signature_of};
ghost use Rattle.types.specs.Functions.{signatures_of};
ghost use Rattle.types.specs.Names as checks;
ghost use Rattle.types.specs.Outcomes.{Gives};

use crate::fault::TypeFault;
use crate::signatures::{Functions, Signature};
use crate::typed::{Callee, NameEntry, NameMeaning, VariableType};
use indexmap::IndexMap;
use std::alloc::{AllocError, Allocator, Global};
use syntax_trees::tree::{Decl, Function, Item, Name};

/// A function of the script with its position among all functions.
#[derive(Clone, Copy)]
pub struct FoundFunction<'a> {
    pub place: usize,
    pub signature: &'a Signature,
}

/// Collects the signatures of a script.
///
/// # Errors
///
/// Returns `AllocError` if an allocation fails.
pub fn signatures<A: Allocator>(alloc: Global, items: &[Item<A>]) -> Result<Functions, AllocError>
    ensures { IfOk result (λ found. signatures_of found ≡ scopes.signatures (map part_of items.now)) }
{
    let list = listed(alloc, items)?;
    let places = first_places(alloc, list.as_slice())?;
    Ok(Functions { list, places })
}

/// Returns the signatures of a script in the order of its functions.
fn listed<A: Allocator>(alloc: Global, items: &[Item<A>]) -> Result<Vec<Signature>, AllocError>
    ensures { IfOk result (λ found. map signature_of found.items ≡ scopes.signatures (map part_of items.now)) }
{
    let mut found = Vec::new(alloc);
    for item in items {
        if let Item::Function(function) = item {
            found.push(one_signature(alloc, function)?)?;
        }
    }
    Ok(found)
}

/// Creates the index from each name to the position of its first function.
///
/// The functions are inserted from the last to the first, so that the first function of a name overwrites the others.
fn first_places(
    alloc: Global,
    functions: &[Signature],
) -> Result<IndexMap<Vec<u8>, usize>, AllocError>
    ensures { IfOk result (λ places. (text : List ℕ) → get_by (λ key. bytes_eq text key.items) places
        ≡ checks.place_of (checks.find (map signature_of functions.now) text)) }
{
    let mut places = IndexMap::new(alloc);
    for behind in 0..functions.len() {
        let place = functions.len() - 1 - behind;
        let text = Vec::from_slice(alloc, functions[place].text.as_slice())?;
        places.insert(text, place)?;
    }
    Ok(places)
}

fn one_signature<A: Allocator>(
    alloc: Global,
    function: &Function<A>,
) -> Result<Signature, AllocError>
    ensures { IfOk result (λ found. signature_of found ≡ scopes.signature_of (composite_of function.now)) }
{
    Ok(Signature {
        text: Vec::from_slice(alloc, function.name.text.as_slice())?,
        inputs: types(alloc, &function.inputs)?,
        outputs: types(alloc, &function.outputs)?,
    })
}

fn types<A: Allocator>(
    alloc: Global,
    decls: &Vec<Decl<A>, A>,
) -> Result<Vec<VariableType>, AllocError>
    ensures { IfOk result (λ found. map type_of found.items ≡ map scopes.declared_type (map declaration_of decls.now.items)) }
{
    let mut found = Vec::new(alloc);
    for decl in decls {
        found.push(declared(decl))?;
    }
    Ok(found)
}

/// Returns the type of the variable that a declaration introduces.
pub fn declared<A: Allocator>(decl: &Decl<A>) -> VariableType
    ensures { type_of result ≡ scopes.declared_type (declaration_of decl.now) }
{
    VariableType {
        base: decl.base,
        shape: decl.shape,
    }
}

/// Returns the first function with this name, or `None`.
pub fn find_function<'a>(functions: &'a Functions, text: &[u8]) -> Option<FoundFunction<'a>>
    ensures { MatchOption result (checks.find (signatures_of functions.now) text.now ≡ checks.missing)
        (λ it. checks.find (signatures_of functions.now) text.now ≡ checks.found it.place (signature_of it.signature.now)) }
{
    let place = *functions.places.get(text)?;
    let signature = functions.list.get(place)?;
    Some(FoundFunction { place, signature })
}

/// Records what a called name refers to.
pub fn called<A: Allocator>(
    settled: &mut Vec<NameEntry>,
    name: &Name<A>,
    callee: Callee,
) -> Result<(), AllocError>
    ensures { OnOk result (settled.new.items ≡ checks.settles (word_of name.now) (NameMeaning.Called callee) settled.old.items) }
{
    settled.push(NameEntry {
        number: name.number,
        meaning: NameMeaning::Called(callee),
    })?;
    Ok(())
}

/// Resolves a called name with these numbers of inputs and outputs: records the function, and returns its signature.
///
/// # Errors
///
/// - Returns `NotAFunction` if no function of the script has the name.
/// - Returns `WrongCount` if its numbers of inputs or outputs differ.
/// - Returns `Memory` if an allocation fails.
pub fn function_called<'a, A: Allocator>(
    functions: &'a Functions,
    settled: &mut Vec<NameEntry>,
    name: &Name<A>,
    inputs: usize,
    outputs: usize,
) -> Result<&'a Signature, TypeFault>
    ensures { Gives (λ found. signature_of found.now) result settled.new.items
        (checks.function_called (signatures_of functions.now) (word_of name.now) inputs outputs settled.old.items) }
{
    let Some(found) = find_function(functions, name.text.as_slice()) else {
        return Err(TypeFault::NotAFunction(name.span));
    };
    if found.signature.inputs.len() != inputs || found.signature.outputs.len() != outputs {
        return Err(TypeFault::WrongCount(name.span));
    }
    called(settled, name, Callee::Function(found.place))?;
    Ok(found.signature)
}
