//! The scope: the variables that are visible at a point of the script.
ghost use Rattle.std.specs.Prelude.{◌≡◌, ◌≢◌, OnOk, MatchResult, Some, None, IsSome, option_map, vec_len};
ghost use Rattle.std.specs.Str.{bytes_eq};
ghost use Rattle.syntax_trees.specs.View.{word_of};
ghost use Rattle.types.specs.Known.{seen_at, around_of, type_of, nowhere};
ghost use Rattle.types.specs.Names as checks;
ghost use Rattle.types.specs.Outcomes.{Gives, Judges};

use crate::fault::TypeFault;
use crate::typed::{Binding, NameEntry, NameMeaning, Reference, VariableType};
use indexmap::IndexMap;
use std::alloc::{AllocError, Allocator, Global};
use syntax_trees::tree::Name;

/// A visible variable: its depth, its binding and its type. The depth is the number of blocks that were open at its
/// declaration.
#[derive(Clone, Copy)]
pub struct VisibleVariable {
    pub depth: usize,
    pub what: Binding,
    pub of: VariableType,
}

/// The visible variables by name, in the order of their declarations.
///
/// `blocks` has an entry for each open block: the number of variables that were visible before it. A hash map finds a
/// name. Two variables of one name are never visible at once, so that no shadowing has to be resolved.
#[derive(Drop)]
pub struct Scope {
    pub blocks: Vec<usize>,
    pub names: IndexMap<Vec<u8>, VisibleVariable>,
}

/// Creates a scope without variables.
pub fn empty(alloc: Global) -> Scope
    ensures { around_of result ≡ nowhere }
{
    Scope {
        blocks: Vec::new(alloc),
        names: IndexMap::new(alloc),
    }
}

/// Returns true if two texts are equal.
pub fn same_text(one: &[u8], other: &[u8]) -> bool
    ensures { result ≡ bytes_eq one.now other.now }
{
    one == other
}

/// Returns the visible variable with this name, or `None`.
fn find(scope: &Scope, text: &[u8]) -> Option<VisibleVariable>
    ensures { checks.seen (around_of scope.now).names text.now ≡ option_map (seen_at text.now) result }
{
    scope.names.get(text).copied()
}

/// Returns `Declared` at a name that is already visible.
pub fn fresh<A: Allocator>(scope: &Scope, name: &Name<A>) -> Result<(), TypeFault>
    ensures judges { Judges (λ _. tt) result (checks.fresh (around_of scope.now) (word_of name.now)) }
    ensures seen { MatchResult result (λ _. checks.seen (around_of scope.now).names name.now.text.items ≡ None)
        (λ fault. (fault ≡ TypeFault.Declared name.now.span) × IsSome (checks.seen (around_of scope.now).names name.now.text.items)) }
{
    match find(scope, name.text.as_slice()) {
        Some(_) => Err(TypeFault::Declared(name.span)),
        None => Ok(()),
    }
}

/// Adds a variable whose name is not yet visible.
///
/// # Errors
///
/// Returns `AllocError` if an allocation fails.
pub fn add<A: Allocator>(
    alloc: Global,
    scope: &mut Scope,
    name: &Name<A>,
    what: Binding,
    of: VariableType,
) -> Result<(), AllocError>
    requires { checks.seen (around_of scope.old).names name.now.text.items ≡ None }
    ensures { OnOk result (around_of scope.new ≡ checks.added (around_of scope.old) (word_of name.now) what (type_of of)) }
{
    let text = Vec::from_slice(alloc, name.text.as_slice())?;
    let known = VisibleVariable {
        depth: scope.blocks.len(),
        what,
        of,
    };
    scope.names.insert(text, known)?;
    Ok(())
}

/// Adds a variable, and refuses a name that is already visible.
///
/// # Errors
///
/// Returns `Declared` at a name that is already visible, or `Memory` if an allocation fails.
pub fn declare<A: Allocator>(
    alloc: Global,
    scope: &mut Scope,
    name: &Name<A>,
    what: Binding,
    of: VariableType,
) -> Result<(), TypeFault>
    ensures added { OnOk result (around_of scope.new ≡ checks.added (around_of scope.old) (word_of name.now) what (type_of of)) }
    ensures free { MatchResult result (λ _. checks.seen (around_of scope.old).names name.now.text.items ≡ None)
        (λ fault. fault ≢ TypeFault.Memory → (fault ≡ TypeFault.Declared name.now.span)
        × IsSome (checks.seen (around_of scope.old).names name.now.text.items)) }
{
    fresh(scope, name)?;
    add(alloc, scope, name, what, of)?;
    Ok(())
}

/// Resolves the name of a variable: records what it refers to, and returns its type.
///
/// # Errors
///
/// Returns `Unknown` at a name that is not visible, or `Memory` if an allocation fails.
pub fn refer<A: Allocator>(
    scope: &Scope,
    settled: &mut Vec<NameEntry>,
    name: &Name<A>,
) -> Result<VariableType, TypeFault>
    ensures { Gives type_of result settled.new.items (checks.refer (around_of scope.now) (word_of name.now) settled.old.items) }
{
    let Some(known) = find(scope, name.text.as_slice()) else {
        return Err(TypeFault::Unknown(name.span));
    };
    let up = scope.blocks.len().saturating_sub(known.depth);
    let reference = Reference {
        up,
        what: known.what,
    };
    settled.push(NameEntry {
        number: name.number,
        meaning: NameMeaning::Variable(reference, known.of.shape),
    })?;
    Ok(known.of)
}
