//! The check of a whole script, part by part.
ghost use Rattle.std.specs.Prelude.{◌≡◌, ◌≢◌, ◌+◌, ◌^◌, ◌<◌, ◌∷◌, ℕ, MatchResult, IfOk, IfErr, map};
ghost use Rattle.syntax_trees.specs.View.{word_of, declaration_of, composite_of, part_of, tree_of};
ghost use Rattle.language.specs.Tree.{Tree};
ghost use Rattle.language.specs.Numbered.{numbered};
ghost use Rattle.language.specs.Table.{Table};
ghost use Rattle.language.specs.Typing.{WellTyped};
ghost use Rattle.types.specs.Known.{around_of, nowhere};
ghost use Rattle.types.specs.Functions.{signatures_of};
ghost use Rattle.types.specs.Names as names;
ghost use Rattle.types.specs.Scripts as checks;
ghost use Rattle.types.specs.Outcomes.{refused, Gives, Judges, Tells};
ghost use Rattle.types.specs.Typed.{table_of};
ghost use Rattle.types.specs.Accepted.{Checks};
ghost use Rattle.types.specs.Breaks.{Breaks};

use crate::builtins::builtin_of;
use crate::fault::TypeFault;
use crate::functions::{declared, find_function, signatures};
use crate::scope::{Scope, declare, empty};
use crate::signatures::Functions;
use crate::statements::{block, stmt};
use crate::typed::{Binding, NameEntry, Typed, by_number};
use std::alloc::{Allocator, Global};
use syntax_trees::tree::{Decl, Function, Item, Name, Script};

/// Checks a script, and returns what its names refer to.
///
/// The script is read from its beginning, and the first broken rule is returned.
///
/// # Errors
///
/// Returns the first broken rule with its place, or `Memory` if an allocation fails.
pub fn check<A: Allocator>(alloc: Global, script: &Script<A>) -> Result<Typed, TypeFault>
    ensures exact { Checks result (tree_of script.now) }

    // A numbered script is well typed for the returned table.
    ensures typed { IfOk result (λ t. (n : ℕ) (tree : Tree) → tree_of script.now ≡ numbered n tree → WellTyped (tree_of script.now) (table_of t)) }

    // A script that is refused for a broken rule is well typed for no table.
    ensures untyped { IfErr result (λ y. y ≢ TypeFault.Memory → (t : Table) → ¬ WellTyped (tree_of script.now) t) }

    // It breaks the rule that the fault names, at the place of the fault.
    ensures names { IfErr result (λ y. y ≢ TypeFault.Memory → Breaks (tree_of script.now) y) }
{
    let functions = signatures(alloc, script.items.as_slice())?;
    let mut settled = Vec::new(alloc);
    parts(alloc, &functions, &mut settled, script.items.as_slice())?;
    Ok(by_number(alloc, settled.as_slice())?)
}

/// Checks the parts of a script in order.
fn parts<A: Allocator>(
    alloc: Global,
    functions: &Functions,
    settled: &mut Vec<NameEntry>,
    items: &[Item<A>],
) -> Result<(), TypeFault>
    ensures { Gives (λ _. tt) result settled.new.items
        (checks.parts_checked (signatures_of functions.now) 0 nowhere (map part_of items.now) settled.old.items) }
{
    let mut scope = empty(alloc);
    let mut above: usize = 0;
    for item in items {
        above = part(alloc, functions, &mut scope, settled, above, item)?;
    }
    Ok(())
}

/// Checks a part that follows `above` functions, and returns the number of functions before the next part.
fn part<A: Allocator>(
    alloc: Global,
    functions: &Functions,
    scope: &mut Scope,
    settled: &mut Vec<NameEntry>,
    above: usize,
    item: &Item<A>,
) -> Result<usize, TypeFault>
    requires { above + 1 < 2 ^ 64 }
    ensures counts { IfOk result (λ n. n < above + 2) }
    ensures goes_on { IfOk result (λ n. (ps : Tree) → checks.parts_checked (signatures_of functions.now) above (around_of scope.old) (part_of item.now ∷ ps)
        settled.old.items ≡ checks.parts_checked (signatures_of functions.now) n (around_of scope.new) ps settled.new.items) }
    ensures stops { IfErr result (λ y. y ≢ TypeFault.Memory → (ps : Tree)
        → checks.parts_checked (signatures_of functions.now) above (around_of scope.old) (part_of item.now ∷ ps) settled.old.items ≡ refused y) }
{
    match item {
        Item::Import(_) => Ok(above),
        Item::Function(one) => {
            function(alloc, functions, settled, above, one)?;
            Ok(above + 1)
        }
        Item::Statement(one) => {
            stmt(alloc, functions, scope, settled, one)?;
            Ok(above)
        }
    }
}

/// Checks a function that follows `above` functions. Its body sees its outputs and inputs, and no variable of the
/// script.
fn function<A: Allocator>(
    alloc: Global,
    functions: &Functions,
    settled: &mut Vec<NameEntry>,
    above: usize,
    function: &Function<A>,
) -> Result<(), TypeFault>
    ensures { Gives (λ _. tt) result settled.new.items
        (checks.function_checked (signatures_of functions.now) above (composite_of function.now) settled.old.items) }
{
    let mut scope = empty(alloc);
    outputs(alloc, &mut scope, function.outputs.as_slice())?;
    function_name(functions, above, &function.name)?;
    inputs(alloc, &mut scope, function.inputs.as_slice())?;
    block(alloc, functions, &mut scope, settled, &function.body)
}

/// Returns `Declared` if the name of a function is already taken by one of the `above` functions before it, or by a
/// built-in function.
fn function_name<A: Allocator>(
    functions: &Functions,
    above: usize,
    name: &Name<A>,
) -> Result<(), TypeFault>
    ensures { Judges (λ _. tt) result (checks.name_of (names.builtin_of name.now.text.items) (signatures_of functions.now) above (word_of name.now)) }
{
    if builtin_of(name.text.as_slice()).is_some() {
        return Err(TypeFault::Declared(name.span));
    }
    match find_function(functions, name.text.as_slice()) {
        Some(found) if found.place < above => Err(TypeFault::Declared(name.span)),
        _ => Ok(()),
    }
}

/// Declares the outputs of a function, which have to be new names.
fn outputs<A: Allocator>(
    alloc: Global,
    scope: &mut Scope,
    decls: &[Decl<A>],
) -> Result<(), TypeFault>
    ensures { Tells (λ _. around_of scope.new) result (checks.parameters Binding.Output (around_of scope.old) 0 (map declaration_of decls.now)) }
{
    for (i, decl) in decls.iter().enumerate() {
        declare(alloc, scope, &decl.name, Binding::Output(i), declared(decl))?;
    }
    Ok(())
}

/// Declares the inputs of a function, which have to be new names.
fn inputs<A: Allocator>(
    alloc: Global,
    scope: &mut Scope,
    decls: &[Decl<A>],
) -> Result<(), TypeFault>
    ensures { Tells (λ _. around_of scope.new) result (checks.parameters Binding.Input (around_of scope.old) 0 (map declaration_of decls.now)) }
{
    for (i, decl) in decls.iter().enumerate() {
        declare(alloc, scope, &decl.name, Binding::Input(i), declared(decl))?;
    }
    Ok(())
}
