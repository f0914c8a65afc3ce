//! Lowering of whole scripts and their functions.
ghost use Rattle.std.specs.Prelude.{◌≡◌, ◌++◌, ◌∷◌, [], IfOk, OnOk, map, length};
ghost use Rattle.language.specs.Core as core;
ghost use Rattle.language.specs.Resolved as rules;
ghost use Rattle.syntax_trees.specs.View.{composite_of, part_of, tree_of};
ghost use Rattle.types.specs.Typed.{table_of};
ghost use Rattle.flow.specs.View.{block_view, core_of, function_view, statements_view};
ghost use Rattle.lowering.specs.View.{own_statements, function_core};
ghost use Rattle.flow.specs.Shapes.{block_declared, declared_of, functions_declared, kinds_of, kinds_of_function};
ghost use Rattle.language.specs.Scopes.{signature_of, signatures};
ghost use Rattle.language_accepted.specs.Types.{body_declarations};
ghost use Rattle.std.specs.List.{flat_map};
ghost use Rattle.flow.specs.Cells.{AreAmong, AnchorsGrow, block_anchors, anchors_of, function_anchors};
ghost use Rattle.flow.specs.Listed as shows;
ghost use Rattle.flow.specs.Listed.{block_listed, function_shown, functions_shown, shown_of};
ghost use Rattle.lowering.specs.Listed.{composite_shown, composites_shown, listed_by, own_listed, shown};
ghost use Rattle.lowering.specs.Nodes.{StatementsStand, body_nodes, function_nodes, nodes_of, own_nodes};
ghost use Rattle.lowering.specs.Shapes.{declared_by, flagged, function_declarations, kinds_of_signature, own_declarations};

use crate::names::variables;
use crate::statement::{block, block_at, statement};
use flow::script::{Flow, Function};
use flow::statement::{Block, Statement};
use std::alloc::{AllocError, Allocator};
use syntax_trees::tree::{self, Item, Script};
use types::typed::Typed;

/// Converts a script to its flow, in memory of `alloc`, with the names resolved by the type check.
///
/// # Errors
///
/// Returns `AllocError` if an allocation fails.
pub fn lower<A: Allocator + Clone>(
    alloc: A,
    script: &Script<A>,
    typed: &Typed,
) -> Result<Flow<A>, AllocError>
    ensures core { IfOk result (λ flow. core_of flow ≡ rules.core (table_of typed.now) (tree_of script.now)) }
    ensures declared { IfOk result (λ flow. declared_of flow
        ≡ flagged (own_declarations (tree_of script.now)) ++ flagged (function_declarations (tree_of script.now))) }
    ensures kinds { IfOk result (λ flow. kinds_of flow ≡ map kinds_of_signature (signatures (tree_of script.now))) }
    ensures shown { IfOk result (λ flow. shown_of flow ≡ shown (tree_of script.now)) }
    ensures cells { IfOk result (λ flow. AreAmong (anchors_of flow) (nodes_of (tree_of script.now))) }
{
    let body = own_block(&alloc, typed, &script.items)?;
    let mut functions = Vec::new(alloc.clone()?);
    add_functions(&alloc, typed, &script.items, &mut functions)?;
    Ok(Flow { body, functions })
}

/// Creates the script's own block.
fn own_block<A: Allocator + Clone>(
    alloc: &A,
    typed: &Typed,
    items: &Vec<Item<A>, A>,
) -> Result<Block<A>, AllocError>
    ensures core { IfOk result (λ b. block_view b ≡ rules.script_block (table_of typed.now) (map part_of items.now.items)) }
    ensures declared { IfOk result (λ b. block_declared b ≡ flagged (own_declarations (map part_of items.now.items))) }
    ensures listed { IfOk result (λ b. block_listed b ≡ shows.block_of 0 (own_listed (map part_of items.now.items))) }
    ensures cells { IfOk result (λ b. AreAmong (block_anchors b) (own_nodes (map part_of items.now.items))) }
{
    let mut statements = Vec::new(alloc.clone()?);
    add_statements(alloc, typed, items, &mut statements)?;
    Ok(block_at(0, statements))
}

/// Appends the statements outside functions.
fn add_statements<A: Allocator + Clone>(
    alloc: &A,
    typed: &Typed,
    items: &Vec<Item<A>, A>,
    found: &mut Vec<Statement<A>, A>,
) -> Result<(), AllocError>
    ensures core { OnOk result (statements_view found.new.items
        ≡ statements_view found.old.items ++ own_statements (table_of typed.now) (map part_of items.now.items)) }
    ensures declared { OnOk result (declared_by found.new.items ≡ declared_by found.old.items ++ flagged (own_declarations (map part_of items.now.items))) }
    ensures listed { OnOk result (listed_by found.new.items ≡ listed_by found.old.items ++ own_listed (map part_of items.now.items)) }
    ensures cells { OnOk result (StatementsStand found.old.items found.new.items (own_nodes (map part_of items.now.items))) }
{
    for item in items {
        add_statement(alloc, typed, item, found)?;
    }
    Ok(())
}

/// Appends the statement of a part, if the part is a statement.
fn add_statement<A: Allocator + Clone>(
    alloc: &A,
    typed: &Typed,
    item: &Item<A>,
    found: &mut Vec<Statement<A>, A>,
) -> Result<(), AllocError>
    ensures core { OnOk result (statements_view found.new.items
        ≡ statements_view found.old.items ++ own_statements (table_of typed.now) (part_of item.now ∷ [])) }
    ensures declared { OnOk result (declared_by found.new.items ≡ declared_by found.old.items ++ flagged (own_declarations (part_of item.now ∷ []))) }
    ensures listed { OnOk result (listed_by found.new.items ≡ listed_by found.old.items ++ own_listed (part_of item.now ∷ [])) }
    ensures cells { OnOk result (StatementsStand found.old.items found.new.items (own_nodes (part_of item.now ∷ []))) }
{
    match item {
        Item::Import(_) | Item::Function(_) => Ok(()),
        Item::Statement(one) => statement(alloc, typed, one, found),
    }
}

// FUNCTIONS

/// Appends the functions, in the order of the text.
fn add_functions<A: Allocator + Clone>(
    alloc: &A,
    typed: &Typed,
    items: &Vec<Item<A>, A>,
    found: &mut Vec<Function<A>, A>,
) -> Result<(), AllocError>
    ensures core { OnOk result (map function_view found.new.items
        ≡ map function_view found.old.items ++ rules.functions_of (table_of typed.now) (map part_of items.now.items)) }
    ensures declared { OnOk result (functions_declared found.new.items
        ≡ functions_declared found.old.items ++ flagged (function_declarations (map part_of items.now.items))) }
    ensures kinds { OnOk result (map kinds_of_function found.new.items
        ≡ map kinds_of_function found.old.items ++ map kinds_of_signature (signatures (map part_of items.now.items))) }
    ensures shown { OnOk result (functions_shown found.new.items ≡ functions_shown found.old.items ++ composites_shown (map part_of items.now.items)) }
    ensures cells { OnOk result (AnchorsGrow (flat_map function_anchors found.old.items) (flat_map function_anchors found.new.items)
        (function_nodes (map part_of items.now.items))) }
{
    for item in items {
        add_function(alloc, typed, item, found)?;
    }
    Ok(())
}

/// Appends the function of a part, if the part is a function.
fn add_function<A: Allocator + Clone>(
    alloc: &A,
    typed: &Typed,
    item: &Item<A>,
    found: &mut Vec<Function<A>, A>,
) -> Result<(), AllocError>
    ensures core { OnOk result (map function_view found.new.items
        ≡ map function_view found.old.items ++ rules.functions_of (table_of typed.now) (part_of item.now ∷ [])) }
    ensures declared { OnOk result (functions_declared found.new.items
        ≡ functions_declared found.old.items ++ flagged (function_declarations (part_of item.now ∷ []))) }
    ensures kinds { OnOk result (map kinds_of_function found.new.items
        ≡ map kinds_of_function found.old.items ++ map kinds_of_signature (signatures (part_of item.now ∷ []))) }
    ensures shown { OnOk result (functions_shown found.new.items ≡ functions_shown found.old.items ++ composites_shown (part_of item.now ∷ [])) }
    ensures cells { OnOk result (AnchorsGrow (flat_map function_anchors found.old.items) (flat_map function_anchors found.new.items)
        (function_nodes (part_of item.now ∷ []))) }
{
    match item {
        Item::Import(_) | Item::Statement(_) => Ok(()),
        Item::Function(one) => {
            found.push(function(alloc, typed, one)?)?;
            Ok(())
        }
    }
}

/// Converts a composite function.
fn function<A: Allocator + Clone>(
    alloc: &A,
    typed: &Typed,
    function: &tree::Function<A>,
) -> Result<Function<A>, AllocError>
    ensures core { IfOk result (λ f. function_view f ≡ function_core (table_of typed.now) (composite_of function.now)) }
    ensures declared { IfOk result (λ f. block_declared f.body ≡ flagged (body_declarations (composite_of function.now).body)) }
    ensures kinds { IfOk result (λ f. kinds_of_function f ≡ kinds_of_signature (signature_of (composite_of function.now))) }
    ensures shown { IfOk result (λ f. function_shown f ≡ composite_shown (composite_of function.now)) }
    ensures cells { IfOk result (λ f. AreAmong (function_anchors f) (body_nodes (composite_of function.now).body)) }
{
    let name = Vec::from_slice(alloc.clone()?, function.name.text.as_slice())?;
    let inputs = variables(alloc, &function.inputs)?;
    let outputs = variables(alloc, &function.outputs)?;
    let body = block(alloc, typed, &function.body)?;
    Ok(Function {
        at: function.name.span.from,
        name,
        inputs,
        outputs,
        body,
    })
}
