//! Emission of the entries of cells and calls.
ghost use Rattle.std.specs.Prelude.{◌≡◌, ◌<◌, ◌+◌, ◌^◌, ◌++◌, ◌∷◌, [], List, Bool, Some, false, length, map, slice_get, OnOk, IfOk};
ghost use Rattle.language.specs.Core as core;
ghost use Rattle.language.specs.Members.{◌∈◌};
ghost use Rattle.flow.specs.Shapes.{is_array, kinds_of_function};
ghost use Rattle.flow.specs.View.{call_view, cell_view, expr_view, form_view, name_view, names_view};
ghost use Rattle.task_code.specs.Code as pure;
ghost use Rattle.task_code.specs.View as code_view;
ghost use Rattle.code_rules.specs.Laying.{Kinds};
ghost use Rattle.code_rules.specs.Room.{FormRoom, NameRoom, PartRoom, Each};
ghost use Rattle.emit_cells.specs.Chunk.{Added, AddedFor, Calls, InputsPass, IsPassed, NamePasses, OutputsPass, Told, name_at};
ghost use Rattle.emit_cells.specs.Made.{made, made_cell};
ghost use Rattle.emit_cells.specs.Marks.{IsUnmarked, MarksGrow};
ghost use Rattle.flow.specs.Cells.{anchor_of};

use crate::cells::{element, handed};
use crate::entries::{EntryOrigin, StatementContext, entry, push_entry};
use crate::names::named;
use crate::needs::note;
use crate::operands::placed;
use crate::plain::{is_plain, local_node};
use flow::cell::{Call, Cell, CellForm, CellPart};
use flow::expression::Expr;
use flow::name::Name;
use flow::script::Function;
use flow::statement::Variable;
use indexmap::{IndexMap, IndexSet};
use std::alloc::{AllocError, Allocator, Global};
use task_code::entry::{self, Act, Argument, Entry, Need};

// CELLS

/// Appends the entry of a cell that evaluates an expression.
fn add_computed<A: Allocator>(
    alloc: Global,
    entries: &mut Vec<Entry>,
    standing: StatementContext,
    shown: EntryOrigin,
    expr: &Expr<A>,
) -> Result<(), AllocError>
    ensures entry { OnOk result (FormRoom standing.inputs (core.compute (expr_view expr.now))
        → map code_view.entry_view entries.new.items ≡ map code_view.entry_view entries.old.items ++ made_cell standing shown (expr_view expr.now) ∷ []) }
    ensures marks { OnOk result (MarksGrow entries.old.items entries.new.items (record { node = shown.node; at = shown.offset } ∷ [])) }
{
    let mut needs = IndexSet::new(alloc);
    note(&mut needs, standing.inputs, expr)?;
    let value = placed(alloc, &needs, standing.inputs, expr)?;
    push_entry(alloc, entries, standing, shown, &needs, Act::Cell(value))?;
    Ok(())
}

/// Appends the entry of a cell that reads an element.
fn add_read(
    alloc: Global,
    entries: &mut Vec<Entry>,
    standing: StatementContext,
    shown: EntryOrigin,
    need: Need,
) -> Result<(), AllocError>
    ensures { OnOk result (map code_view.entry_view entries.new.items
        ≡ map code_view.entry_view entries.old.items ++ made standing shown (code_view.need_view need ∷ []) pure.Read ∷ []) }
{
    let mut needs = Vec::new(alloc);
    needs.push(need)?;
    entries.push(entry(alloc, standing, shown, needs, Act::Read))?;
    Ok(())
}

/// Appends the entry of a cell that is not plain.
pub fn add_cell<A: Allocator>(
    alloc: Global,
    entries: &mut Vec<Entry>,
    standing: StatementContext,
    passed: &IndexMap<u32, Argument>,
    cell: &Cell<A>,
) -> Result<(), AllocError>
    ensures added { OnOk result ((fs : List Kinds) (all : List core.Part) → IsPassed standing.inputs all passed.now
        → FormRoom standing.inputs (form_view cell.now.form) → core.inner (cell_view cell.now) ∈ all → Told all cell.now.node false
        → Added fs standing.inputs all standing.at standing.priority (core.inner (cell_view cell.now) ∷ []) entries.old.items entries.new.items) }
    ensures marks { OnOk result (MarksGrow entries.old.items entries.new.items (anchor_of cell.now ∷ [])) }
{
    let shown = EntryOrigin {
        node: cell.node,
        offset: cell.at,
    };
    match &cell.form {
        CellForm::Compute(expr) => add_computed(alloc, entries, standing, shown, expr),
        CellForm::Read { array, index } => {
            let need = element(passed, named(standing.inputs, *array, true), *index)?;
            add_read(alloc, entries, standing, shown, need)
        }
    }
}

// CALLS

/// Returns true if the variable at this index is an array. An index beyond the end yields false.
fn is_array_at<A: Allocator>(variables: &Vec<Variable<A>, A>, number: usize) -> bool
    ensures { (b : Bool) → slice_get (map (λ v. is_array v.shape) variables.now.items) number ≡ Some b → result ≡ b }
{
    match variables.get(number) {
        None => false,
        Some(variable) => variable.is_array(),
    }
}

/// Returns true if the input of a function at this index is an array. A missing function or input yields false.
fn is_array_input<A: Allocator>(
    functions: &Vec<Function<A>, A>,
    function: usize,
    number: usize,
) -> bool
    ensures { (kinds : Kinds) (b : Bool) → slice_get (map kinds_of_function functions.now.items) function ≡ Some kinds
        → slice_get kinds.0 number ≡ Some b → result ≡ b }
{
    match functions.get(function) {
        None => false,
        Some(found) => is_array_at(&found.inputs, number),
    }
}

/// Returns true if the output of a function at this index is an array. A missing function or output yields false.
fn is_array_output<A: Allocator>(
    functions: &Vec<Function<A>, A>,
    function: usize,
    number: usize,
) -> bool
    ensures { (kinds : Kinds) (b : Bool) → slice_get (map kinds_of_function functions.now.items) function ≡ Some kinds
        → slice_get kinds.1 number ≡ Some b → result ≡ b }
{
    match functions.get(function) {
        None => false,
        Some(found) => is_array_at(&found.outputs, number),
    }
}

/// Returns the argument for a scalar input. A name without a recorded argument is passed as an array.
fn scalar_input(
    inputs: usize,
    passed: &IndexMap<u32, Argument>,
    name: Name,
) -> Result<Argument, AllocError>
    ensures { IfOk result (λ a. (all : List core.Part) → IsPassed inputs all passed.now → NameRoom inputs (name_view name)
        → NamePasses inputs all false (name_view name) (code_view.argument_view a)) }
{
    match local_node(name) {
        None => Ok(Argument::Named(named(inputs, name, true))),
        Some(node) => match handed(passed, node)? {
            Some(argument) => Ok(argument),
            None => Ok(Argument::Named(named(inputs, name, true))),
        },
    }
}

/// Returns the argument for an input, which is an array or a cell.
fn input(
    inputs: usize,
    passed: &IndexMap<u32, Argument>,
    name: Name,
    array: bool,
) -> Result<Argument, AllocError>
    ensures { IfOk result (λ a. (all : List core.Part) → IsPassed inputs all passed.now → NameRoom inputs (name_view name)
        → NamePasses inputs all array (name_view name) (code_view.argument_view a)) }
{
    if array {
        Ok(Argument::Named(named(inputs, name, true)))
    } else {
        scalar_input(inputs, passed, name)
    }
}

/// Returns the argument for the input of a call at this index.
fn input_at<A: Allocator>(
    functions: &Vec<Function<A>, A>,
    inputs: usize,
    passed: &IndexMap<u32, Argument>,
    call: &Call<A>,
    number: usize,
) -> Result<Argument, AllocError>
    requires { number < length call.now.inputs.items }
    ensures { IfOk result (λ a. (all : List core.Part) → IsPassed inputs all passed.now → Each (NameRoom inputs) (names_view call.now.inputs.items)
        → InputsPass functions.now.items inputs all call.now.function number (name_at (names_view call.now.inputs.items) number)
        (code_view.argument_view a ∷ [])) }
{
    let name = call.inputs[number];
    let array = is_array_input(functions, call.function, number);
    input(inputs, passed, name, array)
}

/// Returns the arguments for the inputs of a call.
fn call_inputs<A: Allocator>(
    alloc: Global,
    functions: &Vec<Function<A>, A>,
    inputs: usize,
    passed: &IndexMap<u32, Argument>,
    call: &Call<A>,
) -> Result<Vec<Argument>, AllocError>
    ensures { IfOk result (λ found. (all : List core.Part) → IsPassed inputs all passed.now → Each (NameRoom inputs) (names_view call.now.inputs.items)
        → InputsPass functions.now.items inputs all call.now.function 0 (names_view call.now.inputs.items) (map code_view.argument_view found.items)) }
{
    let mut found = Vec::with_capacity(alloc, call.inputs.len())?;
    for number in 0..call.inputs.len() {
        found.push(input_at(functions, inputs, passed, call, number)?)?;
    }
    Ok(found)
}

/// Returns the name that a call has for its output at this index.
fn output_at<A: Allocator>(
    functions: &Vec<Function<A>, A>,
    inputs: usize,
    call: &Call<A>,
    number: usize,
) -> entry::Name
    requires { number < length call.now.outputs.items }
    ensures { Each (NameRoom inputs) (names_view call.now.outputs.items)
        → OutputsPass functions.now.items inputs call.now.function number (name_at (names_view call.now.outputs.items) number)
        (code_view.name_view result ∷ []) }
{
    let name = call.outputs[number];
    let array = is_array_output(functions, call.function, number);
    named(inputs, name, array)
}

/// Returns the names that a call has for its outputs.
fn call_outputs<A: Allocator>(
    alloc: Global,
    functions: &Vec<Function<A>, A>,
    inputs: usize,
    call: &Call<A>,
) -> Result<Vec<entry::Name>, AllocError>
    ensures { IfOk result (λ found. Each (NameRoom inputs) (names_view call.now.outputs.items)
        → OutputsPass functions.now.items inputs call.now.function 0 (names_view call.now.outputs.items) (map code_view.name_view found.items)) }
{
    let mut found = Vec::with_capacity(alloc, call.outputs.len())?;
    for number in 0..call.outputs.len() {
        found.push(output_at(functions, inputs, call, number))?;
    }
    Ok(found)
}

/// Returns `number + 1` in 32 bits. Saturates at `u32::MAX`.
fn next(number: usize) -> u32
    ensures { number + 1 < 2 ^ 32 → result ≡ number + 1 }
{
    if number < u32::MAX as usize {
        number as u32 + 1
    } else {
        u32::MAX
    }
}

/// Creates the act of a call. The body of function `n` has number `n + 1`.
fn call_act<A: Allocator>(
    alloc: Global,
    functions: &Vec<Function<A>, A>,
    inputs: usize,
    passed: &IndexMap<u32, Argument>,
    call: &Call<A>,
) -> Result<Act, AllocError>
    ensures calls { IfOk result (λ act. (all : List core.Part) → IsPassed inputs all passed.now → PartRoom inputs (core.calls (call_view call.now))
        → Calls (map kinds_of_function functions.now.items) inputs all (call_view call.now) (code_view.act_view act)) }
    ensures unmarked { IfOk result (λ act. IsUnmarked (code_view.act_view act)) }
{
    let body = next(call.function);
    let found = call_inputs(alloc, functions, inputs, passed, call)?;
    let outputs = call_outputs(alloc, functions, inputs, call)?;
    Ok(Act::Call {
        body,
        inputs: found,
        outputs,
    })
}

/// Appends an entry of a statement without needs.
fn put_bare(
    alloc: Global,
    entries: &mut Vec<Entry>,
    standing: StatementContext,
    shown: EntryOrigin,
    act: Act,
) -> Result<(), AllocError>
    ensures { OnOk result (map code_view.entry_view entries.new.items
        ≡ map code_view.entry_view entries.old.items ++ made standing shown [] (code_view.act_view act) ∷ []) }
{
    let needs = Vec::new(alloc);
    entries.push(entry(alloc, standing, shown, needs, act))?;
    Ok(())
}

/// Appends the entry of a call.
pub fn add_call<A: Allocator>(
    alloc: Global,
    entries: &mut Vec<Entry>,
    functions: &Vec<Function<A>, A>,
    standing: StatementContext,
    passed: &IndexMap<u32, Argument>,
    call: &Call<A>,
) -> Result<(), AllocError>
    ensures added { OnOk result ((all : List core.Part) → IsPassed standing.inputs all passed.now → PartRoom standing.inputs (core.calls (call_view call.now))
        → core.calls (call_view call.now) ∈ all
        → AddedFor functions.now.items standing all (core.calls (call_view call.now) ∷ []) entries.old.items entries.new.items) }
    ensures marks { OnOk result (MarksGrow entries.old.items entries.new.items []) }
{
    let shown = EntryOrigin {
        node: 0,
        offset: call.at,
    };
    let act = call_act(alloc, functions, standing.inputs, passed, call)?;
    put_bare(alloc, entries, standing, shown, act)?;
    Ok(())
}
