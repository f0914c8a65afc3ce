//! Traversal of a flow that fills a scene, in the order of the script's text.

use crate::analysis::scene::{BlockHead, BoxKind, BoxPosition, Branch, DrawingStep, Frame, Scene};
use crate::analysis::uses::{add_call, add_names, add_outer, add_parts, is_literal};
use flow::cell::{Call, CellPart, OuterCell};
use flow::name::Name;
use flow::script::{Flow, Function};
use flow::statement::{Action, Block, Header, Range, Statement};
use std::alloc::{AllocError, Allocator, Global};

/// Creates the scene of a script.
///
/// # Errors
///
/// Returns `AllocError` if an allocation fails.
pub fn scene_of<'a, A: Allocator>(
    alloc: Global,
    flow: &'a Flow<A>,
) -> Result<Scene<'a, A>, AllocError> {
    let mut scene = Scene::new(alloc, &flow.functions);
    scene.add_step(DrawingStep::Open(Frame::Script));
    let block = scene.add_block(BlockHead::Script);
    let place = BoxPosition {
        block,
        function: None,
    };
    walk_block(&mut scene, place, &flow.body);
    scene.add_step(DrawingStep::Close);
    for number in 0..flow.functions.len() {
        walk_function(&mut scene, number, &flow.functions[number]);
    }
    if scene.is_incomplete() {
        return Err(AllocError);
    }
    Ok(scene)
}

/// Adds a function: its frame, its outputs and its statements.
fn walk_function<'a, A: Allocator>(
    scene: &mut Scene<'a, A>,
    number: usize,
    function: &'a Function<A>,
) {
    scene.add_step(DrawingStep::Open(Frame::Function(number)));
    let block = scene.add_block(BlockHead::Function(number));
    for output in &function.outputs {
        scene.declare(output, block, true);
    }
    let place = BoxPosition {
        block,
        function: Some(number),
    };
    walk_block(scene, place, &function.body);
    scene.add_step(DrawingStep::Close);
}

/// Adds the statements of a block.
#[cycle(statement)]
fn walk_block<'a, A: Allocator>(scene: &mut Scene<'a, A>, place: BoxPosition, block: &'a Block<A>) {
    for statement in &block.statements {
        walk_statement(scene, place, statement);
    }
}

/// Adds a statement with its blocks.
#[cycle(statement)]
fn walk_statement<'a, A: Allocator>(
    scene: &mut Scene<'a, A>,
    place: BoxPosition,
    statement: &'a Statement<A>,
) {
    match &statement.action {
        Action::When { condition, then } => {
            let head = open_choice(scene, place, statement.at, condition);
            let inside = open_branch(scene, place, head, Branch::Then);
            walk_block(scene, inside, then);
            close_last_branch(scene, inside.block);
        }
        Action::Choose {
            condition,
            then,
            other,
        } => {
            let head = open_choice(scene, place, statement.at, condition);
            let inside = open_branch(scene, place, head, Branch::Then);
            walk_block(scene, inside, then);
            close_branch(scene, inside.block);
            let inside = open_branch(scene, place, head, Branch::Else);
            walk_block(scene, inside, other);
            close_last_branch(scene, inside.block);
        }
        Action::Range { range, body, .. } => {
            let inside = open_range(scene, place, statement.at, range);
            walk_block(scene, inside, body);
            scene.add_step(DrawingStep::Close);
        }
        Action::Each { array, body, .. } => {
            let inside = open_each(scene, place, statement.at, array);
            walk_block(scene, inside, body);
            scene.add_step(DrawingStep::Close);
        }
        Action::Wait {
            names,
            inner,
            content,
        } => {
            let inside = open_waits(scene, place, statement.at, names, inner);
            walk_block(scene, inside, content);
            close_waits(scene, inner);
        }
        Action::Declare(_) | Action::Call { .. } | Action::Assign { .. } => {
            add_simple(scene, place, statement);
        }
        Action::Fill { .. } | Action::Insert { .. } => add_simple(scene, place, statement),
        Action::Print { .. } | Action::Assert { .. } => add_simple(scene, place, statement),
    }
}

/// Adds a statement that has no blocks.
fn add_simple<'a, A: Allocator>(
    scene: &mut Scene<'a, A>,
    place: BoxPosition,
    statement: &'a Statement<A>,
) {
    let at = statement.at;
    match &statement.action {
        Action::Declare(variable) => scene.declare(variable, place.block, false),
        Action::Call { parts, call, .. } => add_call_statement(scene, place, at, parts, call),
        Action::Assign { target, right } => add_assignment(scene, place, at, target, right),
        Action::Fill { array, right } => add_assignment(scene, place, at, array, right),
        Action::Insert {
            array,
            index,
            right,
        } => {
            let inserted = scene.add_box(at, BoxKind::Moves, place);
            scene.write(inserted, array);
            add_outer(scene, inserted, index);
            add_outer(scene, inserted, right);
        }
        Action::Print { line, .. } => add_print(scene, place, at, line),
        Action::Assert { check, .. } => add_print(scene, place, at, check),
        Action::When { .. } | Action::Choose { .. } => {}
        Action::Range { .. } | Action::Each { .. } | Action::Wait { .. } => {}
    }
}

/// Adds the box of a call statement, with the names that it writes.
fn add_call_statement<'a, A: Allocator>(
    scene: &mut Scene<'a, A>,
    place: BoxPosition,
    at: usize,
    parts: &Vec<CellPart<A>, A>,
    call: &Call<A>,
) {
    let caller = scene.add_box(at, BoxKind::Calls, place);
    for output in &call.outputs {
        scene.write(caller, output);
    }
    add_parts(scene, caller, parts);
    add_call(scene, caller, call);
}

/// Adds the box of an assignment to a scalar or to a whole array.
fn add_assignment<'a, A: Allocator>(
    scene: &mut Scene<'a, A>,
    place: BoxPosition,
    at: usize,
    target: &Name,
    right: &OuterCell<A>,
) {
    let assigned = scene.add_box(at, BoxKind::Computes, place);
    scene.write(assigned, target);
    add_outer(scene, assigned, right);
    if is_literal(right) {
        scene.mark_setting(assigned);
    }
}

/// Adds the box of a `printf` or an `assert`.
fn add_print<'a, A: Allocator>(
    scene: &mut Scene<'a, A>,
    place: BoxPosition,
    at: usize,
    line: &OuterCell<A>,
) {
    let printed = scene.add_box(at, BoxKind::Prints, place);
    add_outer(scene, printed, line);
}

/// Opens the frame of an `if`, and adds its box.
fn open_choice<'a, A: Allocator>(
    scene: &mut Scene<'a, A>,
    place: BoxPosition,
    at: usize,
    condition: &OuterCell<A>,
) -> usize {
    scene.add_step(DrawingStep::Open(Frame::Choice(at)));
    let head = scene.add_box(at, BoxKind::Opens, place);
    add_outer(scene, head, condition);
    head
}

/// Opens the frame of a branch of an `if`, and returns the position of its statements.
fn open_branch<'a, A: Allocator>(
    scene: &mut Scene<'a, A>,
    place: BoxPosition,
    head: usize,
    branch: Branch,
) -> BoxPosition {
    let number = scene.blocks.len();
    scene.add_step(DrawingStep::Open(Frame::Branch(branch, number)));
    BoxPosition {
        block: scene.add_block(BlockHead::Branch(head)),
        function: place.function,
    }
}

/// Closes the frame of a branch.
fn close_branch<'a, A: Allocator>(scene: &mut Scene<'a, A>, block: usize) {
    scene.end_branch(block);
    scene.add_step(DrawingStep::Close);
}

/// Closes the frame of the last branch of an `if`, and that of the `if`.
fn close_last_branch<'a, A: Allocator>(scene: &mut Scene<'a, A>, block: usize) {
    close_branch(scene, block);
    scene.add_step(DrawingStep::Close);
}

/// Adds the block of a loop or `wait` with this box, and returns the position of its statements.
fn add_body<'a, A: Allocator>(
    scene: &mut Scene<'a, A>,
    place: BoxPosition,
    head: usize,
) -> BoxPosition {
    BoxPosition {
        block: scene.add_block(BlockHead::Statement(head)),
        function: place.function,
    }
}

/// Opens the frame of a loop over a range, and adds its box. Returns the position of its statements.
fn open_range<'a, A: Allocator>(
    scene: &mut Scene<'a, A>,
    place: BoxPosition,
    at: usize,
    range: &Range<A>,
) -> BoxPosition {
    scene.add_step(DrawingStep::Open(Frame::Loop(at)));
    let head = scene.add_box(at, BoxKind::Opens, place);
    add_outer(scene, head, &range.low);
    add_outer(scene, head, &range.high);
    if let Some(step) = &range.step {
        add_outer(scene, head, step);
    }
    add_body(scene, place, head)
}

/// Opens the frame of a loop over an array, and adds its box. Returns the position of its statements.
fn open_each<'a, A: Allocator>(
    scene: &mut Scene<'a, A>,
    place: BoxPosition,
    at: usize,
    array: &Name,
) -> BoxPosition {
    scene.add_step(DrawingStep::Open(Frame::Loop(at)));
    let head = scene.add_box(at, BoxKind::Opens, place);
    scene.read(head, array);
    add_body(scene, place, head)
}

/// Opens the frames of a `wait` and of the waits merged into it, each the only content of the one around it, and adds
/// their boxes. Returns the position of the statements of the innermost.
fn open_waits<'a, A: Allocator>(
    scene: &mut Scene<'a, A>,
    place: BoxPosition,
    at: usize,
    names: &Vec<Name, A>,
    inner: &Vec<Header<A>, A>,
) -> BoxPosition {
    let mut inside = open_wait(scene, place, at, names);
    for wait in inner {
        inside = open_wait(scene, inside, wait.at, &wait.names);
    }
    inside
}

/// Opens the frame of a `wait`, and adds its box. Returns the position of its statements.
fn open_wait<'a, A: Allocator>(
    scene: &mut Scene<'a, A>,
    place: BoxPosition,
    at: usize,
    names: &Vec<Name, A>,
) -> BoxPosition {
    scene.add_step(DrawingStep::Open(Frame::Wait(at)));
    let head = scene.add_box(at, BoxKind::Opens, place);
    add_names(scene, head, names);
    add_body(scene, place, head)
}

/// Closes the frames of a `wait` and of the waits merged into it.
fn close_waits<'a, A: Allocator>(scene: &mut Scene<'a, A>, inner: &Vec<Header<A>, A>) {
    scene.add_step(DrawingStep::Close);
    for _ in inner {
        scene.add_step(DrawingStep::Close);
    }
}
