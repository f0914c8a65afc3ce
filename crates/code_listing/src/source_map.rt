//! The source map of a script: the offsets and kinds of its blocks and the names of its variables, which code lacks.
ghost use Rattle.std.specs.Prelude.{◌≡◌, ◌≢◌, ◌++◌, ◌∷◌, [], ℕ, IfSome, IfNone, IfOk, OnOk, cond, length, map, nat_eq, option_map, slice_get};
ghost use Rattle.code_listing.specs.Blocks.{blocks_among, functions_inner, functions_names, functions_roots, in_action, in_block, in_statement, info, infos, inner, looping, named, names_among, opening, roots, variable_name};
ghost use Rattle.code_listing.specs.Finding.{Gains};
ghost use Rattle.code_listing.specs.Labels.{infos_of, name_in, name_of};
ghost use Rattle.code_listing.specs.declared.source_map.BodyKind.{BodyKind};

use flow::script::{Flow, Function};
use flow::statement::{Action, Block, Statement, Variable};
use std::alloc::{AllocError, Allocator, Global};

/// The kind of a body.
#[derive(Clone, Copy, PartialEq, Eq, Debug, Drop)]
pub enum BodyKind {
    Script,
    Function,
    Then,
    Else,
    Loop,
    Wait,
}

/// A body: the offset of its `{`, its kind, and the number of its function, counted from 1. The script has number 0.
#[derive(Clone, Copy, PartialEq, Eq, Debug, Drop)]
pub struct BodyInfo {
    pub from: usize,
    pub what: BodyKind,
    pub function: usize,
}

/// The names of the variables of a script, and its blocks, in the order of the bodies of its code.
///
/// The blocks of the script and its functions come first. Inner blocks follow, each after those nested in it.
pub struct SourceMap<'a> {
    /// The name of the variable of each node, up to the last node with a name. An empty name means that there is none.
    names: Vec<&'a [u8]>,
    pub roots: Vec<BodyInfo>,
    pub inner: Vec<BodyInfo>,
    /// Whether an allocation failed.
    lacks: bool,
}

// Written out, so that the owner drops it by one call.
impl<'a> Drop for SourceMap<'a> {
    fn drop(self) {
        let SourceMap {
            names: _,
            roots: _,
            inner: _,
            lacks: _,
        } = self;
    }
}

impl<'a> SourceMap<'a> {
    /// Appends the own block of the script or of a function.
    fn add_root(&mut self, from: usize, what: BodyKind, function: usize)
        ensures { Gains self.old self.new (info what from function ∷ []) [] [] }
    {
        let stand = BodyInfo {
            from,
            what,
            function,
        };
        match self.roots.push(stand) {
            Ok(()) => {}
            Err(_) => self.lacks = true,
        }
    }

    /// Appends an inner block.
    fn add_inner(&mut self, from: usize, what: BodyKind, function: usize)
        ensures { Gains self.old self.new [] (info what from function ∷ []) [] }
    {
        let stand = BodyInfo {
            from,
            what,
            function,
        };
        match self.inner.push(stand) {
            Ok(()) => {}
            Err(_) => self.lacks = true,
        }
    }

    /// Returns the name of the variable of a node, if it has one.
    pub fn name(&self, node: u32) -> Option<&'a [u8]>
        ensures some { IfSome result (λ name. (name.now ≡ name_of self.now node) × (name.now ≢ [])) }
        ensures none { IfNone result (name_of self.now node ≡ []) }
    {
        match self.names.get(node as usize) {
            Some(name) if !name.is_empty() => Some(*name),
            _ => None,
        }
    }

    /// Returns the description of the body of this number.
    pub fn stand(&self, body: u32) -> Option<BodyInfo>
        ensures { result ≡ slice_get (infos_of self.now) body }
    {
        let number = body as usize;
        if number < self.roots.len() {
            return Some(self.roots[number]);
        }
        match self.inner.get(number - self.roots.len()) {
            Some(stand) => Some(*stand),
            None => None,
        }
    }

    /// Returns the number of bodies.
    pub fn count(&self) -> usize
        ensures { result ≡ length (infos_of self.now) }
    {
        self.roots.len() + self.inner.len()
    }
}

/// Creates the source map of a script.
///
/// # Errors
///
/// Returns `AllocError` if an allocation fails.
pub fn find<'a, A: Allocator>(alloc: Global, flow: &'a Flow<A>) -> Result<SourceMap<'a>, AllocError>
    ensures blocks { IfOk result (λ found. infos_of found ≡ infos flow.entry.now) }
    ensures names { IfOk result (λ found. (n : ℕ) → name_of found n ≡ variable_name flow.entry.now n) }
{
    let mut found = SourceMap {
        names: Vec::new(alloc),
        roots: Vec::new(alloc),
        inner: Vec::new(alloc),
        lacks: false,
    };
    find_script(&mut found, flow);
    if found.lacks {
        return Err(AllocError);
    }
    Ok(found)
}

/// Collects the blocks and names of a script.
fn find_script<'a, A: Allocator>(found: &mut SourceMap<'a>, flow: &'a Flow<A>)
    ensures { Gains found.old found.new (roots flow.entry.now) (inner flow.entry.now) ((in_block flow.entry.now.body).names ++ functions_names flow.entry.now.functions.items) }
{
    found.add_root(0, BodyKind::Script, 0);
    find_block(found, 0, &flow.body);
    find_functions(found, flow.functions.as_slice());
}

/// Collects the blocks and names of functions.
fn find_functions<'a, A: Allocator>(found: &mut SourceMap<'a>, functions: &'a [Function<A>])
    ensures { Gains found.old found.new (functions_roots 1 functions.entry.now) (functions_inner 1 functions.entry.now) (functions_names functions.entry.now) }
{
    for i in 0..functions.len() {
        find_function(found, i + 1, &functions[i]);
    }
}

/// Collects the blocks and names of the function of a number.
fn find_function<'a, A: Allocator>(
    found: &mut SourceMap<'a>,
    number: usize,
    function: &'a Function<A>,
)
    ensures { Gains found.old found.new (info BodyKind.Function (in_block function.entry.now.body).from number ∷ []) ((in_block function.entry.now.body).blocks number) (in_block function.entry.now.body).names }
{
    found.add_root(function.body.from, BodyKind::Function, number);
    find_block(found, number, &function.body);
}

/// Collects the blocks and names of the statements of a block.
#[cycle(statement)]
fn find_block<'a, A: Allocator>(found: &mut SourceMap<'a>, function: usize, block: &'a Block<A>)
    ensures { Gains found.old found.new [] ((in_block block.entry.now).blocks function) (in_block block.entry.now).names }
{
    find_statements(found, function, &block.statements);
}

/// Collects the blocks and names of statements.
#[cycle(statement)]
fn find_statements<'a, A: Allocator>(
    found: &mut SourceMap<'a>,
    function: usize,
    statements: &'a Vec<Statement<A>, A>,
)
    ensures { Gains found.old found.new [] (blocks_among (map in_statement statements.entry.now.items) function) (names_among (map in_statement statements.entry.now.items)) }
{
    for one in statements {
        find_statement(found, function, one);
    }
}

/// Collects the blocks and names of a statement.
#[cycle(statement)]
fn find_statement<'a, A: Allocator>(
    found: &mut SourceMap<'a>,
    function: usize,
    statement: &'a Statement<A>,
)
    ensures { Gains found.old found.new [] ((in_statement statement.entry.now).blocks function) (in_statement statement.entry.now).names }
{
    find_action(found, function, &statement.action);
}

/// Collects the blocks and names of a block that a statement opens, then the block itself.
#[cycle(statement)]
fn find_opened<'a, A: Allocator>(
    found: &mut SourceMap<'a>,
    function: usize,
    what: BodyKind,
    block: &'a Block<A>,
)
    ensures { Gains found.old found.new [] ((opening what (in_block block.entry.now)).blocks function) (in_block block.entry.now).names }
{
    find_block(found, function, block);
    found.add_inner(block.from, what, function);
}

/// Collects the blocks and names of an action.
#[cycle(statement)]
fn find_action<'a, A: Allocator>(found: &mut SourceMap<'a>, function: usize, action: &'a Action<A>)
    ensures { Gains found.old found.new [] ((in_action action.entry.now).blocks function) (in_action action.entry.now).names }
{
    match action {
        Action::Declare(variable) => name(found, variable),
        Action::When { then, .. } => find_opened(found, function, BodyKind::Then, then),
        Action::Choose { then, other, .. } => {
            find_block(found, function, then);
            find_block(found, function, other);
            found.add_inner(then.from, BodyKind::Then, function);
            found.add_inner(other.from, BodyKind::Else, function);
        }
        Action::Range {
            value,
            turn,
            body,
            ..
        } => find_loop(found, function, value, turn, body),
        Action::Each {
            value,
            key,
            body,
            ..
        } => find_loop(found, function, value, key, body),
        Action::Wait { content, .. } => find_opened(found, function, BodyKind::Wait, content),
        Action::Call { .. }
        | Action::Assign { .. }
        | Action::Fill { .. }
        | Action::Insert { .. }
        | Action::Print { .. }
        | Action::Assert { .. } => {}
    }
}

/// Collects the blocks and names of a loop.
#[cycle(statement)]
fn find_loop<'a, A: Allocator>(
    found: &mut SourceMap<'a>,
    function: usize,
    value: &'a Variable<A>,
    turn: &'a Option<Variable<A>>,
    body: &'a Block<A>,
)
    ensures { Gains found.old found.new [] ((looping (named value.entry.now) (option_map named turn.entry.now) (in_block body.entry.now)).blocks function)
        (looping (named value.entry.now) (option_map named turn.entry.now) (in_block body.entry.now)).names }
{
    name(found, value);
    if let Some(variable) = turn {
        name(found, variable);
    }
    find_opened(found, function, BodyKind::Loop, body);
}

/// Records the name of a variable.
fn name<'a, A: Allocator>(found: &mut SourceMap<'a>, variable: &'a Variable<A>)
    ensures { Gains found.old found.new [] [] (named variable.entry.now ∷ []) }
{
    match add_name(&mut found.names, variable.node, variable.name.as_slice()) {
        Ok(()) => {}
        Err(_) => found.lacks = true,
    }
}

/// Stores a name at the index of its node. Missing names before it are filled with empty ones.
fn add_name<'a>(names: &mut Vec<&'a [u8]>, node: u32, name: &'a [u8]) -> Result<(), AllocError>
    ensures { OnOk result ((n : ℕ) → name_in names.new.items n ≡ cond (nat_eq node n) name.entry.now (name_in names.old.items n)) }
{
    let place = node as usize;
    for _lacking in names.len()..place {
        names.push(&[])?;
    }
    if place < names.len() {
        names[place] = name;
    } else {
        names.push(name)?;
    }
    Ok(())
}
