//! The bodies of code in the order of a listing, and the place of each in the script.

use flow::script::{Flow, Function};
use flow::statement::{Action, Statement};
use flow_index::site::StatementForm;
use flow_index::statement_index::StatementIndex;
use std::alloc::{AllocError, Allocator, Global};
use task_code::code::{Code, Opener};
use task_code::entry::Act;

/// The kind of a block that a statement opens.
#[derive(Clone, Copy, PartialEq, Eq, Debug, Drop)]
pub enum BlockKind {
    Then,
    Else,
    Loop,
    Wait,
}

impl BlockKind {
    /// Returns the kind of the body of this number, which an entry with this act opens. Returns `None` if such an entry
    /// opens no block of its statement.
    fn of(act: &Act, number: u32) -> Option<BlockKind> {
        match act {
            Act::If(_, then, _) if *then == number => Some(BlockKind::Then),
            Act::If(_, _, _) => Some(BlockKind::Else),
            Act::Range(_, _, _, _) | Act::Each(_) => Some(BlockKind::Loop),
            Act::Wait(_, _) => Some(BlockKind::Wait),
            Act::Cell(_) | Act::Read | Act::Call { .. } | Act::Set(_, _) | Act::Fill(_, _) => None,
            Act::Copy(_) | Act::InsertElement(_, _, _) | Act::Print(_) | Act::Assert(_) => None,
        }
    }

    /// Returns the word of a listing.
    pub fn word(self) -> &'static str {
        match self {
            BlockKind::Then => "then",
            BlockKind::Else => "else",
            BlockKind::Loop => "loop",
            BlockKind::Wait => "wait",
        }
    }
}

/// The part of a script that a body is made from.
#[derive(Clone, Copy, PartialEq, Eq, Debug, Drop)]
pub enum BodyOrigin {
    Script,
    /// The function at this position among the functions.
    Function(usize),
    /// A block of the statement at this offset.
    Block(BlockKind, usize),
}

/// A body of code: its number there, the offset of its `{`, and its origin.
#[derive(Clone, Copy, PartialEq, Eq, Debug, Drop)]
pub struct ListedBody {
    pub number: u32,
    pub from: usize,
    pub origin: BodyOrigin,
}

/// The code of a script, the flow that it is emitted from, and an index of the flow's statements.
#[derive(Drop)]
pub struct IndexedCode<'s, A: Allocator> {
    pub flow: &'s Flow<A>,
    pub code: &'s Code,
    statements: StatementIndex<'s, A>,
}

impl<'s, A: Allocator> IndexedCode<'s, A> {
    /// Creates the index. The code has to be that of the flow.
    ///
    /// # Errors
    ///
    /// Returns `AllocError` if an allocation fails.
    pub fn new(
        alloc: Global,
        flow: &'s Flow<A>,
        code: &'s Code,
    ) -> Result<IndexedCode<'s, A>, AllocError> {
        let statements = StatementIndex::of(alloc, flow)?;
        Ok(IndexedCode {
            flow,
            code,
            statements,
        })
    }

    /// Returns the bodies in the order of a listing, which is that of the offsets of their `{`.
    ///
    /// # Errors
    ///
    /// Returns `AllocError` if an allocation fails.
    pub fn bodies(&self, alloc: Global) -> Result<Vec<ListedBody>, AllocError> {
        let mut bodies = Vec::new(alloc);
        self.add_bodies(&mut bodies)?;
        bodies.sort_by(|a, b| a.from.cmp(&b.from))?;
        Ok(bodies)
    }

    /// Appends the bodies in the order of their numbers.
    fn add_bodies(&self, bodies: &mut Vec<ListedBody>) -> Result<(), AllocError> {
        let mut number = 0u32;
        for _ in 0..self.code.body_count() {
            if let Some(body) = self.body(number) {
                bodies.push(body)?;
            }
            number = number.saturating_add(1);
        }
        Ok(())
    }

    /// Returns the function at a position among the functions.
    pub fn function(&self, position: usize) -> Option<&'s Function<A>> {
        self.flow.functions.get(position)
    }

    /// Returns the body of this number.
    fn body(&self, number: u32) -> Option<ListedBody> {
        match self.code.body(number)?.opener {
            Opener::ByMain => Some(ListedBody {
                number,
                from: 0,
                origin: BodyOrigin::Script,
            }),
            Opener::ByCalls => self.function_body(number),
            Opener::ByWait(entry) | Opener::ByStep(entry) => {
                let opener = self.code.entry(entry)?;
                let kind = BlockKind::of(&opener.act, number)?;
                Some(ListedBody {
                    number,
                    from: self.block_start(opener.at, kind),
                    origin: BodyOrigin::Block(kind, opener.at),
                })
            }
        }
    }

    /// Returns the body of a function. In code the bodies of functions follow the script's own.
    fn function_body(&self, number: u32) -> Option<ListedBody> {
        let position = (number as usize).checked_sub(1)?;
        let function = self.function(position)?;
        Some(ListedBody {
            number,
            from: function.body.from,
            origin: BodyOrigin::Function(position),
        })
    }

    /// Returns the offset of the `{` of a block of the statement at an offset.
    fn block_start(&self, at: usize, kind: BlockKind) -> usize {
        match self.statements.at(at) {
            None => at,
            Some(site) => match &site.form {
                StatementForm::Whole(statement) => start_in(statement, kind),
                StatementForm::Inner(_, _, content) => content.from,
            },
        }
    }
}

/// Returns the offset of the `{` of a block of this statement.
fn start_in<A: Allocator>(statement: &Statement<A>, kind: BlockKind) -> usize {
    match &statement.action {
        Action::When { then, .. } => then.from,
        Action::Choose { then, other, .. } => match kind {
            BlockKind::Else => other.from,
            BlockKind::Then | BlockKind::Loop | BlockKind::Wait => then.from,
        },
        Action::Range { body, .. } => body.from,
        Action::Each { body, .. } => body.from,
        Action::Wait { content, .. } => content.from,
        Action::Declare(_) | Action::Call { .. } | Action::Assign { .. } => statement.at,
        Action::Fill { .. } | Action::Insert { .. } => statement.at,
        Action::Print { .. } | Action::Assert { .. } => statement.at,
    }
}
