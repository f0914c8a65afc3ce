//! Construction of the bodies of blocks.
ghost use Rattle.std.specs.Prelude.{◌≡◌, ◌∷◌, ◌++◌, [], map, OnOk};
ghost use Rattle.task_code.specs.View.{body_view, opener_view};
ghost use Rattle.emit.specs.Bodies.{opened_by};

use emit_statements::block_builder::BlockBuilder;
use std::alloc::{AllocError, Global};
use task_code::code::{Body, Opener};

/// Creates the builder of an empty block.
pub fn empty(alloc: Global) -> BlockBuilder
    ensures makes { result.makes.items ≡ [] }
    ensures entries { result.entries.items ≡ [] }
{
    BlockBuilder {
        makes: Vec::new(alloc),
        entries: Vec::new(alloc),
    }
}

/// Creates the body of a finished block with this opener.
pub fn body(filling: BlockBuilder, opener: Opener) -> Body
    ensures { body_view result ≡ opened_by (opener_view opener) filling }
{
    Body {
        opener,
        makes: filling.makes,
        entries: filling.entries,
    }
}

/// Appends the body of a finished block with this opener.
pub fn add_body(
    bodies: &mut Vec<Body>,
    opener: Opener,
    filling: BlockBuilder,
) -> Result<(), AllocError>
    ensures { OnOk result (map body_view bodies.new.items ≡ map body_view bodies.old.items ++ opened_by (opener_view opener) filling ∷ []) }
{
    bodies.push(body(filling, opener))?;
    Ok(())
}
