//! The order of the bodies in a listing: by the offsets of their `{`.
ghost use Rattle.std.specs.Prelude.{◌≡◌, ◌<◌, ◌++◌, ◌∷◌, [], ℕ, IfOk, OnOk, Some, cond, length, nat_eq, slice_get, take};
ghost use Rattle.code_listing.specs.declared.source_map.BodyInfo.{BodyInfo};
ghost use Rattle.task_code.specs.Code.{nth};
ghost use Rattle.code_listing.specs.Labels.{infos_of};
ghost use Rattle.code_listing.specs.Order.{ArePlaces, IsOrder, body_positions, position};

use crate::source_map::SourceMap;
use std::alloc::{AllocError, Global};

/// The number of bodies that can be numbered: code numbers its bodies with 32 bits.
const MAX_BODIES: usize = 1 << 32;

/// The number of a body in the code, with the offset of its `{`.
#[derive(Clone, Copy, Debug, Drop)]
pub struct BodyPosition {
    pub from: usize,
    pub body: u32,
}

/// Returns the bodies in the order of their offsets.
///
/// # Errors
///
/// Returns `AllocError` if an allocation fails.
pub fn in_order(alloc: Global, found: &SourceMap<'_>) -> Result<Vec<BodyPosition>, AllocError>
    ensures { IfOk result (λ order. IsOrder (infos_of found.now) order.items) }
{
    let mut positions = Vec::new(alloc);
    add_positions(&mut positions, found)?;
    positions.sort_by_key(|it| it.from)?;
    Ok(positions)
}

/// Appends the position of each body.
fn add_positions(positions: &mut Vec<BodyPosition>, found: &SourceMap<'_>) -> Result<(), AllocError>
    ensures { OnOk result (positions.new.items ≡ positions.old.items ++ body_positions (infos_of found.now)) }
{
    for number in 0..found.count().min(MAX_BODIES) {
        add_position(positions, found, number as u32)?;
    }
    Ok(())
}

/// Appends the position of a body, if there is one.
fn add_position(
    positions: &mut Vec<BodyPosition>,
    found: &SourceMap<'_>,
    body: u32,
) -> Result<(), AllocError>
    ensures { OnOk result ((i : BodyInfo) → slice_get (infos_of found.now) body ≡ Some i → positions.new.items ≡ positions.old.items ++ position i body ∷ []) }
{
    match found.stand(body) {
        None => Ok(()),
        Some(stand) => {
            positions.push(BodyPosition {
                from: stand.from,
                body,
            })?;
            Ok(())
        }
    }
}

/// Returns the place in the listing of each body of the code.
///
/// # Errors
///
/// Returns `AllocError` if an allocation fails.
pub fn places(alloc: Global, positions: &Vec<BodyPosition>) -> Result<Vec<usize>, AllocError>
    ensures { IfOk result (λ places. ArePlaces positions.now.items places.items) }
{
    let mut places = zeros(alloc, positions.len())?;
    for place in 0..positions.len() {
        put_place(&mut places, positions[place].body, place);
    }
    Ok(places)
}

/// Returns a list of `count` zeros.
fn zeros(alloc: Global, count: usize) -> Result<Vec<usize>, AllocError>
    ensures many { IfOk result (λ zeros. length zeros.items ≡ count) }
    ensures each { IfOk result (λ zeros. (b : ℕ) → nth 0 zeros.items b ≡ 0) }
{
    let mut zeros = Vec::new(alloc);
    for _ in 0..count {
        zeros.push(0)?;
    }
    Ok(zeros)
}

/// Stores the place in the listing of a body.
fn put_place(places: &mut Vec<usize>, body: u32, place: usize)
    ensures many { length places.new.items ≡ length places.old.items }
    ensures each { (b : ℕ) → b < length places.old.items → nth 0 places.new.items b ≡ cond (nat_eq body b) place (nth 0 places.old.items b) }
{
    let body = body as usize;
    if body < places.len() {
        places[body] = place;
    }
}
