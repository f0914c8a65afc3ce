//! Hints for misspelled text keys of arrays.

use crate::analysis::reasons::write_name;
use explain_blocked::context::ExplainContext;
use explain_blocked::value_text::write_text;
use explain_hints::nearest::{NearMatch, nearer};
use explain_text::words::write_str;
use flow::cell::CellForm;
use meaning_facts::facts::{FaultFact, Place};
use paths::FaultKind;
use std::alloc::{AllocError, Allocator, Global};
use values::key::Key;
use values::map::Element;
use values::value::{Scalar, Value};

/// Maximum length of a key that is compared with others, in bytes.
const MAX_COMPARED_BYTES: usize = 40;

/// Appends a hint for a missing element whose text key is spelled nearly like a key of the array. Returns true if it
/// was appended.
pub fn write_near_key<'t, 'a, A: Allocator>(
    context: &ExplainContext<'t, 'a, A>,
    out: &mut Vec<u8>,
    fact: FaultFact,
) -> Result<bool, AllocError> {
    let Some(spot) = context.index.cell(fact.place.node) else {
        return Ok(false);
    };
    let CellForm::Read { array, index } = &spot.cell.form else {
        return Ok(false);
    };
    if fact.kind != FaultKind::NoElement {
        return Ok(false);
    }
    let (instance, node) = (fact.place.instance, *index);
    let fact_base = &context.known.fact_base;
    let Some(Value::One(Scalar::Text(wanted))) = fact_base.facts.value(Place { instance, node })
    else {
        return Ok(false);
    };
    let place = fact_base.instances.place(instance, *array);
    let elements = fact_base.facts.elements(context.alloc, place)?;
    let near = nearest_key(context.alloc, wanted.as_bytes(), elements.elements())?;
    let Some(near) = near else {
        return Ok(false);
    };
    write_str(out, "hint: did you mean ")?;
    write_name(context, out, spot.function, *array)?;
    write_str(out, "[")?;
    write_text(out, near.name)?;
    write_str(out, "]?\n")?;
    Ok(true)
}

/// Returns the key that is nearest to a text, or `None` if no key is near enough.
fn nearest_key<'e>(
    alloc: Global,
    wanted: &[u8],
    elements: &'e [Element],
) -> Result<Option<NearMatch<'e>>, AllocError> {
    let mut near = None;
    if wanted.len() > MAX_COMPARED_BYTES {
        return Ok(near);
    }
    for element in elements {
        if let Key::Text(text) = &element.key {
            near = nearer(alloc, wanted, near, text.as_bytes())?;
        }
    }
    Ok(near)
}
