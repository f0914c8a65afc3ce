//! Derivation of new facts from the cells of a live statement.
ghost use Rattle.std.specs.Prelude.{◌≡◌, ◌++◌, ◌∷◌, [], IfOk, OnOk};
ghost use Rattle.flow.specs.View.{cell_view, outer_view, part_view, parts_view};
ghost use Rattle.language.specs.Parts.{part_cells};
ghost use Rattle.meaning_invariants.specs.Held.{StayInside};
ghost use Rattle.meaning_round.specs.Viewed.{facts_view};
ghost use Rattle.meaning_round.specs.Told.{cell_news, cells_news, outers_news, comes_at};

use crate::faults::add_fault;
use crate::site::LiveStatement;
use flow::cell::{Cell, CellPart, OuterCell};
use meaning_facts::fact_base::FactBase;
use meaning_facts::facts::Fact;
use std::alloc::{AllocError, Allocator, Global};
use values::value::Value;

/// Returns the value that an outermost cell has after the round. Appends the new facts of the cell and of its parts.
pub(crate) fn outer_value_after<A: Allocator>(
    fact_base: &FactBase,
    alloc: Global,
    site: LiveStatement,
    outer: &OuterCell<A>,
    news: &mut Vec<Fact>,
) -> Result<Option<Value>, AllocError>
    ensures value { IfOk result (λ v. v ≡ comes_at fact_base.now site (outer_view outer.now).cell) }
    ensures told { OnOk result (facts_view fact_base.now.instances.all.items news.new.items
        ≡ facts_view fact_base.now.instances.all.items news.old.items
        ++ outers_news fact_base.now site (outer_view outer.now ∷ [])) }
    ensures inside { OnOk result (StayInside fact_base.now.instances.all.items site.instance news.old.items news.new.items) }
{
    add_parts(fact_base, alloc, site, &outer.parts, news)?;
    cell_value_after(fact_base, alloc, site, &outer.cell, news)
}

/// Appends the new facts of the cells among these parts.
pub(crate) fn add_parts<A: Allocator>(
    fact_base: &FactBase,
    alloc: Global,
    site: LiveStatement,
    parts: &Vec<CellPart<A>, A>,
    news: &mut Vec<Fact>,
) -> Result<(), AllocError>
    ensures told { OnOk result (facts_view fact_base.now.instances.all.items news.new.items
        ≡ facts_view fact_base.now.instances.all.items news.old.items ++ cells_news fact_base.now site (part_cells (parts_view parts.now.items))) }
    ensures inside { OnOk result (StayInside fact_base.now.instances.all.items site.instance news.old.items news.new.items) }
{
    for part in parts {
        add_part(fact_base, alloc, site, part, news)?;
    }
    Ok(())
}

/// Appends the new facts of a part that is a cell. A part that is a call has none.
fn add_part<A: Allocator>(
    fact_base: &FactBase,
    alloc: Global,
    site: LiveStatement,
    part: &CellPart<A>,
    news: &mut Vec<Fact>,
) -> Result<(), AllocError>
    ensures told { OnOk result (facts_view fact_base.now.instances.all.items news.new.items
        ≡ facts_view fact_base.now.instances.all.items news.old.items ++ cells_news fact_base.now site (part_cells (part_view part.now ∷ []))) }
    ensures inside { OnOk result (StayInside fact_base.now.instances.all.items site.instance news.old.items news.new.items) }
{
    if let CellPart::Inner(cell) = part {
        cell_value_after(fact_base, alloc, site, cell, news)?;
    }
    Ok(())
}

/// Returns the value that a cell has after the round. Appends its new value or its fault.
fn cell_value_after<A: Allocator>(
    fact_base: &FactBase,
    alloc: Global,
    site: LiveStatement,
    cell: &Cell<A>,
    news: &mut Vec<Fact>,
) -> Result<Option<Value>, AllocError>
    ensures value { IfOk result (λ v. v ≡ comes_at fact_base.now site (cell_view cell.now)) }
    ensures told { OnOk result (facts_view fact_base.now.instances.all.items news.new.items
        ≡ facts_view fact_base.now.instances.all.items news.old.items ++ cell_news fact_base.now site (cell_view cell.now)) }
    ensures inside { OnOk result (StayInside fact_base.now.instances.all.items site.instance news.old.items news.new.items) }
{
    let place = site.place(cell.node);
    if let Some(value) = fact_base.facts.value(place) {
        return Ok(Some(value.share()?));
    }
    match fact_base.outcome(alloc, site.instance, &cell.form)? {
        Some(Ok(value)) => {
            news.push(Fact::Value(place, value.share()?))?;
            Ok(Some(value))
        }
        Some(Err(kind)) => {
            add_fault(fact_base, site, kind, cell.node, news)?;
            Ok(None)
        }
        None => Ok(None),
    }
}
