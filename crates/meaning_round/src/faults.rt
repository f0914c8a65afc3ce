//! Derivation of the faults of a live statement, without those that are known.
ghost use Rattle.std.specs.Prelude.{◌≡◌, ◌++◌, OnOk, true};
ghost use Rattle.flow.specs.View.{name_view};
ghost use Rattle.meaning_facts.specs.Kinds.{kind_view};
ghost use Rattle.meaning_invariants.specs.Held.{StayInside};
ghost use Rattle.meaning_round.specs.Viewed.{facts_view};
ghost use Rattle.meaning_round.specs.Faults.{sight_at, fault_news, deep_news, each_news};

use crate::site::LiveStatement;
use flow::name::Name;
use meaning_facts::fact_base::FactBase;
use meaning_facts::facts::{Fact, FaultFact};
use paths::FaultKind;
use std::alloc::{AllocError, Global};

/// Appends a fault at a node of a statement, unless it is known. The only error is an allocation failure.
pub fn add_fault(
    fact_base: &FactBase,
    site: LiveStatement,
    kind: FaultKind,
    node: u32,
    news: &mut Vec<Fact>,
) -> Result<(), AllocError>
    ensures told { OnOk result (facts_view fact_base.now.instances.all.items news.new.items
        ≡ facts_view fact_base.now.instances.all.items news.old.items ++ fault_news fact_base.now site (kind_view kind) node) }
    ensures inside { OnOk result (StayInside fact_base.now.instances.all.items site.instance news.old.items news.new.items) }
{
    let fault = FaultFact {
        kind,
        at: site.at,
        place: site.place(node),
    };
    if !fact_base.facts.faults.contains(&fault) {
        news.push(Fact::Fault(fault))?;
    }
    Ok(())
}

/// Appends the fault `TooDeep` if the path of the statement has the maximum length. The only error is an allocation
/// failure.
pub fn add_deep(
    fact_base: &FactBase,
    site: LiveStatement,
    news: &mut Vec<Fact>,
) -> Result<(), AllocError>
    ensures told { OnOk result (facts_view fact_base.now.instances.all.items news.new.items
        ≡ facts_view fact_base.now.instances.all.items news.old.items ++ deep_news fact_base.now site true) }
    ensures inside { OnOk result (StayInside fact_base.now.instances.all.items site.instance news.old.items news.new.items) }
{
    if fact_base.instances.is_deep(site.instance) {
        add_fault(fact_base, site, FaultKind::TooDeep, site.node, news)?;
    }
    Ok(())
}

/// Appends the fault `TooDeep` for a loop over a closed array with elements, if the path has the maximum length. The
/// only error is an allocation failure.
pub fn add_deep_items(
    fact_base: &FactBase,
    alloc: Global,
    site: LiveStatement,
    array: Name,
    news: &mut Vec<Fact>,
) -> Result<(), AllocError>
    ensures told { OnOk result (facts_view fact_base.now.instances.all.items news.new.items
        ≡ facts_view fact_base.now.instances.all.items news.old.items
        ++ each_news fact_base.now site ((sight_at fact_base.now site).closed (name_view array)) ((sight_at fact_base.now site).elements (name_view array))) }
    ensures inside { OnOk result (StayInside fact_base.now.instances.all.items site.instance news.old.items news.new.items) }
{
    let place = fact_base.instances.place(site.instance, array);
    if !fact_base.is_closed(place) || !fact_base.instances.is_deep(site.instance) {
        return Ok(());
    }
    if fact_base.facts.elements(alloc, place)?.is_empty() {
        return Ok(());
    }
    add_deep(fact_base, site, news)
}
