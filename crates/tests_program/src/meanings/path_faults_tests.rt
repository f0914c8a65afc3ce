//! Faults that a round adds of a live statement, in the script's own instance and where the path is as long as can be.

use crate::asserts::{boxed, holds, is_equal, only};
use flow::name::{Name, NameBinding};
use language::tree::{Keys, Shape};
use meaning_facts::fact_base::FactBase;
use meaning_facts::facts::{Fact, Write};
use meaning_facts::instances::InstanceBindings;
use meaning_round::faults::{add_deep, add_deep_items, add_fault};
use meaning_round::site::LiveStatement;
use paths::{FaultKind, Step};
use std::alloc::Global;
use std::process::Abort;
use values::key::Key;
use values::limits::MAX_PATH_STEPS;
use values::value::Scalar;

/// The node of an array.
const ARRAY: u32 = 2;

/// A statement of an instance, at 40, by its node.
fn statement(instance: usize) -> LiveStatement {
    LiveStatement {
        instance,
        at: 40,
        node: 7,
    }
}

/// Nothing is learned, in a box.
fn nothing(rt: &impl Abort, alloc: Global) -> Box<FactBase> {
    let fact_base = FactBase::new(alloc).expect(rt, "memory");
    boxed(rt, alloc, fact_base)
}

/// Opens a block in an instance, and says which instance that is.
fn opened(rt: &impl Abort, alloc: Global, fact_base: &mut FactBase, instance: usize) -> usize {
    let step = Step {
        offset: 40,
        key: Key::Number(0),
    };
    fact_base
        .instances
        .open(alloc, instance, step, InstanceBindings::none(alloc))
        .expect(rt, "memory")
}

/// Opens a block in each block, until no path fits after the last, and returns that one.
fn open_all(rt: &impl Abort, alloc: Global, fact_base: &mut FactBase) -> usize {
    let mut last = 0;
    for _ in 0..MAX_PATH_STEPS {
        last = opened(rt, alloc, fact_base, last);
    }
    last
}

/// It is one fault, of this kind, at a node of the statement.
fn is_fault(rt: &impl Abort, news: &Vec<Fact>, kind: FaultKind, site: LiveStatement, node: u32) {
    match only(rt, news) {
        Fact::Fault(fault) => {
            is_equal(rt, fault.kind, kind);
            is_equal(rt, fault.at, site.at);
            is_equal(rt, fault.place, site.place(node));
        }
        _ => holds(rt, false),
    }
}

#[test]
fn a_fault_is_told(rt: HostRuntime) {
    let fact_base = nothing(&rt, rt.alloc());
    let site = statement(0);
    let mut news = Vec::new(rt.alloc());
    add_fault(&fact_base, site, FaultKind::Overflow, 9, &mut news).expect(&rt, "memory");
    is_fault(&rt, &news, FaultKind::Overflow, site, 9);
}

/// The faults of a statement with a path that is too long, or not.
fn told(rt: &impl Abort, alloc: Global, fact_base: &FactBase, site: LiveStatement) -> Vec<Fact> {
    let mut news = Vec::new(alloc);
    add_deep(fact_base, site, &mut news).expect(rt, "memory");
    news
}

#[test]
fn a_path_is_too_long(rt: HostRuntime) {
    let mut fact_base = nothing(&rt, rt.alloc());
    let site = statement(open_all(&rt, rt.alloc(), &mut fact_base));
    holds(
        &rt,
        told(&rt, rt.alloc(), &fact_base, statement(0)).is_empty(),
    );
    let news = told(&rt, rt.alloc(), &fact_base, site);
    is_fault(&rt, &news, FaultKind::TooDeep, site, site.node);
}

/// The array of the statement's instance has an element, which the statement wrote.
fn write_element(rt: &impl Abort, alloc: Global, fact_base: &mut FactBase, site: LiveStatement) {
    let write = Write {
        key: Key::Number(3),
        writer: site.own_place(),
        value: Scalar::Number(5),
    };
    let fact = Fact::Element(site.place(ARRAY), write);
    fact_base.facts.add(alloc, fact).expect(rt, "memory");
}

/// The faults of a statement for the elements of the array.
fn told_of_items(
    rt: &impl Abort,
    alloc: Global,
    fact_base: &FactBase,
    site: LiveStatement,
) -> Vec<Fact> {
    let name = Name {
        up: 0,
        what: NameBinding::Local(ARRAY),
        shape: Shape::Array(Keys::Numbers),
    };
    let mut news = Vec::new(alloc);
    add_deep_items(fact_base, alloc, site, name, &mut news).expect(rt, "memory");
    news
}

#[test]
fn a_path_is_too_long_for_elements(rt: HostRuntime) {
    let mut fact_base = nothing(&rt, rt.alloc());
    let last = open_all(&rt, rt.alloc(), &mut fact_base);
    let site = statement(last);
    write_element(&rt, rt.alloc(), &mut fact_base, site);
    holds(
        &rt,
        told_of_items(&rt, rt.alloc(), &fact_base, site).is_empty(),
    );
    fact_base.closed.insert((last, ARRAY)).expect(&rt, "memory");
    let news = told_of_items(&rt, rt.alloc(), &fact_base, site);
    is_fault(&rt, &news, FaultKind::TooDeep, site, site.node);
}
