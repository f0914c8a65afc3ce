//! What the items of `boolean x = true; assert(x, "");` do when they end.

use crate::asserts::is_equal;
use crate::worlds::{Fixture, opened_script};
use board_effects::effect::{Effect, EndingItem};
use board_effects::script_effect;
use board_work::outcome::Outcome;
use paths::FaultKind;
use std::alloc::Global;
use std::process::Abort;
use values::fault::OpFault;
use values::value::{Scalar, Value};

/// The effect of the entry's item with this outcome.
fn effect(
    rt: &impl Abort,
    alloc: Global,
    data_state: &Fixture,
    number: u32,
    outcome: Outcome,
) -> Effect {
    let program = &data_state.program;
    let ended = EndingItem {
        alloc,
        view: data_state.view(),
        number,
        entry: program.code().entry(number).expect(rt, "an entry"),
        table: program.entry(number).expect(rt, "an entry"),
        chunk: 0,
    };
    ended.effect(outcome).expect(rt, "memory")
}

/// It opens one instance of the script's block, and goes on with no loop.
fn opens_one(rt: &impl Abort, effect: &Effect) {
    match effect {
        Effect::Opens(openings) => {
            is_equal(rt, (openings.body, openings.list.len()), (0, 1));
            assert!(rt; !openings.goes_on);
        }
        _ => assert!(rt; false),
    }
}

#[test]
fn the_script_opens_its_block(rt: HostRuntime) {
    let data_state = opened_script(&rt, rt.alloc());
    let opens = script_effect(rt.alloc(), &data_state.program).expect(&rt, "memory");
    opens_one(&rt, &opens);
}

/// The outcome `true` of a leaf.
fn truth() -> Outcome {
    Outcome::Leaf(Ok(Value::from_truth(true)))
}

/// The item of the assignment stores true into the first datum.
fn set_stores(rt: &impl Abort, alloc: Global, data_state: &Fixture) {
    let stores = effect(rt, alloc, data_state, 0, truth());
    assert!(rt; matches!(stores, Effect::Stores(Some(0), Scalar::Truth(true))));
}

/// The item of what is asserted does nothing.
fn assert_passes(rt: &impl Abort, alloc: Global, data_state: &Fixture) {
    let passes = effect(rt, alloc, data_state, 1, truth());
    assert!(rt; matches!(passes, Effect::Passes));
}

#[test]
fn an_assignment_stores(rt: HostRuntime) {
    let data_state = opened_script(&rt, rt.alloc());
    set_stores(&rt, rt.alloc(), &data_state);
    assert_passes(&rt, rt.alloc(), &data_state);
}

/// It fails with what was asserted, at its statement.
fn fails_at_its_statement(rt: &impl Abort, effect: &Effect) {
    match effect {
        Effect::Fails(fault) => {
            let kind = FaultKind::AssertFailed;
            is_equal(rt, (fault.kind, fault.statement.at), (kind, 18));
            assert!(rt; fault.statement.path.is_empty());
        }
        _ => assert!(rt; false),
    }
}

#[test]
fn a_fault_has_its_statement(rt: HostRuntime) {
    let data_state = opened_script(&rt, rt.alloc());
    let failed = Outcome::Leaf(Err(OpFault::AssertFailed));
    let fails = effect(&rt, rt.alloc(), &data_state, 1, failed);
    fails_at_its_statement(&rt, &fails);
}
