//! The program of `boolean x = true; assert(x, "");`: the data of its names, and the tables of its entries and its body.
ghost use Rattle.std.specs.Prelude.{◌≡◌};
ghost use Rattle.board_program.specs.Program.{IsLeads};

use crate::asserts::is_equal;
use crate::worlds::FIRST;
use board_program::lexical_address::NameResolver;
use board_program::program::{LocalVariable, Program, ResolvedNeed};
use board_program::variable_index::places_among;
use std::alloc::Global;
use std::process::Abort;
use task_code::code::Code;
use task_code::entry::{Name, Need, Owned, Variable};
use tests_codes::codes::{NAME, X, asserted};
use values::datum_kind::DatumKind;
use values::key::Key;
use work_queue::entry::Kind;

/// A variable that the block lacks.
const OTHER: Variable = Variable {
    node: 9,
    array: false,
};

fn code_of(rt: &impl Abort, alloc: Global) -> Code {
    asserted(alloc, true).expect(rt, "a code")
}

fn program_of(rt: &impl Abort, alloc: Global) -> Box<Program> {
    let program = Program::new(alloc, code_of(rt, alloc)).expect(rt, "memory");
    let program = Box::new(alloc, program).expect(rt, "memory");
    is_equal(rt, program.code().entry_count(), 2);
    program
}

#[test]
fn a_program_is_shared(rt: HostRuntime) {
    let program = program_of(&rt, rt.alloc());
    let other = program.share().expect(&rt, "memory");
    is_equal(
        &rt,
        (other.code().entry_count(), other.most_names()),
        (2, 1),
    );
}

/// The assignment is a leaf that stores into the first slot.
fn set_is_a_leaf(rt: &impl Abort, program: &Program) {
    let set = program.entry(0).expect(rt, "an entry");
    is_equal(rt, (set.kind, set.priority), (Kind::Leaf, 0));
    is_equal(
        rt,
        (set.target, set.value, set.turn),
        (Some(FIRST), None, None),
    );
}

/// The assignment needs nothing, and writes the first slot.
fn set_needs_nothing(rt: &impl Abort, program: &Program) {
    let set = program.entry(0).expect(rt, "an entry");
    assert!(rt; set.needs.is_empty() && set.reads.is_empty() && set.arguments.is_empty());
    assert!(rt; set.writes.as_slice() == [FIRST].as_slice());
}

#[test]
fn entries_have_their_data(rt: HostRuntime) {
    let program = program_of(&rt, rt.alloc());
    set_is_a_leaf(&rt, &program);
    set_needs_nothing(&rt, &program);
    assert!(rt; program.entry(2).is_none());
}

/// The asserted expression needs the value of the first slot.
fn asserts_wants(rt: &impl Abort, program: &Program) {
    let asserts = program.entry(1).expect(rt, "an entry");
    assert!(rt;
        matches!(
            asserts.needs.as_slice(),
            [ResolvedNeed::Stored(Some(FIRST))]
        )
    );
    assert!(rt; asserts.reads.as_slice() == [FIRST].as_slice());
}

/// An element of the variable is wanted of the first slot, under its key.
fn element_is_wanted(rt: &impl Abort, program: &Program) {
    let wanted = program
        .wanted(0, &Need::AtKey(NAME, Key::Number(7)))
        .expect(rt, "memory");
    assert!(rt; matches!(wanted, ResolvedNeed::AtKey(Some(FIRST), Key::Number(7))));
}

#[test]
fn an_entry_wants_its_needs(rt: HostRuntime) {
    let program = program_of(&rt, rt.alloc());
    asserts_wants(&rt, &program);
    element_is_wanted(&rt, &program);
}

/// The body has one variable of its own, none from outside, and two leaves.
fn body_has_its_holds(rt: &impl Abort, program: &Program) {
    let body = program.body(0).expect(rt, "a body");
    let own = LocalVariable {
        shape: DatumKind::Single,
        reads: 1,
        writes: 1,
    };
    assert!(rt; body.own.as_slice() == [own].as_slice());
    assert!(rt; body.outer.is_empty());
    is_equal(rt, (body.controls, body.leaves), (0, 2));
}

#[test]
fn a_block_has_its_holds(rt: HostRuntime) {
    let program = program_of(&rt, rt.alloc());
    body_has_its_holds(&rt, &program);
    assert!(rt; program.body(1).is_none());
}

/// Where the names of the code lead, which has one body.
fn leads_of(rt: &impl Abort, alloc: Global, code: &Code) -> NameResolver
    ensures { IsLeads code.now result }
{
    assert_eq!(rt; code.body_count(), 1);
    NameResolver::new(alloc, code).expect(rt, "memory")
}

/// Both entries are of the body, and there is no third.
fn entries_have_homes(rt: &impl Abort, leads: &NameResolver) {
    is_equal(
        rt,
        (leads.home(0), leads.home(1), leads.home(2)),
        (Some(0u32), Some(0), None),
    );
}

/// The variable's name leads to its slot, and another's nowhere.
fn names_have_slots(rt: &impl Abort, code: &Code, leads: &NameResolver)
    requires { IsLeads code.now leads.now }
{
    let lost = Name {
        up: 0,
        owned: Owned::Local(OTHER),
    };
    is_equal(
        rt,
        (leads.spot_in(code, 0, NAME), leads.spot_in(code, 0, lost)),
        (Some(FIRST), None),
    );
}

#[test]
fn names_lead_to_their_slots(rt: HostRuntime) {
    let code = code_of(&rt, rt.alloc());
    let leads = leads_of(&rt, rt.alloc(), &code);
    entries_have_homes(&rt, &leads);
    names_have_slots(&rt, &code, &leads);
}

/// The body has a place for its variable, by the variable and by its name.
fn body_has_a_place(rt: &impl Abort, leads: &NameResolver) {
    let places = leads.places(0).expect(rt, "a body");
    is_equal(rt, (places.of(X), places.of(OTHER)), (Some(0), None));
    let further = Name {
        up: 1,
        owned: Owned::Local(X),
    };
    is_equal(
        rt,
        (places.of_name(NAME), places.of_name(further)),
        (Some(0), None),
    );
}

/// The first of equal variables has the place.
fn first_has_the_place(rt: &impl Abort, alloc: Global) {
    let both = places_among(alloc, [OTHER, X, OTHER].as_slice()).expect(rt, "memory");
    is_equal(rt, (both.of(OTHER), both.of(X)), (Some(0), Some(1)));
}

#[test]
fn a_block_has_its_places(rt: HostRuntime) {
    let code = code_of(&rt, rt.alloc());
    let leads = leads_of(&rt, rt.alloc(), &code);
    body_has_a_place(&rt, &leads);
    first_has_the_place(&rt, rt.alloc());
    assert!(rt; leads.places(1).is_none());
}
