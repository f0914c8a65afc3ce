//! Translation of the names of a body into the names of the entry that opens it.
ghost use Rattle.std.specs.Prelude.{◌≡◌, ℕ, ◌<◌, ◌++◌, Some, suc, zero, map, length};
ghost use Rattle.task_code.specs.Code as pure;
ghost use Rattle.task_code.specs.Code.{Calling, InPlace, Named, Through, argument_in, arguments, call_at, entry};
ghost use Rattle.task_code.specs.View.{act_view, argument_view, name_view};
ghost use Rattle.task_code.specs.Whole.{Seen};
ghost use Rattle.ref_counting.specs.Makes.{AreMade};
ghost use Rattle.ref_counting.specs.Openings.{way_of};
ghost use Rattle.ref_counting.specs.Passing.{Answers, Hands, Outlives, Sees};
ghost use Rattle.ref_counting.specs.Rights.{Opens};

use crate::code_tables::CodeTables;
use crate::declarations::{DeclaredIn, declares};
use crate::openings::{BodyOpening, OpenKind};
use indexmap::IndexSet;
use task_code::entry::{Act, Argument, Name, Owned};

/// Returns the name of an input argument, if it is an array or a scalar as requested.
fn input(argument: &Argument, array: bool) -> Option<Name>
    ensures { Answers result (Hands (argument_view argument.now) array) }
{
    match argument {
        Argument::Fixed(_) => None,
        Argument::Named(name) => output(*name, array),
    }
}

/// Returns the name, if it is an array or a scalar as requested.
fn output(name: Name, array: bool) -> Option<Name>
    ensures { Answers result (Hands (Named (name_view name)) array) }
{
    let is_array = match name.owned {
        Owned::Local(variable) => variable.array,
        Owned::Parameter(_, array) => array,
    };
    if is_array == array { Some(name) } else { None }
}

/// Returns the name of the output at this index, if it is an array or a scalar as requested.
fn output_at(outputs: &Vec<Name>, place: usize, array: bool) -> Option<Name>
    ensures { Answers result (λ r. argument_in (map Named (map name_view outputs.now.items)) place array ≡ Some (Named r)) }
{
    match outputs.get(place) {
        None => None,
        Some(found) => output(*found, array),
    }
}

/// Returns the name of the argument at this index, inputs first, if it is an array or a scalar as requested.
fn argument_at(
    inputs: &Vec<Argument>,
    outputs: &Vec<Name>,
    place: usize,
    array: bool,
) -> Option<Name>
    ensures { Answers result (λ r. argument_in (map argument_view inputs.now.items ++ map Named (map name_view outputs.now.items)) place
        array ≡ Some (Named r)) }
{
    match inputs.get(place) {
        None => output_at(outputs, place - inputs.len(), array),
        Some(found) => input(found, array),
    }
}

/// Returns the name that a call passes for this parameter, if it passes one.
fn argument(act: &Act, place: usize, array: bool) -> Option<Name>
    ensures { Answers result (λ r. argument_in (arguments (act_view act.now)) place array ≡ Some (Named r)) }
{
    match act {
        Act::Call {
            inputs,
            outputs,
            ..
        } => argument_at(inputs, outputs, place, array),
        Act::Cell(_)
        | Act::Read
        | Act::Set(_, _)
        | Act::Fill(_, _)
        | Act::Copy(_)
        | Act::InsertElement(_, _, _)
        | Act::Print(_)
        | Act::Assert(_)
        | Act::If(_, _, _)
        | Act::Range(_, _, _, _)
        | Act::Each(_)
        | Act::Wait(_, _) => None,
    }
}

/// Translates a name of the body of a function into a name of the call. Only parameters have one.
fn calling(code: &CodeTables, call: u32, name: Name) -> Option<Name>
    requires { call_at code.now (entry code.now call).offset ≡ call }
    ensures { Answers result (Seen code.now (entry code.now call).offset Calling (name_view name)) }
{
    match name.owned {
        Owned::Local(_) => None,
        Owned::Parameter(place, array) => match code.entry(call) {
            None => None,
            Some(found) => {
                if name.up == 0 {
                    argument(&found.act, place, array)
                } else {
                    None
                }
            }
        },
    }
}

/// Translates a name of a body opened by a step into a name of the opening entry. Names of the body's own have none.
fn through(name: Name) -> Option<Name>
    ensures { Answers result (λ r. name_view name ≡ record { up = suc r.up; owned = r.owned }) }
{
    if name.up == 0 {
        return None;
    }
    Some(Name {
        up: name.up - 1,
        owned: name.owned,
    })
}

/// Returns a name of the body of a `wait` unchanged, unless the body declares it.
fn in_place(made: &IndexSet<DeclaredIn>, body: u32, name: Name) -> Option<Name>
    ensures { Answers result (Outlives made.now.keys body (name_view name)) }
{
    if name.up > 0 {
        return Some(name);
    }
    match name.owned {
        Owned::Parameter(_, _) => Some(name),
        Owned::Local(variable) => {
            if declares(made, body, variable) {
                None
            } else {
                Some(name)
            }
        }
    }
}

/// Translates a name of a body into the name that the opening entry has for it, if the body does not declare it.
pub fn outward(
    code: &CodeTables,
    made: &IndexSet<DeclaredIn>,
    opening: BodyOpening,
    body: u32,
    name: Name,
) -> Option<Name>
    requires made { AreMade code.now made.now.keys }
    requires body { body < length code.now.bodies }
    requires opens { Opens code.now opening body }
    requires marks { way_of opening.way ≡ Calling → call_at code.now (entry code.now opening.entry).offset ≡ opening.entry }
    ensures { Answers result (Sees code.now opening.entry (way_of opening.way) body (name_view name)) }
{
    match opening.way {
        OpenKind::InPlace => in_place(made, body, name),
        OpenKind::Through => through(name),
        OpenKind::Calling => calling(code, opening.entry, name),
    }
}
