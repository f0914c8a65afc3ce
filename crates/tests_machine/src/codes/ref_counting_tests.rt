//! Rights of a function that calls itself: `(int B[]) f(int n) { B = f(n); } int A[]; A = f(0);`.
ghost use Rattle.std.specs.Prelude.{◌≡◌, ◌<◌, ◌∷◌, [], ◌^◌, pos, IfOk, length};
ghost use Rattle.task_code.specs.Code.{Call};
ghost use Rattle.task_code.specs.View.{argument_view, entry_view, name_view};
ghost use Rattle.ref_counting.specs.Rights.{HasMarks};

use crate::asserts::is_equal;
use ref_counting::code_tables::CodeTables;
use ref_counting::entry_name::EntryName;
use ref_counting::rights::rights;
use std::alloc::{AllocError, Global};
use std::test::Fail;
use task_code::code::{Body, Opener};
use task_code::entry::{Act, Argument, Entry, Name, Owned, Variable};
use values::value::Scalar;

/// The call at an offset, with an input and an output.
fn call(alloc: Global, offset: usize, input: Argument, output: Name) -> Result<Entry, AllocError>
    ensures { IfOk result (λ e. entry_view e ≡ record {
      node = 0;
      at = offset;
      offset = offset;
      priority = pos 0;
      needs = [];
      act = Call 1 (argument_view input ∷ []) (name_view output ∷ []);
      reads = [];
      writes = [];
    }) }
{
    let mut inputs = Vec::new(alloc);
    inputs.push(input)?;
    let mut outputs = Vec::new(alloc);
    outputs.push(output)?;
    Ok(Entry {
        node: 0,
        at: offset,
        offset,
        priority: 0,
        needs: Vec::new(alloc),
        act: Act::Call {
            body: 1,
            inputs,
            outputs,
        },
        reads: Vec::new(alloc),
        writes: Vec::new(alloc),
    })
}

/// The array of a node.
fn array(node: u32) -> Name {
    Name {
        up: 0,
        owned: Owned::Local(Variable { node, array: true }),
    }
}

/// A parameter of the function.
fn parameter(place: usize, array: bool) -> Name {
    Name {
        up: 0,
        owned: Owned::Parameter(place, array),
    }
}

/// The script's block, which makes the array.
fn main_body(alloc: Global) -> Result<Body, AllocError> {
    let made = Variable {
        node: 1,
        array: true,
    };
    let makes = Vec::from_array(alloc, [made])?;
    Ok(Body {
        opener: Opener::ByMain,
        makes,
        entries: Vec::from_array(alloc, [0])?,
    })
}

/// The block of the function.
fn function_body(alloc: Global) -> Result<Body, AllocError> {
    let entries = Vec::from_array(alloc, [1])?;
    Ok(Body {
        opener: Opener::ByCalls,
        makes: Vec::new(alloc),
        entries,
    })
}

/// The code of that script.
fn calls_itself(alloc: Global) -> Result<CodeTables, AllocError>
    ensures marks { IfOk result (λ code. HasMarks code) }
    ensures entries { IfOk result (λ code. length code.entries < 2 ^ 32) }
    ensures bodies { IfOk result (λ code. length code.bodies < 2 ^ 32) }
{
    let mut entries = Vec::new(alloc);
    let zero = Argument::Fixed(Scalar::Number(0));
    entries.push(call(alloc, 10, zero, array(1))?)?;
    let same = Argument::Named(parameter(0, false));
    entries.push(call(alloc, 20, same, parameter(1, true))?)?;
    let mut bodies = Vec::new(alloc);
    bodies.push(main_body(alloc)?)?;
    bodies.push(function_body(alloc)?)?;
    Ok(CodeTables::new(bodies, entries))
}

#[test]
fn a_call_may_write_its_outputs(rt: HostRuntime) -> Result<(), Fail> {
    let alloc = rt.alloc();
    let code = calls_itself(alloc)?;
    let found = rights(alloc, &code)?;
    is_equal(&rt, found.writes.len(), 2);
    assert!(rt; found.writes.contains(&EntryName::new(0, array(1))));
    assert!(rt;
        found
            .writes
            .contains(&EntryName::new(1, parameter(1, true)))
    );
    Ok(())
}

#[test]
fn a_literal_is_no_datum_to_read(rt: HostRuntime) -> Result<(), Fail> {
    let alloc = rt.alloc();
    let code = calls_itself(alloc)?;
    let found = rights(alloc, &code)?;
    is_equal(&rt, found.reads.len(), 0);
    Ok(())
}
