//! Hints for recursions that never meet the test that would end them.

use explain_blocked::context::ExplainContext;
use explain_blocked::sites::action_of;
use explain_remedies::hint_text::write_filled;
use explain_text::words::write_number;
use flow::cell::CellForm;
use flow::expression::{Expr, Operation};
use flow::name::{Name, NameBinding};
use flow::statement::Action;
use flow_index::site::Site;
use std::alloc::{AllocError, Allocator};
use values::value::Scalar;

const BELOW: &str = "hint: $ is $ here, and each call takes it further from $: test $ <= $\n";

const ABOVE: &str = "hint: $ is $ here, and each call takes it further from $: test $ >= $\n";

/// The calls of one function that stand around a statement: the instances of the innermost one and of the one around it.
#[derive(Clone, Copy)]
struct NestedCalls {
    function: usize,
    inner: usize,
    outer: usize,
}

/// A test whether an input of a function is equal to a number.
#[derive(Clone, Copy)]
struct EndTest {
    input: Name,
    end: i64,
}

/// Appends a hint for the block that would be too deep in an instance, if an input of the innermost function moves away
/// from a number for which the function tests it. Returns true if it was appended.
pub fn write_missed_end<'t, 'a, A: Allocator>(
    context: &ExplainContext<'t, 'a, A>,
    out: &mut Vec<u8>,
    instance: usize,
) -> Result<bool, AllocError> {
    let Some(calls) = nested_calls(context, instance) else {
        return Ok(false);
    };
    for site in &context.index.sites.all {
        if let Some(test) = end_test(site, calls.function) {
            if write_missed(context, out, calls, test)? {
                return Ok(true);
            }
        }
    }
    Ok(false)
}

/// Returns the innermost two calls of one function around an instance, where the innermost call is one of them.
fn nested_calls<'t, 'a, A: Allocator>(
    context: &ExplainContext<'t, 'a, A>,
    instance: usize,
) -> Option<NestedCalls> {
    let instances = &context.known.fact_base.instances;
    let mut found: Option<(usize, usize)> = None;
    let mut inside = instance;
    for step in instances.path(instance) {
        if let Some(called) = context.index.called_at(step.offset) {
            match found {
                None => found = Some((called, inside)),
                Some((function, inner)) if function == called => {
                    return Some(NestedCalls {
                        function,
                        inner,
                        outer: inside,
                    });
                }
                Some(_) => {}
            }
        }
        inside = instances.all.get(inside)?.parent;
    }
    None
}

/// Returns the test for a number of an input that is the condition of an `if` of a function.
fn end_test<'a, A: Allocator>(site: &Site<'a, A>, function: usize) -> Option<EndTest> {
    if site.function != Some(function) {
        return None;
    }
    let form = match action_of(site)? {
        Action::When { condition, .. } => &condition.cell.form,
        Action::Choose { condition, .. } => &condition.cell.form,
        _ => return None,
    };
    let CellForm::Compute(Expr::Operation(Operation::Equal, operands)) = form else {
        return None;
    };
    match (operands.as_slice().first()?, operands.as_slice().get(1)?) {
        (Expr::Name(name), Expr::Number(end)) => test_of(*name, *end),
        (Expr::Number(end), Expr::Name(name)) => test_of(*name, *end),
        _ => None,
    }
}

/// Returns the test of a name for a number, if the name is an input of the function.
fn test_of(name: Name, end: i64) -> Option<EndTest> {
    match name.what {
        NameBinding::Input(_) => {
            let input = Name {
                up: 0,
                what: name.what,
                shape: name.shape,
            };
            Some(EndTest { input, end })
        }
        _ => None,
    }
}

/// Appends the hint if the input moves away from the number. Returns true if it was appended.
fn write_missed<'t, 'a, A: Allocator>(
    context: &ExplainContext<'t, 'a, A>,
    out: &mut Vec<u8>,
    calls: NestedCalls,
    test: EndTest,
) -> Result<bool, AllocError> {
    let inner = number_in(context, calls.inner, test.input);
    let outer = number_in(context, calls.outer, test.input);
    let (Some(inner), Some(outer)) = (inner, outer) else {
        return Ok(false);
    };
    if inner < test.end && inner < outer {
        write_test(context, out, calls, test, inner, BELOW)
    } else if inner > test.end && inner > outer {
        write_test(context, out, calls, test, inner, ABOVE)
    } else {
        Ok(false)
    }
}

/// Returns the number that an input is in the instance of a call, if it is known.
fn number_in<'t, 'a, A: Allocator>(
    context: &ExplainContext<'t, 'a, A>,
    instance: usize,
    input: Name,
) -> Option<i64> {
    match context.known.fact_base.scalar(instance, input) {
        Some(Scalar::Number(number)) => Some(*number),
        _ => None,
    }
}

fn write_test<'t, 'a, A: Allocator>(
    context: &ExplainContext<'t, 'a, A>,
    out: &mut Vec<u8>,
    calls: NestedCalls,
    test: EndTest,
    inner: i64,
    text: &str,
) -> Result<bool, AllocError> {
    let Some(name) = context.index.name(Some(calls.function), test.input) else {
        return Ok(false);
    };
    let mut value = Vec::new(context.alloc);
    write_number(&mut value, inner)?;
    let mut end = Vec::new(context.alloc);
    write_number(&mut end, test.end)?;
    write_filled(
        out,
        text,
        &[name, value.as_slice(), end.as_slice(), name, end.as_slice()],
    )?;
    Ok(true)
}
