//! Explanations of calls with a wrong number of arguments or outputs.

use crate::explanation::{Explanation, Hint, fill};
use crate::typing::explain_types::defined_at;
use explain_names::lookup::{bytes_at, function_named};
use explain_names::occurrence::DisplayType;
use explain_names::occurrences::mentions_around;
use explain_names::refused_script::RefusedScript;
use explain_searches::calls::{
    ValueConsumer, conversions_behind, count_behind, second_argument, taker_of,
};
use explain_searches::declared::{base_of, rest_of_statement, write_declaration};
use explain_text::words::{write_count, write_str};
use lexer::token::Span;
use std::alloc::{AllocError, Allocator, Global};
use syntax_trees::tree::{Base, Function};

/// Appends a number with its unit, in the plural unless the number is 1.
fn add_count(out: &mut Vec<u8>, count: usize, what: &str) -> Result<(), AllocError> {
    write_count(out, count)?;
    write_str(out, what)?;
    write_str(out, if count == 1 { "" } else { "s" })
}

/// Returns the explanation of a call with a wrong number of arguments or outputs.
pub fn told_of_count<A: Allocator>(
    refused: &RefusedScript<'_, A>,
    at: Span,
) -> Result<Explanation, AllocError> {
    let name = bytes_at(refused.text, at);
    match function_named(name, refused.script) {
        Some(function) => told_of_function(refused, function, at),
        None => told_of_built_in(refused, name, at),
    }
}

/// Returns the explanation of which count of a call is wrong, for a function of the script.
fn told_of_function<A: Allocator>(
    refused: &RefusedScript<'_, A>,
    function: &Function<A>,
    at: Span,
) -> Result<Explanation, AllocError> {
    let name = function.name.text.as_slice();
    let note = Some(defined_at(function));
    let mut told = Explanation::of(refused.alloc, "`$0` ", name, note)?;
    let given = count_behind(refused.text, at.to);
    let mut words = Vec::new(refused.alloc);
    if given != function.inputs.len() {
        write_str(&mut told.sentence, "takes ")?;
        add_count(&mut told.sentence, function.inputs.len(), " argument")?;
        write_str(&mut told.sentence, ", found ")?;
        write_count(&mut told.sentence, given)?;
        write_str(&mut words, "give each input: ")?;
        write_call(&mut words, function)?;
    } else {
        let gives = function.outputs.len();
        let taker = taker_of(refused.alloc, refused.text, at.from)?;
        if gives == 0 {
            write_str(&mut told.sentence, "returns no value")?;
        } else {
            write_str(&mut told.sentence, "returns ")?;
            add_count(&mut told.sentence, gives, " value")?;
        }
        write_taker(&mut told.sentence, taker)?;
        write_taken(&mut words, refused.text, function, taker, at)?;
    }
    Ok(told.with(Some(Hint { words, at: None })))
}

/// Appends what consumes the values of a call.
fn write_taker(out: &mut Vec<u8>, taker: ValueConsumer) -> Result<(), AllocError> {
    match taker {
        ValueConsumer::Nobody => write_str(out, ", which must be assigned"),
        ValueConsumer::One => write_str(out, ", expected 1"),
        ValueConsumer::Names(names) => {
            write_str(out, ", found ")?;
            add_count(out, names, " name")
        }
    }
}

/// Appends a call of a function with the names of its inputs.
fn write_call<A: Allocator>(out: &mut Vec<u8>, function: &Function<A>) -> Result<(), AllocError> {
    out.extend_from_slice(function.name.text.as_slice())?;
    write_str(out, "(")?;
    let mut separator = "";
    for input in &function.inputs {
        write_str(out, separator)?;
        out.extend_from_slice(input.name.text.as_slice())?;
        separator = ", ";
    }
    write_str(out, ")")
}

/// Appends the call at a place with a variable for each of its values.
fn write_taken<A: Allocator>(
    words: &mut Vec<u8>,
    text: &[u8],
    function: &Function<A>,
    taker: ValueConsumer,
    at: Span,
) -> Result<(), AllocError> {
    let gives = function.outputs.len();
    if gives == 0 {
        write_str(words, "call it as a statement: ")?;
        return write_rest(words, text, function, at);
    }
    if gives == 1 && taker == ValueConsumer::Nobody {
        write_str(words, "assign it: ")?;
        for output in &function.outputs {
            let sort = DisplayType {
                base: output.base,
                shape: output.shape,
            };
            write_declaration(words, sort, output.name.text.as_slice())?;
            write_str(words, " = ")?;
        }
        return write_rest(words, text, function, at);
    }
    write_str(words, "assign each of them to a declared variable: (")?;
    let mut separator = "";
    for output in &function.outputs {
        write_str(words, separator)?;
        words.extend_from_slice(output.name.text.as_slice())?;
        separator = ", ";
    }
    write_str(words, ") = ")?;
    write_rest(words, text, function, at)
}

/// Appends the text from the call at a place to the end of its statement, or the call alone if that is long.
fn write_rest<A: Allocator>(
    words: &mut Vec<u8>,
    text: &[u8],
    function: &Function<A>,
    at: Span,
) -> Result<(), AllocError> {
    let call = rest_of_statement(text, at.from);
    if call.is_empty() {
        fill(words, "$0(..);", &[function.name.text.as_slice()])
    } else {
        words.extend_from_slice(call)?;
        Ok(())
    }
}

/// Returns the explanation of which count of a call is wrong, for a built-in function.
fn told_of_built_in<A: Allocator>(
    refused: &RefusedScript<'_, A>,
    name: &[u8],
    at: Span,
) -> Result<Explanation, AllocError> {
    let alloc = refused.alloc;
    let given = count_behind(refused.text, at.to);
    let is_statement = name == b"printf".as_slice() || name == b"assert".as_slice();
    match taker_of(alloc, refused.text, at.from)? {
        ValueConsumer::Nobody if !is_statement && given > 0 => {
            let told = Explanation::of(alloc, "the value of `$0` is not used", name, None)?;
            let is_text = name == b"strcat".as_slice() || name == b"fromint".as_slice();
            let template = if is_text {
                "assign it: string s = $0(..);"
            } else {
                "assign it: int n = $0(..);"
            };
            Ok(told.with(Hint::filled(alloc, template, &[name])?))
        }
        ValueConsumer::One if is_statement => {
            let told = Explanation::of(alloc, "`$0` returns no value", name, None)?;
            let template = "call it as a statement: $0(..);";
            Ok(told.with(Hint::filled(alloc, template, &[name])?))
        }
        ValueConsumer::Names(names) if names != 1 => {
            let mut told = Explanation::of(alloc, "`$0` returns 1 value", name, None)?;
            write_taker(&mut told.sentence, ValueConsumer::Names(names))?;
            Ok(told.with(Hint::plain(alloc, "assign it to one variable")?))
        }
        _ if name == b"printf".as_slice() && given > 0 => told_of_printed(refused, at, given),
        _ => told_of_arguments(alloc, name, given),
    }
}

/// Returns the explanation of a built-in function that is called with this number of arguments.
fn told_of_arguments(alloc: Global, name: &[u8], given: usize) -> Result<Explanation, AllocError> {
    let (takes, example) = if name == b"strcat".as_slice() {
        ("1 string or more", "$0(s, t)")
    } else if name == b"printf".as_slice() {
        ("a format", "$0(\"%i\", n);")
    } else if name == b"assert".as_slice() {
        ("2 arguments", "$0(n > 0, \"n is not positive\");")
    } else if name == b"size".as_slice() {
        ("1 argument", "$0(A)")
    } else if name == b"toint".as_slice() {
        ("1 argument", "$0(s)")
    } else {
        ("1 argument", "$0(n)")
    };
    let mut told = Explanation::of(alloc, "`$0` takes ", name, None)?;
    write_str(&mut told.sentence, takes)?;
    write_str(&mut told.sentence, ", found ")?;
    write_count(&mut told.sentence, given)?;
    let mut words = Vec::from_slice(alloc, b"write ")?;
    fill(&mut words, example, &[name])?;
    Ok(told.with(Some(Hint { words, at: None })))
}

/// Returns the explanation of a `printf` whose format takes another number of values than there are.
fn told_of_printed<A: Allocator>(
    refused: &RefusedScript<'_, A>,
    at: Span,
    given: usize,
) -> Result<Explanation, AllocError> {
    let alloc = refused.alloc;
    let Some(wanted) = conversions_behind(refused.text, at.to) else {
        return told_of_arguments(alloc, b"printf", given);
    };
    let values = given.saturating_sub(1);
    let mut told = Explanation::plain(alloc, "the format takes ")?;
    add_count(&mut told.sentence, wanted, " value")?;
    write_str(&mut told.sentence, ", found ")?;
    write_count(&mut told.sentence, values)?;
    let hint = if values < wanted {
        Hint::plain(
            alloc,
            "give a value for each %i, %d and %s, and write %% for a % that is printed",
        )?
    } else if wanted == 0 {
        hint_of_conversion(refused, at)?
    } else {
        Hint::plain(alloc, "write %i or %s in the format for each value")?
    };
    Ok(told.with(hint))
}

/// Returns the hint to add a conversion for the first value after a format.
fn hint_of_conversion<A: Allocator>(
    refused: &RefusedScript<'_, A>,
    at: Span,
) -> Result<Option<Hint>, AllocError> {
    let occurrences = mentions_around(refused.alloc, at.from, refused.script)?;
    let first = second_argument(refused.text, at.to);
    let name: &[u8] = match &first {
        Some(token) => token.text,
        None => &[],
    };
    let base = base_of(refused, occurrences.as_slice(), first);
    let template = if base == Base::Text {
        "write %s in the format where $0 is to appear"
    } else {
        "write %i in the format where $0 is to appear"
    };
    Hint::filled(refused.alloc, template, &[name])
}
