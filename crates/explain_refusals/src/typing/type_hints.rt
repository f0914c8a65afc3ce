//! Hints about expressions of a wrong type.

use crate::explanation::Hint;
use crate::typing::array_hints::{hint_of_array, hint_of_arrays, hint_of_scalar};
use explain_hints::token_context::TokenContext;
use explain_names::lookup::{LookupKind, bytes_at, last_before};
use explain_names::occurrence::{DisplayType, Occurrence};
use explain_searches::calls::text_behind;
use explain_searches::declared::{type_of, write_declaration};
use explain_searches::scopes::loop_since;
use explain_searches::type_mismatch::{ExpectedType, TypeMismatch, converted, keys_of, one};
use lexer::token::{Span, TokenKind};
use std::alloc::{AllocError, Global};
use syntax_trees::tree::{Base, Keys, Operator, Shape};

/// The expression of a wrong type, with the tokens around its place.
#[derive(Clone, Copy)]
pub struct WrongValue<'t> {
    pub alloc: Global,
    pub around: TokenContext<'t>,
    /// The expression if it is one token, otherwise `..`.
    pub value: &'t [u8],
    pub found: DisplayType,
}

/// Returns the hint about an expression of a wrong type.
pub fn hint_of_mismatch(
    alloc: Global,
    text: &[u8],
    occurrences: &[Occurrence],
    mismatch: TypeMismatch,
    at: Span,
) -> Result<Option<Hint>, AllocError> {
    let around = TokenContext::new(alloc, text, at.from)?;
    let is_operand = matches!(mismatch.wanted, ExpectedType::Operand(_, _));
    let wrong = WrongValue {
        alloc,
        around,
        value: value_of(&around, is_operand),
        found: mismatch.found,
    };
    match mismatch.wanted {
        ExpectedType::Key(array, name) => hint_of_key(&wrong, array, bytes_at(text, name)),
        ExpectedType::Operand(wanted, operator) => hint_of_operand(&wrong, wanted, operator),
        ExpectedType::Sort(wanted) => {
            let swapped = hint_of_swapped(&wrong, text, occurrences, wanted, at)?;
            if swapped.is_some() {
                return Ok(swapped);
            }
            hint_of_sort(&wrong, wanted)
        }
        other => hint_of_form(&wrong, other),
    }
}

/// Returns the bytes of the expression that begins with the found token if it is that token alone, otherwise `..`.
fn value_of<'t>(around: &TokenContext<'t>, is_operand: bool) -> &'t [u8] {
    let is_plain = matches!(
        around.found.kind,
        TokenKind::Name | TokenKind::Number | TokenKind::Text | TokenKind::True | TokenKind::False
    );
    let ends = match around.next.kind {
        TokenKind::OpenRound | TokenKind::OpenSquare => false,
        TokenKind::Comma
        | TokenKind::CloseRound
        | TokenKind::CloseSquare
        | TokenKind::Semicolon
        | TokenKind::Colon
        | TokenKind::OpenCurly => true,
        _ => is_operand,
    };
    if is_plain && ends {
        around.found.text
    } else {
        b"..".as_slice()
    }
}

/// Returns the hint about an expression in place of an array, or of a scalar in a comparison.
fn hint_of_form(wrong: &WrongValue<'_>, wanted: ExpectedType) -> Result<Option<Hint>, AllocError> {
    let is_string = wrong.found.base == Base::Text;
    let template = match wanted {
        ExpectedType::Literal(sort) if sort.shape == Shape::Scalar => {
            "declare an array, which has [] after its name: int A[] = [1, 2];"
        }
        ExpectedType::Literal(_) => {
            "a list has the keys 0, 1, 2: write each element under its own key, A[\"a\"] = ..;"
        }
        ExpectedType::Element | ExpectedType::Loop if is_string => {
            "a string cannot be taken apart: keep its parts in an array"
        }
        ExpectedType::Element => "only arrays have elements: declare $1$0[];",
        ExpectedType::Loop => "loop over a range: [1:$2]",
        ExpectedType::Size => "size counts the elements of an array; strings have no length",
        ExpectedType::Named => "assign the array to a variable first: $3 = $0(..);",
        _ => "compare the elements in a loop: $0[i] == ..",
    };
    let mut declaration = Vec::new(wrong.alloc);
    write_declaration(&mut declaration, wrong.found, b"A")?;
    Hint::of_parts(
        wrong.alloc,
        template,
        wrong.around.found.text,
        type_of(wrong.found.base).as_bytes(),
        wrong.value,
        declaration.as_slice(),
    )
}

/// Returns the hint about an expression of another type than the expected one.
fn hint_of_sort(wrong: &WrongValue<'_>, wanted: DisplayType) -> Result<Option<Hint>, AllocError> {
    match (wrong.found.shape, wanted.shape) {
        (Shape::Array(_), Shape::Array(_)) => hint_of_arrays(wrong, wanted),
        (Shape::Array(_), Shape::Scalar) => hint_of_array(wrong, wanted, None),
        (Shape::Scalar, Shape::Array(_)) => hint_of_scalar(wrong, wanted),
        (Shape::Scalar, Shape::Scalar) => match words_of_call(wrong, wanted) {
            Some(words) => Hint::plain(wrong.alloc, words),
            None => hint_of_bases(wrong, wanted.base),
        },
    }
}

/// Returns the hint about a scalar that is an argument of a conversion, of `assert` or of `printf`, or `None` for other
/// scalars.
fn words_of_call(wrong: &WrongValue<'_>, wanted: DisplayType) -> Option<&'static str> {
    let called = wrong.around.opener_before.text;
    if wrong.around.last.kind == TokenKind::OpenRound {
        if called == b"fromint".as_slice() && wrong.found.base == Base::Text {
            return Some("it is a string already: leave out fromint");
        }
        if called == b"toint".as_slice() && wrong.found.base == Base::Int {
            return Some("it is an int already: leave out toint");
        }
    }
    match (wrong.found.base, wanted.base) {
        (Base::Text, Base::Boolean) | (Base::Boolean, Base::Text)
            if called == b"assert".as_slice() => {
            Some("the condition comes first, and the message second")
        }
        (Base::Int, Base::Text) if is_printed(wrong) => Some("print an int by %i"),
        (Base::Text, Base::Int) if is_printed(wrong) => Some("print a string by %s"),
        _ => None,
    }
}

/// Returns true if the expression is an argument of `printf` other than the format.
pub fn is_printed(wrong: &WrongValue<'_>) -> bool {
    wrong.around.last.kind == TokenKind::Comma
        && wrong.around.opener.kind == TokenKind::OpenRound
        && wrong.around.opener_before.text == b"printf".as_slice()
}

/// Returns the hint about an operand of another type than the operator takes.
fn hint_of_operand(
    wrong: &WrongValue<'_>,
    wanted: DisplayType,
    operator: Operator,
) -> Result<Option<Hint>, AllocError> {
    if wrong.found.shape != Shape::Scalar {
        return hint_of_array(wrong, wanted, Some(operator));
    }
    let is_literal = wrong.around.found.kind == TokenKind::Text;
    let template = match (wrong.found.base, wanted.base, operator) {
        (Base::Text, Base::Int, _) if !number_in(wrong.value).is_empty() => "",
        (
            Base::Text,
            Base::Int,
            Operator::Less | Operator::AtMost | Operator::Greater | Operator::AtLeast,
        ) => "strings have no order: compare them by == or !=",
        (Base::Text, Base::Int, Operator::Times) if is_literal => {
            "repeat a string in a loop: s[i] = s[i - 1] + $0;"
        }
        (Base::Text, Base::Int, Operator::Plus) if is_literal => {
            "to join strings, convert the int: fromint(..) + $0"
        }
        (Base::Text, Base::Int, Operator::Equal | Operator::NotEqual) if is_literal => {
            "convert the int to a string: fromint(..)"
        }
        (Base::Int, Base::Boolean, Operator::And | Operator::Or) => {
            "compare it: $0 != 0; there are no operators on bits, and the last bit is $0 %% 2"
        }
        _ => "",
    };
    if template.is_empty() {
        hint_of_bases(wrong, wanted.base)
    } else {
        Hint::filled(wrong.alloc, template, &[wrong.value])
    }
}

/// Returns the hint about a scalar with another base type than the expected one.
pub fn hint_of_bases(wrong: &WrongValue<'_>, wanted: Base) -> Result<Option<Hint>, AllocError> {
    let kind = wrong.around.found.kind;
    let number = number_in(wrong.value);
    let template = match (wrong.found.base, wanted) {
        (Base::Int, Base::Text) if kind == TokenKind::Number => "write it in quotes: \"$0\"",
        (Base::Int, Base::Text) => "convert the int to a string: fromint($0)",
        (Base::Text, Base::Int) if !number.is_empty() => "write it without quotes: $1",
        (Base::Text, Base::Int) if kind == TokenKind::Text => {
            "$0 is not a number: is the type string meant?"
        }
        (Base::Text, Base::Int) => "convert the string to an int: toint($0)",
        (Base::Int, Base::Boolean) if wrong.value == b"0".as_slice() => "write false",
        (Base::Int, Base::Boolean) if wrong.value == b"1".as_slice() => "write true",
        (Base::Int, Base::Boolean) => "compare it: $0 != 0",
        (Base::Text, Base::Boolean) => "compare it: $0 == \"yes\"",
        (Base::Boolean, Base::Text) => {
            "choose a string by an if: string s; if ($0) { s = \"yes\"; } else { s = \"no\"; }"
        }
        _ => "choose an int by an if: int n; if ($0) { n = 1; } else { n = 0; }",
    };
    Hint::filled(wrong.alloc, template, &[wrong.value, number])
}

/// Returns the number between the quotes of a string literal, or no bytes if there is none.
fn number_in(literal: &[u8]) -> &[u8] {
    if literal.len() < 3 || literal[0] != b'"' {
        return &[];
    }
    let inner = &literal[1..literal.len() - 1];
    for byte in inner {
        if !byte.is_ascii_digit() {
            return &[];
        }
    }
    if inner.len() > 1 && inner[0] == b'0' {
        &[]
    } else {
        inner
    }
}

/// Returns the hint about a key of a wrong type, for an array of this type and name.
fn hint_of_key(
    wrong: &WrongValue<'_>,
    array: DisplayType,
    name: &[u8],
) -> Result<Option<Hint>, AllocError> {
    let keys = keys_of(array);
    let number = number_in(wrong.value);
    let is_number = wrong.around.found.kind == TokenKind::Number;
    let template = match (wrong.found.shape, wrong.found.base, keys) {
        (Shape::Scalar, Base::Int, Keys::Texts) if is_number => {
            "string keys are in quotes: $1[\"$0\"]"
        }
        (Shape::Scalar, Base::Int, Keys::Texts) => {
            "convert the key to a string: $1[fromint($0)]"
        }
        (Shape::Scalar, Base::Text, Keys::Numbers) if !number.is_empty() => {
            "write the key without quotes: $1[$3]"
        }
        (Shape::Scalar, Base::Text, Keys::Numbers) => {
            "declare the array with string keys: $2$1[string];"
        }
        (Shape::Scalar, _, _) => return hint_of_bases(wrong, keys.base()),
        _ => return hint_of_array(wrong, one(keys.base()), None),
    };
    let base = type_of(array.base).as_bytes();
    Hint::of_parts(wrong.alloc, template, wrong.value, name, base, number)
}

/// Returns the hint about the variables of a loop over an array that are exchanged, or `None` if they are not.
///
/// They are if the first two arguments of a `printf` are these variables, and both would fit if they were exchanged.
fn hint_of_swapped(
    wrong: &WrongValue<'_>,
    text: &[u8],
    occurrences: &[Occurrence],
    wanted: DisplayType,
    at: Span,
) -> Result<Option<Hint>, AllocError> {
    let around = &wrong.around;
    if !is_printed(wrong)
        || around.before_last.kind != TokenKind::Text
        || around.next.kind != TokenKind::Comma
        || converted(around.before_last.text, 2) != Some(wrong.found)
    {
        return Ok(None);
    }
    let Some(header) = loop_since(wrong.alloc, text, 0, at.from)? else {
        return Ok(None);
    };
    let name = around.found.text;
    let is_value = name == header.value;
    let other = if is_value { header.key } else { header.value };
    let Some(array) = type_before(text, occurrences, header.array, header.at) else {
        return Ok(None);
    };
    let is_fitting = one(if is_value {
        keys_of(array).base()
    } else {
        array.base
    }) == wanted;
    if is_fitting
        && !header.key.is_empty()
        && (is_value || name == header.key)
        && text_behind(text, around.next.span.to) == other
    {
        let parts = [header.key, header.value, header.array];
        let template = "the value comes first, and the key second: foreach $0, $1 in $2";
        return Hint::filled(wrong.alloc, template, &parts);
    }
    Ok(None)
}

/// Returns the type of the variable with this name that is declared last before an offset.
fn type_before(
    text: &[u8],
    occurrences: &[Occurrence],
    name: &[u8],
    before: usize,
) -> Option<DisplayType> {
    let declared = last_before(text, occurrences, LookupKind::Declaration, name, before)?;
    declared.sort
}
