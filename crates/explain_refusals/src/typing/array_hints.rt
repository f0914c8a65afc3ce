//! Hints about arrays in place of scalars, scalars in place of arrays, and arrays of another type.

use crate::explanation::Hint;
use crate::typing::type_hints::{WrongValue, is_printed};
use explain_names::occurrence::DisplayType;
use explain_searches::declared::write_declaration;
use lexer::token::TokenKind;
use std::alloc::AllocError;
use syntax_trees::tree::{Base, Keys, Operator, Shape};

/// Returns the hint about an array in place of a scalar of this type, which may be an operand of an operator.
pub fn hint_of_array(
    wrong: &WrongValue<'_>,
    wanted: DisplayType,
    operator: Option<Operator>,
) -> Result<Option<Hint>, AllocError> {
    let mut declaration = Vec::new(wrong.alloc);
    write_declaration(&mut declaration, wrong.found, b"A")?;
    let conversion = if wrong.found.base == Base::Text {
        b"%s".as_slice()
    } else {
        b"%i".as_slice()
    };
    Hint::of_parts(
        wrong.alloc,
        words_of_array(wrong, wanted, operator),
        wrong.around.found.text,
        declaration.as_slice(),
        sign_of(operator),
        conversion,
    )
}

/// Returns the template of the hint about an array in place of a scalar.
fn words_of_array(
    wrong: &WrongValue<'_>,
    wanted: DisplayType,
    operator: Option<Operator>,
) -> &'static str {
    if wrong.around.next.kind == TokenKind::OpenRound {
        return "assign the array to a variable first, $1 = $0(..);, and use an element of it, A[0]";
    }
    if !sign_of(operator).is_empty() {
        return "compute each element in a loop: C[i] = $0[i] $2 ..;";
    }
    if is_printed(wrong) && wrong.found.base != Base::Boolean {
        return "print each element in a loop: foreach v in $0 { printf(\"$3\", v); }";
    }
    if wrong.around.opener_before.text == b"strcat".as_slice() {
        return "join the elements in a loop: s[i] = s[i - 1] + $0[i];";
    }
    if wanted.base == Base::Int && operator.is_none() {
        "use an element, $0[i], or the number of elements, size($0)"
    } else {
        "use an element: $0[i]"
    }
}

/// Returns the sign of an arithmetic operator, or no bytes for another one.
fn sign_of(operator: Option<Operator>) -> &'static [u8] {
    match operator {
        Some(Operator::Plus) => b"+".as_slice(),
        Some(Operator::Minus) => b"-".as_slice(),
        Some(Operator::Times) => b"*".as_slice(),
        Some(Operator::Quotient) => b"%/".as_slice(),
        Some(Operator::Remainder) => b"%%".as_slice(),
        _ => &[],
    }
}

/// Returns the hint about a scalar in place of an array of this type.
pub fn hint_of_scalar(
    wrong: &WrongValue<'_>,
    wanted: DisplayType,
) -> Result<Option<Hint>, AllocError> {
    let mut declaration = Vec::new(wrong.alloc);
    write_declaration(&mut declaration, wanted, b"A")?;
    let template = match (wrong.around.last.kind, wanted.shape) {
        (_, Shape::Array(Keys::Texts)) => "write its elements, each under its key: A[\"a\"] = $0;",
        (TokenKind::Assign, _) => "write a list: [$0]",
        _ => "assign it to an array first, $1 = [$0];, and give the name of that",
    };
    Hint::filled(
        wrong.alloc,
        template,
        &[wrong.value, declaration.as_slice()],
    )
}

/// Returns the hint about an array of another type than the expected one.
pub fn hint_of_arrays(
    wrong: &WrongValue<'_>,
    wanted: DisplayType,
) -> Result<Option<Hint>, AllocError> {
    let mut declaration = Vec::new(wrong.alloc);
    write_declaration(&mut declaration, wanted, b"B")?;
    let key = match (wrong.found.shape, wanted.shape) {
        (Shape::Array(Keys::Texts), Shape::Array(Keys::Numbers)) => {
            let template = "declare the other array with string keys too: B[string]";
            return Hint::plain(wrong.alloc, template);
        }
        (Shape::Array(Keys::Numbers), Shape::Array(Keys::Texts)) => b"fromint(k)".as_slice(),
        _ => b"k".as_slice(),
    };
    let value = match (wrong.found.base, wanted.base) {
        (Base::Int, Base::Text) => b"fromint(v)".as_slice(),
        (Base::Text, Base::Int) => b"toint(v)".as_slice(),
        (Base::Int, Base::Boolean) => b"v != 0".as_slice(),
        (Base::Text, Base::Boolean) => b"v == \"yes\"".as_slice(),
        (Base::Boolean, Base::Int | Base::Text) => b"..".as_slice(),
        _ => b"v".as_slice(),
    };
    let template = "copy the elements in a loop: $1; foreach v, k in $0 { B[$2] = $3; }";
    let parts = [wrong.value, declaration.as_slice(), key, value];
    Hint::filled(wrong.alloc, template, &parts)
}
