//! Conversion of an effect into a change of instances and data and a printed line.

ghost use Rattle.std.specs.Prelude.{◌≡◌};
ghost use Rattle.board.specs.Changing.{change_of, line_of};

use board_changes::data_state::Change;
use board_effects::effect::Effect;
use values::value::Scalar;

/// Returns the change that an effect makes to instances and data, and the line that it prints. A fault changes neither.
pub fn change_of(effect: Effect) -> (Change, Option<Scalar>)
    ensures change { result.0 ≡ change_of effect }
    ensures line { result.1 ≡ line_of effect }
{
    match effect {
        Effect::Fails(_) | Effect::Passes => (Change::Nothing, None),
        Effect::Stores(target, value) => (Change::Value(target, value), None),
        Effect::InsertsElement(target, key, value) => (Change::Element(target, key, value), None),
        Effect::Inserts(target, elements) => (Change::Elements(target, elements), None),
        Effect::Prints(value) => (Change::Nothing, Some(value)),
        Effect::Opens(openings) => (Change::Opens(openings), None),
    }
}
