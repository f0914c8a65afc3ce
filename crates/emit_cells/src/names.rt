//! Conversion of the names of a flow into names of code.
ghost use Rattle.std.specs.Prelude.{◌≡◌, ◌<◌, ◌+◌, ◌^◌};
ghost use Rattle.flow.specs.View.{name_view};
ghost use Rattle.task_code.specs.Code.{here, scalar};
ghost use Rattle.task_code.specs.View as code_view;
ghost use Rattle.code_rules.specs.CodeNames.{name_as};
ghost use Rattle.code_rules.specs.Room.{NameRoom};

use flow::name::{Name, NameBinding};
use task_code::body_numbers::behind;
use task_code::entry::{self, Owned, Variable};

/// Converts a name of a scalar or an array, within a function with this number of inputs. The outputs of the function
/// follow its inputs.
pub fn named(inputs: usize, name: Name, array: bool) -> entry::Name
    ensures { NameRoom inputs (name_view name) → code_view.name_view result ≡ name_as inputs array (name_view name) }
{
    let owned = match name.what {
        NameBinding::Local(node) => Owned::Local(Variable { node, array }),
        NameBinding::Input(place) => Owned::Parameter(place, array),
        NameBinding::Output(place) => Owned::Parameter(behind(inputs, place), array),
    };
    entry::Name { up: name.up, owned }
}

/// Returns the name of the scalar of this node within its own block.
pub fn own(node: u32) -> entry::Name
    ensures { code_view.name_view result ≡ here (scalar node) }
{
    let variable = Variable { node, array: false };
    entry::Name {
        up: 0,
        owned: Owned::Local(variable),
    }
}
