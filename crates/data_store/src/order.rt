//! Sorting of elements by key.
ghost use Rattle.std.specs.Prelude.{◌≡◌, length};
ghost use Rattle.std.specs.Ordering.{is_lt};
ghost use Rattle.values.specs.Keys.{key_below};
ghost use Rattle.data_store.specs.Arrays.{arranged};

use std::cmp::Ordering;
use values::map::Element;

/// Sorts elements with distinct keys by ascending key.
pub fn arrange(list: &mut Vec<Element>)
    requires { length (arranged list.old.items) ≡ length list.old.items }
    ensures { list.new.items ≡ arranged list.old.items }
{
    list.sort_unstable_by(|a, b| order(a, b));
}

fn order(a: &Element, b: &Element) -> Ordering
    ensures { is_lt result ≡ key_below a.now.key b.now.key }
{
    if a.key.is_below(&b.key) {
        Ordering::Less
    } else if b.key.is_below(&a.key) {
        Ordering::Greater
    } else {
        Ordering::Equal
    }
}
