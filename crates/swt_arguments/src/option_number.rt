//! Numeric values of command-line options, in decimal and within a range.

ghost use Rattle.std.specs.Prelude.{◌≡◌, ◌≤◌, IfSome, option_map, option_to_list};
ghost use Rattle.values.specs.Numbers.{number_in};
ghost use Rattle.swt_arguments.specs.Numbers.{number_given, number_within};

use values::number;

/// Returns the number given for an option, or `default` if none is given. Returns `None` if the text is not a decimal
/// number from `least` to `most`.
pub fn number(text: Option<&str>, least: u32, most: u32, default: u32) -> Option<u32>
    requires least { least ≤ default }
    requires most { default ≤ most }
    ensures value { result ≡ number_given least most default
        (option_to_list (option_map (λ t. t.now) text.entry)) }
    ensures within { IfSome result (λ n. (least ≤ n) × (n ≤ most)) }
{
    match text {
        None => Some(default),
        Some(text) => number_within(text, least, most),
    }
}

/// Returns the decimal number in the text, or `None` if it is not a number from `least` to `most`.
pub fn number_within(text: &str, least: u32, most: u32) -> Option<u32>
    ensures value { result ≡ number_within least most (number_in text.now) }
    ensures within { IfSome result (λ n. (least ≤ n) × (n ≤ most)) }
{
    match number::parse(text.as_bytes()) {
        Ok(n) if n >= least as i64 && n <= most as i64 => Some(n as u32),
        _ => None,
    }
}
