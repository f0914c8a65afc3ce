//! Variables and constants that other languages have, with what to write instead.

use crate::rules::entry_of;

/// Variables that do not exist in the language. A line is `WORDS -> HINT`.
static VARIABLES: &str = r#"
True TRUE yes on ture treu tru -> write true
False FALSE no off flase fasle fals -> write false
null NULL nil None undefined nan NaN -> every variable has a value: choose one that means none, -1 or ""
argc argv args stdin -> a script reads no files and no arguments: write the value into it, int n = 10;
PI pi -> there are only whole numbers: scale them, 31416 for 3.1416
"#;

/// Returns the hint about a variable of another language, or `None` if there is no such name among them.
pub fn on_variable(name: &[u8]) -> Option<&'static str> {
    entry_of(VARIABLES, name)
}
