//! Diagnosis of words that do not form a request.

use crate::command::{Command, explains};
use crate::line::MAX_OF_A_KIND;
use crate::option_number::number_within;
use crate::pass::Pass;
use crate::request::divided;
use crate::word::Word;
use crate::words::is;
use std::fmt;
use values::limits::MAX_EVENTS;

/// Why a word is wrong, or what is missing.
#[derive(Clone, Copy, PartialEq, Eq, Debug, Drop)]
pub enum ArgumentErrorKind {
    /// There are no words.
    NoCommand,
    /// The word is not the name of a command.
    NotACommand,
    /// The word is not an option of the command.
    NotAnOption(Command),
    /// The option has no value.
    NoValue,
    /// The option is repeated, or standard input is named twice.
    Twice,
    /// The word is not a number in the range of the option.
    NotWithin(NumberOption),
    /// The word is not the name of a pass.
    NotAPass,
    /// The word is a file, and the command already has all its files.
    OneTooMany(Command),
    /// The command has too few files.
    TooFew(Command),
    /// The word is not a name of a file that can be written.
    NotWritable,
}

/// An option whose value is a number.
#[derive(Clone, Copy, PartialEq, Eq, Debug, Drop)]
pub enum NumberOption {
    Rounds,
    Steps,
    Engines,
    Workers,
}

impl NumberOption {
    /// Returns the option with a name, or `None` if its value is not a number.
    fn of(name: &str) -> Option<NumberOption> {
        if is(name, "--rounds") {
            Some(NumberOption::Rounds)
        } else if is(name, "--steps") {
            Some(NumberOption::Steps)
        } else if is(name, "--engines") {
            Some(NumberOption::Engines)
        } else if is(name, "--workers") {
            Some(NumberOption::Workers)
        } else {
            None
        }
    }

    /// Returns the name of the option.
    fn name(self) -> &'static str {
        match self {
            NumberOption::Rounds => "--rounds",
            NumberOption::Steps => "--steps",
            NumberOption::Engines => "--engines",
            NumberOption::Workers => "--workers",
        }
    }

    /// Returns the least and the greatest number that the option takes.
    fn range(self) -> (u32, u32) {
        match self {
            NumberOption::Rounds => (1, u32::MAX),
            NumberOption::Steps => (0, MAX_EVENTS as u32),
            NumberOption::Engines | NumberOption::Workers => (1, MAX_OF_A_KIND),
        }
    }
}

/// The first wrong word, and why it is wrong.
#[derive(Clone, Copy, Debug, Drop)]
pub struct ArgumentError<'a> {
    pub word: &'a str,
    pub wrong: ArgumentErrorKind,
}

impl ArgumentError<'_> {
    /// Returns true if the error calls for the whole usage: there are no words, or the word asks for help.
    pub fn wants_usage(&self) -> bool {
        match self.wrong {
            ArgumentErrorKind::NoCommand => true,
            ArgumentErrorKind::NotACommand | ArgumentErrorKind::NotAnOption(_) => {
                is(self.word, "help") || is(self.word, "--help") || is(self.word, "-h")
            }
            _ => false,
        }
    }
}

impl fmt::Display for ArgumentError<'_> {
    fn fmt<W: fmt::Write>(&self, f: &mut fmt::Formatter<W>) -> fmt::Result {
        let word = self.word;
        match self.wrong {
            ArgumentErrorKind::NoCommand => f.write_str("swt: no command is given"),
            ArgumentErrorKind::NotACommand => write_word(f, word, " is no command"),
            ArgumentErrorKind::NotAnOption(command) => {
                write_command(f, word, " is no option of ", command.name())
            }
            ArgumentErrorKind::NoValue => write_word(f, word, " has no value behind it"),
            ArgumentErrorKind::Twice => write_word(f, word, " stands twice"),
            ArgumentErrorKind::NotWithin(option) => write_range(f, word, option),
            ArgumentErrorKind::NotAPass => write_word(f, word, NO_PASS),
            ArgumentErrorKind::OneTooMany(command) => {
                write_command(f, word, " is one file too many for ", command.name())
            }
            ArgumentErrorKind::TooFew(command) => write!(f, "swt: {}", command.wanted()),
            ArgumentErrorKind::NotWritable => write_command(
                f,
                word,
                " is no name for a trace: write ./",
                word,
            ),
        }
    }
}

/// The reason why a word is not the value of `--after`, with the values that it has.
const NO_PASS: &str = " is no pass: write parse, types, fold, lower, merge or emit";

/// Writes a word, followed by the reason why it is wrong.
fn write_word<W: fmt::Write>(f: &mut fmt::Formatter<W>, word: &str, wrong: &str) -> fmt::Result {
    write!(f, "swt: {word}{wrong}")
}

/// Writes a word, the reason why it is wrong, and a final word: the name of the command, or a corrected word.
fn write_command<W: fmt::Write>(
    f: &mut fmt::Formatter<W>,
    word: &str,
    wrong: &str,
    end: &str,
) -> fmt::Result {
    write!(f, "swt: {word}{wrong}{end}")
}

/// Writes that a word is not a number in the range of an option.
fn write_range<W: fmt::Write>(
    f: &mut fmt::Formatter<W>,
    word: &str,
    option: NumberOption,
) -> fmt::Result {
    let name = option.name();
    let (least, most) = option.range();
    write!(
        f,
        "swt: {name} takes a number from {least} to {most}, not {word}"
    )
}

/// Returns the first wrong word and its reason, or `None` if no word is wrong.
pub fn first_wrong(words: &[Word]) -> Option<ArgumentError<'_>> {
    match words {
        [] => Some(ArgumentError {
            word: "",
            wrong: ArgumentErrorKind::NoCommand,
        }),
        [first, rest @ ..] => match Command::of(first.as_str()) {
            Some(command) => behind(command, rest),
            None => Some(ArgumentError {
                word: first.as_str(),
                wrong: ArgumentErrorKind::NotACommand,
            }),
        },
    }
}

/// Returns the first wrong word among the words after a command.
fn behind(command: Command, words: &[Word]) -> Option<ArgumentError<'_>> {
    let mut waiting: Option<&str> = None;
    let mut only_files = false;
    let mut files: u64 = 0;
    for place in 0..words.len() {
        let word = words[place].as_str();
        let before = &words[..place];
        let wrong = if !only_files && command.is_flag(word) {
            twice(command, word, before)
        } else if !only_files && is_marked(word) {
            if let Some(option) = waiting {
                return Some(instead_of_value(option, word));
            }
            only_files = is(word, "--");
            waiting = awaiting(command, word);
            wrong_option(command, word, before)
        } else if let Some(option) = waiting {
            waiting = None;
            wrong_value(option, word)
        } else {
            files = files.saturating_add(1);
            wrong_file(command, word, files, before)
        };
        if wrong.is_some() {
            return wrong;
        }
    }
    match waiting {
        Some(option) => Some(no_value(option)),
        None => too_few(command, files),
    }
}

fn is_marked(word: &str) -> bool {
    matches!(word.as_bytes(), [b'-', _, ..])
}

/// Returns the option whose value the next word has to be, or `None` if this word needs no value.
fn awaiting(command: Command, word: &str) -> Option<&str> {
    if is(word, "--") || divided(command, word).is_some() {
        None
    } else {
        Some(word)
    }
}

fn no_value(word: &str) -> ArgumentError<'_> {
    ArgumentError {
        word,
        wrong: ArgumentErrorKind::NoValue,
    }
}

/// Returns the error for a word that begins with a dash in the place of an option's value.
fn instead_of_value<'a>(option: &'a str, word: &'a str) -> ArgumentError<'a> {
    match NumberOption::of(option) {
        Some(option) if is_below_zero(word) => ArgumentError {
            word,
            wrong: ArgumentErrorKind::NotWithin(option),
        },
        _ => no_value(option),
    }
}

/// Returns true if a word is a dash followed by a digit.
fn is_below_zero(word: &str) -> bool {
    matches!(word.as_bytes(), [b'-', b'0'..=b'9', ..])
}

/// Returns an error if a word also occurs among the preceding words, by itself or as the option of `--option=value`.
fn twice<'a>(command: Command, word: &'a str, before: &[Word]) -> Option<ArgumentError<'a>> {
    if before
        .iter()
        .any(|other| names(command, other.as_str(), word))
    {
        Some(ArgumentError {
            word,
            wrong: ArgumentErrorKind::Twice,
        })
    } else {
        None
    }
}

/// Returns true if a word equals `option`, or is `option` with a value. The two forms of `--explain` count as the same
/// option, and so do `--dot`, `--draw` and `--after`.
fn names(command: Command, word: &str, option: &str) -> bool {
    match divided(command, word) {
        Some((other, _)) => is(other, option) || (shows(other) && shows(option)),
        None => {
            is(word, option)
                || (explains(word) && explains(option))
                || (shows(word) && shows(option))
        }
    }
}

/// Returns true if a word is `--dot`, `--draw` or `--after`, of which one can be given.
fn shows(word: &str) -> bool {
    is(word, "--dot") || is(word, "--draw") || is(word, "--after")
}

fn wrong_option<'a>(command: Command, word: &'a str, before: &[Word]) -> Option<ArgumentError<'a>> {
    if is(word, "--") {
        return None;
    }
    if let Some((option, value)) = divided(command, word) {
        let wrong = twice(command, option, before);
        return if wrong.is_some() {
            wrong
        } else {
            wrong_value(option, value)
        };
    }
    if command.has_option(word) {
        twice(command, word, before)
    } else {
        Some(ArgumentError {
            word,
            wrong: ArgumentErrorKind::NotAnOption(command),
        })
    }
}

fn wrong_value<'a>(option: &'a str, value: &'a str) -> Option<ArgumentError<'a>> {
    if is(option, "--after") {
        return wrong_pass(option, value);
    }
    if value.is_empty() {
        return Some(no_value(option));
    }
    let Some(taken) = NumberOption::of(option) else {
        return wrong_name(value);
    };
    let (least, most) = taken.range();
    match number_within(value, least, most) {
        Some(_) => None,
        None => Some(ArgumentError {
            word: value,
            wrong: ArgumentErrorKind::NotWithin(taken),
        }),
    }
}

/// Returns an error if the value of `--after` is not the name of a pass.
fn wrong_pass<'a>(option: &'a str, value: &'a str) -> Option<ArgumentError<'a>> {
    if value.is_empty() {
        return Some(no_value(option));
    }
    match Pass::of(value) {
        Some(_) => None,
        None => Some(ArgumentError {
            word: value,
            wrong: ArgumentErrorKind::NotAPass,
        }),
    }
}

/// Returns an error if the name of an output file begins with a dash.
fn wrong_name(name: &str) -> Option<ArgumentError<'_>> {
    if name.as_bytes().first() == Some(&b'-') {
        Some(ArgumentError {
            word: name,
            wrong: ArgumentErrorKind::NotWritable,
        })
    } else {
        None
    }
}

fn wrong_file<'a>(
    command: Command,
    word: &'a str,
    files: u64,
    before: &[Word],
) -> Option<ArgumentError<'a>> {
    if is(word, "-") {
        let wrong = twice(command, word, before);
        if wrong.is_some() {
            return wrong;
        }
    }
    match command {
        Command::Check => None,
        Command::Mean | Command::Code | Command::Run if files <= 1 => None,
        Command::Replay if files <= 2 => None,
        _ => Some(ArgumentError {
            word,
            wrong: ArgumentErrorKind::OneTooMany(command),
        }),
    }
}

fn too_few<'a>(command: Command, files: u64) -> Option<ArgumentError<'a>> {
    let least = match command {
        Command::Check | Command::Mean | Command::Code | Command::Run => 1,
        Command::Replay => 2,
    };
    if files >= least {
        return None;
    }
    Some(ArgumentError {
        word: "",
        wrong: ArgumentErrorKind::TooFew(command),
    })
}
