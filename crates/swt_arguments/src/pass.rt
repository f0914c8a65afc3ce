//! The passes of the compiler after which `code` can show a script.
ghost use Rattle.std.specs.Prelude.{◌≡◌, Some};
ghost use Rattle.swt_arguments.specs.Forms.{pass_of};

use crate::words::is;

/// A pass of the compiler, in the order in which the compiler runs them.
#[derive(Clone, Copy, PartialEq, Eq, Debug, Drop)]
pub enum Pass {
    /// Parses the text into a syntax tree.
    Parse,
    /// Resolves names and infers types.
    Types,
    /// Evaluates expressions of literals.
    Fold,
    /// Lowers the tree to a flow.
    Lower,
    /// Merges directly nested waits.
    Merge,
    /// Emits the code.
    Emit,
}

impl Pass {
    /// Returns the pass of this name.
    pub fn of(word: &str) -> Option<Pass>
        ensures { result ≡ pass_of word.now }
    {
        if is(word, "parse") {
            Some(Pass::Parse)
        } else if is(word, "types") {
            Some(Pass::Types)
        } else if is(word, "fold") {
            Some(Pass::Fold)
        } else if is(word, "lower") {
            Some(Pass::Lower)
        } else if is(word, "merge") {
            Some(Pass::Merge)
        } else if is(word, "emit") {
            Some(Pass::Emit)
        } else {
            None
        }
    }

    /// Returns the name of the pass.
    pub fn name(self) -> &'static str
        ensures { pass_of result.now ≡ Some self }
    {
        match self {
            Pass::Parse => "parse",
            Pass::Types => "types",
            Pass::Fold => "fold",
            Pass::Lower => "lower",
            Pass::Merge => "merge",
            Pass::Emit => "emit",
        }
    }
}
