//! The forms in which `code` prints a script.
ghost use Rattle.std.specs.Prelude.{◌≡◌, option_map, option_to_list};
ghost use Rattle.swt_arguments.specs.Forms.{after, form_given, form_of, with_dot, with_passes, without_dot};

use crate::pass::Pass;
use crate::word::Word;
use crate::words;

/// The form in which `code` prints a script.
#[derive(Clone, Copy, PartialEq, Eq, Debug, Drop)]
pub enum CodeForm {
    /// A listing of the code.
    Listing,
    /// A drawing of the code, as text for `dot`.
    Graph,
    /// A drawing of the script as it is written, as text for `dot`.
    Drawing,
    /// What the script is after this pass, as text for a reader.
    After(Pass),
}

/// Returns the form that the options among these words ask for, or `None` if they ask for two or repeat one.
pub(crate) fn form_given(words: &[Word]) -> Option<CodeForm>
    ensures { result ≡ form_given words.now }
{
    form_of(words::often("--dot", words), words::often("--draw", words))
}

/// Returns the form by the numbers of `--dot` and `--draw`.
fn form_of(dots: usize, draws: usize) -> Option<CodeForm>
    ensures { result ≡ form_of dots draws }
{
    match dots {
        0 => without_dot(draws),
        1 => with_dot(draws),
        _ => None,
    }
}

/// Returns the form by the number of `--draw`, without `--dot`.
fn without_dot(draws: usize) -> Option<CodeForm>
    ensures { result ≡ without_dot draws }
{
    match draws {
        0 => Some(CodeForm::Listing),
        1 => Some(CodeForm::Drawing),
        _ => None,
    }
}

/// Returns the form by the number of `--draw`, beside one `--dot`.
fn with_dot(draws: usize) -> Option<CodeForm>
    ensures { result ≡ with_dot draws }
{
    match draws {
        0 => Some(CodeForm::Graph),
        _ => None,
    }
}

/// Returns the form that the other options and the value of `--after` ask for. Returns `None` if the value is not a
/// pass, or if the other options ask for a drawing or for no form.
pub(crate) fn with_passes(given: Option<CodeForm>, text: Option<&str>) -> Option<CodeForm>
    ensures { result ≡ with_passes given (option_to_list (option_map (λ t. t.now) text.entry)) }
{
    match text {
        None => given,
        Some(text) => match given {
            Some(form) => after(form, text),
            None => None,
        },
    }
}

/// Returns the form that `--after` with this value asks for beside another form, which has to be the listing.
fn after(form: CodeForm, text: &str) -> Option<CodeForm>
    ensures { result ≡ after form text.now }
{
    match form {
        CodeForm::Listing => match Pass::of(text) {
            Some(pass) => Some(CodeForm::After(pass)),
            None => None,
        },
        CodeForm::Graph | CodeForm::Drawing | CodeForm::After(_) => None,
    }
}
