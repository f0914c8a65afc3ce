//! The refusal of a script, as it is printed.
ghost use Rattle.std.specs.Prelude.{◌≡◌};
ghost use Rattle.swt_status.specs.Names.{refusal_of, refusal_text};

use arrayvec::ArrayString;
use compile::fault::CompileFault;
use itoa::Buffer;
use lexer::token::Span;

/// Maximum number of bytes of a refusal: a name of 20, two numbers of at most 20 digits, and two spaces.
pub const LONGEST_REFUSAL: usize = 64;

/// A refusal with its span.
#[derive(Clone, Copy, PartialEq, Eq, Debug)]
pub struct Refusal {
    pub fault: CompileFault,
    pub at: Span,
}

impl Refusal {
    /// Converts a fault of the compiler. Returns `None` for a fault without a span, which is an allocation failure.
    pub fn of(fault: CompileFault) -> Option<Refusal>
        ensures { result ≡ refusal_of fault }
    {
        match fault.span() {
            Some(at) => Some(Refusal { fault, at }),
            None => None,
        }
    }

    /// Returns the number, the name and the span, such as `S1 AssignedTwice 11 12`.
    pub fn text(self) -> ArrayString<LONGEST_REFUSAL>
        ensures { result.bytes ≡ refusal_text self }
    {
        let mut text = ArrayString::new();
        let mut buffer = Buffer::new();
        text.push_str(self.fault.name());
        text.push_str(" ");
        text.push_str(buffer.format(self.at.from));
        text.push_str(" ");
        text.push_str(buffer.format(self.at.to));
        text
    }
}
