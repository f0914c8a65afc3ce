//! Tokens and their places.

ghost use Rattle.std.specs.Prelude.{◌≡◌, ◌+◌, ◌^◌, ◌<◌};

/// A place in a text, in bytes: from its first byte to the byte after its last.
#[derive(Clone, Copy, Debug, PartialEq, Eq)]
pub struct Span {
    pub from: usize,
    pub to: usize,
}

impl Span {
    ghost use Rattle.lexer.specs.Items.{span};

    /// Creates the place of `len` bytes that starts at offset `from`.
    pub fn at(from: usize, len: usize) -> Span
        requires { from + len < 2 ^ 64 }
        ensures { result ≡ span from len }
    {
        Span {
            from,
            to: from + len,
        }
    }
}

/// The kind of a token: a name, a number, a string, a keyword or a symbol.
#[derive(Clone, Copy, Debug, PartialEq, Eq)]
pub enum TokenKind {
    /// A letter or `_`, followed by letters, digits and `_`, that is not a keyword.
    Name,
    /// A whole number from 0 to 9223372036854775807.
    Number,
    /// A string with its quotes. It consists of bytes 32 to 126 and the escapes `\n`, `\t`, `\\` and `\"`.
    Text,
    Int,
    String,
    Boolean,
    If,
    Else,
    Foreach,
    In,
    Wait,
    Import,
    True,
    False,
    /// `(`
    OpenRound,
    /// `)`
    CloseRound,
    /// `{`
    OpenCurly,
    /// `}`
    CloseCurly,
    /// `[`
    OpenSquare,
    /// `]`
    CloseSquare,
    /// `,`
    Comma,
    /// `;`
    Semicolon,
    /// `:`
    Colon,
    /// `=`
    Assign,
    /// `==`
    Equal,
    /// `!=`
    NotEqual,
    /// `<`
    Less,
    /// `<=`
    AtMost,
    /// `>`
    Greater,
    /// `>=`
    AtLeast,
    /// `+`
    Plus,
    /// `-`
    Minus,
    /// `*`
    Times,
    /// `%/`, integer division
    Quotient,
    /// `%%`, the remainder of integer division
    Remainder,
    /// `!`
    Not,
    /// `&&`
    And,
    /// `||`
    Or,
    /// `@`
    At,
    /// The kind after the last token, for a parser's look-ahead. No token has this kind.
    End,
}

/// A token with its place and its bytes.
#[derive(Clone, Copy, Debug)]
pub struct Token<'a> {
    pub kind: TokenKind,
    pub span: Span,
    pub text: &'a [u8],
}
