//! The tokens near a refused token, which the rules for hints test.

use lexer::lexer::Lexer;
use lexer::token::{Span, Token, TokenKind};
use std::alloc::{AllocError, Global};

/// The placeholder for a token that does not exist.
pub const ABSENT: Token<'static> = Token {
    kind: TokenKind::End,
    span: Span { from: 0, to: 0 },
    text: &[],
};

/// The tokens near a refused one. A token that does not exist has the kind `End`.
#[derive(Clone, Copy)]
pub struct TokenContext<'t> {
    pub text: &'t [u8],
    /// The first three tokens of its statement.
    pub first: Token<'t>,
    pub second: Token<'t>,
    pub third: Token<'t>,
    /// The two preceding tokens.
    pub before_last: Token<'t>,
    pub last: Token<'t>,
    /// The refused token, and the three following ones.
    pub found: Token<'t>,
    pub next: Token<'t>,
    pub next_second: Token<'t>,
    pub next_third: Token<'t>,
    /// The innermost open bracket with the token before it, and the bracket that encloses this one.
    pub opener: Token<'t>,
    pub opener_before: Token<'t>,
    pub outer: Token<'t>,
    /// The token before the bracket that the last token closes.
    pub closed: Token<'t>,
    /// What is between the last token and the refused one.
    pub gap: Token<'t>,
}

/// A token with the name of its place, by which the rules refer to it.
#[derive(Clone, Copy)]
struct PlacedToken<'t> {
    place: &'static str,
    token: Token<'t>,
}

/// An open bracket, with the token before it.
#[derive(Clone, Copy)]
struct OpenBracket<'t> {
    bracket: Token<'t>,
    before: Token<'t>,
}

/// The state of the scan up to the current token.
#[derive(Drop)]
struct TokenScanner<'t> {
    first: Token<'t>,
    second: Token<'t>,
    third: Token<'t>,
    before_last: Token<'t>,
    last: Token<'t>,
    closed: Token<'t>,
    open: Vec<OpenBracket<'t>>,
}

impl<'t> TokenContext<'t> {
    /// Creates the context of the token at an offset, or of the end of a text.
    ///
    /// # Errors
    ///
    /// Returns `AllocError` if an allocation fails.
    pub fn new(alloc: Global, text: &'t [u8], at: usize) -> Result<TokenContext<'t>, AllocError> {
        let mut lexer = Lexer::new(text);
        let mut walk = TokenScanner::new(alloc);
        for _ in 0..text.len() {
            let token = next_token(&mut lexer);
            if token.kind == TokenKind::End {
                break;
            }
            if token.span.from >= at {
                let mut around = walk.around(text, token, at);
                around.next = next_token(&mut lexer);
                around.next_second = next_token(&mut lexer);
                around.next_third = next_token(&mut lexer);
                return Ok(around);
            }
            walk.pass(token)?;
        }
        Ok(walk.around(text, ABSENT, at))
    }

    /// Returns the token at the place with this name, or `None` if no place has it.
    pub fn token_at(&self, place: &str) -> Option<Token<'t>> {
        let places = self.places();
        for placed in &places {
            if placed.place == place {
                return Some(placed.token);
            }
        }
        None
    }

    /// Returns the tokens with the names of their places.
    ///
    /// `joined` is the following token if nothing is between, and `after` the empty place after the last token.
    fn places(&self) -> [PlacedToken<'t>; 16] {
        [
            placed("first", self.first),
            placed("second", self.second),
            placed("third", self.third),
            placed("before_last", self.before_last),
            placed("last", self.last),
            placed("found", self.found),
            placed("next", self.next),
            placed("next_second", self.next_second),
            placed("next_third", self.next_third),
            placed("opener", self.opener),
            placed("opener_before", self.opener_before),
            placed("outer", self.outer),
            placed("closed", self.closed),
            placed("gap", self.gap),
            placed("joined", self.joined()),
            placed("after", end_of(self.last)),
        ]
    }

    /// Returns the following token if it begins where the refused one ends.
    fn joined(&self) -> Token<'t> {
        if self.next.span.from == self.found.span.to {
            self.next
        } else {
            ABSENT
        }
    }
}

/// Creates a token with the name of its place.
fn placed<'t>(place: &'static str, token: Token<'t>) -> PlacedToken<'t> {
    PlacedToken { place, token }
}

/// Returns the empty token at the end of a token.
fn end_of(token: Token<'_>) -> Token<'static> {
    Token {
        kind: TokenKind::End,
        span: Span {
            from: token.span.to,
            to: token.span.to,
        },
        text: &[],
    }
}

/// Returns the next token, or the placeholder at the end or at a lexical fault.
pub fn next_token<'t>(lexer: &mut Lexer<'t>) -> Token<'t> {
    match lexer.next() {
        Some(Ok(token)) => token,
        _ => ABSENT,
    }
}

impl<'t> TokenScanner<'t> {
    fn new(alloc: Global) -> TokenScanner<'t> {
        TokenScanner {
            first: ABSENT,
            second: ABSENT,
            third: ABSENT,
            before_last: ABSENT,
            last: ABSENT,
            closed: ABSENT,
            open: Vec::new(alloc),
        }
    }

    /// Advances the scan by a token.
    fn pass(&mut self, token: Token<'t>) -> Result<(), AllocError> {
        self.count(token);
        self.closed = ABSENT;
        if matches!(
            token.kind,
            TokenKind::OpenRound | TokenKind::OpenSquare | TokenKind::OpenCurly
        ) {
            self.open.push(OpenBracket {
                bracket: token,
                before: self.last,
            })?;
        }
        if matches!(
            token.kind,
            TokenKind::CloseRound | TokenKind::CloseSquare | TokenKind::CloseCurly
        ) {
            if let Some(open) = self.open.pop() {
                self.closed = open.before;
            }
        }
        self.before_last = self.last;
        self.last = token;
        Ok(())
    }

    /// Records a token as the next one of its statement, or as the first one of a new statement.
    fn count(&mut self, token: Token<'t>) {
        if self.begins_statement() {
            self.first = token;
            self.second = ABSENT;
            self.third = ABSENT;
        } else if self.second.kind == TokenKind::End {
            self.second = token;
        } else if self.third.kind == TokenKind::End {
            self.third = token;
        }
    }

    /// Returns true if a statement begins after the last token.
    fn begins_statement(&self) -> bool {
        match self.last.kind {
            TokenKind::End | TokenKind::OpenCurly | TokenKind::CloseCurly => true,
            TokenKind::Semicolon => self.opener().bracket.kind != TokenKind::OpenRound,
            _ => false,
        }
    }

    /// Returns the innermost open bracket.
    fn opener(&self) -> OpenBracket<'t> {
        match self.open.last() {
            Some(open) => *open,
            None => NOTHING_OPEN,
        }
    }

    /// Creates the context of a token, without the following ones. `at`: the offset of the token.
    fn around(self, text: &'t [u8], found: Token<'t>, at: usize) -> TokenContext<'t> {
        let mut walk = self;
        walk.count(found);
        let opener = walk.opener();
        let _ = walk.open.pop();
        TokenContext {
            text,
            first: walk.first,
            second: walk.second,
            third: walk.third,
            before_last: walk.before_last,
            last: walk.last,
            found,
            next: ABSENT,
            next_second: ABSENT,
            next_third: ABSENT,
            opener: opener.bracket,
            opener_before: opener.before,
            outer: walk.opener().bracket,
            closed: walk.closed,
            gap: gap_between(text, walk.last.span.to, at),
        }
    }
}

/// The placeholder for a bracket if none is open.
const NOTHING_OPEN: OpenBracket<'static> = OpenBracket {
    bracket: ABSENT,
    before: ABSENT,
};

/// Returns what is between two offsets, as a token with one of the texts `comment` for a `//` comment that begins there,
/// `line` for the end of a line, `none` for nothing, and `space`.
fn gap_between(text: &[u8], from: usize, to: usize) -> Token<'static> {
    let words = if begins_comment(text, from) {
        "comment"
    } else if has_line_end(text, from, to) {
        "line"
    } else if from == to {
        "none"
    } else {
        "space"
    };
    Token {
        kind: TokenKind::Name,
        span: Span { from, to },
        text: words.as_bytes(),
    }
}

/// Returns true if a `//` comment begins at an offset, possibly after spaces.
fn begins_comment(text: &[u8], from: usize) -> bool {
    let (_, behind) = text.split_at(from.min(text.len()));
    let mut rest = behind;
    for _ in 0..behind.len() {
        match rest.strip_prefix(b" ") {
            Some(after) => rest = after,
            None => break,
        }
    }
    rest.starts_with(b"//")
}

/// Returns true if a line ends between two offsets.
fn has_line_end(text: &[u8], from: usize, to: usize) -> bool {
    if from <= to && to <= text.len() {
        for byte in &text[from..to] {
            if *byte == b'\n' {
                return true;
            }
        }
    }
    false
}
