//! The token cursor of the parser, with two tokens of look-ahead.

ghost use Rattle.std.specs.Prelude.{◌≡◌, ℕ, List, [], ◌∷◌, ◌<◌, ◌≤◌, length, map, MatchOption, IsTrue, ◌↔◌, true, false, IfOk, OnOk, suc};
ghost use Rattle.lexer.specs.Given.{lexeme_of};
ghost use Rattle.syntax.specs.declared.grammar.stop.ParseStop.TheVariants.{TooNested};
ghost use Rattle.language.specs.Rules.{Place};
ghost use Rattle.syntax.specs.Formed.{has_form};
ghost use Rattle.syntax.specs.Held.{Begins, IsFormed, led, tokens_of};
ghost use Rattle.syntax.specs.Answers.{Gives};
ghost use Rattle.syntax.specs.Readers.{at, at_end, second, the, opened, kind_at, stop_at, tail_of, got};
ghost use Rattle.syntax.specs.Reading.{at_type, at_operator, level_at, read_operator, read_type};
ghost use Rattle.language.specs.Grammar.{first_of};

use crate::grammar::kinds::rank;
use crate::grammar::stop::ParseStop;
use language::operators::{base_of_kind, operator_of_kind};
use language::tree::{Base, Level, Operator};
use lexer::Lexer;
use lexer::token::{Span, Token, TokenKind};
use std::marker::Model;

/// A position in the tokens of a text. It holds the next two tokens and pulls further ones from the lexer as needed.
/// The end of the text and a lexical fault both read as an absent token.
#[derive(Drop)]
pub struct Cursor<'a> {
    next: Option<Token<'a>>,
    behind: Option<Token<'a>>,
    lexer: Lexer<'a>,
    before: usize,
}

impl<'a> Model for Cursor<'a> {
    ghost Value = { Place };

    ghost view = { λ c. record { before = c.before; rest = led c.next (led c.behind (tokens_of c.lexer)) } };

    ghost invariant = { λ c. IsFormed c.next × IsFormed c.behind };
}

/// Returns the next token of a lexer, or `None` if the text ends or a fault comes first.
fn following<'a>(lexer: &mut Lexer<'a>) -> Option<Token<'a>>
    ensures tokens { led result (tokens_of lexer.new) ≡ tokens_of lexer.old }
    ensures formed { IsFormed result }
{
    match lexer.next() {
        Some(Ok(token)) => Some(token),
        _ => None,
    }
}

impl<'a> Cursor<'a> {
    /// Creates a cursor at the beginning of a text. The text may hold any bytes.
    pub fn new(source: &'a [u8]) -> Cursor<'a>
        ensures { Begins source.now result }
    {
        let mut lexer = Lexer::new(source);
        let next = following(&mut lexer);
        let behind = following(&mut lexer);
        Cursor {
            next,
            behind,
            lexer,
            before: 0,
        }
    }

    /// Advances past the next token, which ends at `to`.
    fn advance(&mut self, to: usize)
        requires { 0 < length self.old.rest }
        ensures { self.new ≡ record { before = to; rest = tail_of self.old.rest } }
    {
        self.before = to;
        self.next = self.behind;
        match self.lexer.next() {
            Some(Ok(token)) => self.behind = Some(token),
            _ => self.behind = None,
        }
    }

    /// Returns the kind of the next token, or `End` if there is none.
    pub fn kind(&self) -> TokenKind
        ensures { result ≡ kind_at self.now }
    {
        match &self.next {
            Some(token) => token.kind,
            None => TokenKind::End,
        }
    }

    #[tactic(auto, unfolding(crate::specs::Readers::at))]
    pub fn at(&self, kind: TokenKind) -> bool
        ensures { result ≡ at kind self.now }
    {
        match &self.next {
            Some(token) => token.kind == kind,
            None => TokenKind::End == kind,
        }
    }

    #[tactic(auto, unfolding(crate::specs::Readers::second))]
    pub fn second(&self, kind: TokenKind) -> bool
        ensures { result ≡ second kind self.now }
    {
        match &self.next {
            None => TokenKind::End == kind,
            Some(_) => match &self.behind {
                Some(token) => token.kind == kind,
                None => TokenKind::End == kind,
            },
        }
    }

    /// Returns the place of the next token, or an empty place at 0 if there is none.
    pub fn first(&self) -> Span
        ensures { result ≡ first_of self.now.rest }
    {
        match &self.next {
            Some(token) => token.span,
            None => Span { from: 0, to: 0 },
        }
    }

    /// Returns the end of the token before this position, or 0 at the beginning.
    pub fn before(&self) -> usize
        ensures { result ≡ self.now.before }
    {
        self.before
    }

    /// Returns the stop at an unexpected next token, or `AtEnd` if there is none.
    pub fn unexpected(&self) -> ParseStop
        ensures { result ≡ stop_at self.now }
    {
        match &self.next {
            Some(token) => ParseStop::Unexpected(token.span),
            None => ParseStop::AtEnd,
        }
    }

    /// Returns the stop at a next token that is allowed but nests too deep.
    pub fn too_nested(&self) -> ParseStop
        ensures { result ≡ TooNested (first_of self.now.rest) }
    {
        ParseStop::TooNested(self.first())
    }

    /// Consumes and returns the next token, which has to be of this kind.
    #[tactic(auto, unfolding(crate::specs::Readers::the))]
    pub fn take(&mut self, kind: TokenKind) -> Result<Token<'a>, ParseStop>
        ensures reads { Gives lexeme_of result self.new (the kind self.old) }
        ensures formed { IfOk result (λ t. IsTrue (has_form kind t.text.now)) }
        ensures shorter { OnOk result (length self.new.rest < length self.old.rest) }
    {
        let Some(token) = self.next else {
            return Err(ParseStop::AtEnd);
        };
        if token.kind != kind {
            return Err(ParseStop::Unexpected(token.span));
        }
        self.advance(token.span.to);
        Ok(token)
    }

    /// Returns true if no token is left.
    #[tactic(auto, unfolding(crate::specs::Readers::at_end))]
    pub fn is_empty(&self) -> bool
        ensures { result ≡ at_end self.now }
    {
        self.next.is_none()
    }

    #[tactic(auto, unfolding(crate::specs::Reading::at_type))]
    pub fn at_type(&self) -> bool
        ensures { result ≡ at_type self.now }
    {
        base_of_kind(self.kind()).is_some()
    }

    #[tactic(auto, unfolding(crate::specs::Reading::operator_at))]
    pub fn at_operator(&self, level: Level) -> bool
        ensures { result ≡ at_operator level self.now }
    {
        match operator_of_kind(self.kind()) {
            Some(operator) => operator.level() == level,
            None => false,
        }
    }

    /// Returns the level of the next token if it is an operator whose level lies between rank `from` and level `to`.
    #[tactic(auto, unfolding(crate::specs::Reading::level_at))]
    pub fn level_at(&self, from: u32, to: Level) -> Option<Level>
        ensures { result ≡ level_at from to self.now }
    {
        let operator = operator_of_kind(self.kind())?;
        let level = operator.level();
        if from <= rank(level) && rank(level) <= rank(to) {
            Some(level)
        } else {
            None
        }
    }

    /// Consumes an opening token, which has to be of this kind, and returns the nesting depth left inside it. With a
    /// depth of 0 it returns `TooNested`.
    #[tactic(auto, unfolding(crate::specs::Readers::opened))]
    pub fn open(&mut self, kind: TokenKind, depth: u32) -> Result<u32, ParseStop>
        ensures reads { Gives (λ n. n) result self.new (opened kind depth self.old) }
        ensures shorter { OnOk result (length self.new.rest < length self.old.rest) }
        ensures less { IfOk result (λ n. n < depth) }
    {
        let token = self.take(kind)?;
        if depth == 0 {
            return Err(ParseStop::TooNested(token.span));
        }
        Ok(depth - 1)
    }

    /// Consumes and returns the next token if it is an operator of this level.
    #[tactic(auto, unfolding(crate::specs::Reading::read_operator, crate::specs::Reading::operator_at))]
    pub fn take_operator(&mut self, level: Level) -> Option<Operator>
        ensures reads { MatchOption result ((at_operator level self.old ≡ false) × (self.new ≡ self.old))
            (λ o. (at_operator level self.old ≡ true) × (read_operator level self.old ≡ got o self.new)) }
        ensures shorter { length self.new.rest ≤ length self.old.rest }
    {
        let Some(token) = self.next else {
            return None;
        };
        let Some(operator) = operator_of_kind(token.kind) else {
            return None;
        };
        if operator.level() != level {
            return None;
        }
        self.advance(token.span.to);
        Some(operator)
    }

    /// Consumes the next token, which has to name a type, and returns the type.
    #[tactic(auto, unfolding(crate::specs::Reading::read_type))]
    pub fn take_type(&mut self) -> Result<Base, ParseStop>
        ensures reads { Gives (λ b. b) result self.new (read_type self.old) }
        ensures shorter { OnOk result (length self.new.rest < length self.old.rest) }
    {
        let Some(token) = self.next else {
            return Err(ParseStop::AtEnd);
        };
        let Some(base) = base_of_kind(token.kind) else {
            return Err(ParseStop::Unexpected(token.span));
        };
        self.advance(token.span.to);
        Ok(base)
    }
}
