// A place in a list of tokens, with the number of tokens that are open there.

ghost use Rattle.std.specs.Prelude.{◌≡◌, suc, ◌≤◌, ◌<◌, ◌+◌, length, OnOk, OnErr, IfErr, Option, Some, None};
ghost use Rattle.mz_base.specs.declared.limit.TheConstants.{OPEN_LIMIT};
ghost use Rattle.mz_grammar.specs.Rules.{too_deep, syntax, left_out};
ghost use Rattle.mz_grammar.specs.RulesPromise.{fault_of, Gives};
ghost use Rattle.mz_grammar.specs.RulesReading.{symbol_at, word_at};
ghost use Rattle.mz_grammar.specs.Tokens.{tok_at, place, place_or, behind};

use crate::look::{is_sym, is_word};
use mz_base::{Fault, Kind, OPEN_LIMIT, Span, Stop};
use mz_lexer::{Keyword, Symbol, Tok, Token};

/// A place in a list of tokens: those that are still to be read, the place of the file's end, and how many more may be
/// opened.
#[derive(Drop)]
pub struct Cursor<'a> {
    pub rest: &'a [Token],
    pub end: Span,
    pub room: u32,
    ghost in_limit: { room ≤ OPEN_LIMIT },
}

impl<'a> Cursor<'a> {
    /// Before the first token, with none open. `end` is the place of the file's end.
    pub fn new(tokens: &'a [Token], end: Span) -> Cursor<'a>
        ensures rest { result.rest.now ≡ tokens.now }
        ensures end { result.end ≡ end }
        ensures room { result.room ≡ OPEN_LIMIT }
    {
        Cursor {
            rest: tokens,
            end,
            room: OPEN_LIMIT,
        }
    }

    /// What the next token is.
    pub fn tok(&self) -> Option<Tok>
        ensures { result ≡ tok_at self.now.rest.now }
    {
        match self.rest {
            [] => None,
            [t, ..] => Some(t.tok),
        }
    }

    /// The place of the next token, or that of the file's end after the last one.
    pub fn place(&self) -> Span
        ensures { result ≡ place_or self.now.end self.now.rest.now }
    {
        match self.rest {
            [] => self.end,
            [t, ..] => t.span,
        }
    }

    /// Passes a token, and gives its place.
    pub fn pass(&mut self) -> Span
        requires { 0 < length self.old.rest.now }
        ensures place { result ≡ place self.old.rest.now }
        ensures rest { self.new.rest.now ≡ behind self.old.rest.now }
        ensures room { self.new.room ≡ self.old.room }
        ensures end { self.new.end ≡ self.old.end }
        ensures shorter { suc (length self.new.rest.now) ≡ length self.old.rest.now }
    {
        let at = self.rest[0].span;
        self.rest = &self.rest[1..];
        at
    }

    /// Passes a token.
    pub fn skip(&mut self)
        requires { 0 < length self.old.rest.now }
        ensures rest { self.new.rest.now ≡ behind self.old.rest.now }
        ensures room { self.new.room ≡ self.old.room }
        ensures end { self.new.end ≡ self.old.end }
        ensures shorter { suc (length self.new.rest.now) ≡ length self.old.rest.now }
    {
        self.rest = &self.rest[1..];
    }

    /// One more token is open. TooDeep, at `place`, exactly where `OPEN_LIMIT` are open; nothing is changed then.
    pub fn push(&mut self) -> Result<(), Fault>
        ensures ok { OnOk result (self.old.room ≡ suc self.new.room) }
        ensures full { OnErr result ((self.old.room ≡ 0) × (self.new.room ≡ 0)) }
        ensures fault { IfErr result (λ f. f ≡ fault_of too_deep (place_or self.old.end self.old.rest.now)) }
        ensures rest { self.new.rest.now ≡ self.old.rest.now }
        ensures end { self.new.end ≡ self.old.end }
    {
        if self.room == 0 {
            return Err(Fault::at(Kind::TooDeep, self.place()));
        }
        self.room -= 1;
        Ok(())
    }

    /// One that is open is closed.
    pub fn pop(&mut self)
        requires { self.old.room < OPEN_LIMIT }
        ensures room { self.new.room ≡ suc self.old.room }
        ensures rest { self.new.rest.now ≡ self.old.rest.now }
        ensures end { self.new.end ≡ self.old.end }
    {
        self.room += 1;
    }

    /// The next token fits nowhere.
    pub fn unfit(&self) -> Stop
        ensures { result ≡ Stop.Refused (fault_of syntax (place_or self.now.end self.now.rest.now)) }
    {
        Stop::Refused(Fault::at(Kind::Syntax, self.place()))
    }

    /// The next token begins a form that is left out of the language.
    pub fn left_out(&self) -> Stop
        ensures { result ≡ Stop.Refused (fault_of left_out (place_or self.now.end self.now.rest.now)) }
    {
        Stop::Refused(Fault::at(Kind::LeftOut, self.place()))
    }

    /// Passes this symbol, and gives its place. Syntax, at `place`, where another token stands.
    pub fn symbol(&mut self, s: Symbol) -> Result<Span, Stop>
        ensures reads { Gives (λ p. p) self.new.end self.new.rest.now result (symbol_at s self.old.rest.now) }
        ensures room { self.new.room ≡ self.old.room }
        ensures end { self.new.end ≡ self.old.end }
        ensures shorter { OnOk result (length self.new.rest.now < length self.old.rest.now) }
    {
        if is_sym(s, self.tok()) {
            Ok(self.pass())
        } else {
            Err(self.unfit())
        }
    }

    /// Passes this keyword, and gives its place. Syntax, at `place`, where another token stands.
    pub fn word(&mut self, k: Keyword) -> Result<Span, Stop>
        ensures reads { Gives (λ p. p) self.new.end self.new.rest.now result (word_at k self.old.rest.now) }
        ensures room { self.new.room ≡ self.old.room }
        ensures end { self.new.end ≡ self.old.end }
        ensures shorter { OnOk result (length self.new.rest.now < length self.old.rest.now) }
    {
        if is_word(k, self.tok()) {
            Ok(self.pass())
        } else {
            Err(self.unfit())
        }
    }
}
