//! The parser: a position in the tokens of a text, settings, and counts for contracts.

ghost use Rattle.std.specs.Prelude.{◌≡◌, ◌≢◌, ◌+◌, ◌≤◌, List, [], ◌∷◌, length, drop, max, IfOk, Some, None, IfErr, MatchBool, MatchOption};
ghost use Rattle.wat_lexer.specs.Prelude.{IsCut, FirstFault, text_of, offset_of, Placed, LParen, RParen, placed, AreSkips};
ghost use Rattle.wat_tokens.specs.Counts.{Carries, Quiet, SameSettings};
ghost use Rattle.wat_tokens.specs.Lookup.{in_front, FirstIs};
ghost use Rattle.wat_tokens.specs.Error.{Error};
ghost use Rattle.wat_tokens.specs.PartSpells.{one_reads};
ghost use Rattle.wat_tokens.specs.Parts.{flag};
ghost use Rattle.wat_tokens.specs.Reads.{Reads, Takes, Unmoved, BehindOne};
ghost use Rattle.wat_tokens.specs.State.{begun, IsFresh};
ghost use Rattle.wat_tokens.specs.Tests.{as_lparen, as_rparen, as_keyword, as_id, as_integer, as_string, word_only, annotation_only, begins_word, begins_lparen, begins_group, begins_annotation, none_left, ends, second};
ghost use Rattle.wat_tokens.specs.Views.{plain};
ghost use Rattle.wat_tokens.specs.Visible.{shown, seen, behind_one, closing, IsPlaceOf};

use crate::closing::closing;
use crate::counter::Counter;
use crate::cursor::Cursor;
use crate::next_visible::next_visible;
use bumpalo::Bump;
use std::alloc::Global;
use std::marker::Model;
use wat_lexer::cut::cut;
use wat_lexer::fault::{Error, Fault};
use wat_lexer::number::Integer;
use wat_lexer::span::Span;
use wat_lexer::token::Token;
use wat_lexer::tokens::Tokens;

/// Takes the tokens of a text, from the first to the last.
///
/// The parser's position is directly after the last token that it took. The parser skips the whole
/// group of an annotation that isn't known (Text Format, "Annotations"). At first no annotation is
/// known; [`with_standard_annotations`](Parser::with_standard_annotations) makes five annotations
/// known.
///
/// A call that takes one token returns Unexpected if the next token isn't of the wanted kind, and
/// then leaves the parser unchanged. The error's offset is that of the next token, or the length
/// of the text if no token is left.
///
/// The names and strings that the parser returns live as long as the text and the arena. Contracts
/// see a parser as a `State`: the tokens that are left, the settings, and the counts.
#[derive(Drop)]
pub struct Parser<'a> {
    tokens: Tokens<'a>,
    /// The index after that of the last token that was taken; 0 if no token was taken.
    at: usize,
    /// The index of the next token: the first visible token from `at` on.
    front: usize,
    /// The length of the text in bytes.
    end: usize,
    known: bool,
    tracks: bool,
    taken: Counter,
    turns: Counter,
    probes: Counter,
    peak: usize,
    held: usize,
    alloc: Global,
}

impl<'a> Model for Parser<'a> {
    ghost use Rattle.std.specs.Prelude.{drop, ◌≤◌, length};
    ghost use Rattle.wat_tokens.specs.State.{State};

    ghost Value = { State };

    ghost use Rattle.wat_lexer.specs.Sight.{visible_tokens};
    ghost use Rattle.wat_lexer.specs.View.{entry_tokens, placed, AreSkips, IsNextVisible};

    ghost view = { λ p. record {
      rest = drop p.at (placed p.tokens);
      left = visible_tokens p.known
          (entry_tokens (drop p.at p.tokens));
      known = p.known;
      tracks = p.tracks;
      taken = p.taken.count;
      turns = p.turns.count;
      probes = p.probes.count;
      peak = p.peak;
      held = p.held;
    } };

    ghost invariant = { λ p. (p.at ≤ length p.tokens) × AreSkips p.tokens × IsNextVisible p.known
        p.at p.tokens p.front };
}

impl<'a> Parser<'a> {
    /// Cuts a text into tokens (Text Format, "Lexical Format"), and returns a parser before the
    /// first token. No annotation is known.
    ///
    /// If the text has no cut, returns its first lexical error: the leftmost LexChar, LexString or
    /// LexComment, or LexAnnotation if there is none of these. Any text can return Memory.
    pub fn new(alloc: Global, text: &'a str, arena: &'a Bump) -> Result<Parser<'a>, Error>
        ensures fresh { IfOk result (λ p. IsFresh text.now p) }
        ensures fault { IfErr result (λ e. e.fault ≢ Fault.Memory
            → FirstFault text.now e.fault (offset_of e.span)) }
        ensures uncut { IfErr result (λ e. e.fault ≢ Fault.Memory → (ts : List Placed)
            → IsCut text.now ts → ⊥) }
    {
        let tokens = cut(alloc, text, arena)?;
        Ok(Parser::over(alloc, tokens, text.len()))
    }

    /// Returns a parser before the first token of a text that is already cut into tokens. No
    /// annotation is known. `end` is the length of the text in bytes: if no token is left, it is the
    /// offset of the error Unexpected.
    #[tactic(auto, using(crate::proofs::Steps::placed_steps))]
    pub fn over(alloc: Global, tokens: Tokens<'a>, end: usize) -> Parser<'a>
        requires { AreSkips tokens }
        ensures { result ≡ begun (placed tokens.entry) }
    {
        let front = next_visible(&tokens, 0, false);
        Parser {
            tokens,
            at: 0,
            front,
            end,
            known: false,
            tracks: false,
            taken: Counter::new(),
            turns: Counter::new(),
            probes: Counter::new(),
            peak: 0,
            held: 0,
            alloc,
        }
    }

    /// Makes the five standard annotations known or unknown: `custom`, `producers`, `name`,
    /// `dylink.0` and `metadata.code.branch_hint`. The parser's position doesn't change.
    #[tactic(auto, using(crate::proofs::Steps::placed_steps))]
    pub fn with_standard_annotations(&mut self, on: bool)
        ensures value { self.new ≡ record self.old { known = on; left = seen on self.old.rest } }
        ensures was { self.old.left ≡ seen self.old.known self.old.rest }
    {
        self.known = on;
        self.front = next_visible(&self.tokens, self.at, on);
    }

    /// Returns whether the five standard annotations are known.
    pub fn known(&self) -> bool
        ensures { result ≡ self.now.known }
    {
        self.known
    }

    /// Sets whether expressions keep the position of each instruction. The default is false.
    pub fn track_instr_spans(&mut self, on: bool)
        ensures { self.new ≡ record self.old { tracks = on } }
    {
        self.tracks = on;
    }

    /// Returns whether expressions keep the position of each instruction.
    pub fn tracks(&self) -> bool
        ensures { result ≡ self.now.tracks }
    {
        self.tracks
    }

    /// Counts one turn of a loop over the tokens, in `turns`. Only contracts read this count, and
    /// the call does nothing when it runs.
    #[tactic(auto, using(crate::proofs::CountSteps::carries_still))]
    pub fn tick(&mut self)
        ensures only { self.new ≡ record self.old { turns = self.old.turns + 1 } }
        ensures counts { Carries self.old self.new }
    {
        self.turns.tick();
    }

    /// Counts one comparison of a word with an entry of a table, in `probes`. Only contracts read
    /// this count, and the call does nothing when it runs.
    #[tactic(auto, using(crate::proofs::CountSteps::carries_still))]
    pub fn probe(&mut self)
        ensures only { self.new ≡ record self.old { probes = self.old.probes + 1 } }
        ensures counts { Carries self.old self.new }
    {
        self.probes.tick();
    }

    /// Notes the height of a stack: `peak` becomes the maximum of `peak` and `height`. Only
    /// contracts read `peak`.
    pub fn note_height(&mut self, height: usize)
        ensures { self.new ≡ record self.old { peak = max self.old.peak height } }
    {
        self.peak = self.peak.max(height);
    }

    /// Notes how many heads of groups a stack holds: `held` becomes the maximum of `held` and
    /// `heads`. Only contracts read `held`.
    #[tactic(auto, using(crate::proofs::CountSteps::carries_still))]
    pub fn note_held(&mut self, heads: usize)
        ensures only { self.new ≡ record self.old { held = max self.old.held heads } }
        ensures counts { Carries self.old self.new }
    {
        self.held = self.held.max(heads);
    }

    /// Returns the parser's allocator. Values that are read allocate heap memory with it.
    pub fn alloc(&self) -> Global {
        self.alloc
    }

    /// Returns a cursor at the next token, for lookahead.
    pub fn cursor(&self) -> Cursor<'_>
        ensures { in_front result ≡ self.now.left }
    {
        Cursor::new(&self.tokens, self.front, self.known)
    }

    /// Returns the offset in bytes of the next token, or the length of the text if no token is
    /// left. The contract describes only the offset of a token.
    pub fn cur_span(&self) -> Span
        ensures { IsPlaceOf (offset_of result) (shown self.now.known self.now.rest) }
    {
        if self.front < self.tokens.len() {
            Span::from_offset(self.tokens.offset(self.front))
        } else {
            Span::from_offset(self.end)
        }
    }

    /// Returns the offset in bytes of the last token that was taken, or 0 if no token was taken. No
    /// contract describes this offset.
    pub fn prev_span(&self) -> Span {
        if self.at > 0 {
            Span::from_offset(self.tokens.offset(self.at - 1))
        } else {
            Span::from_offset(0)
        }
    }

    /// Returns the error Unexpected, at the next token, or at the end of the text if no token is
    /// left.
    #[cold]
    #[inline(never)]
    pub fn unexpected(&self) -> Error
        ensures { result.fault ≡ Fault.Unexpected }
    {
        Error::at(Fault::Unexpected, self.cur_span())
    }

    /// Returns whether no token is left.
    pub fn at_end(&self) -> bool
        ensures { result ≡ none_left self.now.left }
    {
        self.first().is_none()
    }

    /// Returns whether the group or the text ends here: no token is left, or the next token is `)`.
    #[tactic(auto, using(crate::proofs::Steps::paren_steps, crate::proofs::Steps::visible_steps))]
    pub fn is_empty(&self) -> bool
        ensures { result ≡ ends self.now.left }
    {
        self.front >= self.tokens.len() || self.tokens.closes(self.front)
    }

    /// Returns whether the next token is the keyword `word`.
    #[inline(always)]
    pub fn next_is(&self, word: &str) -> bool
        ensures { result ≡ begins_word word.now self.now.left }
    {
        match self.first() {
            Some(Token::Keyword(text)) => text == word,
            _ => false,
        }
    }

    /// Returns whether the next two tokens are a `(` and the keyword `word`.
    #[inline(always)]
    pub fn group_is(&self, word: &str) -> bool
        ensures { result ≡ begins_group word.now self.now.left }
    {
        self.cursor().group_is(word)
    }

    /// Returns whether the token after the next token is the keyword `word`.
    #[inline(always)]
    pub fn second_is(&self, word: &str) -> bool
        ensures { result ≡ second (begins_word word.now) self.now.left }
    {
        match self.cursor().any() {
            Some(rest) => match rest.keyword() {
                Some((text, _)) => text == word,
                None => false,
            },
            None => false,
        }
    }

    /// Returns whether the next two tokens are a `(` and the annotation `name`, which is given
    /// without its `@`.
    pub fn annotation_is(&self, name: &str) -> bool
        ensures { result ≡ begins_annotation name.now self.now.left }
    {
        self.cursor().annotation_is(name)
    }

    /// Returns the next token.
    #[inline(always)]
    #[tactic(auto, using(crate::proofs::Steps::visible_steps))]
    fn first(&self) -> Option<Token<'a>>
        ensures { FirstIs result self.now.left }
    {
        if self.front < self.tokens.len() {
            Some(self.tokens.token(self.front))
        } else {
            None
        }
    }

    /// Returns whether the next token is a `(`.
    #[inline(always)]
    pub fn opens(&self) -> bool
        ensures { result ≡ begins_lparen self.now.left }
    {
        self.cursor().lparen().is_some()
    }

    /// Returns whether the next token is a `(`. This contract has the form that
    /// [`open`](Parser::open) needs.
    #[tactic(auto, using(crate::proofs::Steps::paren_steps, crate::proofs::Steps::visible_steps))]
    fn at_lparen(&self) -> bool
        ensures { MatchBool result (self.now.left ≡ LParen ∷ drop 1 self.now.left)
            (one_reads as_lparen self.now.left ≡ None) }
    {
        self.front < self.tokens.len() && self.tokens.opens(self.front)
    }

    /// Returns whether the next token is a `)`. Only the kind of the token is read.
    #[tactic(auto, using(crate::proofs::Steps::paren_steps, crate::proofs::Steps::visible_steps))]
    fn at_rparen(&self) -> bool
        ensures { MatchBool result (self.now.left ≡ RParen ∷ drop 1 self.now.left)
            (one_reads as_rparen self.now.left ≡ None) }
    {
        self.front < self.tokens.len() && self.tokens.closes(self.front)
    }

    /// Takes the next token.
    #[tactic(auto, using(crate::proofs::Steps::advance_steps))]
    fn advance(&mut self)
        requires { self.old.left ≢ [] }
        ensures left { self.new.left ≡ drop 1 self.old.left }
        ensures position { self.new.rest ≡ behind_one self.old.known self.old.rest }
        ensures taken { self.new.taken ≡ self.old.taken + 1 }
        ensures quiet { Quiet self.old self.new }
        ensures settings { SameSettings self.old self.new }
    {
        prove!(self.front < self.tokens.len());
        self.at = self.front + 1;
        self.front = next_visible(&self.tokens, self.at, self.known);
        self.taken.tick();
    }

    /// Takes the next token, as `advance` does. The contract adds the clause `counts`.
    fn step(&mut self)
        requires { self.old.left ≢ [] }
        ensures left { self.new.left ≡ drop 1 self.old.left }
        ensures position { self.new.rest ≡ behind_one self.old.known self.old.rest }
        ensures counts { Carries self.old self.new }
        ensures taken { self.new.taken ≡ self.old.taken + 1 }
        ensures quiet { Quiet self.old self.new }
        ensures settings { SameSettings self.old self.new }
    {
        self.advance();
    }

    /// Passes over the next token, of any kind. Does nothing but pass over hidden tokens if no
    /// token is left. A token that is passed over isn't counted in `taken`.
    #[tactic(auto, using(crate::proofs::Steps::placed_steps, crate::proofs::Steps::pass_steps))]
    pub fn pass_token(&mut self)
        ensures value { self.new ≡ record self.old {
          rest = behind_one self.old.known self.old.rest;
          left = seen self.old.known (behind_one self.old.known self.old.rest);
        } }
        ensures few { length self.new.rest ≤ usize.MAX }
    {
        let count = self.tokens.len();
        self.at = (self.front + 1).min(count);
        self.front = next_visible(&self.tokens, self.at, self.known);
    }

    /// Passes over the group that begins with the next token: over this token, and over all tokens
    /// up to and including the `)` that closes the group. Returns the offset in bytes of this `)`.
    ///
    /// Passes over all tokens that are left and returns None if no `)` closes the group. The tokens
    /// that are passed over aren't counted in `taken`.
    #[tactic(auto, using(crate::proofs::Steps::placed_steps))]
    pub fn pass_group(&mut self) -> Option<Span>
        ensures closed { MatchOption result
            ((closing 0 (behind_one self.old.known self.old.rest) ≡ None) × (self.new.rest ≡ []))
            (λ s. closing 0 (behind_one self.old.known self.old.rest)
            ≡ Some (offset_of s, self.new.rest)) }
        ensures only { self.new ≡ record self.old {
          rest = self.new.rest;
          left = seen self.old.known self.new.rest;
        } }
    {
        self.pass_token();
        match closing(&self.tokens, self.at) {
            Some(index) => {
                let span = Span::from_offset(self.tokens.offset(index));
                self.at = index + 1;
                self.front = next_visible(&self.tokens, self.at, self.known);
                Some(span)
            }
            None => {
                self.at = self.tokens.len();
                self.front = next_visible(&self.tokens, self.at, self.known);
                None
            }
        }
    }

    /// Takes a `(`. Returns Unexpected if the next token isn't a `(`.
    #[inline(always)]
    pub fn open(&mut self) -> Result<(), Error>
        ensures reads { Takes (λ x. x) as_lparen result self.old self.new }
        ensures refused { Unmoved result self.old self.new }
        ensures position { BehindOne result self.old self.new }
    {
        if !self.at_lparen() {
            return Err(self.unexpected());
        }
        self.step();
        Ok(())
    }

    /// Takes a `)`. Returns Unexpected if the next token isn't a `)`.
    pub fn close(&mut self) -> Result<(), Error>
        ensures reads { Takes (λ x. x) as_rparen result self.old self.new }
        ensures refused { Unmoved result self.old self.new }
        ensures position { BehindOne result self.old self.new }
    {
        if !self.at_rparen() {
            return Err(self.unexpected());
        }
        self.step();
        Ok(())
    }

    /// Takes the keyword `word` (Text Format, "Tokens"), and returns its offset in bytes. Returns
    /// Unexpected if the next token isn't this keyword.
    #[inline(always)]
    pub fn keyword(&mut self, word: &str) -> Result<Span, Error>
        ensures reads { Takes (λ _. tt) (word_only word.now) result self.old self.new }
        ensures refused { Unmoved result self.old self.new }
        ensures position { BehindOne result self.old self.new }
    {
        match self.first() {
            Some(Token::Keyword(text)) if text == word => {
                let span = self.cur_span();
                self.step();
                Ok(span)
            }
            _ => Err(self.unexpected()),
        }
    }

    /// Takes the keyword `word` (Text Format, "Tokens") if it is the next token, and returns
    /// whether it was.
    #[inline(always)]
    pub fn flag(&mut self, word: &str) -> bool
        ensures reads { Reads (plain (λ b. b)) (flag word.now) (Ok result) self.old self.new }
        ensures stands { result ≡ begins_word word.now self.old.left }
    {
        let stands = self.next_is(word);
        if stands {
            self.step();
        }
        stands
    }

    /// Takes the annotation `name` (Text Format, "Annotations"), which is given without its `@`,
    /// and returns its offset in bytes. Returns Unexpected if the next token isn't this annotation.
    pub fn take_annotation(&mut self, name: &str) -> Result<Span, Error>
        ensures reads { Takes (λ _. tt) (annotation_only name.now) result self.old self.new }
        ensures refused { Unmoved result self.old self.new }
        ensures position { BehindOne result self.old self.new }
    {
        match self.first() {
            Some(Token::Annotation(text)) if text == name => {
                let span = self.cur_span();
                self.step();
                Ok(span)
            }
            _ => Err(self.unexpected()),
        }
    }

    /// Takes any keyword (Text Format, "Tokens"), and returns it. Returns Unexpected if the next
    /// token isn't a keyword.
    #[inline(always)]
    pub fn take_keyword(&mut self) -> Result<&'a str, Error>
        ensures reads { Takes (λ x. x.now) as_keyword result self.old self.new }
        ensures refused { Unmoved result self.old self.new }
        ensures position { BehindOne result self.old self.new }
    {
        match self.first() {
            Some(Token::Keyword(text)) => {
                self.step();
                Ok(text)
            }
            _ => Err(self.unexpected()),
        }
    }

    /// Takes an identifier (Text Format, "Identifiers"), and returns its name without the `$`.
    /// Returns Unexpected if the next token isn't an identifier.
    #[inline(always)]
    pub fn take_id(&mut self) -> Result<&'a str, Error>
        ensures reads { Takes (λ x. x.now) as_id result self.old self.new }
        ensures refused { Unmoved result self.old self.new }
        ensures position { BehindOne result self.old self.new }
    {
        match self.first() {
            Some(Token::Id(text)) => {
                self.step();
                Ok(text)
            }
            _ => Err(self.unexpected()),
        }
    }

    /// Takes an integer (Text Format, "Integers") of any value, and returns it. Returns Unexpected
    /// if the next token isn't an integer.
    #[inline(always)]
    pub fn take_integer(&mut self) -> Result<Integer<'a>, Error>
        ensures reads { Takes text_of as_integer result self.old self.new }
        ensures refused { Unmoved result self.old self.new }
        ensures position { BehindOne result self.old self.new }
    {
        match self.first() {
            Some(Token::Integer(integer)) => {
                self.step();
                Ok(integer)
            }
            _ => Err(self.unexpected()),
        }
    }

    /// Takes a string (Text Format, "Strings"), and returns its decoded bytes. Returns Unexpected
    /// if the next token isn't a string.
    #[inline(always)]
    pub fn take_string(&mut self) -> Result<&'a [u8], Error>
        ensures reads { Takes (λ x. x.now) as_string result self.old self.new }
        ensures refused { Unmoved result self.old self.new }
        ensures position { BehindOne result self.old self.new }
    {
        match self.first() {
            Some(Token::String(bytes)) => {
                self.step();
                Ok(bytes)
            }
            _ => Err(self.unexpected()),
        }
    }
}
