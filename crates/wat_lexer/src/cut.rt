//! Cuts a text into tokens.

ghost use Rattle.std.specs.Prelude.{◌≡◌, ◌&&◌, ◌==◌, ◌+◌, ◌-◌, ◌≤◌, ◌<◌, IfOk, IfErr, IfSome, IsTrue, ℕ, List, true, false, length, drop, slice_range, slice_index, nat_lt, if◌then◌else◌};
ghost use Rattle.wat_lexer.specs.Cut.{Cuts, FirstFault, IsCut};
ghost use Rattle.wat_lexer.specs.Offset.{offset_of};
ghost use Rattle.wat_lexer.specs.Scan.{front, run_front, behind_run, all_idchars, Between, Ends};
ghost use Rattle.wat_lexer.specs.Token.{Placed, has_annotation, is_open};
ghost use Rattle.wat_lexer.specs.View.{view, entry_tokens, placed, is_paren, lying, AreSkips, IsPut, FrontGives, IfFault, FailsAt, HasRoom, is_word, FoundFits, found_tok, text_limit, lying_skips, no_skips};
ghost use Rattle.wat_lexer.specs.declared.fault.Fault.{Fault};

use crate::class::{part, plain_kind, string_token};
use crate::common::common_token;
use crate::decode::Decoder;
use crate::fault::{Error, Fault, fault_at};
use crate::groups::tell_skips;
use crate::lexeme::{
    Kind, Skips, TEXT_LIMIT, has_room, is_annotation_kind, is_open, is_word, kept, kept_near,
};
use crate::scan::{comment_end, is_space, line_end, plain_end, run_end, spaces_end};
use crate::side_entry::SideEntry;
use crate::token::Token;
use crate::tokens::{Tokens, read};
use bumpalo::Bump;
use std::alloc::{AllocError, Global};

/// The kind of the next token, or `None` for a blank, and the offset of its end in bytes.
///
/// This type is public because definitions of specs/View.antt name it. No public function takes or
/// returns a `Piece`.
#[derive(Clone, Copy, Debug)]
pub struct Piece {
    pub kind: Option<Kind>,
    pub end: usize,
}

/// Puts the token at offset `at` into the side table. Returns the kind to store.
// Few tokens are in the side table, so this function isn't inlined.
#[inline(never)]
fn put<'a>(
    token: Token<'a>,
    at: usize,
    side_table: &mut Vec<SideEntry<'a>>,
) -> Result<Kind, AllocError>
    requires fits { at < text_limit }
    requires no_paren { is_paren (view token) ≡ false }
    ensures { IfOk result (λ k. IsPut side_table.old.items side_table.new.items at
        (view token.entry) k) }
{
    let entry = SideEntry::of(token, at);
    let annotates = entry.annotates();
    side_table.push(entry)?;
    if annotates {
        Ok(Kind::Annotation)
    } else {
        Ok(Kind::InSideTable)
    }
}

/// Reads the run at offset `at`. Puts a token that isn't read from the text into the side table.
#[tactic(auto, using(crate::proofs::FrontAt::run_steps))]
fn run<'a>(
    text: &'a str,
    at: usize,
    behind: bool,
    decoder: &mut Decoder<'a>,
    side_table: &mut Vec<SideEntry<'a>>,
) -> Result<Piece, Error>
    requires fits { length text.now < text_limit }
    requires place { at < length text.now }
    ensures within { IfOk result (λ p. (at < p.end) × (p.end ≤ length text.now)) }
    ensures value { FrontGives text.now side_table.old.items side_table.new.items at result
        (run_front behind (drop at text.now) (behind_run Between (drop at text.now))) }
{
    let bytes = text.as_bytes();
    let plain = plain_end(bytes, at);
    if plain < bytes.len() && bytes[plain] == b'"' {
        return string_run(text, at, plain, behind, decoder, side_table);
    }
    if plain == at {
        return Err(fault_at(Fault::LexChar, at));
    }
    plain_run(text, at, plain, behind, side_table)
}

/// Reads the run of idchars from `at` to `end`. Puts an annotation into the side table.
#[tactic(auto, using(crate::proofs::Plain::plain_ascii))]
fn plain_run<'a>(
    text: &'a str,
    at: usize,
    end: usize,
    behind: bool,
    side_table: &mut Vec<SideEntry<'a>>,
) -> Result<Piece, Error>
    requires fits { length text.now < text_limit }
    requires order { at < end }
    requires within { end ≤ length text.now }
    requires all { all_idchars (slice_range text.now at end) ≡ true }
    requires ends { behind_run Between (drop at text.now) ≡ Ends (drop end text.now) }
    ensures within { IfOk result (λ p. (at < p.end) × (p.end ≤ length text.now)) }
    ensures value { FrontGives text.now side_table.old.items side_table.new.items at result
        (run_front behind (drop at text.now) (behind_run Between (drop at text.now))) }
{
    let kind = plain_kind(text, at, end, behind);
    if is_annotation_kind(kind) {
        let kind = put(Token::Annotation(part(text, at + 1, end)), at, side_table)?;
        return Ok(Piece {
            kind: Some(kind),
            end,
        });
    }
    Ok(Piece {
        kind: Some(kind),
        end,
    })
}

/// Reads the run at offset `at`, whose first string begins at `quote`.
// Inlining this function slows the cut of texts without escapes.
#[inline(never)]
#[tactic(auto, using(crate::proofs::FrontAt::run_steps))]
fn string_run<'a>(
    text: &'a str,
    at: usize,
    quote: usize,
    behind: bool,
    decoder: &mut Decoder<'a>,
    side_table: &mut Vec<SideEntry<'a>>,
) -> Result<Piece, Error>
    requires fits { length text.now < text_limit }
    requires order { at ≤ quote }
    requires quote { quote < length text.now }
    requires mark { slice_index text.now quote ≡ 34 }
    requires plain { all_idchars (slice_range text.now at quote) ≡ true }
    requires same { behind_run Between (drop at text.now) ≡ behind_run Between
        (drop quote text.now) }
    ensures within { IfOk result (λ p. (at < p.end) × (p.end ≤ length text.now)) }
    ensures value { FrontGives text.now side_table.old.items side_table.new.items at result
        (run_front behind (drop at text.now) (behind_run Between (drop at text.now))) }
{
    let bytes = text.as_bytes();
    let (after, plain) = match decoder.string_end(bytes, quote + 1)? {
        Some(string) => string,
        None => return Err(fault_at(Fault::LexString, quote)),
    };
    let end = match run_end(bytes, after) {
        Ok(end) => end,
        Err(wrong) => return Err(fault_at(Fault::LexString, wrong)),
    };
    if plain && at == quote && end == after {
        return Ok(Piece {
            kind: Some(Kind::String),
            end,
        });
    }
    let run = part(text, at, end);
    let token = if end == after {
        let content = decoder.content(bytes, quote + 1, end, plain)?;
        string_token(run, quote - at, behind, content)
    } else {
        Token::Reserved(run)
    };
    let kind = put(token, at, side_table)?;
    Ok(Piece {
        kind: Some(kind),
        end,
    })
}

/// Reads the blank or token at offset `at`. Puts a token that isn't read from the text into the
/// side table.
#[tactic(auto, using(crate::proofs::FrontAt::front_steps))]
fn front<'a>(
    text: &'a str,
    at: usize,
    behind: bool,
    decoder: &mut Decoder<'a>,
    side_table: &mut Vec<SideEntry<'a>>,
) -> Result<Piece, Error>
    requires fits { length text.now < text_limit }
    requires place { at < length text.now }
    ensures within { IfOk result (λ p. (at < p.end) × (p.end ≤ length text.now)) }
    ensures value { FrontGives text.now side_table.old.items side_table.new.items at result
        (front behind (drop at text.now)) }
{
    let bytes = text.as_bytes();
    let b = bytes[at];
    if is_space(b) {
        Ok(Piece {
            kind: None,
            end: at + 1,
        })
    } else if b == b'(' {
        if at + 1 < bytes.len() && bytes[at + 1] == b';' {
            match comment_end(bytes, at + 2) {
                Some(end) => Ok(Piece { kind: None, end }),
                None => Err(fault_at(Fault::LexComment, at)),
            }
        } else {
            Ok(Piece {
                kind: Some(Kind::LParen),
                end: at + 1,
            })
        }
    } else if b == b')' {
        Ok(Piece {
            kind: Some(Kind::RParen),
            end: at + 1,
        })
    } else if b == b';' {
        if at + 1 < bytes.len() && bytes[at + 1] == b';' {
            Ok(Piece {
                kind: None,
                end: line_end(bytes, at + 2),
            })
        } else {
            Err(fault_at(Fault::LexChar, at))
        }
    } else {
        run(text, at, behind, decoder, side_table)
    }
}

/// Puts the word from `at` to `end` into the side table. Returns the kind to store.
// Few words are in the side table, so this function isn't inlined.
#[inline(never)]
fn put_word<'a>(
    text: &'a str,
    kind: Kind,
    at: usize,
    end: usize,
    side_table: &mut Vec<SideEntry<'a>>,
) -> Result<Kind, AllocError>
    requires order { at < end }
    requires place { at < text_limit }
    requires a_word { is_word kind ≡ true }
    requires fits { FoundFits text.now side_table.old.items at end kind }
    ensures { IfOk result (λ k. IsPut side_table.old.items side_table.new.items at
        (found_tok text.now side_table.old.items at end kind) k) }
{
    put(read(text, kind, at, end - at, &[], 0), at, side_table)
}

/// Reads the blank or token at offset `at`. Puts a word that doesn't fit in a `Lexeme` into the
/// side table too.
// `common_token` finds the common tokens, so this function isn't inlined.
#[inline(never)]
fn next_piece<'a>(
    text: &'a str,
    at: usize,
    behind: bool,
    decoder: &mut Decoder<'a>,
    side_table: &mut Vec<SideEntry<'a>>,
) -> Result<Piece, Error>
    requires fits { length text.now < text_limit }
    requires place { at < length text.now }
    ensures within { IfOk result (λ p. (at < p.end) × (p.end ≤ length text.now)) }
    ensures value { FrontGives text.now side_table.old.items side_table.new.items at result
        (front behind (drop at text.now)) }
    ensures room { IfOk result (λ p. IfSome p.kind (λ k. is_word k ≡ true → HasRoom at p.end)) }
{
    let piece = match front(text, at, behind, decoder, side_table) {
        Err(e) => return Err(e),
        Ok(piece) => piece,
    };
    if has_room(at, piece.end) {
        return Ok(piece);
    }
    match piece.kind {
        Some(kind) if is_word(kind) => {
            let kind = put_word(text, kind, at, piece.end, side_table)?;
            Ok(Piece {
                kind: Some(kind),
                end: piece.end,
            })
        }
        _ => Ok(piece),
    }
}

/// Whether the side table has an annotation.
#[tactic(auto, using(crate::proofs::Entries::annotation_steps))]
fn any_annotation(side_table: &[SideEntry]) -> bool
    ensures { result ≡ has_annotation (lying side_table.now) }
{
    for one in side_table {
        if one.annotates() {
            return true;
        }
    }
    false
}

/// Empty skips for the indices of the side table. The list has `places` items if the side table has
/// an annotation (`noted`), otherwise it is empty.
// Inlining this function slows the cut.
#[inline(never)]
fn no_skips(alloc: Global, noted: bool, places: usize) -> Result<Vec<Skips>, AllocError>
    ensures none { IfOk result (λ v. (i : ℕ) → lying_skips v.items i ≡ no_skips) }
    ensures room { IfOk result (λ v. IsTrue noted → places ≤ length v.items) }
{
    let count = if noted { places } else { 0 };
    vec![in alloc; Skips { all: 0, unknown: 0 }; count]
}

/// Whether a `(` ends at offset `at`. `opened` is the end of the last `(`, or 0 if no `(` was read.
fn directly(opened: usize, at: usize) -> bool
    ensures { result ≡ ((at == opened) && nat_lt 0 at) }
{
    at == opened && at > 0
}

/// The end of the last `(`, after a token of this kind that ends at `end`. `opened` is the end of
/// the last `(` before this token.
fn last_opened(kind: Kind, end: usize, opened: usize) -> usize
    ensures { (text : List ℕ) (side_table : List Placed) (at : ℕ)
        → FoundFits text side_table at end kind
        → result ≡ (if is_open (found_tok text side_table at end kind) then end else opened) }
{
    if is_open(kind) { end } else { opened }
}

/// Cuts a text into tokens. The flag is true if a token is an annotation. Groups may be unclosed.
fn cut_pieces<'a>(
    alloc: Global,
    text: &'a str,
    arena: &'a Bump,
) -> Result<(Tokens<'a>, bool), Error>
    requires { length text.now < text_limit }
    ensures found { IfOk result (λ v. Cuts (length text.now) false text.now (placed v.0)) }
    ensures noted { IfOk result (λ v. v.1 ≡ has_annotation (entry_tokens v.0)) }
    ensures fails { IfErr result (λ e. IfFault e (FailsAt text.now e)) }
{
    let bytes = text.as_bytes();
    let mut tokens = Vec::with_capacity(alloc, text.len() / 4)?;
    let mut side_table = Vec::new(alloc);
    let mut decoder = Decoder::new(alloc, arena);
    let mut opened = 0;
    let mut at = 0;
    while at < bytes.len() {
        match common_token(bytes, at) {
            Some((kind, end)) => {
                opened = last_opened(kind, end, opened);
                tokens.push(kept_near(kind, at, end, side_table.len()))?;
                at = spaces_end(bytes, end);
            }
            None => {
                let behind = directly(opened, at);
                let piece = match next_piece(text, at, behind, &mut decoder, &mut side_table) {
                    Err(e) => return Err(e),
                    Ok(piece) => piece,
                };
                match piece.kind {
                    None => at = spaces_end(bytes, piece.end),
                    Some(kind) => {
                        opened = last_opened(kind, piece.end, opened);
                        tokens.push(kept(kind, at, piece.end, side_table.len()))?;
                        at = spaces_end(bytes, piece.end);
                    }
                }
            }
        }
    }
    let noted = any_annotation(&side_table);
    let skips = no_skips(alloc, noted, side_table.len())?;
    Ok((Tokens::of(text, tokens, side_table, skips), noted))
}

/// Cuts a text into tokens. Each annotation group must be closed. Names and strings without escapes
/// are slices of the text. Names and strings with escapes are decoded into the arena.
///
/// Errors are LexChar, LexString, LexComment, LexAnnotation and Memory, with the offsets that
/// [`Fault`] states. A text of 2^48 bytes or more gets Memory: offsets are stored in 48 bits.
/// WebAssembly Core Specification, Text Format, Lexical Format.
pub fn cut<'a>(alloc: Global, text: &'a str, arena: &'a Bump) -> Result<Tokens<'a>, Error>
    ensures found { IfOk result (λ ts. IsCut text.now (placed ts)) }
    ensures skips { IfOk result (λ ts. AreSkips ts) }
    // The fault is the text's first from the left. LexAnnotation comes only without any other
    // fault.
    ensures fault { IfErr result (λ e. IfFault e (FirstFault text.now e.fault (offset_of e.span))) }
    ensures none { IfErr result (λ e. IfFault e ((ts : List Placed) → IsCut text.now ts → ⊥)) }
{
    if text.len() >= TEXT_LIMIT {
        return Err(fault_at(Fault::Memory, 0));
    }
    let (mut tokens, noted) = match cut_pieces(alloc, text, arena) {
        Err(e) => return Err(e),
        Ok(parts) => parts,
    };
    if noted {
        match tell_skips(alloc, &mut tokens)? {
            Some(offset) => return Err(fault_at(Fault::LexAnnotation, offset)),
            None => return Ok(tokens),
        }
    }
    Ok(tokens)
}

/// A text has at most one cut.
pub fn one_cut()
    ensures { (text : List ℕ) (ts us : List Placed) → IsCut text ts → IsCut text us → ts ≡ us }
{}

/// A text has at most one first fault. A text with a first fault has no cut.
pub fn one_outcome()
    ensures fault { (text : List ℕ) (f g : Fault) (i j : ℕ) → FirstFault text f i
        → FirstFault text g j → (f ≡ g) × (i ≡ j) }
    ensures no_cut { (text : List ℕ) (f : Fault) (i : ℕ) (ts : List Placed) → FirstFault text f i
        → IsCut text ts → ⊥ }
{}
