//! The output: a text that is written token by token.

ghost use Rattle.std.specs.Prelude.{string_bytes, ◌≡◌, ◌≢◌, ◌∷◌, ◌++◌, ◌*◌, [], ◌<◌, ℕ, true, false, if◌then◌else◌, OnOk, IfErr, decimal, encode_utf8, flat_map};
ghost use Rattle.std.specs.Str.{is_utf8};
ghost use Rattle.wat_types.specs.Prelude.{signed_decimal, is_idchar, LParen, RParen, Keyword, Id, Annotation, Integer};
ghost use Rattle.wat_print.specs.Layout.{broken, blanks};
ghost use Rattle.wat_print.specs.WellFormed.{is_name};
ghost use Rattle.wat_print.specs.Text.{put, blank_page, escape, quoted, quoted_as, name_text, all_are};
ghost use Rattle.wat_print.specs.declared.fault.Refused.TheVariants.{Memory};
ghost use Rattle.wat_print.specs.Printed.{may_break};
ghost use Rattle.wat_lexer.specs.Token.{String as Text};

use crate::fault::Refused;
use std::alloc::{AllocError, Global};
use std::marker::Model;
use wat_lexer::scan::is_idchar;
use wat_lexer::string::hex_digit;

/// The maximum number of groups and blocks that a line is indented for. So a line begins with at
/// most 100 spaces, and deep nesting makes the text at most about 100 times as long as its tokens.
const MOST_STEPS: usize = 50;

/// The layout of a text.
#[derive(Clone, Copy, Debug, PartialEq, Eq, Hash)]
pub enum Layout {
    /// On one line.
    Line,
    /// On several lines. A line after a break begins with two spaces for each open group and each
    /// open block of instructions, for 50 of them at most.
    Indented,
}

/// The text that is written so far.
///
/// Two tokens are separated by one space, or by a line break and spaces. There is neither after `(`
/// nor before `)`. If an allocation fails, a prefix of a token may stay in the text.
#[derive(Drop)]
pub struct Output {
    text: String,
    /// Whether the next token follows without a blank.
    tight: bool,
    /// Whether lines may be broken.
    lines: bool,
    /// The number of open groups.
    depth: usize,
    /// The number of open blocks of instructions.
    blocks: usize,
}

impl Model for Output {
    ghost use Rattle.std.specs.Prelude.{string_bytes};
    ghost use Rattle.wat_print.specs.Text.{Page};

    ghost Value = { Page };

    ghost view = { λ o. record { bytes = string_bytes o.text; tight = o.tight; lines = o.lines } };
}

impl Output {
    /// Returns the empty text.
    pub fn new(alloc: Global, layout: Layout) -> Output
        ensures { result ≡ blank_page (may_break layout) }
    {
        Output {
            text: String::new(alloc),
            tight: true,
            lines: match layout {
                Layout::Line => false,
                Layout::Indented => true,
            },
            depth: 0,
            blocks: 0,
        }
    }

    /// Returns the text.
    pub fn into_text(self) -> String
        ensures { string_bytes result ≡ self.bytes }
    {
        self.text
    }

    /// Breaks the line if the layout has lines and a blank is allowed. Two spaces for each open
    /// group and each open block follow the break, for 50 of them at most.
    pub fn line(&mut self) -> Result<(), Refused>
        ensures written { OnOk result ((n : ℕ) × (self.new ≡ broken n self.old)) }
        ensures refused { IfErr result (λ e. e ≡ Memory) }
    {
        if !self.lines || self.tight {
            return Ok(());
        }
        self.text.push_str("\n")?;
        let steps = self.depth.saturating_add(self.blocks).min(MOST_STEPS);
        push_blanks(&mut self.text, steps)?;
        self.tight = true;
        Ok(())
    }

    /// Enters a block: the next lines are one step deeper, until [`leave`](Output::leave).
    pub fn enter(&mut self)
        ensures { self.new ≡ self.old }
    {
        self.blocks = self.blocks.saturating_add(1);
    }

    /// Leaves the innermost block, if a block is open.
    pub fn leave(&mut self)
        ensures { self.new ≡ self.old }
    {
        self.blocks = self.blocks.saturating_sub(1);
    }

    /// Leaves all blocks.
    pub fn leave_all(&mut self)
        ensures { self.new ≡ self.old }
    {
        self.blocks = 0;
    }

    /// Writes the space before a token other than `)`, if a space is needed.
    fn space(&mut self) -> Result<(), AllocError>
        ensures { OnOk result (self.new ≡ record self.old {
          bytes = self.old.bytes ++ (if self.old.tight then [] else 32 ∷ []);
        }) }
    {
        if !self.tight {
            self.text.push_str(" ")?;
        }
        Ok(())
    }

    /// Writes `(`.
    pub fn open(&mut self) -> Result<(), Refused>
        ensures written { OnOk result (self.new ≡ put self.old (LParen ∷ [])) }
        ensures refused { IfErr result (λ e. e ≡ Memory) }
    {
        self.space()?;
        self.text.push_str("(")?;
        self.tight = true;
        self.depth = self.depth.saturating_add(1);
        Ok(())
    }

    /// Writes `)`.
    pub fn close(&mut self) -> Result<(), Refused>
        ensures written { OnOk result (self.new ≡ put self.old (RParen ∷ [])) }
        ensures refused { IfErr result (λ e. e ≡ Memory) }
    {
        self.text.push_str(")")?;
        self.tight = false;
        self.depth = self.depth.saturating_sub(1);
        Ok(())
    }

    /// Writes a keyword.
    pub fn word(&mut self, word: &str) -> Result<(), Refused>
        ensures written { OnOk result (self.new ≡ put self.old (Keyword word.now ∷ [])) }
        ensures refused { IfErr result (λ e. e ≡ Memory) }
    {
        self.space()?;
        self.text.push_str(word)?;
        self.tight = false;
        Ok(())
    }

    /// Writes an integer, given as its text.
    pub fn integer(&mut self, text: &str) -> Result<(), Refused>
        ensures written { OnOk result (self.new ≡ put self.old (Integer text.now ∷ [])) }
        ensures refused { IfErr result (λ e. e ≡ Memory) }
    {
        self.space()?;
        self.text.push_str(text)?;
        self.tight = false;
        Ok(())
    }

    /// Writes a number in decimal digits.
    pub fn number(&mut self, number: u64) -> Result<(), Refused>
        ensures written { OnOk result (self.new ≡ put self.old (Integer (decimal number) ∷ [])) }
        ensures refused { IfErr result (λ e. e ≡ Memory) }
    {
        self.space()?;
        write!(self.text, "{number}")?;
        self.tight = false;
        Ok(())
    }

    /// Writes a number in decimal digits, after `-` if it is negative.
    pub fn signed(&mut self, value: i64) -> Result<(), Refused>
        ensures written { OnOk result (self.new ≡ put self.old (Integer (signed_decimal value) ∷
            [])) }
        ensures refused { IfErr result (λ e. e ≡ Memory) }
    {
        self.space()?;
        write!(self.text, "{value}")?;
        self.tight = false;
        Ok(())
    }

    /// Writes a keyword that ends in a number, such as `offset=8`: the prefix `front`, then the
    /// number in decimal digits.
    pub fn numbered(&mut self, front: &str, number: u64) -> Result<(), Refused>
        ensures written { OnOk result (self.new ≡ put self.old (Keyword (front.now ++ decimal
            number)
            ∷ [])) }
        ensures refused { IfErr result (λ e. e ≡ Memory) }
    {
        self.space()?;
        write!(self.text, "{front}{number}")?;
        self.tight = false;
        Ok(())
    }

    /// Adds the content of a string, and the closing quote. UTF-8 content is added by characters.
    #[tactic(auto, using(wat_lexer::specs::Laws::Bytes::not_utf8))]
    fn push_quoted(&mut self, bytes: &[u8]) -> Result<(), AllocError>
        ensures { OnOk result (self.new ≡ record self.old {
          bytes = self.old.bytes ++ quoted bytes.now;
        }) }
    {
        match str::from_utf8(bytes) {
            Ok(text) => self.push_characters(text),
            Err(_) => self.push_bytes(bytes),
        }
    }

    /// Adds a text in a string, and the closing quote. Non-ASCII characters stay as they are.
    fn push_characters(&mut self, text: &str) -> Result<(), AllocError>
        ensures { OnOk result (self.new ≡ record self.old {
          bytes = self.old.bytes ++ quoted text.now;
        }) }
    {
        for c in text.chars() {
            self.push_character(c)?;
        }
        self.push_quote()
    }

    /// Adds bytes that aren't UTF-8, and the closing quote. Each non-ASCII byte is added as `\hh`.
    #[tactic(auto, using(std::proofs::lemmas::List::drop_more))]
    fn push_bytes(&mut self, bytes: &[u8]) -> Result<(), AllocError>
        ensures { OnOk result (self.new ≡ record self.old {
          bytes = self.old.bytes ++ quoted_as false bytes.now;
        }) }
    {
        for b in bytes {
            self.push_escaped(*b)?;
        }
        self.push_quote()
    }

    /// Adds the closing quote.
    fn push_quote(&mut self) -> Result<(), AllocError>
        ensures { OnOk result (self.new ≡ record self.old {
          bytes = self.old.bytes ++ 34 ∷ [];
        }) }
    {
        let closing = "\"";
        self.text.push_str(closing)
    }

    /// Adds a character of a text in a string.
    #[tactic(auto, using(crate::specs::Laws::Characters::character_written))]
    fn push_character(&mut self, c: char) -> Result<(), AllocError>
        ensures { OnOk result (self.new ≡ record self.old {
          bytes = self.old.bytes ++ flat_map (escape true) (encode_utf8 c);
        }) }
    {
        if c.is_ascii() {
            return self.push_escaped(c as u8);
        }
        self.text.push(c)
    }

    /// Adds a byte of a string that isn't UTF-8. An ASCII byte is added as in a UTF-8 string.
    fn push_escaped(&mut self, byte: u8) -> Result<(), AllocError>
        ensures { OnOk result (self.new ≡ record self.old {
          bytes = self.old.bytes ++ escape false byte;
        }) }
    {
        if byte >= 32 && byte < 127 && byte != b'"' && byte != b'\\' {
            self.text.push(char::from(byte))?;
            return Ok(());
        }
        self.text.push_str("\\")?;
        self.text.push(char::from(hex_digit(byte / 16)))?;
        self.text.push(char::from(hex_digit(byte % 16)))?;
        Ok(())
    }

    /// Adds a name after its `$` or `@`.
    fn push_name(&mut self, name: &str) -> Result<(), AllocError>
        ensures { OnOk result (self.new ≡ record self.old {
          bytes = self.old.bytes ++ name_text name.now;
        }) }
    {
        if are_idchars(name.as_bytes()) {
            return self.text.push_str(name);
        }
        self.text.push_str("\"")?;
        self.push_characters(name)
    }

    /// Writes an identifier, given without its `$`. An empty identifier is refused.
    pub fn id(&mut self, name: &str) -> Result<(), Refused>
        ensures written { OnOk result (self.new ≡ put self.old (Id name.now ∷ [])) }
        ensures printable { OnOk result (is_name name.now ≡ true) }
        ensures refused { IfErr result (λ e. e ≢ Memory → is_name name.now ≡ false) }
    {
        if name.is_empty() {
            return Err(Refused::EmptyName);
        }
        self.space()?;
        self.text.push_str("$")?;
        self.push_name(name)?;
        self.tight = false;
        Ok(())
    }

    /// Writes an annotation after a `(`. Its name is given without the `@`.
    pub fn annotation(&mut self, name: &str) -> Result<(), Refused>
        ensures written { OnOk result (self.new ≡ put self.old (Annotation name.now ∷ [])) }
        ensures refused { IfErr result (λ e. e ≡ Memory) }
    {
        self.space()?;
        self.text.push_str("@")?;
        self.push_name(name)?;
        self.tight = false;
        Ok(())
    }

    /// Writes a string that is UTF-8.
    pub fn text(&mut self, content: &str) -> Result<(), Refused>
        ensures written { OnOk result (self.new ≡ put self.old (Text content.now ∷ [])) }
        ensures printable { is_utf8 content.now ≡ true }
        ensures refused { IfErr result (λ e. e ≡ Memory) }
    {
        self.space()?;
        self.text.push_str("\"")?;
        self.push_characters(content)?;
        self.tight = false;
        Ok(())
    }

    /// Writes a string. In a UTF-8 string, non-ASCII characters stay. In any other string, each
    /// non-ASCII byte is written as `\hh`.
    pub fn string(&mut self, content: &[u8]) -> Result<(), Refused>
        ensures written { OnOk result (self.new ≡ put self.old (Text content.now ∷ [])) }
        ensures refused { IfErr result (λ e. e ≡ Memory) }
    {
        self.space()?;
        self.text.push_str("\"")?;
        self.push_quoted(content)?;
        self.tight = false;
        Ok(())
    }
}

/// Returns whether all bytes are idchars.
#[tactic(auto, using(std::proofs::lemmas::List::drop_more))]
fn are_idchars(bytes: &[u8]) -> bool
    ensures { result ≡ all_are is_idchar bytes.now }
{
    for b in bytes {
        if !is_idchar(*b) {
            return false;
        }
    }
    true
}

/// Appends two spaces to the text, `times` times.
fn push_blanks(text: &mut String, times: usize) -> Result<(), AllocError>
    ensures { OnOk result (string_bytes text.new ≡ string_bytes text.old ++ blanks (2 * times)) }
{
    'turns: for _ in 0..times {
        text.push_str("  ")?;
    }
    Ok(())
}
