//! Flags of symbols in the `dylink.0` section.

ghost use Rattle.std.specs.Prelude.{◌≡◌};
ghost use Rattle.wat_types.specs.Prelude.{Reads, look_up, plain};
ghost use Rattle.wat_links.specs.Flags.{symbol_flags};
ghost use Rattle.wat_links.specs.FlagBits.{flag_words, flag_bits};

use wat_tokens::{Error, Fault, Parse, Parser, Result};

/// Returns the bit of the flag that the keyword names, or None if the keyword names no flag.
fn flag_bit(word: &str) -> Option<u32>
    ensures { result ≡ look_up flag_words word.now }
{
    match word {
        "binding-weak" => Some(1),
        "binding-local" => Some(2),
        "visibility-hidden" => Some(4),
        "undefined" => Some(16),
        "exported" => Some(32),
        "explicit-name" => Some(64),
        "no-strip" => Some(128),
        "tls" => Some(256),
        "absolute" => Some(512),
        _ => None,
    }
}

/// Reads a 32-bit number, or a keyword that names a flag, and returns the bits. Returns Unexpected,
/// at the keyword, if the keyword is unknown. Returns Range, at the number, if the number has a `-`
/// or needs more than 32 bits.
#[tactic(auto, using(wat_tokens::specs::Laws::Begin::table_reads), unfolding(crate::specs::FlagBits::flag_bits))]
fn read_flag<'a>(parser: &mut Parser<'a>) -> Result<u32>
    ensures reads { Reads (plain (λ n. n)) flag_bits result parser.old parser.new }
{
    if parser.peek::<u32>() {
        return u32::parse(parser);
    }
    match flag_bit(parser.take_keyword()?) {
        Some(bit) => Ok(bit),
        None => Err(Error::at(Fault::Unexpected, parser.prev_span())),
    }
}

/// Reads the flags of a symbol, up to the end of the group: numbers and keywords, joined by bitwise
/// or.
pub(crate) fn read_flags<'a>(parser: &mut Parser<'a>) -> Result<u32>
    ensures reads { Reads (plain (λ n. n)) symbol_flags result parser.old parser.new }
{
    let mut flags = 0;
    'flags: while !parser.is_empty() {
        flags |= read_flag(parser)?;
    }
    Ok(flags)
}
