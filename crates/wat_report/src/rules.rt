//! The message of each fault.

ghost use Rattle.std.specs.Prelude.{◌≡◌};
ghost use Rattle.wat_report.specs.Rules.{names_token, rule_text};

use wat_tokens::Fault;

/// Returns whether the message of a fault ends with the token that was found.
pub(crate) fn names_token(fault: Fault) -> bool
    ensures { result ≡ names_token fault }
{
    matches!(fault, Fault::Unexpected | Fault::Operator)
}

/// Returns the message of a fault, without the token that was found. That of Operator depends on
/// whether a word was found.
pub(crate) fn rule(fault: Fault, word: bool) -> &'static str
    ensures { result.now ≡ rule_text word fault }
{
    match fault {
        Fault::Memory => "memory ran out",
        Fault::LexChar => "no token begins with this character",
        Fault::LexString => "this string isn't closed, or contains an invalid character or escape",
        Fault::LexComment => "this block comment isn't closed",
        Fault::LexAnnotation => "this annotation isn't closed",
        Fault::Unexpected => "not expected here: ",
        Fault::Range => "this number is out of range",
        Fault::Utf8 => "this isn't valid UTF-8",
        Fault::FloatLiteral => "float literals aren't supported",
        Fault::Alignment => "an alignment must be a power of two",
        Fault::PageSize => "a page size must be a power of two",
        Fault::Operator => {
            if word {
                "no instruction is called "
            } else {
                "an instruction was expected here, not "
            }
        }
        Fault::ParamAfterResult => "parameters must come before results",
        Fault::IfWithoutThen => "an `if` must have a group `(then ..)`",
        Fault::IfTooMany => "an `if` can't have another group after `(else ..)`",
        Fault::HintValue => "a branch hint must be one byte, 0 or 1, such as \"\\00\"",
        Fault::HintTwice => "this instruction has a branch hint already",
        Fault::HintPlace => "a branch hint must be followed by an instruction",
        Fault::ImportMixed => "the items of an import must all have a type, or all share one",
        Fault::ImportId => "an identifier isn't allowed here in an import",
        Fault::HintTarget => "only `br_if` and `if` can have a branch hint",
    }
}
