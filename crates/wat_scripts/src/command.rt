//! The words with which commands begin.

ghost use Rattle.wat_scripts.specs.Commands.{command_word, command_words};
ghost use Rattle.wat_scripts.specs.Laws.Commands.{command_is_named};

use wat_tokens::words::NamedByKeyword;

/// A kind of command, by the word with which the command begins (README of the reference
/// interpreter, "Scripts"). Each variant is named after its word.
///
/// The list has the words of the reference interpreter, the two words of old scripts that end in
/// `nan`, and the words `thread`, `wait` and `component` of proposals.
#[derive(Clone, Copy, Debug, PartialEq, Eq)]
pub enum Command {
    Module,
    Register,
    Invoke,
    Get,
    AssertReturn,
    AssertTrap,
    AssertException,
    AssertSuspension,
    AssertExhaustion,
    AssertMalformed,
    AssertMalformedCustom,
    AssertInvalid,
    AssertInvalidCustom,
    AssertUnlinkable,
    AssertReturnCanonicalNan,
    AssertReturnArithmeticNan,
    Script,
    Input,
    Output,
    Thread,
    Wait,
    Component,
}

/// The commands by word.
impl NamedByKeyword for Command {
    ghost words = { command_words };

    ghost keyword = { command_word };

    ghost is_named = { command_is_named };

    fn named(word: &str) -> Option<Self> {
        match word {
            "module" => Some(Command::Module),
            "register" => Some(Command::Register),
            "invoke" => Some(Command::Invoke),
            "get" => Some(Command::Get),
            "assert_return" => Some(Command::AssertReturn),
            "assert_trap" => Some(Command::AssertTrap),
            "assert_exception" => Some(Command::AssertException),
            "assert_suspension" => Some(Command::AssertSuspension),
            "assert_exhaustion" => Some(Command::AssertExhaustion),
            "assert_malformed" => Some(Command::AssertMalformed),
            "assert_malformed_custom" => Some(Command::AssertMalformedCustom),
            "assert_invalid" => Some(Command::AssertInvalid),
            "assert_invalid_custom" => Some(Command::AssertInvalidCustom),
            "assert_unlinkable" => Some(Command::AssertUnlinkable),
            "assert_return_canonical_nan" => Some(Command::AssertReturnCanonicalNan),
            "assert_return_arithmetic_nan" => Some(Command::AssertReturnArithmeticNan),
            "script" => Some(Command::Script),
            "input" => Some(Command::Input),
            "output" => Some(Command::Output),
            "thread" => Some(Command::Thread),
            "wait" => Some(Command::Wait),
            "component" => Some(Command::Component),
            _ => None,
        }
    }

    fn word(self) -> &'static str {
        match self {
            Command::Module => "module",
            Command::Register => "register",
            Command::Invoke => "invoke",
            Command::Get => "get",
            Command::AssertReturn => "assert_return",
            Command::AssertTrap => "assert_trap",
            Command::AssertException => "assert_exception",
            Command::AssertSuspension => "assert_suspension",
            Command::AssertExhaustion => "assert_exhaustion",
            Command::AssertMalformed => "assert_malformed",
            Command::AssertMalformedCustom => "assert_malformed_custom",
            Command::AssertInvalid => "assert_invalid",
            Command::AssertInvalidCustom => "assert_invalid_custom",
            Command::AssertUnlinkable => "assert_unlinkable",
            Command::AssertReturnCanonicalNan => "assert_return_canonical_nan",
            Command::AssertReturnArithmeticNan => "assert_return_arithmetic_nan",
            Command::Script => "script",
            Command::Input => "input",
            Command::Output => "output",
            Command::Thread => "thread",
            Command::Wait => "wait",
            Command::Component => "component",
        }
    }
}
