//! The arguments of the program: a command, its options, and the inputs.

ghost use Rattle.std.specs.Prelude.{◌≡◌, ◌++◌, ◌≤◌, ◌+◌, ◌∷◌, IfOk, codes, filter, length, map};
ghost use Rattle.wat_answers.specs.Prelude.{after_first, before_first, position_or_len, string_bytes};
ghost use Rattle.wat.specs.Tasks.{check_task, extent_of};
ghost use Rattle.wat.specs.Commands.{asks_for_help, color_after, color_of, command_named, command_of, files_of, format_mode, has_word, help_topic, inputs_of, is_color, is_end, is_file, is_option, joined, joined_first, message_for, name_after, name_of, own_option, stdin_name, takes, takes_value, unknown_option, with_options};

use std::alloc::{AllocError, Global};
use wat_answers::{Extent, Task};
use wat_print::Layout;

/// The name of a command.
#[derive(Clone, Copy, Debug, PartialEq, Eq)]
pub(crate) enum CommandName {
    /// `check`.
    Check,
    /// `list`.
    Listing,
    /// `print`.
    Print,
    /// `fmt`.
    Format,
}

/// When errors are coloured.
#[derive(Clone, Copy, Debug, PartialEq, Eq)]
pub(crate) enum Color {
    /// Always.
    Always,
    /// Never.
    Never,
    /// If standard output is a terminal, and the variable `NO_COLOR` isn't set or is empty.
    Auto,
}

/// The options of `check`.
#[derive(Clone, Copy, Debug, PartialEq, Eq)]
pub(crate) struct CheckOptions {
    /// Each error is printed as a JSON object.
    pub json: bool,
    /// Names and blocks aren't checked.
    pub syntax: bool,
    /// When errors are coloured.
    pub color: Color,
}

/// What `fmt` does with each input.
#[derive(Clone, Copy, Debug, PartialEq, Eq)]
pub(crate) enum FormatMode {
    /// Formats a file in place, and prints the formatted text of standard input.
    Rewrite,
    /// Prints the name of each input that would change.
    ListChanged,
    /// Prints what would change in each input.
    Diff,
}

/// A command that reads inputs, with its options.
#[derive(Clone, Copy, Debug, PartialEq, Eq)]
pub(crate) enum Command {
    /// `check`.
    Checks(CheckOptions),
    /// `list`.
    Lists,
    /// `print`, in this layout.
    Prints(Layout),
    /// `fmt`.
    Formats(FormatMode),
}

/// What the program prints if it runs no command.
#[derive(Clone, Copy, Debug, PartialEq, Eq)]
pub(crate) enum Message {
    /// The help of a command, or of the program.
    Help(Option<CommandName>),
    /// The version.
    Version,
    /// There are no arguments.
    NoCommand,
    /// The first argument is not a command.
    UnknownCommand,
    /// The command doesn't have an option: the argument at this index after the command.
    UnknownOption(usize),
}

/// Returns whether an option takes the argument after it as its value.
pub(crate) fn takes_value(word: &str) -> bool
    ensures { result ≡ takes_value word.now }
{
    word == "--color" || word == "--stdin-filepath"
}

/// Adds a word and, if it is an option that takes a value, the word after it. Returns the words that
/// are left of those after it.
fn add_joined<'a>(
    all: &mut Vec<String>,
    word: &String,
    rest: &'a [String],
) -> Result<&'a [String], AllocError>
    ensures words { IfOk result (λ left. map string_bytes all.new.items ++ joined (map string_bytes left.now)
        ≡ map string_bytes all.old.items ++ joined_first (string_bytes word.now)
        (map string_bytes rest.entry.now)) }
    ensures shorter { IfOk result (λ left. length left.now ≤ length rest.entry.now) }
{
    match rest.split_first() {
        Some((value, left)) if takes_value(word.as_str()) => {
            all.push(format!(in *all.allocator(); "{word}={value}")?)?;
            Ok(left)
        }
        _ => {
            all.push(word.clone()?)?;
            Ok(rest)
        }
    }
}

/// Returns the arguments, with each option that takes a value and its value joined by `=`.
pub(crate) fn joined(alloc: Global, words: &[String]) -> Result<Vec<String>, AllocError>
    ensures { IfOk result (λ all. map string_bytes all.items
        ≡ joined (map string_bytes words.now)) }
{
    let mut all = Vec::new(alloc);
    let mut left = words;
    while let Some((word, rest)) = left.split_first() {
        if word.as_str() == "--" {
            add_words(&mut all, left)?;
            return Ok(all);
        }
        left = add_joined(&mut all, word, rest)?;
    }
    Ok(all)
}

/// Returns whether an argument is an option: it begins with `-` and is longer.
pub(crate) fn is_option(word: &str) -> bool
    ensures { result ≡ is_option word.now }
{
    let bytes = word.as_bytes();
    bytes.len() > 1 && bytes[0] == b'-'
}

/// Returns the index of the argument `--`, which ends the options, or the number of arguments.
fn end_of_options(words: &[String]) -> usize
    ensures { result ≡ position_or_len is_end (map string_bytes words.now) }
{
    for (at, word) in words.iter().enumerate() {
        if word.as_str() == "--" {
            return at;
        }
    }
    words.len()
}

/// Returns whether one of the words is `wanted`.
fn has_word(words: &[String], wanted: &str) -> bool
    ensures { result ≡ has_word wanted.now (map string_bytes words.now) }
{
    for word in words {
        if word.as_str() == wanted {
            return true;
        }
    }
    false
}

/// Returns whether an option sets the color.
fn is_color(word: &str) -> bool
    ensures { result ≡ is_color word.now }
{
    word == "--color=always" || word == "--color=never" || word == "--color=auto"
}

/// Returns whether a command has an option that some other commands don't have.
fn own_option(name: CommandName, word: &str) -> bool
    ensures { result ≡ own_option name word.now }
{
    match name {
        CommandName::Check => word == "--json" || word == "--syntax" || is_color(word),
        CommandName::Listing => false,
        CommandName::Print => word == "--line",
        CommandName::Format => word == "--check" || word == "--diff",
    }
}

/// Returns whether a command has an option.
fn takes(name: CommandName, word: &str) -> bool
    ensures { result ≡ takes name word.now }
{
    let names_input = word.as_bytes().starts_with(b"--stdin-filepath=".as_slice());
    names_input || own_option(name, word)
}

/// Returns the index of the first option that a command doesn't have.
fn unknown_option(name: CommandName, words: &[String]) -> Option<usize>
    ensures { result ≡ unknown_option name (map string_bytes words.now) }
{
    for (at, word) in words.iter().enumerate() {
        if is_option(word.as_str()) && !takes(name, word.as_str()) {
            return Some(at);
        }
    }
    None
}

/// Returns the arguments before `--`, and those after it.
fn parts_of(words: &[String]) -> (&[String], &[String])
    ensures before { map string_bytes result.0.now
        ≡ before_first is_end (map string_bytes words.now) }
    ensures after { map string_bytes result.1.now
        ≡ after_first is_end (map string_bytes words.now) }
    ensures both { length result.0.now + length result.1.now ≤ length words.now }
{
    let (before, rest) = words.split_at(end_of_options(words));
    match rest.split_first() {
        Some((_, after)) => (before, after),
        None => (before, rest),
    }
}

/// Returns whether one of the words asks for help.
fn asks_for_help(words: &[String]) -> bool
    ensures { result ≡ asks_for_help (map string_bytes words.now) }
{
    has_word(words, "-h") || has_word(words, "--help")
}

/// Adds all words to the files.
fn add_words(files: &mut Vec<String>, words: &[String]) -> Result<(), AllocError>
    ensures { IfOk result (λ _. map string_bytes files.new.items
        ≡ map string_bytes files.old.items ++ map string_bytes words.now) }
{
    for word in words {
        files.push(word.clone()?)?;
    }
    Ok(())
}

/// Adds the words that aren't options to the files.
fn add_files(files: &mut Vec<String>, words: &[String]) -> Result<(), AllocError>
    ensures { IfOk result (λ _. map string_bytes files.new.items
        ≡ map string_bytes files.old.items ++ filter is_file (map string_bytes words.now)) }
{
    for word in words {
        if !is_option(word.as_str()) {
            files.push(word.clone()?)?;
        }
    }
    Ok(())
}

/// Returns the files among the arguments after a command.
fn files_of(alloc: Global, words: &[String]) -> Result<Vec<String>, AllocError>
    ensures { IfOk result (λ files. map string_bytes files.items
        ≡ files_of (map string_bytes words.now)) }
{
    let (before, after) = parts_of(words);
    let mut files = Vec::new(alloc);
    add_files(&mut files, before)?;
    add_words(&mut files, after)?;
    Ok(files)
}

/// Returns the inputs that the arguments after a command name: the files, or `-` if there are none.
/// `-` is standard input.
pub(crate) fn inputs_of(alloc: Global, words: &[String]) -> Result<Vec<String>, AllocError>
    ensures { IfOk result (λ inputs. map string_bytes inputs.items
        ≡ inputs_of (map string_bytes words.now)) }
{
    let mut inputs = files_of(alloc, words)?;
    if inputs.is_empty() {
        inputs.push(String::from_str(alloc, "-")?)?;
    }
    Ok(inputs)
}

/// Returns the color that a word names after `--color=`; another word leaves the color as it is.
fn color_after(color: Color, word: &str) -> Color
    ensures { result ≡ color_after color word.now }
{
    match word {
        "--color=always" => Color::Always,
        "--color=never" => Color::Never,
        "--color=auto" => Color::Auto,
        _ => color,
    }
}

/// Returns the color that the last option `--color` names, or [`Color::Auto`] if there is none.
fn color_of(options: &[String]) -> Color
    ensures { result ≡ color_of Color.Auto (map string_bytes options.now) }
{
    let mut color = Color::Auto;
    for word in options {
        color = color_after(color, word.as_str());
    }
    color
}

/// Returns what `fmt` does with each input. `--diff` comes before `--check`.
fn format_mode(check: bool, diff: bool) -> FormatMode
    ensures { result ≡ format_mode check diff }
{
    if diff {
        FormatMode::Diff
    } else if check {
        FormatMode::ListChanged
    } else {
        FormatMode::Rewrite
    }
}

/// Returns a command with its options.
fn with_options(name: CommandName, options: &[String]) -> Command
    ensures { result ≡ with_options name (map string_bytes options.now) }
{
    match name {
        CommandName::Check => Command::Checks(CheckOptions {
            json: has_word(options, "--json"),
            syntax: has_word(options, "--syntax"),
            color: color_of(options),
        }),
        CommandName::Listing => Command::Lists,
        CommandName::Print if has_word(options, "--line") => Command::Prints(Layout::Line),
        CommandName::Print => Command::Prints(Layout::Indented),
        CommandName::Format => Command::Formats(format_mode(
            has_word(options, "--check"),
            has_word(options, "--diff"),
        )),
    }
}

/// Returns what a command and the arguments after it ask for.
fn command_named(name: CommandName, words: &[String]) -> Result<Command, Message>
    ensures { result ≡ command_named name (map string_bytes words.now) }
{
    let (options, _) = parts_of(words);
    if asks_for_help(options) {
        return Err(Message::Help(Some(name)));
    }
    match unknown_option(name, options) {
        Some(at) => Err(Message::UnknownOption(at)),
        None => Ok(with_options(name, options)),
    }
}

/// Returns what a check covers, with `--syntax` or without.
fn extent_of(syntax: bool) -> Extent
    ensures { result ≡ extent_of syntax }
{
    if syntax {
        Extent::Syntax
    } else {
        Extent::Names
    }
}

/// Returns the task of `check` with its options.
pub(crate) fn check_task(options: CheckOptions) -> Task
    ensures { result ≡ check_task options }
{
    let extent = extent_of(options.syntax);
    if options.json {
        Task::Json(extent)
    } else {
        Task::Check(extent)
    }
}

/// Returns the command that a word names.
fn name_of(word: &str) -> Option<CommandName>
    ensures { result ≡ name_of word.now }
{
    match word {
        "check" => Some(CommandName::Check),
        "list" => Some(CommandName::Listing),
        "print" => Some(CommandName::Print),
        "fmt" => Some(CommandName::Format),
        _ => None,
    }
}

/// Returns the command that the first of some words names.
fn help_topic(words: &[String]) -> Option<CommandName>
    ensures { result ≡ help_topic (map string_bytes words.now) }
{
    match words.split_first() {
        Some((word, _)) => name_of(word.as_str()),
        None => None,
    }
}

/// Returns what to print for a first argument that isn't a command, with the arguments after it.
fn message_for(first: &str, words: &[String]) -> Message
    ensures { result ≡ message_for first.now (map string_bytes words.now) }
{
    match first {
        "help" | "-h" | "--help" => Message::Help(help_topic(words)),
        "-V" | "--version" => Message::Version,
        _ => Message::UnknownCommand,
    }
}

/// Returns what a first argument asks for, with the arguments after it.
fn command_with(first: &str, words: &[String]) -> Result<Command, Message>
    ensures { result ≡ command_of (first.now ∷ map string_bytes words.now) }
{
    match name_of(first) {
        Some(name) => command_named(name, words),
        None => Err(message_for(first, words)),
    }
}

/// Returns the command that the arguments after the program's name ask for, or what to print if
/// they ask for none.
pub(crate) fn command_of(words: &[String]) -> Result<Command, Message>
    ensures { result ≡ command_of (map string_bytes words.now) }
{
    match words.split_first() {
        Some((first, others)) => command_with(first.as_str(), others),
        None => Err(Message::NoCommand),
    }
}

/// Returns the value of an option `--stdin-filepath`; for another word, the name that is passed.
fn name_after<'a>(name: &'a str, word: &'a str) -> &'a str
    ensures { result.now ≡ name_after name.now word.now }
{
    match word.strip_prefix("--stdin-filepath=") {
        Some(given) => given,
        None => name,
    }
}

/// Returns the name of standard input: the value of the last option `--stdin-filepath` among the
/// arguments after a command, or `<stdin>` if there is none.
pub(crate) fn stdin_name(words: &[String]) -> &str
    ensures { result.now ≡ stdin_name (codes "<stdin>")
        (before_first is_end (map string_bytes words.now)) }
{
    let (options, _) = parts_of(words);
    let mut name = "<stdin>";
    for word in options {
        name = name_after(name, word.as_str());
    }
    name
}
