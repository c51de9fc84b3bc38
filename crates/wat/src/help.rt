//! The help.

use crate::command::CommandName;

/// The usage.
pub(crate) const USAGE: &str = "\
usage: wat check [--json] [--syntax] [--color WHEN] [FILE..]
       wat list [FILE..]
       wat print [--line] [FILE..]
       wat fmt [--check] [--diff] [FILE..]
       wat help [COMMAND]
       wat --version
";

/// The rest of the help, after the usage.
const HELP: &str = "
wat check parses each file as one module of the WebAssembly text format, `(module ..)`
with its parentheses, and checks its names, blocks and imports. It prints the position
and the reason of each error, and nothing if there is none.
wat list prints the contents of a module, one field or instruction per line.
wat print prints a module as a text that parses back to the same module.
wat fmt formats each file in place.
wat help COMMAND prints the help of one command, with its options.

Without a FILE, and for the FILE -, a command reads standard input. In reports it has
the name <stdin>, or with --stdin-filepath NAME that name.
Options come before or after the files. After -- every argument is a file, also one
that begins with -.

Results go to standard output. Errors about files, arguments and output go to standard
error, and so does the reason why a text can't be printed or formatted.
Exit status: 0 if no input has an error, and for wat fmt if every input is formatted;
1 if some input has an error, for wat fmt if some input has an invalid token or, with
--check or --diff, would change; 2 for anything else: a file that can't be read or
replaced, output that can't be written, no memory, wrong arguments.
";

/// The help of `check`.
const CHECK: &str = "\
usage: wat check [--json] [--syntax] [--color WHEN] [FILE..]

Parses each file as one module of the WebAssembly text format, `(module ..)` with its
parentheses. Then it checks the module's names, blocks and imports: each identifier is
defined once, blocks are nested, imports come before definitions. It prints the position
and the reason of each error, the line with a caret, and a hint or what was expected
there; it prints nothing if there is no error. It doesn't validate: types, and indices
that are numbers, aren't checked.
A directory means the files *.wat below it, at any depth, in the order of their paths.
Symbolic links in it are left out.
If there are several errors, or an error and several inputs, standard error has a last
line with the numbers of errors and of inputs.

  --json                 print each error as a JSON object on one line
  --syntax               check the syntax only, not names, blocks and imports
  --color WHEN           use colors: always, never, or auto, which is the default: if
                         standard output is a terminal and NO_COLOR isn't set
";

/// The help of `list`.
const LIST: &str = "\
usage: wat list [FILE..]

Prints the contents of the module in each file, one field or instruction per line. For a
text that isn't a module it prints the first error.

";

/// The help of `print`.
const PRINT: &str = "\
usage: wat print [--line] [FILE..]

Prints the module in each file as a text that parses back to the same module.
Instructions are flat, one per line. Comments are lost.

  --line                 print the module on one line
";

/// The help of `fmt`.
const FORMAT: &str = "\
usage: wat fmt [--check] [--diff] [FILE..]

Formats each file in place. It changes white space outside tokens and comments only, and
takes any text with valid tokens. A file is replaced atomically. For standard input it
prints the formatted text.
A directory means the files *.wat and *.wast below it, at any depth, in the order of
their paths. Symbolic links in it are left out.

  --check                print the name of each input that would change, and change
                         nothing
  --diff                 print a unified diff of each input that would change, and
                         change nothing
";

/// The options of every command.
const OPTIONS: &str = "\
\x20 --stdin-filepath NAME  the name of standard input in reports
  -h, --help             print this help
  --                     end the options: after it every argument is a file

Without a FILE, and for the FILE -, it reads standard input.
";

/// Returns the two parts of the help of a command, or of the program.
pub(crate) fn help_of(topic: Option<CommandName>) -> (&'static str, &'static str) {
    match topic {
        Some(CommandName::Check) => (CHECK, OPTIONS),
        Some(CommandName::Listing) => (LIST, OPTIONS),
        Some(CommandName::Print) => (PRINT, OPTIONS),
        Some(CommandName::Format) => (FORMAT, OPTIONS),
        None => (USAGE, HELP),
    }
}
