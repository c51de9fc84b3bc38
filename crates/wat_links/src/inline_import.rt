//! Inline imports.

ghost use Rattle.std.specs.Prelude.{◌≡◌, ℕ, List};
ghost use Rattle.wat_types.specs.Prelude.{in_front, plain};
ghost use Rattle.wat_links.specs.Import.{inline_import_view, inline_import, begins_inline_import, at_inline_import};

use wat_tokens::{Cursor, Parse, Parser, Peek, Result};

/// The inline import of an item (WebAssembly Core Specification, Text Format, Modules, "Imports",
/// Abbreviations).
#[derive(Clone, Copy, Debug)]
pub struct InlineImport<'a> {
    /// The module name.
    pub module: &'a str,
    /// The item name.
    pub field: &'a str,
}

/// Reads `( import name name )`: the module name and the item name.
impl<'a> Parse<'a> for InlineImport<'a> {
    ghost View = { List ℕ × List ℕ };

    ghost view = { plain inline_import_view };

    ghost grammar = { inline_import };

    #[tactic(auto, unfolding(crate::specs::Import::inline_import))]
    fn parse(parser: &mut Parser<'a>) -> Result<Self> {
        parser.open()?;
        parser.keyword("import")?;
        let module = <&str as Parse>::parse(parser)?;
        let field = <&str as Parse>::parse(parser)?;
        parser.close()?;
        Ok(InlineImport { module, field })
    }
}

/// An [`InlineImport`] begins at `(`, `import`, two strings and `)`.
impl<'p> Peek for InlineImport<'p> {
    ghost begins = { at_inline_import };

    fn peek(cursor: Cursor<'_>) -> bool
        ensures { result ≡ begins_inline_import (in_front cursor.entry) }
    {
        let Some(inside) = cursor.lparen() else {
            return false;
        };
        let Some((word, rest)) = inside.keyword() else {
            return false;
        };
        let Some((_, rest)) = rest.string() else {
            return false;
        };
        match rest.string() {
            Some((_, rest)) => word == "import" && rest.rparen().is_some(),
            None => false,
        }
    }

    fn display() -> &'static str {
        "inline import"
    }
}
