//! Sample texts that spell imports, exports and custom sections, as contracts. The functions do
//! nothing: only their contracts matter.

ghost use Rattle.wat_links.specs.CustomRows.{CustomPlaces, Exports, Sizes};
ghost use Rattle.wat_links.specs.LinkRows.{Imports, InlineNames};

/// Sample texts and the custom sections that they spell. The facts use only the definitions, so
/// they can reveal an error that a parser shares with its definition. The function does nothing.
pub fn custom_rows()
    ensures places { CustomPlaces }
    ensures exports { Exports }
    ensures sizes { Sizes }
{}

/// Sample texts and the imports and exports that they spell. The facts use only the definitions,
/// so they can reveal an error that a parser shares with its definition. The function does nothing.
pub fn link_rows()
    ensures imports { Imports }
    ensures inline_names { InlineNames }
{}
