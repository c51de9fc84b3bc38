//! Example texts with their tokens.

ghost use Rattle.wat_lexer.specs.Rows.{Comments, Strings, QuotedNames, Spoiled, Integers, Values, HiddenGroups, Faults, UnclosedGroup};

/// Example texts with their tokens, their hidden groups and their faults. The clauses name only the
/// definitions. An error that the code and its definition share would show here.
pub fn cut_rows()
    ensures comments { Comments }
    ensures strings { Strings }
    ensures quoted_names { QuotedNames }
    ensures spoiled { Spoiled }
    ensures integers { Integers }
    ensures values { Values }
    ensures hidden_groups { HiddenGroups }
    ensures faults { Faults }
    ensures unclosed_group { UnclosedGroup }
{}
