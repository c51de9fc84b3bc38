//! Sample texts that spell types, as contracts. The functions do nothing: only their contracts
//! matter.

ghost use Rattle.wat_types.specs.Rows.{PageSizes, Globals, LongLimits, FinalSub, OpenSub, Structure, Described, Uses};

/// Sample texts and the types that they spell. The facts use only the definitions, so they can
/// reveal an error that a parser shares with its definition. The function does nothing.
pub fn rows()
    ensures page_sizes { PageSizes }
    ensures globals { Globals }
    ensures long_limits { LongLimits }
    ensures final_sub { FinalSub }
    ensures open_sub { OpenSub }
    ensures structure { Structure }
    ensures described { Described }
    ensures uses { Uses }
{}
