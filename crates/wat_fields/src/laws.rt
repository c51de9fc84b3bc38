//! Sample texts that spell fields of modules: functions that do nothing, whose contracts state the
//! facts. These are facts about the definitions alone, so an error that a parser shares with its
//! definition would show here.

ghost use Rattle.wat_fields.specs.ElementRows.{Declared, OfExternref, Active, OfNulls, OfItems};
ghost use Rattle.wat_fields.specs.FunctionRows.{Locals, ImportedGlobal, PlainTag};
ghost use Rattle.wat_fields.specs.SegmentRows.{InlineMemory, SharedMemory, PassiveData, HeadLast};

/// Sample texts that spell functions, globals and tags.
pub fn function_rows()
    ensures locals { Locals }
    ensures imported_global { ImportedGlobal }
    ensures plain_tag { PlainTag }
{}

/// Sample texts that spell memories and data segments.
pub fn segment_rows()
    ensures inline_memory { InlineMemory }
    ensures shared_memory { SharedMemory }
    ensures passive_data { PassiveData }
    ensures head_last { HeadLast }
{}

/// Sample texts that spell element segments and tables.
pub fn element_rows()
    ensures declared { Declared }
    ensures of_externref { OfExternref }
    ensures active { Active }
    ensures of_nulls { OfNulls }
    ensures of_items { OfItems }
{}
