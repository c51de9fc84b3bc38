//! Sample token lists that spell operands, as contracts. The functions do nothing: only their
//! contracts matter.

ghost use Rattle.wat_operands.specs.ImmediateRows.{Accesses, AtomicAccesses, LaneAccesses, TableInits, TableCopies, Vector, OrderedTable};
ghost use Rattle.wat_operands.specs.GroupRows.{Catches, Handlers, Selects};

/// Sample token lists that spell operands of indices and numbers. The facts use only the
/// definitions, so they can reveal an error that a parser shares with its definition.
pub fn immediate_rows()
    ensures accesses { Accesses }
    ensures atomic_accesses { AtomicAccesses }
    ensures lane_accesses { LaneAccesses }
    ensures table_inits { TableInits }
    ensures table_copies { TableCopies }
    ensures vector { Vector }
    ensures ordered_table { OrderedTable }
{}

/// Sample token lists that spell operands of types or groups. The facts use only the definitions,
/// so they can reveal an error that a parser shares with its definition.
pub fn group_rows()
    ensures catches { Catches }
    ensures handlers { Handlers }
    ensures selects { Selects }
{}
