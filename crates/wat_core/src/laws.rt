//! Laws of the grammar: functions that do nothing, whose contracts state facts about the grammar's
//! definitions.

ghost use Rattle.std.specs.Prelude.{◌≡◌, ℕ, Bool, List, true};
ghost use Rattle.wat_core.specs.Prelude.{ends, Token, folded_instruction, ModuleModel, module_};
ghost use Rattle.wat_tokens.specs.Once.{HasOneReading};
ghost use Rattle.wat_types.specs.Limits.{pagesize_or_none};
ghost use Rattle.wat_operands.specs.Lanes.{lane_access};
ghost use Rattle.wat_operands.specs.Memory.{mem_arg, atomic_mem_arg};
ghost use Rattle.wat_core.specs.Rows.{NamedModule, TwoFields, Binary, Types, Links, Functions, Stores, ZeroGlobal, Segments, Customs};

pub use wat_expr::laws::{flat_again, flat_form, hints_in_order, no_more_than_tokens};
pub use wat_mnemonics::laws::{no_prefix, one_mnemonic, words_in_order};
use wat_tokens::Parse;

/// At most one prefix of a token list spells a value, and it spells one value, spans aside. The
/// clauses state this for every type with [`Parse`], for modules, and for the values that only
/// functions parse: folded instructions, page sizes, and memory accesses of each default alignment.
#[tactic(auto, using(wat_tokens::specs::Laws::Once::reads_once))]
pub fn one_reading<'a, T: Parse<'a>>()
    ensures value { HasOneReading T.grammar }
    ensures module { HasOneReading module_ }
    ensures folded { HasOneReading folded_instruction }
    ensures page_size { HasOneReading pagesize_or_none }
    ensures access { (align : ℕ) → HasOneReading (mem_arg align) }
    ensures atomic { (align : ℕ) (rmw : Bool) → HasOneReading (atomic_mem_arg align rmw) }
    ensures lane { (align : ℕ) → HasOneReading (lane_access align) }
{}

/// Tokens that spell a module before one end spell it before every end, where an end is the end of
/// the text or a `)`.
pub fn any_rest()
    // Tokens that spell a module before one end spell the same module before every end.
    ensures same { (m : ModuleModel) (c r s : List Token) → module_.spells m c r → ends s ≡ true
        → module_.spells m c s }
    // Tokens spell a module only before an end.
    ensures ends { (m : ModuleModel) (c r : List Token) → module_.spells m c r → ends r ≡ true }
{}

/// Sample texts that spell modules. These are facts about the definitions alone, so an error that
/// the parser shares with its definition would show here.
pub fn module_rows()
    ensures named { NamedModule }
    ensures two_fields { TwoFields }
    ensures binary { Binary }
    ensures types { Types }
    ensures links { Links }
    ensures functions { Functions }
    ensures stores { Stores }
    ensures globals { ZeroGlobal }
    ensures segments { Segments }
    ensures customs { Customs }
{}
