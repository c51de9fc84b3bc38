//! Laws of expressions: functions that do nothing, whose contracts state facts about the
//! definitions. Among the facts are sample texts that spell expressions.

ghost use Rattle.std.specs.Prelude.{◌≡◌, ◌≤◌, ◌+◌, ◌∷◌, ◌++◌, Bool, List, [], length, true};
ghost use Rattle.wat_expr.specs.Prelude.{ExpressionModel, own, flat_tokens, Groups, is_folded, unfolded_groups, folded_instruction, Items, reads, lists, unfolded, hints, expression, MayFollow, NoTypeSecond, InstructionModel, instruction, ends, Token, RParen};
ghost use Rattle.wat_expr.specs.FlatForm.{one_by_one, AreInstructions, flat_folded, flat_value, how_many, PassesOwnAlone};
ghost use Rattle.wat_expr.specs.Items.{count_hints};
ghost use Rattle.wat_expr.specs.Rising.{Rises};
ghost use Rattle.wat_expr.specs.Rows.{OperandsFirst, BothArms, HintBehindOperand, BlockInFold, HintBehindBlock};

use wat_instr::laws::stands_before_what_may_follow;

/// The tokens of an expression have one reading as items. The tokens of a folded instruction have
/// one reading as a group.
pub fn one_reading()
    // If two prefixes of one token list both list items, each up to the end or a `)`, then the
    // prefixes are equal, and so are the items.
    ensures written { (xs ys : Items) (c d r s : List Token) → c ++ r ≡ d ++ s → ends r ≡ true
        → ends s ≡ true → lists xs (c ++ r) r → lists ys (d ++ s) s → (xs ≡ ys) × (r ≡ s)
        × (c ≡ d) }
    // If two prefixes of one token list are both a folded instruction, then the prefixes are
    // equal, and so are the instructions and the groups.
    ensures folded { (i j : InstructionModel) (gs hs : Groups) (c d r s : List Token) → c ++ r ≡ d
        ++ s
        → is_folded i gs (c ++ r) r → is_folded j hs (d ++ s) s → ((i ≡ j) × (gs ≡ hs))
        × (r ≡ s) × (c ≡ d) }
{}

/// The branch hints of an expression are in the order of its instructions, and no hint is lost.
pub fn hints_in_order()
    // The indices of the hints rise strictly. Each index is below the number of instructions.
    ensures rising { (v : ExpressionModel) (c r : List Token) → expression.spells v c r
        → Rises 0 v.hints (length v.instrs) }
    // The number of hints of an expression equals the number of hints among its items.
    ensures many { (xs : Items) (t r : List Token) → lists xs t r
        → length (hints xs 0) ≡ count_hints xs }
{}

/// An expression has no more instructions than tokens. Each added `else` and `end` counts as an
/// instruction.
pub fn no_more_than_tokens()
    ensures written { (v : ExpressionModel) (c r : List Token) → expression.spells v c r
        → length v.instrs ≤ length c }
    ensures folded { (v : ExpressionModel) (c r : List Token) → folded_instruction.spells v c r
        → length v.instrs ≤ length c }
{}

/// Items have a flat form: the tokens of each instruction, in the order of the flat list, with the
/// added keywords `else` and `end`. The flat form lists the same instructions.
pub fn flat_again()
    // The flat form of listed items lists the same instructions, without groups, before each rest
    // that may follow an instruction. Such a rest is empty or begins with `)` or a mnemonic, and
    // its second token is not one of the keywords `type`, `param` and `result`.
    ensures anywhere { (xs : Items) (ts r s : List Token) (l : lists xs ts r) → MayFollow s
        → lists (one_by_one (unfolded xs)) (flat_tokens xs ts r l ++ s) s }
    // For items up to the end, this holds before the same rest, if its second token is not one of
    // these keywords.
    ensures written { (xs : Items) (ts r : List Token) (l : lists xs ts r) → ends r ≡ true
        → NoTypeSecond r → lists (one_by_one (unfolded xs)) (flat_tokens xs ts r l ++ r) r }
    // Before that rest, the flat form spells the same instructions, without hints.
    ensures spelled { (xs : Items) (ts r : List Token) (l : lists xs ts r) → ends r ≡ true
        → NoTypeSecond r → expression.spells (flat_value (unfolded xs))
        (flat_tokens xs ts r l) r }
    // The flat form of a folded instruction lists the same instructions before the empty rest.
    ensures folded { (i : InstructionModel) (gs : Groups) (ts r : List Token) (l : is_folded i gs
        ts r)
        → lists (one_by_one (unfolded_groups gs ++ i ∷ [])) (flat_folded i gs ts r l) [] }
    // The same holds for an instruction of any kind with items after it in one group: the
    // instruction comes after the items, without an `end`.
    ensures headed { (i : InstructionModel) (xs : Items) (a b r : List Token) → reads i a b
        → (l : lists xs b (RParen ∷ r)) → lists (one_by_one (unfolded xs ++ i ∷ []))
        (flat_tokens xs b (RParen ∷ r) l ++ own a b) [] }
{
    stands_before_what_may_follow();
}

/// The flat form of items is unique, and has the tokens of their instructions.
pub fn flat_form()
    // The flat form is the same for each way in which the same tokens list the items.
    ensures one { (xs : Items) (ts r : List Token) (l k : lists xs ts r) → ends r ≡ true
        → flat_tokens xs ts r l ≡ flat_tokens xs ts r k }
    // An instruction's own tokens spell the instruction, and the rest comes after them.
    ensures own { (i : InstructionModel) (ts m : List Token) → reads i ts m → (ts ≡ own ts m ++ m)
        × instruction.spells i (own ts m) m }
    // Each token occurs equally often in the flat form and in the listed tokens. Exceptions are the
    // tokens of groups and hints, and the keywords that can be added.
    ensures as_many { (xs : Items) (ts r : List Token) (l : lists xs ts r) (test : Token → Bool)
        → PassesOwnAlone test → how_many test ts ≡ how_many test
        (flat_tokens xs ts r l) + how_many test r }
    ensures as_many_folded { (i : InstructionModel) (gs : Groups) (ts r : List Token) (l :
        is_folded i gs ts r)
        (test : Token → Bool) → PassesOwnAlone test → how_many test ts ≡ how_many test
        (flat_folded i gs ts r l) + how_many test r }
    // Items without groups and hints are their own flat form.
    ensures already { (xs : Items) (ts r : List Token) (l : lists xs ts r) → AreInstructions xs
        → flat_tokens xs ts r l ++ r ≡ ts }
{}

/// Sample texts that spell expressions and folded instructions. These facts use only the
/// definitions, so they can reveal an error that the parser shares with its definition.
pub fn expression_rows()
    ensures operands_first { OperandsFirst }
    ensures both_arms { BothArms }
    ensures hint_behind_operand { HintBehindOperand }
    ensures block_in_fold { BlockInFold }
    ensures hint_behind_block { HintBehindBlock }
{}
