//! Items and groups as trees.

use wat_instr::Instruction;

/// A list of items: the first item, and last the items after it. A hint precedes the items after
/// it. The lists in an item are in the order of the text: operands, then what the item holds.
#[derive(Clone, Copy)]
pub enum Items<'a> {
    /// The end of the list.
    Nil,
    /// An instruction.
    Plain(&'a Instruction<'a>, &'a Items<'a>),
    /// A folded instruction and its operands.
    Folded(&'a Instruction<'a>, &'a Items<'a>, &'a Items<'a>),
    /// A block as a group, and what it holds.
    Block(&'a Instruction<'a>, &'a Items<'a>, &'a Items<'a>),
    /// An `if` as a group, its operands and its arm.
    IfThen(&'a Instruction<'a>, &'a Items<'a>, &'a Items<'a>, &'a Items<'a>),
    /// An `if` as a group, its operands and its two arms.
    IfElse(&'a Instruction<'a>, &'a Items<'a>, &'a Items<'a>, &'a Items<'a>, &'a Items<'a>),
    /// The value of a branch hint.
    Hinted(u32, &'a Items<'a>),
}

/// A list of groups. Each group is one folded instruction of any kind.
#[derive(Clone, Copy)]
pub enum Groups<'a> {
    /// The end of the list.
    Nil,
    /// The instruction of the first group, the groups in that group, and the groups after it.
    Group(&'a Instruction<'a>, &'a Groups<'a>, &'a Groups<'a>),
}

/// One folded instruction of any kind.
#[derive(Clone, Copy)]
pub struct FoldedGroup<'a> {
    /// The instruction.
    pub instr: &'a Instruction<'a>,
    /// The groups after the instruction.
    pub groups: &'a Groups<'a>,
}
