//! The loop over the tokens of an expression, turn by turn.

ghost use Rattle.std.specs.Prelude.{◌≡◌, ◌∷◌, [], List, ℕ, Option, None, true, false, codes, MatchBool};
ghost use Rattle.wat_instr.specs.Prelude.{InstructionModel, is_if, op_row, Steady, ends, Token, LParen, RParen};
ghost use Rattle.wat_expr.specs.Flat.{flat, no_output};
ghost use Rattle.wat_expr.specs.Items.{keyword, hint_name};
ghost use Rattle.wat_expr.specs.Progress.{IsOpen, TurnAnswers};
ghost use Rattle.wat_expr.specs.Taken.{suits_word, TakesSuited};
ghost use Rattle.wat_expr.specs.Turned.{stand, IsHintByte};
ghost use Rattle.wat_expr.specs.OpenGroups.{OpenGroup as Open, InIf, AfterThen, holder};

use crate::expression::Expression;
use crate::open_groups::{Kind, Mark, OpenGroups};
use crate::take::{refuse, take_close, take_hint_name, take_op, take_open, take_string, take_word};
use std::alloc::Global;
use wat_instr::{Instruction, LabelOp, Op, is_block, is_br_if, is_if};
use wat_tokens::ownership::discard;
use wat_tokens::{Error, Fault, Parser, Result, Span};

/// The state of the loop between turns.
#[derive(Drop)]
pub(crate) struct Reader<'a> {
    pub open_groups: OpenGroups<'a>,
    pub out: Expression<'a>,
    /// The value of the hint that waits for its item.
    pub pending: Option<u32>,
}

/// Returns the value of a hint's string, which is the byte 0 or 1. Returns None for other strings.
fn hint_byte(bytes: &[u8]) -> Option<u32>
    ensures { IsHintByte result bytes.now }
{
    match bytes {
        [byte] if *byte < 2 => Some(u32::from(*byte)),
        _ => None,
    }
}

/// Returns whether the waiting hint, if any, can precede an instruction with this mnemonic.
#[inline(always)]
fn suits(hint: Option<u32>, op: Op) -> bool
    ensures { result ≡ suits_word hint op }
{
    match hint {
        Some(_) => is_br_if(op) || is_if(op),
        None => true,
    }
}

/// Returns the error for an instruction that the waiting hint can't precede. Its keyword was taken.
/// The error is the first error of the operand; without such an error, HintTarget at the keyword.
#[cold]
fn unsuited<'a>(op: Op, parser: &mut Parser<'a>) -> Error
    ensures { Steady parser.old parser.new }
{
    let span = parser.prev_span();
    let mut slot = None;
    match Instruction::read_operand(op, parser, &mut slot) {
        Ok(()) => {
            discard(slot);
            Error::at(Fault::HintTarget, span)
        }
        Err(refused) => refused,
    }
}

/// Takes the keyword of the next instruction. If the waiting hint can't precede the instruction,
/// the error is HintTarget at the keyword. An error in the operand comes first.
#[inline(always)]
fn take_suited<'a>(parser: &mut Parser<'a>, hint: Option<u32>) -> Result<Op>
    ensures exact { TakesSuited hint result parser.old.left parser.new.left }
    ensures steady { Steady parser.old parser.new }
{
    match take_op(parser) {
        Ok(op) => {
            if suits(hint, op) {
                return Ok(op);
            }
            Err(unsuited(op, parser))
        }
        Err(refused) => Err(refused),
    }
}

/// Returns the kind of a group that holds its waiting instruction.
#[inline(always)]
fn holder(op: Op) -> Kind
    ensures { result ≡ holder (is_if (op_row op)) }
{
    if is_if(op) { Kind::If } else { Kind::Folded }
}

impl<'a> Reader<'a> {
    /// Returns the state before the first token. Spans are kept if `tracks` is true.
    pub(crate) fn new(alloc: Global, tracks: bool) -> Reader<'a>
        ensures open_groups { result.open_groups ≡ [] }
        ensures out { flat result.out ≡ no_output tracks }
        ensures pending { result.pending ≡ None }
    {
        Reader {
            open_groups: OpenGroups::new(alloc),
            out: Expression::empty(alloc, tracks),
            pending: None,
        }
    }

    /// Returns whether no group is open and the next token is `)` or missing.
    pub(crate) fn is_done(&self, parser: &Parser<'a>) -> bool
        ensures { MatchBool result ((self.now.open_groups ≡ [])
            × (ends parser.now.left ≡ true))
            (self.now.open_groups ≡ [] → ends parser.now.left ≡ true → ⊥) }
    {
        parser.is_empty() && self.open_groups.is_empty()
    }

    /// One turn. The next token decides the kind of turn.
    pub(crate) fn turn(&mut self, parser: &mut Parser<'a>) -> Result<()>
        requires { self.old.open_groups ≡ [] → ends parser.old.left ≡ true → ⊥ }
        ensures turned { TurnAnswers result (stand self.old parser.old.left)
            (stand self.new parser.new.left) }
        ensures steady { Steady parser.old parser.new }
    {
        if parser.is_empty() {
            if take_close(parser) {
                return self.close(parser.prev_span());
            }
            // The text ends in an open group.
            return Err(Error::at(Fault::Operator, parser.cur_span()));
        }
        if take_open(parser) {
            return self.open(parser);
        }
        self.plain(parser)
    }

    /// A turn at an instruction outside parentheses.
    fn plain(&mut self, parser: &mut Parser<'a>) -> Result<()>
        requires no_group { (ts : List Token) → parser.old.left ≡ LParen ∷ ts → ⊥ }
        requires no_end { ends parser.old.left ≡ false }
        ensures turned { TurnAnswers result (stand self.old parser.old.left)
            (stand self.new parser.new.left) }
        ensures steady { Steady parser.old parser.new }
    {
        if !self.open_groups.takes_plain() {
            return Err(parser.unexpected());
        }
        let op = match take_suited(parser, self.pending) {
            Ok(op) => op,
            Err(refused) => return Err(refused),
        };
        let span = parser.prev_span();
        let hint = self.pending.take();
        self.out.read(op, parser, hint, span)
    }

    /// A turn at a `)` at `span`, which was taken.
    fn close(&mut self, span: Span) -> Result<()>
        requires { self.old.open_groups ≡ [] → ⊥ }
        ensures { (m : List Token) → TurnAnswers result
            (stand self.old (RParen ∷ m)) (stand self.new m) }
    {
        if let Some(_) = self.pending {
            return Err(Error::at(Fault::HintPlace, span));
        }
        match self.open_groups.pop(&mut self.out) {
            Ok(Kind::Folded) => Ok(()),
            Ok(Kind::Arm) => Ok(()),
            Ok(Kind::Block) => self.out.push_end(span),
            Ok(Kind::AfterThen) => self.out.push_end(span),
            Ok(Kind::AfterElse) => self.out.push_end(span),
            Ok(Kind::If) => Err(Error::at(Fault::IfWithoutThen, span)),
            Err(refused) => Err(refused),
        }
    }

    /// A turn at a `(`, which was taken.
    fn open(&mut self, parser: &mut Parser<'a>) -> Result<()>
        ensures turned { TurnAnswers result (stand self.old (LParen ∷ parser.old.left))
            (stand self.new parser.new.left) }
        ensures steady { Steady parser.old parser.new }
    {
        match self.open_groups.top() {
            Some(Kind::If) => {
                if take_word(parser, "then") {
                    return self.open_then(parser.prev_span());
                }
                self.open_item(parser)
            }
            Some(Kind::AfterThen) => self.open_else(parser),
            Some(Kind::AfterElse) => Err(Error::at(Fault::IfTooMany, parser.cur_span())),
            _ => self.open_item(parser),
        }
    }

    /// A turn at `( then`, which was taken. `span` is the place of the keyword.
    fn open_then(&mut self, span: Span) -> Result<()>
        requires { (i : InstructionModel) × (h : Option ℕ) × (s : List Open)
            × (self.old.open_groups ≡ InIf i h ∷ s) }
        ensures { (m : List Token) → TurnAnswers result
            (stand self.old (LParen ∷ keyword (codes "then") ∷ m)) (stand self.new m) }
    {
        if let Some(_) = self.pending {
            return Err(Error::at(Fault::HintPlace, span));
        }
        self.open_groups.pop(&mut self.out)?;
        self.open_groups.enter(Kind::AfterThen)?;
        self.open_groups.enter(Kind::Arm)
    }

    /// A turn at a `(` after `( then .. )`. The `(` was taken.
    fn open_else(&mut self, parser: &mut Parser<'a>) -> Result<()>
        requires { (s : List Open) × (self.old.open_groups ≡ AfterThen ∷ s) }
        ensures turned { TurnAnswers result (stand self.old (LParen ∷ parser.old.left))
            (stand self.new parser.new.left) }
        ensures steady { Steady parser.old parser.new }
    {
        if !take_word(parser, "else") {
            return Err(parser.unexpected());
        }
        let span = parser.prev_span();
        // No hint waits here. After `( then .. )` no hint is read, and a hint that waits at its
        // `)` is refused. The contract doesn't state this, so a waiting hint is refused here too.
        if let Some(_) = self.pending {
            return Err(Error::at(Fault::HintPlace, span));
        }
        self.open_groups.pop(&mut self.out)?;
        self.open_groups.enter(Kind::AfterElse)?;
        self.open_groups.enter(Kind::Arm)?;
        self.out
            .push(Instruction::Label(LabelOp::else_, None), span)
    }

    /// A turn at a group or a hint, whose `(` was taken.
    fn open_item(&mut self, parser: &mut Parser<'a>) -> Result<()>
        requires place { IsOpen self.old.open_groups }
        requires no_then { (ts : List Token) → parser.old.left ≡ keyword (codes "then") ∷ ts
            → (i : InstructionModel) (h : Option ℕ) (s : List Open) → self.old.open_groups ≡ InIf i
            h ∷ s → ⊥ }
        ensures turned { TurnAnswers result (stand self.old (LParen ∷ parser.old.left))
            (stand self.new parser.new.left) }
        ensures steady { Steady parser.old parser.new }
    {
        if take_hint_name(parser) {
            return self.hint(parser);
        }
        let op = match take_suited(parser, self.pending) {
            Ok(op) => op,
            Err(refused) => return refuse(refused),
        };
        let span = parser.prev_span();
        let hint = self.pending.take();
        if is_block(op) {
            return match self.out.read(op, parser, hint, span) {
                Ok(()) => self.open_groups.enter(Kind::Block),
                Err(refused) => refuse(refused),
            };
        }
        let mark = Mark { span, hint };
        self.open_groups.hold(holder(op), op, parser, mark)
    }

    /// A turn at a hint, whose `(` and annotation were taken.
    fn hint(&mut self, parser: &mut Parser<'a>) -> Result<()>
        requires { IsOpen self.old.open_groups }
        ensures turned { TurnAnswers result (stand self.old (LParen ∷ hint_name ∷ parser.old.left))
            (stand self.new parser.new.left) }
        ensures steady { Steady parser.old parser.new }
    {
        let span = parser.cur_span();
        let bytes = take_string(parser)?;
        let Some(value) = hint_byte(bytes) else {
            return Err(Error::at(Fault::HintValue, span));
        };
        if let Some(_) = self.pending {
            return Err(Error::at(Fault::HintTwice, span));
        }
        if !take_close(parser) {
            return Err(parser.unexpected());
        }
        self.pending = Some(value);
        Ok(())
    }
}
