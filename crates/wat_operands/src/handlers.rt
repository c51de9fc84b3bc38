//! Handler tables, and the operands that have a handler table.

ghost use Rattle.std.specs.Prelude.{◌≡◌, List};
ghost use Rattle.wat_types.specs.Prelude.{Copies, plain, owning, no_items};
ghost use Rattle.wat_operands.specs.Handlers.{handle_view, begins_handler, resume_table_view, resume_table, ResumeModel, resume_view, resume_throw_ref_view, heapless_resume, resume, ResumeThrowModel, resume_throw_view, heapless_throw, resume_throw};
ghost use Rattle.wat_operands.specs.Handler.{HandleModel, handler};

use wat_tokens::repeat::{Part, parts};
use wat_tokens::{Fault, Index, Parse, Parser, Result};

/// A handler of a suspension, with indices of type `I` (stack switching, Text Format,
/// "Instructions").
#[derive(Clone, Debug, Drop)]
pub enum HandleOf<I> {
    /// `( on tag label )`: branches to the label.
    OnLabel {
        /// The tag of the suspension.
        tag: I,
        /// The label.
        label: I,
    },
    /// `( on tag switch )`: switches to another continuation.
    OnSwitch {
        /// The tag of the suspension.
        tag: I,
    },
}

/// A handler of a suspension.
pub type Handle<'a> = HandleOf<Index<'a>>;

/// The handlers of an instruction that resumes a continuation, with indices of type `I` (stack
/// switching, Text Format, "Instructions").
#[derive(Debug, Drop)]
pub struct ResumeTableOf<I> {
    /// The handlers, in order.
    pub handlers: Vec<HandleOf<I>>,
}

/// The handlers of an instruction that resumes a continuation.
pub type ResumeTable<'a> = ResumeTableOf<Index<'a>>;

/// The operand of `resume`, with indices of type `I` (stack switching, Text Format,
/// "Instructions").
#[derive(Debug, Drop)]
pub struct ResumeOf<I> {
    /// The type of the continuation.
    pub type_index: I,
    /// The handlers.
    pub table: ResumeTableOf<I>,
}

/// The operand of `resume`.
pub type Resume<'a> = ResumeOf<Index<'a>>;

/// The operand of `resume_throw`, with indices of type `I` (stack switching, Text Format,
/// "Instructions").
#[derive(Debug, Drop)]
pub struct ResumeThrowOf<I> {
    /// The type of the continuation.
    pub type_index: I,
    /// The tag of the exception to throw in the continuation.
    pub tag_index: I,
    /// The handlers.
    pub table: ResumeTableOf<I>,
}

/// The operand of `resume_throw`.
pub type ResumeThrow<'a> = ResumeThrowOf<Index<'a>>;

/// The operand of `resume_throw_ref`, with indices of type `I` (stack switching, Text Format,
/// "Instructions").
#[derive(Debug, Drop)]
pub struct ResumeThrowRefOf<I> {
    /// The type of the continuation.
    pub type_index: I,
    /// The handlers.
    pub table: ResumeTableOf<I>,
}

/// The operand of `resume_throw_ref`.
pub type ResumeThrowRef<'a> = ResumeThrowRefOf<Index<'a>>;

/// `( on idx switch )` or `( on idx idx )`, as long as a group begins with `on`: the tag first, the
/// label last.
struct Handler;

impl<'a> Part<'a, Handle<'a>> for Handler {
    ghost View = { HandleModel };

    ghost view = { plain handle_view };

    ghost grammar = { handler };

    ghost follows = { begins_handler };

    fn follows(parser: &Parser<'a>) -> bool {
        parser.group_is("on")
    }

    #[tactic(auto, unfolding(crate::specs::Handler::handler, crate::specs::Handler::aim))]
    fn take(parser: &mut Parser<'a>) -> Result<Handle<'a>> {
        parser.open()?;
        parser.keyword("on")?;
        let tag = Index::parse(parser)?;
        let found = if parser.flag("switch") {
            Handle::OnSwitch { tag }
        } else {
            let label = Index::parse(parser)?;
            Handle::OnLabel { tag, label }
        };
        parser.close()?;
        Ok(found)
    }
}

impl<'a> ResumeTable<'a> {
    /// Returns a copy. Returns Memory only if the value has a handler.
    #[tactic(auto, using(std::proofs::lemmas::List::Elements::same_from_all_zip))]
    pub fn clone(&self) -> Result<ResumeTable<'a>>
        ensures copies { Copies (λ x y. y.handlers.items ≡ x.handlers.items)
            (owning resume_table_view no_items) result self.now }
    {
        let mut handlers = Vec::new(*self.handlers.allocator());
        if self.handlers.is_empty() {
            return Ok(ResumeTable { handlers });
        }
        handlers.extend_with_clones(&self.handlers)?;
        Ok(ResumeTable { handlers })
    }
}

/// All groups that begin with `on`. It is an error if such a group isn't a valid handler.
impl<'a> Parse<'a> for ResumeTable<'a> {
    ghost View = { List HandleModel };

    ghost view = { owning resume_table_view no_items };

    ghost grammar = { resume_table };

    #[tactic(auto, using(crate::specs::Laws::Handlers::handler_consumes), unfolding(crate::specs::Handlers::resume_table))]
    fn parse(parser: &mut Parser<'a>) -> Result<Self> {
        let mut handlers = Vec::new(parser.alloc());
        parts::<_, Handler>(parser, &mut handlers)?;
        Ok(ResumeTable { handlers })
    }
}

impl<'a> Resume<'a> {
    /// Returns a copy. Returns Memory only if the value has a handler.
    pub fn clone(&self) -> Result<Resume<'a>>
        ensures copies { Copies (λ x y. (y.type_index ≡ x.type_index) ×
            (y.table.handlers.items ≡ x.table.handlers.items)) (owning resume_view heapless_resume)
            result self.now }
    {
        Ok(Resume {
            type_index: self.type_index,
            table: self.table.clone()?,
        })
    }
}

/// An index, and a [`ResumeTable`].
impl<'a> Parse<'a> for Resume<'a> {
    ghost View = { ResumeModel };

    ghost view = { owning resume_view heapless_resume };

    ghost grammar = { resume };

    #[tactic(auto, unfolding(crate::specs::Handlers::resume))]
    fn parse(parser: &mut Parser<'a>) -> Result<Self> {
        let type_index = Index::parse(parser)?;
        let table = ResumeTable::parse(parser)?;
        Ok(Resume { type_index, table })
    }
}

impl<'a> ResumeThrow<'a> {
    /// Returns a copy. Returns Memory only if the value has a handler.
    pub fn clone(&self) -> Result<ResumeThrow<'a>>
        ensures copies { Copies (λ x y. (y.type_index ≡ x.type_index) × (y.tag_index ≡ x.tag_index)
            × (y.table.handlers.items ≡ x.table.handlers.items))
            (owning resume_throw_view heapless_throw) result self.now }
    {
        Ok(ResumeThrow {
            type_index: self.type_index,
            tag_index: self.tag_index,
            table: self.table.clone()?,
        })
    }
}

/// Two indices, and a [`ResumeTable`].
impl<'a> Parse<'a> for ResumeThrow<'a> {
    ghost View = { ResumeThrowModel };

    ghost view = { owning resume_throw_view heapless_throw };

    ghost grammar = { resume_throw };

    #[tactic(auto, unfolding(crate::specs::Handlers::resume_throw))]
    fn parse(parser: &mut Parser<'a>) -> Result<Self> {
        let type_index = Index::parse(parser)?;
        let tag_index = Index::parse(parser)?;
        let table = ResumeTable::parse(parser)?;
        Ok(ResumeThrow {
            type_index,
            tag_index,
            table,
        })
    }
}

impl<'a> ResumeThrowRef<'a> {
    /// Returns a copy. Returns Memory only if the value has a handler.
    pub fn clone(&self) -> Result<ResumeThrowRef<'a>>
        ensures copies { Copies (λ x y. (y.type_index ≡ x.type_index) ×
            (y.table.handlers.items ≡ x.table.handlers.items))
            (owning resume_throw_ref_view heapless_resume) result self.now }
    {
        Ok(ResumeThrowRef {
            type_index: self.type_index,
            table: self.table.clone()?,
        })
    }
}

/// An index, and a [`ResumeTable`].
impl<'a> Parse<'a> for ResumeThrowRef<'a> {
    ghost View = { ResumeModel };

    ghost view = { owning resume_throw_ref_view heapless_resume };

    ghost grammar = { resume };

    #[tactic(auto, unfolding(crate::specs::Handlers::resume))]
    fn parse(parser: &mut Parser<'a>) -> Result<Self> {
        let type_index = Index::parse(parser)?;
        let table = ResumeTable::parse(parser)?;
        Ok(ResumeThrowRef { type_index, table })
    }
}
