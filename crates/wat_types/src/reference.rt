//! Reference types.

ghost use Rattle.std.specs.Prelude.{◌≡◌, IfSome};
ghost use Rattle.wat_tokens.specs.Prelude.{in_front, plain};
ghost use Rattle.wat_types.specs.Reference.{RefTypeModel, ref_type, ref_view, shorthand, shorthand_words, begins_shorthand, begins_long_ref, begins_ref, nullable_ref, shared_ref, at_ref, short_word};
ghost use Rattle.wat_types.specs.Laws.Named.{shorthand_is_named};

use crate::heap::{AbstractHeapType, HeapType};
use wat_tokens::enclosed::in_word_group;
use wat_tokens::words::{NamedByKeyword, begins_named, take_named};
use wat_tokens::{Cursor, Parse, Parser, Peek, Result};

/// A reference type (WebAssembly Core Specification, Text Format, Types, "Reference Types").
#[derive(Clone, Copy, Debug, PartialEq, Eq, Hash)]
pub struct RefType<'a> {
    /// Whether null is a value of the type.
    pub nullable: bool,
    /// The heap type of the referenced values.
    pub heap: HeapType<'a>,
}

/// The shorthand of a nullable reference type, as the heap type that it names: `funcref` is
/// `Shorthand(AbstractHeapType::Func)`.
#[derive(Clone, Copy)]
pub struct Shorthand(pub AbstractHeapType);

/// The shorthands by keyword (Text Format, Types, "Reference Types", "Abbreviations").
impl NamedByKeyword for Shorthand {
    ghost words = { shorthand_words };

    ghost keyword = { λ s. short_word s.0 };

    ghost is_named = { shorthand_is_named };

    fn named(word: &str) -> Option<Self> {
        match word {
            "funcref" => Some(Shorthand(AbstractHeapType::Func)),
            "externref" => Some(Shorthand(AbstractHeapType::Extern)),
            "exnref" => Some(Shorthand(AbstractHeapType::Exn)),
            "contref" => Some(Shorthand(AbstractHeapType::Cont)),
            "anyref" => Some(Shorthand(AbstractHeapType::Any)),
            "eqref" => Some(Shorthand(AbstractHeapType::Eq)),
            "structref" => Some(Shorthand(AbstractHeapType::Struct)),
            "arrayref" => Some(Shorthand(AbstractHeapType::Array)),
            "i31ref" => Some(Shorthand(AbstractHeapType::I31)),
            "nullfuncref" => Some(Shorthand(AbstractHeapType::NoFunc)),
            "nullexternref" => Some(Shorthand(AbstractHeapType::NoExtern)),
            "nullexnref" => Some(Shorthand(AbstractHeapType::NoExn)),
            "nullcontref" => Some(Shorthand(AbstractHeapType::NoCont)),
            "nullref" => Some(Shorthand(AbstractHeapType::None)),
            _ => None,
        }
    }

    fn word(self) -> &'static str {
        match self.0 {
            AbstractHeapType::Func => "funcref",
            AbstractHeapType::Extern => "externref",
            AbstractHeapType::Exn => "exnref",
            AbstractHeapType::Cont => "contref",
            AbstractHeapType::Any => "anyref",
            AbstractHeapType::Eq => "eqref",
            AbstractHeapType::Struct => "structref",
            AbstractHeapType::Array => "arrayref",
            AbstractHeapType::I31 => "i31ref",
            AbstractHeapType::NoFunc => "nullfuncref",
            AbstractHeapType::NoExtern => "nullexternref",
            AbstractHeapType::NoExn => "nullexnref",
            AbstractHeapType::NoCont => "nullcontref",
            AbstractHeapType::None => "nullref",
        }
    }
}

impl<'a> Parse<'a> for Shorthand {
    ghost use Rattle.wat_types.specs.declared.heap.AbstractHeapType.{AbstractHeapType};
    ghost use Rattle.wat_types.specs.Reference.{shorthand};

    ghost View = { AbstractHeapType };

    ghost view = { plain (λ s. s.0) };

    ghost grammar = { shorthand };

    #[tactic(auto, unfolding(crate::specs::Reference::shorthand))]
    fn parse(parser: &mut Parser<'a>) -> Result<Self> {
        take_named(parser)
    }
}

/// The content of `(ref ..)`: `null? HeapType`.
#[derive(Drop)]
struct LongRef<'a> {
    nullable: bool,
    heap: HeapType<'a>,
}

impl<'a> Parse<'a> for LongRef<'a> {
    ghost use Rattle.std.specs.Prelude.{Bool, codes};
    ghost use Rattle.wat_tokens.specs.Parts.{seq, flag};
    ghost use Rattle.wat_types.specs.Heap.{HeapTypeModel, heap_view, heap_type};

    ghost View = { Bool × HeapTypeModel };

    ghost view = { plain (λ r. (r.nullable, heap_view r.heap)) };

    ghost grammar = { seq (flag (codes "null")) heap_type };

    fn parse(parser: &mut Parser<'a>) -> Result<Self> {
        let nullable = parser.flag("null");
        let heap = HeapType::parse(parser)?;
        Ok(LongRef { nullable, heap })
    }
}

/// Returns whether the next token is a shorthand.
#[tactic(auto, using(wat_tokens::specs::Laws::Begin::table_begins), unfolding(crate::specs::Reference::at_shorthand))]
pub(crate) fn shorthand_at(cursor: Cursor<'_>) -> bool
    ensures { result ≡ begins_shorthand (in_front cursor.entry) }
{
    begins_named::<Shorthand>(cursor)
}

/// Returns whether the next tokens are `( ref` or `( shared`.
pub(crate) fn long_ref_at(cursor: Cursor<'_>) -> bool
    ensures { result ≡ begins_long_ref (in_front cursor.entry) }
{
    cursor.group_is("ref") || cursor.group_is("shared")
}

impl<'a> RefType<'a> {
    /// Returns the reference to an abstract heap type, nullable and not shared.
    fn nullable(ty: AbstractHeapType) -> RefType<'a>
        ensures { result ≡ nullable_ref ty }
    {
        RefType {
            nullable: true,
            heap: HeapType::Abstract { shared: false, ty },
        }
    }

    /// Returns `funcref`.
    pub fn func() -> RefType<'a>
        ensures { result ≡ nullable_ref AbstractHeapType.Func }
    {
        RefType::nullable(AbstractHeapType::Func)
    }

    /// Returns `externref`.
    pub fn extern_() -> RefType<'a>
        ensures { result ≡ nullable_ref AbstractHeapType.Extern }
    {
        RefType::nullable(AbstractHeapType::Extern)
    }

    /// Returns `exnref`.
    pub fn exn() -> RefType<'a>
        ensures { result ≡ nullable_ref AbstractHeapType.Exn }
    {
        RefType::nullable(AbstractHeapType::Exn)
    }

    /// Returns `contref`.
    pub fn cont() -> RefType<'a>
        ensures { result ≡ nullable_ref AbstractHeapType.Cont }
    {
        RefType::nullable(AbstractHeapType::Cont)
    }

    /// Returns `anyref`.
    pub fn any() -> RefType<'a>
        ensures { result ≡ nullable_ref AbstractHeapType.Any }
    {
        RefType::nullable(AbstractHeapType::Any)
    }

    /// Returns `eqref`.
    pub fn eq() -> RefType<'a>
        ensures { result ≡ nullable_ref AbstractHeapType.Eq }
    {
        RefType::nullable(AbstractHeapType::Eq)
    }

    /// Returns `structref`.
    pub fn struct_() -> RefType<'a>
        ensures { result ≡ nullable_ref AbstractHeapType.Struct }
    {
        RefType::nullable(AbstractHeapType::Struct)
    }

    /// Returns `arrayref`.
    pub fn array() -> RefType<'a>
        ensures { result ≡ nullable_ref AbstractHeapType.Array }
    {
        RefType::nullable(AbstractHeapType::Array)
    }

    /// Returns `i31ref`.
    pub fn i31() -> RefType<'a>
        ensures { result ≡ nullable_ref AbstractHeapType.I31 }
    {
        RefType::nullable(AbstractHeapType::I31)
    }

    /// Returns `nullfuncref`.
    pub fn nullfuncref() -> RefType<'a>
        ensures { result ≡ nullable_ref AbstractHeapType.NoFunc }
    {
        RefType::nullable(AbstractHeapType::NoFunc)
    }

    /// Returns `nullexternref`.
    pub fn nullexternref() -> RefType<'a>
        ensures { result ≡ nullable_ref AbstractHeapType.NoExtern }
    {
        RefType::nullable(AbstractHeapType::NoExtern)
    }

    /// Returns `nullref`.
    pub fn nullref() -> RefType<'a>
        ensures { result ≡ nullable_ref AbstractHeapType.None }
    {
        RefType::nullable(AbstractHeapType::None)
    }

    /// Returns `nullexnref`.
    pub fn nullexnref() -> RefType<'a>
        ensures { result ≡ nullable_ref AbstractHeapType.NoExn }
    {
        RefType::nullable(AbstractHeapType::NoExn)
    }

    /// Returns `nullcontref`.
    pub fn nullcontref() -> RefType<'a>
        ensures { result ≡ nullable_ref AbstractHeapType.NoCont }
    {
        RefType::nullable(AbstractHeapType::NoCont)
    }

    /// Returns the type with its heap type made shared, or None if the heap type isn't abstract.
    pub fn shared(self) -> Option<RefType<'a>>
        ensures { result ≡ shared_ref self.entry }
    {
        match self.heap {
            HeapType::Abstract { ty, .. } => Some(RefType {
                nullable: self.nullable,
                heap: HeapType::Abstract { shared: true, ty },
            }),
            _ => None,
        }
    }

    /// A law of [`shared`](RefType::shared): to make a shared type shared changes nothing. The
    /// function does nothing: only its contract matters.
    pub fn shared_again()
        ensures { (t : RefType) → IfSome (shared_ref t) (λ s. shared_ref s ≡ Some s) }
    {}
}

/// Reads `( ref null? HeapType )`, a shorthand such as `funcref`, or `( shared shorthand )`
/// (WebAssembly Core Specification, Text Format, Types, "Reference Types", Abbreviations).
impl<'a> Parse<'a> for RefType<'a> {
    ghost View = { RefTypeModel };

    ghost view = { plain ref_view };

    ghost grammar = { ref_type };

    #[tactic(auto, using(crate::proofs::NoGroup::shared_ref), unfolding(crate::specs::Reference::ref_type))]
    fn parse(parser: &mut Parser<'a>) -> Result<Self> {
        if !parser.opens() {
            return Ok(RefType::nullable(Shorthand::parse(parser)?.0));
        }
        if parser.group_is("ref") {
            let LongRef { nullable, heap } = in_word_group::<LongRef>(parser, "ref")?;
            return Ok(RefType { nullable, heap });
        }
        let shorthand = in_word_group::<Shorthand>(parser, "shared")?;
        Ok(RefType {
            nullable: true,
            heap: HeapType::Abstract {
                shared: true,
                ty: shorthand.0,
            },
        })
    }
}

/// A [`RefType`] begins at a shorthand, `( ref` or `( shared`.
impl<'p> Peek for RefType<'p> {
    ghost begins = { at_ref };

    fn peek(cursor: Cursor<'_>) -> bool
        ensures { result ≡ begins_ref (in_front cursor.entry) }
    {
        shorthand_at(cursor) || long_ref_at(cursor)
    }

    fn display() -> &'static str {
        "reftype"
    }
}
