//! Heap types.

ghost use Rattle.std.specs.Prelude.{◌≡◌};
ghost use Rattle.wat_tokens.specs.Prelude.{in_front, plain};
ghost use Rattle.wat_types.specs.Heap.{abstract_word, abstract_words, abstract_heap_type, heap_type, HeapTypeModel, heap_view, begins_heap, at_abstract, at_heap};
ghost use Rattle.wat_types.specs.Laws.Named.{abstract_is_named};

use wat_tokens::enclosed::in_word_group;
use wat_tokens::words::{NamedByKeyword, begins_named, take_named};
use wat_tokens::{Cursor, Index, Parse, Parser, Peek, Result};

/// An abstract heap type (WebAssembly Core Specification, Text Format, Types, "Heap Types"). Each
/// variant is named after its keyword.
#[derive(Clone, Copy, Debug, PartialEq, Eq, Hash)]
pub enum AbstractHeapType {
    /// Any function.
    Func,
    /// Any host value.
    Extern,
    /// Any exception.
    Exn,
    /// Any continuation.
    Cont,
    /// Any internal value.
    Any,
    /// Any value that `ref.eq` can compare.
    Eq,
    /// Any structure.
    Struct,
    /// Any array.
    Array,
    /// Any 31-bit integer.
    I31,
    /// No function.
    NoFunc,
    /// No host value.
    NoExtern,
    /// No internal value.
    None,
    /// No exception.
    NoExn,
    /// No continuation.
    NoCont,
}

/// A heap type (WebAssembly Core Specification, Text Format, Types, "Heap Types").
#[derive(Clone, Copy, Debug, PartialEq, Eq, Hash)]
pub enum HeapType<'a> {
    /// An abstract heap type: `func`, or `(shared func)`.
    Abstract {
        /// Whether the text has `shared`.
        shared: bool,
        /// The abstract heap type.
        ty: AbstractHeapType,
    },
    /// A defined type and its subtypes, by index: `$t`.
    Concrete(Index<'a>),
    /// A defined type without its subtypes, by index: `(exact $t)`.
    Exact(Index<'a>),
}

/// The abstract heap types by keyword.
impl NamedByKeyword for AbstractHeapType {
    ghost words = { abstract_words };

    ghost keyword = { abstract_word };

    ghost is_named = { abstract_is_named };

    fn named(word: &str) -> Option<Self> {
        match word {
            "func" => Some(AbstractHeapType::Func),
            "extern" => Some(AbstractHeapType::Extern),
            "exn" => Some(AbstractHeapType::Exn),
            "cont" => Some(AbstractHeapType::Cont),
            "any" => Some(AbstractHeapType::Any),
            "eq" => Some(AbstractHeapType::Eq),
            "struct" => Some(AbstractHeapType::Struct),
            "array" => Some(AbstractHeapType::Array),
            "i31" => Some(AbstractHeapType::I31),
            "nofunc" => Some(AbstractHeapType::NoFunc),
            "noextern" => Some(AbstractHeapType::NoExtern),
            "noexn" => Some(AbstractHeapType::NoExn),
            "nocont" => Some(AbstractHeapType::NoCont),
            "none" => Some(AbstractHeapType::None),
            _ => None,
        }
    }

    fn word(self) -> &'static str {
        match self {
            AbstractHeapType::Func => "func",
            AbstractHeapType::Extern => "extern",
            AbstractHeapType::Exn => "exn",
            AbstractHeapType::Cont => "cont",
            AbstractHeapType::Any => "any",
            AbstractHeapType::Eq => "eq",
            AbstractHeapType::Struct => "struct",
            AbstractHeapType::Array => "array",
            AbstractHeapType::I31 => "i31",
            AbstractHeapType::NoFunc => "nofunc",
            AbstractHeapType::NoExtern => "noextern",
            AbstractHeapType::NoExn => "noexn",
            AbstractHeapType::NoCont => "nocont",
            AbstractHeapType::None => "none",
        }
    }
}

/// Reads the keyword of an abstract heap type. Returns Unexpected, at the next token, if the token
/// is any other.
impl<'a> Parse<'a> for AbstractHeapType {
    ghost use Rattle.wat_types.specs.declared.heap.AbstractHeapType.{AbstractHeapType};
    ghost use Rattle.wat_types.specs.Heap.{abstract_heap_type};

    ghost View = { AbstractHeapType };

    ghost view = { plain (λ t. t) };

    ghost grammar = { abstract_heap_type };

    #[tactic(auto, unfolding(crate::specs::Heap::abstract_heap_type))]
    fn parse(parser: &mut Parser<'a>) -> Result<Self> {
        take_named(parser)
    }
}

/// An [`AbstractHeapType`] begins at one of its keywords.
impl Peek for AbstractHeapType {
    ghost begins = { at_abstract };

    #[tactic(auto, unfolding(crate::specs::Heap::at_abstract))]
    fn peek(cursor: Cursor<'_>) -> bool {
        begins_named::<Self>(cursor)
    }

    fn display() -> &'static str {
        "absheaptype"
    }
}

/// Reads an index, `( exact idx )`, an [`AbstractHeapType`], or `( shared AbstractHeapType )`.
impl<'a> Parse<'a> for HeapType<'a> {
    ghost View = { HeapTypeModel };

    ghost view = { plain heap_view };

    ghost grammar = { heap_type };

    #[tactic(auto, using(crate::proofs::NoGroup::shared_heap), unfolding(crate::specs::Heap::heap_type))]
    fn parse(parser: &mut Parser<'a>) -> Result<Self> {
        if parser.peek::<Index>() {
            return Index::parse(parser).map(HeapType::Concrete);
        }
        if !parser.opens() {
            return Ok(HeapType::Abstract {
                shared: false,
                ty: AbstractHeapType::parse(parser)?,
            });
        }
        if parser.group_is("exact") {
            return Ok(HeapType::Exact(in_word_group::<Index>(parser, "exact")?));
        }
        Ok(HeapType::Abstract {
            shared: true,
            ty: in_word_group::<AbstractHeapType>(parser, "shared")?,
        })
    }
}

/// True at an [`AbstractHeapType`], at `( shared` and at `( type`. False at an index and at
/// `( exact`, though these begin a [`HeapType`] too.
impl<'p> Peek for HeapType<'p> {
    ghost begins = { at_heap };

    fn peek(cursor: Cursor<'_>) -> bool
        ensures { result ≡ begins_heap (in_front cursor.entry) }
    {
        AbstractHeapType::peek(cursor) || cursor.group_is("shared") || cursor.group_is("type")
    }

    fn display() -> &'static str {
        "heaptype"
    }
}
