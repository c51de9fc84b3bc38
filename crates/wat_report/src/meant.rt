//! The words of fields and types, for hints.

ghost use Rattle.std.specs.Prelude.{◌≡◌};
ghost use Rattle.wat_report.specs.Meant.{keyword_text};

use wat_tokens::words::NamedByKeyword;
use wat_types::AbstractHeapType;
use wat_types::reference::Shorthand;

/// A word that begins a field, or that is a type.
#[derive(Clone, Copy, Debug, PartialEq, Eq)]
pub enum Keyword {
    TypeField,
    Rec,
    Import,
    Func,
    Table,
    Memory,
    Global,
    Export,
    Start,
    Elem,
    Data,
    Tag,
    I32,
    I64,
    F32,
    F64,
    V128,
    /// The shorthand of a reference type, by its heap type.
    Short(AbstractHeapType),
}

/// The words with which a module's fields begin.
pub static FIELD_WORDS: [Keyword; 12] = [
    Keyword::TypeField,
    Keyword::Rec,
    Keyword::Import,
    Keyword::Func,
    Keyword::Table,
    Keyword::Memory,
    Keyword::Global,
    Keyword::Export,
    Keyword::Start,
    Keyword::Elem,
    Keyword::Data,
    Keyword::Tag,
];

/// The types that are one word.
pub static TYPE_WORDS: [Keyword; 19] = [
    Keyword::I32,
    Keyword::I64,
    Keyword::F32,
    Keyword::F64,
    Keyword::V128,
    Keyword::Short(AbstractHeapType::Func),
    Keyword::Short(AbstractHeapType::Extern),
    Keyword::Short(AbstractHeapType::Exn),
    Keyword::Short(AbstractHeapType::Cont),
    Keyword::Short(AbstractHeapType::Any),
    Keyword::Short(AbstractHeapType::Eq),
    Keyword::Short(AbstractHeapType::Struct),
    Keyword::Short(AbstractHeapType::Array),
    Keyword::Short(AbstractHeapType::I31),
    Keyword::Short(AbstractHeapType::NoFunc),
    Keyword::Short(AbstractHeapType::NoExtern),
    Keyword::Short(AbstractHeapType::NoExn),
    Keyword::Short(AbstractHeapType::NoCont),
    Keyword::Short(AbstractHeapType::None),
];

impl Keyword {
    /// Returns the word.
    pub fn word(self) -> &'static str
        ensures { result.now ≡ keyword_text self }
    {
        match self {
            Keyword::TypeField => "type",
            Keyword::Rec => "rec",
            Keyword::Import => "import",
            Keyword::Func => "func",
            Keyword::Table => "table",
            Keyword::Memory => "memory",
            Keyword::Global => "global",
            Keyword::Export => "export",
            Keyword::Start => "start",
            Keyword::Elem => "elem",
            Keyword::Data => "data",
            Keyword::Tag => "tag",
            Keyword::I32 => "i32",
            Keyword::I64 => "i64",
            Keyword::F32 => "f32",
            Keyword::F64 => "f64",
            Keyword::V128 => "v128",
            Keyword::Short(heap) => Shorthand(heap).word(),
        }
    }
}
