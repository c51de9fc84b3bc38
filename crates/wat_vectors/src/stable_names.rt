//! The list of stable names: the parser, its tokens and faults, types, imports, exports, custom
//! sections and the program. `stable_code` has the rest: operands, instructions, expressions, fields
//! and modules.
//!
//! Each public item that a user relies on is used here: types, variants, fields, functions,
//! methods, traits, faults. So a change of such a name doesn't compile. Whoever renames a public item
//! on purpose changes this list. Most functions are only compiled: they are never called.

use bumpalo::Bump;
use std::alloc::Global;
use std::fmt::{Debug, Display};
use std::hash::Hash;
use std::io::{Read, Write};
use wat_core::{
    AbstractHeapType, ArrayType, ContType, Cursor, Custom, CustomPlace, CustomPlaceAnchor, Dylink0,
    Dylink0Subsection, Error, Export, ExportKind, ExportType, F32, F64, Fault, FunctionType,
    FunctionTypeNoNames, GlobalType, HeapType, Id, ImportGroup1Item, ImportGroup2Item, ImportItems,
    Imports, Index, InlineExport, InlineImport, InnerTypeKind, Integer, ItemKind, ItemSig, Limits,
    MemoryType, NameAnnotation, Parse, Parser, Peek, Producers, RawCustomSection, Rec, RefType,
    Result, Sign, Span, StorageType, StructField, StructType, TableType, TagType, Token, Type,
    TypeDef, TypeUse, ValType, kw, laws, page_size,
};
use wat_show::{Mode, RunError, Watched, run};

// Tokens.

pub fn positions<'a>(
    offset: usize,
    name: &'a str,
    number: u32,
) -> (usize, Span, &'a str, Index<'a>) {
    let span = Span::from_offset(offset);
    let id = Id::new(name, span);
    let index = match Index::Id(id) {
        Index::Num(_, at) => Index::Num(number, at),
        Index::Id(same) => Index::Id(same),
    };
    (span.offset(), id.span(), id.name(), index)
}

pub fn bits<'a>(
    F32 { bits: single }: F32,
    F64 { bits: double }: F64,
    NameAnnotation { name }: NameAnnotation<'a>,
) -> (u32, u64, &'a str) {
    (single, double, name)
}

pub fn integer(text: &str) -> Option<(Option<Sign>, Option<u64>, Option<i64>)> {
    let integer: Integer<'_> = Integer::of(text)?;
    Some((integer.sign(), integer.unsigned(8), integer.signed(64)))
}

pub fn sign(it: Sign) -> bool {
    match it {
        Sign::Plus => false,
        Sign::Minus => true,
    }
}

pub fn token<'a>(it: Token<'a>) -> Option<&'a str> {
    match it {
        Token::LParen | Token::RParen | Token::Integer(_) => None,
        Token::Keyword(text) | Token::Id(text) => Some(text),
        Token::Annotation(text) | Token::Reserved(text) => Some(text),
        Token::String(bytes) => str::from_utf8(bytes).ok(),
    }
}

pub fn words(
    kw::func(func): kw::func,
    kw::table(table): kw::table,
    kw::memory(memory): kw::memory,
    kw::global(global): kw::global,
    kw::tag(tag): kw::tag,
) -> [Span; 5] {
    [func, table, memory, global, tag]
}

pub fn default_words() -> (kw::func, kw::table, kw::memory, kw::global, kw::tag) {
    (
        kw::func::default(),
        kw::table::default(),
        kw::memory::default(),
        kw::global::default(),
        kw::tag::default(),
    )
}

// The parser.

pub fn cut<'a>(alloc: Global, text: &'a str, arena: &'a Bump) -> Result<Parser<'a>> {
    Parser::new(alloc, text, arena)
}

pub fn taken<'a>(parser: &mut Parser<'a>) -> Result<(Span, Span, &'a str)> {
    parser.open()?;
    let annotation: Span = parser.take_annotation("name")?;
    let word: Span = parser.keyword("func")?;
    let any_word: &'a str = parser.take_keyword()?;
    parser.close()?;
    Ok((annotation, word, any_word))
}

pub fn settings(parser: &mut Parser<'_>) -> bool {
    parser.track_instr_spans(true);
    parser.with_standard_annotations(true);
    parser.tick();
    parser.note_height(1);
    parser.tracks()
}

pub fn places<'p>(parser: &'p Parser<'_>) -> (bool, bool, Span, Span, Cursor<'p>) {
    (
        parser.is_empty(),
        parser.at_end(),
        parser.cur_span(),
        parser.prev_span(),
        parser.cursor(),
    )
}

pub fn next_positions<'p>(at: Cursor<'p>) -> [Option<Cursor<'p>>; 3] {
    [at.lparen(), at.rparen(), at.any()]
}

pub fn next_words<'p>(at: Cursor<'p>) -> [Option<(&'p str, Cursor<'p>)>; 3] {
    [at.keyword(), at.id(), at.annotation()]
}

pub fn next_values<'p>(
    at: Cursor<'p>,
) -> (
    Option<(Integer<'p>, Cursor<'p>)>,
    Option<(&'p [u8], Cursor<'p>)>,
) {
    (at.integer(), at.string())
}

pub fn parsed<'a, T: Parse<'a>>(parser: &mut Parser<'a>) -> Result<T> {
    T::parse(parser)
}

pub fn parsed_by_parser<'a, T: Parse<'a>>(parser: &mut Parser<'a>) -> Result<T> {
    parser.parse::<T>()
}

pub fn peeked<T: Peek>(parser: &Parser<'_>) -> ([bool; 4], &'static str) {
    let at = parser.cursor();
    let answers = [
        T::peek(at),
        T::peek2(at),
        parser.peek::<T>(),
        parser.peek2::<T>(),
    ];
    (answers, T::display())
}

// Faults.

const FAULTS: [(Fault, u8, &str); 21] = [
    (Fault::Memory, 1, "Memory"),
    (Fault::LexChar, 2, "LexChar"),
    (Fault::LexString, 3, "LexString"),
    (Fault::LexComment, 4, "LexComment"),
    (Fault::LexAnnotation, 5, "LexAnnotation"),
    (Fault::Unexpected, 6, "Unexpected"),
    (Fault::Range, 7, "Range"),
    (Fault::Utf8, 8, "Utf8"),
    (Fault::FloatLiteral, 9, "FloatLiteral"),
    (Fault::Alignment, 10, "Alignment"),
    (Fault::PageSize, 11, "PageSize"),
    (Fault::Operator, 12, "Operator"),
    (Fault::ParamAfterResult, 13, "ParamAfterResult"),
    (Fault::IfWithoutThen, 14, "IfWithoutThen"),
    (Fault::IfTooMany, 15, "IfTooMany"),
    (Fault::HintValue, 16, "HintValue"),
    (Fault::HintTwice, 17, "HintTwice"),
    (Fault::HintPlace, 18, "HintPlace"),
    (Fault::ImportMixed, 19, "ImportMixed"),
    (Fault::ImportId, 20, "ImportId"),
    (Fault::HintTarget, 21, "HintTarget"),
];

#[test]
fn faults_have_numbers_and_names(rt: HostRuntime) {
    for (fault, number, name) in FAULTS {
        assert_eq!(rt; (fault.number(), fault.name()), (number, name));
    }
}

pub fn error(Error { fault, span }: Error) -> (Fault, Span) {
    (fault, span)
}

pub fn is_shown<T: Debug + Display + std::error::Error>() {}

pub fn errors_are_shown() {
    is_shown::<Error>()
}

// Types.

pub fn val_type<'a>(it: ValType<'a>) -> Option<RefType<'a>> {
    match it {
        ValType::I32 | ValType::I64 | ValType::F32 | ValType::F64 | ValType::V128 => None,
        ValType::Ref(ty) => Some(ty),
    }
}

pub fn heap_type<'a>(it: HeapType<'a>) -> (Option<(bool, AbstractHeapType)>, Option<Index<'a>>) {
    match it {
        HeapType::Abstract { shared, ty } => (Some((shared, ty)), None),
        HeapType::Concrete(index) | HeapType::Exact(index) => (None, Some(index)),
    }
}

pub fn abstract_heap_type(it: AbstractHeapType) -> bool {
    match it {
        AbstractHeapType::Func | AbstractHeapType::Extern | AbstractHeapType::Exn => true,
        AbstractHeapType::Cont | AbstractHeapType::Any | AbstractHeapType::Eq => true,
        AbstractHeapType::Struct | AbstractHeapType::Array | AbstractHeapType::I31 => true,
        AbstractHeapType::NoFunc | AbstractHeapType::NoExtern | AbstractHeapType::None => false,
        AbstractHeapType::NoExn | AbstractHeapType::NoCont => false,
    }
}

pub fn ref_type<'a>(it: RefType<'a>) -> (bool, HeapType<'a>, Option<RefType<'a>>) {
    let RefType { nullable, heap } = it;
    (nullable, heap, it.shared())
}

pub fn shorthands<'a>() -> [RefType<'a>; 14] {
    [
        RefType::func(),
        RefType::extern_(),
        RefType::exn(),
        RefType::cont(),
        RefType::any(),
        RefType::eq(),
        RefType::struct_(),
        RefType::array(),
        RefType::i31(),
        RefType::nullfuncref(),
        RefType::nullexternref(),
        RefType::nullref(),
        RefType::nullexnref(),
        RefType::nullcontref(),
    ]
}

pub fn storage_type<'a>(it: StorageType<'a>) -> Option<ValType<'a>> {
    match it {
        StorageType::I8 | StorageType::I16 => None,
        StorageType::Val(ty) => Some(ty),
    }
}

pub fn global_type<'a>(
    GlobalType {
        ty,
        mutable,
        shared,
    }: GlobalType<'a>,
) -> (ValType<'a>, bool, bool) {
    (ty, mutable, shared)
}

pub fn limits(Limits { is64, min, max }: Limits) -> (bool, u64, Option<u64>) {
    (is64, min, max)
}

pub fn table_type<'a>(
    TableType {
        limits,
        elem,
        shared,
    }: TableType<'a>,
) -> (Limits, RefType<'a>, bool) {
    (limits, elem, shared)
}

pub fn memory_type(
    MemoryType {
        limits,
        shared,
        page_size_log2,
    }: MemoryType,
) -> (Limits, bool, Option<u32>) {
    (limits, shared, page_size_log2)
}

pub fn page_size_of(parser: &mut Parser<'_>) -> Result<Option<u32>> {
    page_size(parser)
}

pub fn function_type<'v, 'a>(
    FunctionType { params, results }: &'v FunctionType<'a>,
) -> (
    &'v [(Option<Id<'a>>, Option<NameAnnotation<'a>>, ValType<'a>)],
    &'v [ValType<'a>],
) {
    (params.as_slice(), results.as_slice())
}

pub fn unnamed<'v, 'a>(it: &'v FunctionTypeNoNames<'a>) -> &'v FunctionType<'a> {
    &it.0
}

pub fn empty_types<'a>(alloc: Global) -> (FunctionType<'a>, FunctionTypeNoNames<'a>) {
    (
        FunctionType::empty(alloc),
        FunctionTypeNoNames::empty(alloc),
    )
}

pub fn named<'a>(it: FunctionTypeNoNames<'a>) -> FunctionType<'a> {
    FunctionType::from(it)
}

pub fn struct_type<'v, 'a>(StructType { fields }: &'v StructType<'a>) -> &'v [StructField<'a>] {
    fields.as_slice()
}

pub fn struct_field<'a>(it: &StructField<'a>) -> (Option<Id<'a>>, bool, StorageType<'a>) {
    let StructField {
        id,
        name: _,
        mutable,
        ty,
    } = it;
    (*id, *mutable, *ty)
}

pub fn array_type<'a>(ArrayType { mutable, ty }: &ArrayType<'a>) -> (bool, StorageType<'a>) {
    (*mutable, *ty)
}

pub fn cont_type<'a>(it: &ContType<'a>) -> Index<'a> {
    it.0
}

pub fn inner_type_kind(it: &InnerTypeKind<'_>) {
    match it {
        InnerTypeKind::Func(ty) => of::<FunctionType>(ty),
        InnerTypeKind::Struct(ty) => of::<StructType>(ty),
        InnerTypeKind::Array(ty) => of::<ArrayType>(ty),
        InnerTypeKind::Cont(ty) => of::<ContType>(ty),
    }
}

pub fn type_def(it: &TypeDef<'_>) {
    let TypeDef {
        kind,
        shared,
        parents,
        descriptor,
        describes,
        final_type,
    } = it;
    of::<InnerTypeKind>(kind);
    of::<bool>(shared);
    of::<Vec<Index>>(parents);
    of::<Option<Index>>(descriptor);
    of::<Option<Index>>(describes);
    of::<Option<bool>>(final_type);
}

pub fn type_(
    Type {
        span,
        id,
        name,
        def,
    }: &Type<'_>,
) {
    of::<Span>(span);
    of::<Option<Id>>(id);
    of::<Option<NameAnnotation>>(name);
    of::<TypeDef>(def);
}

pub fn rec(Rec { span, types }: &Rec<'_>) {
    of::<Span>(span);
    of::<Vec<Type>>(types);
}

pub fn tag_type<'v, 'a>(it: &'v TagType<'a>) -> &'v TypeUse<'a, FunctionType<'a>> {
    match it {
        TagType::Exception(ty) => ty,
    }
}

pub fn type_use<'a, T>(index: Index<'a>) -> (Option<Index<'a>>, Option<T>) {
    let TypeUse { index, inline } = TypeUse::<T>::new_with_index(index);
    (index, inline)
}

pub fn named_use<'a>(it: TypeUse<'a, FunctionTypeNoNames<'a>>) -> TypeUse<'a, FunctionType<'a>> {
    TypeUse::from(it)
}

/// The type of a part is `T`.
pub fn of<T>(_: &T) {}

pub fn copies_of_types<'a>(
    function: &FunctionType<'a>,
    unnamed: &FunctionTypeNoNames<'a>,
    structure: &StructType<'a>,
    tag: &TagType<'a>,
    named_use: &TypeUse<'a, FunctionType<'a>>,
    unnamed_use: &TypeUse<'a, FunctionTypeNoNames<'a>>,
) -> (
    Result<FunctionType<'a>>,
    Result<FunctionTypeNoNames<'a>>,
    Result<StructType<'a>>,
    Result<TagType<'a>>,
    Result<TypeUse<'a, FunctionType<'a>>>,
    Result<TypeUse<'a, FunctionTypeNoNames<'a>>>,
) {
    (
        function.clone(),
        unnamed.clone(),
        structure.clone(),
        tag.clone(),
        named_use.clone(),
        unnamed_use.clone(),
    )
}

// Imports and exports.

pub fn imports<'v, 'a>(Imports { span, items }: &'v Imports<'a>) -> (Span, &'v ImportItems<'a>) {
    (*span, items)
}

pub fn import_items(it: &ImportItems<'_>) {
    match it {
        ImportItems::Single { module, name, sig } => {
            of::<&str>(module);
            of::<&str>(name);
            of::<ItemSig>(sig);
        }
        ImportItems::Group1 { module, items } => {
            of::<&str>(module);
            of::<Vec<ImportGroup1Item>>(items);
        }
        ImportItems::Group2 { module, sig, items } => {
            of::<&str>(module);
            of::<ItemSig>(sig);
            of::<Vec<ImportGroup2Item>>(items);
        }
    }
}

pub fn import_group1_item(ImportGroup1Item { span, name, sig }: &ImportGroup1Item<'_>) {
    of::<Span>(span);
    of::<&str>(name);
    of::<ItemSig>(sig);
}

pub fn import_group2_item(ImportGroup2Item { span, name }: &ImportGroup2Item<'_>) {
    of::<Span>(span);
    of::<&str>(name);
}

pub fn item_sig(
    ItemSig {
        span,
        id,
        name,
        kind,
    }: &ItemSig<'_>,
) {
    of::<Span>(span);
    of::<Option<Id>>(id);
    of::<Option<NameAnnotation>>(name);
    of::<ItemKind>(kind);
}

pub fn item_kind(it: &ItemKind<'_>) {
    match it {
        ItemKind::Func(ty) | ItemKind::FuncExact(ty) => of::<TypeUse<FunctionType>>(ty),
        ItemKind::Table(ty) => of::<TableType>(ty),
        ItemKind::Memory(ty) => of::<MemoryType>(ty),
        ItemKind::Global(ty) => of::<GlobalType>(ty),
        ItemKind::Tag(ty) => of::<TagType>(ty),
    }
}

pub fn single_import<'a>(
    span: Span,
    module: &'a str,
    name: &'a str,
    sig: ItemSig<'a>,
) -> Imports<'a> {
    Imports::single(span, module, name, sig)
}

pub fn import_counts(it: &Imports<'_>) -> [usize; 2] {
    [it.num_items(), it.num_sigs()]
}

pub fn import_sigs<'v, 'a>(it: &'v Imports<'a>, alloc: Global) -> Result<Vec<&'v ItemSig<'a>>> {
    it.item_sigs(alloc)
}

pub fn import_sig<'v, 'a>(it: &'v mut Imports<'a>, i: usize) -> Option<&'v mut ItemSig<'a>> {
    it.sig_mut(i)
}

pub fn inline_import<'a>(InlineImport { module, field }: InlineImport<'a>) -> (&'a str, &'a str) {
    (module, field)
}

pub fn export(
    Export {
        span,
        name,
        kind,
        item,
    }: &Export<'_>,
) {
    of::<Span>(span);
    of::<&str>(name);
    of::<ExportKind>(kind);
    of::<Index>(item);
}

pub fn export_kind(it: ExportKind) -> ExportKind {
    match it {
        ExportKind::Func => ExportKind::from(kw::func::default()),
        ExportKind::Table => ExportKind::from(kw::table::default()),
        ExportKind::Memory => ExportKind::from(kw::memory::default()),
        ExportKind::Global => ExportKind::from(kw::global::default()),
        ExportKind::Tag => ExportKind::from(kw::tag::default()),
    }
}

pub fn export_type(ExportType { span, name, item }: &ExportType<'_>) {
    of::<Span>(span);
    of::<&str>(name);
    of::<ItemSig>(item);
}

pub fn inline_export<'v, 'a>(InlineExport { names }: &'v InlineExport<'a>) -> &'v [&'a str] {
    names.as_slice()
}

pub fn no_inline_export<'a>(alloc: Global) -> InlineExport<'a> {
    InlineExport::empty(alloc)
}

pub fn copies_of_imports<'a>(
    imports: &Imports<'a>,
    items: &ImportItems<'a>,
    item: &ImportGroup1Item<'a>,
    sig: &ItemSig<'a>,
    kind: &ItemKind<'a>,
    export: &ExportType<'a>,
) -> (
    Result<Imports<'a>>,
    Result<ImportItems<'a>>,
    Result<ImportGroup1Item<'a>>,
    Result<ItemSig<'a>>,
    Result<ItemKind<'a>>,
    Result<ExportType<'a>>,
) {
    (
        imports.clone(),
        items.clone(),
        item.clone(),
        sig.clone(),
        kind.clone(),
        export.clone(),
    )
}

// Custom sections.

pub fn custom<'a>(it: &Custom<'a>) -> (CustomPlace, &'a str) {
    match it {
        Custom::Raw(section) => of::<RawCustomSection>(section),
        Custom::Producers(section) => of::<Producers>(section),
        Custom::Dylink0(section) => of::<Dylink0>(section),
    }
    (it.place(), it.name())
}

pub fn raw_section(
    RawCustomSection {
        span,
        name,
        place,
        data,
    }: &RawCustomSection<'_>,
) {
    of::<Span>(span);
    of::<&str>(name);
    of::<CustomPlace>(place);
    of::<Vec<&[u8]>>(data);
}

pub fn custom_place(it: CustomPlace) -> Option<CustomPlaceAnchor> {
    match it {
        CustomPlace::BeforeFirst | CustomPlace::AfterLast => None,
        CustomPlace::Before(anchor) | CustomPlace::After(anchor) => Some(anchor),
    }
}

pub fn custom_place_anchor(it: CustomPlaceAnchor) -> bool {
    match it {
        CustomPlaceAnchor::Type | CustomPlaceAnchor::Import | CustomPlaceAnchor::Func => true,
        CustomPlaceAnchor::Table | CustomPlaceAnchor::Memory | CustomPlaceAnchor::Global => true,
        CustomPlaceAnchor::Export | CustomPlaceAnchor::Start | CustomPlaceAnchor::Elem => true,
        CustomPlaceAnchor::Code | CustomPlaceAnchor::Data | CustomPlaceAnchor::Tag => false,
    }
}

pub fn producers(Producers { fields }: &Producers<'_>) {
    of::<Vec<(&str, Vec<(&str, &str)>)>>(fields);
}

pub fn dylink(Dylink0 { subsections }: &Dylink0<'_>) {
    of::<Vec<Dylink0Subsection>>(subsections);
}

pub fn dylink_subsection(it: &Dylink0Subsection<'_>) -> u8 {
    match it {
        Dylink0Subsection::MemInfo {
            memory_size,
            memory_align,
            table_size,
            table_align,
        } => {
            of::<[&u32; 4]>(&[memory_size, memory_align, table_size, table_align]);
        }
        Dylink0Subsection::Needed(names) | Dylink0Subsection::RuntimePath(names) => {
            of::<Vec<&str>>(names);
        }
        Dylink0Subsection::ExportInfo(exports) => of::<Vec<(&str, u32)>>(exports),
        Dylink0Subsection::ImportInfo(imports) => of::<Vec<(&str, &str, u32)>>(imports),
        Dylink0Subsection::TargetArch(name) => of::<&str>(name),
    }
    it.id()
}

// The program.

pub fn mode(it: Mode) -> bool {
    match it {
        Mode::FuncType | Mode::Expr | Mode::Folded => false,
        Mode::Module => true,
    }
}

pub fn run_error(it: RunError) -> bool {
    match it {
        RunError::Read | RunError::Write => false,
        RunError::Memory => true,
    }
}

pub fn watched_run<R: Read + Drop, W: Write>(
    alloc: Global,
    input: R,
    output: W,
) -> (std::result::Result<u8, RunError>, bool, W) {
    let mut reader = Watched::new(input);
    let mut writer = Watched::new(output);
    let outcome = run(alloc, Mode::Module, &mut reader, &mut writer);
    (outcome, writer.failed(), writer.into_inner())
}

// Traits.

pub fn are_parsed<'a, A: Parse<'a>, B: Parse<'a>, C: Parse<'a>, D: Parse<'a>>() {}

pub fn are_peeked<A: Peek, B: Peek, C: Peek, D: Peek>() {}

pub fn is_key<T: Copy + Debug + PartialEq + Eq + Hash>() {}

pub fn are_cloned<A: Clone + Debug, B: Clone + Debug, C: Clone + Debug, D: Clone + Debug>() {}

fn is_copied<T: Copy + Debug>() {}

fn is_compared<T: Copy + Debug + PartialEq>() {}

pub fn keys() {
    is_key::<Span>();
    is_key::<Id>();
    is_key::<Index>();
    is_key::<ValType>();
    is_key::<HeapType>();
    is_key::<AbstractHeapType>();
    is_key::<RefType>();
    is_key::<StorageType>();
    is_key::<GlobalType>();
    is_key::<Limits>();
    is_key::<TableType>();
    is_key::<MemoryType>();
    is_key::<ExportKind>();
}

pub fn copied_types() {
    is_copied::<F32>();
    is_copied::<F64>();
    is_copied::<NameAnnotation>();
    is_copied::<InlineImport>();
    is_compared::<CustomPlace>();
    is_compared::<CustomPlaceAnchor>();
    are_cloned::<StructField, ArrayType, ContType, ImportGroup2Item>();
}

pub fn parsed_tokens() {
    are_parsed::<u8, u16, u32, u64>();
    are_parsed::<i8, i16, i32, i64>();
    are_parsed::<&str, &[u8], Integer, F32>();
    are_parsed::<F64, Id, Index, NameAnnotation>();
    are_parsed::<kw::func, kw::table, kw::memory, kw::global>();
    are_parsed::<kw::tag, Option<u8>, Box<u8>, Box<u8>>();
}

pub fn parsed_types_and_links() {
    are_parsed::<ValType, HeapType, AbstractHeapType, RefType>();
    are_parsed::<StorageType, GlobalType, Limits, TableType>();
    are_parsed::<MemoryType, FunctionType, FunctionTypeNoNames, StructType>();
    are_parsed::<ArrayType, ContType, InnerTypeKind, TypeDef>();
    are_parsed::<Type, Rec, TagType, TypeUse<FunctionType>>();
    are_parsed::<TypeUse<FunctionTypeNoNames>, Imports, ItemSig, InlineImport>();
    are_parsed::<Export, ExportKind, InlineExport, ExportType>();
    are_parsed::<Custom, RawCustomSection, CustomPlace, CustomPlaceAnchor>();
    are_parsed::<Producers, Producers, Dylink0, Dylink0>();
}

pub fn peeked_types() {
    are_peeked::<u8, u16, u32, u64>();
    are_peeked::<i8, i16, i32, i64>();
    are_peeked::<&str, &[u8], Id, Index>();
    are_peeked::<NameAnnotation, kw::func, kw::table, kw::memory>();
    are_peeked::<kw::global, kw::tag, AbstractHeapType, HeapType>();
    are_peeked::<RefType, ValType, FunctionType, FunctionTypeNoNames>();
    are_peeked::<Type, ExportKind, InlineExport, InlineImport>();
}

pub fn stated_laws() {
    laws::one_reading::<Limits>();
    laws::flat_again();
    laws::one_mnemonic();
    laws::no_prefix();
}
