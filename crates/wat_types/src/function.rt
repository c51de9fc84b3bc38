//! Function types.

ghost use Rattle.std.specs.Prelude.{◌≡◌, [], codes};
ghost use Rattle.wat_tokens.specs.Prelude.{Copies, group, in_front, after_front, add_read, tokens_alone, made, Call, Reads, more, plain, owning, no_items};
ghost use Rattle.wat_types.specs.Function.{param_view, params_view, function_view, unnamed_view, heapless_function, function_groups, function_type};
ghost use Rattle.wat_types.specs.FunctionNoNames.{function_type_no_names};
ghost use Rattle.wat_types.specs.Group.{FunctionTypeModel, ParamModel, params, plain_param_only, func_group, group_follows, begins_func, begins_group_word, val_types, at_func};
ghost use Rattle.wat_types.specs.Order.{add};
ghost use Rattle.wat_types.specs.Group.{param as in_param, result as in_result};

use crate::label::take_label;
use crate::value::ValType;
use std::alloc::Global;
use wat_tokens::repeat::{Part, parts, rest_of_group};
use wat_tokens::{Cursor, Error, Fault, Id, NameAnnotation, Parse, Parser, Peek, Result};

/// A function type (WebAssembly Core Specification, Text Format, Types, "Composite Types").
#[derive(Debug, Drop)]
pub struct FunctionType<'a> {
    /// The parameters, in order: identifier, name from a name annotation, and type.
    pub params: Vec<(Option<Id<'a>>, Option<NameAnnotation<'a>>, ValType<'a>)>,
    /// The result types, in order.
    pub results: Vec<ValType<'a>>,
}

/// A function type whose parameters have no identifier and no name annotation.
#[derive(Debug, Drop)]
pub struct FunctionTypeNoNames<'a>(pub FunctionType<'a>);

/// A parameter without a label.
struct PlainParam;

impl<'a> Part<'a, (Option<Id<'a>>, Option<NameAnnotation<'a>>, ValType<'a>)> for PlainParam {
    ghost View = { ParamModel };

    ghost view = { plain param_view };

    ghost grammar = { plain_param_only };

    ghost follows = { more };

    fn follows(parser: &Parser<'a>) -> bool {
        !parser.is_empty()
    }

    fn take(
        parser: &mut Parser<'a>,
    ) -> Result<(Option<Id<'a>>, Option<NameAnnotation<'a>>, ValType<'a>)> {
        Ok((None, None, ValType::parse(parser)?))
    }
}

/// Appends the parameters of a group to `out`. A parameter may have a label only if `labels` is
/// true.
#[tactic(auto, using(crate::specs::Laws::Value::val_type_consumes), unfolding(crate::specs::Group::params, crate::specs::Group::plain_params))]
fn read_params<'a>(
    parser: &mut Parser<'a>,
    labels: bool,
    out: &mut Vec<(Option<Id<'a>>, Option<NameAnnotation<'a>>, ValType<'a>)>,
) -> Result<()>
    ensures reads { Call tokens_alone (owning (λ _. params_view out.new.items) no_items)
        (after_front (params_view out.old.items) ((params labels).reads parser.old.left)) result
        parser.old parser.new }
{
    if labels && (parser.peek::<Id>() || parser.peek::<NameAnnotation>()) {
        let (id, name) = take_label(parser)?;
        let ty = ValType::parse(parser)?;
        out.push((id, name, ty))?;
        return Ok(());
    }
    parts::<_, PlainParam>(parser, out)
}

/// Appends a param group to `out`.
fn read_param_group<'a>(
    parser: &mut Parser<'a>,
    labels: bool,
    out: &mut FunctionType<'a>,
) -> Result<()>
    ensures reads { Call tokens_alone (owning (λ _. function_view out.new) heapless_function)
        (add_read add (function_view out.old) ((made in_param (group (codes "param")
        (params labels))).reads parser.old.left)) result parser.old parser.new }
{
    parser.open()?;
    if !out.results.is_empty() {
        return Err(Error::at(Fault::ParamAfterResult, parser.cur_span()));
    }
    parser.keyword("param")?;
    read_params(parser, labels, &mut out.params)?;
    parser.close()?;
    Ok(())
}

/// Appends a result group to `out`.
#[tactic(auto, using(crate::specs::Laws::Value::val_type_consumes), unfolding(crate::specs::Group::val_types))]
fn read_result_group<'a>(parser: &mut Parser<'a>, out: &mut FunctionType<'a>) -> Result<()>
    ensures reads { Call tokens_alone (owning (λ _. function_view out.new) heapless_function)
        (add_read add (function_view out.old) ((made in_result
        (group (codes "result") val_types)).reads parser.old.left)) result parser.old parser.new }
{
    parser.open()?;
    parser.keyword("result")?;
    // (memory given back before the next list is allocated leaves no hole before that list)
    out.params.shrink_to_fit();
    rest_of_group::<ValType>(parser, &mut out.results)?;
    parser.close()?;
    Ok(())
}

/// Appends one group to `out`.
#[tactic(auto, unfolding(crate::specs::Group::func_group))]
fn read_group<'a>(parser: &mut Parser<'a>, labels: bool, out: &mut FunctionType<'a>) -> Result<()>
    ensures reads { Call tokens_alone (owning (λ _. function_view out.new) heapless_function)
        (add_read add (function_view out.old) ((func_group labels).reads parser.old.left)) result
        parser.old parser.new }
{
    if parser.group_is("param") {
        read_param_group(parser, labels, out)
    } else {
        read_result_group(parser, out)
    }
}

/// Returns whether the next token is the keyword `param` or `result`.
fn group_word_at(cursor: Cursor<'_>) -> bool
    ensures { result ≡ begins_group_word (in_front cursor.entry) }
{
    match cursor.keyword() {
        Some((word, _)) => word == "param" || word == "result",
        None => false,
    }
}

/// Returns whether the second token is `param` or `result`, for any first token.
fn group_next(parser: &Parser<'_>) -> bool
    ensures { result ≡ group_follows parser.now.left }
{
    match parser.cursor().any() {
        Some(rest) => group_word_at(rest),
        None => false,
    }
}

/// Reads groups as long as one more has to follow.
fn read_groups<'a>(parser: &mut Parser<'a>, labels: bool) -> Result<FunctionType<'a>>
    ensures reads { Reads (owning function_view heapless_function) (function_groups labels) result
        parser.old parser.new }
{
    let mut found = FunctionType::empty(parser.alloc());
    'groups: while group_next(parser) {
        read_group(parser, labels, &mut found)?;
    }
    found.params.shrink_to_fit();
    found.results.shrink_to_fit();
    Ok(found)
}

impl<'a> FunctionType<'a> {
    /// Returns the function type without parameters and results.
    pub fn empty(alloc: Global) -> FunctionType<'a>
        ensures params { result.params.items ≡ [] }
        ensures results { result.results.items ≡ [] }
    {
        FunctionType {
            params: Vec::new(alloc),
            results: Vec::new(alloc),
        }
    }

    /// Returns a copy of the function type. Returns the error Memory only if the type has a
    /// parameter or a result.
    pub fn clone(&self) -> Result<FunctionType<'a>>
        ensures copies { Copies (λ x y. (y.params.items ≡ x.params.items) ×
            (y.results.items ≡ x.results.items)) (owning function_view heapless_function) result
            self.now }
    {
        let mut copy = FunctionType::empty(*self.params.allocator());
        copy.params.extend_from_slice(&self.params)?;
        copy.results.extend_from_slice(&self.results)?;
        Ok(copy)
    }
}

/// Reads groups as long as the second token is `param` or `result`: `( param id? name? ValType )`
/// with an identifier or a name annotation, `( param ValType* )` and `( result ValType* )`.
///
/// Returns ParamAfterResult, at the keyword `param`, for a param group after a result group with a
/// type. Returns Unexpected, at the first token, if the second token is `param` or `result` and the
/// first isn't `(`.
impl<'a> Parse<'a> for FunctionType<'a> {
    ghost View = { FunctionTypeModel };

    ghost view = { owning function_view heapless_function };

    ghost grammar = { function_type };

    fn parse(parser: &mut Parser<'a>) -> Result<Self> {
        read_groups(parser, true)
    }
}

/// A [`FunctionType`] begins at `( param` or `( result`. An empty function type takes no token.
impl<'p> Peek for FunctionType<'p> {
    ghost begins = { at_func };

    fn peek(cursor: Cursor<'_>) -> bool
        ensures { result ≡ begins_func (in_front cursor.entry) }
    {
        match cursor.lparen() {
            Some(inside) => group_word_at(inside),
            None => false,
        }
    }

    fn display() -> &'static str {
        "function type"
    }
}

impl<'a> FunctionTypeNoNames<'a> {
    /// Returns the function type without parameters and results.
    pub fn empty(alloc: Global) -> FunctionTypeNoNames<'a>
        ensures params { result.0.params.items ≡ [] }
        ensures results { result.0.results.items ≡ [] }
    {
        FunctionTypeNoNames(FunctionType::empty(alloc))
    }

    /// Returns a copy of the function type. Returns the error Memory only if the type has a
    /// parameter or a result.
    pub fn clone(&self) -> Result<FunctionTypeNoNames<'a>>
        ensures copies { Copies (λ x y. (y.0.params.items ≡ x.0.params.items) ×
            (y.0.results.items ≡ x.0.results.items)) (owning unnamed_view heapless_function) result
            self.now }
    {
        Ok(FunctionTypeNoNames(self.0.clone()?))
    }
}

/// Reads the same as a [`FunctionType`], without labels. Returns Unexpected at an identifier or a
/// name annotation.
impl<'a> Parse<'a> for FunctionTypeNoNames<'a> {
    ghost View = { FunctionTypeModel };

    ghost view = { owning unnamed_view heapless_function };

    ghost grammar = { function_type_no_names };

    fn parse(parser: &mut Parser<'a>) -> Result<Self> {
        read_groups(parser, false).map(FunctionTypeNoNames)
    }
}

/// A [`FunctionTypeNoNames`] begins at `( param` or `( result`, as a [`FunctionType`] does.
impl<'p> Peek for FunctionTypeNoNames<'p> {
    ghost begins = { at_func };

    fn peek(cursor: Cursor<'_>) -> bool
        ensures { result ≡ begins_func (in_front cursor.entry) }
    {
        FunctionType::peek(cursor)
    }

    fn display() -> &'static str {
        FunctionType::display()
    }
}

/// The function type inside, unchanged.
impl<'a> From<FunctionTypeNoNames<'a>> for FunctionType<'a> {
    ghost from_gives = { λ t f. f ≡ t.0 };

    fn from(value: FunctionTypeNoNames<'a>) -> FunctionType<'a> {
        value.0
    }
}
