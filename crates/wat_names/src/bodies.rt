//! The expressions of a module: the faults of their blocks and labels, and the names that they use.

ghost use Rattle.std.specs.Prelude.{◌≡◌, ◌++◌, OnOk, map};
ghost use Rattle.wat_core.specs.Prelude.{data_kind_view, elem_kind_view, expression_view, field_view, fields_view, func_kind_view, global_kind_view, payload_view, table_kind_view};
ghost use Rattle.wat_scopes.specs.FaultModels.{faults_view};
ghost use Rattle.wat_scopes.specs.Known.{names};
ghost use Rattle.wat_instr_uses.specs.Names.{instrs_uses};
ghost use Rattle.wat_names.specs.Bodies.{bodies_uses, body_uses, data_expressions, expression_faults, expressions_faults, expressions_in, expressions_uses, field_expressions, func_expressions, global_expressions, offset_expressions, payload_expressions, table_expressions};

use crate::blocks::add_block_fault;
use std::alloc::AllocError;
use wat_core::ModuleField;
use wat_expr::Expression;
use wat_fields::{DataKind, ElemKind, ElemPayload, FuncKind, GlobalKind, TableKind};
use wat_instr_uses::add_names;
use wat_scopes::{Name, NameFault};
use wat_tokens::Span;

/// What was found in the expressions of a module. In the methods, `at` is the index of the field, and
/// `span` the position of its keyword.
#[derive(Drop)]
pub(crate) struct Bodies<'a> {
    /// The first fault of each expression that has one.
    pub faults: Vec<NameFault<'a>>,
    /// The names that are used, apart from labels.
    pub used: Vec<Name<'a>>,
}

impl<'a> Bodies<'a> {
    /// Checks an expression.
    fn check(
        &mut self,
        at: usize,
        span: Span,
        expression: &Expression<'a>,
    ) -> Result<(), AllocError>
        ensures faults { OnOk result (faults_view self.new.faults.items
            ≡ faults_view self.old.faults.items
            ++ expression_faults (expression_view expression.now)) }
        ensures used { OnOk result (names self.new.used.items ≡ names self.old.used.items
            ++ instrs_uses at (expression_view expression.now).instrs) }
    {
        add_names(&mut self.used, at, &expression.instrs)?;
        add_block_fault(&mut self.faults, expression, span)
    }

    /// Checks expressions.
    fn check_all(
        &mut self,
        at: usize,
        span: Span,
        expressions: &[Expression<'a>],
    ) -> Result<(), AllocError>
        ensures faults { OnOk result (faults_view self.new.faults.items
            ≡ faults_view self.old.faults.items
            ++ expressions_faults (map expression_view expressions.now)) }
        ensures used { OnOk result (names self.new.used.items ≡ names self.old.used.items
            ++ expressions_uses at (map expression_view expressions.now)) }
    {
        for expression in expressions {
            self.check(at, span, expression)?;
        }
        Ok(())
    }

    /// Checks the expressions of the elements of a segment or a table.
    fn check_payload(
        &mut self,
        at: usize,
        span: Span,
        payload: &ElemPayload<'a>,
    ) -> Result<(), AllocError>
        ensures faults { OnOk result (faults_view self.new.faults.items
            ≡ faults_view self.old.faults.items
            ++ expressions_faults (payload_expressions (payload_view payload.now))) }
        ensures used { OnOk result (names self.new.used.items ≡ names self.old.used.items
            ++ expressions_uses at (payload_expressions (payload_view payload.now))) }
    {
        match payload {
            ElemPayload::Indices(_) => Ok(()),
            ElemPayload::Exprs { ty: _, exprs } => self.check_all(at, span, exprs),
        }
    }

    /// Checks the offset of an element segment, if it has one.
    fn check_offset(&mut self, at: usize, span: Span, kind: &ElemKind<'a>) -> Result<(), AllocError>
        ensures faults { OnOk result (faults_view self.new.faults.items
            ≡ faults_view self.old.faults.items
            ++ expressions_faults (offset_expressions (elem_kind_view kind.now))) }
        ensures used { OnOk result (names self.new.used.items ≡ names self.old.used.items
            ++ expressions_uses at (offset_expressions (elem_kind_view kind.now))) }
    {
        match kind {
            ElemKind::Passive => Ok(()),
            ElemKind::Declared => Ok(()),
            ElemKind::Active { table: _, offset } => self.check(at, span, offset),
        }
    }

    /// Checks the body of a function, if it isn't an import.
    fn check_func(&mut self, at: usize, span: Span, kind: &FuncKind<'a>) -> Result<(), AllocError>
        ensures faults { OnOk result (faults_view self.new.faults.items
            ≡ faults_view self.old.faults.items
            ++ expressions_faults (func_expressions (func_kind_view kind.now))) }
        ensures used { OnOk result (names self.new.used.items ≡ names self.old.used.items
            ++ expressions_uses at (func_expressions (func_kind_view kind.now))) }
    {
        match kind {
            FuncKind::Import(_, _) => Ok(()),
            FuncKind::Inline {
                locals: _,
                expression,
            } => self.check(at, span, expression),
        }
    }

    /// Checks the initial value of a global, if it isn't an import.
    fn check_global(
        &mut self,
        at: usize,
        span: Span,
        kind: &GlobalKind<'a>,
    ) -> Result<(), AllocError>
        ensures faults { OnOk result (faults_view self.new.faults.items
            ≡ faults_view self.old.faults.items
            ++ expressions_faults (global_expressions (global_kind_view kind.now))) }
        ensures used { OnOk result (names self.new.used.items ≡ names self.old.used.items
            ++ expressions_uses at (global_expressions (global_kind_view kind.now))) }
    {
        match kind {
            GlobalKind::Import(_) => Ok(()),
            GlobalKind::Inline(expression) => self.check(at, span, expression),
        }
    }

    /// Checks the initial values of a table.
    fn check_table(&mut self, at: usize, span: Span, kind: &TableKind<'a>) -> Result<(), AllocError>
        ensures faults { OnOk result (faults_view self.new.faults.items
            ≡ faults_view self.old.faults.items
            ++ expressions_faults (table_expressions (table_kind_view kind.now))) }
        ensures used { OnOk result (names self.new.used.items ≡ names self.old.used.items
            ++ expressions_uses at (table_expressions (table_kind_view kind.now))) }
    {
        match kind {
            TableKind::Import { .. } => Ok(()),
            TableKind::Normal { ty: _, init_expr } => match init_expr {
                Some(expression) => self.check(at, span, expression),
                None => Ok(()),
            },
            TableKind::Inline { payload, .. } => self.check_payload(at, span, payload),
        }
    }

    /// Checks the offset of a data segment, if it has one.
    fn check_data(&mut self, at: usize, span: Span, kind: &DataKind<'a>) -> Result<(), AllocError>
        ensures faults { OnOk result (faults_view self.new.faults.items
            ≡ faults_view self.old.faults.items
            ++ expressions_faults (data_expressions (data_kind_view kind.now))) }
        ensures used { OnOk result (names self.new.used.items ≡ names self.old.used.items
            ++ expressions_uses at (data_expressions (data_kind_view kind.now))) }
    {
        match kind {
            DataKind::Passive => Ok(()),
            DataKind::Active { memory: _, offset } => self.check(at, span, offset),
        }
    }

    /// Checks the expressions of a field.
    fn check_field(&mut self, at: usize, field: &ModuleField<'a>) -> Result<(), AllocError>
        ensures faults { OnOk result (faults_view self.new.faults.items
            ≡ faults_view self.old.faults.items
            ++ expressions_faults (field_expressions (field_view field.now))) }
        ensures used { OnOk result (names self.new.used.items ≡ names self.old.used.items
            ++ body_uses at (field_view field.now)) }
    {
        match field {
            ModuleField::Type(_) => Ok(()),
            ModuleField::Rec(_) => Ok(()),
            ModuleField::Import(_) => Ok(()),
            ModuleField::Func(func) => self.check_func(at, func.span, &func.kind),
            ModuleField::Table(table) => self.check_table(at, table.span, &table.kind),
            ModuleField::Memory(_) => Ok(()),
            ModuleField::Global(global) => self.check_global(at, global.span, &global.kind),
            ModuleField::Export(_) => Ok(()),
            ModuleField::Start(_) => Ok(()),
            ModuleField::Elem(elem) => {
                self.check_offset(at, elem.span, &elem.kind)?;
                self.check_payload(at, elem.span, &elem.payload)
            }
            ModuleField::Data(data) => self.check_data(at, data.span, &data.kind),
            ModuleField::Tag(_) => Ok(()),
            ModuleField::Custom(_) => Ok(()),
        }
    }

    /// Checks the expressions of the fields of a module.
    pub(crate) fn check_fields(&mut self, fields: &[ModuleField<'a>]) -> Result<(), AllocError>
        ensures faults { OnOk result (faults_view self.new.faults.items
            ≡ faults_view self.old.faults.items
            ++ expressions_faults (expressions_in (fields_view fields.now))) }
        ensures used { OnOk result (names self.new.used.items ≡ names self.old.used.items
            ++ bodies_uses (fields_view fields.now)) }
    {
        for (at, field) in fields.iter().enumerate() {
            self.check_field(at, field)?;
        }
        Ok(())
    }
}
