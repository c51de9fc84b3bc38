//! An expression that is taken apart, so that what is in it can be moved elsewhere; and the token
//! after inline exports.

use bumpalo::Bump;
use std::test::Fail;
use wat_core::{Expression, InlineExport, Parser};

#[test]
fn an_expression_is_taken_apart(rt: HostRuntime) -> Result<(), Fail> {
    let arena = Bump::new(rt.alloc());
    let text = "nop (@metadata.code.branch_hint \"\\01\") br_if 0";
    let mut parser = Parser::new(rt.alloc(), text, &arena)?;
    parser.with_standard_annotations(true);
    parser.track_instr_spans(true);
    let found = parser.parse::<Expression>()?;
    let (instrs, hints, spans) = found.into_parts();
    assert_eq!(rt; instrs.len(), 2);
    assert_eq!(rt; hints.len(), 1);
    match spans {
        Some(kept) => assert_eq!(rt; kept.len(), 2),
        None => return Err("no spans".into()),
    }
    Ok(())
}

// The third group is no export, so it isn't taken.
#[test]
fn inline_exports_end_before_another_group(rt: HostRuntime) -> Result<(), Fail> {
    let arena = Bump::new(rt.alloc());
    let text = "(export \"a\") (export \"b\") (import \"m\" \"n\")";
    let mut parser = Parser::new(rt.alloc(), text, &arena)?;
    let exports = parser.parse::<InlineExport>()?;
    assert_eq!(rt; exports.names.as_slice(), &["a", "b"][..]);
    assert_eq!(rt; parser.cur_span().offset(), 26);
    assert!(rt; parser.cursor().group_is("import"));
    Ok(())
}
