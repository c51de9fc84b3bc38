//! The output of the program for deeply nested texts, and for bytes that aren't UTF-8.

use crate::streams::{Source, Target};
use std::alloc::{AllocError, Global};
use std::process::Abort;
use std::test::Fail;
use wat_show::{Mode, RunError, Watched, run};

/// Runs the program on the bytes of a text. Returns the exit status and the output.
pub fn answer(alloc: Global, mode: Mode, text: &[u8]) -> Result<(u8, Vec<u8>), RunError> {
    let mut reader = Watched::new(Source {
        text,
        most: usize::MAX,
        failing: 0,
        calls: 0,
    });
    let mut writer = Watched::new(Target {
        taken: Vec::new(alloc),
        most: usize::MAX,
        failing: 0,
        takes_nothing: false,
        calls: 0,
    });
    let status = run(alloc, mode, &mut reader, &mut writer)?;
    Ok((status, writer.into_inner().taken))
}

/// How deep texts are nested.
const DEPTH: usize = 100_000;

/// Returns `first`, `DEPTH` times, and then `last`, `lasts` times.
fn nested(alloc: Global, [first, last]: [&str; 2], lasts: usize) -> Result<String, AllocError> {
    let mut out = String::new(alloc);
    for _ in 0..DEPTH {
        out.push_str(first)?;
    }
    for _ in 0..lasts {
        out.push_str(last)?;
    }
    Ok(out)
}

/// Groups that each open and close with `text` are read. The output has `listing` for each opening
/// and each closing.
fn is_read(
    rt: &impl Abort,
    alloc: Global,
    mode: Mode,
    text: [&str; 2],
    listing: [&str; 2],
) -> Result<(), Fail> {
    let text = nested(alloc, text, DEPTH)?;
    let listing = nested(alloc, listing, DEPTH)?;
    let (status, output) = answer(alloc, mode, text.as_bytes())?;
    assert_eq!(rt; status, 0);
    assert!(rt; output.as_slice() == listing.as_bytes());
    Ok(())
}

#[test]
fn nested_blocks_are_read(rt: HostRuntime) -> Result<(), Fail> {
    is_read(
        &rt,
        rt.alloc(),
        Mode::Expr,
        ["(block", ")"],
        ["block\n", "end\n"],
    )
}

#[test]
fn nested_ifs_are_read(rt: HostRuntime) -> Result<(), Fail> {
    is_read(
        &rt,
        rt.alloc(),
        Mode::Expr,
        ["(if", "(then))"],
        ["if\nend\n", ""],
    )
}

#[test]
fn nested_folded_instructions_are_read(rt: HostRuntime) -> Result<(), Fail> {
    is_read(&rt, rt.alloc(), Mode::Folded, ["(nop", ")"], ["nop\n", ""])
}

#[test]
fn nested_comments_and_annotations_are_read(rt: HostRuntime) -> Result<(), Fail> {
    is_read(&rt, rt.alloc(), Mode::Expr, ["(;", ";)"], ["", ""])?;
    is_read(&rt, rt.alloc(), Mode::Expr, ["(@x", ")"], ["", ""])
}

/// A nested text that is refused: its mode, what opens and closes each group, how many groups are
/// closed, and the output.
type RefusedRow = (Mode, [&'static str; 2], usize, &'static str);

const REFUSED: [RefusedRow; 3] = [
    (
        Mode::Expr,
        ["(block", ")"],
        99_999,
        "refused Operator at 699999\n",
    ),
    (Mode::Expr, ["(;", ";)"], 0, "refused LexComment at 0\n"),
    (Mode::Expr, ["(@x", ")"], 0, "refused LexAnnotation at 0\n"),
];

/// The program refuses the bytes of a text with this output.
fn is_refused(
    rt: &impl Abort,
    alloc: Global,
    mode: Mode,
    text: &[u8],
    wanted: &str,
) -> Result<(), Fail> {
    let (status, output) = answer(alloc, mode, text)?;
    let output = str::from_utf8(&output)?;
    assert_eq!(rt; (status, output), (1, wanted));
    Ok(())
}

#[test]
fn nested_texts_that_are_not_closed_are_refused(rt: HostRuntime) -> Result<(), Fail> {
    for (mode, text, closings, wanted) in REFUSED {
        let text = nested(rt.alloc(), text, closings)?;
        is_refused(&rt, rt.alloc(), mode, text.as_bytes(), wanted)?;
    }
    Ok(())
}

#[test]
fn bytes_that_are_not_utf8_are_refused(rt: HostRuntime) -> Result<(), Fail> {
    for mode in [Mode::FuncType, Mode::Expr, Mode::Folded, Mode::Module] {
        for text in [&b"\xff"[..], &b"(module)\xff"[..]] {
            is_refused(&rt, rt.alloc(), mode, text, "refused Utf8 at 0\n")?;
        }
    }
    Ok(())
}
