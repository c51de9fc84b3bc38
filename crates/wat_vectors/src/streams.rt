//! Runs of the program over a reader and a writer that give and take little at a time, and of which
//! a call fails. Behind such a call neither is called again.

use std::alloc::Global;
use std::io;
use std::io::{Read, Write};
use std::process::Abort;
use std::test::Fail;
use wat_show::{Mode, RunError, Watched, run};

/// Counts a call, which fails where its number is that.
fn count(calls: &mut usize, failing: usize) -> io::Result<()> {
    *calls = calls.saturating_add(1);
    if *calls == failing {
        return Err(io::Error::from(io::ErrorKind::BrokenPipe));
    }
    Ok(())
}

/// Gives so many bytes of a text at most at a time.
#[derive(Drop)]
pub struct Source<'a> {
    pub text: &'a [u8],
    pub most: usize,
    pub failing: usize,
    pub calls: usize,
}

impl<'a> Read for Source<'a> {
    fn read(&mut self, buf: &mut [u8]) -> io::Result<usize> {
        count(&mut self.calls, self.failing)?;
        let size = self.most.min(buf.len()).min(self.text.len());
        let (piece, rest) = self.text.split_at(size);
        buf[..size].copy_from_slice(piece);
        self.text = rest;
        Ok(size)
    }
}

/// Takes so many bytes at most at a time. A write that fails is refused, or takes nothing.
#[derive(Drop)]
pub struct Target {
    pub taken: Vec<u8>,
    pub most: usize,
    pub failing: usize,
    pub takes_nothing: bool,
    pub calls: usize,
}

impl Write for Target {
    fn write(&mut self, buf: &[u8]) -> io::Result<usize> {
        let counted = count(&mut self.calls, self.failing);
        if counted.is_err() && self.takes_nothing {
            return Ok(0);
        }
        counted?;
        let size = self.most.min(buf.len());
        self.taken.extend_from_slice(&buf[..size])?;
        Ok(size)
    }

    fn flush(&mut self) -> io::Result<()> {
        count(&mut self.calls, self.failing)
    }
}

/// A run: how many bytes are read and written at most at a time, which read and which write fails,
/// the first being 1, and then what the run answers, how often the reader and the writer were
/// called, and what was written.
type Row<'a> = (
    [usize; 2],
    [usize; 2],
    Result<u8, RunError>,
    [usize; 2],
    &'a str,
);

/// A run over a text does what its row expects.
fn does(rt: &impl Abort, alloc: Global, text: &str, row: Row<'_>, takes_nothing: bool) {
    let ([most_read, most_written], [read, write], outcome, calls, written) = row;
    let mut reader = Watched::new(Source {
        text: text.as_bytes(),
        most: most_read,
        failing: read,
        calls: 0,
    });
    let mut writer = Watched::new(Target {
        taken: Vec::new(alloc),
        most: most_written,
        failing: write,
        takes_nothing,
        calls: 0,
    });
    let found = run(alloc, Mode::Expr, &mut reader, &mut writer);
    let target = writer.into_inner();
    let called = [reader.into_inner().calls, target.calls];
    assert_eq!(rt; (found, called), (outcome, calls), "call {read} or {write}");
    let taken = str::from_utf8(&target.taken).unwrap_or("no UTF-8");
    assert_eq!(rt; taken, written, "call {read} or {write}");
}

/// Four reads of 16 bytes give it, and the fifth gives nothing.
const TEXT: &str = "(if (i32.const 1) (then (nop)) (else (unreachable)))";

/// What is listed of it, in one write, or in 5 of 8 bytes.
const LISTING: &str = "i32.const 1\nif\nnop\nelse\nunreachable\nend\n";

/// Runs over it, of which a read fails, or a write.
const ROWS: &[Row] = &[
    ([16, 100], [0, 0], Ok(0), [5, 1], LISTING),
    ([16, 100], [1, 0], Err(RunError::Read), [1, 0], ""),
    ([16, 100], [2, 0], Err(RunError::Read), [2, 0], ""),
    ([16, 100], [3, 0], Err(RunError::Read), [3, 0], ""),
    ([16, 100], [5, 0], Err(RunError::Read), [5, 0], ""),
    ([16, 8], [0, 0], Ok(0), [5, 5], LISTING),
    ([16, 8], [0, 2], Err(RunError::Write), [5, 2], "i32.cons"),
    ([16, 5], [0, 2], Err(RunError::Write), [5, 2], "i32.c"),
    ([16, 100], [0, 1], Err(RunError::Write), [5, 1], ""),
];

#[test]
fn nothing_is_called_behind_a_call_that_failed(rt: HostRuntime) {
    for row in ROWS {
        does(&rt, rt.alloc(), TEXT, *row, false);
        does(&rt, rt.alloc(), TEXT, *row, true);
    }
}

// The program asks for 65,536 bytes at a time.
#[test]
fn a_long_text_is_read_whole(rt: HostRuntime) -> Result<(), Fail> {
    let mut text = String::new(rt.alloc());
    for _ in 0..20_000 {
        text.push_str("nop\n")?;
    }
    for (most, calls) in [
        ([1, 7], [80_001, 11_429]),
        ([9_000, 1], [10, 80_000]),
        ([80_000, 80_000], [3, 1]),
    ] {
        let row = (most, [0, 0], Ok(0), calls, text.as_str());
        does(&rt, rt.alloc(), &text, row, false);
    }
    Ok(())
}

#[test]
fn a_flush_is_passed_on(rt: HostRuntime) {
    let mut writer = Watched::new(Target {
        taken: Vec::new(rt.alloc()),
        most: 1,
        failing: 2,
        takes_nothing: false,
        calls: 0,
    });
    assert!(rt; writer.flush().is_ok());
    assert!(rt; writer.flush().is_err());
    assert!(rt; !writer.failed());
    assert_eq!(rt; writer.into_inner().calls, 2);
}
