//! The line of the text in a report, and the carets below it.

ghost use Rattle.std.specs.Prelude.{◌≡◌, ◌++◌, ◌≤◌, ◌<◌, ◌+◌, ◌-◌, OnOk, length, map, min};
ghost use Rattle.std.specs.Str.{chars, IsCharBoundary};
ghost use Rattle.wat_report.specs.Positions.{line_start, line_stop};
ghost use Rattle.wat_report.specs.Shown.{padding, caret_count, caret_line, carets, first_shown, last_marked, last_shown, marked_line, open_line, shown_line, source_line};

use crate::found::marked_len;
use crate::lines::{char_start, line_start, line_stop};
use crate::write::add;
use std::alloc::AllocError;

/// The number of bytes of a line that are shown before the place, and from the place on.
const SHOWN: usize = 100;

/// Returns the offset where the shown part of a line begins.
fn first_shown(text: &str, start: usize, mark: usize) -> usize
    requires order { start ≤ mark }
    requires within { mark ≤ length text.now }
    requires boundary { IsCharBoundary text.now start }
    ensures value { result ≡ first_shown text.now start mark }
    ensures before { result ≤ mark }
    ensures boundary { IsCharBoundary text.now result }
{
    if mark - start > SHOWN {
        return char_start(text, mark - SHOWN);
    }
    start
}

/// Returns the offset where the shown part of a line ends.
#[tactic(auto, using(crate::proofs::Cuts::char_start_behind))]
fn last_shown(text: &str, mark: usize, stop: usize) -> usize
    requires order { mark ≤ stop }
    requires within { stop ≤ length text.now }
    requires mark { IsCharBoundary text.now mark }
    requires boundary { IsCharBoundary text.now stop }
    ensures value { result ≡ last_shown text.now mark stop }
    ensures order { mark ≤ result }
    ensures within { result ≤ length text.now }
    ensures boundary { IsCharBoundary text.now result }
{
    if stop - mark > SHOWN {
        return char_start(text, mark + SHOWN);
    }
    stop
}

/// Adds a space for each character of the text, and a tab for each tab.
#[tactic(auto, using(std::proofs::lemmas::Str::chars_from_encodes))]
fn add_blanks(out: &mut Vec<u8>, text: &str) -> Result<(), AllocError>
    ensures { OnOk result (out.new.items ≡ out.old.items ++ map padding (chars text.now)) }
{
    for c in text.chars() {
        out.push(if c == '\t' { b'\t' } else { b' ' })?;
    }
    Ok(())
}

/// Adds the shown part of a line, with `..` on each side where the line goes on.
fn add_source(
    out: &mut Vec<u8>,
    shown: &str,
    cut_before: bool,
    cut_behind: bool,
) -> Result<(), AllocError>
    ensures { OnOk result (out.new.items ≡ out.old.items ++ source_line shown.now cut_before
        cut_behind) }
{
    add(out, if cut_before { ".." } else { "" })?;
    add(out, shown)?;
    add(out, if cut_behind { "..\n" } else { "\n" })
}

/// Returns the end of the marked characters that are shown. The line is shown up to `last`.
#[tactic(auto, using(crate::proofs::Cuts::char_start_behind))]
fn last_marked(text: &str, mark: usize, end: usize, last: usize) -> usize
    requires end { mark ≤ end }
    requires last { mark ≤ last }
    requires within { last ≤ length text.now }
    requires mark { IsCharBoundary text.now mark }
    requires boundary { IsCharBoundary text.now last }
    ensures value { result ≡ last_marked text.now end last }
    ensures order { mark ≤ result }
    ensures within { result ≤ length text.now }
    ensures boundary { IsCharBoundary text.now result }
{
    let end = char_start(text, end);
    if end < last {
        return end;
    }
    last
}

/// Returns the number of carets for the marked characters: one for each, and at least one.
#[tactic(auto, using(std::proofs::lemmas::Str::chars_from_encodes))]
fn caret_count(marked: &str) -> usize
    ensures { result ≡ caret_count marked.now }
{
    marked.chars().count().max(1)
}

/// Adds `count` carets.
#[tactic(auto, using(std::proofs::lemmas::Grind::replicate_next))]
fn add_carets(out: &mut Vec<u8>, count: usize) -> Result<(), AllocError>
    ensures { OnOk result (out.new.items ≡ out.old.items ++ carets count) }
{
    'carets: for _ in 0..count {
        out.push(b'^')?;
    }
    Ok(())
}

/// Adds the carets: after a space or tab for each shown character before the place, one for each
/// marked character.
fn add_caret_line(
    out: &mut Vec<u8>,
    before: &str,
    marked: &str,
    cut_before: bool,
) -> Result<(), AllocError>
    ensures { OnOk result (out.new.items ≡ out.old.items ++ caret_line before.now marked.now
        cut_before) }
{
    add(out, if cut_before { "  " } else { "" })?;
    add_blanks(out, before)?;
    add_carets(out, caret_count(marked))?;
    add(out, "\n")
}

/// Adds the line from start to stop, with carets below the characters from mark to end.
fn add_marked(
    out: &mut Vec<u8>,
    text: &str,
    start: usize,
    mark: usize,
    end: usize,
    stop: usize,
) -> Result<(), AllocError>
    requires start { start ≤ mark }
    requires end { mark ≤ end }
    requires stop { mark ≤ stop }
    requires within { stop ≤ length text.now }
    requires start_boundary { IsCharBoundary text.now start }
    requires boundary { IsCharBoundary text.now mark }
    requires stop_boundary { IsCharBoundary text.now stop }
    ensures { OnOk result (out.new.items ≡ out.old.items ++ marked_line text.now start mark end
        stop) }
{
    let first = first_shown(text, start, mark);
    let last = last_shown(text, mark, stop);
    let end = last_marked(text, mark, end, last);
    let cut_before = start < first;
    add_source(out, &text[first..last], cut_before, last < stop)?;
    add_caret_line(out, &text[first..mark], &text[mark..end], cut_before)
}

/// Adds the line that contains the offset, with carets below the underlined bytes from the offset on.
pub(crate) fn add_line(out: &mut Vec<u8>, text: &str, at: usize) -> Result<(), AllocError>
    requires within { at ≤ length text.now }
    requires boundary { IsCharBoundary text.now at }
    ensures { OnOk result (out.new.items ≡ out.old.items ++ shown_line text.now at) }
{
    let start = line_start(text, at);
    let stop = line_stop(text, start);
    let end = at + marked_len(text, at);
    add_marked(out, text, start, at.min(stop), end, stop)
}

/// Adds the line that begins at start and goes on after the end of the text, with a caret below the
/// end of the text.
pub(crate) fn add_open(out: &mut Vec<u8>, text: &str, start: usize) -> Result<(), AllocError>
    requires within { start ≤ length text.now }
    requires boundary { IsCharBoundary text.now start }
    ensures { OnOk result (out.new.items ≡ out.old.items ++ open_line text.now start) }
{
    let first = first_shown(text, start, text.len());
    let shown = &text[first..];
    add_source(out, shown, start < first, true)?;
    add_caret_line(out, shown, "", start < first)
}
