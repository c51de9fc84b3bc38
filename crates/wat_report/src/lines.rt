//! Lines and columns.

ghost use Rattle.std.specs.Prelude.{◌≡◌, ◌≤◌, length};
ghost use Rattle.std.specs.Str.{IsCharBoundary};
ghost use Rattle.wat_report.specs.Positions.{begins_char, begins_line, count_up_to, char_start, line_start, line_of_offset, line_stop, position_of_char, position_of_offset};

/// A position in a text: line and column, as editors count them.
#[derive(Clone, Copy, Debug, PartialEq, Eq, Hash)]
pub struct LineColumn {
    /// The number of the line, from 1. A line ends at LF, at CR LF, or at a CR alone.
    pub line: usize,
    /// The number of the character in its line, from 1. A character is a Unicode scalar value.
    pub column: usize,
}

/// Returns whether a character begins at the offset, or the text ends there.
fn begins_char(bytes: &[u8], at: usize) -> bool
    ensures { result ≡ begins_char bytes.now at }
{
    at >= bytes.len() || !(128 <= bytes[at] && bytes[at] <= 191)
}

/// Returns whether a line begins at the offset.
fn begins_line(bytes: &[u8], at: usize) -> bool
    requires { at ≤ length bytes.now }
    ensures { result ≡ begins_line bytes.now at }
{
    if at == 0 {
        return true;
    }
    let before = bytes[at - 1];
    before == b'\n' || before == b'\r' && !(at < bytes.len() && bytes[at] == b'\n')
}

/// Returns the start of the character that contains the offset.
#[tactic(auto, using(crate::proofs::UpTo::last_steps))]
pub(crate) fn char_start(text: &str, offset: usize) -> usize
    ensures within { result ≤ length text.now }
    ensures before { result ≤ offset }
    ensures value { result ≡ char_start text.now offset }
    ensures boundary { IsCharBoundary text.now result }
{
    let bytes = text.as_bytes();
    let mut at = offset.min(bytes.len());
    while at > 0 && !begins_char(bytes, at) {
        at -= 1;
    }
    at
}

/// Returns the start of the line that contains the offset.
#[tactic(auto, using(crate::proofs::UpTo::last_steps))]
pub(crate) fn line_start(text: &str, at: usize) -> usize
    requires { at ≤ length text.now }
    ensures within { result ≤ at }
    ensures value { result ≡ line_start text.now at }
    ensures boundary { IsCharBoundary text.now result }
{
    let bytes = text.as_bytes();
    let mut start = at;
    while start > 0 && !begins_line(bytes, start) {
        start -= 1;
    }
    start
}

/// Returns the number of lines that begin at or before the offset.
#[tactic(auto, using(crate::proofs::UpTo::count_steps))]
fn line_number(bytes: &[u8], at: usize) -> usize
    requires { at ≤ length bytes.now }
    ensures { result ≡ count_up_to (begins_line bytes.now) at }
{
    let mut line = 1;
    let mut passed = 0;
    while passed < at {
        passed += 1;
        if begins_line(bytes, passed) {
            line += 1;
        }
    }
    line
}

/// Returns the end of the line that begins at the offset, before its line end.
pub(crate) fn line_stop(text: &str, start: usize) -> usize
    requires { start ≤ length text.now }
    ensures within { (start ≤ result) × (result ≤ length text.now) }
    ensures value { result ≡ line_stop text.now start }
    ensures boundary { IsCharBoundary text.now result }
{
    let bytes = text.as_bytes();
    let mut stop = start;
    while stop < bytes.len() && bytes[stop] != b'\n' && bytes[stop] != b'\r' {
        stop += 1;
    }
    stop
}

/// Returns the line and the column of the character that begins at the offset.
pub(crate) fn position_of_char(text: &str, at: usize) -> LineColumn
    requires within { at ≤ length text.now }
    requires boundary { IsCharBoundary text.now at }
    ensures { result ≡ position_of_char text.now at }
{
    let start = line_start(text, at);
    let line = line_number(text.as_bytes(), at);
    let column = text[start..at].chars().count() + 1;
    LineColumn { line, column }
}

/// Returns the line and the column of an offset in bytes.
///
/// Both count from 1. The column counts characters. An offset inside a character has the position of
/// the character, and an offset after the end of the text that of the end. CR LF ends one line.
pub fn line_column(text: &str, offset: usize) -> LineColumn
    ensures { result ≡ position_of_offset text.now offset }
{
    position_of_char(text, char_start(text, offset))
}

/// Returns the line that contains an offset in bytes, without the LF, CR LF or CR that ends it.
///
/// A line contains the LF, CR LF or CR that ends it. An offset after the end of the text is in the
/// last line.
pub fn line_at(text: &str, offset: usize) -> &str
    ensures { result.now ≡ line_of_offset text.now offset }
{
    let start = line_start(text, char_start(text, offset));
    let stop = line_stop(text, start);
    &text[start..stop]
}
