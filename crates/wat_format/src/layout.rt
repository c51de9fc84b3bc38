//! The wanted blanks between the pieces of a text. Existing line breaks stay.
//!
//! The contracts here describe only the number of open groups. For any wanted blanks, the written
//! blanks keep the pieces apart.

ghost use Rattle.std.specs.Prelude.{◌≡◌, ◌+◌, ◌-◌, ◌≤◌, ◌<◌, length, vec_len, OnOk};
ghost use Rattle.wat_format.specs.Shapes.{groups_behind};

use crate::gap::Gap;
use crate::piece::{Piece, Shape};
use std::alloc::{AllocError, Global};
use wat_lexer::scan::run_end;

/// The maximal indentation of a line, in steps of two spaces.
const MOST_STEPS: usize = 50;

/// The state of the layout at the end of a piece.
#[derive(Drop)]
pub(crate) struct Layout {
    /// The number of open flat blocks in each group around the innermost group, outermost first.
    around: Vec<usize>,
    /// The number of open flat blocks in the innermost group.
    flat: usize,
    /// The number of open groups and flat blocks.
    steps: usize,
    /// The least number of open groups since the line began.
    least: usize,
    /// Whether the last token was `(`.
    opened: bool,
    /// The kind of the last piece.
    last: Option<Shape>,
}

/// The effect of a word on flat blocks.
#[derive(Clone, Copy)]
enum Flat {
    Begins,
    Divides,
    Ends,
    Nothing,
}

/// The effect of a word that isn't directly after a `(`.
fn flat_of(word: &[u8]) -> Flat {
    match word {
        b"block" | b"loop" | b"if" | b"try" | b"try_table" => Flat::Begins,
        b"else" | b"catch" | b"catch_all" => Flat::Divides,
        b"end" | b"delegate" => Flat::Ends,
        _ => Flat::Nothing,
    }
}

/// The number of line ends in blanks. CR LF is one line end.
fn line_ends(blanks: &[u8]) -> usize {
    let mut ends: usize = 0;
    let mut returned = false;
    for b in blanks {
        if *b == b'\r' || (*b == b'\n' && !returned) {
            ends = ends.saturating_add(1);
        }
        returned = *b == b'\r';
    }
    ends
}

/// The offset after the spaces and tabs.
fn tabs_end(text: &[u8], from: usize) -> usize
    requires { from ≤ length text.now }
    ensures within { (from ≤ result) × (result ≤ length text.now) }
{
    let mut i = from;
    while i < text.len() && matches!(text[i], b' ' | b'\t') {
        i += 1;
    }
    i
}

/// Whether the line has only blanks from an offset on.
fn ends_line(text: &[u8], from: usize) -> bool
    requires { from ≤ length text.now }
{
    let end = tabs_end(text, from);
    end == text.len() || matches!(text[end], b'\n' | b'\r')
}

/// The number of consecutive words `end`, with their labels, on one line from an offset on.
fn ends_in_front(text: &[u8], at: usize) -> usize
    requires { at ≤ length text.now }
{
    let mut ends: usize = 0;
    let mut i = at;
    'words: while let Ok(end) = run_end(text, i) {
        match &text[i..end] {
            b"end" => ends = ends.saturating_add(1),
            [b'$', ..] => {}
            _ => return ends,
        }
        i = tabs_end(text, end);
    }
    ends
}

impl Layout {
    /// The state at the beginning of a text.
    pub fn new(alloc: Global) -> Layout
        ensures { vec_len result.around ≡ 0 }
    {
        Layout {
            around: Vec::new(alloc),
            flat: 0,
            steps: 0,
            least: 0,
            opened: false,
            last: None,
        }
    }

    /// The number of open groups.
    pub fn groups(&self) -> usize
        ensures { result ≡ vec_len self.now.around }
    {
        self.around.len()
    }

    /// The number of open groups and flat blocks after the `)` tokens at the beginning of the line
    /// at an offset.
    fn steps_behind(&self, text: &[u8], at: usize) -> usize
        requires { at ≤ length text.now }
    {
        let mut steps = self.steps;
        let mut flat = self.flat;
        let mut depth = self.around.len();
        for b in &text[at..] {
            if *b == b')' {
                if depth == 0 {
                    return steps;
                }
                depth -= 1;
                steps = steps.saturating_sub(flat.saturating_add(1));
                flat = match self.around.get(depth) {
                    Some(around) => *around,
                    None => 0,
                };
            } else if *b != b' ' && *b != b'\t' {
                return steps;
            }
        }
        steps
    }

    /// The number of flat blocks that the line at an offset steps back because of its first words.
    fn steps_back(&self, text: &[u8], at: usize, end: usize) -> usize
        requires order { at ≤ end }
        requires within { end ≤ length text.now }
    {
        match flat_of(&text[at..end]) {
            Flat::Begins | Flat::Nothing => 0,
            Flat::Divides => self.flat.min(1),
            Flat::Ends => self.flat.min(ends_in_front(text, at).max(1)),
        }
    }

    /// The indentation, in steps, of a line that begins with a piece.
    fn indent(&self, text: &[u8], at: usize, piece: Piece) -> usize
        requires order { at ≤ piece.end }
        requires within { piece.end ≤ length text.now }
    {
        match piece.shape {
            Shape::Close => self.steps_behind(text, at),
            Shape::Word if !self.opened => {
                self.steps
                    .saturating_sub(self.steps_back(text, at, piece.end))
            }
            _ => self.steps,
        }
    }

    /// The number of line ends that stay of the blanks before a piece: at most one empty line, and
    /// no empty line where a group begins or ends.
    fn lines(&self, blanks: &[u8], shape: Shape) -> usize {
        let begins = self.around.len() > self.least;
        let ends = matches!(shape, Shape::Close);
        line_ends(blanks).min(if begins || ends { 1 } else { 2 })
    }

    /// The number of wanted spaces before a piece that follows another piece on the same line.
    fn spaces(&self, first: u8, blanks: &[u8], shape: Shape) -> usize {
        let opened = matches!(self.last, Some(Shape::Open));
        let away = first == b'@' && blanks.len() > 0;
        if matches!(shape, Shape::Close) || (opened && !away) {
            0
        } else {
            1
        }
    }

    /// The gap before a piece, in place of the blanks; None if the blanks stay as they are.
    pub fn gap(&mut self, text: &[u8], blanks: &[u8], at: usize, piece: Piece) -> Option<Gap>
        requires order { at < piece.end }
        requires within { piece.end ≤ length text.now }
        ensures { vec_len self.new.around ≡ vec_len self.old.around }
    {
        if matches!(self.last, None) {
            return Some(Gap {
                lines: 0,
                spaces: 0,
            });
        }
        let lines = self.lines(blanks, piece.shape);
        if lines > 0 {
            self.least = self.around.len();
            let spaces = 2 * self.indent(text, at, piece).min(MOST_STEPS);
            return Some(Gap { lines, spaces });
        }
        let comment = matches!(piece.shape, Shape::Line | Shape::Block);
        if comment && blanks.len() > 0 && ends_line(text, piece.end) {
            return None;
        }
        let spaces = self.spaces(text[at], blanks, piece.shape);
        Some(Gap { lines: 0, spaces })
    }

    /// Updates the state for a piece.
    pub fn pass(&mut self, text: &[u8], at: usize, piece: Piece) -> Result<(), AllocError>
        requires order { at ≤ piece.end }
        requires within { piece.end ≤ length text.now }
        ensures { OnOk result (vec_len self.new.around
            ≡ groups_behind piece.shape (vec_len self.old.around)) }
    {
        self.last = Some(piece.shape);
        match piece.shape {
            Shape::Line | Shape::Block => return Ok(()),
            Shape::Open => self.open()?,
            Shape::Close => self.close(),
            Shape::Word => {
                if !self.opened {
                    self.pass_word(&text[at..piece.end]);
                }
            }
        }
        self.opened = matches!(piece.shape, Shape::Open);
        Ok(())
    }

    /// Updates the state for a `(`.
    fn open(&mut self) -> Result<(), AllocError>
        ensures { OnOk result (vec_len self.new.around ≡ vec_len self.old.around + 1) }
    {
        self.around.push(self.flat)?;
        self.flat = 0;
        self.steps = self.steps.saturating_add(1);
        Ok(())
    }

    /// Updates the state for a `)`.
    fn close(&mut self)
        ensures { vec_len self.new.around ≡ vec_len self.old.around - 1 }
    {
        if let Some(around) = self.around.pop() {
            self.steps = self.steps.saturating_sub(self.flat.saturating_add(1));
            self.flat = around;
            self.least = self.least.min(self.around.len());
        }
    }

    /// Updates the state for a word that isn't directly after a `(`.
    fn pass_word(&mut self, word: &[u8])
        ensures { vec_len self.new.around ≡ vec_len self.old.around }
    {
        match flat_of(word) {
            Flat::Begins => {
                self.flat = self.flat.saturating_add(1);
                self.steps = self.steps.saturating_add(1);
            }
            Flat::Ends if self.flat > 0 => {
                self.flat -= 1;
                self.steps = self.steps.saturating_sub(1);
            }
            _ => {}
        }
    }
}
