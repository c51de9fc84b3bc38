//! Laws of texts.

ghost use Rattle.std.specs.Prelude.{◌≡◌, ℕ, List, true, Bool};
ghost use Rattle.wat_print.specs.Prelude.{IsCut, visible_tokens, Token, Placed, tokens_of, Writes, WellFormed, is_given, Page, printed_text, blank_page, IsUtf8, each};

/// The one-line text of well-formed tokens is cut into these tokens. If the standard annotations
/// are known, all of them are visible.
pub fn text_is_cut()
    ensures cut { (ts : List Token) → WellFormed ts
        → (ps : List Placed) × IsCut (printed_text ts) ps × (tokens_of ps ≡ ts) }
    ensures visible { (ts : List Token) → WellFormed ts → visible_tokens true ts ≡ ts }
{}

/// Each layout of well-formed tokens on lines is cut into these tokens.
pub fn lines_are_cut()
    ensures { (ts : List Token) (lines : Bool) (page : Page) → WellFormed ts
        → Writes ts (blank_page lines) page
        → (ps : List Placed) × IsCut page.bytes ps × (tokens_of ps ≡ ts) }
{}

/// In the tokens of a text, names are UTF-8 and not empty, integers have the syntax of integers,
/// and the elements of strings are bytes.
pub fn text_is_given()
    ensures { (x : List ℕ) (ps : List Placed) (known : Bool) → IsUtf8 x → IsCut x ps
        → each is_given (visible_tokens known (tokens_of ps)) ≡ true }
{}
