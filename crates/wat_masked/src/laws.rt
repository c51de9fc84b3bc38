//! Laws of the definitions.

ghost use Rattle.std.specs.Prelude.{◌≡◌, ℕ, List, length, true, false};
ghost use Rattle.wat_masked.specs.Prelude.{IsCut, is_integer, visible_tokens, Token, Placed, tokens_of, is_float, masked_tokens, has_none, masked_text, IsMasked};
ghost use Rattle.wat_masked.specs.Rows.{Floats, NoFloats, Constant, Data, Row, Hidden, Unchanged};

/// A text with a cut has exactly one masked text, of the same length.
pub fn one_masked()
    ensures some { (text : List ℕ) (ts : List Placed) → IsCut text ts
        → IsMasked text (masked_text text ts) }
    ensures one { (text answer other : List ℕ) → IsMasked text answer → IsMasked text other
        → answer ≡ other }
    ensures size { (text answer : List ℕ) → IsMasked text answer → length answer ≡ length text }
{}

/// If no visible float literal directly follows a word that takes floats, masking changes nothing:
/// neither the text nor its tokens.
pub fn own_masked()
    ensures tokens { (ts : List Token) → has_none false (visible_tokens false ts) ≡ true
        → masked_tokens ts ≡ ts }
    ensures text { (text : List ℕ) (ts : List Placed) → IsCut text ts
        → has_none false (visible_tokens false (tokens_of ts)) ≡ true → IsMasked text text }
{}

/// In a masked text, no visible float literal directly follows a word that takes floats: all are
/// replaced.
pub fn all_replaced()
    ensures { (ts : List Token) → has_none false (visible_tokens false (masked_tokens ts)) ≡ true }
{}

/// A text and its masked text have the same number of tokens.
pub fn same_number()
    ensures { (ts : List Token) → length (masked_tokens ts) ≡ length ts }
{}

/// Hidden groups don't matter: if two lists have the same visible tokens, the masked lists have
/// the same visible tokens.
pub fn same_visible()
    ensures { (ts us : List Token) → visible_tokens false ts ≡ visible_tokens false us
        → visible_tokens false (masked_tokens ts) ≡ visible_tokens false (masked_tokens us) }
{}

/// Example tokens, masked. The clauses name only the definitions.
pub fn masked_rows()
    ensures floats { Floats }
    ensures no_floats { NoFloats }
    ensures constant { Constant }
    ensures data { Data }
    ensures row { Row }
    ensures hidden { Hidden }
    ensures unchanged { Unchanged }
{}

/// Each integer literal is a float literal.
pub fn integers()
    ensures { (x : List ℕ) → is_integer x ≡ true → is_float x ≡ true }
{}
