//! Laws of the definitions.

ghost use Rattle.std.specs.Prelude.{◌≡◌, ℕ, List, false};
ghost use Rattle.wat_format.specs.Prelude.{IsCut, Placed, tokens_of, Part, HasParts, SameButSpaces, toks_in};

/// A text splits into tokens and comments in at most one way. A text with a cut has such a split,
/// and its tokens are those of the cut.
pub fn one_reading()
    ensures one { (text : List ℕ) (ps qs : List Part) → HasParts false text ps
        → HasParts false text qs → ps ≡ qs }
    ensures read { (text : List ℕ) (ts : List Placed) → IsCut text ts
        → (ps : List Part) × HasParts false text ps × (toks_in ps ≡ tokens_of ts) }
{}

/// If two texts differ only in white space and one has a cut, the other has a cut with the same
/// tokens.
pub fn same_tokens()
    ensures { (text answer : List ℕ) (ts : List Placed) → SameButSpaces text answer
        → IsCut text ts → (us : List Placed) × IsCut answer us × (tokens_of us ≡ tokens_of ts) }
{}

/// Texts that differ only in white space have the same tokens and comments, byte for byte, with each
/// comment between the same two tokens.
pub fn same_parts()
    ensures { (text answer : List ℕ) (ps qs : List Part) → SameButSpaces text answer
        → HasParts false text ps → HasParts false answer qs → ps ≡ qs }
{}
