//! The tasks for a text.

use wat_print::Layout;

/// What a check covers.
#[derive(Clone, Copy, Debug, PartialEq, Eq)]
pub enum Extent {
    /// The grammar alone.
    Syntax,
    /// The grammar, and then the names, blocks and imports of a module. See
    /// [`wat_names::name_faults`].
    Names,
}

/// The task for a text. It selects the answer.
#[derive(Clone, Copy, Debug, PartialEq, Eq)]
pub enum Task {
    /// No output for a module without errors; the report of the errors for other texts.
    Check(Extent),
    /// The same as `Check`, with the errors as JSON: one object for each error, each on a line.
    Json(Extent),
    /// The listing of the module.
    Listing,
    /// The printed text of the module in this layout.
    Print(Layout),
}
