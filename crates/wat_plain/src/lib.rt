//! The definitions of mnemonics, of how items and groups are read and of what they unfold to as
//! plain programs. They are slow and recursive, and only tests use them.
#![tactic(auto)]

pub mod find;
pub mod folded;
mod found;
pub mod hinting;
mod keep;
pub mod reading;
mod taking;
pub mod tree;
pub mod unfolding;

pub use find::find_by_list;
pub use folded::read_folded;
pub use hinting::hints;
pub use reading::read_items;
pub use tree::{FoldedGroup, Groups, Items};
pub use unfolding::{unfold, unfold_folded};
