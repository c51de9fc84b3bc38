//! Index spaces, and identifiers in them (Text Format, "Contexts").

ghost use Rattle.std.specs.Prelude.{◌≡◌, ◌↔◌, IsTrue};
ghost use Rattle.std.specs.Cmp.{partial_equiv_from_equiv, on_equiv, decided};
ghost use Rattle.std.proofs.Common.{ap};
ghost use Rattle.wat_scopes.specs.Spaces.{name_view, space_view, kind_of, number_of, owner_of, same_name, same_space, name_writes, space_writes};
ghost use Rattle.wat_scopes.specs.Laws.Spaces.{same_name_decides, same_space_decides};

use std::hash::{Hash, Hasher};
use wat_tokens::Id;

/// An index space, in which identifiers are distinct (Text Format, "Contexts"). Labels are in none
/// of these: see [`crate::Act`].
#[derive(Clone, Copy, Debug)]
pub enum Space<'a> {
    /// Types.
    Type,
    /// Functions.
    Func,
    /// Tables.
    Table,
    /// Memories.
    Memory,
    /// Globals.
    Global,
    /// Tags.
    Tag,
    /// Element segments.
    Elem,
    /// Data segments.
    Data,
    /// The parameters and the locals of the module's field with this index.
    Local(usize),
    /// The fields of the structure type with this index, if it is used by its number.
    FieldAt(usize),
    /// The fields of the structure type with this identifier.
    FieldOf(Id<'a>),
}

impl<'a> Space<'a> {
    /// Returns the number of the variant.
    fn kind(&self) -> u8
        ensures { result ≡ kind_of (space_view self.now) }
    {
        match self {
            Space::Type => 0,
            Space::Func => 1,
            Space::Table => 2,
            Space::Memory => 3,
            Space::Global => 4,
            Space::Tag => 5,
            Space::Elem => 6,
            Space::Data => 7,
            Space::Local(_) => 8,
            Space::FieldAt(_) => 9,
            Space::FieldOf(_) => 10,
        }
    }

    /// Returns the number in the space, or 0.
    fn number(&self) -> usize
        ensures { result ≡ number_of (space_view self.now) }
    {
        match self {
            Space::Local(number) => *number,
            Space::FieldAt(number) => *number,
            _ => 0,
        }
    }

    /// Returns the name in the space, or the empty name.
    fn owner(&self) -> &'a str
        ensures { result.now ≡ owner_of (space_view self.now) }
    {
        match self {
            Space::FieldOf(id) => id.name(),
            _ => "",
        }
    }
}

impl PartialEq for Space<'_> {
    ghost eq = { λ a b. same_space (space_view a) (space_view b) };

    ghost laws = { partial_equiv_from_equiv (on_equiv space_view
        (decided same_space same_space_decides)) };

    fn eq(&self, other: &Self) -> bool
        ensures value { result ≡ same_space (space_view self.now) (space_view other.now) }
        ensures alike { IsTrue result ↔ (space_view self.now ≡ space_view other.now) }
    {
        self.kind() == other.kind()
            && self.number() == other.number()
            && self.owner() == other.owner()
    }
}

impl Eq for Space<'_> {
    ghost laws = { on_equiv space_view (decided same_space same_space_decides) };
}

impl Hash for Space<'_> {
    ghost hash_input = { λ s. space_writes (space_view s) };

    ghost respects_eq = { λ a b e. ap space_writes ((same_space_decides (space_view a)
        (space_view b)).0 e) };

    fn hash<H: Hasher>(&self, state: &mut H) {
        state.write_u8(self.kind());
        self.number().hash(state);
        self.owner().hash(state);
    }
}

/// An identifier in an index space. Equality and hashes don't use the position.
#[derive(Clone, Copy, Debug)]
pub struct Name<'a> {
    /// The index space.
    pub space: Space<'a>,
    /// The identifier.
    pub id: Id<'a>,
}

impl PartialEq for Name<'_> {
    ghost eq = { λ a b. same_name (name_view a) (name_view b) };

    ghost laws = { partial_equiv_from_equiv (on_equiv name_view
        (decided same_name same_name_decides)) };

    fn eq(&self, other: &Self) -> bool
        ensures value { result ≡ same_name (name_view self.now) (name_view other.now) }
        ensures alike { IsTrue result ↔ (name_view self.now ≡ name_view other.now) }
    {
        self.space == other.space && self.id == other.id
    }
}

impl Eq for Name<'_> {
    ghost laws = { on_equiv name_view (decided same_name same_name_decides) };
}

impl Hash for Name<'_> {
    ghost hash_input = { λ n. name_writes (name_view n) };

    ghost respects_eq = { λ a b e. ap name_writes ((same_name_decides (name_view a)
        (name_view b)).0 e) };

    fn hash<H: Hasher>(&self, state: &mut H) {
        self.space.hash(state);
        self.id.hash(state);
    }
}
