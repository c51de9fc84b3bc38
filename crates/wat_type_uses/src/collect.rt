//! Names of identifiers and indices (Text Format, "Indices").

ghost use Rattle.std.specs.Prelude.{◌≡◌, ◌++◌, OnOk, map};
ghost use Rattle.wat_tokens.specs.Prelude.{index_view, name_of, option_view};
ghost use Rattle.wat_scopes.specs.Spaces.{space_view};
ghost use Rattle.wat_scopes.specs.Known.{names};
ghost use Rattle.wat_type_uses.specs.Named.{by_index, by_indices, by_optional, by_id, by_two};

use std::alloc::AllocError;
use wat_scopes::{Name, Space};
use wat_tokens::{Id, Index};

/// Appends the name of the identifier, if there is one.
pub fn add_id<'a>(
    out: &mut Vec<Name<'a>>,
    space: Space<'a>,
    id: Option<Id<'a>>,
) -> Result<(), AllocError>
    ensures { OnOk result (names out.new.items ≡ names out.old.items
        ++ by_id (space_view space.entry) (option_view name_of id.entry)) }
{
    match id {
        Some(id) => {
            out.push(Name { space, id })?;
            Ok(())
        }
        None => Ok(()),
    }
}

/// Appends the name of the index, if it is an identifier. A number uses no name.
pub fn add_index<'a>(
    out: &mut Vec<Name<'a>>,
    space: Space<'a>,
    index: &Index<'a>,
) -> Result<(), AllocError>
    ensures { OnOk result (names out.new.items ≡ names out.old.items
        ++ by_index (space_view space.entry) (index_view index.now)) }
{
    match index {
        Index::Num(_, _) => Ok(()),
        Index::Id(id) => {
            out.push(Name { space, id: *id })?;
            Ok(())
        }
    }
}

/// Appends the names of the indices that are identifiers, in order.
pub fn add_indices<'a>(
    out: &mut Vec<Name<'a>>,
    space: Space<'a>,
    indices: &[Index<'a>],
) -> Result<(), AllocError>
    ensures { OnOk result (names out.new.items ≡ names out.old.items
        ++ by_indices (space_view space.entry) (map index_view indices.now)) }
{
    for index in indices {
        add_index(out, space, index)?;
    }
    Ok(())
}

/// Appends the name of the index, if there is one and it is an identifier.
pub fn add_optional_index<'a>(
    out: &mut Vec<Name<'a>>,
    space: Space<'a>,
    index: &Option<Index<'a>>,
) -> Result<(), AllocError>
    ensures { OnOk result (names out.new.items ≡ names out.old.items
        ++ by_optional (space_view space.entry) (option_view index_view index.now)) }
{
    match index {
        Some(index) => add_index(out, space, index),
        None => Ok(()),
    }
}

/// Appends the names of two indices, `index` in `space` and `second` in `other`.
pub fn add_two_indices<'a>(
    out: &mut Vec<Name<'a>>,
    space: Space<'a>,
    index: &Index<'a>,
    other: Space<'a>,
    second: &Index<'a>,
) -> Result<(), AllocError>
    ensures { OnOk result (names out.new.items ≡ names out.old.items
        ++ by_two (space_view space.entry) (space_view other.entry) (
          index_view index.now,
          index_view second.now,
        )) }
{
    add_index(out, space, index)?;
    add_index(out, other, second)
}
