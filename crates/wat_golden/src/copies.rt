//! How the values of rows are copied, whose types have a `clone` of their own.

use wat_core::{
    BlockType, BrTableIndices, CallIndirect, Error, ExportType, FunctionType, FunctionTypeNoNames,
    Imports, ItemSig, Resume, ResumeTable, ResumeThrow, ResumeThrowRef, SelectTypes, StructType,
    TagType, TryTable, TypeUse,
};

/// How a value is copied, where it is.
pub trait Copier<T> {
    /// The same once more.
    fn copy(value: &T) -> Option<Result<T, Error>>;
}

/// Not at all.
pub struct Uncopied;

impl<T> Copier<T> for Uncopied {
    fn copy(_: &T) -> Option<Result<T, Error>> {
        None
    }
}

/// By its type's own `clone`.
pub struct Cloned;

impl<'a> Copier<FunctionType<'a>> for Cloned {
    fn copy(value: &FunctionType<'a>) -> Option<Result<FunctionType<'a>, Error>> {
        Some(value.clone())
    }
}

impl<'a> Copier<FunctionTypeNoNames<'a>> for Cloned {
    fn copy(value: &FunctionTypeNoNames<'a>) -> Option<Result<FunctionTypeNoNames<'a>, Error>> {
        Some(value.clone())
    }
}

impl<'a> Copier<StructType<'a>> for Cloned {
    fn copy(value: &StructType<'a>) -> Option<Result<StructType<'a>, Error>> {
        Some(value.clone())
    }
}

impl<'a> Copier<TagType<'a>> for Cloned {
    fn copy(value: &TagType<'a>) -> Option<Result<TagType<'a>, Error>> {
        Some(value.clone())
    }
}

impl<'a> Copier<TypeUse<'a, FunctionType<'a>>> for Cloned {
    fn copy(
        value: &TypeUse<'a, FunctionType<'a>>,
    ) -> Option<Result<TypeUse<'a, FunctionType<'a>>, Error>> {
        Some(value.clone())
    }
}

impl<'a> Copier<TypeUse<'a, FunctionTypeNoNames<'a>>> for Cloned {
    fn copy(
        value: &TypeUse<'a, FunctionTypeNoNames<'a>>,
    ) -> Option<Result<TypeUse<'a, FunctionTypeNoNames<'a>>, Error>> {
        Some(value.clone())
    }
}

impl<'a> Copier<BlockType<'a>> for Cloned {
    fn copy(value: &BlockType<'a>) -> Option<Result<BlockType<'a>, Error>> {
        Some(value.clone())
    }
}

impl<'a> Copier<BrTableIndices<'a>> for Cloned {
    fn copy(value: &BrTableIndices<'a>) -> Option<Result<BrTableIndices<'a>, Error>> {
        Some(value.clone())
    }
}

impl<'a> Copier<CallIndirect<'a>> for Cloned {
    fn copy(value: &CallIndirect<'a>) -> Option<Result<CallIndirect<'a>, Error>> {
        Some(value.clone())
    }
}

impl<'a> Copier<ResumeTable<'a>> for Cloned {
    fn copy(value: &ResumeTable<'a>) -> Option<Result<ResumeTable<'a>, Error>> {
        Some(value.clone())
    }
}

impl<'a> Copier<Resume<'a>> for Cloned {
    fn copy(value: &Resume<'a>) -> Option<Result<Resume<'a>, Error>> {
        Some(value.clone())
    }
}

impl<'a> Copier<ResumeThrow<'a>> for Cloned {
    fn copy(value: &ResumeThrow<'a>) -> Option<Result<ResumeThrow<'a>, Error>> {
        Some(value.clone())
    }
}

impl<'a> Copier<ResumeThrowRef<'a>> for Cloned {
    fn copy(value: &ResumeThrowRef<'a>) -> Option<Result<ResumeThrowRef<'a>, Error>> {
        Some(value.clone())
    }
}

impl<'a> Copier<SelectTypes<'a>> for Cloned {
    fn copy(value: &SelectTypes<'a>) -> Option<Result<SelectTypes<'a>, Error>> {
        Some(value.clone())
    }
}

impl<'a> Copier<TryTable<'a>> for Cloned {
    fn copy(value: &TryTable<'a>) -> Option<Result<TryTable<'a>, Error>> {
        Some(value.clone())
    }
}

impl<'a> Copier<ExportType<'a>> for Cloned {
    fn copy(value: &ExportType<'a>) -> Option<Result<ExportType<'a>, Error>> {
        Some(value.clone())
    }
}

impl<'a> Copier<Imports<'a>> for Cloned {
    fn copy(value: &Imports<'a>) -> Option<Result<Imports<'a>, Error>> {
        Some(value.clone())
    }
}

impl<'a> Copier<ItemSig<'a>> for Cloned {
    fn copy(value: &ItemSig<'a>) -> Option<Result<ItemSig<'a>, Error>> {
        Some(value.clone())
    }
}
