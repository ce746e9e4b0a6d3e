use cy_num::CNum;
use sqlite_items::Items;

/// A class of a set: its module, and its number among the module's classes in text order. The project's own.
#[derive(Clone, Copy, Debug, PartialEq, Eq)]
pub struct ClassId {
    pub module: u32,
    pub index: u32,
}

/// A function of a set, methods included: its module, and its number there in text order. The project's own.
#[derive(Clone, Copy, Debug, PartialEq, Eq)]
pub struct FnId {
    pub module: u32,
    pub index: u32,
}

/// The type of a view (Cython documentation, "Typed Memoryviews"): 1 to 3 dimensions.
#[derive(Clone, Copy, Debug, PartialEq, Eq)]
pub struct ViewTy {
    pub elem: CNum,
    pub dims: u8,
    pub constant: bool,
    pub contiguous: bool,
}

/// A static type.
#[derive(Clone, Copy, Debug, PartialEq, Eq)]
pub enum Ty {
    Num(CNum),
    Bint,
    Object,
    Class(ClassId),
    View(ViewTy),
    Void,
}

/// What a failed call answers, and how the caller sees it (Cython documentation, "Error return values").
/// `Value` is `except V`, `MaybeValue` is `except? V`, and `Null` is that of an object result.
#[derive(Clone, Copy, Debug, PartialEq, Eq)]
pub enum Clause {
    Null,
    Value(i128),
    MaybeValue(i128),
    Star,
    Noexcept,
}

/// The types of a function, and its clause as it is written.
#[derive(Drop)]
pub struct Signature {
    pub params: Items<Ty>,
    pub result: Ty,
    pub clause: Option<Clause>,
    pub nogil: bool,
}

/// What happens to a value that meets a declared place. The project's own, after the Cython documentation.
#[derive(Clone, Copy, Debug, PartialEq, Eq)]
pub enum Coercion {
    /// Nothing.
    Same,
    /// A number becomes one of another type.
    Convert(CNum),
    /// A number becomes 0 or 1.
    Truth,
    /// A signed number becomes an object.
    FromSigned,
    /// An unsigned number becomes an object.
    FromUnsigned,
    /// A `bint` becomes True or False.
    FromBint,
    /// An object becomes a signed number, or OverflowError is raised.
    ToSigned(CNum),
    /// An object becomes an unsigned number, or OverflowError is raised.
    ToUnsigned(CNum),
    /// The truth of an object is asked.
    ToBint,
    /// None and instances of the class pass, else TypeError is raised.
    ClassTest(ClassId),
    /// A view of an object is taken.
    TakeView(ViewTy),
    /// A view becomes one with fewer promises.
    Widen,
}
