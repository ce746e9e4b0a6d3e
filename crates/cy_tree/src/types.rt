use cy_base::Text;
use sqlite_items::Items;

/// A NAME, and its first byte. The project's own.
#[derive(Drop)]
pub struct Ident {
    pub at: u32,
    pub text: Text,
}

/// The spellings of C number types, `bint` and `void` (Cython documentation, "Language Basics", C types).
#[derive(Clone, Copy, Debug, PartialEq, Eq)]
pub enum NumberWords {
    SignedChar,
    UnsignedChar,
    Short,
    ShortInt,
    UnsignedShort,
    UnsignedShortInt,
    Int,
    Unsigned,
    UnsignedInt,
    Long,
    LongInt,
    LongLong,
    LongLongInt,
    UnsignedLong,
    UnsignedLongInt,
    UnsignedLongLong,
    UnsignedLongLongInt,
    PySsizeT,
    SizeT,
    Bint,
    Void,
}

/// The words of a type before its dimensions.
#[derive(Drop)]
pub enum TypeName {
    /// `long`, `unsigned int`, ..
    Number(NumberWords),
    /// `A`
    Named(Ident),
    /// `m.A`
    Member(Ident, Ident),
}

/// A dimension `:`, or `::` with its number.
#[derive(Drop)]
pub struct Dim {
    pub at: u32,
    pub step: Option<u128>,
}

/// A type: `long`, `A`, `m.A`, `const long[:, ::1]` (Cython documentation, "Typed Memoryviews").
/// Where there are no brackets there is no dimension.
#[derive(Drop)]
pub struct TypeNode {
    pub at: u32,
    pub constant: bool,
    pub name: TypeName,
    pub dims: Items<Dim>,
}
