//! Kinds of items.

/// Items that have no `static` before them.
#[derive(Clone, Copy, Debug, PartialEq, Eq)]
pub enum Plain {
    Fixed,
    Instance,
    TableStruct,
    MethodTable,
    Extern,
}

/// Tables of the API, with `static` before them or without.
#[derive(Clone, Copy, Debug, PartialEq, Eq)]
pub enum Table {
    Methods,
    Properties,
    Sequence,
    Mapping,
    TypeObject,
    Definition,
}

/// What an item without its `static` begins with: the first words of its kind, or a type.
#[derive(Clone, Copy, Debug, PartialEq, Eq)]
pub enum Opening {
    Plain(Plain),
    Table(Table),
    Typed,
}
