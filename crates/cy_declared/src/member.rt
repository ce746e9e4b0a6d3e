use cy_tree::{FnId, Ty};

/// What a member is that a class declares: a field of a type, a method that C can call, or a `def` method. The
/// project's own.
#[derive(Clone, Copy, Debug, PartialEq, Eq)]
pub enum OwnMember {
    Field(Ty),
    Method(FnId),
    Def,
}

/// A member with its name. The project's own.
#[derive(Clone, Copy)]
pub struct MemberRef<'a> {
    pub name: &'a [u8],
    pub member: OwnMember,
}
