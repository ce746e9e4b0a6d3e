use cy_tree::{FnId, Ty};

/// What a member of a class is: a C field of a type, or a method that C can call. The project's own.
#[derive(Clone, Copy, Debug, PartialEq, Eq)]
pub enum MemberSaid {
    Field(Ty),
    Method(FnId),
}
