use cy_tree::{CKind, Signature};

/// A C function or method as expressions see it: the parameters are without `self`. The project's own.
#[derive(Drop)]
pub struct Callable {
    pub kind: CKind,
    pub signature: Signature,
}
