//! The members of type objects that may be missing.
use c_tree::Numbered;

/// The base and the functions of a type object.
#[derive(Clone, Copy, Debug, PartialEq, Eq)]
pub struct Functions {
    pub base: Option<Numbered>,
    pub new: Option<Numbered>,
    pub init: Option<Numbered>,
    pub dealloc: Option<Numbered>,
}

/// The tables of a type object.
#[derive(Clone, Copy, Debug, PartialEq, Eq)]
pub struct Tables {
    pub methods: Option<Numbered>,
    pub properties: Option<Numbered>,
    pub sequence: Option<Numbered>,
    pub mapping: Option<Numbered>,
}
