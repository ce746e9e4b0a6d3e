use crate::file::FileTree;
use crate::ty::{ClassId, Coercion, FnId, Ty};
use cy_base::{FileId, Text};
use indexmap::IndexMap;
use sqlite_items::Items;

/// The number of a scope: those of the modules first, by their numbers, and then those of the functions,
/// methods included, by module and index. The project's own.
pub type ScopeId = u32;

/// A node of a set: its file, and its number there. The project's own.
#[derive(Clone, Copy, Debug, PartialEq, Eq)]
pub struct NodeId {
    pub file: FileId,
    pub index: u32,
}

/// What a name means. Locals are numbered from 0, parameters first and then by the first token that makes the
/// name local; C variables of a module in text order. The project's own.
#[derive(Clone, Copy, Debug, PartialEq, Eq)]
pub enum NameKind {
    Local(u32),
    CVariable(u32),
    CFunction(FnId),
    Class(ClassId),
    Module(u32),
    Global,
}

/// A file of a set, with its name as the words give it.
#[derive(Drop)]
pub struct ParsedFile {
    pub name: Text,
    pub tree: FileTree,
}

/// The files of a module: the `.pyx`, and the `.pxd` where there is one.
#[derive(Drop)]
pub struct ModuleFiles {
    pub name: Text,
    pub pyx: FileId,
    pub pxd: Option<FileId>,
}

/// The files of a build, and its modules in the order of their numbers.
#[derive(Drop)]
pub struct SourceSet {
    pub files: Items<ParsedFile>,
    pub order: Items<ModuleFiles>,
}

/// The names that a scope declares, each with what it means.
#[derive(Drop)]
pub struct Scope {
    pub module: u32,
    pub names: IndexMap<Vec<u8>, NameKind>,
}

/// A set with its scopes in the order of their numbers.
#[derive(Drop)]
pub struct NamedSet {
    pub set: SourceSet,
    pub scopes: Items<Scope>,
}

/// What is known of a node: what its name means, where it is a name; its static type, where it is an expression,
/// else `Void`; its coercion, where its value meets a declared place; whether it is a place without the lock, which
/// is false until the rules on the lock are judged. `how` is None for a literal that becomes a constant and where a
/// value meets a target: each target has its own coercion.
#[derive(Clone, Copy, Debug, PartialEq, Eq)]
pub struct NodeInfo {
    pub name: Option<NameKind>,
    pub ty: Ty,
    pub how: Option<Coercion>,
    pub free: bool,
}

/// A set with what is known of its nodes, by file and number.
#[derive(Drop)]
pub struct TypedSet {
    pub named: NamedSet,
    pub nodes: Items<Items<NodeInfo>>,
}
