//! The base classes of a class, by the declarations of a set.
ghost use Rattle.std.specs.Prelude.{◌≡◌, ◌-◌};
ghost use Rattle.std.specs.Option.{option_copied};
ghost use Rattle.cy_tree.specs.Bases.{as_class_id, base_of, class_of, is_base, kind_of, kind_of_base, kind_through};

use crate::same::same_class;
use cy_tree::{Class, ClassBase, ClassId, Ident, NameKind, NamedSet};
use sqlite_items::at;

fn class_of(set: &NamedSet, id: ClassId) -> Option<&Class>
    ensures { option_copied result ≡ class_of set.entry.now id }
{
    let files = at(set.set.order.as_slice(), id.module as usize)?;
    let file = at(set.set.files.as_slice(), files.pyx as usize)?;
    file.tree.class(id.index as usize)
}

/// What a name means among those that a module declares.
pub fn kind_of(set: &NamedSet, number: u32, name: &Ident) -> Option<NameKind>
    ensures { result ≡ kind_of set.now number name.now }
{
    let scope = at(set.scopes.as_slice(), number as usize)?;
    scope.names.get(name.text.bytes()).copied()
}

fn kind_through(set: &NamedSet, outer: Option<NameKind>, name: &Ident) -> Option<NameKind>
    ensures { result ≡ kind_through set.now outer name.now }
{
    match outer {
        Some(NameKind::Module(number)) => kind_of(set, number, name),
        _ => None,
    }
}

fn kind_of_base(set: &NamedSet, number: u32, base: Option<&ClassBase>) -> Option<NameKind>
    ensures { result ≡ kind_of_base set.now number (option_copied base.entry) }
{
    match base {
        None => None,
        Some(ClassBase::Named(name)) => kind_of(set, number, name),
        Some(ClassBase::Member(outer, name)) => kind_through(
            set,
            kind_of(set, number, outer),
            name,
        ),
    }
}

/// The class that is meant; None where something else is.
pub fn as_class_id(kind: Option<NameKind>) -> Option<ClassId>
    ensures { result ≡ as_class_id kind }
{
    match kind {
        Some(NameKind::Class(id)) => Some(id),
        _ => None,
    }
}

// The class that a base's name means in a module; None where it means none.
fn base_named(set: &NamedSet, number: u32, base: Option<&ClassBase>) -> Option<ClassId>
    ensures { result ≡ as_class_id (kind_of_base set.now number (option_copied base.entry)) }
{
    as_class_id(kind_of_base(set, number, base))
}

/// The class that a name means among those that a module declares; None where it means none.
pub fn class_declared(set: &NamedSet, number: u32, name: &Ident) -> Option<ClassId>
    ensures { result ≡ as_class_id (kind_of set.now number name.now) }
{
    as_class_id(kind_of(set, number, name))
}

/// One step from a class to its base (Cython documentation, "Extension Types", Subclassing).
pub fn base_of(set: &NamedSet, id: ClassId) -> Option<ClassId>
    ensures { result ≡ base_of set.now id }
{
    let class = class_of(set, id)?;
    base_named(set, id.module, class.base.as_ref())
}

/// Whether a class is a base class of another: 1 to 31 steps lead to it (Cython documentation, "Extension Types").
pub fn is_base(set: &NamedSet, base: ClassId, class: ClassId) -> bool
    ensures { result ≡ is_base set.now base class }
{
    let mut found = base_of(set, class);
    for _step in 0..31usize {
        match found {
            None => return false,
            Some(above) => {
                if same_class(base, above) {
                    return true;
                }
                found = base_of(set, above);
            }
        }
    }
    false
}
