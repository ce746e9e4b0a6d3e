//! Objects, and lists of them.
ghost use Rattle.std.specs.Prelude.{◌≡◌};
ghost use Rattle.thin_state.specs.Objects.{same_obj, permanent};
ghost use Rattle.thin_state.specs.State.{counts, has, lose};
ghost use Rattle.thin_ledger.specs.Ledger.{IsPlace};

use sqlite_items::Items;
use thin_state::Obj;

/// Whether two objects are one.
pub fn same_obj(x: &Obj, y: &Obj) -> bool
    ensures { result ≡ same_obj x.now y.now }
{
    match (x, y) {
        (Obj::Foreign(k), Obj::Foreign(j)) => *k == *j,
        (Obj::Inst(k), Obj::Inst(j)) => *k == *j,
        (Obj::View(k), Obj::View(j)) => *k == *j,
        (Obj::Class(a), Obj::Class(b)) => {
            a.module.as_slice() == b.module.as_slice() && a.class.as_slice() == b.class.as_slice()
        }
        (Obj::ExceptionType(a), Obj::ExceptionType(b)) => *a as u8 == *b as u8,
        (Obj::NoneNode, Obj::NoneNode) => true,
        (Obj::TrueNode, Obj::TrueNode) => true,
        (Obj::FalseNode, Obj::FalseNode) => true,
        _ => false,
    }
}

/// Whether the object is held everywhere.
pub fn is_permanent(object: &Obj) -> bool
    ensures { result ≡ permanent object.now }
{
    match object {
        Obj::NoneNode | Obj::TrueNode | Obj::FalseNode => true,
        Obj::ExceptionType(_) => true,
        Obj::Class(_) => true,
        Obj::Foreign(_) | Obj::Inst(_) | Obj::View(_) => false,
    }
}

/// Whether the object is among them.
pub fn has(objects: &[Obj], object: &Obj) -> bool
    ensures { result ≡ has objects.now object.now }
{
    for other in objects {
        if same_obj(other, object) {
            return true;
        }
    }
    false
}

/// How many of them are the object.
pub fn counts(objects: &[Obj], object: &Obj) -> usize
    ensures { result ≡ counts objects.now object.now }
{
    let mut count = 0;
    for other in objects {
        if same_obj(other, object) {
            count += 1;
        }
    }
    count
}

/// Where the first of them is that is the object.
pub fn place_of(objects: &[Obj], object: &Obj) -> Option<usize>
    ensures { IsPlace objects.now object.now result }
{
    for (at, other) in objects.iter().enumerate() {
        if same_obj(other, object) {
            return Some(at);
        }
    }
    None
}

/// Takes away the first that is the object, and says whether there was one.
pub fn lose(objects: &mut Items<Obj>, object: &Obj) -> bool
    ensures result { result ≡ has objects.old object.now }
    ensures objects { objects.new ≡ lose objects.old object.now }
{
    match place_of(objects.as_slice(), object) {
        None => false,
        Some(at) => {
            objects.remove(at);
            true
        }
    }
}
