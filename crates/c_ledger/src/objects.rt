//! Lists of objects.
ghost use Rattle.std.specs.Prelude.{◌≡◌};
ghost use Rattle.c_ledger.specs.Ledger.{IsPlace, counts, has};

use api_model::Obj;

/// Whether the object is among them.
pub fn has(objects: &[Obj], object: &Obj) -> bool
    ensures { result ≡ has objects.now object.now }
{
    for other in objects {
        if other.is(object) {
            return true;
        }
    }
    false
}

/// How many of them are the object.
pub fn counts(objects: &[Obj], object: &Obj) -> usize
    ensures { result ≡ counts objects.now object.now }
{
    let mut count = 0;
    for other in objects {
        if other.is(object) {
            count += 1;
        }
    }
    count
}

/// Where the first of them is that is the object.
pub fn place_of(objects: &[Obj], object: &Obj) -> Option<usize>
    ensures { IsPlace objects.now object.now result }
{
    for (at, other) in objects.iter().enumerate() {
        if other.is(object) {
            return Some(at);
        }
    }
    None
}
