//! What an instance holds.
ghost use Rattle.std.specs.Prelude.{◌≡◌, ◌<◌, length, slice_get, OnSome};
ghost use Rattle.std.specs.Option.{option_copied};
ghost use Rattle.c_value.specs.Parts.{IsPart, field_put, kind_among, part_of, put_field, put_part};

use crate::names::same_number;
use crate::values::converted;
use crate::{Kind, Part, Value};
use c_tree::Numbered;
use sqlite_items::Items;
use std::alloc::Global;
use std::marker::Model;

/// What an instance holds, by the structs of its classes. Contracts see the list.
#[derive(Drop)]
pub struct Parts {
    parts: Vec<Part>,
}

impl Model for Parts {
    ghost use Rattle.std.specs.Prelude.{List};
    ghost use Rattle.c_value.specs.declared.space.Part.{Part};

    ghost Value = { List Part };

    ghost view = { λ it. it.parts.items };
}

fn kind_at(fields: &[(Kind, Value)], number: usize) -> Option<Kind>
    ensures kind { result ≡ kind_among (slice_get fields.now number) }
    ensures within { OnSome result (number < length fields.now) }
{
    match fields.get(number) {
        Some(field) => Some(field.0),
        None => None,
    }
}

// A value that goes nowhere.
fn let_go(_value: Value) {}

#[tactic(auto, using(crate::proofs::Putting::puts))]
fn put_field(fields: &mut Items<(Kind, Value)>, number: u32, value: Value)
    ensures { fields.new ≡ put_field fields.old number value }
{
    match kind_at(fields.as_slice(), number as usize) {
        Some(kind) => fields.set(number as usize, (kind, converted(kind, value))),
        None => let_go(value),
    }
}

fn put_in(part: &mut Part, number: u32, value: Value)
    ensures { part.new ≡ field_put number value part.old }
{
    put_field(&mut part.fields, number, value);
}

fn place_of(parts: &[Part], class: Numbered) -> Option<usize>
    ensures { IsPart parts.now class result }
{
    for (at, part) in parts.iter().enumerate() {
        if same_number(part.class, class) {
            return Some(at);
        }
    }
    None
}

impl Parts {
    /// These parts.
    pub fn from_vec(parts: Vec<Part>) -> Parts
        ensures { result ≡ parts.items }
    {
        Parts { parts }
    }

    /// All parts.
    pub fn as_slice(&self) -> &[Part]
        ensures { result.now ≡ self.now }
    {
        self.parts.as_slice()
    }

    /// The fields of the struct of a class.
    pub fn find(&self, class: Numbered) -> Option<&Items<(Kind, Value)>>
        ensures { option_copied result ≡ part_of self.now class }
    {
        for part in self.parts.as_slice() {
            if same_number(part.class, class) {
                return Some(&part.fields);
            }
        }
        None
    }

    /// Gives a field of the struct of a class a value, as it is where it meets the field's type. What isn't there is left
    /// out.
    pub fn put(&mut self, class: Numbered, number: u32, value: Value)
        ensures { self.new ≡ put_part self.old class number value }
    {
        match place_of(self.parts.as_slice(), class) {
            Some(at) => put_in(&mut self.parts[at], number, value),
            None => let_go(value),
        }
    }
}
