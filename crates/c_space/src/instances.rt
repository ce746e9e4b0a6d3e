//! Instances.
ghost use Rattle.std.specs.Prelude.{◌≡◌, ◌∷◌, [], ◌++◌, OnOk, IsTrue, ◌↔◌, length, slice_get};
ghost use Rattle.std.specs.Option.{option_copied};
ghost use Rattle.c_space.specs.Instances.{change_at, freed, stored_in, with_table};

use c_tree::Numbered;
use c_value::{Instance, Value};
use cy_base::OutOfMemory;
use std::alloc::Global;
use std::marker::Model;

/// The instances that were made, by their numbers from 0. Contracts see the list.
#[derive(Drop)]
pub struct Instances {
    instances: Vec<Instance>,
}

impl Model for Instances {
    ghost use Rattle.std.specs.Prelude.{List};
    ghost use Rattle.c_value.specs.declared.space.Instance.{Instance};

    ghost Value = { List Instance };

    ghost view = { λ it. it.instances.items };
}

// A value that goes nowhere.
fn let_go(_value: Value) {}

fn store(instance: &mut Instance, class: Numbered, number: u32, value: Value)
    ensures { instance.new ≡ stored_in class number value instance.old }
{
    instance.parts.put(class, number, value);
}

impl Instances {
    /// No instance.
    pub fn new(alloc: Global) -> Instances
        ensures { result ≡ [] }
    {
        Instances {
            instances: Vec::new(alloc),
        }
    }

    /// How many were made.
    pub fn len(&self) -> usize
        ensures { result ≡ length self.now }
    {
        self.instances.len()
    }

    /// Whether none was made.
    pub fn is_empty(&self) -> bool
        ensures { IsTrue result ↔ (self.now ≡ []) }
    {
        self.instances.is_empty()
    }

    /// An instance by its number.
    pub fn get(&self, number: usize) -> Option<&Instance>
        ensures { option_copied result ≡ slice_get self.now number }
    {
        self.instances.get(number)
    }

    /// All instances.
    pub fn as_slice(&self) -> &[Instance]
        ensures { result.now ≡ self.now }
    {
        self.instances.as_slice()
    }

    /// One more.
    pub fn push(&mut self, instance: Instance) -> Result<(), OutOfMemory>
        ensures { OnOk result (self.new ≡ self.old ++ instance ∷ []) }
    {
        self.instances.push(instance)?;
        Ok(())
    }

    /// Gives a field of an instance a value. What isn't there is left out.
    pub fn store(&mut self, number: usize, class: Numbered, field: u32, value: Value)
        ensures { self.new ≡ change_at (stored_in class field value) number self.old }
    {
        if number < self.instances.len() {
            store(&mut self.instances[number], class, field, value);
        } else {
            let_go(value);
        }
    }

    /// Gives an instance a method table.
    pub fn set_table(&mut self, number: usize, class: Numbered)
        ensures { self.new ≡ change_at (with_table class) number self.old }
    {
        if number < self.instances.len() {
            self.instances[number].table = Some(class);
        }
    }

    /// Frees an instance.
    pub fn free(&mut self, number: usize)
        ensures { self.new ≡ change_at freed number self.old }
    {
        if number < self.instances.len() {
            self.instances[number].alive = false;
        }
    }
}
