ghost use Rattle.std.specs.Prelude.{◌≡◌, [], ◌∷◌, ◌++◌, IfOk, OnOk, length, not};
ghost use Rattle.name_table.specs.Entries.{firsts, is_among, kind_among, numbered, once, texts, with_entry, with_local};
ghost use Rattle.name_table.specs.EntriesShown.{entries_shown, slices};
ghost use Rattle.name_table.specs.Shown.{shown};

use crate::entry::{NamedEntry, number};
use cy_base::OutOfMemory;
use cy_tree::NameKind;
use indexmap::IndexMap;
use std::alloc::Global;
use std::marker::Model;

/// Names in the order in which they were added, each once, with what they mean. The project's own.
#[derive(Drop)]
pub struct NameTable {
    map: IndexMap<Vec<u8>, NameKind>,
}

impl Model for NameTable {
    ghost use Rattle.std.specs.Prelude.{List};
    ghost use Rattle.name_table.specs.Entries.{Entry};
    ghost use Rattle.name_table.specs.Shown.{shown};

    ghost Value = { List Entry };

    ghost view = { λ t. shown t.map.entries };
}

/// What a name means in the map of a scope; None where it isn't there.
pub fn find(map: &IndexMap<Vec<u8>, NameKind>, name: &[u8]) -> Option<NameKind>
    ensures { result ≡ kind_among (shown map.now.entries) name.now }
{
    map.get(name).copied()
}

impl NameTable {
    pub fn new(alloc: Global) -> NameTable
        ensures { result ≡ [] }
    {
        NameTable {
            map: IndexMap::new(alloc),
        }
    }

    pub fn len(&self) -> usize
        ensures { result ≡ length self.now }
    {
        self.map.len()
    }

    /// What a name means; None where it isn't there.
    pub fn get(&self, name: &[u8]) -> Option<NameKind>
        ensures { result ≡ kind_among self.now name.now }
    {
        find(&self.map, name)
    }

    pub fn has(&self, name: &[u8]) -> bool
        ensures { result ≡ is_among (texts self.now) name.now }
    {
        self.get(name).is_some()
    }

    /// Adds a name, unless it is there. Answers whether it was new.
    pub fn add(&mut self, alloc: Global, name: &[u8], kind: NameKind) -> Result<bool, OutOfMemory>
        ensures entries { OnOk result (self.new ≡ with_entry self.old (name.now, kind)) }
        ensures new { IfOk result (λ new. new ≡ not (is_among (texts self.old) name.now)) }
    {
        if self.has(name) {
            return Ok(false);
        }
        let key = Vec::from_slice(alloc, name)?;
        self.map.insert(key, kind)?;
        Ok(true)
    }

    // Adds a name as a local, unless it is there.
    fn add_local(&mut self, alloc: Global, name: &[u8]) -> Result<(), OutOfMemory>
        ensures { OnOk result (self.new ≡ with_local self.old name.now) }
    {
        let next = number(self.len())?;
        self.add(alloc, name, NameKind::Local(next))?;
        Ok(())
    }

    /// The table of entries: each name once, with what its first entry says.
    pub fn from_entries(alloc: Global, entries: &[NamedEntry<'_>]) -> Result<NameTable, OutOfMemory>
        ensures { IfOk result (λ table. table ≡ firsts [] (entries_shown entries.now)) }
    {
        let mut table = NameTable::new(alloc);
        for entry in entries {
            table.add(alloc, entry.name, entry.kind)?;
        }
        Ok(table)
    }

    /// The table of locals, numbered in the order in which they come first.
    pub fn of_locals(alloc: Global, names: &[&[u8]]) -> Result<NameTable, OutOfMemory>
        ensures { IfOk result (λ table. table ≡ numbered 0 (once [] (slices names.now))) }
    {
        let mut table = NameTable::new(alloc);
        for name in names {
            table.add_local(alloc, *name)?;
        }
        Ok(table)
    }

    /// The names as the map of a scope.
    pub fn into_map(self) -> IndexMap<Vec<u8>, NameKind>
        ensures { shown result.entries ≡ self }
    {
        let NameTable { map } = self;
        map
    }
}
