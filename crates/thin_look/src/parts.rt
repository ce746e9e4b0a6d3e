//! Files with the tables of their functions, where functions stand, and functions that were entered.
ghost use Rattle.std.specs.Prelude.{◌≡◌, IfOk, reverse};

use cy_base::OutOfMemory;
use sqlite_items::Items;
use std::alloc::Global;
use std::marker::Model;
use thin_state::{CFile, CItem, Doing, Entered, Obj};
use thin_tables::{Cells, LinkedItem};

/// Where a function stands: the number of its file, and that of its item.
#[derive(Clone, Copy, Debug, PartialEq, Eq)]
pub struct Standing {
    pub file: usize,
    pub item: usize,
}

/// The heads that are looked for.
#[derive(Clone, Copy, Debug, PartialEq, Eq)]
pub enum Wanted {
    Plain(u32, u32),
    Wrapper(u32, u32),
    Initializer,
}

/// A function that was entered, with the place of its next line.
#[derive(Drop)]
pub struct Activation {
    pub file: usize,
    pub item: usize,
    pub line: usize,
    pub variables: Cells,
    pub own: Items<Obj>,
    pub lent: Items<Obj>,
    pub entered: Entered,
    pub doing: Doing,
    pub lock: bool,
}

/// A file with the tables of its functions. Contracts see the file.
#[derive(Drop)]
pub struct LinkedFile {
    items: Vec<LinkedItem>,
}

impl Model for LinkedFile {
    ghost use Rattle.thin_state.specs.declared.tree.CFile.{CFile};

    ghost Value = { CFile };

    ghost view = { λ it. record { items = it.items.items } };
}

/// The items, the last first.
pub fn turned<T: Drop>(alloc: Global, items: Items<T>) -> Result<Items<T>, OutOfMemory>
    ensures { IfOk result (λ l. l ≡ reverse items) }
{
    let mut items = items;
    let mut turned = Items::new(alloc);
    while let Some(item) = items.pop() {
        turned.push(item)?;
    }
    Ok(turned)
}

// The items with their tables, the last first.
fn linked_back(alloc: Global, items: Items<CItem>) -> Result<Vec<LinkedItem>, OutOfMemory>
    ensures { IfOk result (λ v. v.items ≡ reverse items) }
{
    let mut items = items;
    let mut linked = Vec::new(alloc);
    while let Some(item) = items.pop() {
        linked.push(LinkedItem::new(alloc, item)?)?;
    }
    Ok(linked)
}

impl LinkedFile {
    #[tactic(auto, using(crate::proofs::Bodies::turns))]
    pub fn new(alloc: Global, file: CFile) -> Result<LinkedFile, OutOfMemory>
        ensures { IfOk result (λ it. it ≡ file) }
    {
        let back = turned(alloc, file.items)?;
        Ok(LinkedFile {
            items: linked_back(alloc, back)?,
        })
    }

    pub fn items(&self) -> &[LinkedItem]
        ensures { result.now ≡ self.now.items }
    {
        self.items.as_slice()
    }
}
