//! Reading a text: its tokens, cut into items, each the tree whose spelling it is.
ghost use Rattle.std.specs.Prelude.{◌≡◌, ◌<◌, ◌≤◌, ◌^◌, length, List, Bool, IfOk};
ghost use Rattle.std.specs.List.{AllByRecursion};
ghost use Rattle.c_cut.specs.Shown.{items_shown};
ghost use Rattle.c_read.specs.Answers.{file_answer, Answers, IsAnswer};
ghost use Rattle.c_tree.specs.declared.item.CItem.{CItem as ItemTree};
ghost use Rattle.c_tree.specs.Forms.{IsFile, IsItem};
ghost use Rattle.c_tree.specs.Reading.{c_reading, IsReading};

use crate::stop::CStop;
use c_cut::{Token, cut};
use c_item::item;
use c_lex::tokens;
use c_tree::{CFile, CItem};
use sqlite_items::Items;
use std::alloc::Global;

// The trees of items.
fn trees(alloc: Global, items: &[Items<Token>]) -> Result<Items<CItem>, CStop>
    requires few { length items.now ≤ 2 ^ 32 }
    ensures read { IsAnswer (IsReading (items_shown items.now)) result }
    ensures every { (all : List ItemTree) (whole : Bool) → IsReading (items_shown items.now) all whole → Answers all whole result }
    ensures form { IfOk result (λ all. AllByRecursion IsItem all) }
{
    let mut trees = Vec::new(alloc);
    let mut rest = items;
    while let Some((first, more)) = rest.split_first() {
        let Some(tree) = item(alloc, first.as_slice())? else {
            return Err(CStop::Refused {
                items: trees.len() as u32,
            });
        };
        trees.push(tree)?;
        rest = more;
    }
    Ok(Items::from_vec(trees))
}

/// Reads a C text of fewer than 2^32 bytes: each of its items is the tree whose spelling it is. Where memory isn't wanting,
/// the text has no other reading. Refused says how many items were read before what is neither the end nor an item (ISO/IEC
/// 9899:2011 6.4, 6.9).
pub fn read_c(alloc: Global, bytes: &[u8]) -> Result<CFile, CStop>
    requires { length bytes.now < 2 ^ 32 }
    ensures read { IsAnswer (c_reading bytes.now) (file_answer result) }
    ensures every { (all : List ItemTree) (whole : Bool) → c_reading bytes.now all whole → Answers all whole (file_answer result) }
    ensures form { IfOk result IsFile }
{
    let tokens = tokens(alloc, bytes)?;
    let items = cut(alloc, tokens)?;
    match trees(alloc, items.as_slice()) {
        Ok(items) => Ok(CFile { items }),
        Err(stop) => Err(stop),
    }
}
