//! The cutting of tokens into items.
ghost use Rattle.std.specs.Prelude.{◌≡◌, ◌++◌, [], ◌∷◌, List, IfOk};
ghost use Rattle.c_token.specs.CTokens.{CToken};
ghost use Rattle.c_token.specs.Cutting.{c_items};
ghost use Rattle.c_cut.specs.Shown.{item_shown, items_shown, left};

use crate::place::{Place, place_after, role_of};
use crate::token::Token;
use cy_base::OutOfMemory;
use sqlite_items::Items;
use std::alloc::Global;

// The items with what is left at the end.
fn with_last(
    items: Items<Items<Token>>,
    item: Items<Token>,
) -> Result<Items<Items<Token>>, OutOfMemory>
    ensures { IfOk result (λ all. all ≡ items ++ left item) }
{
    let mut items = items;
    if !item.is_empty() {
        items.push(item)?;
    }
    Ok(items)
}

/// The items of a file's tokens: an item ends at the end of a preprocessor line, at a `;` outside braces, or at the `}`
/// of outermost braces that were opened right after a `)`; what is left at the end is a last item. The project's own
/// profile of C (ISO/IEC 9899:2011 6.9).
pub fn cut(alloc: Global, tokens: Vec<Token>) -> Result<Items<Items<Token>>, OutOfMemory>
    ensures { IfOk result (λ items. items_shown items ≡ c_items (item_shown tokens.items)) }
{
    let mut items = Items::new(alloc);
    let mut item = Items::new(alloc);
    let mut place = Place::Outside(false);
    for token in tokens {
        let next = place_after(role_of(&token), place)?;
        item.push(token)?;
        match next {
            Some(next) => place = next,
            None => {
                items.push(item)?;
                item = Items::new(alloc);
                place = Place::Outside(false);
            }
        }
    }
    with_last(items, item)
}
