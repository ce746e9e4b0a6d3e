use crate::decl::{PxdItem, Top};
use sqlite_items::Items;

/// What a file holds: the items of a `.pyx` or of a `.pxd`, in text order.
#[derive(Drop)]
pub enum Content {
    Implementation(Items<Top>),
    Definition(Items<PxdItem>),
}
