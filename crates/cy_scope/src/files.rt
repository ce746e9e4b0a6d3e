//! What the files of a module hold.
ghost use Rattle.std.specs.Prelude.{◌≡◌, Some};
ghost use Rattle.cy_tree.specs.Functions.{tops_of};
ghost use Rattle.cy_scope.specs.Files.{items, items_by, items_of, tops};

use cy_base::FileId;
use cy_tree::{Content, ModuleFiles, PxdItem, SourceSet, Top};
use sqlite_items::at;

fn tops_in(content: &Content) -> &[Top]
    ensures { result.now ≡ tops_of content.now }
{
    match content {
        Content::Implementation(tops) => tops.as_slice(),
        Content::Definition(_) => &[],
    }
}

fn items_in(content: &Content) -> &[PxdItem]
    ensures { result.now ≡ items_of content.now }
{
    match content {
        Content::Implementation(_) => &[],
        Content::Definition(items) => items.as_slice(),
    }
}

/// What the `.pyx` of a module holds.
pub fn tops<'a>(set: &'a SourceSet, files: &ModuleFiles) -> &'a [Top]
    ensures { result.now ≡ tops set.now files.now }
{
    match at(set.files.as_slice(), files.pyx as usize) {
        Some(file) => tops_in(file.tree.content()),
        None => &[],
    }
}

fn items_by(set: &SourceSet, file: FileId) -> &[PxdItem]
    ensures { result.now ≡ items_by set.now (Some file) }
{
    match at(set.files.as_slice(), file as usize) {
        Some(file) => items_in(file.tree.content()),
        None => &[],
    }
}

/// What the `.pxd` of a module holds: nothing where there is none.
pub fn items<'a>(set: &'a SourceSet, files: &ModuleFiles) -> &'a [PxdItem]
    ensures { result.now ≡ items set.now files.now }
{
    match files.pxd {
        Some(file) => items_by(set, file),
        None => &[],
    }
}
