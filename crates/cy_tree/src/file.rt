ghost use Rattle.std.specs.Prelude.{◌≡◌, ◌<◌, ◌≤◌, ◌↔◌, ◌++◌, List, None, IfOk, IfSome, OnOk, length, slice_get};
ghost use Rattle.std.specs.Option.{option_copied};
ghost use Rattle.cy_tree.specs.Nodes.{FileNode, Numbered, nodes};
ghost use Rattle.cy_tree.specs.Links.{AreLinks, IsLinked};
ghost use Rattle.cy_tree.specs.Seen.{seen};
ghost use Rattle.cy_tree.specs.Functions.{as_class, class_places, classes, tops_of};
ghost use Rattle.cy_tree.specs.declared.file.Link.{Link};

use crate::content::Content;
use crate::decl::{Class, Top};
use crate::node::Node;
use cy_base::OutOfMemory;
use sqlite_items::at;
use std::alloc::Global;
use std::marker::Model;

/// The node around a node, by its number, and the node's place there.
#[derive(Clone, Copy, Debug, PartialEq, Eq)]
struct Link {
    outer: usize,
    place: usize,
}

/// The tree of a file. Contracts see it as what the file holds. The project's own.
#[derive(Drop)]
pub struct FileTree {
    content: Content,
    // For each node but the first, so that a node is found from its number by going outwards.
    links: Vec<Link>,
    // For each class its place among the file's items.
    classes: Vec<usize>,
}

impl Model for FileTree {
    ghost use Rattle.std.specs.Prelude.{◌≡◌};
    ghost use Rattle.cy_tree.specs.Nodes.{FileNode};
    ghost use Rattle.cy_tree.specs.Links.{AreLinks};
    ghost use Rattle.cy_tree.specs.Functions.{class_places, tops_of};
    ghost use Rattle.cy_tree.specs.declared.content.Content.{Content};
    ghost use Rattle.cy_tree.specs.contracts.expr.Expr as expr;
    ghost use Rattle.cy_tree.specs.contracts.stmt.Stmt as stmt;
    ghost use Rattle.cy_tree.specs.contracts.stmt.Suite as suite;
    ghost use Rattle.std.specs.Coded.{codes};

    ghost Value = { Content };

    ghost coded = { Prim.hlevel (codes, expr.the_row.coded, stmt.the_row.coded, suite.the_row.coded) };

    ghost view = { λ it. it.content };

    ghost invariant = { λ it. AreLinks 0 (FileNode it.content) it.links.items × (it.classes.items ≡ class_places 0 (tops_of it.content)) };
}

// Appends the links of the nodes inside `node`, whose number is that of the links so far.
fn link_inside(node: Node<'_>, links: &mut Vec<Link>) -> Result<(), OutOfMemory>
    ensures { OnOk result ((more : List Link) × (links.new.items ≡ links.old.items ++ more)
        × AreLinks (length links.old.items) (seen node.entry) more) }
{
    let outer = links.len();
    let mut place = 0;
    while let Some(child) = node.child(place) {
        links.push(Link { outer, place })?;
        link_inside(child, links)?;
        place += 1;
    }
    Ok(())
}

fn items_of(content: &Content) -> &[Top]
    ensures { result.now ≡ tops_of content.now }
{
    match content {
        Content::Implementation(tops) => tops.as_slice(),
        Content::Definition(_) => &[],
    }
}

fn class_places(alloc: Global, tops: &[Top]) -> Result<Vec<usize>, OutOfMemory>
    ensures { IfOk result (λ places. places.items ≡ class_places 0 tops.now) }
{
    let mut places = Vec::new(alloc);
    for (place, top) in tops.iter().enumerate() {
        if let Top::Class(_) = top {
            places.push(place)?;
        }
    }
    Ok(places)
}

fn as_class(top: Option<&Top>) -> Option<&Class>
    ensures { option_copied result ≡ as_class (option_copied top.entry) }
{
    match top {
        Some(Top::Class(class)) => Some(class),
        _ => None,
    }
}

impl FileTree {
    /// The tree of a file that holds this.
    pub fn new(alloc: Global, content: Content) -> Result<FileTree, OutOfMemory>
        ensures { IfOk result (λ tree. tree ≡ content) }
    {
        let mut links = Vec::new(alloc);
        link_inside(Node::File(&content), &mut links)?;
        let classes = class_places(alloc, items_of(&content))?;
        Ok(FileTree {
            content,
            links,
            classes,
        })
    }

    /// What the file holds.
    pub fn content(&self) -> &Content
        ensures { result.now ≡ self.now }
    {
        &self.content
    }

    /// The class of a number, which is that among the file's classes in text order. None where there are not so
    /// many classes.
    #[tactic(auto, using(crate::proofs::Places::class_found, crate::proofs::Places::class_missing))]
    pub fn class(&self, number: usize) -> Option<&Class>
        ensures { option_copied result ≡ slice_get (classes (tops_of self.entry.now)) number }
    {
        match at(self.classes.as_slice(), number) {
            None => None,
            Some(place) => as_class(at(items_of(&self.content), *place)),
        }
    }

    /// How many nodes the file has.
    pub fn nodes(&self) -> usize
        ensures { result ≡ nodes (FileNode self.now) }
    {
        self.links.len() + 1
    }

    fn link(&self, number: usize) -> Option<Link>
        requires { 0 < number }
        ensures found { IfSome result (λ link. IsLinked 0 (FileNode self.now) number link) }
        ensures none { (result ≡ None) ↔ (nodes (FileNode self.now) ≤ number) }
    {
        at(self.links.as_slice(), number - 1).copied()
    }

    /// The node of a number, which is found by going outwards from it: a step for each node around it.
    /// None where there are not so many nodes.
    pub fn node(&self, number: usize) -> Option<Node<'_>>
        ensures found { IfSome result (λ node. Numbered (FileNode self.entry.now) number (seen node)) }
        ensures none { (result ≡ None) ↔ (nodes (FileNode self.entry.now) ≤ number) }
    {
        if number == 0 {
            return Some(Node::File(&self.content));
        }
        let link = self.link(number)?;
        self.node(link.outer)?.child(link.place)
    }
}
