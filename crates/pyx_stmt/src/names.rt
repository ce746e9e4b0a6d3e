//! Names, imported names, and names that may stand behind a type.
ghost use Rattle.std.specs.Prelude.{◌≡◌, true, ◌≢◌, ◌∷◌, [], Some, None, false, IfOk};
ghost use Rattle.forms.specs.Readers.{and_then, did, sees, read_both, read_one, read_or, read_nothing, read_many};
ghost use Rattle.forms.specs.Lists.{second, pair, itself};
ghost use Rattle.token_class.specs.Sets.{of};
ghost use Rattle.expr_grammar.specs.Words as set;
ghost use Rattle.expr_grammar.specs.Nodes.{ident};
ghost use Rattle.expr_grammar.specs.Reading as expr_spec;
ghost use Rattle.decl_grammar.specs.Words as words;
ghost use Rattle.decl_grammar.specs.Reading as spec;
ghost use Rattle.decl_grammar.specs.Factored as factored;
ghost use Rattle.token_input.specs.Reads.{Reads};

use crate::sets::StmtSet;
use cy_tree::{Dim, Ident, ImportItem, TypeName, TypeNode};
use sqlite_items::Items;
use std::alloc::Global;
use token_input::{ExprSet, Halt, Input, joined, member, type_node, view};

/// Reads a comma and a name.
#[tactic(auto, unfolding(decl_grammar::specs::Reading::read_next_name, forms::specs::Readers::read_both))]
pub fn next_name(alloc: Global, input: &mut Input<'_>) -> Result<Ident, Halt>
    ensures { Reads (spec.read_next_name input.old) result input.new }
{
    input.expect(ExprSet::Comma)?;
    input.ident(alloc, ExprSet::Name)
}

/// Reads the further names of a list.
pub fn more_names(alloc: Global, input: &mut Input<'_>) -> Result<Items<Ident>, Halt>
    ensures { Reads (read_many (of set.is_comma) spec.read_next_name input.old) result input.new }
{
    let mut found = Items::new(alloc);
    for _turn in 0..input.len() {
        if !input.sees(ExprSet::Comma) {
            return Ok(found);
        }
        let item = next_name(alloc, input)?;
        found.push(item)?;
    }
    Ok(found)
}

/// Reads a list of names.
#[tactic(auto, unfolding(decl_grammar::specs::Reading::read_names, forms::specs::Readers::read_both))]
pub fn name_list(alloc: Global, input: &mut Input<'_>) -> Result<Items<Ident>, Halt>
    ensures { Reads (spec.read_names input.old) result input.new }
{
    let first = input.ident(alloc, ExprSet::Name)?;
    let more = more_names(alloc, input)?;
    Ok(joined(alloc, first, more)?)
}

#[tactic(auto, unfolding(forms::specs::Readers::read_both))]
fn behind_as(alloc: Global, input: &mut Input<'_>) -> Result<Ident, Halt>
    ensures { Reads (read_both second (read_one (of words.is_as) itself) spec.read_name input.old) result input.new }
{
    input.expect(StmtSet::As)?;
    input.ident(alloc, ExprSet::Name)
}

/// Reads a name behind `as`, if it stands there.
#[tactic(auto, unfolding(decl_grammar::specs::Reading::read_alias, forms::specs::Readers::read_both, forms::specs::Readers::read_or, forms::specs::Readers::read_nothing))]
pub fn alias(alloc: Global, input: &mut Input<'_>) -> Result<Option<Ident>, Halt>
    ensures { Reads (spec.read_alias input.old) result input.new }
{
    if !input.sees(StmtSet::As) {
        return Ok(None);
    }
    let name = behind_as(alloc, input)?;
    Ok(Some(name))
}

/// Reads `NAME` or `NAME as NAME`.
#[tactic(auto, unfolding(decl_grammar::specs::Reading::read_item, forms::specs::Readers::read_both))]
pub fn import_item(alloc: Global, input: &mut Input<'_>) -> Result<ImportItem, Halt>
    ensures { Reads (spec.read_item input.old) result input.new }
{
    let name = input.ident(alloc, ExprSet::Name)?;
    let alias = alias(alloc, input)?;
    Ok(ImportItem { name, alias })
}

#[tactic(auto, unfolding(forms::specs::Readers::read_both))]
fn next_item(alloc: Global, input: &mut Input<'_>) -> Result<ImportItem, Halt>
    ensures { Reads (read_both second (read_one (of set.is_comma) itself) spec.read_item input.old) result input.new }
{
    input.expect(ExprSet::Comma)?;
    import_item(alloc, input)
}

fn more_items(alloc: Global, input: &mut Input<'_>) -> Result<Items<ImportItem>, Halt>
    ensures { Reads (read_many (of set.is_comma) (read_both second (read_one (of set.is_comma) itself) spec.read_item) input.old) result input.new }
{
    let mut found = Items::new(alloc);
    for _turn in 0..input.len() {
        if !input.sees(ExprSet::Comma) {
            return Ok(found);
        }
        let item = next_item(alloc, input)?;
        found.push(item)?;
    }
    Ok(found)
}

/// Reads a list of imported names.
#[tactic(auto, unfolding(decl_grammar::specs::Reading::read_items, forms::specs::Readers::read_both))]
pub fn import_items(alloc: Global, input: &mut Input<'_>) -> Result<Items<ImportItem>, Halt>
    ensures { Reads (spec.read_items input.old) result input.new }
{
    let first = import_item(alloc, input)?;
    let more = more_items(alloc, input)?;
    Ok(joined(alloc, first, more)?)
}

// ---- [type] NAME

#[tactic(auto, unfolding(decl_grammar::specs::Reading::read_brackets, forms::specs::Readers::read_or, forms::specs::Readers::read_nothing))]
fn brackets(alloc: Global, input: &mut Input<'_>, room: usize) -> Result<Items<Dim>, Halt>
    ensures { Reads (spec.read_brackets room input.old) result input.new }
{
    if !input.sees(ExprSet::OpenBracket) {
        return Ok(Items::new(alloc));
    }
    view(alloc, input, room)
}

#[tactic(auto, unfolding(forms::specs::Readers::read_both, forms::specs::Readers::read_or, forms::specs::Readers::read_nothing))]
fn member_of(alloc: Global, input: &mut Input<'_>) -> Result<Option<Ident>, Halt>
    ensures { Reads (expr_spec.read_opt set.is_dot expr_spec.read_member input.old) result input.new }
{
    if !input.sees(ExprSet::Dot) {
        return Ok(None);
    }
    let name = member(alloc, input)?;
    Ok(Some(name))
}

fn named_type(name: Ident, member: Option<Ident>, dims: Items<Dim>) -> TypeNode
    ensures { result ≡ factored.named_type name (member, dims) }
{
    let at = name.at;
    let name = match member {
        Some(member) => TypeName::Member(name, member),
        None => TypeName::Named(name),
    };
    TypeNode {
        at,
        constant: false,
        name,
        dims,
    }
}

#[tactic(auto, unfolding(forms::specs::Readers::read_both))]
fn behind_type_name(
    alloc: Global,
    input: &mut Input<'_>,
    room: usize,
) -> Result<(Option<Ident>, Items<Dim>), Halt>
    ensures { Reads (read_both pair (expr_spec.read_opt set.is_dot expr_spec.read_member) (spec.read_brackets room) input.old) result input.new }
{
    let member = member_of(alloc, input)?;
    let dims = brackets(alloc, input, room)?;
    Ok((member, dims))
}

#[tactic(auto, unfolding(decl_grammar::specs::Reading::read_behind_name, forms::specs::Readers::read_both, forms::specs::Readers::read_or, forms::specs::Readers::read_nothing))]
fn behind_name(
    alloc: Global,
    input: &mut Input<'_>,
    room: usize,
    name: Ident,
) -> Result<(Option<TypeNode>, Ident), Halt>
    ensures { Reads (and_then (spec.read_behind_name room input.old) (λ f r. did (f name) r)) result input.new }
{
    if !input.sees(StmtSet::GoesOn) {
        return Ok((None, name));
    }
    let (member, dims) = behind_type_name(alloc, input, room)?;
    let declared = input.ident(alloc, ExprSet::PlainName)?;
    Ok((Some(named_type(name, member, dims)), declared))
}

#[tactic(auto, using(crate::proofs::Definite::definite_read))]
fn definite_type(alloc: Global, input: &mut Input<'_>, room: usize) -> Result<TypeNode, Halt>
    requires { sees (of spec.is_definite) input.old ≡ true }
    ensures { Reads (spec.read_unless (of set.is_plain_name) (spec.read_type_at room) input.old) result input.new }
{
    type_node(alloc, input, room)
}

#[tactic(auto, unfolding(decl_grammar::specs::Reading::read_definite, forms::specs::Readers::read_both, forms::specs::Readers::read_nothing))]
fn definite(
    alloc: Global,
    input: &mut Input<'_>,
    room: usize,
) -> Result<(Option<TypeNode>, Ident), Halt>
    requires { sees (of spec.is_definite) input.old ≡ true }
    ensures { Reads (spec.read_definite room input.old) result input.new }
{
    let kind = definite_type(alloc, input, room)?;
    let name = input.ident(alloc, ExprSet::PlainName)?;
    Ok((Some(kind), name))
}

/// Reads a name that may stand behind its type, where so many things may be opened.
#[tactic(auto, unfolding(decl_grammar::specs::Reading::read_typed_name, forms::specs::Readers::read_both, forms::specs::Readers::read_or))]
pub fn typed_name(
    alloc: Global,
    input: &mut Input<'_>,
    room: usize,
) -> Result<(Option<TypeNode>, Ident), Halt>
    ensures { Reads (spec.read_typed_name room input.old) result input.new }
{
    if input.sees(StmtSet::Definite) {
        return definite(alloc, input, room);
    }
    let name = input.ident(alloc, ExprSet::PlainName)?;
    behind_name(alloc, input, room, name)
}
