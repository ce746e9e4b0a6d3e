//! Typed names, the heads of functions on a line, and fields (Cython documentation, "Extension Types").
ghost use Rattle.std.specs.Prelude.{◌≡◌, ◌≢◌, ◌∷◌, []};
ghost use Rattle.forms.specs.Readers.{and_then, did, read_both, read_one, read_or, read_many};
ghost use Rattle.forms.specs.Lists.{first, second, pair, itself};
ghost use Rattle.token_class.specs.Sets.{of};
ghost use Rattle.expr_grammar.specs.Words as set;
ghost use Rattle.expr_grammar.specs.Nodes as expr_node;
ghost use Rattle.expr_grammar.specs.Grammar.{pair_of_three};
ghost use Rattle.expr_grammar.specs.Reading as expr_spec;
ghost use Rattle.decl_grammar.specs.Words as words;
ghost use Rattle.decl_grammar.specs.Nodes as node;
ghost use Rattle.decl_grammar.specs.Factored as factored;
ghost use Rattle.decl_grammar.specs.Reading as spec;
ghost use Rattle.decl_grammar.specs.Files.{in_brackets};
ghost use Rattle.pyx_lex.specs.declared.token.Token.{Token};
ghost use Rattle.token_input.specs.Reads.{Reads};

use crate::params::header;
use cy_tree::{Access, CKind, Header, Heading, Ident, TypeNode};
use pyx_stmt::{StmtSet, more_names, typed_name};
use sqlite_items::Items;
use std::alloc::Global;
use token_class::TokenClass;
use token_input::{ExprSet, Halt, Input, joined, type_node};

/// How many things may be opened where nothing is open.
pub const IN_FILE: usize = 100;

/// A name behind `cdef` or `cpdef`, with its type.
pub type Typed = (Option<TypeNode>, Ident);

/// The head of a function.
pub fn heading(kind: CKind, at: u32, typed: Typed, header: Header) -> Heading
    ensures { result ≡ node.heading_node kind at typed header }
{
    let (result, name) = typed;
    Heading {
        at,
        kind,
        result,
        name,
        header,
    }
}

/// Reads a name that may stand behind its type, where nothing is open.
pub fn typed_in_file(alloc: Global, input: &mut Input<'_>) -> Result<Typed, Halt>
    ensures { Reads (spec.read_typed_name 100 input.old) result input.new }
{
    typed_name(alloc, input, IN_FILE)
}

#[tactic(auto, unfolding(forms::specs::Readers::read_both))]
fn header_line(alloc: Global, input: &mut Input<'_>) -> Result<Header, Halt>
    ensures { Reads (read_both first (spec.read_header in_brackets) (read_one (of words.is_newline) itself) input.old) result input.new }
{
    let header = header(alloc, input)?;
    input.expect(StmtSet::Newline)?;
    Ok(header)
}

/// Reads the name and the head of a function of a definition file.
#[tactic(auto, unfolding(decl_grammar::specs::Reading::read_heading, forms::specs::Readers::read_both))]
pub fn heading_line(alloc: Global, input: &mut Input<'_>) -> Result<(Typed, Header), Halt>
    ensures { Reads (spec.read_heading in_brackets input.old) result input.new }
{
    let typed = typed_in_file(alloc, input)?;
    let header = header_line(alloc, input)?;
    Ok((typed, header))
}

// ---- fields

fn access_of(class: TokenClass) -> Access
    ensures { result ≡ node.access_of class }
{
    match class {
        TokenClass::Public => Access::Public,
        _ => Access::Readonly,
    }
}

#[tactic(auto, unfolding(forms::specs::Readers::read_one))]
fn access(input: &mut Input<'_>) -> Result<Access, Halt>
    ensures { Reads (read_one (of words.is_access) node.access_word input.old) result input.new }
{
    let taken = input.expect(StmtSet::Access)?;
    Ok(access_of(taken.class))
}

/// Reads the further names of a line.
#[tactic(auto, unfolding(forms::specs::Readers::read_both))]
pub fn names_of_line(alloc: Global, input: &mut Input<'_>) -> Result<Items<Ident>, Halt>
    ensures { Reads (read_both first (read_many (of set.is_comma) spec.read_next_name) (read_one (of words.is_newline) itself) input.old) result input.new }
{
    let names = more_names(alloc, input)?;
    input.expect(StmtSet::Newline)?;
    Ok(names)
}

#[tactic(auto, unfolding(forms::specs::Readers::read_both))]
fn field_names(alloc: Global, input: &mut Input<'_>) -> Result<Items<Ident>, Halt>
    ensures { Reads (read_both expr_node.cons spec.read_declared_name (read_both first (read_many (of set.is_comma) spec.read_next_name) (read_one (of words.is_newline) itself)) input.old) result input.new }
{
    let first = input.ident(alloc, ExprSet::PlainName)?;
    let more = names_of_line(alloc, input)?;
    Ok(joined(alloc, first, more)?)
}

fn field_type(alloc: Global, input: &mut Input<'_>) -> Result<TypeNode, Halt>
    ensures { Reads (spec.read_type_at 100 input.old) result input.new }
{
    type_node(alloc, input, IN_FILE)
}

#[tactic(auto, unfolding(forms::specs::Readers::read_both))]
fn typed_fields(alloc: Global, input: &mut Input<'_>) -> Result<(TypeNode, Items<Ident>), Halt>
    ensures { Reads (read_both pair (spec.read_type_at 100) (read_both expr_node.cons spec.read_declared_name (read_both first (read_many (of set.is_comma) spec.read_next_name) (read_one (of words.is_newline) itself))) input.old) result input.new }
{
    let kind = field_type(alloc, input)?;
    let names = field_names(alloc, input)?;
    Ok((kind, names))
}

/// Reads what stands behind the `cdef` of fields that are `public` or `readonly`.
#[tactic(auto, unfolding(decl_grammar::specs::Reading::read_open, forms::specs::Readers::read_both))]
pub fn open_names(
    alloc: Global,
    input: &mut Input<'_>,
) -> Result<(Access, TypeNode, Items<Ident>), Halt>
    ensures { Reads (spec.read_open in_brackets input.old) result input.new }
{
    let access = access(input)?;
    let (kind, names) = typed_fields(alloc, input)?;
    Ok((access, kind, names))
}
