//! Definition files: what stands at their top (Cython documentation, "Sharing Declarations Between Cython Modules").
ghost use Rattle.std.specs.Prelude.{◌≡◌, ◌≢◌, ◌∷◌, []};
ghost use Rattle.forms.specs.Forms.{either};
ghost use Rattle.forms.specs.Readers.{and_then, did, read_both, read_one, read_or, read_many};
ghost use Rattle.forms.specs.Lists.{itself};
ghost use Rattle.token_class.specs.Sets.{of};
ghost use Rattle.expr_grammar.specs.Nodes as expr_node;
ghost use Rattle.decl_grammar.specs.Words as words;
ghost use Rattle.decl_grammar.specs.Nodes as node;
ghost use Rattle.decl_grammar.specs.Factored as factored;
ghost use Rattle.decl_grammar.specs.Reading as spec;
ghost use Rattle.decl_grammar.specs.Files.{in_brackets};
ghost use Rattle.token_input.specs.Reads.{Reads};

use crate::pxd_class::pxd_class;
use crate::pyx_file::{names_cimport, plain_cimport};
use cy_tree::{CKind, Cimport, PxdClass, PxdItem};
use pyx_head::{heading, heading_line};
use pyx_lex::Token;
use pyx_stmt::StmtSet;
use sqlite_items::Items;
use std::alloc::Global;
use token_class::TokenClass;
use token_input::{Halt, Input, Taken};

#[tactic(auto, unfolding(decl_grammar::specs::Reading::read_cimport, forms::specs::Readers::read_or))]
fn cimport(alloc: Global, input: &mut Input<'_>) -> Result<Cimport, Halt>
    ensures { Reads (spec.read_cimport input.old) result input.new }
{
    if input.sees(StmtSet::Cimport) {
        return plain_cimport(alloc, input);
    }
    names_cimport(alloc, input)
}

#[tactic(auto, unfolding(forms::specs::Readers::read_both, forms::specs::Readers::read_nothing))]
fn cimport_item(alloc: Global, input: &mut Input<'_>) -> Result<PxdItem, Halt>
    ensures { Reads (spec.read_mapped node.pxd_cimport spec.read_cimport input.old) result input.new }
{
    Ok(PxdItem::Cimport(cimport(alloc, input)?))
}

#[tactic(auto, unfolding(forms::specs::Readers::read_both))]
fn passed(input: &mut Input<'_>) -> Result<PxdItem, Halt>
    ensures { Reads (read_both node.pxd_pass (read_one (of words.is_pass) itself) (read_one (of words.is_newline) itself) input.old) result input.new }
{
    let at = input.expect(StmtSet::Pass)?.token.span.start;
    input.expect(StmtSet::Newline)?;
    Ok(PxdItem::Pass(at))
}

fn kind_of(class: TokenClass) -> CKind
    ensures { result ≡ node.kind_word_of class }
{
    match class {
        TokenClass::Cdef => CKind::Cdef,
        _ => CKind::Cpdef,
    }
}

#[tactic(auto, unfolding(forms::specs::Readers::read_both))]
fn cpdef_function(alloc: Global, input: &mut Input<'_>) -> Result<PxdItem, Halt>
    ensures { Reads (read_both node.pxd_function (read_one (of words.is_cpdef) itself) (spec.read_heading in_brackets) input.old) result input.new }
{
    let Taken { token, class } = input.expect(StmtSet::Cpdef)?;
    let (kind, at) = (kind_of(class), token.span.start);
    let (typed, header) = heading_line(alloc, input)?;
    Ok(PxdItem::Function(heading(kind, at, typed, header)))
}

#[tactic(auto, unfolding(forms::specs::Readers::read_or, forms::specs::Readers::read_both, forms::specs::Readers::read_nothing))]
fn behind_cdef(
    alloc: Global,
    input: &mut Input<'_>,
    word: &Token,
    kind: CKind,
) -> Result<PxdItem, Halt>
    requires { kind ≡ node.kind_word_of (expr_node.class word.now) }
    ensures { Reads (and_then (read_or (of words.is_class) (spec.read_mapped (factored.flipped node.pxd_class) (spec.read_class spec.begins_pxd_member (spec.read_pxd_class_member in_brackets) node.pxd_pass_member)) (spec.read_mapped (factored.flipped node.pxd_function) (spec.read_heading in_brackets)) input.old) (λ f r. did (f word.now) r)) result input.new }
{
    let at = word.span.start;
    if input.sees(StmtSet::Class) {
        let (name, base, members) = pxd_class(alloc, input)?;
        return Ok(PxdItem::Class(PxdClass {
            at,
            name,
            base,
            members,
        }));
    }
    let (typed, header) = heading_line(alloc, input)?;
    Ok(PxdItem::Function(heading(kind, at, typed, header)))
}

#[tactic(auto, unfolding(forms::specs::Readers::read_both))]
fn cdef_item(alloc: Global, input: &mut Input<'_>) -> Result<PxdItem, Halt>
    ensures { Reads (spec.read_fork node.pxd_class node.pxd_function (read_one (of words.is_cdef) itself) words.is_class (spec.read_class spec.begins_pxd_member (spec.read_pxd_class_member in_brackets) node.pxd_pass_member) (spec.read_heading in_brackets) input.old) result input.new }
{
    let Taken { token, class } = input.expect(StmtSet::Cdef)?;
    behind_cdef(alloc, input, token, kind_of(class))
}

#[tactic(auto, unfolding(decl_grammar::specs::Reading::read_pxd_item, forms::specs::Readers::read_or))]
fn item(alloc: Global, input: &mut Input<'_>) -> Result<PxdItem, Halt>
    ensures { Reads (spec.read_pxd_item in_brackets input.old) result input.new }
{
    if input.sees(StmtSet::CimportOrFrom) {
        return cimport_item(alloc, input);
    }
    if input.sees(StmtSet::Pass) {
        return passed(input);
    }
    if input.sees(StmtSet::Cdef) {
        return cdef_item(alloc, input);
    }
    cpdef_function(alloc, input)
}

/// Reads the items of a definition file.
pub(crate) fn items(alloc: Global, input: &mut Input<'_>) -> Result<Items<PxdItem>, Halt>
    ensures { Reads (read_many (of spec.begins_item) (spec.read_pxd_item in_brackets) input.old) result input.new }
{
    let mut found = Items::new(alloc);
    for _turn in 0..input.len() {
        if !input.sees(StmtSet::BeginsItem) {
            return Ok(found);
        }
        let item = item(alloc, input)?;
        found.push(item)?;
    }
    Ok(found)
}
