//! Classes of definition files and their members (Cython documentation, "Extension Types").
ghost use Rattle.std.specs.Prelude.{◌≡◌, ◌≢◌, ◌∷◌, []};
ghost use Rattle.forms.specs.Readers.{and_then, did, read_both, read_one, read_or, read_many, read_placed};
ghost use Rattle.forms.specs.Lists.{first, second, pair, itself};
ghost use Rattle.token_class.specs.Sets.{of};
ghost use Rattle.expr_grammar.specs.Words as set;
ghost use Rattle.expr_grammar.specs.Nodes as expr_node;
ghost use Rattle.expr_grammar.specs.Grammar.{pair_of_three};
ghost use Rattle.expr_grammar.specs.Reading as expr_spec;
ghost use Rattle.decl_grammar.specs.Words as words;
ghost use Rattle.decl_grammar.specs.Nodes as node;
ghost use Rattle.decl_grammar.specs.Factored as factored;
ghost use Rattle.decl_grammar.specs.Reading as spec;
ghost use Rattle.decl_grammar.specs.Files.{in_brackets};
ghost use Rattle.token_input.specs.Reads.{Reads};

use crate::class::base_if_any;
use cy_tree::{CKind, ClassBase, Ident, PxdMember};
use pyx_head::{Typed, header, heading, heading_line, names_of_line, open_names, typed_in_file};
use pyx_lex::Token;
use pyx_stmt::StmtSet;
use sqlite_items::Items;
use std::alloc::Global;
use token_input::{ExprSet, Halt, Input, joined};

// ---- members of definition files

#[tactic(auto, unfolding(forms::specs::Readers::read_one))]
fn pxd_pass_member(input: &mut Input<'_>) -> Result<PxdMember, Halt>
    ensures { Reads (read_one (of words.is_pass) node.pxd_pass_member input.old) result input.new }
{
    let taken = input.expect(StmtSet::Pass)?;
    Ok(PxdMember::Pass(taken.token.span.start))
}

#[tactic(auto, unfolding(forms::specs::Readers::read_both))]
fn pxd_passed(input: &mut Input<'_>) -> Result<PxdMember, Halt>
    ensures { Reads (read_both first (read_one (of words.is_pass) node.pxd_pass_member) (read_one (of words.is_newline) itself) input.old) result input.new }
{
    let member = pxd_pass_member(input)?;
    input.expect(StmtSet::Newline)?;
    Ok(member)
}

#[tactic(auto, unfolding(forms::specs::Readers::read_both))]
fn pxd_cpdef_method(alloc: Global, input: &mut Input<'_>) -> Result<PxdMember, Halt>
    ensures { Reads (read_both node.pxd_cpdef_method (read_one (of words.is_cpdef) itself) (spec.read_heading in_brackets) input.old) result input.new }
{
    let at = input.expect(StmtSet::Cpdef)?.token.span.start;
    let (typed, header) = heading_line(alloc, input)?;
    Ok(PxdMember::Method(heading(CKind::Cpdef, at, typed, header)))
}

#[tactic(auto, unfolding(forms::specs::Readers::read_both))]
fn pxd_method(
    alloc: Global,
    input: &mut Input<'_>,
    at: u32,
    typed: Typed,
) -> Result<PxdMember, Halt>
    ensures { Reads (and_then (read_both node.pxd_method (spec.read_header in_brackets) (read_one (of words.is_newline) itself) input.old) (λ f r. did (f at typed) r)) result input.new }
{
    let header = header(alloc, input)?;
    input.expect(StmtSet::Newline)?;
    Ok(PxdMember::Method(heading(CKind::Cdef, at, typed, header)))
}

#[tactic(auto, unfolding(forms::specs::Readers::read_both))]
fn pxd_fields(
    alloc: Global,
    input: &mut Input<'_>,
    at: u32,
    typed: Typed,
) -> Result<PxdMember, Halt>
    ensures { Reads (and_then (read_both node.pxd_fields (read_many (of set.is_comma) spec.read_next_name) (read_one (of words.is_newline) itself) input.old) (λ f r. did (f at typed) r)) result input.new }
{
    let more = names_of_line(alloc, input)?;
    let (kind, name) = typed;
    Ok(PxdMember::Fields(at, kind, joined(alloc, name, more)?))
}

#[tactic(auto, unfolding(decl_grammar::specs::Reading::read_behind_pxd_member, forms::specs::Readers::read_or))]
fn behind_pxd_member(
    alloc: Global,
    input: &mut Input<'_>,
    at: u32,
    typed: Typed,
) -> Result<PxdMember, Halt>
    ensures { Reads (and_then (spec.read_behind_pxd_member in_brackets input.old) (λ f r. did (f at typed) r)) result input.new }
{
    if input.sees(ExprSet::OpenParenthesis) {
        return pxd_method(alloc, input, at, typed);
    }
    pxd_fields(alloc, input, at, typed)
}

#[tactic(auto, unfolding(decl_grammar::specs::Reading::read_pxd_member_tail, forms::specs::Readers::read_both))]
fn pxd_member_tail(alloc: Global, input: &mut Input<'_>, at: u32) -> Result<PxdMember, Halt>
    ensures { Reads (and_then (spec.read_pxd_member_tail in_brackets input.old) (λ p r. did (p.1 at p.0) r)) result input.new }
{
    let typed = typed_in_file(alloc, input)?;
    behind_pxd_member(alloc, input, at, typed)
}

#[tactic(auto, unfolding(forms::specs::Readers::read_or, forms::specs::Readers::read_both, forms::specs::Readers::read_nothing))]
fn behind_pxd_cdef(alloc: Global, input: &mut Input<'_>, word: &Token) -> Result<PxdMember, Halt>
    ensures { Reads (and_then (read_or (of words.is_access) (spec.read_mapped (factored.flipped node.pxd_open_fields) (spec.read_open in_brackets)) (spec.read_mapped (factored.flipped node.declared_by) (spec.read_pxd_member_tail in_brackets)) input.old) (λ f r. did (f word.now) r)) result input.new }
{
    let at = word.span.start;
    if input.sees(StmtSet::Access) {
        let (access, kind, names) = open_names(alloc, input)?;
        return Ok(PxdMember::OpenFields(at, access, kind, names));
    }
    pxd_member_tail(alloc, input, at)
}

#[tactic(auto, unfolding(forms::specs::Readers::read_both))]
fn pxd_cdef_member(alloc: Global, input: &mut Input<'_>) -> Result<PxdMember, Halt>
    ensures { Reads (spec.read_fork node.pxd_open_fields node.declared_by (read_one (of words.is_cdef) itself) words.is_access (spec.read_open in_brackets) (spec.read_pxd_member_tail in_brackets) input.old) result input.new }
{
    let word = input.expect(StmtSet::Cdef)?.token;
    behind_pxd_cdef(alloc, input, word)
}

#[tactic(auto, unfolding(decl_grammar::specs::Reading::read_pxd_class_member, forms::specs::Readers::read_or))]
fn pxd_class_member(alloc: Global, input: &mut Input<'_>) -> Result<PxdMember, Halt>
    ensures { Reads (spec.read_pxd_class_member in_brackets input.old) result input.new }
{
    if input.sees(StmtSet::Pass) {
        return pxd_passed(input);
    }
    if input.sees(StmtSet::Cdef) {
        return pxd_cdef_member(alloc, input);
    }
    pxd_cpdef_method(alloc, input)
}

// ---- classes of definition files

#[tactic(auto, unfolding(forms::specs::Readers::read_both))]
fn pxd_pass_line(alloc: Global, input: &mut Input<'_>) -> Result<Items<PxdMember>, Halt>
    ensures { Reads (read_both node.alone (read_one (of words.is_pass) node.pxd_pass_member) (read_one (of words.is_newline) itself) input.old) result input.new }
{
    let member = pxd_pass_member(input)?;
    input.expect(StmtSet::Newline)?;
    let mut members = Items::new(alloc);
    members.push(member)?;
    Ok(members)
}

fn pxd_more_members(alloc: Global, input: &mut Input<'_>) -> Result<Items<PxdMember>, Halt>
    ensures { Reads (read_many (of spec.begins_pxd_member) (spec.read_pxd_class_member in_brackets) input.old) result input.new }
{
    let mut found = Items::new(alloc);
    for _turn in 0..input.len() {
        if !input.sees(StmtSet::BeginsPxdMember) {
            return Ok(found);
        }
        let item = pxd_class_member(alloc, input)?;
        found.push(item)?;
    }
    Ok(found)
}

#[tactic(auto, unfolding(forms::specs::Readers::read_both))]
fn pxd_some_members(alloc: Global, input: &mut Input<'_>) -> Result<Items<PxdMember>, Halt>
    ensures { Reads (spec.read_some_of spec.begins_pxd_member (spec.read_pxd_class_member in_brackets) input.old) result input.new }
{
    let first = pxd_class_member(alloc, input)?;
    let more = pxd_more_members(alloc, input)?;
    Ok(joined(alloc, first, more)?)
}

#[tactic(auto, unfolding(forms::specs::Readers::read_both))]
fn pxd_inner_members(alloc: Global, input: &mut Input<'_>) -> Result<Items<PxdMember>, Halt>
    ensures { Reads (read_both second (read_one (of words.is_indent) itself) (read_both first (spec.read_some_of spec.begins_pxd_member (spec.read_pxd_class_member in_brackets)) (read_one (of words.is_dedent) itself)) input.old) result input.new }
{
    input.expect(StmtSet::Indent)?;
    let members = pxd_some_members(alloc, input)?;
    input.expect(StmtSet::Dedent)?;
    Ok(members)
}

#[tactic(auto, unfolding(decl_grammar::specs::Reading::read_members, forms::specs::Readers::read_both, forms::specs::Readers::read_or))]
fn pxd_members(alloc: Global, input: &mut Input<'_>) -> Result<Items<PxdMember>, Halt>
    ensures { Reads (spec.read_members spec.begins_pxd_member (spec.read_pxd_class_member in_brackets) node.pxd_pass_member input.old) result input.new }
{
    if !input.sees(StmtSet::Newline) {
        return pxd_pass_line(alloc, input);
    }
    input.expect(StmtSet::Newline)?;
    pxd_inner_members(alloc, input)
}

#[tactic(auto, unfolding(forms::specs::Readers::read_both))]
fn pxd_behind_colon(alloc: Global, input: &mut Input<'_>) -> Result<Items<PxdMember>, Halt>
    ensures { Reads (read_both second (read_one (of set.is_colon) itself) (spec.read_members spec.begins_pxd_member (spec.read_pxd_class_member in_brackets) node.pxd_pass_member) input.old) result input.new }
{
    input.expect(ExprSet::Colon)?;
    pxd_members(alloc, input)
}

#[tactic(auto, unfolding(forms::specs::Readers::read_both))]
fn pxd_base_and_members(
    alloc: Global,
    input: &mut Input<'_>,
) -> Result<(Option<ClassBase>, Items<PxdMember>), Halt>
    ensures { Reads (read_both pair (expr_spec.read_opt set.is_open_parenthesis spec.read_base) (read_both second (read_one (of set.is_colon) itself) (spec.read_members spec.begins_pxd_member (spec.read_pxd_class_member in_brackets) node.pxd_pass_member)) input.old) result input.new }
{
    let base = base_if_any(alloc, input)?;
    let members = pxd_behind_colon(alloc, input)?;
    Ok((base, members))
}

#[tactic(auto, unfolding(forms::specs::Readers::read_both))]
fn pxd_behind_class(
    alloc: Global,
    input: &mut Input<'_>,
) -> Result<(Ident, Option<ClassBase>, Items<PxdMember>), Halt>
    ensures { Reads (read_both pair_of_three spec.read_name (read_both pair (expr_spec.read_opt set.is_open_parenthesis spec.read_base) (read_both second (read_one (of set.is_colon) itself) (spec.read_members spec.begins_pxd_member (spec.read_pxd_class_member in_brackets) node.pxd_pass_member))) input.old) result input.new }
{
    let name = input.ident(alloc, ExprSet::Name)?;
    let (base, members) = pxd_base_and_members(alloc, input)?;
    Ok((name, base, members))
}

/// Reads a class from the word `class` on.
#[tactic(auto, unfolding(decl_grammar::specs::Reading::read_class, forms::specs::Readers::read_both))]
pub(crate) fn pxd_class(
    alloc: Global,
    input: &mut Input<'_>,
) -> Result<(Ident, Option<ClassBase>, Items<PxdMember>), Halt>
    ensures { Reads (spec.read_class spec.begins_pxd_member (spec.read_pxd_class_member in_brackets) node.pxd_pass_member input.old) result input.new }
{
    input.expect(StmtSet::Class)?;
    pxd_behind_class(alloc, input)
}
