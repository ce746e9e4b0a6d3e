//! Classes and their members (Cython documentation, "Extension Types").
ghost use Rattle.std.specs.Prelude.{◌≡◌, ◌≢◌, ◌∷◌, []};
ghost use Rattle.forms.specs.Readers.{and_then, did, read_both, read_one, read_or, read_many, read_placed};
ghost use Rattle.forms.specs.Lists.{first, second, pair, itself};
ghost use Rattle.token_class.specs.Sets.{of};
ghost use Rattle.expr_grammar.specs.Words as set;
ghost use Rattle.expr_grammar.specs.Nodes as expr_node;
ghost use Rattle.expr_grammar.specs.Grammar.{pair_of_three};
ghost use Rattle.expr_grammar.specs.Reading as expr_spec;
ghost use Rattle.decl_grammar.specs.Words as words;
ghost use Rattle.decl_grammar.specs.Nodes as node;
ghost use Rattle.decl_grammar.specs.Factored as factored;
ghost use Rattle.decl_grammar.specs.Reading as spec;
ghost use Rattle.decl_grammar.specs.Files.{in_brackets};
ghost use Rattle.token_input.specs.Reads.{Reads};

use crate::functions::{behind_cpdef, c_function, def, header_and_body};
use cy_base::Text;
use cy_tree::{CKind, ClassBase, Ident, Member};
use pyx_head::{Typed, names_of_line, open_names, typed_in_file};
use pyx_lex::Token;
use pyx_stmt::StmtSet;
use sqlite_items::Items;
use std::alloc::Global;
use token_input::{ExprSet, Halt, Input, joined, member};

// ---- bases

#[tactic(auto, unfolding(forms::specs::Readers::read_both, forms::specs::Readers::read_or, forms::specs::Readers::read_nothing))]
fn member_if_any(alloc: Global, input: &mut Input<'_>) -> Result<Option<Ident>, Halt>
    ensures { Reads (expr_spec.read_opt set.is_dot expr_spec.read_member input.old) result input.new }
{
    if !input.sees(ExprSet::Dot) {
        return Ok(None);
    }
    let name = member(alloc, input)?;
    Ok(Some(name))
}

fn base_node(name: Ident, member: Option<Ident>) -> ClassBase
    ensures { result ≡ node.base_node name member }
{
    match member {
        None => ClassBase::Named(name),
        Some(member) => ClassBase::Member(name, member),
    }
}

#[tactic(auto, unfolding(forms::specs::Readers::read_both))]
fn base_name(alloc: Global, input: &mut Input<'_>) -> Result<ClassBase, Halt>
    ensures { Reads (read_both node.base_node spec.read_name (expr_spec.read_opt set.is_dot expr_spec.read_member) input.old) result input.new }
{
    let name = input.ident(alloc, ExprSet::Name)?;
    let member = member_if_any(alloc, input)?;
    Ok(base_node(name, member))
}

#[tactic(auto, unfolding(forms::specs::Readers::read_both))]
fn closed_base(alloc: Global, input: &mut Input<'_>) -> Result<ClassBase, Halt>
    ensures { Reads (read_both first (read_both node.base_node spec.read_name (expr_spec.read_opt set.is_dot expr_spec.read_member)) (read_one (of set.is_close_parenthesis) itself) input.old) result input.new }
{
    let base = base_name(alloc, input)?;
    input.expect(ExprSet::CloseParenthesis)?;
    Ok(base)
}

#[tactic(auto, unfolding(decl_grammar::specs::Reading::read_base, forms::specs::Readers::read_both))]
fn base(alloc: Global, input: &mut Input<'_>) -> Result<ClassBase, Halt>
    ensures { Reads (spec.read_base input.old) result input.new }
{
    input.expect(ExprSet::OpenParenthesis)?;
    closed_base(alloc, input)
}

/// Reads the base of a class, if it stands there.
#[tactic(auto, unfolding(forms::specs::Readers::read_both, forms::specs::Readers::read_or, forms::specs::Readers::read_nothing))]
pub(crate) fn base_if_any(alloc: Global, input: &mut Input<'_>) -> Result<Option<ClassBase>, Halt>
    ensures { Reads (expr_spec.read_opt set.is_open_parenthesis spec.read_base input.old) result input.new }
{
    if !input.sees(ExprSet::OpenParenthesis) {
        return Ok(None);
    }
    let base = base(alloc, input)?;
    Ok(Some(base))
}

// ---- members of implementation files

#[tactic(auto, unfolding(forms::specs::Readers::read_one))]
fn pass_member(input: &mut Input<'_>) -> Result<Member, Halt>
    ensures { Reads (read_one (of words.is_pass) node.pass_member input.old) result input.new }
{
    let taken = input.expect(StmtSet::Pass)?;
    Ok(Member::Pass(taken.token.span.start))
}

#[tactic(auto, unfolding(forms::specs::Readers::read_both))]
fn passed(input: &mut Input<'_>) -> Result<Member, Halt>
    ensures { Reads (read_both first (read_one (of words.is_pass) node.pass_member) (read_one (of words.is_newline) itself) input.old) result input.new }
{
    let member = pass_member(input)?;
    input.expect(StmtSet::Newline)?;
    Ok(member)
}

#[tactic(auto, unfolding(forms::specs::Readers::read_both))]
fn string_line(alloc: Global, input: &mut Input<'_>) -> Result<Text, Halt>
    ensures { Reads (read_both first (read_one (of set.is_str) expr_node.text) (read_one (of words.is_newline) itself) input.old) result input.new }
{
    let text = input.string(alloc)?;
    input.expect(StmtSet::Newline)?;
    Ok(text)
}

#[tactic(auto, unfolding(forms::specs::Readers::read_placed))]
fn docstring(alloc: Global, input: &mut Input<'_>) -> Result<Member, Halt>
    ensures { Reads (read_placed node.docstring_node (read_both first (read_one (of set.is_str) expr_node.text) (read_one (of words.is_newline) itself)) input.old) result input.new }
{
    let at = input.at();
    let text = string_line(alloc, input)?;
    Ok(Member::Docstring(at, text))
}

#[tactic(auto, unfolding(forms::specs::Readers::read_both, forms::specs::Readers::read_nothing))]
fn def_member(alloc: Global, input: &mut Input<'_>) -> Result<Member, Halt>
    ensures { Reads (spec.read_mapped node.def_member (spec.read_def in_brackets) input.old) result input.new }
{
    Ok(Member::Def(def(alloc, input)?))
}

#[tactic(auto, unfolding(forms::specs::Readers::read_both))]
fn cpdef_method(alloc: Global, input: &mut Input<'_>) -> Result<Member, Halt>
    ensures { Reads (spec.read_cpdef in_brackets node.cpdef_method input.old) result input.new }
{
    let at = input.expect(StmtSet::Cpdef)?.token.span.start;
    let (typed, header, body) = behind_cpdef(alloc, input)?;
    Ok(Member::Method(c_function(CKind::Cpdef, at, typed, header, body)))
}

#[tactic(auto, unfolding(forms::specs::Readers::read_both))]
fn method(alloc: Global, input: &mut Input<'_>, at: u32, typed: Typed) -> Result<Member, Halt>
    ensures { Reads (and_then (read_both node.method (spec.read_header in_brackets) (spec.read_body_at 100) input.old) (λ f r. did (f at typed) r)) result input.new }
{
    let (header, body) = header_and_body(alloc, input)?;
    Ok(Member::Method(c_function(CKind::Cdef, at, typed, header, body)))
}

#[tactic(auto, unfolding(forms::specs::Readers::read_both))]
fn fields(alloc: Global, input: &mut Input<'_>, at: u32, typed: Typed) -> Result<Member, Halt>
    ensures { Reads (and_then (read_both node.fields (read_many (of set.is_comma) spec.read_next_name) (read_one (of words.is_newline) itself) input.old) (λ f r. did (f at typed) r)) result input.new }
{
    let more = names_of_line(alloc, input)?;
    let (kind, name) = typed;
    Ok(Member::Fields(at, kind, joined(alloc, name, more)?))
}

#[tactic(auto, unfolding(decl_grammar::specs::Reading::read_behind_member, forms::specs::Readers::read_or))]
fn behind_member(
    alloc: Global,
    input: &mut Input<'_>,
    at: u32,
    typed: Typed,
) -> Result<Member, Halt>
    ensures { Reads (and_then (spec.read_behind_member in_brackets input.old) (λ f r. did (f at typed) r)) result input.new }
{
    if input.sees(ExprSet::OpenParenthesis) {
        return method(alloc, input, at, typed);
    }
    fields(alloc, input, at, typed)
}

#[tactic(auto, unfolding(decl_grammar::specs::Reading::read_member_tail, forms::specs::Readers::read_both))]
fn member_tail(alloc: Global, input: &mut Input<'_>, at: u32) -> Result<Member, Halt>
    ensures { Reads (and_then (spec.read_member_tail in_brackets input.old) (λ p r. did (p.1 at p.0) r)) result input.new }
{
    let typed = typed_in_file(alloc, input)?;
    behind_member(alloc, input, at, typed)
}

#[tactic(auto, unfolding(forms::specs::Readers::read_or, forms::specs::Readers::read_both, forms::specs::Readers::read_nothing))]
fn behind_cdef(alloc: Global, input: &mut Input<'_>, word: &Token) -> Result<Member, Halt>
    ensures { Reads (and_then (read_or (of words.is_access) (spec.read_mapped (factored.flipped node.open_fields) (spec.read_open in_brackets)) (spec.read_mapped (factored.flipped node.declared_by) (spec.read_member_tail in_brackets)) input.old) (λ f r. did (f word.now) r)) result input.new }
{
    let at = word.span.start;
    if input.sees(StmtSet::Access) {
        let (access, kind, names) = open_names(alloc, input)?;
        return Ok(Member::OpenFields(at, access, kind, names));
    }
    member_tail(alloc, input, at)
}

#[tactic(auto, unfolding(forms::specs::Readers::read_both))]
fn cdef_member(alloc: Global, input: &mut Input<'_>) -> Result<Member, Halt>
    ensures { Reads (spec.read_fork node.open_fields node.declared_by (read_one (of words.is_cdef) itself) words.is_access (spec.read_open in_brackets) (spec.read_member_tail in_brackets) input.old) result input.new }
{
    let word = input.expect(StmtSet::Cdef)?.token;
    behind_cdef(alloc, input, word)
}

#[tactic(auto, unfolding(decl_grammar::specs::Reading::read_class_member, forms::specs::Readers::read_or))]
fn class_member(alloc: Global, input: &mut Input<'_>) -> Result<Member, Halt>
    ensures { Reads (spec.read_class_member in_brackets input.old) result input.new }
{
    if input.sees(StmtSet::Pass) {
        return passed(input);
    }
    if input.sees(ExprSet::Str) {
        return docstring(alloc, input);
    }
    if input.sees(StmtSet::Def) {
        return def_member(alloc, input);
    }
    if input.sees(StmtSet::Cdef) {
        return cdef_member(alloc, input);
    }
    cpdef_method(alloc, input)
}

// ---- classes of implementation files

#[tactic(auto, unfolding(forms::specs::Readers::read_both))]
fn pass_line(alloc: Global, input: &mut Input<'_>) -> Result<Items<Member>, Halt>
    ensures { Reads (read_both node.alone (read_one (of words.is_pass) node.pass_member) (read_one (of words.is_newline) itself) input.old) result input.new }
{
    let member = pass_member(input)?;
    input.expect(StmtSet::Newline)?;
    let mut members = Items::new(alloc);
    members.push(member)?;
    Ok(members)
}

fn more_members(alloc: Global, input: &mut Input<'_>) -> Result<Items<Member>, Halt>
    ensures { Reads (read_many (of spec.begins_member) (spec.read_class_member in_brackets) input.old) result input.new }
{
    let mut found = Items::new(alloc);
    for _turn in 0..input.len() {
        if !input.sees(StmtSet::BeginsMember) {
            return Ok(found);
        }
        let item = class_member(alloc, input)?;
        found.push(item)?;
    }
    Ok(found)
}

#[tactic(auto, unfolding(forms::specs::Readers::read_both))]
fn some_members(alloc: Global, input: &mut Input<'_>) -> Result<Items<Member>, Halt>
    ensures { Reads (spec.read_some_of spec.begins_member (spec.read_class_member in_brackets) input.old) result input.new }
{
    let first = class_member(alloc, input)?;
    let more = more_members(alloc, input)?;
    Ok(joined(alloc, first, more)?)
}

#[tactic(auto, unfolding(forms::specs::Readers::read_both))]
fn inner_members(alloc: Global, input: &mut Input<'_>) -> Result<Items<Member>, Halt>
    ensures { Reads (read_both second (read_one (of words.is_indent) itself) (read_both first (spec.read_some_of spec.begins_member (spec.read_class_member in_brackets)) (read_one (of words.is_dedent) itself)) input.old) result input.new }
{
    input.expect(StmtSet::Indent)?;
    let members = some_members(alloc, input)?;
    input.expect(StmtSet::Dedent)?;
    Ok(members)
}

#[tactic(auto, unfolding(decl_grammar::specs::Reading::read_members, forms::specs::Readers::read_both, forms::specs::Readers::read_or))]
fn members(alloc: Global, input: &mut Input<'_>) -> Result<Items<Member>, Halt>
    ensures { Reads (spec.read_members spec.begins_member (spec.read_class_member in_brackets) node.pass_member input.old) result input.new }
{
    if !input.sees(StmtSet::Newline) {
        return pass_line(alloc, input);
    }
    input.expect(StmtSet::Newline)?;
    inner_members(alloc, input)
}

#[tactic(auto, unfolding(forms::specs::Readers::read_both))]
fn behind_colon(alloc: Global, input: &mut Input<'_>) -> Result<Items<Member>, Halt>
    ensures { Reads (read_both second (read_one (of set.is_colon) itself) (spec.read_members spec.begins_member (spec.read_class_member in_brackets) node.pass_member) input.old) result input.new }
{
    input.expect(ExprSet::Colon)?;
    members(alloc, input)
}

#[tactic(auto, unfolding(forms::specs::Readers::read_both))]
fn base_and_members(
    alloc: Global,
    input: &mut Input<'_>,
) -> Result<(Option<ClassBase>, Items<Member>), Halt>
    ensures { Reads (read_both pair (expr_spec.read_opt set.is_open_parenthesis spec.read_base) (read_both second (read_one (of set.is_colon) itself) (spec.read_members spec.begins_member (spec.read_class_member in_brackets) node.pass_member)) input.old) result input.new }
{
    let base = base_if_any(alloc, input)?;
    let members = behind_colon(alloc, input)?;
    Ok((base, members))
}

#[tactic(auto, unfolding(forms::specs::Readers::read_both))]
fn behind_class(
    alloc: Global,
    input: &mut Input<'_>,
) -> Result<(Ident, Option<ClassBase>, Items<Member>), Halt>
    ensures { Reads (read_both pair_of_three spec.read_name (read_both pair (expr_spec.read_opt set.is_open_parenthesis spec.read_base) (read_both second (read_one (of set.is_colon) itself) (spec.read_members spec.begins_member (spec.read_class_member in_brackets) node.pass_member))) input.old) result input.new }
{
    let name = input.ident(alloc, ExprSet::Name)?;
    let (base, members) = base_and_members(alloc, input)?;
    Ok((name, base, members))
}

/// Reads a class from the word `class` on.
#[tactic(auto, unfolding(decl_grammar::specs::Reading::read_class, forms::specs::Readers::read_both))]
pub(crate) fn class(
    alloc: Global,
    input: &mut Input<'_>,
) -> Result<(Ident, Option<ClassBase>, Items<Member>), Halt>
    ensures { Reads (spec.read_class spec.begins_member (spec.read_class_member in_brackets) node.pass_member input.old) result input.new }
{
    input.expect(StmtSet::Class)?;
    behind_class(alloc, input)
}
