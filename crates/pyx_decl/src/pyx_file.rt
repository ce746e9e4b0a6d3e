//! Files: what stands at their top, and the whole.
ghost use Rattle.std.specs.Prelude.{◌≡◌, ◌≢◌, ◌∷◌, [], false};
ghost use Rattle.forms.specs.Readers.{and_then, did, sees, read_both, read_one, read_or, read_many};
ghost use Rattle.forms.specs.Lists.{first, second, pair, push, itself};
ghost use Rattle.token_class.specs.Sets.{of};
ghost use Rattle.expr_grammar.specs.Words as set;
ghost use Rattle.expr_grammar.specs.Nodes as expr_node;
ghost use Rattle.decl_grammar.specs.Words as words;
ghost use Rattle.decl_grammar.specs.Nodes as node;
ghost use Rattle.decl_grammar.specs.Factored as factored;
ghost use Rattle.decl_grammar.specs.Reading as spec;
ghost use Rattle.decl_grammar.specs.Files.{in_brackets};
ghost use Rattle.token_input.specs.Reads.{Reads};

use crate::class::class;
use crate::functions::{behind_cpdef, c_function, def, header_and_body};
use cy_tree::{CKind, Cimport, Class, Ident, ImportItem, Line, Simple, Stmt, Top, Variables};
use pyx_head::{IN_FILE, Typed, typed_in_file};
use pyx_lex::Token;
use pyx_stmt::{StmtSet, all_declared, import_item, import_items, imported, more_simples, values};
use pyx_suite::statement;
use sqlite_items::Items;
use std::alloc::{AllocError, Global};
use token_input::{ExprSet, Halt, Input, joined};

// ---- cimports

#[tactic(auto, unfolding(forms::specs::Readers::read_both))]
fn item_line(alloc: Global, input: &mut Input<'_>) -> Result<ImportItem, Halt>
    ensures { Reads (read_both first spec.read_item (read_one (of words.is_newline) itself) input.old) result input.new }
{
    let item = import_item(alloc, input)?;
    input.expect(StmtSet::Newline)?;
    Ok(item)
}

#[tactic(auto, unfolding(decl_grammar::specs::Reading::read_plain_cimport, forms::specs::Readers::read_both))]
pub(crate) fn plain_cimport(alloc: Global, input: &mut Input<'_>) -> Result<Cimport, Halt>
    ensures { Reads (spec.read_plain_cimport input.old) result input.new }
{
    let at = input.expect(StmtSet::Cimport)?.token.span.start;
    let item = item_line(alloc, input)?;
    Ok(Cimport::Module(at, item))
}

#[tactic(auto, unfolding(forms::specs::Readers::read_both))]
fn items_line(alloc: Global, input: &mut Input<'_>) -> Result<Items<ImportItem>, Halt>
    ensures { Reads (read_both first spec.read_items (read_one (of words.is_newline) itself) input.old) result input.new }
{
    let items = import_items(alloc, input)?;
    input.expect(StmtSet::Newline)?;
    Ok(items)
}

#[tactic(auto, unfolding(decl_grammar::specs::Reading::read_cimport_tail, forms::specs::Readers::read_both))]
fn cimport_tail(alloc: Global, input: &mut Input<'_>) -> Result<Items<ImportItem>, Halt>
    ensures { Reads (spec.read_cimport_tail in_brackets input.old) result input.new }
{
    input.expect(StmtSet::Cimport)?;
    items_line(alloc, input)
}

/// Reads `from m cimport ..`.
#[tactic(auto, unfolding(decl_grammar::specs::Reading::read_names_cimport, decl_grammar::specs::Reading::read_cimport_tail, forms::specs::Readers::read_both))]
pub(crate) fn names_cimport(alloc: Global, input: &mut Input<'_>) -> Result<Cimport, Halt>
    ensures { Reads (spec.read_names_cimport input.old) result input.new }
{
    let at = input.expect(StmtSet::From)?.token.span.start;
    let outer = input.ident(alloc, ExprSet::Name)?;
    let items = cimport_tail(alloc, input)?;
    Ok(Cimport::From(at, outer, items))
}

// ---- an import of names, and what may follow on its line

#[tactic(auto, unfolding(forms::specs::Readers::read_both))]
fn items_and_more(
    alloc: Global,
    input: &mut Input<'_>,
) -> Result<(Items<ImportItem>, (Items<Simple>, bool)), Halt>
    ensures { Reads (read_both pair spec.read_items (spec.read_more_simples 100) input.old) result input.new }
{
    let items = import_items(alloc, input)?;
    let more = more_simples(alloc, input, IN_FILE)?;
    Ok((items, more))
}

#[tactic(auto, unfolding(forms::specs::Readers::read_both))]
fn import_tail_line(
    alloc: Global,
    input: &mut Input<'_>,
    word: &Token,
    outer: Ident,
) -> Result<Top, Halt>
    ensures { Reads (and_then (read_both pair (read_both pair spec.read_items (spec.read_more_simples 100)) (read_one (of words.is_newline) itself) input.old) (λ p r. did (factored.import_behind (word.now, outer) p) r)) result input.new }
{
    let (items, (more, _last)) = items_and_more(alloc, input)?;
    input.expect(StmtSet::Newline)?;
    let first = Simple::FromImport(word.span.start, outer, items);
    let simples = joined(alloc, first, more)?;
    Ok(Top::Stmt(Stmt::Simples(Line { simples })))
}

#[tactic(auto, unfolding(decl_grammar::specs::Reading::read_import_tail, forms::specs::Readers::read_both))]
fn import_tail(
    alloc: Global,
    input: &mut Input<'_>,
    word: &Token,
    outer: Ident,
) -> Result<Top, Halt>
    ensures { Reads (and_then (spec.read_import_tail in_brackets input.old) (λ p r. did (factored.import_behind (word.now, outer) p) r)) result input.new }
{
    input.expect(StmtSet::Import)?;
    import_tail_line(alloc, input, word, outer)
}

#[tactic(auto, unfolding(forms::specs::Readers::read_both, forms::specs::Readers::read_or, forms::specs::Readers::read_nothing))]
fn behind_from(
    alloc: Global,
    input: &mut Input<'_>,
    word: &Token,
    outer: Ident,
) -> Result<Top, Halt>
    ensures { Reads (and_then (read_or (of words.is_cimport) (spec.read_mapped (factored.flipped factored.cimport_behind) (spec.read_cimport_tail in_brackets)) (spec.read_mapped (factored.flipped factored.import_behind) (spec.read_import_tail in_brackets)) input.old) (λ f r. did (f (word.now, outer)) r)) result input.new }
{
    if input.sees(StmtSet::Cimport) {
        let items = cimport_tail(alloc, input)?;
        return Ok(Top::Cimport(Cimport::From(word.span.start, outer, items)));
    }
    import_tail(alloc, input, word, outer)
}

#[tactic(auto, unfolding(decl_grammar::specs::Reading::read_from_name, forms::specs::Readers::read_both))]
fn from_top(alloc: Global, input: &mut Input<'_>) -> Result<Top, Halt>
    ensures { Reads (spec.read_fork factored.cimport_behind factored.import_behind (spec.read_from_name in_brackets) words.is_cimport (spec.read_cimport_tail in_brackets) (spec.read_import_tail in_brackets) input.old) result input.new }
{
    let word = input.expect(StmtSet::From)?.token;
    let outer = input.ident(alloc, ExprSet::Name)?;
    behind_from(alloc, input, word, outer)
}

// ---- what begins with `cdef`

#[tactic(auto, unfolding(forms::specs::Readers::read_both))]
fn function(alloc: Global, input: &mut Input<'_>, at: u32, typed: Typed) -> Result<Top, Halt>
    ensures { Reads (and_then (read_both node.function (spec.read_header in_brackets) (spec.read_body_at 100) input.old) (λ f r. did (f at typed) r)) result input.new }
{
    let (header, body) = header_and_body(alloc, input)?;
    Ok(Top::Function(c_function(CKind::Cdef, at, typed, header, body)))
}

#[tactic(auto, unfolding(forms::specs::Readers::read_both))]
fn variables(alloc: Global, input: &mut Input<'_>, at: u32, typed: Typed) -> Result<Top, Halt>
    ensures { Reads (and_then (read_both node.variables (spec.read_values 100) (read_one (of words.is_newline) itself) input.old) (λ f r. did (f at typed) r)) result input.new }
{
    let (value, more) = values(alloc, input, IN_FILE)?;
    input.expect(StmtSet::Newline)?;
    let (kind, name) = typed;
    let names = all_declared(alloc, name, value, more)?;
    Ok(Top::Variables(Variables { at, kind, names }))
}

#[tactic(auto, unfolding(decl_grammar::specs::Reading::read_behind_top, forms::specs::Readers::read_or))]
fn behind_top(alloc: Global, input: &mut Input<'_>, at: u32, typed: Typed) -> Result<Top, Halt>
    ensures { Reads (and_then (spec.read_behind_top in_brackets input.old) (λ f r. did (f at typed) r)) result input.new }
{
    if input.sees(ExprSet::OpenParenthesis) {
        return function(alloc, input, at, typed);
    }
    variables(alloc, input, at, typed)
}

#[tactic(auto, unfolding(decl_grammar::specs::Reading::read_top_tail, forms::specs::Readers::read_both))]
fn top_tail(alloc: Global, input: &mut Input<'_>, at: u32) -> Result<Top, Halt>
    ensures { Reads (and_then (spec.read_top_tail in_brackets input.old) (λ p r. did (p.1 at p.0) r)) result input.new }
{
    let typed = typed_in_file(alloc, input)?;
    behind_top(alloc, input, at, typed)
}

#[tactic(auto, unfolding(forms::specs::Readers::read_or, forms::specs::Readers::read_both, forms::specs::Readers::read_nothing))]
fn behind_cdef(alloc: Global, input: &mut Input<'_>, word: &Token) -> Result<Top, Halt>
    ensures { Reads (and_then (read_or (of words.is_class) (spec.read_mapped (factored.flipped node.class_node) (spec.read_class spec.begins_member (spec.read_class_member in_brackets) node.pass_member)) (spec.read_mapped (factored.flipped node.declared_by) (spec.read_top_tail in_brackets)) input.old) (λ f r. did (f word.now) r)) result input.new }
{
    let at = word.span.start;
    if input.sees(StmtSet::Class) {
        let (name, base, members) = class(alloc, input)?;
        return Ok(Top::Class(Class {
            at,
            name,
            base,
            members,
        }));
    }
    top_tail(alloc, input, at)
}

#[tactic(auto, unfolding(forms::specs::Readers::read_both))]
fn cdef_top(alloc: Global, input: &mut Input<'_>) -> Result<Top, Halt>
    ensures { Reads (spec.read_fork node.class_node node.declared_by (read_one (of words.is_cdef) itself) words.is_class (spec.read_class spec.begins_member (spec.read_class_member in_brackets) node.pass_member) (spec.read_top_tail in_brackets) input.old) result input.new }
{
    let word = input.expect(StmtSet::Cdef)?.token;
    behind_cdef(alloc, input, word)
}

// ---- a top

#[tactic(auto, unfolding(forms::specs::Readers::read_both, forms::specs::Readers::read_nothing))]
fn cimport_top(alloc: Global, input: &mut Input<'_>) -> Result<Top, Halt>
    ensures { Reads (spec.read_mapped node.cimport_top spec.read_plain_cimport input.old) result input.new }
{
    Ok(Top::Cimport(plain_cimport(alloc, input)?))
}

#[tactic(auto, unfolding(forms::specs::Readers::read_both))]
fn cpdef_top(alloc: Global, input: &mut Input<'_>) -> Result<Top, Halt>
    ensures { Reads (spec.read_cpdef in_brackets node.cpdef_function input.old) result input.new }
{
    let at = input.expect(StmtSet::Cpdef)?.token.span.start;
    let (typed, header, body) = behind_cpdef(alloc, input)?;
    Ok(Top::Function(c_function(CKind::Cpdef, at, typed, header, body)))
}

#[tactic(auto, unfolding(forms::specs::Readers::read_both, forms::specs::Readers::read_nothing))]
fn def_top(alloc: Global, input: &mut Input<'_>) -> Result<Top, Halt>
    ensures { Reads (spec.read_mapped node.def_top (spec.read_def in_brackets) input.old) result input.new }
{
    Ok(Top::Def(def(alloc, input)?))
}

#[tactic(auto, using(crate::proofs::Other::other_read))]
fn other_stmt(alloc: Global, input: &mut Input<'_>) -> Result<Stmt, Halt>
    requires from { sees (of words.is_from) input.old ≡ false }
    requires cdef { sees (of words.is_cdef) input.old ≡ false }
    requires cpdef { sees (of words.is_cpdef) input.old ≡ false }
    ensures { Reads (spec.read_unless (of factored.is_apart) (spec.read_stmt_at 100) input.old) result input.new }
{
    statement(alloc, input, IN_FILE)
}

#[tactic(auto, unfolding(forms::specs::Readers::read_both, forms::specs::Readers::read_nothing))]
fn stmt_top(alloc: Global, input: &mut Input<'_>) -> Result<Top, Halt>
    requires from { sees (of words.is_from) input.old ≡ false }
    requires cdef { sees (of words.is_cdef) input.old ≡ false }
    requires cpdef { sees (of words.is_cpdef) input.old ≡ false }
    ensures { Reads (spec.read_mapped node.stmt_top (spec.read_unless (of factored.is_apart) (spec.read_stmt_at 100)) input.old) result input.new }
{
    Ok(Top::Stmt(other_stmt(alloc, input)?))
}

#[tactic(auto, unfolding(decl_grammar::specs::Reading::read_top, forms::specs::Readers::read_or))]
fn top(alloc: Global, input: &mut Input<'_>) -> Result<Top, Halt>
    ensures { Reads (spec.read_top in_brackets input.old) result input.new }
{
    if input.sees(StmtSet::Cimport) {
        return cimport_top(alloc, input);
    }
    if input.sees(StmtSet::From) {
        return from_top(alloc, input);
    }
    if input.sees(StmtSet::Cdef) {
        return cdef_top(alloc, input);
    }
    if input.sees(StmtSet::Cpdef) {
        return cpdef_top(alloc, input);
    }
    if input.sees(StmtSet::Def) {
        return def_top(alloc, input);
    }
    stmt_top(alloc, input)
}

/// Reads the items of an implementation file.
pub(crate) fn tops(alloc: Global, input: &mut Input<'_>) -> Result<Items<Top>, Halt>
    ensures { Reads (read_many (of spec.begins_top) (spec.read_top in_brackets) input.old) result input.new }
{
    let mut found = Items::new(alloc);
    for _turn in 0..input.len() {
        if !input.sees(StmtSet::BeginsTop) {
            return Ok(found);
        }
        let item = top(alloc, input)?;
        found.push(item)?;
    }
    Ok(found)
}
