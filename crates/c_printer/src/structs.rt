//! Structs of instances and of method tables, and the tables.
ghost use Rattle.std.specs.Prelude.{◌≡◌, ◌++◌, ◌∷◌, [], codes, decimal, length, replicate, IfOk};
ghost use Rattle.std.specs.List.{flat_map, AllByRecursion};
ghost use Rattle.c_token.specs.CTokens.{Word, sign, word};
ghost use Rattle.c_tree.specs.Names.{letter_token, name_token, text};
ghost use Rattle.c_tree.specs.Values.{result_spelling, type_spelling};
ghost use Rattle.c_tree.specs.Forms.{IsFunctionName, IsNumber};
ghost use Rattle.c_writer.specs.Rest.{IsLetters};
ghost use Rattle.c_tree.specs.Items.{base_spelling, behind, fields_spelling, function_token, slot_spelling, table_base_spelling, table_spelling};

use crate::head::types;
use crate::mark::{Put, blank, close_inner, comma, equals, member_end, open_apart, open_inner};
use crate::name::{function, numbered};
use crate::value::{given, kind};
use c_tree::{Base, CResult, CType, FunctionName, Numbered, Slot, StructTable, TableBase};
use c_writer::Writer;
use sqlite_items::Items;

#[tactic(auto, unfolding(c_token::specs::CTokens::c_tokens, c_token::specs::CTokens::tokens_from))]
fn base_end(out: Writer) -> Put
    ensures { IfOk result (λ new. new ≡ out ++ text "b;") }
{
    out.text(b" b; ")
}

#[tactic(auto, unfolding(c_token::specs::CTokens::c_tokens, c_token::specs::CTokens::tokens_from))]
fn root_base(out: Writer) -> Put
    ensures { IfOk result (λ new. new ≡ out ++ text "struct cyc_root b;") }
{
    out.text(b"struct cyc_root b; ")
}

#[tactic(auto, unfolding(c_token::specs::CTokens::c_tokens, c_token::specs::CTokens::tokens_from))]
fn name_base(out: Writer) -> Put
    ensures { IfOk result (λ new. new ≡ out ++ text "const char *name;") }
{
    out.text(b"const char *name; ")
}

fn class_base(out: Writer, n: Numbered) -> Put
    ensures { IfOk result (λ new. new ≡ out ++ (word "struct" ∷ name_token "cyc_o_" n ∷ text "b;")) }
{
    base_end(numbered(out.word(b"struct", b"")?, b"cyc_o_", n)?)
}

fn base(out: Writer, it: Base) -> Put
    ensures { IfOk result (λ new. new ≡ out ++ base_spelling it) }
{
    match it {
        Base::Root => root_base(out),
        Base::Class(n) => class_base(out, n),
    }
}

fn field(out: Writer, number: u32, it: CType) -> Put
    ensures { IfOk result (λ new. new ≡ out ++ (type_spelling it ++ (letter_token "f" number ∷ sign ";" ∷ []))) }
{
    member_end(kind(out, it)?.lettered(b"f", number)?)
}

fn table_base(out: Writer, it: TableBase) -> Put
    ensures { IfOk result (λ new. new ≡ out ++ table_base_spelling it) }
{
    match it {
        TableBase::Name => name_base(out),
        TableBase::Class(n) => class_table(out, n),
    }
}

fn class_table(out: Writer, n: Numbered) -> Put
    ensures { IfOk result (λ new. new ≡ out ++ (word "struct" ∷ name_token "cyc_vt_" n ∷ text "b;")) }
{
    base_end(numbered(out.word(b"struct", b"")?, b"cyc_vt_", n)?)
}

// Whether the type ends in a word, behind which a blank stands.
fn ends_in_word(it: CResult) -> bool {
    !matches!(
        it,
        CResult::Value(CType::Object | CType::ThreadState | CType::TypeObject)
    )
}

fn given_apart(out: Writer, it: CResult) -> Put
    ensures { IfOk result (λ new. new ≡ out ++ result_spelling it) }
{
    let out = given(out, it)?;
    if ends_in_word(it) {
        blank(out)
    } else {
        Ok(out)
    }
}

#[tactic(auto, unfolding(c_token::specs::CTokens::c_tokens, c_token::specs::CTokens::tokens_from))]
fn slot_end(out: Writer) -> Put
    ensures { IfOk result (λ new. new ≡ out ++ text ";") }
{
    out.text(b"; ")
}

fn slot(out: Writer, it: &Slot) -> Put
    ensures { IfOk result (λ new. new ≡ out ++ slot_spelling it.now) }
{
    let out = given_apart(out, it.result)?
        .text(b"(*")?
        .lettered(b"m", it.number)?;
    slot_end(types(out.text(b")")?, it.parameters.as_slice())?)
}

fn fields(out: Writer, all: &[CType]) -> Put
    requires { IsNumber (length all.now) }
    ensures { IfOk result (λ new. new ≡ out ++ fields_spelling 0 all.now) }
{
    let mut out = out;
    let mut number = 0;
    for it in all {
        out = field(out, number, *it)?;
        number += 1;
    }
    Ok(out)
}

fn slots(out: Writer, all: &[Slot]) -> Put
    ensures { IfOk result (λ new. new ≡ out ++ flat_map slot_spelling all.now) }
{
    let mut out = out;
    for it in all {
        out = slot(out, it)?;
    }
    Ok(out)
}

fn struct_start(out: Writer, letters: &[u8], n: Numbered) -> Put
    requires { IsLetters letters.now }
    ensures { IfOk result (λ new. new ≡ out ++ (word "struct" ∷ Word (letters.now ++ (decimal n.module ++ (codes "_" ++ decimal n.index))) ∷ sign "{" ∷ [])) }
{
    open_apart(numbered(out.word(b"struct", b"")?, letters, n)?)
}

pub(crate) fn instance_struct(out: Writer, n: Numbered, it: Base, all: &[CType]) -> Put
    requires { IsNumber (length all.now) }
    ensures { IfOk result (λ new. new ≡ out ++ (word "struct" ∷ name_token "cyc_o_" n ∷ sign "{" ∷ (base_spelling it ++ (fields_spelling 0 all.now ++ text "};")))) }
{
    let out = base(struct_start(out, b"cyc_o_", n)?, it)?;
    fields(out, all)?.text(b"};")
}

pub(crate) fn table_struct(out: Writer, n: Numbered, it: TableBase, all: &[Slot]) -> Put
    ensures { IfOk result (λ new. new ≡ out ++ (word "struct" ∷ name_token "cyc_vt_" n ∷ sign "{" ∷ (table_base_spelling it ++ (flat_map slot_spelling all.now ++ text "};")))) }
{
    let out = table_base(struct_start(out, b"cyc_vt_", n)?, it)?;
    slots(out, all)?.text(b"};")
}

// ---- method tables

fn function_behind(out: Writer, f: &FunctionName) -> Put
    requires { IsFunctionName f.now }
    ensures { IfOk result (λ new. new ≡ out ++ (sign "," ∷ function_token f.now ∷ [])) }
{
    function(comma(out)?, f)
}

fn functions_behind(out: Writer, all: &[FunctionName]) -> Put
    requires { AllByRecursion IsFunctionName all.now }
    ensures { IfOk result (λ new. new ≡ out ++ behind all.now) }
{
    let mut out = out;
    for f in all {
        out = function_behind(out, f)?;
    }
    Ok(out)
}

fn layer(out: Writer, all: &Items<FunctionName>) -> Put
    requires { AllByRecursion IsFunctionName all.now }
    ensures { IfOk result (λ new. new ≡ out ++ (sign "}" ∷ behind all.now)) }
{
    functions_behind(close_inner(out)?, all.as_slice())
}

fn layers(out: Writer, all: &[Items<FunctionName>]) -> Put
    requires { AllByRecursion (AllByRecursion IsFunctionName) all.now }
    ensures { IfOk result (λ new. new ≡ out ++ flat_map (λ fs. sign "}" ∷ behind fs) all.now) }
{
    let mut out = out;
    for it in all {
        out = layer(out, it)?;
    }
    Ok(out)
}

fn braces(out: Writer, count: usize) -> Put
    ensures { IfOk result (λ new. new ≡ out ++ replicate count (sign "{")) }
{
    let mut out = out;
    for _ in 0..count {
        out = open_inner(out)?;
    }
    Ok(out)
}

fn table_value(out: Writer, it: &StructTable) -> Put
    requires inner { AllByRecursion IsFunctionName it.now.inner }
    requires outer { AllByRecursion (AllByRecursion IsFunctionName) it.now.outer }
    ensures { IfOk result (λ new. new ≡ out ++ table_spelling it.now) }
{
    let out = braces(open_inner(out)?, it.outer.len())?;
    let out = functions_behind(out.string(it.name.as_slice())?, it.inner.as_slice())?;
    close_inner(layers(out, it.outer.as_slice())?)
}

pub(crate) fn table(out: Writer, it: &StructTable) -> Put
    requires inner { AllByRecursion IsFunctionName it.now.inner }
    requires outer { AllByRecursion (AllByRecursion IsFunctionName) it.now.outer }
    ensures { IfOk result (λ new. new ≡ out ++ (text "const struct" ++ (name_token "cyc_vt_" it.now.class ∷ name_token "cyc_t_" it.now.class ∷ sign "=" ∷ (table_spelling it.now ++ text ";")))) }
{
    let out = numbered(out.text(b"const struct")?, b"cyc_vt_", it.class)?;
    let out = equals(numbered(out, b"cyc_t_", it.class)?)?;
    table_value(out, it)?.text(b";")
}
