//! Tables with named members, and type objects.
ghost use Rattle.std.specs.Prelude.{◌≡◌, ◌++◌, ◌∷◌, [], Some, None, IfOk};
ghost use Rattle.c_token.specs.CTokens.{sign, word};
ghost use Rattle.c_tree.specs.Names.{listed, name_token, text};
ghost use Rattle.c_tree.specs.Values.{string};
ghost use Rattle.c_tree.specs.Items.{member, members, static_or, type_members};
ghost use Rattle.c_printer.specs.Members.{first_three, later};

use crate::mark::{
    Put, comma, comma_line, ends, ends_here, equals, gives, indent, open_inner, points,
};
use crate::name::numbered;
use crate::tables::static_word;
use c_tree::{Numbered, TypeObject};
use c_writer::Writer;

fn base_member(out: Writer, n: Numbered) -> Put
    ensures { IfOk result (λ new. new ≡ out ++ (text ".tp_base" ++ (text "= &" ++ (name_token "cyc_ty_" n ∷ [])))) }
{
    numbered(points(out.text(b".tp_base")?)?, b"cyc_ty_", n)
}

fn base_if_any(out: Writer, it: Option<Numbered>) -> Put
    ensures { IfOk result (λ new. new ≡ out ++ later (member ".tp_base" "= &" "cyc_ty_" it)) }
{
    match it {
        None => Ok(out),
        Some(n) => base_member(comma_line(out)?, n),
    }
}

fn new_member(out: Writer, n: Numbered) -> Put
    ensures { IfOk result (λ new. new ≡ out ++ (text ".tp_new" ++ (text "=" ++ (name_token "cyc_new_" n ∷ [])))) }
{
    numbered(gives(out.text(b".tp_new")?)?, b"cyc_new_", n)
}

fn new_if_any(out: Writer, it: Option<Numbered>) -> Put
    ensures { IfOk result (λ new. new ≡ out ++ later (member ".tp_new" "=" "cyc_new_" it)) }
{
    match it {
        None => Ok(out),
        Some(n) => new_member(comma_line(out)?, n),
    }
}

fn init_member(out: Writer, n: Numbered) -> Put
    ensures { IfOk result (λ new. new ≡ out ++ (text ".tp_init" ++ (text "=" ++ (name_token "cyc_init_" n ∷ [])))) }
{
    numbered(gives(out.text(b".tp_init")?)?, b"cyc_init_", n)
}

fn init_if_any(out: Writer, it: Option<Numbered>) -> Put
    ensures { IfOk result (λ new. new ≡ out ++ later (member ".tp_init" "=" "cyc_init_" it)) }
{
    match it {
        None => Ok(out),
        Some(n) => init_member(comma_line(out)?, n),
    }
}

fn dealloc_member(out: Writer, n: Numbered) -> Put
    ensures { IfOk result (λ new. new ≡ out ++ (text ".tp_dealloc" ++ (text "=" ++ (name_token "cyc_dealloc_" n ∷ [])))) }
{
    numbered(gives(out.text(b".tp_dealloc")?)?, b"cyc_dealloc_", n)
}

fn dealloc_if_any(out: Writer, it: Option<Numbered>) -> Put
    ensures { IfOk result (λ new. new ≡ out ++ later (member ".tp_dealloc" "=" "cyc_dealloc_" it)) }
{
    match it {
        None => Ok(out),
        Some(n) => dealloc_member(comma_line(out)?, n),
    }
}

fn methods_member(out: Writer, n: Numbered) -> Put
    ensures { IfOk result (λ new. new ≡ out ++ (text ".tp_methods" ++ (text "=" ++ (name_token "cyc_ms_" n ∷ [])))) }
{
    numbered(gives(out.text(b".tp_methods")?)?, b"cyc_ms_", n)
}

fn methods_if_any(out: Writer, it: Option<Numbered>) -> Put
    ensures { IfOk result (λ new. new ≡ out ++ later (member ".tp_methods" "=" "cyc_ms_" it)) }
{
    match it {
        None => Ok(out),
        Some(n) => methods_member(comma_line(out)?, n),
    }
}

fn properties_member(out: Writer, n: Numbered) -> Put
    ensures { IfOk result (λ new. new ≡ out ++ (text ".tp_getset" ++ (text "=" ++ (name_token "cyc_gs_" n ∷ [])))) }
{
    numbered(gives(out.text(b".tp_getset")?)?, b"cyc_gs_", n)
}

fn properties_if_any(out: Writer, it: Option<Numbered>) -> Put
    ensures { IfOk result (λ new. new ≡ out ++ later (member ".tp_getset" "=" "cyc_gs_" it)) }
{
    match it {
        None => Ok(out),
        Some(n) => properties_member(comma_line(out)?, n),
    }
}

fn sequence_member(out: Writer, n: Numbered) -> Put
    ensures { IfOk result (λ new. new ≡ out ++ (text ".tp_as_sequence" ++ (text "= &" ++ (name_token "cyc_sq_" n ∷ [])))) }
{
    numbered(points(out.text(b".tp_as_sequence")?)?, b"cyc_sq_", n)
}

fn sequence_if_any(out: Writer, it: Option<Numbered>) -> Put
    ensures { IfOk result (λ new. new ≡ out ++ later (member ".tp_as_sequence" "= &" "cyc_sq_" it)) }
{
    match it {
        None => Ok(out),
        Some(n) => sequence_member(comma_line(out)?, n),
    }
}

fn mapping_member(out: Writer, n: Numbered) -> Put
    ensures { IfOk result (λ new. new ≡ out ++ (text ".tp_as_mapping" ++ (text "= &" ++ (name_token "cyc_mp_" n ∷ [])))) }
{
    numbered(points(out.text(b".tp_as_mapping")?)?, b"cyc_mp_", n)
}

fn mapping_if_any(out: Writer, it: Option<Numbered>) -> Put
    ensures { IfOk result (λ new. new ≡ out ++ later (member ".tp_as_mapping" "= &" "cyc_mp_" it)) }
{
    match it {
        None => Ok(out),
        Some(n) => mapping_member(comma_line(out)?, n),
    }
}

fn length_member(out: Writer, n: Numbered) -> Put
    ensures { IfOk result (λ new. new ≡ out ++ (text ".sq_length" ++ (text "=" ++ (name_token "cyc_len_" n ∷ [])))) }
{
    numbered(gives(out.text(b".sq_length")?)?, b"cyc_len_", n)
}

fn contains_member(out: Writer, n: Numbered) -> Put
    ensures { IfOk result (λ new. new ≡ out ++ (text ".sq_contains" ++ (text "=" ++ (name_token "cyc_has_" n ∷ [])))) }
{
    numbered(gives(out.text(b".sq_contains")?)?, b"cyc_has_", n)
}

fn size_member(out: Writer, n: Numbered) -> Put
    ensures { IfOk result (λ new. new ≡ out ++ (text ".mp_length" ++ (text "=" ++ (name_token "cyc_len_" n ∷ [])))) }
{
    numbered(gives(out.text(b".mp_length")?)?, b"cyc_len_", n)
}

fn subscript_member(out: Writer, n: Numbered) -> Put
    ensures { IfOk result (λ new. new ≡ out ++ (text ".mp_subscript" ++ (text "=" ++ (name_token "cyc_item_" n ∷ [])))) }
{
    numbered(gives(out.text(b".mp_subscript")?)?, b"cyc_item_", n)
}

fn contains_if_any(out: Writer, it: Option<Numbered>) -> Put
    ensures { IfOk result (λ new. new ≡ out ++ later (member ".sq_contains" "=" "cyc_has_" it)) }
{
    match it {
        None => Ok(out),
        Some(n) => contains_member(comma(out)?, n),
    }
}

fn subscript_if_any(out: Writer, it: Option<Numbered>) -> Put
    ensures { IfOk result (λ new. new ≡ out ++ later (member ".mp_subscript" "=" "cyc_item_" it)) }
{
    match it {
        None => Ok(out),
        Some(n) => subscript_member(comma(out)?, n),
    }
}

fn sequence_members_second(out: Writer, second: Option<Numbered>) -> Put
    ensures { IfOk result (λ new. new ≡ out ++ listed (λ tokens. tokens) (member ".sq_contains" "=" "cyc_has_" second)) }
{
    match second {
        None => Ok(out),
        Some(n) => contains_member(out, n),
    }
}

fn sequence_members(out: Writer, first: Option<Numbered>, second: Option<Numbered>) -> Put
    ensures { IfOk result (λ new. new ≡ out ++ listed (λ tokens. tokens) (member ".sq_length" "=" "cyc_len_" first ++ member ".sq_contains" "=" "cyc_has_" second)) }
{
    match first {
        Some(n) => contains_if_any(length_member(out, n)?, second),
        None => sequence_members_second(out, second),
    }
}

fn mapping_members_second(out: Writer, second: Option<Numbered>) -> Put
    ensures { IfOk result (λ new. new ≡ out ++ listed (λ tokens. tokens) (member ".mp_subscript" "=" "cyc_item_" second)) }
{
    match second {
        None => Ok(out),
        Some(n) => subscript_member(out, n),
    }
}

fn mapping_members(out: Writer, first: Option<Numbered>, second: Option<Numbered>) -> Put
    ensures { IfOk result (λ new. new ≡ out ++ listed (λ tokens. tokens) (member ".mp_length" "=" "cyc_len_" first ++ member ".mp_subscript" "=" "cyc_item_" second)) }
{
    match first {
        Some(n) => subscript_if_any(size_member(out, n)?, second),
        None => mapping_members_second(out, second),
    }
}

pub(crate) fn sequence_table(
    out: Writer,
    is_static: bool,
    n: Numbered,
    first: Option<Numbered>,
    second: Option<Numbered>,
) -> Put
    ensures { IfOk result (λ new. new ≡ out ++ (static_or is_static [] ++ (word "PySequenceMethods" ∷ name_token "cyc_sq_" n ∷ sign "=" ∷ members (member ".sq_length" "=" "cyc_len_" first ++ member ".sq_contains" "=" "cyc_has_" second)))) }
{
    let out = static_word(out, is_static)?.word(b"PySequenceMethods", b"")?;
    let out = open_inner(equals(numbered(out, b"cyc_sq_", n)?)?)?;
    ends_here(sequence_members(out, first, second)?)
}

pub(crate) fn mapping_table(
    out: Writer,
    is_static: bool,
    n: Numbered,
    first: Option<Numbered>,
    second: Option<Numbered>,
) -> Put
    ensures { IfOk result (λ new. new ≡ out ++ (static_or is_static [] ++ (word "PyMappingMethods" ∷ name_token "cyc_mp_" n ∷ sign "=" ∷ members (member ".mp_length" "=" "cyc_len_" first ++ member ".mp_subscript" "=" "cyc_item_" second)))) }
{
    let out = static_word(out, is_static)?.word(b"PyMappingMethods", b"")?;
    let out = open_inner(equals(numbered(out, b"cyc_mp_", n)?)?)?;
    ends_here(mapping_members(out, first, second)?)
}

#[tactic(auto, unfolding(c_token::specs::CTokens::c_tokens, c_token::specs::CTokens::tokens_from))]
fn name_start(out: Writer) -> Put
    ensures { IfOk result (λ new. new ≡ out ++ text ".tp_name =") }
{
    out.text(b".tp_name = ")
}

fn name_member(out: Writer, name: &[u8]) -> Put
    ensures { IfOk result (λ new. new ≡ out ++ (text ".tp_name =" ++ (string name.now ∷ []))) }
{
    name_start(out)?.string(name)
}

fn size_of(out: Writer, n: Numbered) -> Put
    ensures { IfOk result (λ new. new ≡ out ++ (text ".tp_basicsize = sizeof(struct" ++ (name_token "cyc_o_" n ∷ text ")"))) }
{
    numbered(out.text(b".tp_basicsize = sizeof(struct")?, b"cyc_o_", n)?.text(b")")
}

// The members that always stand.
fn three(out: Writer, it: &TypeObject) -> Put
    ensures { IfOk result (λ new. new ≡ out ++ first_three it.now) }
{
    let out = comma_line(name_member(indent(out)?, it.name.as_slice())?)?;
    let out = comma_line(size_of(out, it.size)?)?;
    out.text(b".tp_flags = Py_TPFLAGS_DEFAULT | Py_TPFLAGS_BASETYPE")
}

fn functions(out: Writer, it: &TypeObject) -> Put
    ensures { IfOk result (λ new. new ≡ out ++ (later (member ".tp_base" "= &" "cyc_ty_" it.now.base) ++ (later (member ".tp_new" "=" "cyc_new_" it.now.new) ++ (later (member ".tp_init" "=" "cyc_init_" it.now.init) ++ later (member ".tp_dealloc" "=" "cyc_dealloc_" it.now.dealloc))))) }
{
    let out = new_if_any(base_if_any(out, it.base)?, it.new)?;
    dealloc_if_any(init_if_any(out, it.init)?, it.dealloc)
}

fn tables(out: Writer, it: &TypeObject) -> Put
    ensures { IfOk result (λ new. new ≡ out ++ (later (member ".tp_methods" "=" "cyc_ms_" it.now.methods) ++ (later (member ".tp_getset" "=" "cyc_gs_" it.now.properties) ++ (later (member ".tp_as_sequence" "= &" "cyc_sq_" it.now.sequence) ++ later (member ".tp_as_mapping" "= &" "cyc_mp_" it.now.mapping))))) }
{
    let out = properties_if_any(methods_if_any(out, it.methods)?, it.properties)?;
    mapping_if_any(sequence_if_any(out, it.sequence)?, it.mapping)
}

fn all_members(out: Writer, it: &TypeObject) -> Put
    ensures { IfOk result (λ new. new ≡ out ++ listed (λ tokens. tokens) (type_members it.now)) }
{
    tables(functions(three(out, it)?, it)?, it)
}

#[tactic(auto, unfolding(c_token::specs::CTokens::c_tokens, c_token::specs::CTokens::tokens_from))]
fn type_start(out: Writer) -> Put
    ensures { IfOk result (λ new. new ≡ out ++ text "= { PyVarObject_HEAD_INIT(NULL, 0)") }
{
    out.text(b" = { PyVarObject_HEAD_INIT(NULL, 0)")
}

pub(crate) fn type_object(out: Writer, is_static: bool, it: &TypeObject) -> Put
    ensures { IfOk result (λ new. new ≡ out ++ (static_or is_static [] ++ (word "PyTypeObject" ∷ name_token "cyc_ty_" it.now.class ∷ (text "= { PyVarObject_HEAD_INIT(NULL, 0)" ++ (listed (λ tokens. tokens) (type_members it.now) ++ text "};"))))) }
{
    let out = static_word(out, is_static)?.word(b"PyTypeObject", b"")?;
    let out = type_start(numbered(out, b"cyc_ty_", it.class)?)?;
    ends(all_members(out, it)?)
}
