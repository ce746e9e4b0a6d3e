//! Names.
ghost use Rattle.std.specs.Prelude.{◌≡◌, ◌++◌, ◌∷◌, [], codes, decimal, IfOk};
ghost use Rattle.c_token.specs.CTokens.{Word};
ghost use Rattle.c_tree.specs.Names.{fixed_name, function_name, methods_name, of_field, place_name, variable_token};
ghost use Rattle.c_tree.specs.Forms.{IsFunctionName};
ghost use Rattle.c_writer.specs.Rest.{IsLetters};

use crate::mark::Put;
use c_tree::{FieldNumber, FixedParameter, FunctionName, Numbered, Place, TableName, Variable};
use c_writer::Writer;

fn fixed(out: Writer, x: FixedParameter) -> Put
    ensures { IfOk result (λ new. new ≡ out ++ Word (fixed_name x) ∷ []) }
{
    match x {
        FixedParameter::SelfObject => out.word(b"self", b""),
        FixedParameter::Arguments => out.word(b"args", b""),
        FixedParameter::ArgumentCount => out.word(b"nargs", b""),
        FixedParameter::Type => out.word(b"type", b""),
        FixedParameter::Keywords => out.word(b"kwds", b""),
        FixedParameter::Key => out.word(b"k", b""),
        FixedParameter::Value => out.word(b"value", b""),
        FixedParameter::Closure => out.word(b"closure", b""),
    }
}

pub(crate) fn place(out: Writer, x: Place) -> Put
    ensures { IfOk result (λ new. new ≡ out ++ Word (place_name x) ∷ []) }
{
    match x {
        Place::Module => out.word(b"cyc_m", b""),
        Place::Dictionary => out.word(b"cyc_d", b""),
        Place::Builtins => out.word(b"cyc_b", b""),
        Place::Ready => out.word(b"cyc_r", b""),
        Place::Constant(number) => out.lettered(b"cyc_c_", number),
        Place::Global(number) => out.lettered(b"cyc_g_", number),
    }
}

pub(crate) fn variable(out: Writer, x: Variable) -> Put
    ensures { IfOk result (λ new. new ≡ out ++ variable_token x ∷ []) }
{
    match x {
        Variable::Parameter(number) => out.lettered(b"p", number),
        Variable::Local(number) => out.lettered(b"v", number),
        Variable::Temporary(number) => out.lettered(b"t", number),
        Variable::Returned => out.word(b"r", b""),
        Variable::Fixed(x) => fixed(out, x),
        Variable::Place(x) => place(out, x),
    }
}

/// Writes letters, the module and the number in it.
pub(crate) fn numbered(out: Writer, letters: &[u8], n: Numbered) -> Put
    requires { IsLetters letters.now }
    ensures { IfOk result (λ new. new ≡ out ++ Word (letters.now ++ (decimal n.module ++ (codes "_" ++ decimal n.index))) ∷ []) }
{
    out.numbered(letters, n.module, n.index)
}

fn field(out: Writer, letters: &[u8], n: FieldNumber) -> Put
    requires { IsLetters letters.now }
    ensures { IfOk result (λ new. new ≡ out ++ Word ((letters.now ++ (decimal n.class.module ++ (codes "_" ++ decimal n.class.index))) ++ (codes "_" ++ decimal n.field)) ∷ []) }
{
    out.with_three(letters, n.class.module, n.class.index, n.field)
}

pub(crate) fn getter(out: Writer, n: FieldNumber) -> Put
    ensures { IfOk result (λ new. new ≡ out ++ Word (of_field "cyc_get_" n) ∷ []) }
{
    field(out, b"cyc_get_", n)
}

pub(crate) fn setter(out: Writer, n: FieldNumber) -> Put
    ensures { IfOk result (λ new. new ≡ out ++ Word (of_field "cyc_set_" n) ∷ []) }
{
    field(out, b"cyc_set_", n)
}

pub(crate) fn function(out: Writer, name: &FunctionName) -> Put
    requires { IsFunctionName name.now }
    ensures { IfOk result (λ new. new ≡ out ++ Word (function_name name.now) ∷ []) }
{
    match name {
        FunctionName::Plain(n) => numbered(out, b"cyc_f_", *n),
        FunctionName::Wrapper(n) => numbered(out, b"cyc_w_", *n),
        FunctionName::Overridable(n) => numbered(out, b"cyc_x_", *n),
        FunctionName::New(n) => numbered(out, b"cyc_new_", *n),
        FunctionName::Init(n) => numbered(out, b"cyc_init_", *n),
        FunctionName::Dealloc(n) => numbered(out, b"cyc_dealloc_", *n),
        FunctionName::Len(n) => numbered(out, b"cyc_len_", *n),
        FunctionName::Item(n) => numbered(out, b"cyc_item_", *n),
        FunctionName::Has(n) => numbered(out, b"cyc_has_", *n),
        FunctionName::Getter(n) => getter(out, *n),
        FunctionName::Setter(n) => setter(out, *n),
        FunctionName::Body => out.word(b"cyc_body", b""),
        FunctionName::Initializer(name) => out.word(b"PyInit_", name.as_slice()),
    }
}

pub(crate) fn methods(out: Writer, name: TableName) -> Put
    ensures { IfOk result (λ new. new ≡ out ++ Word (methods_name name) ∷ []) }
{
    match name {
        TableName::OfFile => out.word(b"cyc_md", b""),
        TableName::OfClass(n) => numbered(out, b"cyc_ms_", n),
    }
}
