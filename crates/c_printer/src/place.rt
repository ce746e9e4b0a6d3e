//! Parts of statements: calls, and the places that they read and write.
ghost use Rattle.std.specs.Prelude.{◌≡◌, ◌++◌, ◌∷◌, [], Some, None, IfOk};
ghost use Rattle.std.specs.List.{flat_map};
ghost use Rattle.c_token.specs.CTokens.{Word, sign};
ghost use Rattle.c_tree.specs.Names.{listed, text};
ghost use Rattle.c_tree.specs.Values.{value_spelling};
ghost use Rattle.c_tree.specs.Forms.{IsCallee};
ghost use Rattle.c_tree.specs.Statements.{argument_spelling, arguments, between, buffer_of, callee_name, element, extent_name, extent_of, field, method_of, number_spelling, op_spelling, table_of, test_spelling, view};

use crate::mark::{Put, close, comma, dot, open};
use crate::name::{function, numbered, variable};
use crate::value::{index, kind, value};
use c_tree::{
    Argument, BinaryOp, CTest, CType, CValue, Callee, Extent, FieldPlace, Numbered, Variable,
    ViewNumber, ViewPlace,
};
use c_writer::Writer;

fn operator(out: Writer, op: BinaryOp) -> Put
    ensures { IfOk result (λ new. new ≡ out ++ op_spelling op ∷ []) }
{
    match op {
        BinaryOp::Add => out.text(b" + "),
        BinaryOp::Subtract => out.text(b" - "),
        BinaryOp::Multiply => out.text(b" * "),
        BinaryOp::Divide => out.text(b" / "),
        BinaryOp::Remainder => out.text(b" % "),
        BinaryOp::BitAnd => out.text(b" & "),
        BinaryOp::BitOr => out.text(b" | "),
        BinaryOp::BitXor => out.text(b" ^ "),
        BinaryOp::ShiftLeft => out.text(b" << "),
        BinaryOp::ShiftRight => out.text(b" >> "),
        BinaryOp::Less => out.text(b" < "),
        BinaryOp::LessEqual => out.text(b" <= "),
        BinaryOp::Equal => out.text(b" == "),
        BinaryOp::NotEqual => out.text(b" != "),
        BinaryOp::Greater => out.text(b" > "),
        BinaryOp::GreaterEqual => out.text(b" >= "),
    }
}

pub(crate) fn two(out: Writer, a: CValue, op: BinaryOp, b: CValue) -> Put
    ensures { IfOk result (λ new. new ≡ out ++ between op (value_spelling a) (value_spelling b)) }
{
    let out = operator(value(out, a)?, op)?;
    value(out, b)
}

pub(crate) fn called(out: Writer, it: &Callee) -> Put
    requires { IsCallee it.now }
    ensures { IfOk result (λ new. new ≡ out ++ Word (callee_name it.now) ∷ []) }
{
    match it {
        Callee::Function(name) => function(out, name),
        Callee::Named(name) => out.word(name.as_slice(), b""),
    }
}

fn argument(out: Writer, it: &Argument) -> Put
    ensures { IfOk result (λ new. new ≡ out ++ argument_spelling it.now) }
{
    match it {
        Argument::Value(k) => value(out, *k),
        Argument::Str(bytes) => out.string(bytes.as_slice()),
    }
}

fn next_argument(out: Writer, it: &Argument) -> Put
    ensures { IfOk result (λ new. new ≡ out ++ sign "," ∷ argument_spelling it.now) }
{
    argument(comma(out)?, it)
}

fn more_arguments(out: Writer, all: &[Argument]) -> Put
    ensures { IfOk result (λ new. new ≡ out ++ flat_map (λ a. sign "," ∷ argument_spelling a) all.now) }
{
    let mut out = out;
    for it in all {
        out = next_argument(out, it)?;
    }
    Ok(out)
}

fn some_arguments(out: Writer, all: &[Argument]) -> Put
    ensures { IfOk result (λ new. new ≡ out ++ listed argument_spelling all.now) }
{
    match all.split_first() {
        None => Ok(out),
        Some((first, more)) => more_arguments(argument(out, first)?, more),
    }
}

pub(crate) fn all_arguments(out: Writer, all: &[Argument]) -> Put
    ensures { IfOk result (λ new. new ≡ out ++ arguments all.now) }
{
    close(some_arguments(open(out)?, all)?)
}

pub(crate) fn field_place(out: Writer, p: FieldPlace) -> Put
    ensures { IfOk result (λ new. new ≡ out ++ field p) }
{
    let out = numbered(out.text(b"((struct ")?, b"cyc_o_", p.class)?;
    let out = variable(out.text(b" *)")?, p.object)?;
    out.text(b")->")?.lettered(b"f", p.field)
}

pub(crate) fn table_place(out: Writer, y: Variable) -> Put
    ensures { IfOk result (λ new. new ≡ out ++ table_of y) }
{
    let out = variable(out.text(b"((struct cyc_root *)")?, y)?;
    out.text(b")->vt")
}

pub(crate) fn method(out: Writer, n: Numbered, y: Variable, number: u32) -> Put
    ensures { IfOk result (λ new. new ≡ out ++ method_of n y number) }
{
    let out = numbered(out.text(b"((const struct ")?, b"cyc_vt_", n)?;
    let out = table_place(out.text(b" *)")?, y)?;
    out.text(b")->")?.lettered(b"m", number)
}

pub(crate) fn view_place(out: Writer, v: ViewPlace) -> Put
    ensures { IfOk result (λ new. new ≡ out ++ view v) }
{
    match v {
        ViewPlace::Variable(x) => variable(out, x),
        ViewPlace::Field(p) => field_place(out, p),
    }
}

fn extent_word(out: Writer, e: Extent) -> Put
    ensures { IfOk result (λ new. new ≡ out ++ extent_name e ∷ []) }
{
    match e {
        Extent::Length => out.word(b"n", b""),
        Extent::Stride => out.word(b"s", b""),
    }
}

pub(crate) fn extent(out: Writer, v: ViewPlace, e: Extent, number: u32) -> Put
    ensures { IfOk result (λ new. new ≡ out ++ extent_of v e number) }
{
    let out = dot(view_place(out, v)?)?;
    index(extent_word(out, e)?, number)
}

pub(crate) fn buffer(out: Writer, y: Variable) -> Put
    ensures { IfOk result (λ new. new ≡ out ++ buffer_of y) }
{
    let out = variable(out.text(b"PyMemoryView_GET_BUFFER(")?, y)?;
    out.text(b")->")
}

pub(crate) fn told(out: Writer, n: ViewNumber) -> Put
    ensures { IfOk result (λ new. new ≡ out ++ number_spelling n) }
{
    match n {
        ViewNumber::Dimensions => out.text(b"ndim"),
        ViewNumber::ItemSize => out.text(b"itemsize"),
        ViewNumber::Readonly => out.text(b"readonly"),
        ViewNumber::Shape(number) => index(out.word(b"shape", b"")?, number),
        ViewNumber::Stride(number) => index(out.word(b"strides", b"")?, number),
    }
}

pub(crate) fn element_place(out: Writer, it: CType, v: Variable, y: Variable) -> Put
    ensures { IfOk result (λ new. new ≡ out ++ element it v y) }
{
    let out = kind(out.text(b"*(")?, it)?;
    let out = variable(out.text(b" *)(")?, v)?;
    let out = variable(out.text(b".buf + ")?, y)?;
    out.text(b")")
}

pub(crate) fn condition(out: Writer, t: CTest) -> Put
    ensures { IfOk result (λ new. new ≡ out ++ test_spelling t) }
{
    match t {
        CTest::Compare(a, op, b) => two(out.text(b"if (")?, a, op, b)?.text(b") "),
        CTest::ErrorSet => out.text(b"if (PyErr_Occurred()) "),
        CTest::Always => Ok(out),
    }
}
