//! Statements.
ghost use Rattle.std.specs.Prelude.{◌≡◌, ◌++◌, ◌∷◌, [], Some, None, IfOk};
ghost use Rattle.c_token.specs.CTokens.{Word, sign, word};
ghost use Rattle.c_tree.specs.Names.{letter_token, name_token, text, variable_token};
ghost use Rattle.c_tree.specs.Values.{string, type_spelling, value_spelling};
ghost use Rattle.c_tree.specs.Forms.{IsCallee, IsStatement};
ghost use Rattle.c_tree.specs.Statements.{arguments, assigned, between, buffer_of, callee_name, element, extent_of, field, given, method_of, number_spelling, statement_spelling, stored, table_of, test_spelling, view};
ghost use Rattle.c_printer.specs.Before.{before};

use crate::mark::{Put, ampersand, blank, close, equals, open, semicolon, tilde};
use crate::name::{numbered, variable};
use crate::place::{
    all_arguments, buffer, called, condition, element_place, extent, field_place, method,
    table_place, told, two, view_place,
};
use crate::value::{kind, value};
use c_tree::{
    Argument, BinaryOp, CStmt, CTest, CType, CValue, Callee, Extent, FieldPlace, Numbered,
    Variable, ViewNumber, ViewPlace,
};
use c_writer::Writer;

fn to(out: Writer, x: Variable) -> Put
    ensures { IfOk result (λ new. new ≡ out ++ variable_token x ∷ sign "=" ∷ []) }
{
    equals(variable(out, x)?)
}

fn assign(out: Writer, x: Variable, k: CValue) -> Put
    ensures { IfOk result (λ new. new ≡ out ++ assigned x (value_spelling k)) }
{
    semicolon(value(to(out, x)?, k)?)
}

fn binary(out: Writer, x: Variable, a: CValue, op: BinaryOp, b: CValue) -> Put
    ensures { IfOk result (λ new. new ≡ out ++ assigned x (between op (value_spelling a) (value_spelling b))) }
{
    semicolon(two(to(out, x)?, a, op, b)?)
}

fn invert(out: Writer, x: Variable, k: CValue) -> Put
    ensures { IfOk result (λ new. new ≡ out ++ assigned x (sign "~" ∷ value_spelling k)) }
{
    semicolon(value(tilde(to(out, x)?)?, k)?)
}

fn converted(out: Writer, it: CType, k: CValue) -> Put
    ensures { IfOk result (λ new. new ≡ out ++ sign "(" ∷ (type_spelling it ++ (sign ")" ∷ value_spelling k))) }
{
    let out = kind(open(out)?, it)?;
    value(close(out)?, k)
}

fn cast(out: Writer, x: Variable, it: CType, k: CValue) -> Put
    ensures { IfOk result (λ new. new ≡ out ++ (assigned x (sign "(" ∷ (type_spelling it ++ (sign ")" ∷ value_spelling k))))) }
{
    semicolon(converted(to(out, x)?, it, k)?)
}

fn destination(out: Writer, x: Option<Variable>) -> Put
    ensures { IfOk result (λ new. new ≡ out ++ before x) }
{
    match x {
        None => Ok(out),
        Some(x) => to(out, x),
    }
}

fn call(out: Writer, x: Option<Variable>, f: &Callee, all: &[Argument]) -> Put
    requires { IsCallee f.now }
    ensures { IfOk result (λ new. new ≡ out ++ given x (Word (callee_name f.now) ∷ arguments all.now)) }
{
    let out = called(destination(out, x)?, f)?;
    semicolon(all_arguments(out, all)?)
}

fn load_field(out: Writer, x: Variable, p: FieldPlace) -> Put
    ensures { IfOk result (λ new. new ≡ out ++ assigned x (field p)) }
{
    semicolon(field_place(to(out, x)?, p)?)
}

fn store_field(out: Writer, p: FieldPlace, k: CValue) -> Put
    ensures { IfOk result (λ new. new ≡ out ++ stored (field p) (value_spelling k)) }
{
    semicolon(value(equals(field_place(out, p)?)?, k)?)
}

fn table_address(out: Writer, n: Numbered) -> Put
    ensures { IfOk result (λ new. new ≡ out ++ sign "&" ∷ name_token "cyc_t_" n ∷ []) }
{
    numbered(ampersand(out)?, b"cyc_t_", n)
}

fn store_table(out: Writer, y: Variable, n: Numbered) -> Put
    ensures { IfOk result (λ new. new ≡ out ++ stored (table_of y) (sign "&" ∷ name_token "cyc_t_" n ∷ [])) }
{
    semicolon(table_address(equals(table_place(out, y)?)?, n)?)
}

fn method_call(out: Writer, n: Numbered, y: Variable, number: u32, all: &[Argument]) -> Put
    ensures { IfOk result (λ new. new ≡ out ++ (method_of n y number ++ arguments all.now)) }
{
    all_arguments(method(out, n, y, number)?, all)
}

fn call_method(
    out: Writer,
    x: Option<Variable>,
    n: Numbered,
    y: Variable,
    number: u32,
    all: &[Argument],
) -> Put
    ensures { IfOk result (λ new. new ≡ out ++ (given x (method_of n y number ++ arguments all.now))) }
{
    semicolon(method_call(destination(out, x)?, n, y, number, all)?)
}

fn native_test(out: Writer, y: Variable, n: Numbered) -> Put
    ensures { IfOk result (λ new. new ≡ out ++ (text "PyCFunction_Check(" ++ (variable_token y ∷ (text ") && PyCFunction_GetFunction(" ++ (variable_token y ∷ (text ") == (PyCFunction)(void (*)(void))" ++ (name_token "cyc_w_" n ∷ []))))))) }
{
    let out = variable(out.text(b"PyCFunction_Check(")?, y)?;
    let out = variable(out.text(b") && PyCFunction_GetFunction(")?, y)?;
    numbered(
        out.text(b") == (PyCFunction)(void (*)(void))")?,
        b"cyc_w_",
        n,
    )
}

fn is_native(out: Writer, x: Variable, y: Variable, n: Numbered) -> Put
    ensures { IfOk result (λ new. new ≡ out ++ (assigned x (text "PyCFunction_Check(" ++ (variable_token y ∷ (text ") && PyCFunction_GetFunction(" ++ (variable_token y ∷ (text ") == (PyCFunction)(void (*)(void))" ++ (name_token "cyc_w_" n ∷ [])))))))) }
{
    semicolon(native_test(to(out, x)?, y, n)?)
}

fn heap_test(out: Writer, y: Variable) -> Put
    ensures { IfOk result (λ new. new ≡ out ++ (text "PyType_HasFeature(Py_TYPE(" ++ (variable_token y ∷ text "), Py_TPFLAGS_HEAPTYPE)"))) }
{
    let out = variable(out.text(b"PyType_HasFeature(Py_TYPE(")?, y)?;
    out.text(b"), Py_TPFLAGS_HEAPTYPE)")
}

fn has_heap_type(out: Writer, x: Variable, y: Variable) -> Put
    ensures { IfOk result (λ new. new ≡ out ++ (assigned x (text "PyType_HasFeature(Py_TYPE(" ++ (variable_token y ∷ text "), Py_TPFLAGS_HEAPTYPE)")))) }
{
    semicolon(heap_test(to(out, x)?, y)?)
}

fn goto(out: Writer, t: CTest, label: u32) -> Put
    ensures { IfOk result (λ new. new ≡ out ++ (test_spelling t ++ (word "goto" ∷ letter_token "L" label ∷ sign ";" ∷ []))) }
{
    let out = condition(out, t)?.word(b"goto", b"")?;
    semicolon(out.lettered(b"L", label)?)
}

fn return_word(out: Writer) -> Put
    ensures { IfOk result (λ new. new ≡ out ++ word "return" ∷ []) }
{
    blank(out.word(b"return", b"")?)
}

fn given_back(out: Writer, k: Option<CValue>) -> Put
    ensures { IfOk result (λ new. new ≡ out ++ statement_spelling (CStmt.Return k)) }
{
    match k {
        None => out.text(b"return;"),
        Some(k) => semicolon(value(return_word(out)?, k)?),
    }
}

fn free(out: Writer, x: Variable) -> Put
    ensures { IfOk result (λ new. new ≡ out ++ statement_spelling (CStmt.Free x)) }
{
    let out = variable(out.text(b"Py_TYPE(")?, x)?;
    let out = variable(out.text(b")->tp_free(")?, x)?;
    out.text(b");")
}

fn tell(out: Writer, x: Variable, y: Variable, n: ViewNumber) -> Put
    ensures { IfOk result (λ new. new ≡ out ++ (assigned x (buffer_of y ++ number_spelling n))) }
{
    semicolon(told(buffer(to(out, x)?, y)?, n)?)
}

fn indirect_test(out: Writer, y: Variable) -> Put
    ensures { IfOk result (λ new. new ≡ out ++ (buffer_of y ++ text "suboffsets != NULL")) }
{
    buffer(out, y)?.text(b"suboffsets != NULL")
}

fn is_indirect(out: Writer, x: Variable, y: Variable) -> Put
    ensures { IfOk result (λ new. new ≡ out ++ (assigned x (buffer_of y ++ text "suboffsets != NULL"))) }
{
    semicolon(indirect_test(to(out, x)?, y)?)
}

fn format_test(out: Writer, y: Variable, letters: &[u8]) -> Put
    ensures { IfOk result (λ new. new ≡ out ++ (text "cyc_fmt(" ++ (buffer_of y ++ (text "format, " ++ (string letters.now ∷ text ")"))))) }
{
    let out = buffer(out.text(b"cyc_fmt(")?, y)?;
    out.text(b"format, ")?.string(letters)?.text(b")")
}

fn has_format(out: Writer, x: Variable, y: Variable, letters: &[u8]) -> Put
    ensures { IfOk result (λ new. new ≡ out ++ (assigned x (text "cyc_fmt(" ++ (buffer_of y ++ (text "format, " ++ (string letters.now ∷ text ")")))))) }
{
    semicolon(format_test(to(out, x)?, y, letters)?)
}

fn buffer_place(out: Writer, v: ViewPlace) -> Put
    ensures { IfOk result (λ new. new ≡ out ++ (view v ++ text ".buf")) }
{
    view_place(out, v)?.text(b".buf")
}

fn taken(out: Writer, y: Variable) -> Put
    ensures { IfOk result (λ new. new ≡ out ++ (text "(char *)" ++ (buffer_of y ++ text "buf"))) }
{
    buffer(out.text(b"(char *)")?, y)?.text(b"buf")
}

fn take_buffer(out: Writer, v: ViewPlace, y: Variable) -> Put
    ensures { IfOk result (λ new. new ≡ out ++ (stored (view v ++ text ".buf") (text "(char *)" ++ (buffer_of y ++ text "buf")))) }
{
    semicolon(taken(equals(buffer_place(out, v)?)?, y)?)
}

fn copy_buffer(out: Writer, v: ViewPlace, w: ViewPlace) -> Put
    ensures { IfOk result (λ new. new ≡ out ++ (stored (view v ++ text ".buf") (view w ++ text ".buf"))) }
{
    let out = equals(buffer_place(out, v)?)?;
    semicolon(buffer_place(out, w)?)
}

fn moved(out: Writer, v: ViewPlace, k: CValue) -> Put
    ensures { IfOk result (λ new. new ≡ out ++ (view v ++ (text ".buf + " ++ value_spelling k))) }
{
    value(view_place(out, v)?.text(b".buf + ")?, k)
}

fn move_buffer(out: Writer, v: ViewPlace, k: CValue) -> Put
    ensures { IfOk result (λ new. new ≡ out ++ (stored (view v ++ text ".buf") (view v ++ (text ".buf + " ++ value_spelling k)))) }
{
    semicolon(moved(equals(buffer_place(out, v)?)?, v, k)?)
}

fn memory_place(out: Writer, v: ViewPlace) -> Put
    ensures { IfOk result (λ new. new ≡ out ++ (view v ++ text ".mv")) }
{
    view_place(out, v)?.text(b".mv")
}

fn store_memory(out: Writer, v: ViewPlace, k: CValue) -> Put
    ensures { IfOk result (λ new. new ≡ out ++ (stored (view v ++ text ".mv") (value_spelling k))) }
{
    let out = equals(memory_place(out, v)?)?;
    semicolon(value(out, k)?)
}

fn load_memory(out: Writer, x: Variable, v: ViewPlace) -> Put
    ensures { IfOk result (λ new. new ≡ out ++ (assigned x (view v ++ text ".mv"))) }
{
    semicolon(memory_place(to(out, x)?, v)?)
}

fn store_extent(out: Writer, v: ViewPlace, e: Extent, number: u32, k: CValue) -> Put
    ensures { IfOk result (λ new. new ≡ out ++ stored (extent_of v e number) (value_spelling k)) }
{
    let out = equals(extent(out, v, e, number)?)?;
    semicolon(value(out, k)?)
}

fn load_extent(out: Writer, x: Variable, v: ViewPlace, e: Extent, number: u32) -> Put
    ensures { IfOk result (λ new. new ≡ out ++ assigned x (extent_of v e number)) }
{
    semicolon(extent(to(out, x)?, v, e, number)?)
}

fn load_element(out: Writer, x: Variable, it: CType, v: Variable, y: Variable) -> Put
    ensures { IfOk result (λ new. new ≡ out ++ assigned x (element it v y)) }
{
    semicolon(element_place(to(out, x)?, it, v, y)?)
}

fn store_element(out: Writer, it: CType, v: Variable, y: Variable, k: CValue) -> Put
    ensures { IfOk result (λ new. new ≡ out ++ stored (element it v y) (value_spelling k)) }
{
    let out = equals(element_place(out, it, v, y)?)?;
    semicolon(value(out, k)?)
}

#[tactic(auto, unfolding(c_tree::specs::Statements::statement_spelling))]
pub(crate) fn statement(out: Writer, s: &CStmt) -> Put
    requires { IsStatement s.now }
    ensures { IfOk result (λ new. new ≡ out ++ statement_spelling s.now) }
{
    match s {
        CStmt::Assign(x, k) => assign(out, *x, *k),
        CStmt::Binary(x, a, op, b) => binary(out, *x, *a, *op, *b),
        CStmt::Invert(x, k) => invert(out, *x, *k),
        CStmt::Cast(x, it, k) => cast(out, *x, *it, *k),
        CStmt::Call(x, f, all) => call(out, *x, f, all.as_slice()),
        CStmt::LoadField(x, p) => load_field(out, *x, *p),
        CStmt::StoreField(p, k) => store_field(out, *p, *k),
        CStmt::StoreTable(y, n) => store_table(out, *y, *n),
        CStmt::CallMethod(x, n, y, number, all) => call_method(
            out,
            *x,
            *n,
            *y,
            *number,
            all.as_slice(),
        ),
        CStmt::IsNative(x, y, n) => is_native(out, *x, *y, *n),
        CStmt::HasHeapType(x, y) => has_heap_type(out, *x, *y),
        CStmt::Goto(t, label) => goto(out, *t, *label),
        CStmt::Return(k) => given_back(out, *k),
        CStmt::Free(x) => free(out, *x),
        CStmt::ViewNumber(x, y, n) => tell(out, *x, *y, *n),
        CStmt::IsIndirect(x, y) => is_indirect(out, *x, *y),
        CStmt::HasFormat(x, y, letters) => has_format(out, *x, *y, letters.as_slice()),
        CStmt::TakeBuffer(v, y) => take_buffer(out, *v, *y),
        CStmt::CopyBuffer(v, w) => copy_buffer(out, *v, *w),
        CStmt::MoveBuffer(v, k) => move_buffer(out, *v, *k),
        CStmt::StoreMemory(v, k) => store_memory(out, *v, *k),
        CStmt::LoadMemory(x, v) => load_memory(out, *x, *v),
        CStmt::StoreExtent(v, e, number, k) => store_extent(out, *v, *e, *number, *k),
        CStmt::LoadExtent(x, v, e, number) => load_extent(out, *x, *v, *e, *number),
        CStmt::LoadElement(x, it, v, y) => load_element(out, *x, *it, *v, *y),
        CStmt::StoreElement(it, v, y, k) => store_element(out, *it, *v, *y, *k),
    }
}
