//! The printer of C trees: the layout of the written files, which reads back.
#![tactic(auto)]

ghost use Rattle.std.specs.Prelude.{◌≡◌, ◌++◌, codes, decimal, IfOk, OnOk, true, Bool, List};
ghost use Rattle.std.specs.List.{flat_map};
ghost use Rattle.thin_state.specs.CReading.{IsFileInForm, c_reading};
ghost use Rattle.thin_state.specs.declared.CItem.{CItem};
ghost use Rattle.thin_print.specs.CText.{fixed_text, type_text, type_before, variable_text, place_text, numbered, function_text, row_text, exception_text, byte_text, string_text, value_text, comparison_text, target_text, destination_text, listed, arguments_text, goto_text, statement_text, line_text, initial_text, declaration_text, parameter_text, or_void, head_text, body_text, method_text, item_text, file_text};

use c_token::Exception;
use itoa::Buffer;
use sqlite_items::Items;
use std::alloc::{AllocError, Global};
use thin_state::{
    ApiRow, BinaryOp, CFile, CFunction, CHead, CItem, CStmt, CType, CValue, Comparison,
    Declaration, FunctionName, InitialValue, Line, MethodRow, Parameter, Place, Target, Variable,
};

type Put = Result<(), AllocError>;

// The texts that are the same in every file.
#[derive(Clone, Copy, Debug, PartialEq, Eq)]
pub enum Fixed {
    ViewType,
    RootStruct,
    FormatTest,
    WrapperStart,
    WrapperParameters,
    InitializerStart,
    MethodsStart,
    MethodsEnd,
    MethodCast,
    MethodFlags,
    DefinitionStart,
    DefinitionEnd,
}

const FORMAT_TEST: &[u8] = b"static int cyc_fmt(const char *f, const char *set)
{
    if (f == NULL) f = \"B\";
    if (f[0] == '@') f = f + 1;
    return f[0] != 0 && f[1] == 0 && strchr(set, f[0]) != NULL;
}
";

#[tactic(auto, unfolding(crate::specs::CText::fixed_text))]
fn fixed_bytes(fixed: Fixed) -> &'static [u8]
    ensures { result.now ≡ fixed_text fixed }
{
    match fixed {
        Fixed::ViewType => {
            b"typedef struct { PyObject *mv; char *buf; Py_ssize_t n[3]; Py_ssize_t s[3]; } cyc_view;\n"
        }
        Fixed::RootStruct => b"struct cyc_root { PyObject_HEAD const void *vt; };\n",
        Fixed::FormatTest => FORMAT_TEST,
        Fixed::WrapperStart => b"static PyObject *",
        Fixed::WrapperParameters => {
            b"(PyObject *self, PyObject *const *args, Py_ssize_t nargs)\n"
        }
        Fixed::InitializerStart => b"PyMODINIT_FUNC PyInit_",
        Fixed::MethodsStart => b"static PyMethodDef cyc_md[] = {\n",
        Fixed::MethodsEnd => b"    {NULL, NULL, 0, NULL}\n};\n",
        Fixed::MethodCast => b", (PyCFunction)(void (*)(void))",
        Fixed::MethodFlags => b", METH_FASTCALL, NULL},\n",
        Fixed::DefinitionStart => b"static struct PyModuleDef cyc_def = { PyModuleDef_HEAD_INIT, ",
        Fixed::DefinitionEnd => b", NULL, -1, cyc_md };\n",
    }
}

fn put_fixed(out: &mut Vec<u8>, fixed: Fixed) -> Put
    ensures { OnOk result (out.new.items ≡ out.old.items ++ fixed_text fixed) }
{
    out.extend_from_slice(fixed_bytes(fixed))
}

fn put_number(out: &mut Vec<u8>, number: u32) -> Put
    ensures { OnOk result (out.new.items ≡ out.old.items ++ decimal number) }
{
    out.extend_from_slice(Buffer::new().format(number).as_bytes())
}

fn put_lettered(out: &mut Vec<u8>, letters: &[u8], number: u32) -> Put
    ensures { OnOk result (out.new.items ≡ out.old.items ++ (letters.now ++ decimal number)) }
{
    out.extend_from_slice(letters)?;
    put_number(out, number)
}

fn put_numbered(out: &mut Vec<u8>, letters: &[u8], first: u32, second: u32) -> Put
    ensures { OnOk result (out.new.items ≡ out.old.items ++ numbered letters.now first second) }
{
    put_lettered(out, letters, first)?;
    put_lettered(out, b"_", second)
}

fn put_type(out: &mut Vec<u8>, kind: CType) -> Put
    ensures { OnOk result (out.new.items ≡ out.old.items ++ type_text kind) }
{
    out.extend_from_slice(match kind {
        CType::Int => b"int",
        CType::PySsizeT => b"Py_ssize_t",
        CType::PyObject => b"PyObject *",
    })
}

fn put_type_before(out: &mut Vec<u8>, kind: CType) -> Put
    ensures { OnOk result (out.new.items ≡ out.old.items ++ type_before kind) }
{
    out.extend_from_slice(match kind {
        CType::Int => b"int ",
        CType::PySsizeT => b"Py_ssize_t ",
        CType::PyObject => b"PyObject *",
    })
}

fn put_variable(out: &mut Vec<u8>, variable: Variable) -> Put
    ensures { OnOk result (out.new.items ≡ out.old.items ++ variable_text variable) }
{
    match variable {
        Variable::Parameter(j) => put_lettered(out, b"p", j),
        Variable::Local(j) => put_lettered(out, b"v", j),
        Variable::Temporary(j) => put_lettered(out, b"t", j),
        Variable::Returned => out.extend_from_slice(b"r"),
        Variable::SelfObject => out.extend_from_slice(b"self"),
        Variable::Arguments => out.extend_from_slice(b"args"),
        Variable::ArgumentCount => out.extend_from_slice(b"nargs"),
    }
}

fn put_place(out: &mut Vec<u8>, place: Place) -> Put
    ensures { OnOk result (out.new.items ≡ out.old.items ++ place_text place) }
{
    match place {
        Place::Module => out.extend_from_slice(b"cyc_m"),
        Place::Dictionary => out.extend_from_slice(b"cyc_d"),
        Place::Builtins => out.extend_from_slice(b"cyc_b"),
        Place::Ready => out.extend_from_slice(b"cyc_r"),
        Place::Constant(j) => put_lettered(out, b"cyc_c_", j),
        Place::Global(j) => put_lettered(out, b"cyc_g_", j),
    }
}

fn put_function(out: &mut Vec<u8>, name: &FunctionName) -> Put
    ensures { OnOk result (out.new.items ≡ out.old.items ++ function_text name.now) }
{
    match name {
        FunctionName::Plain(m, k) => put_numbered(out, b"cyc_f_", *m, *k),
        FunctionName::Wrapper(m, k) => put_numbered(out, b"cyc_w_", *m, *k),
        FunctionName::Initializer(name) => {
            out.extend_from_slice(b"PyInit_")?;
            out.extend_from_slice(name.as_slice())
        }
    }
}

fn row_name(row: ApiRow) -> &'static [u8]
    ensures { result.now ≡ row_text row }
{
    match row {
        ApiRow::Number(BinaryOp::Add) => b"PyNumber_Add",
        ApiRow::ModuleCreate => b"PyModule_Create",
        ApiRow::ModuleGetDict => b"PyModule_GetDict",
        ApiRow::ImportModule => b"PyImport_ImportModule",
        ApiRow::ErrSetString => b"PyErr_SetString",
    }
}

fn exception_name(exception: Exception) -> &'static [u8]
    ensures { result.now ≡ exception_text exception }
{
    match exception {
        Exception::BaseException => b"BaseException",
        Exception::TypeError => b"TypeError",
        Exception::NotImplementedError => b"NotImplementedError",
        Exception::OverflowError => b"OverflowError",
        Exception::ZeroDivisionError => b"ZeroDivisionError",
        Exception::ValueError => b"ValueError",
        Exception::IndexError => b"IndexError",
        Exception::AttributeError => b"AttributeError",
        Exception::SystemError => b"SystemError",
        Exception::NameError => b"NameError",
        Exception::UnboundLocalError => b"UnboundLocalError",
    }
}

fn put_byte(out: &mut Vec<u8>, byte: u8) -> Put
    ensures { OnOk result (out.new.items ≡ out.old.items ++ byte_text byte) }
{
    if byte < 32 || 126 < byte || byte == b'"' || byte == b'\\' {
        let octal = [
            b'\\',
            b'0' + byte / 64,
            b'0' + byte / 8 % 8,
            b'0' + byte % 8,
        ];
        out.extend_from_slice(&octal)
    } else {
        out.extend_from_slice(&[byte])
    }
}

fn put_string(out: &mut Vec<u8>, bytes: &[u8]) -> Put
    ensures { OnOk result (out.new.items ≡ out.old.items ++ string_text bytes.now) }
{
    out.extend_from_slice(b"\"")?;
    for byte in bytes {
        put_byte(out, *byte)?;
    }
    out.extend_from_slice(b"\"")
}

fn put_value(out: &mut Vec<u8>, value: &CValue) -> Put
    ensures { OnOk result (out.new.items ≡ out.old.items ++ value_text value.now) }
{
    match value {
        CValue::Variable(variable) => put_variable(out, *variable),
        CValue::Place(place) => put_place(out, *place),
        CValue::Argument(j) => {
            put_lettered(out, b"args[", *j)?;
            out.extend_from_slice(b"]")
        }
        CValue::Int(number) => put_number(out, *number),
        CValue::Str(bytes) => put_string(out, bytes.as_slice()),
        CValue::Null => out.extend_from_slice(b"NULL"),
        CValue::ExceptionType(exception) => {
            out.extend_from_slice(b"PyExc_")?;
            out.extend_from_slice(exception_name(*exception))
        }
        CValue::Definition => out.extend_from_slice(b"&cyc_def"),
    }
}

fn put_comparison(out: &mut Vec<u8>, comparison: Comparison) -> Put
    ensures { OnOk result (out.new.items ≡ out.old.items ++ comparison_text comparison) }
{
    out.extend_from_slice(match comparison {
        Comparison::Equal => b" == ",
        Comparison::NotEqual => b" != ",
    })
}

fn put_target(out: &mut Vec<u8>, target: Target) -> Put
    ensures { OnOk result (out.new.items ≡ out.old.items ++ target_text target) }
{
    match target {
        Target::Variable(variable) => put_variable(out, variable),
        Target::Place(place) => put_place(out, place),
    }
}

fn put_destination(out: &mut Vec<u8>, destination: Option<Variable>) -> Put
    ensures { OnOk result (out.new.items ≡ out.old.items ++ destination_text destination) }
{
    match destination {
        None => Ok(()),
        Some(variable) => {
            put_variable(out, variable)?;
            out.extend_from_slice(b" = ")
        }
    }
}

fn put_values(out: &mut Vec<u8>, values: &[CValue]) -> Put
    ensures { OnOk result (out.new.items ≡ out.old.items ++ listed value_text values.now) }
{
    let Some((first, more)) = values.split_first() else {
        return Ok(());
    };
    put_value(out, first)?;
    for value in more {
        out.extend_from_slice(b", ")?;
        put_value(out, value)?;
    }
    Ok(())
}

fn put_arguments(out: &mut Vec<u8>, values: &[CValue]) -> Put
    ensures { OnOk result (out.new.items ≡ out.old.items ++ arguments_text values.now) }
{
    out.extend_from_slice(b"(")?;
    put_values(out, values)?;
    out.extend_from_slice(b");\n")
}

fn put_goto(out: &mut Vec<u8>, label: u32) -> Put
    ensures { OnOk result (out.new.items ≡ out.old.items ++ goto_text label) }
{
    put_lettered(out, b"goto L", label)?;
    out.extend_from_slice(b";\n")
}

fn put_assignment(out: &mut Vec<u8>, target: Target, value: &CValue) -> Put
    ensures { OnOk result (out.new.items ≡ out.old.items
        ++ statement_text (CStmt.Assign target value.now)) }
{
    put_target(out, target)?;
    out.extend_from_slice(b" = ")?;
    put_value(out, value)?;
    out.extend_from_slice(b";\n")
}

fn put_test(out: &mut Vec<u8>, left: &CValue, comparison: Comparison, right: &CValue) -> Put
    ensures { OnOk result (out.new.items ≡ out.old.items ++ (codes "if ("
        ++ (value_text left.now ++ (comparison_text comparison ++ (value_text right.now ++ codes ") "))))) }
{
    out.extend_from_slice(b"if (")?;
    put_value(out, left)?;
    put_comparison(out, comparison)?;
    put_value(out, right)?;
    out.extend_from_slice(b") ")
}

fn put_statement(out: &mut Vec<u8>, statement: &CStmt) -> Put
    ensures { OnOk result (out.new.items ≡ out.old.items ++ statement_text statement.now) }
{
    match statement {
        CStmt::Assign(target, value) => put_assignment(out, *target, value),
        CStmt::Api(destination, row, values) => {
            put_destination(out, *destination)?;
            out.extend_from_slice(row_name(*row))?;
            put_arguments(out, values.as_slice())
        }
        CStmt::Call(destination, name, values) => {
            put_destination(out, *destination)?;
            put_function(out, name)?;
            put_arguments(out, values.as_slice())
        }
        CStmt::Incref(value) => {
            out.extend_from_slice(b"Py_INCREF(")?;
            put_value(out, value)?;
            out.extend_from_slice(b");\n")
        }
        CStmt::Decref(value) => {
            out.extend_from_slice(b"Py_DECREF(")?;
            put_value(out, value)?;
            out.extend_from_slice(b");\n")
        }
        CStmt::GotoIf(left, comparison, right, label) => {
            put_test(out, left, *comparison, right)?;
            put_goto(out, *label)
        }
        CStmt::Goto(label) => put_goto(out, *label),
        CStmt::Return(value) => {
            out.extend_from_slice(b"return ")?;
            put_value(out, value)?;
            out.extend_from_slice(b";\n")
        }
    }
}

fn put_line(out: &mut Vec<u8>, line: &Line) -> Put
    ensures { OnOk result (out.new.items ≡ out.old.items ++ line_text line.now) }
{
    match line {
        Line::Label(label) => {
            put_lettered(out, b"L", *label)?;
            out.extend_from_slice(b":\n")
        }
        Line::Statement(statement) => {
            out.extend_from_slice(b"    ")?;
            put_statement(out, statement)
        }
    }
}

fn put_declaration(out: &mut Vec<u8>, declaration: &Declaration) -> Put
    ensures { OnOk result (out.new.items ≡ out.old.items ++ declaration_text declaration.now) }
{
    out.extend_from_slice(b"    ")?;
    put_type_before(out, declaration.kind)?;
    put_variable(out, declaration.variable)?;
    out.extend_from_slice(match declaration.initial {
        InitialValue::Nothing => b";\n",
        InitialValue::Null => b" = NULL;\n",
        InitialValue::Zero => b" = 0;\n",
    })
}

fn put_parameter(out: &mut Vec<u8>, parameter: &Parameter) -> Put
    ensures { OnOk result (out.new.items ≡ out.old.items ++ parameter_text parameter.now) }
{
    put_type_before(out, parameter.kind)?;
    put_lettered(out, b"p", parameter.number)
}

fn put_kinds(out: &mut Vec<u8>, kinds: &[CType]) -> Put
    ensures { OnOk result (out.new.items ≡ out.old.items ++ or_void (listed type_text kinds.now)) }
{
    let Some((first, more)) = kinds.split_first() else {
        return out.extend_from_slice(b"void");
    };
    put_type(out, *first)?;
    for kind in more {
        out.extend_from_slice(b", ")?;
        put_type(out, *kind)?;
    }
    Ok(())
}

fn put_parameters(out: &mut Vec<u8>, parameters: &[Parameter]) -> Put
    ensures { OnOk result (out.new.items
        ≡ out.old.items ++ or_void (listed parameter_text parameters.now)) }
{
    let Some((first, more)) = parameters.split_first() else {
        return out.extend_from_slice(b"void");
    };
    put_parameter(out, first)?;
    for parameter in more {
        out.extend_from_slice(b", ")?;
        put_parameter(out, parameter)?;
    }
    Ok(())
}

fn put_plain_head(
    out: &mut Vec<u8>,
    name: (u32, u32),
    kind: CType,
    parameters: &Items<Parameter>,
) -> Put
    ensures { OnOk result (out.new.items
        ≡ out.old.items ++ head_text (CHead.Plain name.0 name.1 kind parameters.now)) }
{
    put_type_before(out, kind)?;
    put_numbered(out, b"cyc_f_", name.0, name.1)?;
    out.extend_from_slice(b"(")?;
    put_parameters(out, parameters.as_slice())?;
    out.extend_from_slice(b")\n")
}

fn put_head(out: &mut Vec<u8>, head: &CHead) -> Put
    ensures { OnOk result (out.new.items ≡ out.old.items ++ head_text head.now) }
{
    match head {
        CHead::Plain(m, k, kind, parameters) => put_plain_head(out, (*m, *k), *kind, parameters),
        CHead::Wrapper(m, k) => {
            put_fixed(out, Fixed::WrapperStart)?;
            put_numbered(out, b"cyc_w_", *m, *k)?;
            put_fixed(out, Fixed::WrapperParameters)
        }
        CHead::Initializer(name) => {
            put_fixed(out, Fixed::InitializerStart)?;
            out.extend_from_slice(name.as_slice())?;
            out.extend_from_slice(b"(void)\n")
        }
    }
}

fn put_declarations(out: &mut Vec<u8>, declarations: &[Declaration]) -> Put
    ensures { OnOk result (out.new.items
        ≡ out.old.items ++ flat_map declaration_text declarations.now) }
{
    for declaration in declarations {
        put_declaration(out, declaration)?;
    }
    Ok(())
}

fn put_lines(out: &mut Vec<u8>, lines: &[Line]) -> Put
    ensures { OnOk result (out.new.items ≡ out.old.items ++ flat_map line_text lines.now) }
{
    for line in lines {
        put_line(out, line)?;
    }
    Ok(())
}

fn put_body(out: &mut Vec<u8>, function: &CFunction) -> Put
    ensures { OnOk result (out.new.items ≡ out.old.items ++ body_text function.now) }
{
    out.extend_from_slice(b"{\n")?;
    put_declarations(out, function.declarations.as_slice())?;
    put_lines(out, function.lines.as_slice())?;
    out.extend_from_slice(b"}\n")
}

fn put_method(out: &mut Vec<u8>, method: &MethodRow) -> Put
    ensures { OnOk result (out.new.items ≡ out.old.items ++ method_text method.now) }
{
    out.extend_from_slice(b"    {")?;
    put_string(out, method.name.as_slice())?;
    put_fixed(out, Fixed::MethodCast)?;
    put_numbered(out, b"cyc_w_", method.module, method.index)?;
    put_fixed(out, Fixed::MethodFlags)
}

fn put_methods(out: &mut Vec<u8>, methods: &[MethodRow]) -> Put
    ensures { OnOk result (out.new.items ≡ out.old.items ++ flat_map method_text methods.now) }
{
    for method in methods {
        put_method(out, method)?;
    }
    Ok(())
}

fn put_prototype(out: &mut Vec<u8>, kind: CType, name: (u32, u32), kinds: &Items<CType>) -> Put
    ensures { OnOk result (out.new.items
        ≡ out.old.items ++ item_text (CItem.Prototype kind name.0 name.1 kinds.now)) }
{
    put_type_before(out, kind)?;
    put_numbered(out, b"cyc_f_", name.0, name.1)?;
    out.extend_from_slice(b"(")?;
    put_kinds(out, kinds.as_slice())?;
    out.extend_from_slice(b");\n")
}

fn put_item(out: &mut Vec<u8>, item: &CItem) -> Put
    ensures { OnOk result (out.new.items ≡ out.old.items ++ item_text item.now) }
{
    match item {
        CItem::DefineClean => out.extend_from_slice(b"#define PY_SSIZE_T_CLEAN\n"),
        CItem::IncludePython => out.extend_from_slice(b"#include <Python.h>\n"),
        CItem::IncludeSet => out.extend_from_slice(b"#include \"cyc_set.h\"\n"),
        CItem::ViewType => put_fixed(out, Fixed::ViewType),
        CItem::RootStruct => put_fixed(out, Fixed::RootStruct),
        CItem::FormatTest => put_fixed(out, Fixed::FormatTest),
        CItem::Prototype(kind, m, k, kinds) => put_prototype(out, *kind, (*m, *k), kinds),
        CItem::Static(kind, place) => {
            out.extend_from_slice(b"static ")?;
            put_type_before(out, *kind)?;
            put_place(out, *place)?;
            out.extend_from_slice(b";\n")
        }
        CItem::Function(function) => {
            put_head(out, &function.head)?;
            put_body(out, function)
        }
        CItem::Methods(methods) => {
            put_fixed(out, Fixed::MethodsStart)?;
            put_methods(out, methods.as_slice())?;
            put_fixed(out, Fixed::MethodsEnd)
        }
        CItem::ModuleDefinition(name) => {
            put_fixed(out, Fixed::DefinitionStart)?;
            put_string(out, name.as_slice())?;
            put_fixed(out, Fixed::DefinitionEnd)
        }
    }
}

/// The text of a file, items in order, in the layout of the written files.
pub fn print(alloc: Global, file: &CFile) -> Result<Vec<u8>, AllocError>
    ensures written { IfOk result (λ text. text.items ≡ file_text file.now) }
    ensures read_back { IfOk result (λ text. IsFileInForm file.now → c_reading text.items (file.now).items true) }
    ensures read_alone { IfOk result (λ text. IsFileInForm file.now → (trees : List CItem) (whole : Bool)
        → c_reading text.items trees whole → (trees ≡ (file.now).items) × (whole ≡ true)) }
{
    let mut out = Vec::new(alloc);
    for item in file.items.as_slice() {
        put_item(&mut out, item)?;
    }
    Ok(out)
}
