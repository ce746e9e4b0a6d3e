//! The C of a thin function of two parameters, with one change in its body.
use crate::long;
use anyhow::{Result, anyhow};
use c_token::{Bytes, Exception};
use sqlite_items::Items;
use std::alloc::Global;
use thin_state::{
    ApiRow, BinaryOp, CFile, CFunction, CHead, CItem, CStmt, CType, CValue, Comparison,
    Declaration, InitialValue, Line, Parameter, Place, Target, Variable,
};

// The place of the function among the items of the module's file.
const FUNCTION_PLACE: usize = 5;

fn value(variable: Variable) -> CValue {
    CValue::Variable(variable)
}

fn declared(variable: Variable, initial: InitialValue) -> Declaration {
    Declaration {
        kind: CType::PyObject,
        variable,
        initial,
    }
}

// `t0 = PyNumber_Add(p0, p1);`
fn add(alloc: Global) -> Result<CStmt> {
    let mut operands = Items::new(alloc);
    operands.push(value(Variable::Parameter(0)))?;
    operands.push(value(Variable::Parameter(1)))?;
    let row = ApiRow::Number(BinaryOp::Add);
    Ok(CStmt::Api(Some(Variable::Temporary(0)), row, operands))
}

// `PyErr_SetString(PyExc_TypeError, "again");`
fn raise(alloc: Global) -> Result<CStmt> {
    let mut operands = Items::new(alloc);
    operands.push(CValue::ExceptionType(Exception::TypeError))?;
    operands.push(CValue::Str(Bytes::new(Vec::from_slice(alloc, b"again")?)))?;
    Ok(CStmt::Api(None, ApiRow::ErrSetString, operands))
}

// `v0 = PyModule_GetDict(cyc_m);`
fn borrow(alloc: Global) -> Result<CStmt> {
    let mut operands = Items::new(alloc);
    operands.push(CValue::Place(Place::Module))?;
    Ok(CStmt::Api(Some(Variable::Local(0)), ApiRow::ModuleGetDict, operands))
}

// What is added at the front: a borrowed reference, and an increment of it in one of the cases.
fn put_front(alloc: Global, change: &str, lines: &mut Items<Line>) -> Result<()> {
    match change {
        "borrowed_and_kept" => {
            lines.push(Line::Statement(borrow(alloc)?))?;
            lines.push(Line::Statement(CStmt::Incref(value(Variable::Local(0)))))?;
        }
        "borrowed_too_long" => lines.push(Line::Statement(borrow(alloc)?))?,
        _ => {}
    }
    Ok(())
}

// What stands before the label.
fn kept(change: &str) -> Option<CStmt> {
    let target = Target::Variable(Variable::Returned);
    match change {
        "result_lost" => None,
        "unset_variable" => Some(CStmt::Assign(target, value(Variable::Local(0)))),
        _ => Some(CStmt::Assign(target, value(Variable::Temporary(0)))),
    }
}

// What is added before `return r;`.
fn added(alloc: Global, change: &str) -> Result<Option<CStmt>> {
    Ok(match change {
        "one_decrement" => Some(CStmt::Decref(value(Variable::Parameter(0)))),
        "borrowed_and_kept" => Some(CStmt::Decref(value(Variable::Local(0)))),
        "borrowed_too_long" => Some(CStmt::Incref(value(Variable::Local(0)))),
        "one_increment" => Some(CStmt::Incref(value(Variable::Parameter(0)))),
        "no_label" => Some(CStmt::Goto(9)),
        "asks_again" => Some(add(alloc)?),
        "raises_again" => Some(raise(alloc)?),
        _ => None,
    })
}

fn lines(alloc: Global, change: &str) -> Result<Items<Line>> {
    let mut lines = Items::new(alloc);
    put_front(alloc, change, &mut lines)?;
    lines.push(Line::Statement(add(alloc)?))?;
    let sum = value(Variable::Temporary(0));
    let test = CStmt::GotoIf(sum, Comparison::Equal, CValue::Null, 0);
    lines.push(Line::Statement(test))?;
    if let Some(statement) = kept(change) {
        lines.push(Line::Statement(statement))?;
    }
    lines.push(Line::Label(0))?;
    if let Some(statement) = added(alloc, change)? {
        lines.push(Line::Statement(statement))?;
    }
    if change != "no_return" {
        lines.push(Line::Statement(CStmt::Return(value(Variable::Returned))))?;
    }
    Ok(lines)
}

fn function(alloc: Global, change: &str) -> Result<CFunction> {
    let mut parameters = Items::new(alloc);
    let mut declarations = Items::new(alloc);
    for number in 0..2 {
        parameters.push(Parameter {
            kind: CType::PyObject,
            number,
        })?;
    }
    declarations.push(declared(Variable::Returned, InitialValue::Null))?;
    declarations.push(declared(Variable::Temporary(0), InitialValue::Null))?;
    declarations.push(declared(Variable::Local(0), InitialValue::Nothing))?;
    Ok(CFunction {
        head: CHead::Plain(0, 0, CType::PyObject, parameters),
        declarations,
        lines: lines(alloc, change)?,
    })
}

// The function in place of the module's.
fn replaced(alloc: Global, change: &str) -> Result<CFunction> {
    if change == "asks" {
        return long::asking(alloc);
    }
    match change.strip_prefix("loop ") {
        Some(size) => long::function(alloc, size.parse::<u32>()?),
        None => function(alloc, change),
    }
}

/// The files with the change, and as they are where none is named.
pub fn changed(alloc: Global, files: Vec<CFile>, change: &str) -> Result<Vec<CFile>> {
    let mut files = files;
    if change.is_empty() {
        return Ok(files);
    }
    let function = replaced(alloc, change)?;
    let file = files.get_mut(1).ok_or(anyhow!("no file of the module"))?;
    if file.items.len() <= FUNCTION_PLACE {
        return Err(anyhow!("no function"));
    }
    file.items.set(FUNCTION_PLACE, CItem::Function(function));
    Ok(files)
}
