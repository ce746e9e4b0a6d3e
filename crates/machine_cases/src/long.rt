//! Functions of two parameters that run for ever: one goes through its labels and variables, one asks operations.
use anyhow::Result;
use sqlite_items::Items;
use std::alloc::Global;
use thin_state::{
    ApiRow, BinaryOp, CFunction, CHead, CStmt, CType, CValue, Declaration, InitialValue, Line,
    Parameter, Target, Variable,
};

// `L3: v3 = v2; goto L4;`
fn put_block(lines: &mut Items<Line>, label: u32, before: u32, next: u32) -> Result<()> {
    let target = Target::Variable(Variable::Local(label));
    let value = CValue::Variable(Variable::Local(before));
    lines.push(Line::Label(label))?;
    lines.push(Line::Statement(CStmt::Assign(target, value)))?;
    lines.push(Line::Statement(CStmt::Goto(next)))?;
    Ok(())
}

// The head of a function of two objects.
fn head(alloc: Global) -> Result<CHead> {
    let mut parameters = Items::new(alloc);
    for number in 0..2 {
        parameters.push(Parameter {
            kind: CType::PyObject,
            number,
        })?;
    }
    Ok(CHead::Plain(0, 0, CType::PyObject, parameters))
}

/// `L0: t0 = PyNumber_Add(p0, p1); Py_DECREF(t0); goto L0;`
pub fn asking(alloc: Global) -> Result<CFunction> {
    let mut operands = Items::new(alloc);
    operands.push(CValue::Variable(Variable::Parameter(0)))?;
    operands.push(CValue::Variable(Variable::Parameter(1)))?;
    let sum = Variable::Temporary(0);
    let row = ApiRow::Number(BinaryOp::Add);
    let mut lines = Items::new(alloc);
    lines.push(Line::Label(0))?;
    lines.push(Line::Statement(CStmt::Api(Some(sum), row, operands)))?;
    lines.push(Line::Statement(CStmt::Decref(CValue::Variable(sum))))?;
    lines.push(Line::Statement(CStmt::Goto(0)))?;
    let mut declarations = Items::new(alloc);
    declarations.push(Declaration {
        kind: CType::PyObject,
        variable: sum,
        initial: InitialValue::Null,
    })?;
    Ok(CFunction {
        head: head(alloc)?,
        declarations,
        lines,
    })
}

/// The function with so many labels, and as many variables.
pub fn function(alloc: Global, size: u32) -> Result<CFunction> {
    let mut declarations = Items::new(alloc);
    let mut lines = Items::new(alloc);
    let mut before = size.saturating_sub(1);
    for label in 0..size {
        declarations.push(Declaration {
            kind: CType::PyObject,
            variable: Variable::Local(label),
            initial: InitialValue::Null,
        })?;
        let next = label.saturating_add(1);
        put_block(
            &mut lines,
            label,
            before,
            if next < size { next } else { 0 },
        )?;
        before = label;
    }
    Ok(CFunction {
        head: head(alloc)?,
        declarations,
        lines,
    })
}
