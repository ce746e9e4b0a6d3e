//! The lines of the three functions.
ghost use Rattle.std.specs.Prelude.{◌≡◌, IfOk};
ghost use Rattle.std.specs.List.{AllByRecursion};
ghost use Rattle.c_tree.specs.Forms.{IsArgument, IsCallee, IsStatement, IsString, IsValue, IsVariable};
ghost use Rattle.c_text_cases.specs.Bodies.{AreLines};

use anyhow::{Result, anyhow};
use c_token::{Bytes, Exception};
use c_tree::{
    Argument, BinaryOp, CStmt, CTest, CValue, Callee, FixedParameter, FunctionName, Line, Literal,
    Numbered, Place, Variable,
};
use c_word::callee;
use cy_base::OutOfMemory;
use sqlite_items::Items;
use std::alloc::Global;

pub const ZERO: Numbered = Numbered {
    module: 0,
    index: 0,
};

const T0: Variable = Variable::Temporary(0);

const T1: Variable = Variable::Temporary(1);

const R: Variable = Variable::Returned;

pub fn copied(alloc: Global, bytes: &[u8]) -> Result<Bytes, OutOfMemory>
    ensures { IfOk result (λ copy. copy ≡ bytes.now) }
{
    Ok(Bytes::new(Vec::from_slice(alloc, bytes)?))
}

fn named(alloc: Global, name: &[u8]) -> Result<Callee>
    ensures { IfOk result (λ f. IsCallee f) }
{
    match callee(alloc, name)? {
        Some(f) => Ok(f),
        None => Err(anyhow!("a keyword")),
    }
}

// ---- arguments

fn no_argument(alloc: Global) -> Items<Argument>
    ensures { AllByRecursion IsArgument result }
{
    Items::new(alloc)
}

fn with_argument(all: Items<Argument>, k: CValue) -> Result<Items<Argument>>
    requires arguments { AllByRecursion IsArgument all }
    requires value { IsValue k }
    ensures { IfOk result (λ new. AllByRecursion IsArgument new) }
{
    let mut all = all;
    all.push(Argument::Value(k))?;
    Ok(all)
}

fn with_string(alloc: Global, all: Items<Argument>, bytes: &[u8]) -> Result<Items<Argument>>
    requires arguments { AllByRecursion IsArgument all }
    requires string { IsString bytes.now }
    ensures { IfOk result (λ new. AllByRecursion IsArgument new) }
{
    let mut all = all;
    all.push(Argument::Str(copied(alloc, bytes)?))?;
    Ok(all)
}

fn one_argument(alloc: Global, k: CValue) -> Result<Items<Argument>>
    requires { IsValue k }
    ensures { IfOk result (λ all. AllByRecursion IsArgument all) }
{
    with_argument(no_argument(alloc), k)
}

fn two_arguments(alloc: Global, a: CValue, b: CValue) -> Result<Items<Argument>>
    requires left { IsValue a }
    requires right { IsValue b }
    ensures { IfOk result (λ all. AllByRecursion IsArgument all) }
{
    with_argument(one_argument(alloc, a)?, b)
}

// ---- lines

fn no_line(alloc: Global) -> Items<Line>
    ensures { AreLines result }
{
    Items::new(alloc)
}

#[tactic(auto, using(crate::proofs::Appended::lines_append))]
fn then(lines: Items<Line>, s: CStmt) -> Result<Items<Line>>
    requires before { AreLines lines }
    requires statement { IsStatement s }
    ensures { IfOk result (λ new. AreLines new) }
{
    let mut lines = lines;
    lines.push(Line::Statement(s))?;
    Ok(lines)
}

// A label, and the statement behind it.
#[tactic(auto, using(crate::proofs::Appended::lines_append))]
fn labelled(alloc: Global, lines: Items<Line>, label: u32, s: CStmt) -> Result<Items<Line>>
    requires before { AreLines lines }
    requires statement { IsStatement s }
    ensures { IfOk result (λ new. AreLines new) }
{
    let mut lines = lines;
    let mut more = Items::new(alloc);
    more.push(Line::Label(label))?;
    more.push(Line::Statement(s))?;
    lines.append(more)?;
    Ok(lines)
}

fn assign(lines: Items<Line>, x: Variable, k: CValue) -> Result<Items<Line>>
    requires before { AreLines lines }
    requires variable { IsVariable x }
    requires value { IsValue k }
    ensures { IfOk result (λ new. AreLines new) }
{
    then(lines, CStmt::Assign(x, k))
}

// `x = NAME(..);`
fn call(
    alloc: Global,
    lines: Items<Line>,
    x: Variable,
    name: &[u8],
    all: Items<Argument>,
) -> Result<Items<Line>>
    requires before { AreLines lines }
    requires variable { IsVariable x }
    requires arguments { AllByRecursion IsArgument all }
    ensures { IfOk result (λ new. AreLines new) }
{
    then(lines, CStmt::Call(Some(x), named(alloc, name)?, all))
}

// `NAME(..);`
fn call_alone(
    alloc: Global,
    lines: Items<Line>,
    name: &[u8],
    all: Items<Argument>,
) -> Result<Items<Line>>
    requires before { AreLines lines }
    requires arguments { AllByRecursion IsArgument all }
    ensures { IfOk result (λ new. AreLines new) }
{
    then(lines, CStmt::Call(None, named(alloc, name)?, all))
}

// `NAME(x);`
fn count(alloc: Global, lines: Items<Line>, name: &[u8], x: Variable) -> Result<Items<Line>>
    requires before { AreLines lines }
    requires variable { IsVariable x }
    ensures { IfOk result (λ new. AreLines new) }
{
    call_alone(
        alloc,
        lines,
        name,
        one_argument(alloc, CValue::Variable(x))?,
    )
}

// `if (a OP b) goto L0;`
fn leave(lines: Items<Line>, a: CValue, op: BinaryOp, b: CValue) -> Result<Items<Line>>
    requires before { AreLines lines }
    requires left { IsValue a }
    requires right { IsValue b }
    ensures { IfOk result (λ new. AreLines new) }
{
    then(lines, CStmt::Goto(CTest::Compare(a, op, b), 0))
}

// `if (t0 == NULL) goto L0;`
fn leave_without(lines: Items<Line>) -> Result<Items<Line>>
    requires { AreLines lines }
    ensures { IfOk result (λ new. AreLines new) }
{
    leave(lines, CValue::Variable(T0), BinaryOp::Equal, CValue::Null)
}

fn given() -> CStmt
    ensures { IsStatement result }
{
    CStmt::Return(Some(CValue::Variable(R)))
}

// `L0:` and `return r;`
fn end(alloc: Global, lines: Items<Line>) -> Result<Items<Line>>
    requires { AreLines lines }
    ensures { IfOk result (λ new. AreLines new) }
{
    labelled(alloc, lines, 0, given())
}

// ---- the functions

pub fn plain(alloc: Global) -> Result<Items<Line>>
    ensures { IfOk result (λ all. AreLines all) }
{
    let all = two_arguments(
        alloc,
        CValue::Variable(Variable::Parameter(0)),
        CValue::Variable(Variable::Parameter(1)),
    )?;
    let lines = call(alloc, no_line(alloc), T0, b"PyNumber_Add", all)?;
    let lines = leave_without(lines)?;
    let lines = assign(lines, R, CValue::Variable(T0))?;
    end(alloc, lines)
}

// `if (nargs != 2) goto L0;`
fn counted(lines: Items<Line>) -> Result<Items<Line>>
    requires { AreLines lines }
    ensures { IfOk result (λ new. AreLines new) }
{
    leave(
        lines,
        CValue::Variable(Variable::Fixed(FixedParameter::ArgumentCount)),
        BinaryOp::NotEqual,
        CValue::Literal(Literal::Int(2)),
    )
}

// `r = cyc_f_0_0(args[0], args[1]);` and `return r;`
fn passed_on(alloc: Global, lines: Items<Line>) -> Result<Items<Line>>
    requires { AreLines lines }
    ensures { IfOk result (λ new. AreLines new) }
{
    let all = two_arguments(alloc, CValue::Argument(0), CValue::Argument(1))?;
    let lines = then(
        lines,
        CStmt::Call(Some(R), Callee::Function(FunctionName::Plain(ZERO)), all),
    )?;
    then(lines, given())
}

// `PyErr_SetString(PyExc_TypeError, "f() takes 2 arguments");`
fn refusal(alloc: Global) -> Result<CStmt>
    ensures { IfOk result (λ s. IsStatement s) }
{
    let all = one_argument(alloc, CValue::Exception(Exception::TypeError))?;
    let all = with_string(alloc, all, b"f() takes 2 arguments")?;
    Ok(CStmt::Call(None, named(alloc, b"PyErr_SetString")?, all))
}

pub fn wrapper(alloc: Global) -> Result<Items<Line>>
    ensures { IfOk result (λ all. AreLines all) }
{
    let lines = counted(no_line(alloc))?;
    let lines = passed_on(alloc, lines)?;
    let lines = labelled(alloc, lines, 0, refusal(alloc)?)?;
    then(lines, given())
}

fn with_module(alloc: Global, lines: Items<Line>) -> Result<Items<Line>>
    requires { AreLines lines }
    ensures { IfOk result (λ new. AreLines new) }
{
    let lines = call(
        alloc,
        lines,
        T0,
        b"PyModule_Create",
        one_argument(alloc, CValue::Definition)?,
    )?;
    let lines = leave_without(lines)?;
    assign(lines, Variable::Place(Place::Module), CValue::Variable(T0))
}

// `t = PyModule_GetDict(m);`, `Py_INCREF(t);` and `place = t;`
fn with_dictionary(
    alloc: Global,
    lines: Items<Line>,
    temporary: u32,
    owner: Variable,
    place: Place,
) -> Result<Items<Line>>
    requires before { AreLines lines }
    requires owner { IsVariable owner }
    requires place { IsVariable (Variable.Place place) }
    ensures { IfOk result (λ new. AreLines new) }
{
    let t = Variable::Temporary(temporary);
    let all = one_argument(alloc, CValue::Variable(owner))?;
    let lines = call(alloc, lines, t, b"PyModule_GetDict", all)?;
    let lines = count(alloc, lines, b"Py_INCREF", t)?;
    assign(lines, Variable::Place(place), CValue::Variable(t))
}

fn with_builtins(alloc: Global, lines: Items<Line>) -> Result<Items<Line>>
    requires { AreLines lines }
    ensures { IfOk result (λ new. AreLines new) }
{
    let all = with_string(alloc, no_argument(alloc), b"builtins")?;
    let lines = call(alloc, lines, T0, b"PyImport_ImportModule", all)?;
    let lines = leave_without(lines)?;
    let lines = with_dictionary(alloc, lines, 1, T0, Place::Builtins)?;
    count(alloc, lines, b"Py_DECREF", T0)
}

fn ready(alloc: Global, lines: Items<Line>) -> Result<Items<Line>>
    requires { AreLines lines }
    ensures { IfOk result (λ new. AreLines new) }
{
    let lines = assign(
        lines,
        Variable::Place(Place::Ready),
        CValue::Literal(Literal::Int(1)),
    )?;
    let lines = count(alloc, lines, b"Py_INCREF", Variable::Place(Place::Module))?;
    assign(lines, R, CValue::Variable(Variable::Place(Place::Module)))
}

pub fn initializer(alloc: Global) -> Result<Items<Line>>
    ensures { IfOk result (λ all. AreLines all) }
{
    let lines = with_module(alloc, no_line(alloc))?;
    let lines = with_dictionary(
        alloc,
        lines,
        0,
        Variable::Place(Place::Module),
        Place::Dictionary,
    )?;
    let lines = with_builtins(alloc, lines)?;
    let lines = ready(alloc, lines)?;
    end(alloc, lines)
}
