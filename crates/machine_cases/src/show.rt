//! The lines of a trace.
use anyhow::Result;
use c_token::Exception;
use std::alloc::Global;
use thin_state::{Answer, Callee, Event, FaultKind, Obj, Op, Step};

fn exception(kind: Exception) -> &'static str {
    match kind {
        Exception::BaseException => "BaseException",
        Exception::TypeError => "TypeError",
        Exception::NotImplementedError => "NotImplementedError",
        Exception::OverflowError => "OverflowError",
        Exception::ZeroDivisionError => "ZeroDivisionError",
        Exception::ValueError => "ValueError",
        Exception::IndexError => "IndexError",
        Exception::AttributeError => "AttributeError",
        Exception::SystemError => "SystemError",
        Exception::NameError => "NameError",
        Exception::UnboundLocalError => "UnboundLocalError",
    }
}

fn text(alloc: Global, bytes: &[u8]) -> Result<String> {
    Ok(String::from_utf8_lossy(alloc, bytes)?)
}

fn object(alloc: Global, object: &Obj) -> Result<String> {
    match object {
        Obj::Foreign(k) => Ok(format!(in alloc; "F{k}")?),
        Obj::Inst(k) => Ok(format!(in alloc; "I{k}")?),
        Obj::View(k) => Ok(format!(in alloc; "V{k}")?),
        Obj::ExceptionType(kind) => Ok(format!(in alloc; "E:{}", exception(*kind))?),
        Obj::NoneNode => Ok(String::from_str(alloc, "None")?),
        Obj::TrueNode => Ok(String::from_str(alloc, "True")?),
        Obj::FalseNode => Ok(String::from_str(alloc, "False")?),
        Obj::Class(_) => Ok(String::from_str(alloc, "a class")?),
    }
}

fn operation(alloc: Global, op: &Op) -> Result<String> {
    match op {
        Op::Module(name) => {
            let name = text(alloc, name.as_slice())?;
            Ok(format!(in alloc; "module \"{name}\"")?)
        }
        Op::Import(name) => {
            let name = text(alloc, name.as_slice())?;
            Ok(format!(in alloc; "import \"{name}\"")?)
        }
        Op::Dict(module) => {
            let module = object(alloc, module)?;
            Ok(format!(in alloc; "dict {module}")?)
        }
        Op::Binary(_, left, right) => {
            let left = object(alloc, left)?;
            let right = object(alloc, right)?;
            Ok(format!(in alloc; "add {left} {right}")?)
        }
        Op::Fail(kind, said) => {
            let kind = object(alloc, kind)?;
            let said = text(alloc, said.as_slice())?;
            Ok(format!(in alloc; "fail {kind} \"{said}\"")?)
        }
    }
}

fn answer(alloc: Global, answer: &Answer) -> Result<String> {
    match answer {
        Answer::Object(x) => object(alloc, x),
        Answer::Raised(x) => {
            let x = object(alloc, x)?;
            Ok(format!(in alloc; "raise {x}")?)
        }
        Answer::Number(n) => Ok(format!(in alloc; "{n}")?),
        Answer::Missing => Ok(String::from_str(alloc, "missing")?),
        Answer::Plain => Ok(String::from_str(alloc, "ok")?),
    }
}

fn entered(alloc: Global, callee: &Callee, objects: &[Obj]) -> Result<String> {
    let Callee::Function(path) = callee else {
        return Ok(String::from_str(alloc, "enter a method")?);
    };
    let module = text(alloc, path.module.as_slice())?;
    let name = text(alloc, path.name.as_slice())?;
    let mut line = format!(in alloc; "enter {module}.{name}")?;
    for x in objects {
        line.push(' ')?;
        line.push_str(object(alloc, x)?.as_str())?;
    }
    Ok(line)
}

/// The line of an event.
pub fn event(alloc: Global, event: &Event) -> Result<String> {
    match event {
        Event::Init(name) => {
            let name = text(alloc, name.as_slice())?;
            Ok(format!(in alloc; "init {name}")?)
        }
        Event::Ask(op) => {
            let op = operation(alloc, op)?;
            Ok(format!(in alloc; "ask {op}")?)
        }
        Event::Answer(given) => {
            let given = answer(alloc, given)?;
            Ok(format!(in alloc; "answer {given}")?)
        }
        Event::Enter(callee, objects) => entered(alloc, callee, objects.as_slice()),
        Event::Leave(x) => {
            let x = object(alloc, x)?;
            Ok(format!(in alloc; "leave {x}")?)
        }
        Event::LeaveRaise(x) => {
            let x = object(alloc, x)?;
            Ok(format!(in alloc; "leave raise {x}")?)
        }
        Event::End => Ok(String::from_str(alloc, "end")?),
        Event::Stop => Ok(String::from_str(alloc, "stop")?),
        _ => Ok(String::from_str(alloc, "another event")?),
    }
}

fn fault(kind: FaultKind) -> &'static str {
    match kind {
        FaultKind::Stuck => "Stuck",
        FaultKind::BadField => "BadField",
        FaultKind::OutOfView => "OutOfView",
        FaultKind::Undefined => "Undefined",
        FaultKind::Unlocked => "Unlocked",
        FaultKind::ErrorSet => "ErrorSet",
        FaultKind::ErrorLost => "ErrorLost",
        FaultKind::Unheld => "Unheld",
        FaultKind::Unbalanced => "Unbalanced",
    }
}

/// How a run came to its end: after how many statements, or with which fault of which statement.
pub fn end(alloc: Global, answer: Step, steps: u64) -> Result<String> {
    match answer {
        Step::Ended => Ok(format!(in alloc; "ended after {steps}")?),
        Step::Stopped => Ok(format!(in alloc; "stopped after {steps}")?),
        Step::Fault(kind) => {
            let kind = fault(kind);
            Ok(format!(in alloc; "fault {kind} {}", steps.saturating_add(1))?)
        }
        Step::Went => Ok(String::from_str(alloc, "went on")?),
        Step::Memory => Ok(String::from_str(alloc, "out of memory")?),
    }
}
