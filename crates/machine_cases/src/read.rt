//! Scripts of the cases: entries with ` / ` between them.
use anyhow::{Result, anyhow, bail};
use c_token::Bytes;
use sqlite_items::Items;
use std::alloc::Global;
use thin_state::{Callee, Entry, FunctionPath, Obj};

fn object(word: &str) -> Result<Obj> {
    let number = word.get(1..).and_then(|digits| digits.parse::<u32>().ok());
    match (word.as_bytes().first(), number) {
        (Some(b'F'), Some(k)) => Ok(Obj::Foreign(k)),
        (Some(b'I'), Some(k)) => Ok(Obj::Inst(k)),
        (Some(b'V'), Some(k)) => Ok(Obj::View(k)),
        _ if word == "None" => Ok(Obj::NoneNode),
        _ if word == "True" => Ok(Obj::TrueNode),
        _ => Err(anyhow!("no object")),
    }
}

fn bytes(alloc: Global, word: &str) -> Result<Bytes> {
    Ok(Bytes::new(Vec::from_slice(alloc, word.as_bytes())?))
}

fn path(alloc: Global, word: &str) -> Result<Callee> {
    let (module, name) = word.split_once('.').ok_or(anyhow!("no name"))?;
    Ok(Callee::Function(FunctionPath {
        module: bytes(alloc, module)?,
        name: bytes(alloc, name)?,
    }))
}

fn entry(alloc: Global, text: &str) -> Result<Entry> {
    let mut words = text.split(' ');
    let kind = words.next().ok_or(anyhow!("no entry"))?;
    match kind {
        "missing" => return Ok(Entry::Missing),
        "made" => return Ok(Entry::Made),
        _ => {}
    }
    let first = words.next().ok_or(anyhow!("no word"))?;
    match kind {
        "ok" => Ok(Entry::OkNode(object(first)?)),
        "raise" => Ok(Entry::Raise(object(first)?)),
        "num" => Ok(Entry::Num(first.parse::<i128>()?)),
        "die" => Ok(Entry::Die(first.parse::<u32>()?)),
        "enter" => {
            let callee = path(alloc, first)?;
            let mut objects = Items::new(alloc);
            for word in words {
                objects.push(object(word)?)?;
            }
            Ok(Entry::Enter(callee, objects))
        }
        _ => bail!("no entry"),
    }
}

/// The entries of a script.
pub fn script(alloc: Global, text: &str) -> Result<Vec<Entry>> {
    let mut entries = Vec::new(alloc);
    for part in text.split(" / ") {
        if !part.is_empty() {
            entries.push(entry(alloc, part)?)?;
        }
    }
    Ok(entries)
}
