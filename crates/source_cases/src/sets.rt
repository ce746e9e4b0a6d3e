//! Sets of files: what their scopes hold, or the first rule on names that is broken.
//!
//! A line is a name and then pairs, `|` before each part: a file's name and its text, or `resolve` and a scope's number with
//! a name. Modules are numbered by their first files. The names of a module are printed in the order of their bytes.
ghost use Rattle.std.specs.Prelude.{◌≡◌, true};
ghost use Rattle.token_input.specs.Ended.{is_ended};

use crate::text_of;
use anyhow::{Result, anyhow, bail};
use cy_base::{FileId, Stop, Text};
use cy_names::{resolve, resolve_set};
use cy_tree::{FileTree, ModuleFiles, NameKind, NamedSet, ParsedFile, Scope, SourceSet};
use pyx_decl::{definition, implementation};
use pyx_lex::{Tokens, lex};
use sqlite_items::Items;
use std::alloc::Global;
use std::rt::Runtime;
use std::str;
use token_input::ends;

// What a line says: its files, and what is to be resolved.
#[derive(Drop)]
struct Case<'a> {
    files: Vec<(&'a str, &'a str)>,
    asked: Vec<&'a str>,
}

fn read_case<'a>(alloc: Global, line: &'a str) -> Result<Case<'a>> {
    let mut files = Vec::new(alloc);
    let mut asked = Vec::new(alloc);
    let mut rest = line;
    for _ in 0..line.len() {
        let Some((name, behind)) = rest.split_once('|') else {
            break;
        };
        let (text, more) = match behind.split_once('|') {
            Some(cut) => cut,
            None => (behind, ""),
        };
        if name == "resolve" {
            asked.push(text)?;
        } else {
            files.push((name, text))?;
        }
        rest = more;
    }
    Ok(Case { files, asked })
}

// ---- the set

// A module as its files are met.
#[derive(Drop)]
struct Listed {
    name: Text,
    pyx: Option<FileId>,
    pxd: Option<FileId>,
}

fn place_of(modules: &[Listed], name: &str) -> Option<usize> {
    modules.iter().position(|it| it.name.as_str() == name)
}

fn note(alloc: Global, modules: &mut Vec<Listed>, name: &str, file: FileId) -> Result<()> {
    let (stem, ending) = name.split_once('.').ok_or(anyhow!("a name without ."))?;
    let place = place_of(modules.as_slice(), stem).unwrap_or(modules.len());
    if place == modules.len() {
        modules.push(Listed {
            name: Text::from_str(alloc, stem)?,
            pyx: None,
            pxd: None,
        })?;
    }
    let Some(listed) = modules.get_mut(place) else {
        bail!("no such module");
    };
    if ending == "pxd" {
        listed.pxd = Some(file);
    } else {
        listed.pyx = Some(file);
    }
    Ok(())
}

fn order_of(alloc: Global, modules: Vec<Listed>) -> Result<Items<ModuleFiles>> {
    let mut order = Items::new(alloc);
    for listed in modules {
        let Listed { name, pyx, pxd } = listed;
        let pyx = pyx.ok_or(anyhow!("a module without .pyx"))?;
        order.push(ModuleFiles { name, pyx, pxd })?;
    }
    Ok(order)
}

fn tree_of(alloc: Global, name: &str, tokens: &Tokens) -> Result<FileTree> {
    if !ends(tokens.list.as_slice()) {
        bail!("no end");
    }
    let found = if name.ends_with(".pxd") {
        definition(alloc, 0, tokens)
    } else {
        implementation(alloc, 0, tokens)
    };
    match found {
        Ok(tree) => Ok(tree),
        Err(_) => bail!("{name} is refused"),
    }
}

fn parsed(alloc: Global, name: &str, text: &[u8]) -> Result<ParsedFile> {
    if text.len() >= 0x1_0000_0000 {
        bail!("{name} is too long");
    }
    let Ok(tokens) = lex(alloc, 0, text) else {
        bail!("{name} has no tokens");
    };
    let tree = tree_of(alloc, name, &tokens)?;
    let name = Text::from_str(alloc, name)?;
    Ok(ParsedFile { name, tree })
}

fn set_of(alloc: Global, case: &Case<'_>) -> Result<SourceSet> {
    let mut files = Items::new(alloc);
    let mut modules = Vec::new(alloc);
    for (number, (name, line)) in case.files.iter().enumerate() {
        let text = text_of(alloc, line.as_bytes())?;
        files.push(parsed(alloc, name, text.as_slice())?)?;
        note(alloc, &mut modules, name, u32::try_from(number)?)?;
    }
    let order = order_of(alloc, modules)?;
    Ok(SourceSet { files, order })
}

// ---- what is printed

fn put_kind(kind: NameKind, out: &mut String) -> Result<()> {
    match kind {
        NameKind::Local(number) => write!(out, "local {number}")?,
        NameKind::CVariable(number) => write!(out, "C variable {number}")?,
        NameKind::CFunction(id) => {
            let (module, index) = (id.module, id.index);
            write!(out, "C function {module}.{index}")?;
        }
        NameKind::Class(id) => {
            let (module, index) = (id.module, id.index);
            write!(out, "class {module}.{index}")?;
        }
        NameKind::Module(number) => write!(out, "module {number}")?,
        NameKind::Global => out.push_str("global")?,
    }
    Ok(())
}

fn put_entries(entries: &[(&[u8], NameKind)], out: &mut String) -> Result<()> {
    for (place, (name, kind)) in entries.iter().enumerate() {
        if place > 0 {
            out.push_str(", ")?;
        }
        let name = str::from_utf8(name)?;
        write!(out, "{name}: ")?;
        put_kind(*kind, out)?;
    }
    Ok(())
}

fn put_scope(alloc: Global, scope: &Scope, is_module: bool, out: &mut String) -> Result<()> {
    let mut entries = Vec::new(alloc);
    for (name, kind) in scope.names.iter() {
        entries.push((name.as_slice(), *kind))?;
    }
    if is_module {
        entries.sort_unstable_by(|one, other| one.0.cmp(other.0));
    }
    let module = scope.module;
    let word = if is_module { "module" } else { "function" };
    write!(out, "{word} {module} {{")?;
    put_entries(entries.as_slice(), out)?;
    out.push('}')?;
    Ok(())
}

fn put_scopes(alloc: Global, named: &NamedSet, out: &mut String) -> Result<()> {
    let modules = named.set.order.len();
    for (number, scope) in named.scopes.as_slice().iter().enumerate() {
        if number > 0 {
            out.push_str("; ")?;
        }
        put_scope(alloc, scope, number < modules, out)?;
    }
    Ok(())
}

fn put_asked(named: &NamedSet, asked: &[&str], out: &mut String) -> Result<()> {
    for line in asked {
        let (scope, name) = line.split_once(' ').ok_or(anyhow!("no scope"))?;
        write!(out, "; {scope} {name} is ")?;
        put_kind(resolve(named, scope.parse::<u32>()?, name.as_bytes()), out)?;
    }
    Ok(())
}

/// Resolves the set of a line, and prints what its scopes hold or its refusal.
pub fn run_set<R: Runtime + AllocGlobal>(rt: &R, line: &str) -> Result<()> {
    let (name, rest) = line.split_once('|').ok_or(anyhow!("a line without |"))?;
    let case = read_case(rt.alloc(), rest)?;
    let set = set_of(rt.alloc(), &case)?;
    match resolve_set(rt.alloc(), set) {
        Ok(named) => {
            let mut out = String::new(rt.alloc());
            put_scopes(rt.alloc(), &named, &mut out)?;
            put_asked(&named, case.asked.as_slice(), &mut out)?;
            println!(rt; "{name}: {out}")?;
            Ok(())
        }
        Err(Stop::Refused(refusal)) => {
            let (file, rule, offset) = (refusal.file, refusal.rule.number, refusal.offset);
            println!(rt; "{name}: refused N{rule} file {file} byte {offset}")?;
            Ok(())
        }
        Err(Stop::Memory) => bail!("out of memory"),
    }
}

// ---- many names

fn many_text(alloc: Global) -> Result<String> {
    let mut text = String::new(alloc);
    for number in 0..100_000 {
        write!(text, "cdef int x{number}\n")?;
    }
    text.push_str("def f():\n")?;
    for number in 0..50_000 {
        write!(text, "    y{number} = 1\n")?;
    }
    Ok(text)
}

fn set_of_one(alloc: Global, text: &[u8]) -> Result<SourceSet> {
    let mut files = Items::new(alloc);
    files.push(parsed(alloc, "a.pyx", text)?)?;
    let mut order = Items::new(alloc);
    order.push(ModuleFiles {
        name: Text::from_str(alloc, "a")?,
        pyx: 0,
        pxd: None,
    })?;
    Ok(SourceSet { files, order })
}

/// Resolves a module with a hundred thousand names, and a function with fifty thousand, and prints how many its scopes hold.
pub fn count_names<R: Runtime + AllocGlobal>(rt: &R) -> Result<()> {
    let text = many_text(rt.alloc())?;
    let set = set_of_one(rt.alloc(), text.as_bytes())?;
    let Ok(named) = resolve_set(rt.alloc(), set) else {
        bail!("the names are refused");
    };
    for scope in named.scopes.as_slice() {
        let count = scope.names.len();
        println!(rt; "names: {count}")?;
    }
    Ok(())
}
