use crate::{resolve, resolve_set};
use cy_base::{OutOfMemory, Phase, Refusal, Rule, Stop, Text};
use cy_tree::{
    Cimport, Class, ClassId, Content, Declared, Def, FileTree, Ident, ImportItem, Line,
    ModuleFiles, NameKind, Param, ParsedFile, PxdClass, PxdItem, Simple, SourceSet, Suite, Top,
    Variables,
};
use sqlite_items::Items;
use std::alloc::Global;
use std::test::Fail;

fn named(alloc: Global, at: u32, text: &str) -> Result<Ident, OutOfMemory> {
    Ok(Ident {
        at,
        text: Text::from_str(alloc, text)?,
    })
}

fn file(alloc: Global, name: &str, content: Content) -> Result<ParsedFile, OutOfMemory> {
    Ok(ParsedFile {
        name: Text::from_str(alloc, name)?,
        tree: FileTree::new(alloc, content)?,
    })
}

fn module(
    alloc: Global,
    name: &str,
    pyx: u32,
    pxd: Option<u32>,
) -> Result<ModuleFiles, OutOfMemory> {
    Ok(ModuleFiles {
        name: Text::from_str(alloc, name)?,
        pyx,
        pxd,
    })
}

// `cdef class A: pass`, in a `.pxd` and in a `.pyx`.
fn declared_class(alloc: Global) -> Result<Content, OutOfMemory> {
    let class = PxdClass {
        at: 0,
        name: named(alloc, 11, "A")?,
        base: None,
        members: Items::new(alloc),
    };
    let mut items = Items::new(alloc);
    items.push(PxdItem::Class(class))?;
    Ok(Content::Definition(items))
}

fn given_class(alloc: Global) -> Result<Content, OutOfMemory> {
    let class = Class {
        at: 0,
        name: named(alloc, 11, "A")?,
        base: None,
        members: Items::new(alloc),
    };
    let mut tops = Items::new(alloc);
    tops.push(Top::Class(class))?;
    Ok(Content::Implementation(tops))
}

// `from a cimport A`
fn cimport(alloc: Global) -> Result<Top, OutOfMemory> {
    let mut names = Items::new(alloc);
    names.push(ImportItem {
        name: named(alloc, 15, "A")?,
        alias: None,
    })?;
    Ok(Top::Cimport(Cimport::From(0, named(alloc, 5, "a")?, names)))
}

// `cdef v`
fn variable(alloc: Global) -> Result<Top, OutOfMemory> {
    let mut names = Items::new(alloc);
    names.push(Declared {
        name: named(alloc, 22, "v")?,
        value: None,
    })?;
    Ok(Top::Variables(Variables {
        at: 17,
        kind: None,
        names,
    }))
}

fn param(alloc: Global, at: u32, name: &str) -> Result<Param, OutOfMemory> {
    Ok(Param {
        kind: None,
        name: named(alloc, at, name)?,
        not_none: None,
        default: None,
    })
}

fn pass(alloc: Global) -> Result<Suite, OutOfMemory> {
    let mut simples = Items::new(alloc);
    simples.push(Simple::Pass(36))?;
    Ok(Suite::Inline(Line { simples }))
}

// `def f(n, last): pass`
fn function(alloc: Global, last: &str) -> Result<Top, OutOfMemory> {
    let mut params = Items::new(alloc);
    params.push(param(alloc, 30, "n")?)?;
    params.push(param(alloc, 33, last)?)?;
    Ok(Top::Def(Def {
        at: 24,
        name: named(alloc, 28, "f")?,
        params,
        body: pass(alloc)?,
    }))
}

fn user(alloc: Global, last: &str) -> Result<Content, OutOfMemory> {
    let mut tops = Items::new(alloc);
    tops.push(cimport(alloc)?)?;
    tops.push(variable(alloc)?)?;
    tops.push(function(alloc, last)?)?;
    Ok(Content::Implementation(tops))
}

fn two_modules(alloc: Global, last: &str) -> Result<SourceSet, OutOfMemory> {
    let mut files = Items::new(alloc);
    files.push(file(alloc, "a.pxd", declared_class(alloc)?)?)?;
    files.push(file(alloc, "a.pyx", given_class(alloc)?)?)?;
    files.push(file(alloc, "b.pyx", user(alloc, last)?)?)?;
    let mut order = Items::new(alloc);
    order.push(module(alloc, "a", 1, Some(0))?)?;
    order.push(module(alloc, "b", 2, None)?)?;
    Ok(SourceSet { files, order })
}

// Two modules, with names of each kind.
#[test]
fn names_are_resolved(rt: HostRuntime) -> Result<(), Fail> {
    let set = two_modules(rt.alloc(), "v")?;
    let Ok(named) = resolve_set(rt.alloc(), set) else {
        assert!(rt; false, "refused");
        return Ok(());
    };
    let class = NameKind::Class(ClassId {
        module: 0,
        index: 0,
    });
    let rows = [
        (0, "A", class),
        (0, "v", NameKind::Global),
        (1, "A", class),
        (1, "v", NameKind::CVariable(0)),
        (1, "f", NameKind::Global),
        (2, "A", class),
        (2, "n", NameKind::Local(0)),
        (2, "v", NameKind::Local(1)),
        (3, "A", NameKind::Global),
    ];
    for (scope, name, wanted) in rows.iter() {
        assert_eq!(rt;
            resolve(&named, *scope, name.as_bytes()),
            *wanted,
            "{name} in {scope}"
        );
    }
    Ok(())
}

// A parameter of the name of the one before it.
#[test]
fn second_parameter_is_refused(rt: HostRuntime) -> Result<(), Fail> {
    let set = two_modules(rt.alloc(), "n")?;
    let phase = Phase::Name;
    let wanted = Refusal {
        rule: Rule { phase, number: 1 },
        file: 2,
        offset: 33,
    };
    match resolve_set(rt.alloc(), set) {
        Err(Stop::Refused(refusal)) => assert_eq!(rt; refusal, wanted),
        _ => assert!(rt; false, "another answer"),
    }
    Ok(())
}
