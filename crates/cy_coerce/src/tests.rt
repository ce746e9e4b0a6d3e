use crate::coercion;
use cy_base::{OutOfMemory, Text};
use cy_num::CNum;
use cy_tree::{
    Class, ClassBase, ClassId, Coercion, Content, FileTree, Ident, ModuleFiles, NameKind, NamedSet,
    ParsedFile, Scope, SourceSet, Top, Ty, ViewTy,
};
use indexmap::IndexMap;
use sqlite_items::Items;
use std::alloc::Global;
use std::test::Fail;

// The name of a class of the chain.
fn class_name(alloc: Global, number: u32) -> Result<Text, OutOfMemory> {
    let text = format!(in alloc; "C{number}")?;
    Text::from_str(alloc, text.as_str())
}

fn key(alloc: Global, name: &Text) -> Result<Vec<u8>, OutOfMemory> {
    Ok(Vec::from_slice(alloc, name.bytes())?)
}

fn named(alloc: Global, number: u32) -> Result<Ident, OutOfMemory> {
    Ok(Ident {
        at: 0,
        text: class_name(alloc, number)?,
    })
}

fn class(alloc: Global, name: Ident, base: Option<ClassBase>) -> Top {
    Top::Class(Class {
        at: 0,
        name,
        base,
        members: Items::new(alloc),
    })
}

// The `.pyx` of a module, by its only name.
fn file(alloc: Global, name: &str, tops: Items<Top>) -> Result<ParsedFile, OutOfMemory> {
    Ok(ParsedFile {
        name: Text::from_str(alloc, name)?,
        tree: FileTree::new(alloc, Content::Implementation(tops))?,
    })
}

fn module(alloc: Global, name: &str, pyx: u32) -> Result<ModuleFiles, OutOfMemory> {
    Ok(ModuleFiles {
        name: Text::from_str(alloc, name)?,
        pyx,
        pxd: None,
    })
}

// Classes C0 to C32, each the base of the next.
fn chain(alloc: Global) -> Result<Items<Top>, OutOfMemory> {
    let mut tops = Items::new(alloc);
    tops.push(class(alloc, named(alloc, 0)?, None))?;
    for number in 0..32u32 {
        let base = ClassBase::Named(named(alloc, number)?);
        tops.push(class(alloc, named(alloc, number + 1)?, Some(base)))?;
    }
    Ok(tops)
}

fn chain_scope(alloc: Global) -> Result<Scope, OutOfMemory> {
    let mut names = IndexMap::new(alloc);
    for index in 0..33u32 {
        let id = ClassId { module: 0, index };
        names.insert(key(alloc, &class_name(alloc, index)?)?, NameKind::Class(id))?;
    }
    Ok(Scope { module: 0, names })
}

// A module that cimports the first by its name, with one class whose base is the first's C0.
fn user_scope(alloc: Global) -> Result<Scope, OutOfMemory> {
    let id = ClassId {
        module: 1,
        index: 0,
    };
    let mut names = IndexMap::new(alloc);
    names.insert(Vec::from_slice(alloc, b"chain")?, NameKind::Module(0))?;
    names.insert(Vec::from_slice(alloc, b"D")?, NameKind::Class(id))?;
    Ok(Scope { module: 1, names })
}

fn user(alloc: Global) -> Result<Items<Top>, OutOfMemory> {
    let name = Ident {
        at: 0,
        text: Text::from_str(alloc, "D")?,
    };
    let outer = Ident {
        at: 0,
        text: Text::from_str(alloc, "chain")?,
    };
    let mut tops = Items::new(alloc);
    let base = ClassBase::Member(outer, named(alloc, 0)?);
    tops.push(class(alloc, name, Some(base)))?;
    Ok(tops)
}

fn two_modules(alloc: Global) -> Result<NamedSet, OutOfMemory> {
    let mut files = Items::new(alloc);
    files.push(file(alloc, "chain.pyx", chain(alloc)?)?)?;
    files.push(file(alloc, "user.pyx", user(alloc)?)?)?;
    let mut order = Items::new(alloc);
    order.push(module(alloc, "chain", 0)?)?;
    order.push(module(alloc, "user", 1)?)?;
    let mut scopes = Items::new(alloc);
    scopes.push(chain_scope(alloc)?)?;
    scopes.push(user_scope(alloc)?)?;
    Ok(NamedSet {
        set: SourceSet { files, order },
        scopes,
    })
}

const fn class_ty(index: u32) -> Ty {
    Ty::Class(ClassId { module: 0, index })
}

const USER: ClassId = ClassId {
    module: 1,
    index: 0,
};

// `T[:, :]` and the like of `long`, with `const` and with `::1`.
const fn view(constant: bool, contiguous: bool) -> ViewTy {
    ViewTy {
        elem: CNum::I64,
        dims: 2,
        constant,
        contiguous,
    }
}

const OF_BYTES: ViewTy = ViewTy {
    elem: CNum::U8,
    dims: 2,
    constant: false,
    contiguous: false,
};

const OF_ONE: ViewTy = ViewTy {
    elem: CNum::I64,
    dims: 1,
    constant: false,
    contiguous: false,
};

// Numbers, bint, objects and void.
#[test]
fn numbers_and_objects(rt: HostRuntime) -> Result<(), Fail> {
    let set = two_modules(rt.alloc())?;
    let i32 = Ty::Num(CNum::I32);
    let u64 = Ty::Num(CNum::U64);
    let rows = [
        (i32, i32, Some(Coercion::Same)),
        (u64, u64, Some(Coercion::Same)),
        (Ty::Bint, Ty::Bint, Some(Coercion::Same)),
        (Ty::Object, Ty::Object, Some(Coercion::Same)),
        (Ty::Void, Ty::Void, None),
        (i32, u64, Some(Coercion::Convert(CNum::U64))),
        (u64, i32, Some(Coercion::Convert(CNum::I32))),
        (Ty::Bint, i32, Some(Coercion::Convert(CNum::I32))),
        (i32, Ty::Bint, Some(Coercion::Truth)),
        (u64, Ty::Bint, Some(Coercion::Truth)),
        (i32, Ty::Object, Some(Coercion::FromSigned)),
        (u64, Ty::Object, Some(Coercion::FromUnsigned)),
        (Ty::Bint, Ty::Object, Some(Coercion::FromBint)),
        (Ty::Object, i32, Some(Coercion::ToSigned(CNum::I32))),
        (Ty::Object, u64, Some(Coercion::ToUnsigned(CNum::U64))),
        (Ty::Object, Ty::Bint, Some(Coercion::ToBint)),
        (Ty::Void, Ty::Object, None),
        (Ty::Void, i32, None),
        (Ty::Void, Ty::Bint, None),
        (Ty::Object, Ty::Void, None),
        (i32, Ty::Void, None),
        (Ty::Bint, Ty::Void, None),
    ];
    for (from, to, wanted) in rows.iter() {
        assert_eq!(rt; coercion(&set, *from, *to), *wanted, "{from:?} to {to:?}");
    }
    Ok(())
}

// Classes, up and down a chain.
#[test]
fn classes(rt: HostRuntime) -> Result<(), Fail> {
    let set = two_modules(rt.alloc())?;
    let first = class_ty(0);
    let last = class_ty(31);
    let user = Ty::Class(USER);
    let to_last = Coercion::ClassTest(ClassId {
        module: 0,
        index: 31,
    });
    let i8 = Ty::Num(CNum::I8);
    let u8 = Ty::Num(CNum::U8);
    let rows = [
        (first, first, Some(Coercion::Same)),
        (class_ty(1), first, Some(Coercion::Same)),
        (last, first, Some(Coercion::Same)),
        (last, class_ty(30), Some(Coercion::Same)),
        (first, last, Some(to_last)),
        (class_ty(30), last, Some(to_last)),
        (Ty::Object, last, Some(to_last)),
        (last, Ty::Object, Some(Coercion::Same)),
        (class_ty(32), class_ty(1), Some(Coercion::Same)),
        (class_ty(32), first, None),
        (user, first, Some(Coercion::Same)),
        (first, user, Some(Coercion::ClassTest(USER))),
        (user, class_ty(1), None),
        (class_ty(1), user, None),
        (class_ty(99), first, None),
        (first, i8, Some(Coercion::ToSigned(CNum::I8))),
        (first, u8, Some(Coercion::ToUnsigned(CNum::U8))),
        (first, Ty::Bint, Some(Coercion::ToBint)),
        (i8, first, None),
        (Ty::Bint, first, None),
        (Ty::Void, first, None),
        (first, Ty::Void, None),
    ];
    for (from, to, wanted) in rows.iter() {
        assert_eq!(rt; coercion(&set, *from, *to), *wanted, "{from:?} to {to:?}");
    }
    Ok(())
}

// Views: what promises more may stand for what promises less.
#[test]
fn views(rt: HostRuntime) -> Result<(), Fail> {
    let set = two_modules(rt.alloc())?;
    let plain = view(false, false);
    let rows = [
        (Ty::View(plain), plain, Some(Coercion::Same)),
        (
            Ty::View(view(true, true)),
            view(true, true),
            Some(Coercion::Same),
        ),
        (Ty::View(view(false, true)), plain, Some(Coercion::Widen)),
        (Ty::View(plain), view(false, true), None),
        (Ty::View(plain), view(true, false), Some(Coercion::Widen)),
        (Ty::View(view(true, false)), plain, None),
        (
            Ty::View(view(false, true)),
            view(true, false),
            Some(Coercion::Widen),
        ),
        (Ty::View(view(true, true)), view(false, true), None),
        (Ty::View(view(true, false)), view(false, true), None),
        (Ty::View(plain), OF_BYTES, None),
        (Ty::View(OF_BYTES), plain, None),
        (Ty::View(plain), OF_ONE, None),
        (Ty::View(OF_ONE), plain, None),
        (Ty::Object, plain, Some(Coercion::TakeView(plain))),
        (class_ty(0), plain, None),
        (Ty::Num(CNum::I64), plain, None),
        (Ty::Bint, plain, None),
        (Ty::Void, plain, None),
    ];
    for (from, to, wanted) in rows.iter() {
        assert_eq!(rt;
            coercion(&set, *from, Ty::View(*to)),
            *wanted,
            "{from:?} to {to:?}"
        );
    }
    assert_eq!(rt; coercion(&set, Ty::View(plain), Ty::Object), None);
    assert_eq!(rt; coercion(&set, Ty::View(plain), Ty::Num(CNum::I64)), None);
    assert_eq!(rt; coercion(&set, Ty::View(plain), Ty::Bint), None);
    assert_eq!(rt; coercion(&set, Ty::View(plain), class_ty(0)), None);
    Ok(())
}
