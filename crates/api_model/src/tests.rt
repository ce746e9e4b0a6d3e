use crate::{
    Answer, ApiRow, BinaryOp, Change, ClassName, Entry, Fails, Gives, Info, Make, Obj, Op, answer,
    answers_are_in_form, entries_need_the_lock, functions_are_distinct, is_view,
    one_object_is_an_equal_one, row, rows_are_clean, rows_need_the_lock,
};
use c_token::{Bytes, Exception};
use cy_base::OutOfMemory;
use sqlite_items::Items;
use std::alloc::Global;
use std::process::Abort;
use std::test::Fail;

const SPAN: i64 = 1_152_921_504_606_846_976;

// An object of a case, as a value that can be compared.
#[derive(Clone, Copy, Debug, PartialEq, Eq)]
enum Named {
    Foreign(u32),
    Inst(u32),
    View(u32),
    NoneObject,
    Other,
}

// An answer of a case.
#[derive(Clone, Copy, Debug, PartialEq, Eq)]
enum Shown {
    Object(Named),
    Number(i128),
    Missing,
    Raised(Named),
    Plain,
}

fn name_of(object: &Obj) -> Named {
    match object {
        Obj::Foreign(number) => Named::Foreign(*number),
        Obj::Inst(number) => Named::Inst(*number),
        Obj::View(number) => Named::View(*number),
        Obj::NoneNode => Named::NoneObject,
        _ => Named::Other,
    }
}

fn shape_of(answer: &Answer) -> Shown {
    match answer {
        Answer::Object(object) => Shown::Object(name_of(object)),
        Answer::Number(number) => Shown::Number(*number),
        Answer::Missing => Shown::Missing,
        Answer::Raised(object) => Shown::Raised(name_of(object)),
        Answer::Plain => Shown::Plain,
    }
}

// The answer where three instances and two views are made.
fn asked(alloc: Global, op: &Op, entry: &Entry) -> Result<Shown, OutOfMemory> {
    Ok(shape_of(&answer(alloc, op, entry, 3, 2)?))
}

fn assert_answer(
    rt: &(impl Abort + AllocGlobal),
    op: Op,
    entry: Entry,
    expected: Shown,
) -> Result<(), OutOfMemory> {
    assert_eq!(rt; asked(rt.alloc(), &op, &entry)?, expected);
    Ok(())
}

fn text(alloc: Global, letters: &[u8]) -> Result<Bytes, OutOfMemory> {
    Ok(Bytes::new(Vec::from_slice(alloc, letters)?))
}

fn add() -> Op {
    Op::Binary(BinaryOp::Add, Obj::Foreign(1), Obj::Foreign(2))
}

fn ok(number: u32) -> Entry {
    Entry::OkNode(Obj::Foreign(number))
}

fn raise(number: u32) -> Entry {
    Entry::Raise(Obj::Foreign(number))
}

fn view(alloc: Global, item: u32, shape: &[i64], strides: &[i64]) -> Result<Entry, OutOfMemory> {
    Ok(Entry::View(Info {
        letter: Some(b'l'),
        at_sign: false,
        item,
        readonly: false,
        indirect: false,
        shape: Items::from_slice(alloc, shape)?,
        strides: Items::from_slice(alloc, strides)?,
    }))
}

#[test]
fn operations_that_give_objects(rt: HostRuntime) -> Result<(), Fail> {
    assert_answer(&rt, add(), ok(7), Shown::Object(Named::Foreign(7)))?;
    assert_answer(&rt, add(), raise(7), Shown::Raised(Named::Foreign(7)))?;
    assert_answer(&rt, add(), Entry::Missing, Shown::Raised(Named::Foreign(0)))?;
    assert_answer(&rt, add(), Entry::Num(1), Shown::Raised(Named::Foreign(0)))?;
    let made = Entry::OkNode(Obj::Inst(2));
    assert_answer(
        &rt,
        Op::Make(Make::Int(5)),
        made,
        Shown::Object(Named::Inst(2)),
    )?;
    let unmade = Entry::OkNode(Obj::Inst(3));
    assert_answer(
        &rt,
        Op::Make(Make::Int(5)),
        unmade,
        Shown::Object(Named::NoneObject),
    )?;
    let unmade = Entry::Raise(Obj::View(2));
    assert_answer(
        &rt,
        Op::Iter(Obj::Foreign(1)),
        unmade,
        Shown::Raised(Named::NoneObject),
    )?;
    Ok(())
}

#[test]
fn operations_that_may_miss(rt: HostRuntime) -> Result<(), Fail> {
    assert_answer(
        &rt,
        Op::Next(Obj::Foreign(1)),
        Entry::Missing,
        Shown::Missing,
    )?;
    assert_answer(
        &rt,
        Op::Next(Obj::Foreign(1)),
        ok(4),
        Shown::Object(Named::Foreign(4)),
    )?;
    assert_answer(
        &rt,
        Op::Next(Obj::Foreign(1)),
        Entry::Made,
        Shown::Raised(Named::Foreign(0)),
    )?;
    assert_answer(
        &rt,
        Op::Dict(Obj::Foreign(1)),
        ok(4),
        Shown::Object(Named::Foreign(4)),
    )?;
    assert_answer(
        &rt,
        Op::Dict(Obj::Foreign(1)),
        raise(4),
        Shown::Object(Named::Foreign(0)),
    )?;
    Ok(())
}

#[test]
fn operations_that_give_numbers(rt: HostRuntime) -> Result<(), Fail> {
    let as_long = Op::AsLong(Obj::Foreign(1));
    assert_answer(
        &rt,
        as_long,
        Entry::Num(i64::MAX as i128),
        Shown::Number(i64::MAX as i128),
    )?;
    let as_long = Op::AsLong(Obj::Foreign(1));
    assert_answer(
        &rt,
        as_long,
        Entry::Num(1 << 63),
        Shown::Raised(Named::Foreign(0)),
    )?;
    let as_ulong = Op::AsUlong(Obj::Foreign(1));
    assert_answer(&rt, as_ulong, Entry::Num(1 << 63), Shown::Number(1 << 63))?;
    let as_ulong = Op::AsUlong(Obj::Foreign(1));
    assert_answer(
        &rt,
        as_ulong,
        Entry::Num(-1),
        Shown::Raised(Named::Foreign(0)),
    )?;
    let set = Op::Change(Change::DelAttr(Obj::Foreign(1), Obj::Foreign(2)));
    assert_answer(&rt, set, Entry::Num(-8), Shown::Number(0))?;
    let set = Op::Change(Change::DelAttr(Obj::Foreign(1), Obj::Foreign(2)));
    assert_answer(&rt, set, ok(1), Shown::Raised(Named::Foreign(0)))?;
    Ok(())
}

#[test]
fn operations_that_give_bits(rt: HostRuntime) -> Result<(), Fail> {
    assert_answer(
        &rt,
        Op::IsTrue(Obj::NoneNode),
        Entry::Num(1),
        Shown::Number(1),
    )?;
    assert_answer(
        &rt,
        Op::IsTrue(Obj::NoneNode),
        Entry::Num(2),
        Shown::Raised(Named::Foreign(0)),
    )?;
    assert_answer(
        &rt,
        Op::IsClass(Obj::NoneNode),
        Entry::Num(2),
        Shown::Number(1),
    )?;
    assert_answer(&rt, Op::IsClass(Obj::NoneNode), raise(1), Shown::Number(0))?;
    Ok(())
}

#[test]
fn operations_on_the_exception(rt: HostRuntime) -> Result<(), Fail> {
    let fail = Op::Fail(Obj::Foreign(1), text(rt.alloc(), b"no")?);
    assert_answer(&rt, fail, raise(6), Shown::Object(Named::Foreign(6)))?;
    let fail = Op::Fail(Obj::Foreign(1), text(rt.alloc(), b"no")?);
    assert_answer(&rt, fail, Entry::Made, Shown::Object(Named::Foreign(0)))?;
    assert_answer(&rt, Op::Unraisable, raise(6), Shown::Plain)?;
    Ok(())
}

#[test]
fn instances_and_views(rt: HostRuntime) -> Result<(), Fail> {
    let alloc = rt.alloc();
    let class = ClassName {
        module: text(alloc, b"m")?,
        class: text(alloc, b"C")?,
    };
    assert_answer(
        &rt,
        Op::Alloc(class),
        Entry::Made,
        Shown::Object(Named::Inst(3)),
    )?;
    let fit = view(alloc, 1_048_576, &[SPAN, 0], &[-1, 9])?;
    assert_answer(
        &rt,
        Op::View(Obj::Foreign(1)),
        fit,
        Shown::Object(Named::View(2)),
    )?;
    let long = view(alloc, 8, &[SPAN, 1], &[1, 1])?;
    assert_answer(
        &rt,
        Op::View(Obj::Foreign(1)),
        long,
        Shown::Raised(Named::Foreign(0)),
    )?;
    let wide = view(alloc, 1_048_577, &[1], &[1])?;
    assert_answer(
        &rt,
        Op::View(Obj::Foreign(1)),
        wide,
        Shown::Raised(Named::Foreign(0)),
    )?;
    let uneven = view(alloc, 8, &[1, 1], &[1])?;
    assert_answer(
        &rt,
        Op::View(Obj::Foreign(1)),
        uneven,
        Shown::Raised(Named::Foreign(0)),
    )?;
    Ok(())
}

#[test]
fn buffers_of_views(rt: HostRuntime) -> Result<(), Fail> {
    let alloc = rt.alloc();
    let mut info = Info {
        letter: None,
        at_sign: false,
        item: 1,
        readonly: true,
        indirect: false,
        shape: Items::from_slice(alloc, &[3])?,
        strides: Items::from_slice(alloc, &[-1])?,
    };
    assert!(rt; is_view(&info));
    info.shape = Items::from_slice(alloc, &[-3])?;
    assert!(rt; !is_view(&info));
    Ok(())
}

#[test]
fn objects_are_copied(rt: HostRuntime) -> Result<(), Fail> {
    let alloc = rt.alloc();
    assert_eq!(rt; name_of(&Obj::Inst(4).copied(alloc)?), Named::Inst(4));
    let class = ClassName {
        module: text(alloc, b"m")?,
        class: text(alloc, b"C")?,
    };
    let copy = class.copied(alloc)?;
    assert_eq!(rt; copy.module.as_slice(), b"m".as_slice());
    assert_eq!(rt; copy.class.as_slice(), b"C".as_slice());
    Ok(())
}

#[test]
fn objects_are_compared(rt: HostRuntime) -> Result<(), Fail> {
    let alloc = rt.alloc();
    let class = Obj::Class(ClassName {
        module: text(alloc, b"m")?,
        class: text(alloc, b"C")?,
    });
    let other = Obj::Class(ClassName {
        module: text(alloc, b"m")?,
        class: text(alloc, b"D")?,
    });
    assert!(rt; class.is(&class));
    assert!(rt; !class.is(&other));
    assert!(rt; !Obj::Inst(1).is(&Obj::View(1)));
    assert!(rt; Obj::NoneNode.is(&Obj::NoneNode));
    assert!(rt; class.is_permanent());
    assert!(rt; Obj::ExceptionType(Exception::TypeError).is_permanent());
    assert!(rt; !Obj::Foreign(0).is_permanent());
    Ok(())
}

#[test]
fn rows_of_functions(rt: HostRuntime) {
    let put = ApiRow {
        gives: Gives::Nothing,
        fails: Fails::Never,
        steals: Some(2),
        entry: false,
        lock: true,
        clean: true,
    };
    assert_eq!(rt; row(b"PyList_SET_ITEM"), Some(put));
    let next = ApiRow {
        gives: Gives::New,
        fails: Fails::NullSet,
        steals: None,
        entry: true,
        lock: true,
        clean: true,
    };
    assert_eq!(rt; row(b"PyIter_Next"), Some(next));
    assert_eq!(rt; row(b"PyNumber_Power"), None);
}

#[test]
fn laws_are_called() {
    functions_are_distinct();
    entries_need_the_lock();
    rows_need_the_lock();
    rows_are_clean();
    answers_are_in_form();
    one_object_is_an_equal_one();
}
