//! What a script entry answers to an operation.
ghost use Rattle.std.specs.Prelude.{◌≡◌, ℕ, IfOk};
ghost use Rattle.api_model.specs.Answers.{absent, answer_by, answer_of, built, counted, fits_of, given, in_i64, in_u64, is_bit, is_view, raised, read_obj, unfit, viewed};

use crate::entry::Entry;
use crate::info::Info;
use crate::object::Obj;
use crate::op::{Answer, Op};
use crate::views::is_view;
use cy_base::OutOfMemory;
use std::alloc::Global;

// How an operation may be answered. The `Sure` ones, `Thrown` and `Anything` never fail.
#[derive(Clone, Copy)]
enum Fits {
    AnObject,
    NextView,
    NextInstance,
    ObjectOrMissing,
    SureObject,
    Zero,
    Signed,
    Unsigned,
    Bit,
    SureBit,
    Thrown,
    Anything,
}

fn fits_of(op: &Op) -> Fits
    ensures { result ≡ fits_of op.now }
{
    match op {
        Op::Binary(_, _, _) => Fits::AnObject,
        Op::InPlace(_, _, _) => Fits::AnObject,
        Op::Unary(_, _) => Fits::AnObject,
        Op::GetAttr(_, _) => Fits::AnObject,
        Op::GetItem(_, _) => Fits::AnObject,
        Op::Iter(_) => Fits::AnObject,
        Op::Compare(_, _, _) => Fits::AnObject,
        Op::Call(_, _) => Fits::AnObject,
        Op::Make(_) => Fits::AnObject,
        Op::View(_) => Fits::NextView,
        Op::Alloc(_) => Fits::NextInstance,
        Op::Next(_) => Fits::ObjectOrMissing,
        Op::DictGet(_, _) => Fits::ObjectOrMissing,
        Op::Dict(_) => Fits::SureObject,
        Op::Change(_) => Fits::Zero,
        Op::AsLong(_) => Fits::Signed,
        Op::AsUlong(_) => Fits::Unsigned,
        Op::IsTrue(_) => Fits::Bit,
        Op::Contains(_, _) => Fits::Bit,
        Op::IsInstance(_, _) => Fits::Bit,
        Op::Matches(_, _) => Fits::SureBit,
        Op::IsClass(_) => Fits::SureBit,
        Op::Native(_, _) => Fits::SureBit,
        Op::Fail(_, _) => Fits::Thrown,
        Op::Unraisable => Fits::Anything,
    }
}

// What a script names.
fn read_obj(alloc: Global, object: &Obj, instances: u32, views: u32) -> Result<Obj, OutOfMemory>
    ensures { IfOk result (λ r. r ≡ read_obj instances views object.now) }
{
    match object {
        Obj::Inst(number) if *number >= instances => Ok(Obj::NoneNode),
        Obj::View(number) if *number >= views => Ok(Obj::NoneNode),
        _ => object.copied(alloc),
    }
}

// The answer of an entry that doesn't fit.
fn unfit(fits: Fits) -> Answer
    ensures { result ≡ unfit fits }
{
    match fits {
        Fits::SureObject => Answer::Object(Obj::Foreign(0)),
        Fits::SureBit => Answer::Number(0),
        Fits::Thrown => Answer::Object(Obj::Foreign(0)),
        Fits::Anything => Answer::Plain,
        _ => Answer::Raised(Obj::Foreign(0)),
    }
}

// `ok` with an object.
fn given(fits: Fits, object: Obj) -> Answer
    ensures { result ≡ given fits object }
{
    match fits {
        Fits::AnObject => Answer::Object(object),
        Fits::ObjectOrMissing => Answer::Object(object),
        Fits::SureObject => Answer::Object(object),
        Fits::Thrown => Answer::Object(object),
        _ => unfit(fits),
    }
}

// `raise` with an object.
fn raised(fits: Fits, object: Obj) -> Answer
    ensures { result ≡ raised fits object }
{
    match fits {
        Fits::SureObject => unfit(fits),
        Fits::SureBit => unfit(fits),
        Fits::Thrown => Answer::Object(object),
        Fits::Anything => Answer::Plain,
        _ => Answer::Raised(object),
    }
}

fn in_i64(number: i128) -> bool
    ensures { result ≡ in_i64 number }
{
    i64::MIN as i128 <= number && number <= i64::MAX as i128
}

fn in_u64(number: i128) -> bool
    ensures { result ≡ in_u64 number }
{
    0 <= number && number <= u64::MAX as i128
}

fn is_bit(number: i128) -> bool
    ensures { result ≡ is_bit number }
{
    number == 0 || number == 1
}

// `num` with a number.
fn counted(fits: Fits, number: i128) -> Answer
    ensures { result ≡ counted fits number }
{
    match fits {
        Fits::Zero => Answer::Number(0),
        Fits::Signed if in_i64(number) => Answer::Number(number),
        Fits::Unsigned if in_u64(number) => Answer::Number(number),
        Fits::Bit if is_bit(number) => Answer::Number(number),
        Fits::SureBit if number == 0 => Answer::Number(0),
        Fits::SureBit => Answer::Number(1),
        _ => unfit(fits),
    }
}

// `missing`.
fn absent(fits: Fits) -> Answer
    ensures { result ≡ absent fits }
{
    match fits {
        Fits::ObjectOrMissing => Answer::Missing,
        _ => unfit(fits),
    }
}

// `made`.
fn built(fits: Fits, instances: u32) -> Answer
    ensures { result ≡ built fits instances }
{
    match fits {
        Fits::NextInstance => Answer::Object(Obj::Inst(instances)),
        _ => unfit(fits),
    }
}

// `view`.
fn viewed(fits: Fits, info: &Info, views: u32) -> Answer
    ensures { result ≡ viewed fits info.now views }
{
    match fits {
        Fits::NextView if is_view(info) => Answer::Object(Obj::View(views)),
        _ => unfit(fits),
    }
}

fn answer_by(
    alloc: Global,
    fits: Fits,
    entry: &Entry,
    instances: u32,
    views: u32,
) -> Result<Answer, OutOfMemory>
    ensures { IfOk result (λ a. a ≡ answer_by fits entry.now instances views) }
{
    match entry {
        Entry::OkNode(object) => Ok(given(fits, read_obj(alloc, object, instances, views)?)),
        Entry::Num(number) => Ok(counted(fits, *number)),
        Entry::Raise(object) => Ok(raised(fits, read_obj(alloc, object, instances, views)?)),
        Entry::Missing => Ok(absent(fits)),
        Entry::Made => Ok(built(fits, instances)),
        Entry::View(info) => Ok(viewed(fits, info, views)),
        _ => Ok(unfit(fits)),
    }
}

/// What the entry answers to the operation, where so many instances and views are made. It is total: an entry that
/// doesn't fit is a raise of Foreign 0, or the default of an operation that never fails. The project's own.
pub fn answer(
    alloc: Global,
    op: &Op,
    entry: &Entry,
    instances: u32,
    views: u32,
) -> Result<Answer, OutOfMemory>
    ensures { IfOk result (λ a. a ≡ answer_of op.now entry.now instances views) }
{
    answer_by(alloc, fits_of(op), entry, instances, views)
}
