ghost use Rattle.exc_protocol.specs.Answers.{IsCallable};

use crate::{CResult, Exit, Test, callee_exit, caller_test, protocol};
use cy_num::CNum;
use cy_tree::{ClassId, Clause, Signature, Ty};
use sqlite_items::Items;
use std::alloc::Global;
use std::test::Fail;

const CLASS: Ty = Ty::Class(ClassId {
    module: 0,
    index: 0,
});

// The clause of a function with this result and this clause.
fn clause_with(alloc: Global, gives: Ty, clause: Option<Clause>) -> Clause
    requires { IsCallable gives clause }
{
    protocol(&Signature {
        params: Items::new(alloc),
        result: gives,
        clause,
        nogil: false,
    })
}

// Every kind of result with every clause that may stand with it, and the clause that holds.
#[test]
fn clauses_of_objects_and_void(rt: HostRuntime) -> Result<(), Fail> {
    let alloc = rt.alloc();
    assert_eq!(rt; clause_with(alloc, Ty::Object, None), Clause::Null);
    assert_eq!(rt;
        clause_with(alloc, Ty::Object, Some(Clause::Noexcept)),
        Clause::Null
    );
    assert_eq!(rt; clause_with(alloc, CLASS, None), Clause::Null);
    assert_eq!(rt;
        clause_with(alloc, CLASS, Some(Clause::Noexcept)),
        Clause::Null
    );
    assert_eq!(rt; clause_with(alloc, Ty::Void, None), Clause::Star);
    assert_eq!(rt;
        clause_with(alloc, Ty::Void, Some(Clause::Star)),
        Clause::Star
    );
    assert_eq!(rt;
        clause_with(alloc, Ty::Void, Some(Clause::Noexcept)),
        Clause::Noexcept
    );
    Ok(())
}

#[test]
fn clauses_of_bint(rt: HostRuntime) -> Result<(), Fail> {
    let alloc = rt.alloc();
    assert_eq!(rt; clause_with(alloc, Ty::Bint, None), Clause::MaybeValue(1));
    assert_eq!(rt;
        clause_with(alloc, Ty::Bint, Some(Clause::Value(0))),
        Clause::Value(0)
    );
    assert_eq!(rt;
        clause_with(alloc, Ty::Bint, Some(Clause::MaybeValue(1))),
        Clause::MaybeValue(1)
    );
    assert_eq!(rt;
        clause_with(alloc, Ty::Bint, Some(Clause::Star)),
        Clause::Star
    );
    assert_eq!(rt;
        clause_with(alloc, Ty::Bint, Some(Clause::Noexcept)),
        Clause::Noexcept
    );
    Ok(())
}

#[test]
fn defaults_of_numbers(rt: HostRuntime) -> Result<(), Fail> {
    let alloc = rt.alloc();
    assert_eq!(rt;
        clause_with(alloc, Ty::Num(CNum::I8), None),
        Clause::MaybeValue(-1)
    );
    assert_eq!(rt;
        clause_with(alloc, Ty::Num(CNum::U8), None),
        Clause::MaybeValue(255)
    );
    assert_eq!(rt;
        clause_with(alloc, Ty::Num(CNum::I16), None),
        Clause::MaybeValue(-1)
    );
    assert_eq!(rt;
        clause_with(alloc, Ty::Num(CNum::U16), None),
        Clause::MaybeValue(65_535)
    );
    assert_eq!(rt;
        clause_with(alloc, Ty::Num(CNum::I32), None),
        Clause::MaybeValue(-1)
    );
    assert_eq!(rt;
        clause_with(alloc, Ty::Num(CNum::U32), None),
        Clause::MaybeValue(4_294_967_295)
    );
    assert_eq!(rt;
        clause_with(alloc, Ty::Num(CNum::I64), None),
        Clause::MaybeValue(-1)
    );
    assert_eq!(rt;
        clause_with(alloc, Ty::Num(CNum::U64), None),
        Clause::MaybeValue(18_446_744_073_709_551_615)
    );
    Ok(())
}

#[test]
fn clauses_of_numbers(rt: HostRuntime) -> Result<(), Fail> {
    let alloc = rt.alloc();
    assert_eq!(rt;
        clause_with(alloc, Ty::Num(CNum::I32), Some(Clause::Value(-1))),
        Clause::Value(-1)
    );
    assert_eq!(rt;
        clause_with(alloc, Ty::Num(CNum::I32), Some(Clause::MaybeValue(7))),
        Clause::MaybeValue(7)
    );
    assert_eq!(rt;
        clause_with(alloc, Ty::Num(CNum::U8), Some(Clause::Star)),
        Clause::Star
    );
    assert_eq!(rt;
        clause_with(alloc, Ty::Num(CNum::U64), Some(Clause::Noexcept)),
        Clause::Noexcept
    );
    Ok(())
}

// The rows of the table of clauses, from the side of the caller.
#[test]
fn callers_see_failures(rt: HostRuntime) -> Result<(), Fail> {
    let table = [
        (Clause::Null, CResult::Null, Test::Failed),
        (Clause::Null, CResult::Object, Test::Fine),
        (Clause::Value(-1), CResult::Number(-1), Test::Failed),
        (Clause::Value(-1), CResult::Number(0), Test::Fine),
        (Clause::MaybeValue(-1), CResult::Number(-1), Test::AskError),
        (Clause::MaybeValue(-1), CResult::Number(1), Test::Fine),
        (Clause::Star, CResult::Number(-1), Test::AskError),
        (Clause::Star, CResult::Nothing, Test::AskError),
        (Clause::Noexcept, CResult::Number(-1), Test::Fine),
        (Clause::Noexcept, CResult::Nothing, Test::Fine),
    ];
    for (clause, answer, wanted) in table {
        assert_eq!(rt;
            caller_test(clause, answer),
            wanted,
            "{clause:?} {answer:?}"
        );
    }
    Ok(())
}

// The same rows, from the side of the callee.
#[test]
fn callees_answer_failures(rt: HostRuntime) -> Result<(), Fail> {
    let table = [
        (Clause::Null, Ty::Object, Exit::Null),
        (Clause::Null, CLASS, Exit::Null),
        (Clause::Value(-1), Ty::Num(CNum::I32), Exit::Number(-1)),
        (Clause::MaybeValue(1), Ty::Bint, Exit::Number(1)),
        (Clause::Star, Ty::Num(CNum::U8), Exit::Number(0)),
        (Clause::Star, Ty::Bint, Exit::Number(0)),
        (Clause::Star, Ty::Void, Exit::Nothing),
        (Clause::Noexcept, Ty::Num(CNum::I64), Exit::ReportNumber),
        (Clause::Noexcept, Ty::Bint, Exit::ReportNumber),
        (Clause::Noexcept, Ty::Void, Exit::ReportNothing),
    ];
    for (clause, gives, wanted) in table {
        assert_eq!(rt; callee_exit(clause, gives), wanted, "{clause:?} {gives:?}");
    }
    Ok(())
}
