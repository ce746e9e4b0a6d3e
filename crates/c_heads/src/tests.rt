use crate::{kinds_in, kinds_of, parameters, result_by, result_kind, same_kinds, same_result};
use c_tree::{CHead, CResult, CType, Numbered, Parameter};
use c_value::{Kind, kind_of};
use sqlite_items::Items;
use std::test::Fail;

const FIRST: Numbered = Numbered {
    module: 0,
    index: 1,
};

#[test]
fn heads_have_parameters(rt: HostRuntime) -> Result<(), Fail> {
    assert_eq!(rt; parameters(rt.alloc(), &CHead::Wrapper(FIRST))?.len(), 3);
    assert_eq!(rt; parameters(rt.alloc(), &CHead::New(FIRST))?.len(), 3);
    assert_eq!(rt; parameters(rt.alloc(), &CHead::Init(FIRST))?.len(), 3);
    assert_eq!(rt; parameters(rt.alloc(), &CHead::Dealloc(FIRST))?.len(), 1);
    assert_eq!(rt; parameters(rt.alloc(), &CHead::Item(FIRST))?.len(), 2);
    assert_eq!(rt; parameters(rt.alloc(), &CHead::Body)?.len(), 0);
    Ok(())
}

#[test]
fn types_are_told(rt: HostRuntime) -> Result<(), Fail> {
    let mut list = Items::new(rt.alloc());
    list.push(Parameter {
        kind: CType::Int,
        number: 0,
    })?;
    let head = CHead::Plain(FIRST, CResult::Value(CType::Object), list);
    let kinds = kinds_of(rt.alloc(), parameters(rt.alloc(), &head)?.as_slice())?;
    let wanted = kinds_in(rt.alloc(), [CType::Int].as_slice())?;
    assert!(rt; same_kinds(kinds.as_slice(), wanted.as_slice()));
    assert!(rt; same_result(result_kind(&head), Some(Kind::Object)));
    assert!(rt; same_result(result_by(CResult::Void), None));
    assert_eq!(rt;
        result_by(CResult::Value(CType::Int)),
        Some(kind_of(CType::Int))
    );
    Ok(())
}
