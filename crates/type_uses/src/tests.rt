use crate::{TypeUse, contiguity, element, note_uses, words_meant};
use cy_base::Text;
use cy_num::CNum;
use cy_tree::{Declared, Dim, Ident, Node, NumberWords, Ty, TypeName, TypeNode, Variables};
use sqlite_items::Items;
use std::test::Fail;

fn place(found: TypeUse<'_>) -> u32 {
    match found {
        TypeUse::PlaceType(kind) => kind.at,
        TypeUse::ResultType(kind) => kind.at,
        TypeUse::Declares(name, _) => name.at,
    }
}

// `cdef long[:, ::1] a`
#[test]
fn a_variable_has_a_type(rt: HostRuntime) -> Result<(), Fail> {
    let alloc = rt.alloc();
    let mut dims = Items::new(alloc);
    dims.push(Dim { at: 10, step: None })?;
    dims.push(Dim {
        at: 13,
        step: Some(1),
    })?;
    let kind = TypeNode {
        at: 5,
        constant: false,
        name: TypeName::Number(NumberWords::Long),
        dims,
    };
    assert_eq!(rt; words_meant(NumberWords::Long), Ty::Num(CNum::I64));
    assert_eq!(rt; element(&kind.name), Some(CNum::I64));
    assert_eq!(rt; contiguity(kind.dims.as_slice()), Some(true));
    let text = Text::from_str(alloc, "a")?;
    let name = Ident { at: 18, text };
    let mut names = Items::new(alloc);
    names.push(Declared { name, value: None })?;
    let kind = Some(kind);
    let variables = Variables { at: 0, kind, names };
    let mut uses = Vec::new(alloc);
    note_uses(Node::Variables(&variables), &mut uses)?;
    assert_eq!(rt; uses.len(), 2);
    let [first, second] = uses.as_slice() else {
        assert!(rt; false, "a type, and a name");
        return Ok(());
    };
    assert_eq!(rt; place(*first), 5);
    assert_eq!(rt; place(*second), 18);
    Ok(())
}
