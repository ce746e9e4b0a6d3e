use crate::written;
use cy_base::{OutOfMemory, Text};
use cy_tree::{Content, Declared, Ident, NumberWords, Top, TypeName, TypeNode, Variables};
use sqlite_items::Items;
use std::alloc::Global;
use std::test::Fail;

// `cdef void a`
fn variable(alloc: Global) -> Result<Top, OutOfMemory> {
    let text = Text::from_str(alloc, "a")?;
    let name = Ident { at: 10, text };
    let mut names = Items::new(alloc);
    names.push(Declared { name, value: None })?;
    let kind = Some(TypeNode {
        at: 5,
        constant: false,
        name: TypeName::Number(NumberWords::Void),
        dims: Items::new(alloc),
    });
    Ok(Top::Variables(Variables { at: 0, kind, names }))
}

#[test]
fn a_variable_without_a_type_is_told(rt: HostRuntime) -> Result<(), Fail> {
    let alloc = rt.alloc();
    let mut tops = Items::new(alloc);
    tops.push(variable(alloc)?)?;
    let content = Content::Implementation(tops);
    match written(alloc, 3, &content, None)? {
        Some(refusal) => {
            assert_eq!(rt; refusal.rule.number, 14);
            assert_eq!(rt; refusal.file, 3);
            assert_eq!(rt; refusal.offset, 5);
        }
        None => assert!(rt; false, "no rule is broken"),
    }
    Ok(())
}
