use crate::control;
use cy_base::{FileId, Refusal};
use cy_tree::{Content, Line, Simple, Stmt, Top};
use sqlite_items::Items;
use std::alloc::{AllocError, Global};
use std::process::Abort;
use std::test::Fail;

fn statement(alloc: Global, simple: Simple) -> Result<Top, AllocError> {
    let mut simples = Items::new(alloc);
    simples.push(simple)?;
    Ok(Top::Stmt(Stmt::Simples(Line { simples })))
}

fn assert_first(rt: &impl Abort, found: Option<Refusal>, file: FileId, offset: u32, number: u8) {
    match found {
        Some(refusal) => {
            assert_eq!(rt; refusal.file, file);
            assert_eq!(rt; refusal.offset, offset);
            assert_eq!(rt; refusal.rule.number, number);
        }
        None => assert!(rt; false, "no rule is broken"),
    }
}

// A file of `continue` and `return`, where the later one stands in front, as a cut of the tree by hand may.
#[test]
fn the_first_breach_is_told(rt: HostRuntime) -> Result<(), Fail> {
    let mut tops = Items::new(rt.alloc());
    tops.push(statement(rt.alloc(), Simple::Pass(0))?)?;
    tops.push(statement(rt.alloc(), Simple::Continue(14))?)?;
    tops.push(statement(rt.alloc(), Simple::ReturnNode(5, None))?)?;
    let content = Content::Implementation(tops);
    assert_first(&rt, control(3, &content, None), 3, 5, 8);
    Ok(())
}
