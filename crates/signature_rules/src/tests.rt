use crate::signature;
use cy_base::{OutOfMemory, Text};
use cy_tree::{Content, Def, Expr, Ident, Line, Param, Simple, Suite, Top};
use sqlite_items::Items;
use std::alloc::Global;
use std::test::Fail;

fn name(alloc: Global, at: u32) -> Result<Ident, OutOfMemory> {
    let text = Text::from_str(alloc, "a")?;
    Ok(Ident { at, text })
}

fn param(alloc: Global, at: u32, default: Option<Expr>) -> Result<Param, OutOfMemory> {
    let name = name(alloc, at)?;
    Ok(Param {
        kind: None,
        name,
        not_none: None,
        default,
    })
}

fn function(alloc: Global, params: Items<Param>) -> Result<Top, OutOfMemory> {
    let mut simples = Items::new(alloc);
    simples.push(Simple::Pass(30))?;
    let body = Suite::Inline(Line { simples });
    let name = name(alloc, 4)?;
    Ok(Top::Def(Def {
        at: 0,
        name,
        params,
        body,
    }))
}

// `def a(a=1, a): pass`
#[test]
fn a_parameter_without_a_default_is_told(rt: HostRuntime) -> Result<(), Fail> {
    let alloc = rt.alloc();
    let mut params = Items::new(alloc);
    params.push(param(alloc, 6, Some(Expr::Int(8, 1)))?)?;
    params.push(param(alloc, 11, None)?)?;
    let mut tops = Items::new(alloc);
    tops.push(function(alloc, params)?)?;
    let content = Content::Implementation(tops);
    match signature(2, &content, None) {
        Some(refusal) => {
            assert_eq!(rt; refusal.rule.number, 12);
            assert_eq!(rt; refusal.file, 2);
            assert_eq!(rt; refusal.offset, 11);
        }
        None => assert!(rt; false, "no rule is broken"),
    }
    Ok(())
}
