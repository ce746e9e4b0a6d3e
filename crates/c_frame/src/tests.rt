use crate::{Cells, Code, LinkedFunction, Spots};
use c_tree::{
    CFunction, CHead, CStmt, CType, Declaration, FixedParameter, InitialValue, Line, Place,
    Variable,
};
use c_value::{Cell, Kind, Spot, Value, is_null, is_set};
use sqlite_items::Items;
use std::test::Fail;

fn cell(variable: Variable) -> Cell {
    Cell {
        variable,
        kind: Kind::Object,
        value: Value::Unset,
    }
}

#[test]
fn variables_are_found(rt: HostRuntime) -> Result<(), Fail> {
    let mut list = Items::new(rt.alloc());
    list.push(cell(Variable::Local(2)))?;
    list.push(cell(Variable::Fixed(FixedParameter::Key)))?;
    list.push(cell(Variable::Place(Place::Global(2))))?;
    let mut cells = Cells::new(rt.alloc(), list)?;
    cells.put(Variable::Fixed(FixedParameter::Key), Value::Null);
    assert!(rt;
        cells
            .find(Variable::Local(2))
            .is_some_and(|found| !is_set(&found.value))
    );
    let key = cells.find(Variable::Fixed(FixedParameter::Key));
    assert!(rt; key.is_some_and(|found| is_null(&found.value)));
    assert!(rt; cells.find(Variable::Place(Place::Global(2))).is_some());
    assert!(rt; cells.find(Variable::Temporary(2)).is_none());
    Ok(())
}

fn spot(place: Place) -> Spot {
    Spot {
        place,
        kind: Kind::Object,
        value: Value::Unset,
        stored: false,
    }
}

#[test]
fn places_are_found(rt: HostRuntime) -> Result<(), Fail> {
    let mut list = Items::new(rt.alloc());
    list.push(spot(Place::Ready))?;
    list.push(spot(Place::Constant(7)))?;
    let mut spots = Spots::new(rt.alloc(), list)?;
    spots.put(Place::Constant(7), Value::Null);
    assert!(rt; spots.find(Place::Ready).is_some_and(|found| !found.stored));
    assert!(rt;
        spots
            .find(Place::Constant(7))
            .is_some_and(|found| found.stored)
    );
    assert!(rt; spots.find(Place::Global(7)).is_none());
    assert_eq!(rt; spots.as_slice().len(), 2);
    Ok(())
}

#[test]
fn lines_are_followed(rt: HostRuntime) -> Result<(), Fail> {
    let mut lines = Items::new(rt.alloc());
    lines.push(Line::Label(3))?;
    lines.push(Line::Statement(CStmt::Return(None)))?;
    lines.push(Line::Label(4))?;
    let mut declarations = Items::new(rt.alloc());
    declarations.push(Declaration {
        kind: CType::Int,
        variable: Variable::Local(0),
        initial: InitialValue::Zero,
    })?;
    let function = LinkedFunction::new(
        rt.alloc(),
        CFunction {
            head: CHead::Body,
            declarations,
            lines,
        },
    )?;
    assert_eq!(rt; function.function().lines.len(), 3);
    assert!(rt; function.has_label(3));
    assert!(rt; !function.has_label(5));
    let mut code = Code::of(function.share()?);
    assert!(rt; code.statement().is_some());
    code.advance();
    assert!(rt; code.statement().is_none());
    assert!(rt; Code::behind(&function, 3)?.is_some_and(|it| it.statement().is_some()));
    assert!(rt; Code::behind(&function, 4)?.is_some_and(|it| it.statement().is_none()));
    Ok(())
}
