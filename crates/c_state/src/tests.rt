use crate::{class_named, is_tuple, lending, nothing};
use api_model::Obj;
use c_value::Value;
use sqlite_items::Items;
use std::test::Fail;

#[test]
fn names_and_changes(rt: HostRuntime) -> Result<(), Fail> {
    let name = class_named(rt.alloc(), b"m.A.B")?;
    assert!(rt; name.module.as_slice() == b"m".as_slice());
    assert!(rt; name.class.as_slice() == b"A.B".as_slice());
    assert!(rt; is_tuple(&Value::Tuple(Items::new(rt.alloc()))));
    assert!(rt; !is_tuple(&Value::Null));
    let mut objects = Items::new(rt.alloc());
    objects.push(Obj::Foreign(1))?;
    let lent = lending(rt.alloc(), objects);
    assert_eq!(rt; (lent.lends.len(), lent.gains.len()), (1, 0));
    assert!(rt; !nothing(rt.alloc()).takes);
    Ok(())
}
