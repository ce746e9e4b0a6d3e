use crate::{Instances, Places};
use api_model::Allocation;
use c_frame::Spots;
use c_tree::{Numbered, Place};
use c_value::{Instance, ItemPlace, Kind, Part, Parts, Spot, Value, is_null};
use sqlite_items::Items;
use std::alloc::Global;
use std::test::Fail;

const CLASS: Numbered = Numbered {
    module: 0,
    index: 4,
};

fn instance(alloc: Global) -> Result<Instance, Fail> {
    let mut fields = Items::new(alloc);
    fields.push((Kind::Object, Value::Unset))?;
    let mut parts = Vec::new(alloc);
    parts.push(Part {
        class: CLASS,
        fields,
    })?;
    Ok(Instance {
        class: ItemPlace { file: 0, item: 2 },
        allocation: Allocation::Static,
        alive: true,
        table: None,
        parts: Parts::from_vec(parts),
    })
}

// An instance that gets a table and a field, and is freed.
#[test]
fn instances_change(rt: HostRuntime) -> Result<(), Fail> {
    let mut instances = Instances::new(rt.alloc());
    assert!(rt; instances.is_empty());
    instances.push(instance(rt.alloc())?)?;
    instances.push(instance(rt.alloc())?)?;
    instances.store(1, CLASS, 0, Value::Null);
    instances.set_table(1, CLASS);
    instances.free(0);
    assert_eq!(rt; (instances.len(), instances.as_slice().len()), (2, 2));
    let Some(second) = instances.get(1) else {
        assert!(rt; false, "no instance");
        return Ok(());
    };
    assert_eq!(rt; (second.alive, second.table), (true, Some(CLASS)));
    let fields = second.parts.find(CLASS);
    assert!(rt; fields.is_some_and(|all| all.get(0).is_some_and(|field| is_null(&field.1))));
    assert!(rt; instances.get(0).is_some_and(|first| !first.alive));
    Ok(())
}

// A place of the second of two files.
#[test]
fn places_change(rt: HostRuntime) -> Result<(), Fail> {
    let mut places = Places::new(rt.alloc());
    places.push(Spots::new(rt.alloc(), Items::new(rt.alloc()))?)?;
    let mut spots = Items::new(rt.alloc());
    spots.push(Spot {
        place: Place::Module,
        kind: Kind::Object,
        value: Value::Unset,
        stored: false,
    })?;
    places.push(Spots::new(rt.alloc(), spots)?)?;
    places.put(1, Place::Module, Value::Null);
    assert_eq!(rt; places.as_slice().len(), 2);
    assert!(rt; places.find(0, Place::Module).is_none());
    assert!(rt;
        places
            .find(1, Place::Module)
            .is_some_and(|spot| spot.stored)
    );
    Ok(())
}
