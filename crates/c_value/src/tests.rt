use crate::{
    Buffer, Extents, Instance, ItemPlace, Kind, Memory, Parts, Reading, Value, ViewInfo, ViewValue,
    all_set, are_pointers, as_memory, c_string, converted, converts, copied_bytes, copied_instance,
    copied_objects, copied_reading, copied_value, extent_at, extents_of, fits, has_objects,
    initial_value, is_null, is_number, is_object, is_pointer, is_set, is_view, is_view_set,
    kind_of, memory_value, object_of, objects_in, passed, passed_with, same_field, same_fixed,
    same_function, same_item, same_kind, same_number, same_place, same_pointer, same_table,
    same_variable, unset_of, values_of, with_extent, with_extents, wrapped, zero_of,
};
use api_model::{Allocation, Info, Obj};
use c_token::Bytes;
use c_tree::{
    CType, Extent, FieldNumber, FixedParameter, FunctionName, InitialValue, Numbered, Place,
    TableName, Variable,
};
use cy_num::CNum;
use sqlite_items::Items;
use std::test::Fail;

const FIRST: Numbered = Numbered {
    module: 0,
    index: 1,
};

const PLACE: ItemPlace = ItemPlace { file: 0, item: 3 };

#[test]
fn names_are_compared(rt: HostRuntime) {
    let field = FieldNumber {
        class: FIRST,
        field: 2,
    };
    assert!(rt; same_number(FIRST, FIRST));
    assert!(rt; same_field(field, field));
    assert!(rt; same_item(PLACE, PLACE));
    assert!(rt; same_fixed(FixedParameter::Key, FixedParameter::Key));
    assert!(rt; same_place(Place::Global(1), Place::Global(1)));
    assert!(rt; same_variable(Variable::Local(1), Variable::Local(1)));
    assert!(rt; same_table(TableName::OfClass(FIRST), TableName::OfClass(FIRST)));
    assert!(rt; same_function(&FunctionName::Init(FIRST), &FunctionName::Init(FIRST)));
}

#[test]
fn types_are_told_apart(rt: HostRuntime) {
    let number = kind_of(CType::Int);
    assert!(rt; is_number(number));
    assert!(rt; same_kind(number, Kind::Number(CNum::I32)));
    assert!(rt; is_object(Kind::Null));
    assert!(rt; is_view(Kind::View));
    assert!(rt; has_objects(Kind::Object));
    assert!(rt; converts(Kind::Null, Kind::Text));
    assert!(rt; is_pointer(Kind::Arguments));
    assert!(rt; are_pointers(Kind::Null, Kind::Object));
    assert!(rt; is_null(&zero_of(Kind::Object)));
    assert!(rt; !is_set(&unset_of(Kind::Object)));
    assert!(rt; !is_set(&initial_value(Kind::View, InitialValue::Nothing)));
}

fn view_of(memory: Memory) -> ViewValue {
    let none = Extents {
        first: None,
        second: None,
        third: None,
    };
    ViewValue {
        memory,
        buffer: Buffer::Unset,
        lengths: none,
        strides: none,
    }
}

#[test]
fn views_have_parts(rt: HostRuntime) -> Result<(), Fail> {
    let none = view_of(Memory::Unset).lengths;
    let lengths = with_extent(none, 1, 7);
    let view = with_extents(view_of(Memory::Null), Extent::Length, lengths);
    assert!(rt; is_view_set(&view));
    assert_eq!(rt;
        extent_at(extents_of(&view, Extent::Length), 1),
        Some(Some(7))
    );
    assert!(rt; is_null(&memory_value(rt.alloc(), &view.memory)?));
    assert!(rt; as_memory(rt.alloc(), &Value::Null)?.is_some());
    Ok(())
}

fn operand(value: Value) -> Reading {
    Reading {
        kind: Kind::Object,
        value,
    }
}

#[test]
fn values_are_taken_apart(rt: HostRuntime) -> Result<(), Fail> {
    let object = Value::Object(Obj::Foreign(5));
    assert!(rt; object_of(&object).is_some());
    assert!(rt; same_pointer(&object, &object));
    assert_eq!(rt; objects_in(rt.alloc(), &object)?.len(), 1);
    assert_eq!(rt; passed_with(rt.alloc(), &object)?.len(), 1);
    assert!(rt; is_set(&wrapped(CNum::U8, Value::Number(257))));
    assert!(rt; is_set(&converted(Kind::Number(CNum::U8), Value::Number(257))));
    let mut operands = Items::new(rt.alloc());
    operands.push(operand(object))?;
    assert!(rt; all_set(operands.as_slice()));
    assert!(rt; fits([Kind::Object].as_slice(), operands.as_slice()));
    assert_eq!(rt; passed(rt.alloc(), operands.as_slice())?.len(), 1);
    assert_eq!(rt; values_of(rt.alloc(), operands.as_slice())?.len(), 1);
    Ok(())
}

#[test]
fn values_are_copied(rt: HostRuntime) -> Result<(), Fail> {
    let text = Bytes::new(Vec::from_slice(rt.alloc(), b"ab".as_slice())?);
    let text = copied_bytes(rt.alloc(), &text)?;
    assert_eq!(rt; text.as_slice().len(), 2);
    assert_eq!(rt;
        c_string(rt.alloc(), b"ab\0c".as_slice())?.as_slice().len(),
        2
    );
    let mut objects = Items::new(rt.alloc());
    objects.push(Obj::NoneNode)?;
    assert_eq!(rt; copied_objects(rt.alloc(), objects.as_slice())?.len(), 1);
    let value = copied_value(rt.alloc(), &Value::Text(text))?;
    assert!(rt; is_set(&copied_reading(rt.alloc(), Kind::Text, &value)?.value));
    let instance = Instance {
        class: PLACE,
        allocation: Allocation::Heap,
        alive: true,
        table: None,
        parts: Parts::from_vec(Vec::new(rt.alloc())),
    };
    assert!(rt; copied_instance(rt.alloc(), &instance)?.alive);
    Ok(())
}

#[test]
fn views_tell_of_their_buffers(rt: HostRuntime) -> Result<(), Fail> {
    let mut shape = Items::new(rt.alloc());
    shape.push(2)?;
    let mut strides = Items::new(rt.alloc());
    strides.push(8)?;
    let info = Info {
        letter: None,
        at_sign: false,
        item: 8,
        readonly: true,
        indirect: false,
        shape,
        strides,
    };
    if api_model::is_view(&info) {
        assert_eq!(rt; ViewInfo::new(info).info().item, 8);
    }
    Ok(())
}
