use crate::{is_element, is_element_place, matches, tested_places_are_those_of_elements};
use api_model::{Info, is_view};
use cy_base::OutOfMemory;
use cy_num::CNum;
use sqlite_items::Items;
use std::alloc::Global;
use std::process::Abort;
use std::test::Fail;

fn buffer(
    alloc: Global,
    letter: Option<u8>,
    shape: &[i64],
    strides: &[i64],
    indirect: bool,
) -> Result<Info, OutOfMemory> {
    Ok(Info {
        letter,
        at_sign: false,
        item: 4,
        readonly: false,
        indirect,
        shape: Items::from_slice(alloc, shape)?,
        strides: Items::from_slice(alloc, strides)?,
    })
}

fn assert_place(
    rt: &(impl Abort + AllocGlobal),
    shape: [i64; 2],
    strides: [i64; 2],
    place: i128,
    expected: bool,
) -> Result<(), OutOfMemory> {
    let info = buffer(rt.alloc(), None, &shape, &strides, false)?;
    assert!(rt; is_view(&info));
    assert_eq!(rt; is_element_place(&info, place), expected);
    Ok(())
}

// C and Fortran order; backwards; the same element at each index; no element; overlapping rows; and a view of a hundred
// million million elements, of which one index a dimension is tried.
#[test]
fn places_of_elements(rt: HostRuntime) -> Result<(), Fail> {
    let table = [
        ([2, 2], [4, 2], 6, true),
        ([2, 2], [4, 2], 5, false),
        ([2, 2], [4, 2], 8, false),
        ([2, 2], [2, 4], 6, true),
        ([2, 2], [2, 4], -2, false),
        ([2, 2], [-3, 1], -3, true),
        ([2, 2], [-3, 1], -1, false),
        ([5, 2], [0, 3], 3, true),
        ([5, 2], [0, 3], 6, false),
        ([2, 0], [4, 2], 0, false),
        ([3, 3], [2, 3], 1, false),
        ([3, 3], [2, 3], 8, true),
        ([3, 3], [2, 3], 9, false),
        (
            [10_000_000, 10_000_000],
            [80_000_000, 8],
            799_999_999_999_992,
            true,
        ),
        (
            [10_000_000, 10_000_000],
            [80_000_000, 8],
            799_999_999_999_991,
            false,
        ),
        ([1_152_921_504_606_846_976, 1], [0, 8], 1, false),
        ([1, 1], [1, 1], i128::MIN, false),
    ];
    for (shape, strides, place, expected) in table {
        assert_place(&rt, shape, strides, place, expected)?;
    }
    Ok(())
}

fn assert_element(
    rt: &(impl Abort + AllocGlobal),
    indirect: bool,
    element: CNum,
    place: i128,
    expected: bool,
) -> Result<(), OutOfMemory> {
    let info = buffer(rt.alloc(), Some(b'q'), &[1], &[1], indirect)?;
    assert!(rt; is_view(&info));
    assert_eq!(rt; is_element(&info, element, place), expected);
    Ok(())
}

#[test]
fn elements(rt: HostRuntime) -> Result<(), Fail> {
    assert_element(&rt, false, CNum::I64, 0, true)?;
    assert_element(&rt, false, CNum::I64, 1, false)?;
    assert_element(&rt, false, CNum::U64, 0, false)?;
    assert_element(&rt, true, CNum::I64, 0, false)?;
    tested_places_are_those_of_elements();
    Ok(())
}

fn assert_format(
    rt: &(impl Abort + AllocGlobal),
    letter: Option<u8>,
    element: CNum,
    expected: bool,
) -> Result<(), OutOfMemory> {
    let info = buffer(rt.alloc(), letter, &[1], &[1], false)?;
    assert_eq!(rt; matches(&info, element), expected);
    Ok(())
}

#[test]
fn formats(rt: HostRuntime) -> Result<(), Fail> {
    let table = [
        (None, CNum::U8, true),
        (None, CNum::I8, false),
        (Some(b'b'), CNum::I8, true),
        (Some(b'B'), CNum::U8, true),
        (Some(b'h'), CNum::I16, true),
        (Some(b'H'), CNum::U16, true),
        (Some(b'i'), CNum::I32, true),
        (Some(b'I'), CNum::U32, true),
        (Some(b'l'), CNum::I64, true),
        (Some(b'n'), CNum::I64, true),
        (Some(b'L'), CNum::U64, true),
        (Some(b'Q'), CNum::U64, true),
        (Some(b'N'), CNum::U64, true),
        (Some(b'n'), CNum::U64, false),
        (Some(b'?'), CNum::U8, false),
    ];
    for (letter, element, expected) in table {
        assert_format(&rt, letter, element, expected)?;
    }
    Ok(())
}
