use crate::{Ledger, has, newest_frames_come_first, references_are_counted};
use api_model::Obj;
use sqlite_items::Items;
use std::test::Fail;

// A function that is called by another: its result is handed on, and a loan ends.
#[test]
fn a_call_from_c(rt: HostRuntime) -> Result<(), Fail> {
    let mut ledger = Ledger::new(rt.alloc());
    let outer = ledger.enter(Vec::new(rt.alloc()))?;
    ledger.gain(outer, Obj::Foreign(5))?;
    let mut lent = Vec::new(rt.alloc());
    lent.push(Obj::Foreign(5))?;
    let inner = ledger.enter(lent)?;
    assert_eq!(rt; (outer, inner, ledger.frames()), (0, 1, 2));
    ledger.gain(inner, Obj::Foreign(7))?;
    ledger.gain(inner, Obj::Foreign(7))?;
    ledger.loan(Obj::Foreign(2))?;
    assert!(rt; ledger.loaned(&Obj::Foreign(2)));
    assert_eq!(rt; ledger.owns(inner, &Obj::Foreign(7)), 2);
    assert!(rt; ledger.lose(inner, &Obj::Foreign(7)));
    ledger.end_loans();
    assert!(rt; !ledger.loaned(&Obj::Foreign(2)));
    assert_eq!(rt; (ledger.owned(inner), ledger.owned(outer)), (1, 1));
    assert!(rt; ledger.lent(inner, &Obj::Foreign(5)));
    assert!(rt; !ledger.lose(inner, &Obj::Foreign(5)));
    ledger.leave();
    assert_eq!(rt; ledger.frames(), 1);
    Ok(())
}

// What is done to the newest frame, which is taken away and put back.
#[test]
fn the_newest_frame(rt: HostRuntime) -> Result<(), Fail> {
    let mut ledger = Ledger::new(rt.alloc());
    ledger.enter(Vec::new(rt.alloc()))?;
    let mut owned = Items::new(rt.alloc());
    owned.push(Obj::Foreign(1))?;
    ledger.gain_all(owned)?;
    let mut lent = Vec::new(rt.alloc());
    lent.push(Obj::Foreign(2))?;
    ledger.enter(lent)?;
    let mut owned = Items::new(rt.alloc());
    owned.push(Obj::Foreign(3))?;
    owned.push(Obj::Foreign(4))?;
    ledger.gain_all(owned)?;
    ledger.lose_all(&[Obj::Foreign(3)]);
    assert!(rt; has(ledger.newest_own(), &Obj::Foreign(4)));
    assert!(rt; !has(ledger.newest_own(), &Obj::Foreign(3)));
    assert!(rt; has(ledger.newest_lent(), &Obj::Foreign(2)));
    assert!(rt; has(ledger.own_below(), &Obj::Foreign(1)));
    assert!(rt; ledger.in_use(&Obj::Foreign(2)));
    let mut loans = Items::new(rt.alloc());
    loans.push(Obj::Foreign(5))?;
    ledger.loan_all(loans)?;
    let loans = ledger.take_loans();
    assert!(rt; !ledger.loaned(&Obj::Foreign(5)));
    ledger.put_loans(loans);
    assert!(rt; ledger.loaned(&Obj::Foreign(5)));
    let Some(newest) = ledger.take_newest() else {
        assert!(rt; false, "no frame");
        return Ok(());
    };
    assert!(rt; !ledger.in_use(&Obj::Foreign(4)));
    ledger.put_newest(newest)?;
    assert!(rt; ledger.in_use(&Obj::Foreign(4)));
    Ok(())
}

#[test]
fn laws_are_called() {
    newest_frames_come_first();
    references_are_counted();
}
