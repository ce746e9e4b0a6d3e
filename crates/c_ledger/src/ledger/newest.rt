//! The newest frame of a ledger. Where there is no frame it owns nothing, was lent nothing, and nothing changes it.
ghost use Rattle.std.specs.Prelude.{◌≡◌, ◌∷◌, [], ◌++◌, MatchOption, OnOk};
ghost use Rattle.c_ledger.specs.Ledger.{left, without_loans};
ghost use Rattle.c_ledger.specs.OfNewest.{gain_all, in_use, lent, loan_all, lose_all, owned, owned_below, owning};

use super::{Account, Ledger};
use crate::objects::{has, place_of};
use api_model::Obj;
use cy_base::OutOfMemory;
use sqlite_items::Items;
use std::mem::replace;

fn lose_all(own: &mut Items<Obj>, objects: &[Obj])
    ensures { own.new ≡ lose_all own.old objects.now }
{
    for object in objects {
        if let Some(at) = place_of(own.as_slice(), object) {
            own.remove(at);
        }
    }
}

impl Ledger {
    /// What the newest frame owns.
    pub fn newest_own(&self) -> &[Obj]
        ensures { result.now ≡ owned self.now }
    {
        match self.frames.last() {
            Some(account) => account.own.as_slice(),
            None => &[],
        }
    }

    /// What was lent to the newest frame.
    pub fn newest_lent(&self) -> &[Obj]
        ensures { result.now ≡ lent self.now }
    {
        match self.frames.last() {
            Some(account) => account.lent.as_slice(),
            None => &[],
        }
    }

    /// What the frame below the newest owns.
    pub fn own_below(&self) -> &[Obj]
        ensures { result.now ≡ owned_below self.now }
    {
        match self.frames.get(self.frames.len().saturating_sub(2)) {
            Some(account) => account.own.as_slice(),
            None => &[],
        }
    }

    /// References that the newest frame gets.
    pub fn gain_all(&mut self, objects: Items<Obj>) -> Result<(), OutOfMemory>
        ensures { OnOk result (self.new ≡ gain_all objects self.old) }
    {
        let count = self.frames.len();
        if 0 < count {
            self.frames[count - 1].own.append(objects)?;
        }
        Ok(())
    }

    /// References that the newest frame gives away, one after the other; one that it doesn't own changes nothing.
    pub fn lose_all(&mut self, objects: &[Obj])
        ensures { self.new ≡ owning (lose_all (owned self.old) objects.now) self.old }
    {
        let count = self.frames.len();
        if 0 < count {
            lose_all(&mut self.frames[count - 1].own, objects);
        }
    }

    /// Loans.
    pub fn loan_all(&mut self, objects: Items<Obj>) -> Result<(), OutOfMemory>
        ensures { OnOk result (self.new ≡ loan_all objects self.old) }
    {
        self.loans.append(objects)?;
        Ok(())
    }

    /// The loans, which end.
    pub fn take_loans(&mut self) -> Items<Obj>
        ensures result { result ≡ self.old.loans }
        ensures state { self.new ≡ without_loans self.old }
    {
        replace(&mut self.loans, Items::new(self.alloc))
    }

    /// These loans in place of all others.
    pub fn put_loans(&mut self, loans: Items<Obj>)
        ensures { self.new ≡ record self.old { loans = loans } }
    {
        self.loans = loans;
    }

    /// Takes the newest frame away and gives it, if there is one.
    pub fn take_newest(&mut self) -> Option<Account>
        ensures state { self.new ≡ left self.old }
        ensures account { MatchOption result (self.old.frames ≡ []) (λ account. self.old.frames ≡ self.new.frames ++ account ∷ []) }
    {
        self.frames.pop()
    }

    /// Makes a frame that was taken away the newest again.
    pub fn put_newest(&mut self, account: Account) -> Result<(), OutOfMemory>
        ensures { OnOk result (self.new ≡ record self.old { frames = self.old.frames ++ account ∷ [] }) }
    {
        self.frames.push(account)?;
        Ok(())
    }

    /// Whether a frame owns a reference of an object, or was lent it.
    pub fn in_use(&self, object: &Obj) -> bool
        ensures { result ≡ in_use self.now.frames object.now }
    {
        for account in self.frames.as_slice() {
            if has(account.own.as_slice(), object) || has(account.lent.as_slice(), object) {
                return true;
            }
        }
        false
    }
}
