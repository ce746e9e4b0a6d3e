//! The ledger of a machine.
ghost use Rattle.std.specs.Prelude.{◌≡◌, ◌∷◌, [], ◌++◌, ◌<◌, IfOk, OnOk, OnErr, length, if◌then◌else◌, remove};
ghost use Rattle.c_ledger.specs.Ledger.{account_at, counts, empty, entered, gained, has, left, loaned, lost, more_own, without_loans};

mod newest;

use crate::objects::{counts, has, place_of};
use api_model::Obj;
use cy_base::OutOfMemory;
use sqlite_items::Items;
use std::alloc::Global;
use std::marker::Model;

/// What a frame owns, and what was lent to it when it was entered.
#[derive(Drop)]
pub struct Account {
    own: Items<Obj>,
    lent: Items<Obj>,
}

impl Model for Account {
    ghost use Rattle.c_ledger.specs.Ledger.{Account};

    ghost Value = { Account };

    ghost view = { λ a. record { own = a.own; lent = a.lent } };
}

/// Owned references and lent objects by frames, which are numbered from 0, the oldest first, and the loans beside them.
#[derive(Drop)]
pub struct Ledger {
    alloc: Global,
    frames: Vec<Account>,
    loans: Items<Obj>,
}

impl Model for Ledger {
    ghost use Rattle.c_ledger.specs.Ledger.{Accounts};

    ghost Value = { Accounts };

    ghost view = { λ l. record { frames = l.frames.items; loans = l.loans } };
}

impl Account {
    fn gain(&mut self, object: Obj) -> Result<(), OutOfMemory>
        ensures ok { OnOk result (self.new ≡ more_own self.old object) }
        ensures err { OnErr result (self.new ≡ self.old) }
    {
        self.own.push(object)?;
        Ok(())
    }

    fn remove(&mut self, at: usize)
        requires { at < length self.old.own }
        ensures { self.new ≡ record self.old { own = remove self.old.own at } }
    {
        self.own.remove(at);
    }
}

impl Ledger {
    /// The ledger of no frame, without loans.
    pub fn new(alloc: Global) -> Ledger
        ensures { result ≡ empty }
    {
        Ledger {
            alloc,
            frames: Vec::new(alloc),
            loans: Items::new(alloc),
        }
    }

    /// Adds a frame that owns nothing, and gives its number.
    pub fn enter(&mut self, lent: Vec<Obj>) -> Result<usize, OutOfMemory>
        ensures number { IfOk result (λ number. number ≡ length self.old.frames) }
        ensures ok { OnOk result (self.new ≡ entered self.old lent.items) }
        ensures err { OnErr result (self.new ≡ self.old) }
    {
        let number = self.frames.len();
        let own = Items::new(self.alloc);
        let lent = Items::from_vec(lent);
        self.frames.push(Account { own, lent })?;
        Ok(number)
    }

    /// Takes the newest frame away.
    pub fn leave(&mut self)
        requires { 0 < length self.old.frames }
        ensures { self.new ≡ left self.old }
    {
        self.frames.pop();
    }

    /// One more reference that the frame owns.
    pub fn gain(&mut self, frame: usize, object: Obj) -> Result<(), OutOfMemory>
        requires { frame < length self.old.frames }
        ensures ok { OnOk result (self.new ≡ gained self.old frame object) }
        ensures err { OnErr result (self.new ≡ self.old) }
    {
        self.frames[frame].gain(object)
    }

    /// One reference less that the frame owns. Where it owns none of the object, the answer is false, and nothing changes.
    pub fn lose(&mut self, frame: usize, object: &Obj) -> bool
        requires { frame < length self.old.frames }
        ensures result { result ≡ has (account_at self.old frame).own object.now }
        ensures state { self.new ≡ (if result then lost self.old frame object.now else self.old) }
    {
        let Some(at) = place_of(self.frames[frame].own.as_slice(), object) else {
            return false;
        };
        self.frames[frame].remove(at);
        true
    }

    /// One more loan.
    pub fn loan(&mut self, object: Obj) -> Result<(), OutOfMemory>
        ensures ok { OnOk result (self.new ≡ loaned self.old object) }
        ensures err { OnErr result (self.new ≡ self.old) }
    {
        self.loans.push(object)?;
        Ok(())
    }

    /// Ends all loans.
    pub fn end_loans(&mut self)
        ensures { self.new ≡ without_loans self.old }
    {
        self.loans = Items::new(self.alloc);
    }

    /// How many frames there are.
    pub fn frames(&self) -> usize
        ensures { result ≡ length self.now.frames }
    {
        self.frames.len()
    }

    /// How many references a frame owns.
    pub fn owned(&self, frame: usize) -> usize
        requires { frame < length self.now.frames }
        ensures { result ≡ length (account_at self.now frame).own }
    {
        self.frames[frame].own.len()
    }

    /// How many of the references that a frame owns are the object's.
    pub fn owns(&self, frame: usize, object: &Obj) -> usize
        requires { frame < length self.now.frames }
        ensures { result ≡ counts (account_at self.now frame).own object.now }
    {
        counts(self.frames[frame].own.as_slice(), object)
    }

    /// Whether the object was lent to a frame.
    pub fn lent(&self, frame: usize, object: &Obj) -> bool
        requires { frame < length self.now.frames }
        ensures { result ≡ has (account_at self.now frame).lent object.now }
    {
        has(self.frames[frame].lent.as_slice(), object)
    }

    /// Whether there is a loan of the object.
    pub fn loaned(&self, object: &Obj) -> bool
        ensures { result ≡ has self.now.loans object.now }
    {
        has(self.loans.as_slice(), object)
    }
}
