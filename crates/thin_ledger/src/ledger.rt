//! The ledger of a machine.
ghost use Rattle.std.specs.Prelude.{◌≡◌, ◌∷◌, [], ◌++◌, ◌<◌, IfOk, OnOk, OnErr, length, if◌then◌else◌, remove};
ghost use Rattle.thin_state.specs.State.{counts, has};
ghost use Rattle.thin_ledger.specs.Ledger.{empty, entered, left, gained, lost, holding_at, more_own};

use crate::objects::{counts, has, place_of};
use cy_base::OutOfMemory;
use sqlite_items::Items;
use std::alloc::Global;
use std::marker::Model;
use thin_state::Obj;

/// What a frame owns, and what was lent to it when it was entered.
#[derive(Drop)]
struct Holding {
    own: Items<Obj>,
    lent: Items<Obj>,
}

impl Model for Holding {
    ghost use Rattle.thin_ledger.specs.Ledger.{Holding};

    ghost Value = { Holding };

    ghost view = { λ h. record { own = h.own; lent = h.lent } };
}

/// Owned references and lent objects by frames, which are numbered from 0, the oldest first, and the loans beside them.
#[derive(Drop)]
pub struct Ledger {
    alloc: Global,
    frames: Vec<Holding>,
    loans: Vec<Obj>,
}

impl Model for Ledger {
    ghost use Rattle.thin_ledger.specs.Ledger.{Holdings};

    ghost Value = { Holdings };

    ghost view = { λ l. record { frames = l.frames.items; loans = l.loans.items } };
}

impl Holding {
    fn gain(&mut self, object: Obj) -> Result<(), OutOfMemory>
        ensures ok { OnOk result (self.new ≡ more_own self.old object) }
        ensures err { OnErr result (self.new ≡ self.old) }
    {
        self.own.push(object)?;
        Ok(())
    }

    fn remove(&mut self, at: usize)
        requires { at < length self.old.own }
        ensures { self.new ≡ record self.old { own = remove self.old.own at } }
    {
        self.own.remove(at);
    }
}

impl Ledger {
    /// The ledger of no frame, without loans.
    pub fn new(alloc: Global) -> Ledger
        ensures { result ≡ empty }
    {
        Ledger {
            alloc,
            frames: Vec::new(alloc),
            loans: Vec::new(alloc),
        }
    }

    /// Adds a frame that owns nothing, and gives its number.
    pub fn enter(&mut self, lent: Vec<Obj>) -> Result<usize, OutOfMemory>
        ensures number { IfOk result (λ number. number ≡ length self.old.frames) }
        ensures ok { OnOk result (self.new ≡ entered self.old lent.items) }
        ensures err { OnErr result (self.new ≡ self.old) }
    {
        let number = self.frames.len();
        let own = Items::new(self.alloc);
        let lent = Items::from_vec(lent);
        self.frames.push(Holding { own, lent })?;
        Ok(number)
    }

    /// Takes the newest frame away.
    pub fn leave(&mut self)
        requires { 0 < length self.old.frames }
        ensures { self.new ≡ left self.old }
    {
        self.frames.pop();
    }

    /// One more reference that the frame owns.
    pub fn gain(&mut self, frame: usize, object: Obj) -> Result<(), OutOfMemory>
        requires { frame < length self.old.frames }
        ensures ok { OnOk result (self.new ≡ gained self.old frame object) }
        ensures err { OnErr result (self.new ≡ self.old) }
    {
        self.frames[frame].gain(object)
    }

    /// One reference less that the frame owns. Where it owns none of the object, the answer is false, and nothing changes.
    pub fn lose(&mut self, frame: usize, object: &Obj) -> bool
        requires { frame < length self.old.frames }
        ensures result { result ≡ has (holding_at self.old frame).own object.now }
        ensures state { self.new ≡ (if result then lost self.old frame object.now else self.old) }
    {
        let Some(at) = place_of(self.frames[frame].own.as_slice(), object) else {
            return false;
        };
        self.frames[frame].remove(at);
        true
    }

    /// One more loan.
    pub fn loan(&mut self, object: Obj) -> Result<(), OutOfMemory>
        ensures ok { OnOk result (self.new ≡ record self.old { loans = self.old.loans ++ object ∷ [] }) }
        ensures err { OnErr result (self.new ≡ self.old) }
    {
        self.loans.push(object)?;
        Ok(())
    }

    /// Ends all loans.
    pub fn end_loans(&mut self)
        ensures { self.new ≡ record self.old { loans = [] } }
    {
        self.loans.clear();
    }

    /// How many frames there are.
    pub fn frames(&self) -> usize
        ensures { result ≡ length self.now.frames }
    {
        self.frames.len()
    }

    /// How many references a frame owns.
    pub fn owned(&self, frame: usize) -> usize
        requires { frame < length self.now.frames }
        ensures { result ≡ length (holding_at self.now frame).own }
    {
        self.frames[frame].own.len()
    }

    /// How many of the references that a frame owns are the object's.
    pub fn owns(&self, frame: usize, object: &Obj) -> usize
        requires { frame < length self.now.frames }
        ensures { result ≡ counts (holding_at self.now frame).own object.now }
    {
        counts(self.frames[frame].own.as_slice(), object)
    }

    /// Whether the object was lent to a frame.
    pub fn lent(&self, frame: usize, object: &Obj) -> bool
        requires { frame < length self.now.frames }
        ensures { result ≡ has (holding_at self.now frame).lent object.now }
    {
        has(self.frames[frame].lent.as_slice(), object)
    }

    /// Whether there is a loan of the object.
    pub fn loaned(&self, object: &Obj) -> bool
        ensures { result ≡ has self.now.loans object.now }
    {
        has(self.loans.as_slice(), object)
    }
}
