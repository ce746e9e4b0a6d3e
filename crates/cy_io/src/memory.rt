ghost use Rattle.std.specs.Prelude.{◌≡◌, ◌≢◌, ◌≤◌, ◌<◌, ◌++◌, ◌⊎◌, ℕ, List, [], length, take, Some, None, IsSomeAnd, OnOk, OnErr, option_copied};
ghost use Rattle.cy_io.specs.Answers.{IfBytes, UnlessReadFault, UnlessFailed};
ghost use Rattle.cy_io.specs.Counts.{Rose};
ghost use Rattle.cy_io.specs.Memory.{mem_files, failed_reads, failed_writes, mem_calls, mem_held, failed_puts, sink_calls};
ghost use Rattle.cy_io.specs.Store.{IsListedNext, IsFresh, IsOneLater};
ghost use Rattle.cy_io.specs.Told.{SameElsewhere, IsWritten, IsPartlyAppended};

use crate::answers::{ReadAnswer, WriteAnswer};
use crate::calls::Calls;
use crate::outside::{Files, Sink};
use crate::store::Store;
use cy_base::OutOfMemory;
use std::alloc::Global;

/// Files in memory, of which the calls with given numbers fail. The project's own.
#[derive(Drop)]
pub struct MemFiles {
    store: Store,
    calls: Calls,
    failed_reads: Vec<Vec<u8>>,
    failed_writes: u64,
}

impl MemFiles {
    /// No files yet. `failing` numbers the calls of `read` and `write` that are to fail, from 1.
    pub fn new(alloc: Global, failing: Vec<u64>) -> MemFiles
        ensures files { mem_files result ≡ (λ _. None) }
        ensures reads { failed_reads result ≡ (λ _. 0) }
        ensures writes { failed_writes result ≡ 0 }
        ensures calls { IsFresh (mem_calls result) failing.items }
    {
        MemFiles {
            store: Store::new(alloc),
            calls: Calls::new(failing),
            failed_reads: Vec::new(alloc),
            failed_writes: 0,
        }
    }

    /// Sets a file. This is no call that counts.
    pub fn add(&mut self, name: &[u8], bytes: &[u8]) -> Result<(), OutOfMemory>
        ensures ok { OnOk result (IsWritten name.now bytes.now (mem_files self.old) (mem_files self.new)) }
        ensures err { OnErr result (mem_files self.new ≡ mem_files self.old) }
        ensures reads { failed_reads self.new ≡ failed_reads self.old }
        ensures writes { failed_writes self.new ≡ failed_writes self.old }
        ensures calls { mem_calls self.new ≡ mem_calls self.old }
    {
        let alloc = self.store.alloc;
        self.store.set(alloc, name, bytes)
    }

    /// The bytes of the file `name`.
    pub fn get(&self, name: &[u8]) -> Option<&[u8]>
        ensures { option_copied result ≡ mem_files self.now name.now }
    {
        self.store.get(name)
    }

    // Keeps the name of a read that failed.
    fn note_failed_read(&mut self, alloc: Global, name: &[u8]) -> Result<(), OutOfMemory>
        ensures ok { OnOk result (failed_reads self.old name.now < failed_reads self.new name.now) }
        ensures err { OnErr result (failed_reads self.new ≡ failed_reads self.old) }
        ensures grow { (other : List ℕ) → failed_reads self.old other ≤ failed_reads self.new other }
        ensures others { (other : List ℕ) → other ≢ name.now
            → failed_reads self.new other ≡ failed_reads self.old other }
        ensures files { mem_files self.new ≡ mem_files self.old }
        ensures writes { failed_writes self.new ≡ failed_writes self.old }
        ensures calls { mem_calls self.new ≡ mem_calls self.old }
    {
        let copy = Vec::from_slice(alloc, name)?;
        self.failed_reads.push(copy)?;
        Ok(())
    }
}

impl Files for MemFiles {
    ghost told = { λ files. Some (mem_files files) };

    ghost read_faults = { λ files. failed_reads files };

    ghost write_faults = { λ files. failed_writes files };

    fn read(&mut self, alloc: Global, name: &[u8], limit: usize) -> ReadAnswer
        ensures told_same { Some (mem_files self.new) ≡ Some (mem_files self.old) }
        ensures bytes { IfBytes result (λ bytes.
            IsSomeAnd (mem_files self.old name.now) (λ file. bytes ≡ take limit file)) }
        ensures within { IfBytes result (λ bytes. length bytes ≤ limit) }
        ensures absent { result ≡ ReadAnswer.Absent → mem_files self.old name.now ≡ None }
        ensures failed { result ≡ ReadAnswer.Failed →
            Rose (failed_reads self.old name.now) (failed_reads self.new name.now) }
        ensures read_counts_kept { UnlessReadFault (Some (mem_files self.old)) result
            (failed_reads self.new ≡ failed_reads self.old) }
        ensures read_counts_grow { (other : List ℕ) →
            failed_reads self.old other ≤ failed_reads self.new other }
        ensures others { (other : List ℕ) → other ≢ name.now
            → failed_reads self.new other ≡ failed_reads self.old other }
        ensures write_count_same { failed_writes self.new ≡ failed_writes self.old }
        ensures listed { result ≡ ReadAnswer.Failed → IsListedNext (mem_calls self.old) }
        ensures fails { IsListedNext (mem_calls self.old) →
            (result ≡ ReadAnswer.Failed) ⊎ (result ≡ ReadAnswer.Memory) }
        ensures later { IsOneLater (mem_calls self.old) (mem_calls self.new) }
    {
        if !self.calls.fails_next() {
            return self.store.read(alloc, name, limit);
        }
        match self.note_failed_read(alloc, name) {
            Ok(()) => ReadAnswer::Failed,
            Err(_) => ReadAnswer::Memory,
        }
    }

    fn write(&mut self, alloc: Global, name: &[u8], bytes: &[u8]) -> WriteAnswer
        ensures done { result ≡ WriteAnswer.Done →
            IsWritten name.now bytes.now (mem_files self.old) (mem_files self.new) }
        ensures failed { result ≡ WriteAnswer.Failed →
            SameElsewhere name.now (mem_files self.old) (mem_files self.new) }
        ensures fault { result ≡ WriteAnswer.Failed →
            Rose (failed_writes self.old) (failed_writes self.new) }
        ensures memory { result ≡ WriteAnswer.Memory →
            Some (mem_files self.new) ≡ Some (mem_files self.old) }
        ensures write_count_kept { UnlessFailed result
            (failed_writes self.new ≡ failed_writes self.old) }
        ensures write_count_grows { failed_writes self.old ≤ failed_writes self.new }
        ensures read_counts_same { failed_reads self.new ≡ failed_reads self.old }
        ensures listed { result ≡ WriteAnswer.Failed → IsListedNext (mem_calls self.old) }
        ensures fails { IsListedNext (mem_calls self.old) → result ≡ WriteAnswer.Failed }
        ensures later { IsOneLater (mem_calls self.old) (mem_calls self.new) }
    {
        if self.calls.fails_next() {
            self.failed_writes = self.failed_writes.saturating_add(1);
            return WriteAnswer::Failed;
        }
        match self.store.set(alloc, name, bytes) {
            Ok(()) => WriteAnswer::Done,
            Err(_) => WriteAnswer::Memory,
        }
    }
}

/// A sink in memory, of which the puts with given numbers fail. The project's own.
#[derive(Drop)]
pub struct MemSink {
    held: Vec<u8>,
    calls: Calls,
    failed: u64,
}

impl MemSink {
    /// An empty sink. `failing` numbers the puts that are to fail, from 1.
    pub fn new(alloc: Global, failing: Vec<u64>) -> MemSink
        ensures held { mem_held result ≡ [] }
        ensures faults { failed_puts result ≡ 0 }
        ensures calls { IsFresh (sink_calls result) failing.items }
    {
        MemSink {
            held: Vec::new(alloc),
            calls: Calls::new(failing),
            failed: 0,
        }
    }

    /// All bytes that were put.
    pub fn held(&self) -> &[u8]
        ensures { result.now ≡ mem_held self.now }
    {
        self.held.as_slice()
    }
}

impl Sink for MemSink {
    ghost held = { λ sink. Some (mem_held sink) };

    ghost faults = { λ sink. failed_puts sink };

    fn put(&mut self, bytes: &[u8]) -> WriteAnswer
        ensures done { result ≡ WriteAnswer.Done →
            Some (mem_held self.new) ≡ Some (mem_held self.old ++ bytes.now) }
        ensures failed { result ≡ WriteAnswer.Failed →
            IsPartlyAppended bytes.now (mem_held self.old) (mem_held self.new) }
        ensures fault { result ≡ WriteAnswer.Failed →
            Rose (failed_puts self.old) (failed_puts self.new) }
        ensures memory { result ≡ WriteAnswer.Memory →
            Some (mem_held self.new) ≡ Some (mem_held self.old) }
        ensures count_kept { UnlessFailed result (failed_puts self.new ≡ failed_puts self.old) }
        ensures count_grows { failed_puts self.old ≤ failed_puts self.new }
        ensures listed { result ≡ WriteAnswer.Failed → IsListedNext (sink_calls self.old) }
        ensures fails { IsListedNext (sink_calls self.old) → result ≡ WriteAnswer.Failed }
        ensures later { IsOneLater (sink_calls self.old) (sink_calls self.new) }
    {
        if self.calls.fails_next() {
            self.failed = self.failed.saturating_add(1);
            return WriteAnswer::Failed;
        }
        match self.held.extend_from_slice(bytes) {
            Ok(()) => WriteAnswer::Done,
            Err(_) => WriteAnswer::Memory,
        }
    }
}
