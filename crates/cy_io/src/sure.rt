ghost use Rattle.std.specs.Prelude.{◌≡◌, [], Some, None, OnOk, OnErr, option_copied};
ghost use Rattle.cy_io.specs.Memory.{sure_files, sure_held};
ghost use Rattle.cy_io.specs.Told.{IsWritten};

use crate::answers::{ReadAnswer, WriteAnswer};
use crate::outside::{Files, Sink};
use crate::store::Store;
use cy_base::OutOfMemory;
use std::alloc::Global;

/// Files in memory that don't fail. The project's own.
#[derive(Drop)]
pub struct SureFiles {
    store: Store,
}

impl SureFiles {
    /// No files yet.
    pub fn new(alloc: Global) -> SureFiles
        ensures { sure_files result ≡ (λ _. None) }
    {
        SureFiles {
            store: Store::new(alloc),
        }
    }

    /// Sets a file.
    pub fn add(&mut self, name: &[u8], bytes: &[u8]) -> Result<(), OutOfMemory>
        ensures ok { OnOk result (IsWritten name.now bytes.now (sure_files self.old) (sure_files self.new)) }
        ensures err { OnErr result (sure_files self.new ≡ sure_files self.old) }
    {
        let alloc = self.store.alloc;
        self.store.set(alloc, name, bytes)
    }

    /// The bytes of the file `name`.
    pub fn get(&self, name: &[u8]) -> Option<&[u8]>
        ensures { option_copied result ≡ sure_files self.now name.now }
    {
        self.store.get(name)
    }
}

impl Files for SureFiles {
    ghost told = { λ files. Some (sure_files files) };

    ghost read_faults = { λ _ _. 0 };

    ghost write_faults = { λ _. 0 };

    fn read(&mut self, alloc: Global, name: &[u8], limit: usize) -> ReadAnswer {
        self.store.read(alloc, name, limit)
    }

    fn write(&mut self, alloc: Global, name: &[u8], bytes: &[u8]) -> WriteAnswer {
        match self.store.set(alloc, name, bytes) {
            Ok(()) => WriteAnswer::Done,
            Err(_) => WriteAnswer::Memory,
        }
    }
}

/// A sink in memory that doesn't fail. The project's own.
#[derive(Drop)]
pub struct SureSink {
    held: Vec<u8>,
}

impl SureSink {
    /// An empty sink.
    pub fn new(alloc: Global) -> SureSink
        ensures { sure_held result ≡ [] }
    {
        SureSink {
            held: Vec::new(alloc),
        }
    }

    /// All bytes that were put.
    pub fn held(&self) -> &[u8]
        ensures { result.now ≡ sure_held self.now }
    {
        self.held.as_slice()
    }
}

impl Sink for SureSink {
    ghost held = { λ sink. Some (sure_held sink) };

    ghost faults = { λ _. 0 };

    fn put(&mut self, bytes: &[u8]) -> WriteAnswer {
        match self.held.extend_from_slice(bytes) {
            Ok(()) => WriteAnswer::Done,
            Err(_) => WriteAnswer::Memory,
        }
    }
}
