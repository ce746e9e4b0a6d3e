ghost use Rattle.std.specs.Prelude.{◌≡◌, ◌≢◌, ◌≤◌, length, take, None, OnOk, OnErr, IsSomeAnd, option_copied};
ghost use Rattle.cy_io.specs.Answers.{IfBytes};
ghost use Rattle.cy_io.specs.Store.{stored};
ghost use Rattle.cy_io.specs.Told.{IsWritten};

use crate::answers::ReadAnswer;
use cy_base::OutOfMemory;
use std::alloc::Global;
use std::collections::BTreeMap;

// The files of `MemFiles` and `SureFiles`.
#[derive(Drop)]
pub struct Store {
    pub alloc: Global,
    pub files: BTreeMap<Vec<u8>, Vec<u8>>,
}

impl Store {
    pub fn new(alloc: Global) -> Store
        ensures { stored result ≡ (λ _. None) }
    {
        Store {
            alloc,
            files: BTreeMap::new(alloc),
        }
    }

    pub fn get(&self, name: &[u8]) -> Option<&[u8]>
        ensures { option_copied result ≡ stored self.now name.now }
    {
        match self.files.get(name) {
            Some(bytes) => Some(bytes.as_slice()),
            None => None,
        }
    }

    pub fn set(&mut self, alloc: Global, name: &[u8], bytes: &[u8]) -> Result<(), OutOfMemory>
        ensures ok { OnOk result (IsWritten name.now bytes.now (stored self.old) (stored self.new)) }
        ensures err { OnErr result (stored self.new ≡ stored self.old) }
    {
        let key = Vec::from_slice(alloc, name)?;
        let file = Vec::from_slice(alloc, bytes)?;
        self.files.insert(key, file)?;
        Ok(())
    }

    pub fn read(&self, alloc: Global, name: &[u8], limit: usize) -> ReadAnswer
        ensures bytes { IfBytes result (λ bytes.
            IsSomeAnd (stored self.now name.now) (λ file. bytes ≡ take limit file)) }
        ensures within { IfBytes result (λ bytes. length bytes ≤ limit) }
        ensures absent { result ≡ ReadAnswer.Absent → stored self.now name.now ≡ None }
        ensures not_failed { result ≢ ReadAnswer.Failed }
    {
        let Some(file) = self.get(name) else {
            return ReadAnswer::Absent;
        };
        match Vec::from_slice(alloc, &file[..file.len().min(limit)]) {
            Ok(bytes) => ReadAnswer::Bytes(bytes),
            Err(_) => ReadAnswer::Memory,
        }
    }
}
