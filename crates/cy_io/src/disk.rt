ghost use Rattle.std.specs.Prelude.{◌≡◌, ◌≢◌, ◌≤◌, length, take, None, IfOk, IfSome, OnOk};
ghost use Rattle.cy_io.specs.Answers.{IfBytes, UnlessFailed};
ghost use Rattle.cy_io.specs.Counts.{Rose};
ghost use Rattle.cy_io.specs.Disk.{disk_reads, disk_writes, failed_stream, stream_writer};
ghost use Rattle.std.specs.Io.KnownBytes.{Appends};

use crate::answers::{ReadAnswer, WriteAnswer};
use crate::outside::{Files, Sink};
use std::alloc::Global;
use std::io::{ErrorKind, Read, Write};
use std::{fs, io, rt, str};

/// The files of a runtime, by paths in UTF-8. They tell nothing of what they hold. The project's own.
#[derive(Drop)]
pub struct DiskFiles<'a, R> {
    runtime: &'a R,
    // Reads that failed or found no file, of whatever name.
    failed_reads: u64,
    failed_writes: u64,
}

impl<'a, R: rt::Files> DiskFiles<'a, R> {
    /// The files that `rt` reaches, of which none has failed yet.
    pub fn new(rt: &'a R) -> DiskFiles<'a, R>
        ensures reads { disk_reads result ≡ 0 }
        ensures writes { disk_writes result ≡ 0 }
    {
        DiskFiles {
            runtime: rt,
            failed_reads: 0,
            failed_writes: 0,
        }
    }
}

impl<R: rt::Files> Files for DiskFiles<'_, R> {
    ghost told = { λ _. None };

    ghost read_faults = { λ files _. disk_reads files };

    ghost write_faults = { λ files. disk_writes files };

    fn read(&mut self, alloc: Global, name: &[u8], limit: usize) -> ReadAnswer {
        let answer = read_named(self.runtime, alloc, name, limit);
        if matches!(answer, ReadAnswer::Absent | ReadAnswer::Failed) {
            self.failed_reads = self.failed_reads.saturating_add(1);
        }
        answer
    }

    fn write(&mut self, _alloc: Global, name: &[u8], bytes: &[u8]) -> WriteAnswer {
        if is_written(self.runtime, name, bytes) {
            return WriteAnswer::Done;
        }
        self.failed_writes = self.failed_writes.saturating_add(1);
        WriteAnswer::Failed
    }
}

fn read_path<R: rt::Files>(rt: &R, alloc: Global, path: &str, limit: usize) -> io::Result<Vec<u8>>
    ensures { IfOk result (λ bytes. length bytes.items ≤ limit) }
{
    let file = fs::open(rt, path)?;
    read_up_to(file, alloc, limit)
}

// What the reader has left, up to the limit.
fn read_up_to<F: Read + Drop>(file: F, alloc: Global, limit: usize) -> io::Result<Vec<u8>>
    ensures within { IfOk result (λ bytes. length bytes.items ≤ limit) }
    ensures front { IfOk result (λ bytes. IfSome (F.remaining file) (λ all. bytes.items ≡ take limit all)) }
{
    let mut bytes = Vec::new(alloc);
    file.take(limit as u64).read_to_end(&mut bytes)?;
    // No clause says that a reader whose bytes aren't known keeps to the limit.
    bytes.truncate(limit);
    Ok(bytes)
}

fn read_named<R: rt::Files>(rt: &R, alloc: Global, name: &[u8], limit: usize) -> ReadAnswer
    ensures { IfBytes result (λ bytes. length bytes ≤ limit) }
{
    let Ok(path) = str::from_utf8(name) else {
        return ReadAnswer::Failed;
    };
    match read_path(rt, alloc, path, limit) {
        Ok(bytes) => ReadAnswer::Bytes(bytes),
        Err(error) => match error.kind() {
            ErrorKind::NotFound => ReadAnswer::Absent,
            ErrorKind::OutOfMemory => ReadAnswer::Memory,
            _ => ReadAnswer::Failed,
        },
    }
}

fn is_written<R: rt::Files>(rt: &R, name: &[u8], bytes: &[u8]) -> bool {
    match str::from_utf8(name) {
        Ok(path) => write_path(rt, path, bytes).is_ok(),
        Err(_) => false,
    }
}

fn write_path<R: rt::Files>(rt: &R, path: &str, bytes: &[u8]) -> io::Result<()> {
    let mut file = fs::create(rt, path)?;
    write_out(&mut file, bytes)
}

// All of the bytes, behind what the writer holds.
fn write_out<W: Write>(writer: &mut W, bytes: &[u8]) -> io::Result<()>
    ensures { OnOk result (Appends (W.contents writer.old) (W.contents writer.new) bytes.now) }
{
    writer.write_all(bytes)?;
    writer.flush()
}

/// A writer as a sink, which tells nothing of what it holds. The project's own.
#[derive(Drop)]
pub struct StdSink<W> {
    writer: W,
    failed: u64,
}

impl<W: Write + Drop> StdSink<W> {
    /// The writer, with no failed put yet.
    pub fn new(writer: W) -> StdSink<W>
        ensures writer { stream_writer result ≡ writer }
        ensures faults { failed_stream result ≡ 0 }
    {
        StdSink { writer, failed: 0 }
    }
}

impl<W: Write + Drop> Sink for StdSink<W> {
    ghost held = { λ _. None };

    ghost faults = { λ sink. failed_stream sink };

    fn put(&mut self, bytes: &[u8]) -> WriteAnswer
        ensures written { result ≡ WriteAnswer.Done → Appends (W.contents (stream_writer self.old))
            (W.contents (stream_writer self.new)) bytes.now }
        ensures not_memory { result ≢ WriteAnswer.Memory }
        ensures fault { result ≡ WriteAnswer.Failed →
            Rose (failed_stream self.old) (failed_stream self.new) }
        ensures count_kept { UnlessFailed result (failed_stream self.new ≡ failed_stream self.old) }
        ensures count_grows { failed_stream self.old ≤ failed_stream self.new }
    {
        match write_out(&mut self.writer, bytes) {
            Ok(()) => WriteAnswer::Done,
            Err(_) => {
                self.failed = self.failed.saturating_add(1);
                WriteAnswer::Failed
            }
        }
    }
}
