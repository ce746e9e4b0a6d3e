use crate::{
    DiskFiles, Files, MemFiles, MemSink, ReadAnswer, Sink, StdSink, SureFiles, SureSink,
    WriteAnswer,
};
use std::io::Write;
use std::process::Abort;
use std::test::Fail;
use std::{fs, io};

// What the outside's traits give, through their bounds.
fn write_and_read<R: Abort + AllocGlobal, F: Files>(rt: &R, files: &mut F, name: &[u8]) {
    let written = files.write(rt.alloc(), name, b"cdef int x");
    assert_eq!(rt; written, WriteAnswer::Done);
    assert_bytes(rt, &files.read(rt.alloc(), name, 4), b"cdef");
    assert_bytes(rt, &files.read(rt.alloc(), name, 40), b"cdef int x");
    let missing = files.read(rt.alloc(), b"cy_io_no_such_file", 40);
    assert!(rt; matches!(missing, ReadAnswer::Absent));
}

fn put_twice<S: Sink>(rt: &impl Abort, sink: &mut S) {
    assert_eq!(rt; sink.put(b"ab"), WriteAnswer::Done);
    assert_eq!(rt; sink.put(b"c"), WriteAnswer::Done);
}

fn assert_bytes(rt: &impl Abort, answer: &ReadAnswer, wanted: &[u8]) {
    match answer {
        ReadAnswer::Bytes(bytes) => assert_eq!(rt; bytes.as_slice(), wanted),
        _ => assert!(rt; false, "no bytes"),
    }
}

#[test]
fn mem_files_hold_what_is_added(rt: HostRuntime) -> Result<(), Fail> {
    let alloc = rt.alloc();
    let mut files = MemFiles::new(alloc, Vec::new(alloc));
    files.add(b"a.pyx", b"old")?;
    files.add(b"a.pyx", b"new")?;
    prove_eq!(files.get(b"a.pyx").unwrap(), b"new".as_slice());
    assert_eq!(rt; files.get(b"a.pyx"), Some(b"new".as_slice()));
    assert_eq!(rt; files.get(b"b.pyx"), None);
    write_and_read(&rt, &mut files, b"b.pyx");
    Ok(())
}

#[test]
fn sure_files_hold_what_is_added(rt: HostRuntime) -> Result<(), Fail> {
    let mut files = SureFiles::new(rt.alloc());
    files.add(b"a.pyx", b"new")?;
    prove_eq!(files.get(b"a.pyx").unwrap(), b"new".as_slice());
    assert_eq!(rt; files.get(b"a.pyx"), Some(b"new".as_slice()));
    assert_eq!(rt; files.get(b"b.pyx"), None);
    write_and_read(&rt, &mut files, b"b.pyx");
    Ok(())
}

#[test]
fn mem_files_fail_the_numbered_calls(rt: HostRuntime) -> Result<(), Fail> {
    let alloc = rt.alloc();
    let mut files = MemFiles::new(alloc, [2, 3].to_vec(alloc)?);
    files.add(b"a", b"one")?;
    assert_bytes(&rt, &files.read(alloc, b"a", 8), b"one");
    let failed = files.read(alloc, b"a", 8);
    assert!(rt; matches!(failed, ReadAnswer::Failed));
    assert_eq!(rt; files.write(alloc, b"a", b"two"), WriteAnswer::Failed);
    assert_bytes(&rt, &files.read(alloc, b"a", 8), b"one");
    assert_eq!(rt; files.write(alloc, b"a", b"two"), WriteAnswer::Done);
    assert_bytes(&rt, &files.read(alloc, b"a", 8), b"two");
    Ok(())
}

#[test]
fn sinks_in_memory_hold_what_is_put(rt: HostRuntime) -> Result<(), Fail> {
    let alloc = rt.alloc();
    let mut sure = SureSink::new(alloc);
    put_twice(&rt, &mut sure);
    assert_eq!(rt; sure.held(), b"abc".as_slice());
    let mut sink = MemSink::new(alloc, [3].to_vec(alloc)?);
    put_twice(&rt, &mut sink);
    assert_eq!(rt; sink.put(b"d"), WriteAnswer::Failed);
    assert_eq!(rt; sink.put(b"e"), WriteAnswer::Done);
    assert_eq!(rt; sink.held(), b"abce".as_slice());
    Ok(())
}

#[test]
fn disk_files_write_and_read(rt: HostRuntime) -> Result<(), Fail> {
    let name = b"cy_io_test_file";
    let mut files = DiskFiles::new(&rt);
    write_and_read(&rt, &mut files, name);
    let not_a_path = files.read(rt.alloc(), &[0xff], 4);
    assert!(rt; matches!(not_a_path, ReadAnswer::Failed));
    let no_folder = files.write(rt.alloc(), b"cy_io_no_such_folder/file", b"x");
    assert_eq!(rt; no_folder, WriteAnswer::Failed);
    fs::remove_file(&rt, "cy_io_test_file")?;
    Ok(())
}

// A writer that takes three bytes, one at a time, and then fails.
#[derive(Drop)]
struct Narrow {
    taken: usize,
}

impl Write for Narrow {
    fn write(&mut self, bytes: &[u8]) -> io::Result<usize> {
        if self.taken >= 3 || bytes.is_empty() {
            return Err(io::Error::from(io::ErrorKind::BrokenPipe));
        }
        self.taken += 1;
        Ok(1)
    }

    fn flush(&mut self) -> io::Result<()> {
        Ok(())
    }
}

#[test]
fn a_stream_takes_what_is_put(rt: HostRuntime) -> Result<(), Fail> {
    let mut sink = StdSink::new(Narrow { taken: 0 });
    put_twice(&rt, &mut sink);
    assert_eq!(rt; sink.put(b"d"), WriteAnswer::Failed);
    Ok(())
}
