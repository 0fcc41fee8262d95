use fq_core::Name;
use fq_io::*;
use std::alloc::Global;
use std::test::Fail;

fn one_file(alloc: Global, failing: &[u32]) -> Result<MemoryFiles, Fail> {
    let Ok(name) = Name::new(alloc, b"a") else {
        return Err(Fail::from("no memory"));
    };
    let mut entries = Vec::new(alloc);
    entries.push((name, b"xyz".to_vec(alloc)?))?;
    Ok(MemoryFiles::new(entries, failing.to_vec(alloc)?))
}

#[test]
fn reads_by_the_script(rt: HostRuntime) -> Result<(), Fail> {
    let alloc = rt.alloc();
    let mut files = one_file(alloc, &[1])?;
    for (name, limit, want) in [
        ("a", 3, Ok(3)),
        ("a", 3, Err(FileFault::Failed)),
        ("a", 2, Err(FileFault::TooLong)),
        ("b", 3, Err(FileFault::Failed)),
        ("a", u64::MAX, Ok(3)),
    ] {
        let read = files.read_whole(alloc, name, limit);
        assert_eq!(rt; read.map(|bytes| bytes.len()), want);
    }
    Ok(())
}

#[test]
fn writes_by_the_script(rt: HostRuntime) -> Result<(), Fail> {
    let alloc = rt.alloc();
    let script = [Take::AtMost(0), Take::AtMost(2), Take::Fail];
    let mut sink = MemorySink::new(alloc, script.to_vec(alloc)?);
    assert_eq!(rt; write_all(&mut sink, b"abcde"), Err(SinkFault::Failed));
    assert_eq!(rt; sink.taken(), b"abc".as_slice());
    assert_eq!(rt; write_all(&mut sink, b"de"), Ok(()));
    assert_eq!(rt; sink.taken(), b"abcde".as_slice());
    Ok(())
}

#[test]
fn real_files(rt: HostRuntime) -> Result<(), Fail> {
    std::fs::write(&rt, "three", "xyz")?;
    let mut files = RealFiles::new(&rt);
    for (name, limit, want) in [
        ("three", 3, Ok(3)),
        ("three", 2, Err(FileFault::TooLong)),
        ("missing", 3, Err(FileFault::Failed)),
        (".", 3, Err(FileFault::Failed)),
    ] {
        let read = files.read_whole(rt.alloc(), name, limit);
        assert_eq!(rt; read.map(|bytes| bytes.len()), want);
    }
    let mut out = RealSink::new(rt.stdout());
    assert_eq!(rt; write_all(&mut out, b""), Ok(()));
    Ok(())
}

// Reads and writes over any files and sinks, known by their bounds alone.
fn copy<F: Files, S: Sink>(alloc: Global, files: &mut F, sink: &mut S) -> Result<(), Fail> {
    let Ok(bytes) = files.read_whole(alloc, "a", 3) else {
        return Err(Fail::from("not read"));
    };
    write_all(sink, &bytes)?;
    Ok(())
}

#[test]
fn a_sink_in_memory_takes_all(rt: HostRuntime) -> Result<(), Fail> {
    let alloc = rt.alloc();
    let mut sink = VecSink::new(alloc);
    copy(alloc, &mut one_file(alloc, &[])?, &mut sink)?;
    copy(alloc, &mut one_file(alloc, &[])?, &mut sink)?;
    assert_eq!(rt; sink.taken(), b"xyzxyz".as_slice());
    Ok(())
}

// A file and a text at the limits of sources and inputs.
#[test]
fn large_texts(rt: HostRuntime) -> Result<(), Fail> {
    let alloc = rt.alloc();
    let limit = 16 * 1024 * 1024;
    let bytes = vec![in alloc; b'5'; limit]?;
    std::fs::write(&rt, "large", &bytes)?;
    let read = RealFiles::new(&rt).read_whole(alloc, "large", limit as u64);
    assert_eq!(rt; read.map(|read| read.len()), Ok(limit));
    let mut sink = VecSink::new(alloc);
    assert_eq!(rt; write_all(&mut sink, &bytes), Ok(()));
    assert_eq!(rt; sink.taken().len(), limit);
    Ok(())
}

// A text of so many bytes is written in at most as many writes: a sink that takes one byte a write and then fails takes
// all of it, and is asked for nothing where the text is empty.
#[test]
fn writes_are_no_more_than_bytes(rt: HostRuntime) -> Result<(), Fail> {
    let alloc = rt.alloc();
    let script = [
        Take::AtMost(1),
        Take::AtMost(1),
        Take::AtMost(1),
        Take::Fail,
    ];
    let mut sink = MemorySink::new(alloc, script.to_vec(alloc)?);
    assert_eq!(rt; write_all(&mut sink, b""), Ok(()));
    assert_eq!(rt; write_all(&mut sink, b"abc"), Ok(()));
    assert_eq!(rt; sink.taken(), b"abc".as_slice());
    assert_eq!(rt; write_all(&mut sink, b"d"), Err(SinkFault::Failed));
    Ok(())
}

// Takes one byte a write, and counts the writes.
#[derive(Drop)]
struct CountingSink {
    writes: u32,
}

impl Sink for CountingSink {
    ghost use Rattle.std.specs.Prelude.{None, false};

    ghost taken = { λ _. None };

    ghost faults = { λ _. 0 };

    ghost may_lack_memory = { false };

    fn write(&mut self, bytes: &[u8]) -> Result<usize, SinkFault> {
        self.writes = self.writes.saturating_add(1);
        Ok(bytes.len().min(1))
    }
}

#[test]
fn writes_no_more_than_bytes(rt: HostRuntime) -> Result<(), Fail> {
    let mut sink = CountingSink { writes: 0 };
    assert_eq!(rt; write_all(&mut sink, b""), Ok(()));
    assert_eq!(rt; sink.writes, 0);
    assert_eq!(rt; write_all(&mut sink, b"abcde"), Ok(()));
    assert_eq!(rt; sink.writes, 5);
    Ok(())
}
