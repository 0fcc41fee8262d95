use fq_core::Name;
use fq_io::{
    FileFault, Files, MemoryFiles, MemorySink, RealSink, Sink, SinkFault, Take, write_all,
};
use fq_io_recorded::{HandedFiles, ToldSink, Wanted, read_wanted};
use std::alloc::Global;
use std::test::Fail;

// Files a, b and c, of which the reads with these numbers fail.
fn three_files(alloc: Global, failing: &[u32]) -> Result<MemoryFiles, Fail> {
    let mut entries = Vec::new(alloc);
    for (name, text) in [("a", "xyz"), ("b", "long"), ("c", "")] {
        let Ok(name) = Name::new(alloc, name.as_bytes()) else {
            return Err(Fail::from("no memory"));
        };
        entries.push((name, text.as_bytes().to_vec(alloc)?))?;
    }
    Ok(MemoryFiles::new(entries, failing.to_vec(alloc)?))
}

fn read(alloc: Global, failing: &[u32], names: &[(&str, u64)]) -> Result<HandedFiles, Fail> {
    let mut wanted = Vec::new(alloc);
    for (name, most) in names {
        wanted.push(Wanted {
            name: *name,
            most: *most,
        })?;
    }
    let Ok(files) = read_wanted(alloc, &mut three_files(alloc, failing)?, &wanted) else {
        return Err(Fail::from("no memory"));
    };
    Ok(files)
}

// Each name is read once (a third read would fail), and handed over as often as it is wanted.
#[test]
fn files_are_handed_over(rt: HostRuntime) -> Result<(), Fail> {
    let alloc = rt.alloc();
    let mut files = read(alloc, &[2], &[("a", 3), ("b", 3), ("a", 3)])?;
    for (name, limit, want) in [
        ("a", 2, Err(FileFault::TooLong)),
        ("a", 3, Ok(3)),
        ("b", 3, Err(FileFault::TooLong)),
        ("c", 3, Err(FileFault::Failed)),
        ("a", 3, Ok(3)),
        ("a", 3, Err(FileFault::Failed)),
    ] {
        let read = files.read_whole(alloc, name, limit);
        assert_eq!(rt; read.map(|bytes| bytes.len()), want);
    }
    Ok(())
}

// What stands behind a file that can't be read isn't read.
#[test]
fn reading_ends_at_a_fault(rt: HostRuntime) -> Result<(), Fail> {
    let alloc = rt.alloc();
    let mut files = read(alloc, &[1], &[("a", 3), ("b", 4), ("c", 4)])?;
    for (name, want) in [
        ("a", Ok(3)),
        ("b", Err(FileFault::Failed)),
        ("c", Err(FileFault::Failed)),
    ] {
        let read = files.read_whole(alloc, name, 4);
        assert_eq!(rt; read.map(|bytes| bytes.len()), want);
    }
    Ok(())
}

#[test]
fn a_sink_takes_what_the_one_behind_it_takes(rt: HostRuntime) -> Result<(), Fail> {
    let alloc = rt.alloc();
    let script = [Take::AtMost(2), Take::Fail];
    let mut sink = ToldSink::new(MemorySink::new(alloc, script.to_vec(alloc)?));
    assert_eq!(rt; sink.write(b"abcde"), Ok(2));
    assert_eq!(rt; write_all(&mut sink, b"cde"), Err(SinkFault::Failed));
    assert_eq!(rt; write_all(&mut sink, b"cde"), Ok(()));
    let mut out = ToldSink::new(RealSink::new(rt.stdout()));
    assert_eq!(rt; write_all(&mut out, b""), Ok(()));
    Ok(())
}
