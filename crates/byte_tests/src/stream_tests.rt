//! What no clause says of streams: that reading and writing succeed, in memory and over files of the system, and that
//! an endless source, a folder and a full device are refused.

use pec_io::{
    Failed, MemorySink, MemorySource, ReadRefusal, StdSink, StdSource, SteadySink, SteadySource,
    read_all, write_all,
};
use std::fs::File;
use std::test::Fail;
use std::{env, fs};

#[test]
fn streams_in_memory(rt: HostRuntime) -> Result<(), Fail> {
    let alloc = rt.alloc();
    let mut pieces = MemorySource::new(b"hello".to_vec(alloc)?, 2, [9].to_vec(alloc)?);
    let bytes = read_all(alloc, &mut pieces, 5)?;
    let mut to = MemorySink::new(alloc, 5, 2, [9].to_vec(alloc)?).map_err(|_| "no memory")?;
    assert_eq!(rt; write_all(&mut to, bytes.as_slice()), Ok(()));
    assert_eq!(rt; to.written(), b"hello".as_slice());

    let mut steady = SteadySource::new(b"hello".to_vec(alloc)?);
    let bytes = read_all(alloc, &mut steady, 5)?;
    let mut to = SteadySink::new(alloc, 5)?;
    assert_eq!(rt; write_all(&mut to, bytes.as_slice()), Ok(()));
    assert_eq!(rt; to.written(), b"hello".as_slice());
    assert_eq!(rt; write_all(&mut to, b"!"), Err(Failed));
    Ok(())
}

#[test]
fn streams_of_the_system(rt: HostRuntime) -> Result<(), Fail> {
    let alloc = rt.alloc();
    let path = env::temp_dir(&rt)?.join(alloc, "byte_tests_streams_of_the_system")?;
    let mut to = StdSink::new(File::create(&rt, path.as_path())?);
    assert!(rt; write_all(&mut to, b"over a file").is_ok());
    let mut from = StdSource::new(File::open(&rt, path.as_path())?);
    assert_eq!(rt;
        read_all(alloc, &mut from, 100)?.as_slice(),
        b"over a file".as_slice()
    );
    fs::remove_file(&rt, path.as_path())?;

    let mut endless = StdSource::new(File::open(&rt, "/dev/zero")?);
    assert_eq!(rt;
        read_all(alloc, &mut endless, 100_000).err(),
        Some(ReadRefusal::Large)
    );
    let mut folder = StdSource::new(File::open(&rt, "/")?);
    assert_eq!(rt;
        read_all(alloc, &mut folder, 100).err(),
        Some(ReadRefusal::Fault)
    );
    assert_eq!(rt; folder.faults, 1);
    let mut full = StdSink::new(fs::OpenOptions::new().write(true).open(&rt, "/dev/full")?);
    assert!(rt; write_all(&mut full, b"no room").is_err());
    assert_eq!(rt; full.faults, 1);
    Ok(())
}
