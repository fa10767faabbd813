use gr_io::{
    Failed, FetchFault, FileShelf, MemoryShelf, MemorySink, Shelf, Sink, StdoutSink, WriteFault,
    write_all_of,
};
use std::alloc::{AllocError, Global};
use std::test::Fail;
use std::{env, fs, io, process};

/// The pair of a name and the bytes under it.
fn pair(alloc: Global, name: &str, bytes: &[u8]) -> Result<(String, Vec<u8>), AllocError> {
    Ok((String::from_str(alloc, name)?, bytes.to_vec(alloc)?))
}

#[test]
fn a_memory_shelf_gives_cut_files_and_fails_when_told(rt: HostRuntime) -> Result<(), Fail> {
    let alloc = rt.alloc();
    let files = vec![in alloc;
        pair(alloc, "m", b"abc")?,
        pair(alloc, "m", b"xyz")?,
        pair(alloc, "", b"")?,
    ]?;
    let mut shelf = MemoryShelf::new(files, vec![in alloc; 3]?);
    // A name, a limit, the bytes or a fault, and the count of faults after the call.
    const CALLS: [(&str, u16, Result<&[u8], FetchFault>, u64); 6] = [
        ("m", 9, Ok(b"abc"), 0),
        ("m", 1, Ok(b"ab"), 0),
        ("m", 9, Err(FetchFault::Failed), 1),
        ("gone", 9, Err(FetchFault::Failed), 2),
        ("", 0, Ok(b""), 2),
        ("m", 0, Ok(b"a"), 2),
    ];
    for (name, limit, wanted, faults) in CALLS {
        match shelf.fetch(alloc, 2, name, usize::from(limit)) {
            Ok(bytes) => assert_eq!(rt; Ok(bytes.as_slice()), wanted, "{name} up to {limit}"),
            Err(fault) => assert_eq!(rt; Err(fault), wanted, "{name} up to {limit}"),
        }
        assert_eq!(rt; shelf.faults, [0, 0, faults, 0, 0]);
    }
    assert_eq!(rt; shelf.calls, 6);
    Ok(())
}

#[test]
fn a_memory_sink_takes_pieces_and_fails_when_told(rt: HostRuntime) -> Result<(), Fail> {
    let alloc = rt.alloc();
    let mut sink = MemorySink::with_room(alloc, 5, 2, vec![in alloc; 2]?)?;
    // A piece, how much is taken of it, and what the sink then has.
    const CALLS: [(&[u8], Result<usize, Failed>, &[u8]); 5] = [
        (b"abc", Ok(2), b"ab"),
        (b"c", Err(Failed), b"ab"),
        (b"c", Ok(1), b"abc"),
        (b"defg", Ok(2), b"abcde"),
        (b"f", Err(Failed), b"abcde"),
    ];
    for (piece, wanted, bytes) in CALLS {
        assert!(rt; !piece.is_empty());
        assert_eq!(rt; sink.write(piece), wanted, "at {piece:?}");
        assert_eq!(rt; sink.bytes.as_slice(), bytes);
    }
    assert_eq!(rt; (sink.faults, sink.calls), (2, 5));
    Ok(())
}

#[test]
fn a_text_is_written_whole_or_up_to_a_fault(rt: HostRuntime) -> Result<(), Fail> {
    let alloc = rt.alloc();
    let mut sink = MemorySink::with_room(alloc, 9, 1, vec![in alloc]?)?;
    assert_eq!(rt; write_all_of(&mut sink, b"grammar"), Ok(()));
    assert_eq!(rt; sink.bytes.as_slice(), b"grammar".as_slice());
    let mut sink = MemorySink::with_room(alloc, 9, 1, vec![in alloc; 2]?)?;
    assert_eq!(rt;
        write_all_of(&mut sink, b"grammar"),
        Err(WriteFault { written: 1 })
    );
    assert_eq!(rt; sink.bytes.as_slice(), b"g".as_slice());
    Ok(())
}

/// Fetches as file number 1 what a path names.
fn fetched(
    shelf: &mut FileShelf<'_, HostRuntime>,
    alloc: Global,
    path: &str,
    limit: u32,
) -> Result<Vec<u8>, FetchFault> {
    shelf.fetch(alloc, 1, path, limit as usize)
}

#[test]
fn a_file_shelf_reads_the_system(rt: HostRuntime) -> Result<(), Fail> {
    let alloc = rt.alloc();
    let name = format!(in alloc; "gr_io-test-{}", process::id(rt.process()))?;
    let path = env::temp_dir(&rt)?.join(alloc, name.as_str())?;
    let path = path.as_str();
    let long = vec![in alloc; b'x'; 200_000]?;
    fs::write(&rt, path, long.as_slice())?;
    let mut shelf = FileShelf::new(&rt);
    let whole = fetched(&mut shelf, alloc, path, 1_000_000);
    let cut = fetched(&mut shelf, alloc, path, 150_000);
    let short = fetched(&mut shelf, alloc, path, 3);
    assert_eq!(rt; shelf.faults, [0; 5]);
    fs::remove_file(&rt, path)?;
    assert_eq!(rt; whole?.len(), 200_000);
    assert_eq!(rt; cut?.len(), 150_001);
    assert_eq!(rt; short?.as_slice(), b"xxxx".as_slice());
    assert_eq!(rt;
        fetched(&mut shelf, alloc, path, 3),
        Err(FetchFault::Failed)
    );
    assert_eq!(rt; shelf.faults, [0, 1, 0, 0, 0]);
    assert_eq!(rt; fetched(&mut shelf, alloc, "/", 3), Err(FetchFault::Failed));
    assert_eq!(rt; shelf.faults, [0, 2, 0, 0, 0]);
    Ok(())
}

#[test]
fn a_stdout_sink_prints(rt: HostRuntime) -> io::Result<()> {
    let mut sink = StdoutSink::new(&rt);
    assert_eq!(rt;
        write_all_of(&mut sink, b"a line of the standard output\n"),
        Ok(())
    );
    assert_eq!(rt; sink.faults, 0);
    Ok(())
}
