//! The folders and sinks in memory, and a read with the delivery of its line.
use rsfq_outside::{
    CallKind, Folder, MemoryFolder, MemorySink, Reply, Status, SteadyFolder, SteadySink, Stop,
    deliver, make_fault_line, read_file, write_all_to,
};
use std::test::Fail;

#[test]
fn memory_folder_fails_at_its_numbers(rt: HostRuntime) -> Result<(), Fail> {
    let mut folder = MemoryFolder::new(rt.alloc(), vec![in rt.alloc(); 2, 5]?);
    folder.put("a", b"hello")?;
    assert_eq!(rt; folder.read_front("a", 3)?.as_slice(), b"hel".as_slice());
    assert_eq!(rt; folder.read_front("a", 9).is_err(), true);
    assert_eq!(rt; folder.read_front("a", 9)?.as_slice(), b"hello".as_slice());
    folder.write_whole("b", b"two")?;
    assert_eq!(rt; folder.write_whole("b", b"three").is_err(), true);
    assert_eq!(rt; folder.content("b"), Some(b"two".as_slice()));
    assert_eq!(rt; folder.read_front("none", 9).is_err(), true);
    assert_eq!(rt; folder.content("none"), None);
    Ok(())
}

#[test]
fn steady_folder_and_sink_never_fail(rt: HostRuntime) -> Result<(), Fail> {
    let mut folder = SteadyFolder::new(rt.alloc());
    folder.put("a", b"hello")?;
    assert_eq!(rt; folder.read_front("a", 3)?.as_slice(), b"hel".as_slice());
    assert_eq!(rt; folder.read_front("none", 3)?.len(), 0);
    folder.write_whole("b", b"two")?;
    assert_eq!(rt; folder.content("b"), Some(b"two".as_slice()));
    let mut sink = SteadySink::new();
    write_all_to(&mut sink, b"text")?;
    Ok(())
}

#[test]
fn memory_sink_takes_its_room(rt: HostRuntime) -> Result<(), Fail> {
    let mut sink = MemorySink::new(rt.alloc(), 6, vec![in rt.alloc(); 2]?)?;
    write_all_to(&mut sink, b"abcd")?;
    assert_eq!(rt; write_all_to(&mut sink, b"e").is_err(), true);
    assert_eq!(rt; write_all_to(&mut sink, b"efgh").is_err(), true);
    assert_eq!(rt; sink.bytes(), b"abcdef".as_slice());
    Ok(())
}

// The folder fails at the second call; the third file is one byte too long; the sink has room for five bytes of a line.
#[test]
fn read_stops_with_its_line(rt: HostRuntime) -> Result<(), Fail> {
    let mut folder = MemoryFolder::new(rt.alloc(), vec![in rt.alloc(); 2]?);
    folder.put("n.v", b"1234")?;
    folder.put("c.csv", b"12345")?;
    assert_eq!(rt; read_file(rt.alloc(), "n.v", 4, &mut folder).is_ok(), true);
    let mut sink = MemorySink::new(rt.alloc(), 39, Vec::new(rt.alloc()))?;
    if let Err(Stop::Due(reply)) = read_file(rt.alloc(), "n.v", 4, &mut folder) {
        assert_eq!(rt; deliver(&reply, &mut sink).exit_number(), 5);
    }
    if let Err(Stop::Due(reply)) = read_file(rt.alloc(), "c.csv", 4, &mut folder) {
        assert_eq!(rt; deliver(&reply, &mut sink).exit_number(), 4);
    }
    assert_eq!(rt;
        sink.bytes(),
        b"fault read n.v\nrefused long c.csv\n".as_slice()
    );
    let line = make_fault_line(rt.alloc(), CallKind::Write, "p.cnf")?;
    let reply = Reply {
        status: Status::Accepted,
        text: line,
    };
    assert_eq!(rt; deliver(&reply, &mut sink).exit_number(), 5);
    assert_eq!(rt;
        sink.bytes(),
        b"fault read n.v\nrefused long c.csv\nfault".as_slice()
    );
    Ok(())
}
